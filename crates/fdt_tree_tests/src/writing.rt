use crate::checks::{check, check_row};
use crate::files::{
    BEGIN_NODE, END, END_NODE, N, NOP, PROP, file_of_words, push_many, tree_of, with_words,
};
use crate::vectors::{CHOSEN, DTC, EMPTY, NOPS};
use std::alloc::Global;
use std::process::Abort;

// The file is read and written.
fn again(rt: &impl Abort, alloc: Global, bytes: &[u8]) -> Vec<u8> {
    let tree = tree_of(rt, alloc, bytes);
    tree.write(alloc).expect(rt, "a file")
}

// A file, its changes, the number of zeros after it, the file that is written, and that one's changes.
type Row = (
    &'static [u8],
    &'static [(usize, u32)],
    usize,
    &'static [u8],
    &'static [(usize, u32)],
);

const FILES: [Row; 6] = [
    (&EMPTY, &[], 0, &EMPTY, &[]),
    (&CHOSEN, &[], 0, &CHOSEN, &[]),
    // with the reservation, and in dtc's order of names
    (&DTC, &[], 0, &DTC, &[]),
    // without the NOPs, the names that only they had, and the slack
    (&NOPS, &[], 0, &DTC, &[]),
    // with the processor that boots
    (
        &CHOSEN,
        &[(28, 0x102_0304)],
        0,
        &CHOSEN,
        &[(28, 0x102_0304)],
    ),
    // as `dtc -S 512` makes it: 512 bytes by its header, zeros after the strings
    (&DTC, &[(4, 512)], 224, &DTC, &[]),
];

fn check_file(rt: &impl Abort, alloc: Global, file: &Row, row: usize) {
    let (file, changes, zeros, want, want_changes) = file;
    let mut bytes = with_words(rt, alloc, file, changes);
    push_many(rt, &mut bytes, 0, *zeros);
    let want = with_words(rt, alloc, want, want_changes);
    check_row(rt, again(rt, alloc, &bytes) == want, row);
}

#[test]
fn files_come_back(rt: HostRuntime) {
    for row in 0..FILES.len() {
        check_file(&rt, rt.alloc(), &FILES[row], row);
    }
}

// A property that is set in an empty root is written with its new node and its name.
#[test]
fn what_is_set_is_written(rt: HostRuntime) {
    let mut tree = tree_of(&rt, rt.alloc(), &EMPTY);
    tree.set(rt.alloc(), b"/chosen", b"bootargs", b"quiet\0")
        .expect(&rt, "it is set");
    let bytes = tree.write(rt.alloc()).expect(&rt, "a file");
    check(&rt, bytes.as_slice() == CHOSEN.as_slice(), "the file");
}

// A block with NOPs and a word after END, before strings of which one is not used and another is present
// twice.
const SLACK: [u32; 22] = [
    NOP, BEGIN_NODE, 0, NOP, PROP, 1, 4, 0x31ffffff, PROP, 0, 2, BEGIN_NODE, N, PROP, 0, 6, NOP,
    END_NODE, END_NODE, NOP, END, 7,
];

const WITHOUT_SLACK: [u32; 17] = [
    BEGIN_NODE, 0, PROP, 1, 0, 0x31000000, PROP, 0, 2, BEGIN_NODE, N, PROP, 0, 2, END_NODE,
    END_NODE, END,
];

const WITH_A_SUFFIX: [u32; 7] = [BEGIN_NODE, 0, PROP, 0, 1, END_NODE, END];

const WITH_A_NAME: [u32; 7] = [BEGIN_NODE, 0, PROP, 0, 0, END_NODE, END];

// Words and strings, those that are written, and the bytes of that file.
type Block = (
    &'static [u32],
    &'static [u8],
    &'static [u32],
    &'static [u8],
    usize,
);

const BLOCKS: [Block; 3] = [
    // `reg` without `x` before it
    (&WITH_A_SUFFIX, b"xreg\0", &WITH_A_NAME, b"reg\0", 88),
    (&WITH_A_NAME, b"reg\0", &WITH_A_NAME, b"reg\0", 88),
    (&SLACK, b"z\0a\0b\0a\0", &WITHOUT_SLACK, b"b\0a\0", 128),
];

fn check_block(rt: &impl Abort, alloc: Global, block: &Block, row: usize) {
    let (block, strings, want_block, want_strings, len) = block;
    let bytes = file_of_words(rt, alloc, block, strings);
    let want = file_of_words(rt, alloc, want_block, want_strings);
    check(rt, want.len() == *len, "the length");
    check_row(rt, again(rt, alloc, &bytes) == want, row);
}

#[test]
fn slack_is_left_out(rt: HostRuntime) {
    for row in 0..BLOCKS.len() {
        check_block(&rt, rt.alloc(), &BLOCKS[row], row);
    }
}
