use crate::checks::{
    Value, check, check_head, check_root, check_row, check_values, has_properties,
};
use crate::files::{
    BEGIN_NODE, END, END_NODE, N, NOP, PROP, file, file_of_words, push_many, push_words, tree_of,
    with_words, words,
};
use crate::vectors::{CHOSEN, EMPTY, LATE, SUFFIX};
use fdt_tree::FdtFault::{
    BadBlock, BadMagic, BadName, BadReserve, BadString, BadToken, BadVersion, LateProperty, Short,
    TooDeep, TooLarge,
};
use fdt_tree::{FdtFault, Reservation, read};
use std::alloc::Global;
use std::process::Abort;

fn fault(alloc: Global, bytes: &[u8]) -> Option<FdtFault> {
    read(alloc, bytes).err()
}

#[test]
fn an_empty_root(rt: HostRuntime) {
    let tree = tree_of(&rt, rt.alloc(), &EMPTY);
    check_head(&rt, &tree, 0, &[]);
    check_root(&rt, &tree, 0, 0);
}

const VALUES_OF_EMPTY: [Value; 1] = [(b"/", b"reg", None)];

const VALUES_OF_CHOSEN: [Value; 10] = [
    (b"/chosen", b"bootargs", Some(b"quiet\0")),
    // nothing is found
    (b"/", b"bootargs", None),
    (b"", b"bootargs", None),
    (b"chosen", b"bootargs", None),
    (b"/chosen/", b"bootargs", None),
    (b"//chosen", b"bootargs", None),
    (b"/chosen/chosen", b"bootargs", None),
    (b"/chose", b"bootargs", None),
    (b"/chosen", b"bootarg", None),
    (b"/chosen", b"", None),
];

const VALUES_OF_SUFFIX: [Value; 2] = [(b"/", b"reg", Some(b"")), (b"/", b"xreg", None)];

const OVERLAPPED: [Value; 2] = [
    (b"/chosen", b"chosen", Some(b"quiet\0")),
    (b"/chosen", b"bootargs", None),
];

// A file, its changes, and the values after that.
type Row = (&'static [u8], &'static [(usize, u32)], &'static [Value]);

const ROWS: [Row; 4] = [
    (&EMPTY, &[], &VALUES_OF_EMPTY),
    (&CHOSEN, &[], &VALUES_OF_CHOSEN),
    // the end of another name
    (&SUFFIX, &[], &VALUES_OF_SUFFIX),
    // the strings are the name of a node
    (&CHOSEN, &[(12, 68), (32, 7)], &OVERLAPPED),
];

fn check_file(rt: &impl Abort, alloc: Global, row: &Row) {
    let (file, changes, values) = row;
    let bytes = with_words(rt, alloc, file, changes);
    check_values(rt, &tree_of(rt, alloc, &bytes), values);
}

#[test]
fn values(rt: HostRuntime) {
    for row in &ROWS {
        check_file(&rt, rt.alloc(), row);
    }
}

#[test]
fn the_end_of_another_name(rt: HostRuntime) {
    let tree = tree_of(&rt, rt.alloc(), &SUFFIX);
    check(&rt, has_properties(&tree, tree.root(), &[b"reg"]), "names");
}

// A root with `reg` as 1 and as 2, a node `n` with `reg` as 3 and a node `n` in it, and another with 4.
const EQUAL_NAMES: [u32; 29] = [
    BEGIN_NODE, 0, PROP, 1, 0, 0x31000000, PROP, 1, 4, 0x32000000, BEGIN_NODE, N, PROP, 1, 4,
    0x33000000, BEGIN_NODE, N, END_NODE, END_NODE, BEGIN_NODE, N, PROP, 1, 0, 0x34000000, END_NODE,
    END_NODE, END,
];

const EQUAL_VALUES: [Value; 3] = [
    (b"/", b"reg", Some(b"1")),
    (b"/n", b"reg", Some(b"3")),
    (b"/n/n", b"reg", None),
];

const A: u32 = 0x61000000;

// Each token after NOPs, and a word after END.
const NOPS_BEFORE: [u32; 20] = [
    NOP, NOP, BEGIN_NODE, 0, NOP, PROP, 4, 0, 7, NOP, BEGIN_NODE, A, NOP, END_NODE, NOP, END_NODE,
    NOP, NOP, END, 0xffffffff,
];

const NOPS_VALUES: [Value; 1] = [(b"/", b"reg", Some(&[0, 0, 0, 7]))];

// A structure block, its strings, values, and how many properties and children the root has.
type Block = (
    &'static [u32],
    &'static [u8],
    &'static [Value],
    usize,
    usize,
);

const BLOCKS: [Block; 2] = [
    (&EQUAL_NAMES, b"reg\0reg\0", &EQUAL_VALUES, 2, 2),
    (&NOPS_BEFORE, b"reg\0", &NOPS_VALUES, 1, 1),
];

fn check_values_of(rt: &impl Abort, alloc: Global, row: &Block) {
    let (block, strings, values, properties, children) = row;
    let tree = tree_of(rt, alloc, &file_of_words(rt, alloc, block, strings));
    check_values(rt, &tree, values);
    check_root(rt, &tree, *properties, *children);
}

#[test]
fn values_of_blocks(rt: HostRuntime) {
    for row in &BLOCKS {
        check_values_of(&rt, rt.alloc(), row);
    }
}

// Changes of a file, each a word and the byte at which it begins, and the fault that they cause.
type Change = (&'static [(usize, u32)], Option<FdtFault>);

const CHANGES_OF_EMPTY: [Change; 39] = [
    // the first check that fails decides
    (&[(0, 0xd00dfeec)], Some(BadMagic)),
    (&[(0, 0xedfe0dd0)], Some(BadMagic)),
    (&[(20, 16)], Some(BadVersion)),
    (&[(20, 18)], Some(BadVersion)),
    (&[(24, 18)], Some(BadVersion)),
    (&[(24, 17)], None),
    (&[(24, 0)], None),
    // totalsize, between the header's and the file's length, with the blocks inside it
    (&[(4, 39)], Some(BadBlock)),
    (&[(4, 71)], Some(BadBlock)),
    (&[(4, 73)], Some(BadBlock)),
    (&[(4, 0xffffffff)], Some(BadBlock)),
    // the structure block's place and size
    (&[(8, 54)], Some(BadBlock)),
    (&[(8, 60)], Some(BadBlock)),
    (&[(8, 0xfffffffc)], Some(BadBlock)),
    (&[(36, 17)], Some(BadBlock)),
    (&[(36, 0xfffffff0)], Some(BadBlock)),
    (&[(36, 15)], Some(BadToken)),
    (&[(36, 0)], Some(BadToken)),
    // the strings block's
    (&[(12, 73)], Some(BadBlock)),
    (&[(12, 1)], None),
    (&[(32, 1)], Some(BadBlock)),
    (&[(12, 0xffffffff)], Some(BadBlock)),
    // the reservations'
    (&[(16, 44)], Some(BadBlock)),
    (&[(16, 80)], Some(BadBlock)),
    (&[(16, 72)], Some(BadReserve)),
    (&[(16, 0x40)], Some(BadReserve)),
    // the processor that boots is any
    (&[(28, 0xffffffff)], None),
    // tokens
    (&[(68, 0)], Some(BadToken)),
    (&[(68, BEGIN_NODE)], Some(BadToken)),
    (&[(68, END_NODE)], Some(BadToken)),
    (&[(68, PROP)], Some(BadToken)),
    (&[(68, NOP)], Some(BadToken)),
    (&[(64, END)], Some(BadToken)),
    (&[(56, END)], Some(BadToken)),
    (&[(56, 0x01000000)], Some(BadToken)),
    // a root with a name, by its first byte; the last of its padding is not looked at
    (&[(60, 0x61000000)], Some(BadName)),
    (&[(60, 0x00616161)], None),
    // no reservations, and no token
    (&[(16, 72), (36, 0)], Some(BadReserve)),
    // the strings are the whole file
    (&[(12, 0), (32, 72)], None),
];

const CHANGES_OF_SUFFIX: [Change; 14] = [
    // the offset of the property's name
    (&[(72, 0)], None),
    (&[(72, 3)], None),
    (&[(72, 4)], Some(BadName)),
    (&[(72, 5)], Some(BadString)),
    (&[(72, 0xffffffff)], Some(BadString)),
    // the strings block ends before the zero byte
    (&[(32, 4)], Some(BadString)),
    (&[(32, 0)], Some(BadString)),
    // the structure block ends after the token's number, its length and its offset
    (&[(36, 12)], Some(BadToken)),
    (&[(36, 16)], Some(BadToken)),
    (&[(36, 20)], Some(BadToken)),
    // the value's length: 8 bytes are left, the tokens END_NODE and END
    (&[(68, 8)], Some(BadToken)),
    (&[(68, 9)], Some(BadToken)),
    (&[(68, 0xffffffff)], Some(BadToken)),
    (&[(68, 4)], Some(BadToken)),
];

const LATE_AS_IT_IS: [Change; 1] = [(&[], Some(LateProperty))];

fn check_change(rt: &impl Abort, alloc: Global, bytes: &[u8], change: &Change) {
    let (changes, want) = change;
    let changed = with_words(rt, alloc, bytes, changes);
    assert!(rt; fault(alloc, &changed) == *want, "{changes:?}");
}

fn check_changes(rt: &impl Abort, alloc: Global, bytes: &[u8], rows: &[Change]) {
    for row in rows {
        check_change(rt, alloc, bytes, row);
    }
}

const CHANGED: [(&[u8], &[Change]); 3] = [
    (&EMPTY, &CHANGES_OF_EMPTY),
    (&SUFFIX, &CHANGES_OF_SUFFIX),
    (&LATE, &LATE_AS_IT_IS),
];

#[test]
fn changed_words(rt: HostRuntime) {
    for (bytes, rows) in &CHANGED {
        check_changes(&rt, rt.alloc(), bytes, rows);
    }
}

// The fault of the file's first bytes.
fn check_cut(rt: &impl Abort, alloc: Global, bytes: &[u8], len: usize, want: FdtFault) {
    let front = bytes.get(..len).expect(rt, "a length");
    check_row(rt, fault(alloc, front) == Some(want), len);
}

#[test]
fn a_file_that_is_cut(rt: HostRuntime) {
    for len in 0..117 {
        let want = if len < 40 { Short } else { BadBlock };
        check_cut(&rt, rt.alloc(), &CHOSEN, len, want);
    }
}

// A header in which all is wrong.
const WRONG: [u32; 10] = [0, 39, 1, 0xffffffff, 1, 16, 18, 0, 1, 1];

// Each with all later ones wrong too.
#[test]
fn the_first_check_of_a_header_decides(rt: HostRuntime) {
    let short = words(&rt, rt.alloc(), &WRONG);
    check_cut(&rt, rt.alloc(), &short, 39, Short);
    check_cut(&rt, rt.alloc(), &short, 40, BadMagic);
}

// Such a header with the number at its begin, and 2,097,153 bytes in all.
fn large(rt: &impl Abort, alloc: Global) -> Vec<u8> {
    let short = words(rt, alloc, &WRONG);
    let mut large = with_words(rt, alloc, &short, &[(0, 0xd00dfeed)]);
    push_many(rt, &mut large, 0, 2_097_113);
    large
}

const CHANGES_OF_LARGE: [Change; 2] = [
    (&[], Some(BadVersion)),
    (&[(20, 17), (24, 17)], Some(TooLarge)),
];

// One byte fewer, which are not too many.
const CHANGES_WITHIN: [Change; 1] = [(&[(20, 17), (24, 17)], Some(BadBlock))];

#[test]
fn the_first_check_of_a_large_file_decides(rt: HostRuntime) {
    let mut bytes = large(&rt, rt.alloc());
    check(&rt, bytes.len() == 2_097_153, "2 MiB and a byte");
    check_changes(&rt, rt.alloc(), &bytes, &CHANGES_OF_LARGE);
    bytes.truncate(2_097_152);
    check_changes(&rt, rt.alloc(), &bytes, &CHANGES_WITHIN);
}

const CHANGES_OF_SLACK: [Change; 3] = [
    // after totalsize, up to the limit
    (&[], None),
    // within totalsize, and then within the structure block, after END
    (&[(4, 2_097_152)], None),
    (&[(4, 2_097_152), (36, 2_000_000)], None),
];

#[test]
fn slack(rt: HostRuntime) {
    let mut bytes = with_words(&rt, rt.alloc(), &CHOSEN, &[]);
    push_many(&rt, &mut bytes, 0xff, 2_097_035);
    check(&rt, bytes.len() == 2_097_152, "2 MiB");
    check_changes(&rt, rt.alloc(), &bytes, &CHANGES_OF_SLACK);
}

// The header, whose reservations are in the structure block; a pair of zeros; a property that ends with two zeros,
// which are tokens and padding; and `reg`.
const ZEROS_IN: [u32; 26] = [
    0xd00dfeed, 104, 56, 100, 72, 17, 16, 0, 4, 44, 0, 0, 0, 0, BEGIN_NODE, 0, PROP, 16, 0, 0, 0,
    0, 0, END_NODE, END, 0x72656700,
];

// The header, three reservations and the pair of zeros, and an empty root.
const RESERVED: [u32; 30] = [
    0xd00dfeed, 120, 104, 120, 40, 17, 16, 3, 0, 16, 0, 0, 0, 1, 0x80000000, 0, 0, 0, 0xffffffff,
    0xffffffff, 1, 2, 0, 0, 0, 0, BEGIN_NODE, 0, END_NODE, END,
];

const RESERVATIONS: [Reservation; 3] = [
    Reservation {
        address: 0,
        size: 1,
    },
    Reservation {
        address: 1 << 63,
        size: 0,
    },
    Reservation {
        address: u64::MAX,
        size: 0x1_0000_0002,
    },
];

// Words, the processor that boots, and the reservations.
type Head = (&'static [u32], u32, &'static [Reservation]);

const HEADS: [Head; 2] = [(&RESERVED, 3, &RESERVATIONS), (&ZEROS_IN, 0, &[])];

fn check_reserved(rt: &impl Abort, alloc: Global, row: &Head) {
    let (block, boot_cpu, reservations) = row;
    let tree = tree_of(rt, alloc, &words(rt, alloc, block));
    check_head(rt, &tree, *boot_cpu, reservations);
}

#[test]
fn reservations(rt: HostRuntime) {
    for row in &HEADS {
        check_reserved(&rt, rt.alloc(), row);
    }
}

// The header, an empty root, and the pair of zeros after it.
const ZEROS_AFTER: [u32; 18] = [
    0xd00dfeed, 72, 40, 72, 56, 17, 16, 0, 0, 16, BEGIN_NODE, 0, END_NODE, END, 0, 0, 0, 0,
];

// The pair of zeros ends where totalsize does; then a byte before that.
const CHANGES_OF_ZEROS: [Change; 3] = [
    (&[], None),
    (&[(4, 71)], Some(BadBlock)),
    (&[(4, 71), (12, 0)], Some(BadReserve)),
];

#[test]
fn reservations_at_the_end(rt: HostRuntime) {
    let bytes = words(&rt, rt.alloc(), &ZEROS_AFTER);
    check_changes(&rt, rt.alloc(), &bytes, &CHANGES_OF_ZEROS);
}

// Structure blocks whose tokens are at fault.
const BAD_TOKENS: [[u32; 10]; 12] = [
    // END before the root and inside a node, a second root, tokens outside the root
    [END, 0, 0, 0, 0, 0, 0, 0, 0, 0],
    [BEGIN_NODE, 0, END, 0, 0, 0, 0, 0, 0, 0],
    [
        BEGIN_NODE, 0, END_NODE, BEGIN_NODE, 0, END_NODE, END, 0, 0, 0,
    ],
    [END_NODE, END, 0, 0, 0, 0, 0, 0, 0, 0],
    [PROP, 0, 0, BEGIN_NODE, 0, END_NODE, END, 0, 0, 0],
    [BEGIN_NODE, 0, END_NODE, PROP, 0, 0, END, 0, 0, 0],
    [BEGIN_NODE, 0, END_NODE, END_NODE, END, 0, 0, 0, 0, 0],
    [BEGIN_NODE, 0, 5, 0, 0, 0, 0, 0, 0, 0],
    // a name without an end, which is not legal either
    [
        BEGIN_NODE, 0, BEGIN_NODE, 0x20202020, 0x20202020, 0x20202020, 0x20202020, 0x20202020,
        0x20202020, 0x20202020,
    ],
    // a property after a child: its length is checked before that
    [BEGIN_NODE, 0, BEGIN_NODE, A, END_NODE, PROP, 13, 99, 0, 0],
    // a value that is too long, and one after which the block ends
    [BEGIN_NODE, 0, PROP, 21, 99, 0, 0, 0, 0, 0],
    [BEGIN_NODE, 0, PROP, 20, 0, 0, 0, 0, 0, 0],
];

// Such blocks with other faults.
const OTHER_FAULTS: [([u32; 10], FdtFault); 3] = [
    // a property after a child: its name is checked after that
    (
        [BEGIN_NODE, 0, BEGIN_NODE, A, END_NODE, PROP, 8, 99, 0, 0],
        LateProperty,
    ),
    // the value ends with the block, and its padding is cut off
    (
        [BEGIN_NODE, 0, BEGIN_NODE, A, END_NODE, PROP, 5, 99, 0, 0],
        LateProperty,
    ),
    ([BEGIN_NODE, 0, PROP, 20, 99, 0, 0, 0, 0, 0], BadString),
];

// Names of nodes that are not legal.
const BAD_NAMES: [u32; 5] = [0, 0x61200000, 0x2f000000, 0x7f000000, 0x61ff0000];

// Where names of properties begin that are outside, without an end, empty, with a slash, and their faults.
const NAMES_OF_PROPERTIES: [(u32, FdtFault); 5] = [
    (13, BadString),
    (9, BadString),
    (3, BadName),
    (8, BadName),
    (4, BadName),
];

// The fault of a structure block, given the strings.
fn check_block(
    rt: &impl Abort,
    alloc: Global,
    block: &[u32],
    strings: &[u8],
    want: Option<FdtFault>,
) {
    let bytes = file_of_words(rt, alloc, block, strings);
    assert!(rt; fault(alloc, &bytes) == want, "{block:?}, {strings:?}");
}

// The fault of a structure block, given the strings `reg`, `a/b` and `tail` without its zero byte.
fn check_tokens(rt: &impl Abort, alloc: Global, block: &[u32; 10], want: FdtFault) {
    check_block(rt, alloc, block, b"reg\0a/b\0\0tail", Some(want));
}

#[test]
fn faults_of_tokens(rt: HostRuntime) {
    for block in &BAD_TOKENS {
        check_tokens(&rt, rt.alloc(), block, BadToken);
    }
    for (block, want) in &OTHER_FAULTS {
        check_tokens(&rt, rt.alloc(), block, *want);
    }
}

#[test]
fn faults_of_names(rt: HostRuntime) {
    for name in BAD_NAMES {
        let block = [
            BEGIN_NODE, 0, BEGIN_NODE, name, END_NODE, END_NODE, END, 0, 0, 0,
        ];
        check_tokens(&rt, rt.alloc(), &block, BadName);
    }
    for (place, want) in &NAMES_OF_PROPERTIES {
        let block = [BEGIN_NODE, 0, PROP, 0, *place, END_NODE, END, 0, 0, 0];
        check_tokens(&rt, rt.alloc(), &block, *want);
    }
}

const WITH_PROPERTY: [u32; 7] = [BEGIN_NODE, 0, PROP, 0, 0, END_NODE, END];

// A node's and a property's name of one byte.
fn check_name(rt: &impl Abort, alloc: Global, byte: u32) {
    let legal = byte > 32 && byte < 127 && byte != 47;
    let want = if legal { None } else { Some(BadName) };
    let name = byte.wrapping_mul(0x01000000);
    let node = [BEGIN_NODE, 0, BEGIN_NODE, name, END_NODE, END_NODE, END];
    check_block(rt, alloc, &node, b"", want);
    check_block(rt, alloc, &WITH_PROPERTY, &name.to_be_bytes(), want);
}

#[test]
fn what_names_may_have(rt: HostRuntime) {
    for byte in 1..=255u32 {
        check_name(&rt, rt.alloc(), byte);
    }
}

// Nodes within one another to this depth. The deepest one's name has a space in it, where `bad` is true.
fn deep(rt: &impl Abort, alloc: Global, depth: u32, bad: bool) -> Vec<u8> {
    let mut block = words(rt, alloc, &[BEGIN_NODE, 0]);
    for level in 2..=depth {
        let name = if bad && level == depth {
            0x61200000
        } else {
            0x61000000
        };
        push_words(rt, &mut block, &[BEGIN_NODE, name]);
    }
    block
}

// As many ends.
fn push_ends(rt: &impl Abort, block: &mut Vec<u8>, depth: u32) {
    for _ in 0..depth {
        push_words(rt, block, &[END_NODE]);
    }
    push_words(rt, block, &[END]);
}

// A depth, whether the deepest name is bad, and the fault.
type Depth = (u32, bool, Option<FdtFault>);

const DEPTHS: [Depth; 5] = [
    (63, false, None),
    (64, false, None),
    (64, true, Some(BadName)),
    (65, false, Some(TooDeep)),
    (65, true, Some(BadName)),
];

fn check_depth(rt: &impl Abort, alloc: Global, row: &Depth) {
    let (depth, bad, want) = row;
    let mut block = deep(rt, alloc, *depth, *bad);
    push_ends(rt, &mut block, *depth);
    let bytes = file(rt, alloc, &block, b"");
    assert!(rt; fault(alloc, &bytes) == *want, "{depth} deep, bad: {bad}");
}

#[test]
fn depths(rt: HostRuntime) {
    for row in &DEPTHS {
        check_depth(&rt, rt.alloc(), row);
    }
}
