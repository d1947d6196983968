//! Files as large as they may be. Each is to be read and written in a moment, whatever it holds.

use crate::checks::{Value, check, check_root, check_values};
use crate::files::{
    BEGIN_NODE, END, END_NODE, PROP, file, push_bytes, push_many, push_words, tree_of, words,
};
use crate::vectors::EMPTY;
use fdt_tree::{FdtFault, Tree, read};
use std::alloc::Global;
use std::process::Abort;

// A root with `count` properties without bytes, whose names begin at each of the places in turn.
fn properties(rt: &impl Abort, alloc: Global, count: u32, places: u32) -> Vec<u8> {
    let mut block = words(rt, alloc, &[BEGIN_NODE, 0]);
    for i in 0..count {
        let place = i.checked_rem(places).unwrap_or(0);
        push_words(rt, &mut block, &[PROP, 0, place]);
    }
    push_words(rt, &mut block, &[END_NODE, END]);
    block
}

// A file with such a root and these strings.
fn file_of(rt: &impl Abort, alloc: Global, count: u32, places: u32, strings: &[u8]) -> Vec<u8> {
    file(rt, alloc, &properties(rt, alloc, count, places), strings)
}

// A root with `count` nodes `a`.
fn nodes(rt: &impl Abort, alloc: Global, count: u32) -> Vec<u8> {
    let mut block = words(rt, alloc, &[BEGIN_NODE, 0]);
    for _ in 0..count {
        push_words(rt, &mut block, &[BEGIN_NODE, 0x61000000, END_NODE]);
    }
    push_words(rt, &mut block, &[END_NODE, END]);
    block
}

// `count` letters.
fn letters(rt: &impl Abort, alloc: Global, count: usize) -> Vec<u8> {
    let mut out = Vec::new(alloc);
    push_many(rt, &mut out, b'a', count);
    out
}

// 1,048,576 letters and a zero byte.
fn long_name(rt: &impl Abort, alloc: Global) -> Vec<u8> {
    let mut out = letters(rt, alloc, 1_048_576);
    push_many(rt, &mut out, 0, 1);
    out
}

const REG: [Value; 1] = [(b"/", b"reg", Some(b""))];

#[test]
fn many_properties(rt: HostRuntime) {
    let bytes = file_of(&rt, rt.alloc(), 174_000, 1, b"reg\0");
    let tree = tree_of(&rt, rt.alloc(), &bytes);
    check_root(&rt, &tree, 174_000, 0);
    check_values(&rt, &tree, &REG);
}

const A: [Value; 1] = [(b"/", b"a", None)];

// Whether the property exists whose name begins at the last place.
fn has_last(rt: &impl Abort, tree: &Tree, strings: &[u8]) -> bool {
    let name = strings.get(79_999..1_048_576).expect(rt, "a name");
    tree.get(b"/", name).is_some()
}

fn check_too_large(rt: &impl Abort, alloc: Global, tree: &Tree) {
    let fault = tree.write(alloc).err();
    check(rt, fault == Some(FdtFault::TooLarge), "it is too large");
}

#[test]
fn many_ends_of_one_name(rt: HostRuntime) {
    let strings = long_name(&rt, rt.alloc());
    let bytes = file_of(&rt, rt.alloc(), 80_000, 80_000, &strings);
    let tree = tree_of(&rt, rt.alloc(), &bytes);
    check_root(&rt, &tree, 80_000, 0);
    check_values(&rt, &tree, &A);
    check(&rt, has_last(&rt, &tree, &strings), "the last name");
    check_too_large(&rt, rt.alloc(), &tree);
}

#[test]
fn one_long_name_of_many(rt: HostRuntime) {
    let strings = long_name(&rt, rt.alloc());
    let bytes = file_of(&rt, rt.alloc(), 60_000, 1, &strings);
    let tree = tree_of(&rt, rt.alloc(), &bytes);
    let again = tree.write(rt.alloc()).expect(&rt, "a file");
    check(&rt, again == bytes, "the file comes back");
}

#[test]
fn strings_without_an_end(rt: HostRuntime) {
    let strings = letters(&rt, rt.alloc(), 1_048_576);
    let bytes = file_of(&rt, rt.alloc(), 80_000, 80_000, &strings);
    let fault = read(rt.alloc(), &bytes).err();
    check(&rt, fault == Some(FdtFault::BadString), "no end");
}

// A root with this value, and 579,000 bytes after the file.
fn with_data(rt: &impl Abort, alloc: Global, value: &[u8]) -> Vec<u8> {
    let mut block = words(rt, alloc, &[BEGIN_NODE, 0, PROP, 711_024, 0]);
    push_bytes(rt, &mut block, value);
    push_words(rt, &mut block, &[END_NODE, END]);
    let mut out = file(rt, alloc, &block, b"data\0");
    push_many(rt, &mut out, 0xff, 579_000);
    out
}

#[test]
fn one_large_value(rt: HostRuntime) {
    let value = letters(&rt, rt.alloc(), 711_024);
    let bytes = with_data(&rt, rt.alloc(), &value);
    let tree = tree_of(&rt, rt.alloc(), &bytes);
    let found = tree.get(b"/", b"data");
    check(&rt, found == Some(value.as_slice()), "the value");
}

#[test]
fn many_nodes(rt: HostRuntime) {
    let block = nodes(&rt, rt.alloc(), 174_000);
    let tree = tree_of(&rt, rt.alloc(), &file(&rt, rt.alloc(), &block, b""));
    check_root(&rt, &tree, 0, 174_000);
}

// An empty root in which a property of this name was set, whose value is 2,097,064 letters.
fn with_value(rt: &impl Abort, alloc: Global, name: &[u8]) -> Tree {
    let value = letters(rt, alloc, 2_097_064);
    let mut tree = tree_of(rt, alloc, &EMPTY);
    tree.set(alloc, b"/", name, &value).expect(rt, "a value");
    tree
}

// 88 bytes are around the value: the header, the reservations, five words and the end of the padding,
// and the name.
#[test]
fn as_large_as_may_be(rt: HostRuntime) {
    let tree = with_value(&rt, rt.alloc(), b"abc");
    let bytes = tree.write(rt.alloc()).expect(&rt, "a file");
    check(&rt, bytes.len() == 2_097_152, "2 MiB");
    let again = tree_of(&rt, rt.alloc(), &bytes);
    let (found, want) = (again.get(b"/", b"abc"), tree.get(b"/", b"abc"));
    check(&rt, found == want, "the value");
}

#[test]
fn one_byte_too_large(rt: HostRuntime) {
    let tree = with_value(&rt, rt.alloc(), b"abcd");
    check_too_large(&rt, rt.alloc(), &tree);
}
