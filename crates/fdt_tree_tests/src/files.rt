//! Flattened devicetrees, put together from words.

use fdt_tree::{Tree, read};
use std::alloc::Global;
use std::process::Abort;

pub const BEGIN_NODE: u32 = 1;

pub const END_NODE: u32 = 2;

pub const PROP: u32 = 3;

pub const NOP: u32 = 4;

pub const END: u32 = 9;

/// The name `n`.
pub const N: u32 = 0x6e000000;

/// Adds the words, big endian.
pub fn push_words(rt: &impl Abort, out: &mut Vec<u8>, words: &[u32]) {
    for word in words {
        out.extend_from_slice(&word.to_be_bytes())
            .expect(rt, "memory");
    }
}

/// The words, big endian.
pub fn words(rt: &impl Abort, alloc: Global, words: &[u32]) -> Vec<u8> {
    let mut out = Vec::new(alloc);
    push_words(rt, &mut out, words);
    out
}

/// Adds a byte this many times.
pub fn push_many(rt: &impl Abort, out: &mut Vec<u8>, byte: u8, count: usize) {
    for _ in 0..count {
        out.push(byte).expect(rt, "memory");
    }
}

pub fn push_bytes(rt: &impl Abort, out: &mut Vec<u8>, bytes: &[u8]) {
    out.extend_from_slice(bytes).expect(rt, "memory");
}

/// The header of a file with no reservations, a structure block and strings of these sizes, and the pair of zeros after it.
fn header(block: u32, strings: u32) -> [u32; 14] {
    let at = block.saturating_add(56);
    let total = at.saturating_add(strings);
    [
        0xd00dfeed, total, 56, at, 40, 17, 16, 0, strings, block, 0, 0, 0, 0,
    ]
}

fn length(rt: &impl Abort, bytes: &[u8]) -> u32 {
    u32::try_from(bytes.len()).expect(rt, "a length")
}

/// A file with no reservations, this structure block and these strings, and nothing else.
pub fn file(rt: &impl Abort, alloc: Global, block: &[u8], strings: &[u8]) -> Vec<u8> {
    let header = header(length(rt, block), length(rt, strings));
    let mut out = words(rt, alloc, &header);
    push_bytes(rt, &mut out, block);
    push_bytes(rt, &mut out, strings);
    out
}

/// Puts a word at this byte.
fn set_word(rt: &impl Abort, bytes: &mut [u8], at: usize, word: u32) {
    let (_, rest) = bytes.split_at_mut_checked(at).expect(rt, "a word inside");
    let (place, _) = rest.split_at_mut_checked(4).expect(rt, "a word inside");
    place.copy_from_slice(&word.to_be_bytes());
}

/// The same bytes with these changes in turn: a word, and the byte at which it begins.
pub fn with_words(
    rt: &impl Abort,
    alloc: Global,
    bytes: &[u8],
    changes: &[(usize, u32)],
) -> Vec<u8> {
    let mut out = bytes.to_vec(alloc).expect(rt, "memory");
    for (at, word) in changes {
        set_word(rt, &mut out, *at, *word);
    }
    out
}

/// Such a file, its structure block put together from these words.
pub fn file_of_words(rt: &impl Abort, alloc: Global, block: &[u32], strings: &[u8]) -> Vec<u8> {
    file(rt, alloc, &words(rt, alloc, block), strings)
}

/// The tree of a file.
pub fn tree_of(rt: &impl Abort, alloc: Global, bytes: &[u8]) -> Tree {
    read(alloc, bytes).expect(rt, "a tree")
}
