//! Messages are pseudo-random, or NIST's. Digests are compared with the kit's `sha2`, and some with Python's hashlib.
mod descriptors;
mod pages;
mod vectors;

use std::process::Abort;

/// One assertion for all tests, since each is proved. What is tried is said by a word and a number.
fn check(rt: &impl Abort, holds: bool, what: &str, number: u64) {
    assert!(rt; holds, "{what} {number}");
}

/// Fills bytes with the high bytes of a linear congruential generator's states after the seed.
fn fill(bytes: &mut [u8], seed: u32) {
    let mut x = seed;
    for byte in bytes.iter_mut() {
        x = x.wrapping_mul(1_664_525).wrapping_add(1_013_904_223);
        *byte = (x >> 24) as u8;
    }
}

/// The first eight bytes of a digest, which distinguish it from any other here.
fn front(digest: &[u8; 32]) -> u64 {
    let [a, b, c, d, e, f, g, h, ..] = *digest;
    u64::from_be_bytes([a, b, c, d, e, f, g, h])
}

/// The same of SHA-512.
fn wide_front(digest: &[u8; 64]) -> u64 {
    let [a, b, c, d, e, f, g, h, ..] = *digest;
    u64::from_be_bytes([a, b, c, d, e, f, g, h])
}
