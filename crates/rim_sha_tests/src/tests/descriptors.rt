//! Digests of descriptors.
use super::{check, fill, front, wide_front};
use rim_sha::{
    sha256_descriptor, sha256_eight_descriptors, sha256_four_descriptors, sha512_descriptor,
    sha512_four_descriptors,
};
use sha2::{Digest, Sha256, Sha512};
use std::process::Abort;

/// A descriptor of 128 pseudo-random bytes and as many zeros, with one byte changed.
fn descriptor(seed: u32, place: u8, byte: u8) -> [u8; 256] {
    let mut bytes = [0; 256];
    fill(&mut bytes[..128], seed);
    bytes[usize::from(place)] = byte;
    bytes
}

/// Descriptors with zeros after 128 bytes, whose seeds follow one another.
fn descriptors<const N: usize>(seed: u32) -> [[u8; 256]; N] {
    let mut all = [[0; 256]; N];
    let mut next = seed;
    for j in 0..N {
        all[j] = descriptor(next, 0, 1);
        next = next.wrapping_add(1);
    }
    all
}

/// Seed, place and byte of descriptors, and the first eight bytes of their digests by hashlib: of SHA-256 and of SHA-512.
const DIGESTS: [(u32, u8, u8, u64, u64); 7] = [
    (0, 0, 0, 0x59ad_ac6b_5925_2d4a, 0x8fcb_ef67_d6ad_7f17),
    (1, 127, 255, 0x58b5_ec42_a6c7_9f3d, 0xebc1_7c5c_e6a3_5970),
    (2, 128, 0, 0xfaeb_9ecf_46ab_5fac, 0x3267_1ffd_4868_2ede),
    (3, 128, 1, 0x2ccd_81a1_0af8_2ed4, 0xc6d0_a8f5_2fd3_0bd2),
    (4, 191, 128, 0xd390_9480_b8ff_c2ba, 0x459c_42c5_2f16_bb3f),
    (5, 192, 7, 0x0adf_b816_f75e_205d, 0x4255_73b3_7625_a1a1),
    (6, 255, 1, 0x5857_9e83_92a8_0be8, 0x833e_572d_5411_893c),
];

fn check_front(rt: &impl Abort, seed: u32, place: u8, byte: u8, digest: u64, wide: u64) {
    let descriptor = descriptor(seed, place, byte);
    let found = front(&sha256_descriptor(&descriptor));
    check(rt, found == digest, "SHA-256, seed", u64::from(seed));
    let found = wide_front(&sha512_descriptor(&descriptor));
    check(rt, found == wide, "SHA-512, seed", u64::from(seed));
}

#[test]
fn digests_of_another_program(rt: HostRuntime) {
    for (seed, place, byte, digest, wide) in &DIGESTS {
        check_front(&rt, *seed, *place, *byte, *digest, *wide);
    }
}

/// The digests of a descriptor are those of `sha2`.
fn check_one(rt: &impl Abort, descriptor: &[u8; 256], what: &str, number: u64) {
    let digest = sha256_descriptor(descriptor);
    check(rt, digest == Sha256::digest(descriptor), what, number);
    let wide = sha512_descriptor(descriptor);
    check(rt, wide == Sha512::digest(descriptor), what, number);
}

#[test]
fn tails_of_zeros(rt: HostRuntime) {
    for seed in 0..1000u32 {
        check_one(&rt, &descriptor(seed, 0, 1), "seed", u64::from(seed));
    }
}

#[test]
fn one_byte_of_the_tail(rt: HostRuntime) {
    for place in 128..=255u8 {
        check_one(&rt, &descriptor(7, place, 1), "place", u64::from(place));
    }
}

/// The digests by `sha2`, one after another.
fn sha256_of_each<const N: usize>(descriptors: &[[u8; 256]; N]) -> [[u8; 32]; N] {
    let mut out = [[0; 32]; N];
    for j in 0..N {
        out[j] = Sha256::digest(&descriptors[j]);
    }
    out
}

fn sha512_of_each<const N: usize>(descriptors: &[[u8; 256]; N]) -> [[u8; 64]; N] {
    let mut out = [[0; 64]; N];
    for j in 0..N {
        out[j] = Sha512::digest(&descriptors[j]);
    }
    out
}

/// The digests of four descriptors are those of `sha2`, each in its place.
fn check_four(rt: &impl Abort, four: &[[u8; 256]; 4], what: &str, number: u64) {
    let digests = sha256_four_descriptors(four);
    check(rt, digests == sha256_of_each(four), what, number);
    let wide = sha512_four_descriptors(four);
    check(rt, wide == sha512_of_each(four), what, number);
}

fn check_eight(rt: &impl Abort, eight: &[[u8; 256]; 8], what: &str, number: u64) {
    let digests = sha256_eight_descriptors(eight);
    check(rt, digests == sha256_of_each(eight), what, number);
}

#[test]
fn tails_of_zeros_side_by_side(rt: HostRuntime) {
    for seed in 0..1000u32 {
        check_four(&rt, &descriptors(4 * seed), "seed", u64::from(seed));
        check_eight(&rt, &descriptors(8 * seed), "seed", u64::from(seed));
    }
}

/// Fills the last 128 bytes of each.
fn fill_tails(descriptors: &mut [[u8; 256]], seed: u32) {
    for bytes in descriptors.iter_mut() {
        fill(&mut bytes[128..], seed);
    }
}

fn check_filled(rt: &impl Abort, seed: u32) {
    let mut four: [[u8; 256]; 4] = descriptors(seed);
    fill_tails(&mut four, seed);
    check_four(rt, &four, "seed", u64::from(seed));
    let mut eight: [[u8; 256]; 8] = descriptors(seed);
    fill_tails(&mut eight, seed);
    check_eight(rt, &eight, "seed", u64::from(seed));
}

#[test]
fn no_tail_of_zeros(rt: HostRuntime) {
    for seed in 0..100u32 {
        check_filled(&rt, seed);
    }
}

/// Each of four lanes in turn has another descriptor.
fn check_other_of_four(rt: &impl Abort, same: &[[u8; 256]; 4], other: &[u8; 256]) {
    for lane in 0..4usize {
        let mut four = *same;
        four[lane] = *other;
        check_four(rt, &four, "lane", lane as u64);
    }
}

fn check_other_of_eight(rt: &impl Abort, same: &[[u8; 256]; 8], other: &[u8; 256]) {
    for lane in 0..8usize {
        let mut eight = *same;
        eight[lane] = *other;
        check_eight(rt, &eight, "lane", lane as u64);
    }
}

/// One lane has a byte in its tail.
#[test]
fn a_byte_of_one_tail(rt: HostRuntime) {
    check_other_of_four(&rt, &descriptors(11), &descriptor(11, 160, 9));
    check_other_of_eight(&rt, &descriptors(11), &descriptor(11, 255, 9));
}

/// One lane has another head than the others.
#[test]
fn one_that_differs(rt: HostRuntime) {
    let same = descriptor(3, 0, 1);
    let other = descriptor(4, 0, 1);
    check_other_of_four(&rt, &[same; 4], &other);
    check_other_of_eight(&rt, &[same; 8], &other);
}
