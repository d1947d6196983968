//! Digests of messages side by side, which are the first bytes of pages.
ghost use Rattle.std.specs.Prelude.{◌≡◌, ◌%◌, ◌≤◌};

use super::{check, fill, front, wide_front};
use rim_sha::{sha256_eight, sha256_four, sha512_four};
use sha2::{Digest, Sha256, Sha512};
use std::process::Abort;

fn page(seed: u32) -> [u8; 4096] {
    let mut bytes = [0; 4096];
    fill(&mut bytes, seed);
    bytes
}

/// Four pages, whose seeds follow one another.
fn four_pages(seed: u32) -> [[u8; 4096]; 4] {
    [
        page(seed),
        page(seed.wrapping_add(1)),
        page(seed.wrapping_add(2)),
        page(seed.wrapping_add(3)),
    ]
}

/// Eight pages, whose seeds follow one another.
fn eight_pages(seed: u32) -> [[u8; 4096]; 8] {
    let [a, b, c, d] = four_pages(seed);
    let [e, f, g, h] = four_pages(seed.wrapping_add(4));
    [a, b, c, d, e, f, g, h]
}

pub(super) fn sha256_of_four(pages: &[[u8; 4096]; 4], size: usize) -> [[u8; 32]; 4]
    requires room { size ≤ 4096 }
    requires whole { size % 64 ≡ 0 }
{
    let [a, b, c, d] = pages;
    sha256_four(&[&a[..size], &b[..size], &c[..size], &d[..size]], size)
}

pub(super) fn sha256_of_eight(pages: &[[u8; 4096]; 8], size: usize) -> [[u8; 32]; 8]
    requires room { size ≤ 4096 }
    requires whole { size % 64 ≡ 0 }
{
    let [a, b, c, d, e, f, g, h] = pages;
    let messages = [
        &a[..size],
        &b[..size],
        &c[..size],
        &d[..size],
        &e[..size],
        &f[..size],
        &g[..size],
        &h[..size],
    ];
    sha256_eight(&messages, size)
}

pub(super) fn sha512_of_four(pages: &[[u8; 4096]; 4], size: usize) -> [[u8; 64]; 4]
    requires room { size ≤ 4096 }
    requires whole { size % 128 ≡ 0 }
{
    let [a, b, c, d] = pages;
    sha512_four(&[&a[..size], &b[..size], &c[..size], &d[..size]], size)
}

/// The digests by `sha2`, one after another.
fn sha256_of_each<const N: usize>(pages: &[[u8; 4096]; N], size: usize) -> [[u8; 32]; N]
    requires { size ≤ 4096 }
{
    let mut out = [[0; 32]; N];
    for j in 0..N {
        out[j] = Sha256::digest(&pages[j][..size]);
    }
    out
}

fn sha512_of_each<const N: usize>(pages: &[[u8; 4096]; N], size: usize) -> [[u8; 64]; N]
    requires { size ≤ 4096 }
{
    let mut out = [[0; 64]; N];
    for j in 0..N {
        out[j] = Sha512::digest(&pages[j][..size]);
    }
    out
}

/// How many blocks of 64 bytes, the first seed, the lane, and the first eight bytes of its digest by hashlib.
const SHA256: [(u8, u32, u8, u64); 16] = [
    (0, 0, 0, 0xe3b0_c442_98fc_1c14),
    (0, 0, 1, 0xe3b0_c442_98fc_1c14),
    (0, 0, 2, 0xe3b0_c442_98fc_1c14),
    (0, 0, 3, 0xe3b0_c442_98fc_1c14),
    (1, 1, 0, 0xbcaa_0c51_106f_eb59),
    (1, 1, 1, 0x6f2f_8bc2_7e54_c1f0),
    (1, 1, 2, 0x8b8c_aaf9_5c97_5905),
    (1, 1, 3, 0xf833_b580_9f14_2c6e),
    (2, 2, 0, 0xf515_7a99_dab6_4959),
    (2, 2, 1, 0xf5ac_2790_03fd_3354),
    (2, 2, 2, 0xfa97_b9ad_b325_9fd7),
    (2, 2, 3, 0x3618_adad_ef40_499d),
    (64, 3, 0, 0x31db_a70b_8253_c655),
    (64, 3, 1, 0x28dd_12f4_c43d_790c),
    (64, 3, 2, 0xd932_3dac_5a6b_a54f),
    (64, 3, 3, 0x31a8_84f8_03ae_8217),
];

/// The same with blocks of 128 bytes.
const SHA512: [(u8, u32, u8, u64); 16] = [
    (0, 0, 0, 0xcf83_e135_7eef_b8bd),
    (0, 0, 1, 0xcf83_e135_7eef_b8bd),
    (0, 0, 2, 0xcf83_e135_7eef_b8bd),
    (0, 0, 3, 0xcf83_e135_7eef_b8bd),
    (1, 1, 0, 0x0a7a_c4de_2533_e502),
    (1, 1, 1, 0xfb3e_c783_b799_9ada),
    (1, 1, 2, 0xa099_f1e8_edb1_97d1),
    (1, 1, 3, 0x0f9a_58b4_cb7b_2f2f),
    (2, 2, 0, 0x54a2_1926_c9ad_7e27),
    (2, 2, 1, 0xac17_3ff6_7a12_5437),
    (2, 2, 2, 0x4a2c_6d54_f848_8506),
    (2, 2, 3, 0x5551_54ce_28e3_6fd0),
    (32, 3, 0, 0x94c6_711d_149c_d498),
    (32, 3, 1, 0x908c_cd82_c3ce_5426),
    (32, 3, 2, 0x2c48_1f0e_9b6e_2994),
    (32, 3, 3, 0x37ca_0c65_f12e_1dd8),
];

fn check_front(rt: &impl Abort, blocks: u8, seed: u32, lane: u8, digest: u64) {
    let digests = sha256_of_four(&four_pages(seed), 64 * usize::from(blocks.min(64)));
    let found = front(&digests[usize::from(lane % 4)]);
    check(rt, found == digest, "SHA-256, blocks", u64::from(blocks));
}

fn check_wide_front(rt: &impl Abort, blocks: u8, seed: u32, lane: u8, digest: u64) {
    let digests = sha512_of_four(&four_pages(seed), 128 * usize::from(blocks.min(32)));
    let found = wide_front(&digests[usize::from(lane % 4)]);
    check(rt, found == digest, "SHA-512, blocks", u64::from(blocks));
}

#[test]
fn digests_of_another_program(rt: HostRuntime) {
    for (blocks, seed, lane, digest) in &SHA256 {
        check_front(&rt, *blocks, *seed, *lane, *digest);
    }
    for (blocks, seed, lane, digest) in &SHA512 {
        check_wide_front(&rt, *blocks, *seed, *lane, *digest);
    }
}

/// The digests of four messages by SHA-256 are those of `sha2`.
fn check_narrow(rt: &impl Abort, pages: &[[u8; 4096]; 4], size: usize)
    requires room { size ≤ 4096 }
    requires whole { size % 64 ≡ 0 }
{
    let is_each = sha256_of_four(pages, size) == sha256_of_each(pages, size);
    check(rt, is_each, "SHA-256, bytes", size as u64);
}

fn check_four(rt: &impl Abort, pages: &[[u8; 4096]; 4], blocks: u8) {
    let size = 128 * usize::from(blocks.min(32));
    check_narrow(rt, pages, size);
    let is_each = sha512_of_four(pages, size) == sha512_of_each(pages, size);
    check(rt, is_each, "SHA-512, bytes", size as u64);
}

fn check_eight(rt: &impl Abort, pages: &[[u8; 4096]; 8], blocks: u8) {
    let size = 64 * usize::from(blocks.min(64));
    let is_each = sha256_of_eight(pages, size) == sha256_of_each(pages, size);
    check(rt, is_each, "eight, bytes", size as u64);
}

#[test]
fn pages(rt: HostRuntime) {
    for seed in 0..100u32 {
        check_four(&rt, &four_pages(4 * seed), 32);
        check_eight(&rt, &eight_pages(8 * seed), 64);
    }
}

#[test]
fn fewer_blocks(rt: HostRuntime) {
    for blocks in 0..32u8 {
        check_four(&rt, &four_pages(7), blocks);
    }
    for blocks in 0..64u8 {
        check_eight(&rt, &eight_pages(7), blocks);
    }
}

/// Whole blocks of 64 bytes that are none of 128.
#[test]
fn odd_blocks(rt: HostRuntime) {
    let pages = four_pages(9);
    for turn in 0..32u8 {
        check_narrow(&rt, &pages, 128 * usize::from(turn) + 64);
    }
}

/// One lane has another page than the others.
#[test]
fn one_that_differs(rt: HostRuntime) {
    for lane in 0..4usize {
        let mut pages = [page(1); 4];
        pages[lane] = page(2);
        check_four(&rt, &pages, 32);
    }
    for lane in 0..8usize {
        let mut pages = [page(1); 8];
        pages[lane] = page(2);
        check_eight(&rt, &pages, 64);
    }
}
