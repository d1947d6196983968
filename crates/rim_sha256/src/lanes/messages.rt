//! Messages, block by block.
ghost use Rattle.std.specs.Prelude.{◌≡◌, ℕ, ◌+◌, ◌%◌, ◌<◌, ◌≤◌, length, map, slice_index_or, []};
ghost use Rattle.std.specs.List.{All};
ghost use Rattle.sha2.specs.Sha256.{digest_bytes, final_hash, initial_hash_256, sha256};
ghost use Rattle.sha_lanes.specs.inside.Lanes.{IsLanes, lane, message};

use crate::constants::INITIAL;
use crate::lanes::loading::{load, load_same};
use crate::lanes::padding::padding;
use crate::lanes::rounds::compress;
use crate::vectors::Words;
use crate::words::digest;
use sha_lanes::eight;

pub(crate) const BLOCK_SIZE: usize = 64;

/// The SHA-256 digest of each message. The messages are of one size in bytes, which is a whole number of blocks.
#[inline(always)]
pub fn digests_of<const N: usize>(messages: &[&[u8]], size: usize) -> [[u8; 32]; N]
    requires lanes { N ≤ 64 }
    requires count { length messages.now ≡ N }
    requires size { All (λ m. length m.now ≡ size) messages.now }
    requires whole { size % 64 ≡ 0 }
    ensures { result ≡ map (λ m. sha256 m.now) messages.now }
{
    digests(&final_hashes(messages, size))
}

/// The hash value of each message, after its padding. The messages are of one size in bytes.
fn final_hashes<const N: usize>(messages: &[&[u8]], size: usize) -> [Words<N>; 8]
    requires lanes { N ≤ 64 }
    requires count { length messages.now ≡ N }
    requires size { (j : ℕ) → j < N → length (message messages.now j) ≡ size }
    requires whole { size % 64 ≡ 0 }
    ensures { (j : ℕ) → j < N
        → lane j result ≡ final_hash initial_hash_256 (message messages.now j) }
{
    let mut state = initial();
    let count = size / BLOCK_SIZE;
    'each: for i in 0..count {
        compress(&mut state, &load(messages, BLOCK_SIZE * i));
    }
    compress(&mut state, &load_same(&padding(size)));
    state
}

/// A word in each lane.
fn same<const N: usize>(word: u32) -> Words<N>
    ensures { IsLanes N result (λ _. word) }
{
    Words::splat(word)
}

/// The initial hash value in each lane (FIPS 180-4, 5.3.3).
pub(crate) fn initial<const N: usize>() -> [Words<N>; 8]
    ensures { (j : ℕ) → j < N → lane j result ≡ initial_hash_256 }
{
    eight(
        same(INITIAL[0]),
        same(INITIAL[1]),
        same(INITIAL[2]),
        same(INITIAL[3]),
        same(INITIAL[4]),
        same(INITIAL[5]),
        same(INITIAL[6]),
        same(INITIAL[7]),
    )
}

/// The bytes of each lane's hash value.
pub fn digests<const N: usize>(hashes: &[Words<N>; 8]) -> [[u8; 32]; N]
    ensures { (j : ℕ) → j < N
        → slice_index_or result j [] ≡ digest_bytes (lane j hashes.now) 8 }
{
    let [a, b, c, d, e, f, g, h] = *hashes;
    let (a, b, c, d) = (a.to_array(), b.to_array(), c.to_array(), d.to_array());
    let (e, f, g, h) = (e.to_array(), f.to_array(), g.to_array(), h.to_array());
    let mut out = [[0; 32]; N];
    'lanes: for j in 0..N {
        out[j] = digest([a[j], b[j], c[j], d[j], e[j], f[j], g[j], h[j]]);
    }
    out
}
