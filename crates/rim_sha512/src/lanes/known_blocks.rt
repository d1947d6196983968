//! A block that is known beforehand, in each lane. No schedule is computed for it: a table has each word with its
//! round's constant.
//! tools/checks/widths.py makes this text from that for SHA-256.
ghost use Rattle.std.specs.Prelude.{◌≡◌, ℕ, List, ◌+◌, ◌<◌, ◌≤◌};
ghost use Rattle.sha2.specs.Sha512.{compress, rounds, schedule};
ghost use Rattle.sha_lanes.specs.Sums.{AreSums512};
ghost use Rattle.sha_lanes.specs.inside.Lanes.{lane};

use crate::lanes::rounds::{added, round};
use crate::vectors::Words;

/// Adds a known block to each hash value (FIPS 180-4, 6.4.2).
pub(crate) fn compress_sums<const N: usize>(state: &mut [Words<N>; 8], sums: &[u64; 80])
    ensures { (j : ℕ) (b : List ℕ) → j < N → AreSums512 sums.now b
        → lane j state.new ≡ compress (lane j state.old) b }
{
    let mut v = *state;
    // After eight rounds each working variable is at its own place again.
    'turns: for turn in 0..10 {
        v = four_steps(sums, v, 8 * turn);
        v = four_steps(sums, v, 8 * turn + 4);
    }
    *state = added(state, &v);
}

/// Round t and the three after it.
#[inline(always)]
fn four_steps<const N: usize>(sums: &[u64; 80], v: [Words<N>; 8], t: usize) -> [Words<N>; 8]
    requires { t + 4 ≤ 80 }
    ensures { (j : ℕ) (b h : List ℕ) → j < N → AreSums512 sums.now b
        → lane j v.entry ≡ rounds h (schedule b 64) t
        → lane j result ≡ rounds h (schedule b 64) (t + 4) }
{
    let v = step(sums, v, t);
    let v = step(sums, v, t + 1);
    let v = step(sums, v, t + 2);
    step(sums, v, t + 3)
}

/// Round t.
#[inline(always)]
fn step<const N: usize>(sums: &[u64; 80], v: [Words<N>; 8], t: usize) -> [Words<N>; 8]
    requires { t < 80 }
    ensures { (j : ℕ) (b h : List ℕ) → j < N → AreSums512 sums.now b
        → lane j v.entry ≡ rounds h (schedule b 64) t
        → lane j result ≡ rounds h (schedule b 64) (t + 1) }
{
    round(v, sums[t], Words::splat(0))
}
