//! The rounds over a block (FIPS 180-4, 6.2.2) whose schedule is known by then: an array has each word with its round's
//! constant.
ghost use Rattle.std.specs.Prelude.{◌≡◌, ℕ, List, ◌+◌, ◌<◌, ◌≤◌};
ghost use Rattle.sha2.specs.Sha256.{compress, rounds, schedule};
ghost use Rattle.sha_lanes.specs.Sums.{AreSums256};

use crate::one::rounds::{added, round};

/// Adds a block to a hash value.
pub(crate) fn compress_sums(state: &mut [u32; 8], sums: &[u32; 64])
    ensures { (b : List ℕ) → AreSums256 sums.now b → state.new ≡ compress state.old b }
{
    let mut v = *state;
    // After eight rounds each working variable is at its own place again.
    'turns: for turn in 0..8 {
        v = four_steps(sums, v, 8 * turn);
        v = four_steps(sums, v, 8 * turn + 4);
    }
    *state = added(state, &v);
}

/// Round t and the three after it.
#[inline(always)]
fn four_steps(sums: &[u32; 64], v: [u32; 8], t: usize) -> [u32; 8]
    requires { t + 4 ≤ 64 }
    ensures { (b h : List ℕ) → AreSums256 sums.now b → v ≡ rounds h (schedule b 48) t
        → result ≡ rounds h (schedule b 48) (t + 4) }
{
    let v = step(sums, v, t);
    let v = step(sums, v, t + 1);
    let v = step(sums, v, t + 2);
    step(sums, v, t + 3)
}

/// Round t.
#[inline(always)]
fn step(sums: &[u32; 64], v: [u32; 8], t: usize) -> [u32; 8]
    requires { t < 64 }
    ensures { (b h : List ℕ) → AreSums256 sums.now b → v ≡ rounds h (schedule b 48) t
        → result ≡ rounds h (schedule b 48) (t + 1) }
{
    round(v, sums[t], 0)
}
