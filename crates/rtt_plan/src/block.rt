//! The largest block of an address in a region of RAM.
ghost use Rattle.std.specs.Prelude.{◌≡◌, ◌+◌, ◌<◌, ◌≤◌, ◌^◌};
ghost use Rattle.rtt_plan.specs.Entries.{block_level, fits};

use rmm_model::size_of_level;

/// Whether the block of a level that holds `x` lies wholly in the region from `base` to `end`.
fn fits(base: u64, end: u64, level: u8, x: u64) -> bool
    requires { x < 2 ^ 48 }
    ensures { result ≡ fits base end level x }
{
    let size = size_of_level(level);
    let first = x / size * size;
    base <= first && first + size <= end
}

/// The level of the largest block of `x` in the region from `base` to `end`, from the least allowed
/// level on.
pub fn block_level(base: u64, end: u64, least_level: u8, x: u64) -> u8
    requires low { least_level ≤ 3 }
    requires small { x < 2 ^ 48 }
    ensures value { result ≡ block_level base end least_level x }
    ensures range { result ≤ 3 }
{
    for level in least_level..3 {
        if fits(base, end, level, x) {
            return level;
        }
    }
    3
}
