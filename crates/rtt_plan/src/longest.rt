//! The longest run at an entry of a region.
ghost use Rattle.std.specs.Prelude.{◌≡◌, ◌∷◌, ◌<◌, ◌≤◌, ◌^◌};
ghost use Rattle.rtt_plan.specs.Entries.{block_level};
ghost use Rattle.rtt_plan.specs.Places.{AtEntry, IsRegion};
ghost use Rattle.rtt_plan.specs.Runs.{runs_from};

use crate::block::block_level;
use crate::run::Run;
use rmm_model::{size_of_level, span_of_level, table_base};

/// The first of the runs of the entries from `x` on, in the region from `base` to `end`. It ends with its table, or with
/// the last block of its level that the region has; its entries are not visited.
pub fn run_from(base: u64, end: u64, least_level: u8, x: u64) -> Run
    requires region { IsRegion base end }
    requires small { end ≤ 2 ^ 47 }
    requires low { least_level ≤ 3 }
    requires at { AtEntry base end least_level x }
    requires some { x < end }
    ensures runs { runs_from base end least_level x
        ≡ result ∷ runs_from base end least_level result.top }
    ensures next { AtEntry base end least_level result.top }
    ensures base { result.base ≡ x }
    ensures grows { x < result.top }
    ensures level { result.level ≡ block_level base end least_level x }
    ensures range { result.level ≤ 3 }
{
    let level = block_level(base, end, least_level, x);
    let size = size_of_level(level);
    let table_end = table_base(level, x) + span_of_level(level);
    Run {
        base: x,
        top: table_end.min(end / size * size),
        level,
    }
}
