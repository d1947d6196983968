//! The number of entries.
ghost use Rattle.std.specs.Prelude.{◌≡◌, ◌+◌, ◌<◌, ◌≤◌, ◌^◌, IfNone, IfSome, length};
ghost use Rattle.rtt_plan.specs.Entries.{entries};
ghost use Rattle.rtt_plan.specs.Places.{IsRegion};
ghost use Rattle.rtt_plan.specs.declared.counting.TheConstants.{ENTRY_LIMIT};

use crate::longest::run_from;
use rmm_model::size_of_level;

/// The most entries of a launch: 4,194,304. This project's choice.
pub const ENTRY_LIMIT: u64 = 4_194_304;

/// The entries of a region and those before it together; none where they are more than the limit.
pub fn total_entries(before: u64, base: u64, end: u64, least_level: u8) -> Option<u64>
    requires region { IsRegion base end }
    requires some { base < end }
    requires small { end ≤ 2 ^ 47 }
    requires deep { least_level ≤ 3 }
    requires few { before ≤ ENTRY_LIMIT }
    ensures over { IfNone result (ENTRY_LIMIT < before + length (entries base end least_level)) }
    ensures total { IfSome result (λ n. n ≡ before + length (entries base end least_level)) }
    ensures limit { IfSome result (λ n. n ≤ ENTRY_LIMIT) }
{
    let mut total = before;
    let mut x = base;
    while x < end {
        let run = run_from(base, end, least_level, x);
        let more = (run.top - x) / size_of_level(run.level);
        if more > ENTRY_LIMIT - total {
            return None;
        }
        total += more;
        x = run.top;
    }
    Some(total)
}
