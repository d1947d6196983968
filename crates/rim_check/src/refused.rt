//! The remarks on the launches of a release that are refused, where all of them were laid out before.
ghost use Rattle.std.specs.Prelude.{IfOk, ℕ, List};
ghost use Rattle.rim_manifest.specs.Launches.{NamedData};
ghost use Rattle.rim_accepted.specs.Outcomes.{IsOutcome};
ghost use Rattle.rim_check.specs.Explained.{AreRefusals, IsRefusalOf};

use crate::launches::refusal_remark;
use refusal::NoMemory;
use rim_accepted::{AcceptedLaunch, AcceptedRelease, RefusedLaunch};
use shown_text::Remark;
use std::alloc::Global;

/// Returns the remark on each launch that is refused, as `check_launches` has it, in the manifest's order, and `None` for a launch that is
/// accepted.
pub fn refusals(
    alloc: Global,
    accepted: &AcceptedRelease<'_>,
) -> Result<Vec<Option<Remark>>, NoMemory>
    ensures { IfOk result (λ remarks. AreRefusals accepted.now.files
        accepted.now.release.launches remarks.items) }
{
    let outcomes = accepted.outcomes();
    let mut remarks = Vec::with_capacity(alloc, outcomes.len())?;
    for outcome in outcomes {
        remarks.push(refusal_of(alloc, outcome)?)?;
    }
    Ok(remarks)
}

/// Returns the remark on a launch, if it is refused.
fn refusal_of(
    alloc: Global,
    outcome: &Result<AcceptedLaunch<'_>, RefusedLaunch<'_>>,
) -> Result<Option<Remark>, NoMemory>
    ensures { IfOk result (λ r. (files : List (List ℕ)) (l : NamedData)
        → IsOutcome files l outcome.now → IsRefusalOf files l r) }
{
    match outcome {
        Ok(_) => Ok(None),
        Err(refused) => Ok(Some(refusal_remark(alloc, refused)?)),
    }
}
