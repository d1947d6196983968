//! What came of the launches of a release: their measurements, or why they are refused.
ghost use Rattle.std.specs.Prelude.{◌≡◌, IfOk, map, replicate};
ghost use Rattle.rim_report.specs.inside.Unknown.{unknown_outcome, unknown_rim, with_rims};

use refusal::NoMemory;
use rim_accepted::{AcceptedLaunch, AuditFault, RefusedLaunch};
use rim_desc::Measurement;
use std::alloc::Global;

/// A measurement that is not known yet.
pub const UNKNOWN: Measurement = Measurement { bytes: [0; 64] };

/// What came of each launch, where the measurements of those that are accepted are not known yet.
pub fn unknown_outcomes(
    alloc: Global,
    outcomes: &[Result<AcceptedLaunch<'_>, RefusedLaunch<'_>>],
) -> Result<Vec<Result<Measurement, AuditFault>>, NoMemory>
    ensures { IfOk result (λ found. found.items ≡ map unknown_outcome outcomes.now) }
{
    let mut found = Vec::with_capacity(alloc, outcomes.len())?;
    for outcome in outcomes {
        found.push(unknown_outcome(outcome))?;
    }
    Ok(found)
}

fn unknown_outcome(
    outcome: &Result<AcceptedLaunch<'_>, RefusedLaunch<'_>>,
) -> Result<Measurement, AuditFault>
    ensures { result ≡ unknown_outcome outcome.now }
{
    match outcome {
        Ok(_) => Ok(UNKNOWN),
        Err(refused) => Err(refused.fault()),
    }
}

/// Puts measurements in the place of others: those of the launches that are accepted, in their order.
pub fn set_rims(outcomes: &mut Vec<Result<Measurement, AuditFault>>, rims: &[Measurement])
    ensures { outcomes.new.items ≡ with_rims outcomes.old.items rims.now }
{
    let mut rest = rims;
    for i in 0..outcomes.len() {
        if outcomes[i].is_ok() {
            let Some((rim, others)) = rest.split_first() else {
                return;
            };
            outcomes[i] = Ok(*rim);
            rest = others;
        }
    }
}
