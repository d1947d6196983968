//! What is measured of each launch that is accepted.
ghost use Rattle.std.specs.Prelude.{◌≡◌, IfOk};
ghost use Rattle.launch_plan.specs.Reading.{IsReadOf};
ghost use Rattle.rim_report.specs.Plans.{ArePlans};

use refusal::NoMemory;
use rim_accepted::{AcceptedLaunch, AcceptedRelease};
use rim_chain::{LastRecs, LaunchPlan};
use std::alloc::Global;

/// The plans of the launches that are accepted, in their order.
pub fn accepted_plans(
    alloc: Global,
    accepted: &AcceptedRelease<'_>,
) -> Result<Vec<LaunchPlan>, NoMemory>
    ensures { IfOk result
        (λ plans. ArePlans accepted.now.files accepted.now.release.launches plans.items) }
{
    let mut plans = Vec::new(alloc);
    let mut last = LastRecs::new();
    for outcome in accepted.outcomes() {
        if let Ok(accepted) = outcome {
            plans.push(plan(alloc, accepted, &mut last)?)?;
        }
    }
    Ok(plans)
}

/// The plan of a launch.
fn plan(
    alloc: Global,
    accepted: &AcceptedLaunch<'_>,
    last: &mut LastRecs,
) -> Result<LaunchPlan, NoMemory>
    ensures { IfOk result (IsReadOf accepted.now.named.now.launch accepted.now.placed) }
{
    let launch = accepted.launch();
    LaunchPlan::of_launch(alloc, launch.config().algo, launch, accepted.placed(), last)
}
