//! Jobs of launches whose rows are filled.
ghost use Rattle.std.specs.Prelude.{◌≡◌, Some, slice_get};
ghost use Rattle.launch_plan.specs.Links.{keys_of};
ghost use Rattle.launch_plan.specs.Rows.{IsRowOf};
ghost use Rattle.rim_chain.specs.SharedPrefixes.{AreShared};
ghost use Rattle.job_tasks.specs.Tasks.{IsRoomy, whole_table};

use crate::run::Run;
use crate::task::LaunchTask;
use page_jobs::{DigestRow, Table};
use rim_chain::{LaunchJob, LaunchPlan, SharedPrefixes};

/// The job of a launch whose row has the digests of its pages. It goes on from the prefix that it has in common with an earlier
/// one, where that is known, and stops first where others go on from it next.
pub fn filled_task<'a, L: Run>(
    table: &Table<'a>,
    plans: &'a [LaunchPlan],
    prefixes: &SharedPrefixes,
    number: usize,
    plan: &'a LaunchPlan,
    row: DigestRow,
) -> LaunchTask<'a, L>
    requires pages { table.now.pages ≡ L.pages }
    requires plans { plans.now ≡ L.plans }
    requires prefixes { AreShared (whole_table L.pages) L.plans prefixes.now }
    requires plan { slice_get plans.now number ≡ Some plan.now }
    requires row { IsRowOf table.now (keys_of plan.now.links) row.digests }
    requires roomy { IsRoomy L.plans row }
    ensures { result ≡ record { number = number; plan = plan.entry.now; row = row } }
{
    // Each filled slot of a table has the digest of its own page.
    let _pages = table.pages();
    let shared_prefix = prefixes.prefix(plans, number);
    let links = shared_prefix.map_or(0, |prefix| prefix.links);
    let stop = prefixes.next_stop(number, links);
    let job = LaunchJob::new(number, plan, row);
    LaunchTask::new(job.going_on(shared_prefix, stop))
}
