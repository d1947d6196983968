//! Rows of digests: one for each worker, and some for launches that are lent.
//!
//! Rows are the workers', so they take 64 bytes for each page of the largest launch and each row, and not for each page of
//! each launch. A worker's row is with the launch that it holds, and comes back with the put. A worker that retires takes
//! the row of what it holds along, since it is given no launch any more.
ghost use Rattle.std.specs.Prelude.{◌≡◌, ◌<◌, ◌≤◌, ℕ, [], length, replicate, true, IfNone, IfOk, IfSome, None, Some, slice_get, slice_set};
ghost use Rattle.launch_plan.specs.Links.{PlanView, keys_of};
ghost use Rattle.launch_plan.specs.Rows.{HaveFirstPages, IsRowOf, has_all};
ghost use Rattle.job_tasks.specs.Tasks.{IsOwnRow, IsRoomy};

use crate::run::Run;
use page_jobs::{DigestRow, Table};
use refusal::NoMemory;
use rim_chain::LaunchPlan;
use std::alloc::Global;
use std::marker::{Model, PhantomData};

/// A row that a worker's launches are given in, with room for any launch of the run. It keeps the digests of the launch that
/// it was filled for last, so those of pages that the next one begins with too are not copied again.
#[derive(Drop)]
pub struct WorkerRow<'a, L: Run> {
    /// The plan of that launch; `None` where the row is empty.
    plan: Option<&'a LaunchPlan>,
    row: DigestRow,
    run: PhantomData<L>,
}

impl<'a, L: Run> Model for WorkerRow<'a, L> {
    ghost use Rattle.std.specs.Prelude.{option_map};
    ghost use Rattle.job_tasks.specs.Tasks.{IsRoomy};
    ghost use Rattle.job_tasks.specs.inside.Rows.{AreDigestsFor};

    ghost Value = { Unit {0} };

    ghost view = { λ w. tt };

    ghost invariant = { λ w. IsRoomy L.plans w.row
        × AreDigestsFor L.pages (option_map (λ p. p.now) w.plan) w.row.digests };
}

impl<'a, L: Run> WorkerRow<'a, L> {
    /// An empty row.
    pub fn new(row: DigestRow) -> WorkerRow<'a, L>
        requires empty { row.digests ≡ [] }
        requires roomy { IsRoomy L.plans row }
    {
        WorkerRow {
            plan: None,
            row,
            run: PhantomData,
        }
    }

    /// A row that has the digests of a launch's pages.
    pub fn of_launch(plan: &'a LaunchPlan, row: DigestRow) -> WorkerRow<'a, L>
        requires own { IsOwnRow L.pages (keys_of plan.now.links) row.digests }
        requires roomy { IsRoomy L.plans row }
    {
        WorkerRow {
            plan: Some(plan),
            row,
            run: PhantomData,
        }
    }

    /// The row, with the digests of the pages of another launch of the run, which the table has all.
    pub fn filled_for(self, table: &Table, plan: &LaunchPlan) -> DigestRow
        requires pages { table.now.pages ≡ L.pages }
        requires plan { (l : ℕ) × (slice_get L.plans l ≡ Some plan.now) }
        requires all { has_all table.now (keys_of plan.now.links) ≡ true }
        ensures row { IsRowOf table.now (keys_of plan.now.links) result.digests }
        ensures roomy { IsRoomy L.plans result }
    {
        let mut row = self.row;
        let links = kept_links(plan, self.plan);
        row.truncate(plan.pages_before(links));
        // Each filled slot of a table has the digest of its own page.
        let _pages = table.pages();
        if !plan.fill_row_on(table, links, &mut row) {
            unreachable!()
        }
        row
    }
}

/// How many of a plan's first links have pages that the plan begins with that a row was filled for, if it was filled for one.
fn kept_links(plan: &LaunchPlan, kept: Option<&LaunchPlan>) -> usize
    ensures within { result ≤ length plan.now.links }
    ensures first { IfSome kept.entry (λ k. HaveFirstPages result plan.now.links k.now.links) }
    ensures none { IfNone kept.entry (result ≡ 0) }
{
    match kept {
        Some(kept) => plan.common_pages(kept),
        None => 0,
    }
}

/// An empty row for each worker, with this room.
pub fn worker_rows<'a, L: Run>(
    alloc: Global,
    room: usize,
    workers: usize,
) -> Result<Vec<Option<WorkerRow<'a, L>>>, NoMemory>
    requires most { (l : ℕ) (p : PlanView) → slice_get L.plans l ≡ Some p
        → length (keys_of p.links) ≤ room }
    ensures { IfOk result (λ rows. rows.items ≡ replicate workers (Some tt)) }
{
    let mut rows = Vec::with_capacity(alloc, workers)?;
    for _i in 0..workers {
        rows.push(Some(WorkerRow::new(DigestRow::reserve(alloc, room)?)))?;
    }
    Ok(rows)
}

/// Empty rows for launches that workers are lent, this many.
pub fn lent_rows(alloc: Global, room: usize, count: usize) -> Result<Vec<DigestRow>, NoMemory> {
    let mut rows = Vec::with_capacity(alloc, count)?;
    for _i in 0..count {
        rows.push(DigestRow::reserve(alloc, room)?)?;
    }
    Ok(rows)
}

/// The plan of a number.
pub fn plan_at<'a>(plans: &'a [LaunchPlan], number: usize) -> &'a LaunchPlan
    requires { number < length plans.now }
    ensures { slice_get plans.now number ≡ Some result.now }
{
    &plans[number]
}

/// Takes the row of a worker.
pub fn take_row<'a, L: Run>(
    rows: &mut Vec<Option<WorkerRow<'a, L>>>,
    worker: usize,
) -> Option<WorkerRow<'a, L>>
    requires { worker < length rows.old.items }
    ensures row { slice_get rows.old.items worker ≡ Some result }
    ensures rest { rows.new.items ≡ slice_set rows.old.items worker None }
{
    rows[worker].take()
}

/// Keeps a row for its worker.
pub fn keep_row<'a, L: Run>(
    rows: &mut Vec<Option<WorkerRow<'a, L>>>,
    worker: usize,
    row: WorkerRow<'a, L>,
)
    requires { worker < length rows.old.items }
    ensures { rows.new.items ≡ slice_set rows.old.items worker (Some tt) }
{
    rows[worker] = Some(row);
}
