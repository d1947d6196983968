//! Launches that are lent to workers, to be chained beside one that was taken.
ghost use Rattle.std.specs.Prelude.{◌≡◌, ◌<◌, ◌≤◌, ℕ, length, IfOk, IfSome, Some, slice_get};
ghost use Rattle.rim_desc.specs.declared.side_by_side.TheConstants.{MOST_LANES};
ghost use Rattle.launch_plan.specs.Links.{PlanView, keys_of};
ghost use Rattle.rim_chain.specs.SharedPrefixes.{AreShared};
ghost use Rattle.job_core.specs.Jobs.{IsOpen};
ghost use Rattle.job_tasks.specs.Tasks.{whole_table};

use job_core::Core;
use job_tasks::{LaunchTask, Run, filled_task, plan_at};
use page_jobs::{DigestRow, Table};
use refusal::NoMemory;
use rim_chain::{LaunchPlan, SharedPrefixes, fewest_together};
use rim_desc::{Algo, Lanes, MOST_LANES};
use std::alloc::Global;

/// For each worker, the launches lent to it, which are best given to it; and rows for lent launches. What is said
/// here is preferred, and no more: the board gives a launch that was lent to another worker where no other is left.
#[derive(Drop)]
pub(crate) struct Lending {
    lent: Vec<[Option<usize>; MOST_LANES - 1]>,
    rows: Vec<DigestRow>,
    lanes: Lanes,
    /// How many launches a worker is lent at most.
    others: usize,
}

impl Lending {
    /// No launch was lent to any of this many workers, each of which is lent `others` at most. These are the rows for lent launches.
    pub(crate) fn new(
        alloc: Global,
        workers: usize,
        lanes: Lanes,
        others: usize,
        rows: Vec<DigestRow>,
    ) -> Result<Lending, NoMemory> {
        let lent = vec![in alloc; [None; MOST_LANES - 1]; workers]?;
        Ok(Lending {
            lent,
            rows,
            lanes,
            others,
        })
    }

    /// A row for a lent launch, if one is left.
    pub(crate) fn row(&mut self) -> Option<DigestRow> {
        self.rows.pop()
    }

    /// How many launches a worker is best lent beside one by an algorithm that it is given, where this many others are offered, and
    /// this many of them are by that algorithm.
    pub(crate) fn count(&self, algo: Algo, offered: usize, offered_beside: usize) -> usize
        ensures { result < MOST_LANES }
    {
        if !is_group(algo, offered_beside) {
            return 0;
        }
        let most = self.lanes.count(algo);
        others_for(most, offered.saturating_add(1), self.lent.len()).min(self.others)
    }

    /// How many places there are beside the launch by an algorithm that a worker was given: those of a whole group where the launches
    /// that it was lent make one, also where they are fewer; else none.
    pub(crate) fn places(&self, worker: usize, algo: Algo) -> usize
        ensures { result < MOST_LANES }
    {
        let Some(lent) = self.lent.get(worker) else {
            return 0;
        };
        if is_group(algo, lent.iter().flatten().count()) {
            self.lanes.count(algo) - 1
        } else {
            0
        }
    }

    /// The launch in a place of those that a worker was lent and was not given since.
    pub(crate) fn lent(&self, worker: usize, place: usize) -> Option<usize> {
        self.lent.get(worker)?.iter().flatten().nth(place).copied()
    }

    /// Whether launches are best given when more of them are ready: this many are offered, and of this many the pages are not
    /// hashed.
    pub(crate) fn waits_for_more(&self, offered: usize, more: usize) -> bool {
        self.others > 0
            && more > 0
            && offered <= self.others
            && offered.saturating_add(more) > self.lent.len()
    }

    /// Notes that a worker is lent a launch, unless that was noted.
    pub(crate) fn note(&mut self, worker: usize, number: usize) {
        if let Some(lent) = self.lent.get_mut(worker) {
            for slot in lent {
                if slot.is_none() {
                    *slot = Some(number);
                }
                if *slot == Some(number) {
                    return;
                }
            }
        }
    }

    /// The first launch that a worker was lent and that is free, if one is left.
    pub(crate) fn first_open(&self, core: &Core, worker: usize) -> Option<usize>
        ensures { IfSome result (IsOpen core.now) }
    {
        let lent = self.lent.get(worker)?;
        for slot in lent {
            if let Some(number) = *slot
                && core.is_open(number)
            {
                return Some(number);
            }
        }
        None
    }

    /// The same. It is given to the worker, and those before it, which are not free, are passed for good.
    pub(crate) fn next(&mut self, core: &Core, worker: usize) -> Option<usize>
        ensures { IfSome result (IsOpen core.now) }
    {
        let lent = self.lent.get_mut(worker)?;
        for slot in lent {
            if let Some(number) = slot.take()
                && core.is_open(number)
            {
                return Some(number);
            }
        }
        None
    }
}

/// Whether a launch by an algorithm and this many others are quicker side by side than one after another.
pub(crate) fn is_group(algo: Algo, others: usize) -> bool {
    others.saturating_add(1) >= fewest_together(algo)
}

/// How many launches a worker is lent at most, in a run of these.
pub(crate) fn most_others(plans: &[LaunchPlan], workers: usize, lanes: Lanes) -> usize
    ensures { result < MOST_LANES }
{
    others_for(widest(plans, lanes), plans.len(), workers)
}

/// How many of some launches are chained side by side at most.
fn widest(plans: &[LaunchPlan], lanes: Lanes) -> usize
    ensures { result ≤ MOST_LANES }
{
    let mut widest = 0;
    for plan in plans {
        widest = lanes.count(plan.algo()).max(widest);
    }
    widest
}

/// How many launches a worker is best lent beside one, where `most` at most are chained side by side, and this many could be given. A
/// group takes about twice what one of them takes alone, filled or not. So where there are more launches than workers it is done
/// about when these would be, one after another, and is the least work. Else each worker has one, which is done sooner alone.
pub(crate) fn others_for(most: usize, launches: usize, workers: usize) -> usize
    requires { most ≤ MOST_LANES }
    ensures { result < MOST_LANES }
{
    if most == 0 || launches <= workers {
        0
    } else {
        most - 1
    }
}

/// The job of a launch whose pages all have digests, in a row that has room for any launch; or the row, for others.
pub(crate) fn lent_task<'a, L: Run>(
    table: &Table<'a>,
    plans: &'a [LaunchPlan],
    prefixes: &SharedPrefixes,
    room: usize,
    number: usize,
    row: DigestRow,
) -> Result<LaunchTask<'a, L>, DigestRow>
    requires pages { table.now.pages ≡ L.pages }
    requires plans { plans.now ≡ L.plans }
    requires prefixes { AreShared (whole_table L.pages) L.plans prefixes.now }
    requires most { (l : ℕ) (p : PlanView) → slice_get plans.now l ≡ Some p
        → length (keys_of p.links) ≤ room }
    ensures { IfOk result (λ task. task.number ≡ number) }
{
    let mut row = row;
    row.truncate(0);
    if number >= plans.len() {
        return Err(row);
    }
    let plan = plan_at(plans, number);
    if row.room() < room || !plan.fill_row(table, &mut row) {
        return Err(row);
    }
    Ok(filled_task(table, plans, prefixes, number, plan, row))
}
