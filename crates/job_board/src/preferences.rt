//! Which job each worker is best given next. No value depends on it, and what a board promises holds of any choice.
ghost use Rattle.std.specs.Prelude.{◌≡◌, ◌<◌, IfNone, IfSome, Some, slice_get};
ghost use Rattle.rim_desc.specs.declared.side_by_side.TheConstants.{MOST_LANES};
ghost use Rattle.job_core.specs.declared.job.JobState.{JobState};
ghost use Rattle.job_core.specs.Jobs.{IsOpen, NoneFree};

use crate::chain_order::{ChainOrder, is_long};
use crate::lending::Lending;
use crate::side_by_side::SideBySide;
use job_core::{Core, JobId, JobState};
use page_jobs::DigestRow;
use refusal::NoMemory;
use rim_chain::{LaunchPlan, SharedPrefix, SharedPrefixes};
use rim_desc::{Algo, Lanes};
use std::alloc::Global;

/// The order in which launches are to be chained, which page each worker is given next, and which launches were lent to it.
#[derive(Drop)]
pub(crate) struct Preferences {
    chain_order: ChainOrder,
    /// How many launches were noted when they came to be ready.
    noted: usize,
    side_by_side: SideBySide,
    lending: Lending,
}

impl Preferences {
    /// Those of a run of this many workers, of which nothing is given; launches are lent as `lending` says. No later call takes
    /// memory.
    pub(crate) fn new(
        alloc: Global,
        workers: usize,
        plans: &[LaunchPlan],
        prefixes: &SharedPrefixes,
        lanes: Lanes,
        lending: Lending,
    ) -> Result<Preferences, NoMemory> {
        let chain_order = ChainOrder::new(alloc, plans, prefixes)?;
        let side_by_side = SideBySide::new(alloc, workers, lanes)?;
        Ok(Preferences {
            chain_order,
            noted: 0,
            side_by_side,
            lending,
        })
    }

    /// Notes that a prefix is chained: the launches that go on from it may be chained now. Answers how many they are.
    pub(crate) fn note_chained(&mut self, prefix: SharedPrefix) -> usize {
        self.chain_order.offer_followers(prefix)
    }

    /// A row for a launch that is lent to a worker, if one is left.
    pub(crate) fn lend_row(&mut self) -> Option<DigestRow> {
        self.lending.row()
    }

    /// How many places there are beside the launch by an algorithm that a worker was given.
    pub(crate) fn lend_count(&self, worker: usize, algo: Algo) -> usize
        ensures { result < MOST_LANES }
    {
        self.lending.places(worker, algo)
    }

    /// A free launch of those that a worker was lent, if one is left. The worker is best given that one next.
    pub(crate) fn next_lent(&self, core: &Core, worker: usize) -> Option<usize>
        ensures { IfSome result (IsOpen core.now) }
    {
        self.lending.first_open(core, worker)
    }

    /// The launch in a place of those that a worker was lent, if it is free.
    pub(crate) fn lent(&self, core: &Core, worker: usize, place: usize) -> Option<usize>
        ensures { IfSome result (IsOpen core.now) }
    {
        let number = self.lending.lent(worker, place)?;
        if !core.is_open(number) {
            return None;
        }
        Some(number)
    }
}

impl Preferences {
    /// A free launch that is ready and is to be chained before more pages are hashed, if one is known. A worker within a
    /// group of pages puts these first, since launches wait for what it has hashed. Where launches are lent, they wait until a group
    /// is filled, as long as pages are not put, also where other workers have all that are left.
    pub(crate) fn next_launch(
        &mut self,
        core: &Core,
        plans: &[LaunchPlan],
        prefixes: &SharedPrefixes,
        worker: usize,
    ) -> Option<usize>
        ensures { IfSome result (IsOpen core.now) }
    {
        if self.has_page_ahead(core, worker) {
            return None;
        }
        if let Some(number) = self.lending.next(core, worker) {
            return Some(number);
        }
        self.note_ready_launches(core, prefixes);
        if self.waits_for_more(core) {
            return None;
        }
        let number = self.next_open_launch(core)?;
        self.lend_group(core, plans, prefixes, worker, number);
        Some(number)
    }

    /// Whether launches are best given when more of them are ready, which they are when more pages are put.
    fn waits_for_more(&self, core: &Core) -> bool {
        let more = core.launches().saturating_sub(self.noted);
        self.lending
            .waits_for_more(self.chain_order.offered(), more)
    }

    /// Whether a worker is within a group of pages, the next of which is free.
    fn has_page_ahead(&self, core: &Core, worker: usize) -> bool {
        let next = JobId::Page(self.side_by_side.preferred(worker));
        self.side_by_side.is_within(worker) && matches!(core.state(next), Some(JobState::Free))
    }

    /// Notes the launches that came to be ready since this was called last.
    fn note_ready_launches(&mut self, core: &Core, prefixes: &SharedPrefixes) {
        for _ in 0..core.launches() {
            let Some(number) = core.in_line(self.noted) else {
                return;
            };
            self.chain_order.note_ready(prefixes, number);
            self.noted = self.noted.saturating_add(1);
        }
    }

    /// The launch that is to be chained next, if one was noted. Others that were noted and are no longer free are passed.
    fn next_open_launch(&mut self, core: &Core) -> Option<usize>
        ensures { IfSome result (IsOpen core.now) }
    {
        for _ in 0..self.chain_order.offered() {
            let number = self.chain_order.next()?;
            if core.is_open(number) {
                return Some(number);
            }
        }
        None
    }

    /// Lends a worker the launches that are best chained beside one that it is given. No other worker is given any of them before, since
    /// the board's lock is held from when that one is chosen.
    fn lend_group(
        &mut self,
        core: &Core,
        plans: &[LaunchPlan],
        prefixes: &SharedPrefixes,
        worker: usize,
        number: usize,
    ) {
        let Some(plan) = plans.get(number) else {
            return;
        };
        if !is_long(plans, prefixes, number) {
            return;
        }
        let algo = plan.algo();
        let offered = self.chain_order.offered();
        let offered_beside = self.chain_order.offered_beside(algo);
        for _ in 0..self.lending.count(algo, offered, offered_beside) {
            let Some(other) = self.chain_order.next_beside(plans, prefixes, algo) else {
                return;
            };
            // A launch may be offered twice.
            if other != number && core.is_open(other) {
                self.lending.note(worker, other);
            }
        }
    }

    /// A free page: the one that the worker is to hash next, if that is one.
    pub(crate) fn next_page(&mut self, core: &mut Core, worker: usize) -> Option<usize>
        ensures same { core.new ≡ core.old }
        ensures some { IfSome result (λ page. slice_get core.old.pages page ≡ Some JobState.Free) }
        ensures none { IfNone result (NoneFree core.old.pages) }
    {
        let first = core.free_page()?;
        let page = free_of(core, self.side_by_side.preferred(worker), first);
        self.side_by_side.note(worker, page);
        Some(page)
    }
}

/// A page where it is free, or else another, which is.
fn free_of(core: &Core, page: usize, other: usize) -> usize
    requires { slice_get core.now.pages other ≡ Some JobState.Free }
    ensures { slice_get core.now.pages result ≡ Some JobState.Free }
{
    match core.state(JobId::Page(page)) {
        Some(JobState::Free) => page,
        _ => other,
    }
}
