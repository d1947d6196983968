//! The board: its state under a lock, for workers in threads of their own.
//!
//! A worker that finds nothing ready sleeps. Only a put, a retirement and a prefix that is kept change what it is given, and each
//! wakes all that sleep, so it misses nothing. Where none sleeps, that makes no system call.
//!
//! The put of a launch wakes none as long as its worker was lent another one that is free. Nothing has become ready then and not all
//! is done, so all that a sleeper could be given is that one, which it would chain anew.
//!
//! A worker that leaves launches for later holds no job, and another worker holds one: so the state's `take_or_wait` says. That
//! one keeps a prefix, puts its job or retires, and each ends the wait. A job that was taken before the run in the name of worker 0, or
//! of a worker that could not be started, is waited for as long as nobody puts it.
ghost use Rattle.std.specs.Prelude.{◌≡◌, ◌≢◌, ◌<◌, ◌≤◌, ◌+◌, IfErr, OnOk, length, map, sum};
ghost use Rattle.rim_desc.specs.declared.side_by_side.TheConstants.{MOST_LANES};
ghost use Rattle.job_core.specs.declared.job.Event.{Event};
ghost use Rattle.job_core.specs.declared.job.JobId.{JobId};
ghost use Rattle.job_tasks.specs.declared.work.Work.{Work};
ghost use Rattle.job_board.specs.Board.{BoardView, CanPutLaunch, CanPutPage, IsBoard, IsOfRun};
ghost use Rattle.job_board.specs.Gives.{Gives};
ghost use Rattle.job_workers.specs.Puts.{Puts};
ghost use Rattle.page_jobs.specs.Page.{page_view};

use job_board::{BoardState, ChainedLaunch, HashedPage, LaunchTask, OwnPrefix, Run, Share, Work};
use page_jobs::{DigestRow, Page};
use rim_desc::Algo;
use std::sync::{Condvar, Mutex, MutexGuard, Wait};

/// A board's state under its lock, and where workers sleep until it changes. What a call says of the state is of the one
/// that it found there, in one critical section.
#[derive(Drop)]
pub struct Board<'a, L: Run> {
    state: Mutex<BoardState<'a, L>>,
    changed: Condvar,
}

impl<'a, L: Run> Board<'a, L> {
    /// Puts a state under a lock.
    pub fn new(state: BoardState<'a, L>) -> Board<'a, L> {
        Board {
            state: Mutex::new(state),
            changed: Condvar::new(),
        }
    }

    /// The pages of the run, which are lent. Page `j` is the one of job `j`.
    pub fn pages(&self, rt: &impl Wait) -> &'a [Page<'a>]
        ensures { map page_view result.now ≡ L.pages }
    {
        self.state.lock(rt).pages()
    }

    /// A free job that is ready, or why none is given. Where nothing that is free is ready, the worker sleeps until a put or a
    /// retirement changes that.
    pub fn take(&self, rt: &impl Wait, worker: usize) -> Work<'a, L>
        ensures found { (found : BoardView) × (left : BoardView) × IsBoard found
            × IsOfRun L.pages L.plans found × Gives found worker result left }
        ensures waited { result ≢ Work.Later }
    {
        self.given(rt, worker, false)
    }

    /// The same, but the worker also sleeps where each launch that is free and ready goes on from a prefix that is not kept yet, as
    /// long as another worker holds a job. It is for workers that keep the prefixes that they come to, and put each job that they
    /// take, or retire, before they come again; and that come again after a put: all this wakes those that sleep.
    pub(crate) fn take_or_wait(&self, rt: &impl Wait, worker: usize) -> Work<'a, L>
        ensures found { (found : BoardView) × (left : BoardView) × IsBoard found
            × IsOfRun L.pages L.plans found × Gives found worker result left }
        ensures waited { result ≢ Work.Later }
    {
        self.given(rt, worker, true)
    }

    fn given(&self, rt: &impl Wait, worker: usize, launches_wait: bool) -> Work<'a, L>
        ensures found { (found : BoardView) × (left : BoardView) × IsBoard found
            × IsOfRun L.pages L.plans found × Gives found worker result left }
        ensures waited { result ≢ Work.Later }
    {
        let mut state = self.state.lock(rt);
        for _ in rt.forever() {
            let given = if launches_wait {
                state.take_or_wait(worker)
            } else {
                state.take(worker)
            };
            if !matches!(given, Work::Later) {
                return given;
            }
            state = self.changed.wait(rt, state);
        }
        unreachable!()
    }

    /// Puts a page that a worker holds, and counts it in the worker's share. It is handed back exactly where the worker does
    /// not hold its job. The book that was found had counted what the share has.
    pub fn put_page(
        &self,
        rt: &impl Wait,
        worker: usize,
        page: HashedPage<'a, L>,
        share: &mut Share<L>,
    ) -> Result<(), HashedPage<'a, L>>
        ensures found { (found : BoardView) × (left : BoardView) × IsBoard found
            × IsOfRun L.pages L.plans found × (share.old ≤ found.book)
            × Puts (CanPutPage found worker page.entry.number page.entry.page) found
            (Event.Put worker (JobId.Page page.entry.number)) left result }
        ensures share { OnOk result (share.new ≡ share.old + 1) }
        ensures err { IfErr result (λ p. (p ≡ page.entry) × (share.new ≡ share.old)) }
    {
        let answer = self.state.lock(rt).put_page(worker, page, share);
        if answer.is_ok() {
            self.changed.notify_all();
        }
        answer
    }

    /// Puts a launch that a worker holds. It is handed back exactly where the worker does not hold its job. Those that sleep are woken,
    /// unless the worker is best given another launch next that was lent to it: it has chained that one already.
    pub fn put_launch(
        &self,
        rt: &impl Wait,
        worker: usize,
        launch: ChainedLaunch<'a, L>,
    ) -> Result<(), ChainedLaunch<'a, L>>
        ensures found { (found : BoardView) × (left : BoardView) × IsBoard found
            × IsOfRun L.pages L.plans found
            × Puts (CanPutLaunch found worker launch.entry.job.number launch.entry.job.plan
            launch.entry.job.row.digests) found
            (Event.Put worker (JobId.Launch launch.entry.job.number)) left result }
        ensures err { IfErr result (λ l. l ≡ launch.entry) }
    {
        let mut state = self.state.lock(rt);
        let answer = state.put_launch(worker, launch);
        let goes_on = state.next_lent(worker).is_some();
        drop(state);
        self.wake_unless(goes_on);
        answer
    }

    /// Wakes all that sleep, unless the worker that has put a job goes on with one that it was lent.
    fn wake_unless(&self, goes_on: bool) {
        if !goes_on {
            self.changed.notify_all();
        }
    }

    /// The shares of all workers add up to the book of the board that is found, and stay as they are.
    pub(crate) fn audit_shares(&self, rt: &impl Wait, shares: &mut [Share<L>])
        requires whole { length shares.old ≡ L.parts }
        requires some { 0 < length shares.old }
        ensures found { (found : BoardView) × IsBoard found × IsOfRun L.pages L.plans found
            × (found.book ≡ sum shares.old) }
        ensures same { shares.new ≡ shares.old }
    {
        self.state.lock(rt).audit_shares(shares);
    }

    /// Keeps a prefix of a launch that is being chained, and wakes a worker for each launch that goes on from it. Answers after how
    /// many links the next ones do, if any.
    pub(crate) fn keep_prefix(&self, rt: &impl Wait, prefix: OwnPrefix<L>) -> Option<usize> {
        let kept = self.state.lock(rt).keep_prefix(prefix);
        for _ in 0..kept.followers {
            self.changed.notify_one();
        }
        kept.next_stop
    }

    /// A row for a launch that is lent to a worker, if one is left.
    pub(crate) fn lend_row(&self, rt: &impl Wait) -> Option<DigestRow> {
        self.state.lock(rt).lend_row()
    }

    /// How many places there are beside the launch by an algorithm that a worker has taken.
    pub(crate) fn lend_count(&self, rt: &impl Wait, worker: usize, algo: Algo) -> usize
        ensures { result < MOST_LANES }
    {
        self.state.lock(rt).lend_count(worker, algo)
    }

    /// Lends a worker the launch of a place, to be chained beside the one that it has taken; or hands the row back.
    pub(crate) fn lend(
        &self,
        rt: &impl Wait,
        worker: usize,
        place: usize,
        row: DigestRow,
    ) -> Result<LaunchTask<'a, L>, DigestRow> {
        self.state.lock(rt).lend(worker, place, row)
    }

    /// Retires a worker. What it holds is then free.
    pub(crate) fn retire(&self, rt: &impl Wait, worker: usize) -> bool {
        let is_retired = self.state.lock(rt).retire(worker);
        if is_retired {
            self.changed.notify_all();
        }
        is_retired
    }

    /// The state, as long as the answer is kept.
    pub(crate) fn lock<'b>(&'b self, rt: &impl Wait) -> MutexGuard<'b, BoardState<'a, L>> {
        self.state.lock(rt)
    }
}
