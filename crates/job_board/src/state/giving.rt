//! What a board gives: jobs, and launches that are lent.
ghost use Rattle.std.specs.Prelude.{◌≡◌, ◌≢◌, ◌<◌, false, true, IfNone, IfOk, IfSome, Some, slice_get};
ghost use Rattle.rim_desc.specs.declared.side_by_side.TheConstants.{MOST_LANES};
ghost use Rattle.launch_plan.specs.Links.{keys_of};
ghost use Rattle.launch_plan.specs.Rows.{IsRowOf};
ghost use Rattle.job_core.specs.declared.job.Event.{Event};
ghost use Rattle.job_core.specs.declared.job.JobId.{JobId};
ghost use Rattle.job_core.specs.declared.job.JobState.{JobState};
ghost use Rattle.job_tasks.specs.declared.work.Work.{Work};
ghost use Rattle.job_board.specs.Board.{Adds, IsBoard, IsOfRun, SameRest};
ghost use Rattle.job_board.specs.Gives.{Gives};
ghost use Rattle.job_core.specs.Jobs.{IsOpen, NoneFree, SomeHeld, held_count, is_out, is_over, is_ready, state_of};

use super::{BoardState, record};
use crate::lending::lent_task;
use job_core::{Event, JobId};
use job_tasks::{LaunchTask, PageTask, Run, Work, filled_task, plan_at, take_row};
use page_jobs::DigestRow;
use rim_desc::Algo;

impl<'a, L: Run> BoardState<'a, L> {
    /// A free job that is ready, or why none is given. Its event is added, and the row of a launch is filled.
    pub fn take(&mut self, worker: usize) -> Work<'a, L>
        ensures board { IsBoard self.old × IsOfRun L.pages L.plans self.old }
        ensures gives { Gives self.old worker result self.new }
    {
        let work = self.preferred_work(worker);
        if !matches!(work, Work::Later) {
            return work;
        }
        self.work_left(worker)
    }

    /// The same for a worker that may come again when a job is put, a worker retires or a prefix is kept. `Later` may also be
    /// answered where free launches are ready. It says that this worker holds no job, that another one holds some job, and that
    /// nothing is changed. Which launches are left for later is not promised; they should be those that go on from a prefix which
    /// another worker hands over when it comes to it.
    pub fn take_or_wait(&mut self, worker: usize) -> Work<'a, L>
        ensures board { IsBoard self.old × IsOfRun L.pages L.plans self.old }
        ensures gives { result ≢ Work.Later → Gives self.old worker result self.new }
        ensures later { result ≡ Work.Later → self.new ≡ self.old }
        ensures known { result ≡ Work.Later → is_out self.old.core worker ≡ false }
        ensures idle { result ≡ Work.Later → held_count self.old.core worker ≡ 0 }
        ensures held { result ≡ Work.Later → SomeHeld self.old.core }
    {
        let work = self.preferred_work(worker);
        if !matches!(work, Work::Later) {
            return work;
        }
        if self.core.is_some_held() {
            return Work::Later;
        }
        self.work_left(worker)
    }

    /// A launch that goes on from another whose prefix is not known, or why none is given.
    fn work_left(&mut self, worker: usize) -> Work<'a, L>
        requires known { is_out self.old.core worker ≡ false }
        requires idle { held_count self.old.core worker ≡ 0 }
        requires open { is_over self.old.core ≡ false }
        requires pages { NoneFree self.old.core.pages }
        ensures board { IsBoard self.old }
        ensures gives { Gives self.old worker result self.new }
    {
        match self.core.ready_launch() {
            Some(number) => Work::Launch(self.give_launch(worker, number)),
            None => Work::Later,
        }
    }

    /// What a worker is given, unless only launches are left that go on from others whose prefixes are not known; then, and where
    /// nothing is left, it is `Later`.
    fn preferred_work(&mut self, worker: usize) -> Work<'a, L>
        ensures board { IsBoard self.old × IsOfRun L.pages L.plans self.old }
        ensures gives { result ≢ Work.Later → Gives self.old worker result self.new }
        ensures same { result ≡ Work.Later → self.new ≡ self.old }
        ensures known { result ≡ Work.Later → is_out self.old.core worker ≡ false }
        ensures idle { result ≡ Work.Later → held_count self.old.core worker ≡ 0 }
        ensures open { result ≡ Work.Later → is_over self.old.core ≡ false }
        ensures pages { result ≡ Work.Later → NoneFree self.old.core.pages }
    {
        if self.core.is_out(worker) || self.core.is_finished() {
            return Work::Done;
        }
        if self.core.held(worker).is_some() {
            return Work::Busy;
        }
        if let Some(number) = self.preferred_launch(worker) {
            return Work::Launch(self.give_launch(worker, number));
        }
        match self.preferred_page(worker) {
            Some(page) => Work::Page(self.give_page(worker, page)),
            None => Work::Later,
        }
    }

    /// A launch that the worker is best given now, if there is one.
    fn preferred_launch(&mut self, worker: usize) -> Option<usize>
        ensures same { self.new ≡ self.old }
        ensures open { IfSome result (IsOpen self.old.core) }
    {
        self.preferences
            .next_launch(&self.core, self.plans, &self.prefixes, worker)
    }

    /// The free page that the worker is best given now, if any page is free.
    fn preferred_page(&mut self, worker: usize) -> Option<usize>
        ensures same { self.new ≡ self.old }
        ensures free { IfSome result
            (λ page. slice_get self.old.core.pages page ≡ Some JobState.Free) }
        ensures none { IfNone result (NoneFree self.old.core.pages) }
    {
        self.preferences.next_page(&mut self.core, worker)
    }

    /// Gives a free page to a worker that holds no job.
    fn give_page(&mut self, worker: usize, page: usize) -> PageTask<'a, L>
        requires known { is_out self.old.core worker ≡ false }
        requires idle { held_count self.old.core worker ≡ 0 }
        requires free { state_of self.old.core (JobId.Page page) ≡ Some JobState.Free }
        ensures event { Adds self.old (Event.Take worker (JobId.Page page)) self.new }
        ensures rest { SameRest self.old self.new }
        ensures number { result.number ≡ page }
        ensures page { slice_get self.old.table.pages page ≡ Some result.page }
    {
        let BoardState {
            core,
            history,
            table,
            ..
        } = self;
        let event = Event::Take {
            worker,
            job: JobId::Page(page),
        };
        let Ok(()) = record(core, history, event) else {
            unreachable!()
        };
        let Some(task) = PageTask::new(table.pages(), page) else {
            unreachable!()
        };
        task
    }

    /// Gives a free launch that is ready to a worker that holds no job.
    fn give_launch(&mut self, worker: usize, number: usize) -> LaunchTask<'a, L>
        requires known { is_out self.old.core worker ≡ false }
        requires idle { held_count self.old.core worker ≡ 0 }
        requires free { state_of self.old.core (JobId.Launch number) ≡ Some JobState.Free }
        requires ready { is_ready self.old.core (JobId.Launch number) ≡ true }
        ensures event { Adds self.old (Event.Take worker (JobId.Launch number)) self.new }
        ensures rest { SameRest self.old self.new }
        ensures number { result.number ≡ number }
        ensures plan { slice_get self.old.plans number ≡ Some result.plan }
        ensures row { IsRowOf self.old.table (keys_of result.plan.links) result.row.digests }
    {
        let BoardState {
            core,
            history,
            table,
            plans,
            rows,
            prefixes,
            ..
        } = self;
        let event = Event::Take {
            worker,
            job: JobId::Launch(number),
        };
        let Ok(()) = record(core, history, event) else {
            unreachable!()
        };
        let plan = plan_at(plans, number);
        let Some(row) = take_row(rows, worker) else {
            unreachable!()
        };
        let row = row.filled_for(table, plan);
        filled_task(table, plans, prefixes, number, plan, row)
    }
}

impl<'a, L: Run> BoardState<'a, L> {
    /// A row for a launch that is lent to a worker, if one is left.
    pub fn lend_row(&mut self) -> Option<DigestRow>
        ensures { self.new ≡ self.old }
    {
        self.preferences.lend_row()
    }

    /// How many places there are beside the launch by an algorithm that a worker has taken, for launches that it is lent: as many as
    /// are quick side by side, also where fewer are lent. There are none where each launch that was ready had a worker of its own, and
    /// where the launch is best chained alone.
    pub fn lend_count(&self, worker: usize, algo: Algo) -> usize
        ensures { result < MOST_LANES }
    {
        self.preferences.lend_count(worker, algo)
    }

    /// A launch that is free and ready, of those that a worker was lent, if one is left. It is best given to that worker next.
    pub fn next_lent(&self, worker: usize) -> Option<usize>
        ensures { IfSome result (IsOpen self.now.core) }
    {
        self.preferences.next_lent(&self.core, worker)
    }

    /// Lends a worker the launch of a place, which is ready, to be chained beside the one that it has taken. It was chosen when that one
    /// was. It is not taken by that, and is best given to this worker later. The row is handed back where no launch is in that place, or
    /// the row has no room for it.
    pub fn lend(
        &mut self,
        worker: usize,
        place: usize,
        row: DigestRow,
    ) -> Result<LaunchTask<'a, L>, DigestRow>
        ensures same { self.new ≡ self.old }
        ensures open { IfOk result (λ task. IsOpen self.old.core task.number) }
    {
        let BoardState {
            core,
            table,
            plans,
            room,
            prefixes,
            preferences,
            ..
        } = self;
        let Some(number) = preferences.lent(core, worker, place) else {
            return Err(row);
        };
        lent_task(table, plans, prefixes, *room, number, row)
    }
}
