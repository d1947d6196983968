//! What a worker does.
ghost use Rattle.std.specs.Prelude.{◌≡◌, map};
ghost use Rattle.page_jobs.specs.Page.{page_view};

use crate::board::Board;
use crate::chained_beside::ChainedBeside;
use crate::gate::Gate;
use job_board::{HashedPage, JobId, PageTask, Run, Share, Work};
use page_jobs::HashedAhead;
use rim_desc::Lanes;
use std::sync::Wait;

/// The pages and launches that a worker has done before they are given to it.
#[derive(Drop)]
pub(crate) struct Early<'a, L: Run> {
    pages: HashedAhead<'a>,
    launches: ChainedBeside<L>,
    ghost own: { map page_view pages.pages.now ≡ L.pages },
}

impl<'a, L: Run> Early<'a, L> {
    pub(crate) fn new(rt: &impl Wait, board: &Board<'a, L>, lanes: Lanes) -> Early<'a, L> {
        Early {
            pages: HashedAhead::new(board.pages(rt), lanes),
            launches: ChainedBeside::new(),
        }
    }

    /// Hashes a page that was given, unless that was done ahead.
    fn hash(&mut self, task: PageTask<'a, L>) -> HashedPage<'a, L>
        ensures { result.number ≡ task.entry.number }
    {
        let digest = self.pages.digest(task.number());
        task.known(digest)
    }
}

/// Takes jobs, runs them with no lock held and puts them, until none is given. A worker that ends retires: that
/// frees the job that it still holds, and wakes the sleepers. It holds one where a put was handed back, or where the job was taken
/// before the run.
pub(crate) fn work<'a, L: Run, G: Gate, R: Wait>(
    rt: &R,
    gate: &G,
    board: &Board<'a, L>,
    worker: usize,
    share: &mut Share<L>,
) {
    share.note_start();
    gate.start(worker);
    let mut early = Early::new(rt, board, gate.lanes());
    for _ in rt.forever() {
        let given = if gate.lets_launches_wait() {
            board.take_or_wait(rt, worker)
        } else {
            board.take(rt, worker)
        };
        if !run_job(rt, gate, board, worker, share, &mut early, given) {
            break;
        }
    }
    board.retire(rt, worker);
}

/// Runs a job that was taken and puts it, or answers false where none was given. A result that is handed back is dropped.
pub(crate) fn run_job<'a, L: Run, G: Gate, R: Wait>(
    rt: &R,
    gate: &G,
    board: &Board<'a, L>,
    worker: usize,
    share: &mut Share<L>,
    early: &mut Early<'a, L>,
    given: Work<'a, L>,
) -> bool {
    match given {
        Work::Page(task) => {
            let job = JobId::Page(task.number());
            gate.before(worker, job);
            let page = early.hash(task);
            let _ = board.put_page(rt, worker, page, share);
            gate.after(worker, job);
            true
        }
        Work::Launch(task) => {
            let job = JobId::Launch(task.number());
            gate.before(worker, job);
            let launch = early.launches.run(rt, board, worker, task);
            let _ = board.put_launch(rt, worker, launch);
            gate.after(worker, job);
            true
        }
        Work::Later | Work::Busy | Work::Done => false,
    }
}
