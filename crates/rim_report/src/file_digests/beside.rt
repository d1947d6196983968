//! A gate whose workers hash files when they begin.

use super::board::FileBoard;
use super::files_of_run::FilesOfRun;
use job_board::JobId;
use job_workers::Gate;
use rim_desc::Lanes;
use std::sync::Wait;

/// Passes all calls on to another gate. A worker that begins also hashes files of a board, until none is left.
#[derive(Drop)]
pub struct DigestsBeside<'r, 'g, 'b, 'a, L: FilesOfRun, G: Gate, R: Wait> {
    pub rt: &'r R,
    pub gate: &'g mut G,
    pub board: &'b FileBoard<'a, L>,
}

impl<L: FilesOfRun, G: Gate, R: Wait> Gate for DigestsBeside<'_, '_, '_, '_, L, G, R> {
    fn begin(&self, pages: usize, launches: usize) {
        self.gate.begin(pages, launches);
    }

    fn start(&self, worker: usize) {
        self.gate.start(worker);
        self.board.hash_files(self.rt);
    }

    fn before(&self, worker: usize, job: JobId) {
        self.gate.before(worker, job);
    }

    fn after(&self, worker: usize, job: JobId) {
        self.gate.after(worker, job);
    }

    fn lanes(&self) -> Lanes {
        self.gate.lanes()
    }

    fn lets_launches_wait(&self) -> bool {
        self.gate.lets_launches_wait()
    }
}
