//! What is called when a worker begins, and around each job.
use job_board::JobId;
use rim_desc::Lanes;

/// Is called by a worker that holds no lock: when it begins, before a job is run, and after it was put.
pub trait Gate {
    /// Is called once, before the first worker is started, with the numbers of all pages and launches.
    fn begin(&self, _pages: usize, _launches: usize) {}

    /// Is called by each worker once, when it begins and before its first job.
    fn start(&self, _worker: usize) {}

    fn before(&self, worker: usize, job: JobId);

    fn after(&self, worker: usize, job: JobId);

    /// How wide the vectors are that the program was built for.
    fn lanes(&self) -> Lanes {
        Lanes::Four
    }

    /// Whether a worker may sleep while launches are ready, where another worker is at work on what they begin with. A gate that
    /// holds up a job until another one is done answers no, as this does: the other may be a launch that is left for later.
    fn lets_launches_wait(&self) -> bool {
        false
    }
}

/// A gate that does nothing.
#[derive(Clone, Copy, Debug)]
pub struct FreeGate;

impl Gate for FreeGate {
    fn before(&self, _worker: usize, _job: JobId) {}

    fn after(&self, _worker: usize, _job: JobId) {}

    fn lets_launches_wait(&self) -> bool {
        true
    }
}
