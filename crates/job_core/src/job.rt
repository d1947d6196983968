//! Jobs, what workers do with them, and why that is refused.

/// A job, by its number among its kind, from 0 on.
#[derive(Clone, Copy, Debug, PartialEq, Eq)]
pub enum JobId {
    /// A page that is to be hashed.
    Page(usize),
    /// A launch that is to be chained.
    Launch(usize),
}

/// How a job is.
#[derive(Clone, Copy, Debug, PartialEq, Eq)]
pub enum JobState {
    Free,
    /// Held by the worker of this number.
    Held(usize),
    Done,
}

/// What a worker does, by its number.
#[derive(Clone, Copy, Debug, PartialEq, Eq)]
pub enum Event {
    /// It takes a free job.
    Take { worker: usize, job: JobId },
    /// It puts the job that it holds, which is then done.
    Put { worker: usize, job: JobId },
    /// It retires, and what it holds is free again.
    Retire { worker: usize },
}

/// Why an event is refused. Where several hold, the first of this list is answered.
#[derive(Clone, Copy, Debug, PartialEq, Eq)]
pub enum CoreFault {
    /// The worker is retired or its number is unknown, or worker 0 is to be retired.
    Retired,
    /// No job has this number.
    NoSuchJob,
    /// A put of a job that this worker does not hold.
    Stranger,
    /// A take by a worker that holds a job.
    Busy,
    /// A take of a job that is held or done.
    Taken,
    /// A take of a launch of which not all pages are done.
    Early,
}
