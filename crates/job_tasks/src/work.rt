//! What a worker is given.
use crate::run::Run;
use crate::task::{LaunchTask, PageTask};

/// A job, or why none is given.
#[derive(Drop)]
pub enum Work<'a, L: Run> {
    /// A page to hash.
    Page(PageTask<'a, L>),
    /// A launch to chain.
    Launch(LaunchTask<'a, L>),
    /// Something is not done, and nothing that is free is ready. Of `BoardState::take_or_wait`: another worker holds a job; a
    /// launch that is free and ready may be left for later.
    Later,
    /// The worker holds a job.
    Busy,
    /// All is done, or the worker is retired or unknown.
    Done,
}
