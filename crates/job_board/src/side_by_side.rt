//! Which page a worker is to be given next.
//!
//! A worker hashes a group of pages side by side when it is given the first of them, and puts the others when their own jobs
//! are given. Where another worker is given one of these, it hashes it too. That happens only where no group is left to
//! begin, so for each worker at most the rest of a group is hashed twice.
ghost use Rattle.std.specs.Prelude.{◌<◌};

use refusal::NoMemory;
use rim_desc::{Algo, Lanes};
use std::alloc::Global;

/// The pages in groups of neighbours, as many as are hashed side by side. Each group is best given to one worker. What is
/// said here is preferred, and no more: the board gives another page where that one is not free.
#[derive(Drop)]
pub(crate) struct SideBySide {
    /// Of each worker, the page after its last one.
    next: Vec<usize>,
    /// The first page of the first group that was given to none.
    begin: usize,
    lanes: Lanes,
}

impl SideBySide {
    /// Groups of which none was given to any of this many workers.
    pub(crate) fn new(alloc: Global, workers: usize, lanes: Lanes) -> Result<SideBySide, NoMemory> {
        let next = vec![in alloc; 0; workers]?;
        Ok(SideBySide {
            next,
            begin: 0,
            lanes,
        })
    }

    /// How many pages a group has. Those by SHA-512 are in groups of as many.
    fn group(&self) -> usize
        ensures { 0 < result }
    {
        self.lanes.count(Algo::Sha256)
    }

    /// The page that a worker is to be given: the one after its last in the same group, or else the first of a group
    /// that was given to none.
    pub(crate) fn preferred(&self, worker: usize) -> usize {
        match self.next.get(worker) {
            Some(next) if next % self.group() != 0 => *next,
            _ => self.begin,
        }
    }

    /// Whether a worker is within a group, whose pages it has hashed side by side.
    pub(crate) fn is_within(&self, worker: usize) -> bool {
        match self.next.get(worker) {
            Some(next) => next % self.group() != 0,
            None => false,
        }
    }

    /// Notes the page that a worker was given.
    pub(crate) fn note(&mut self, worker: usize, page: usize) {
        if let Some(next) = self.next.get_mut(worker) {
            *next = page.saturating_add(1);
        }
        if page == self.begin {
            self.begin = page.saturating_add(self.group());
        }
    }
}
