//! The core: how each job is, with marks that make it quick to find a free one.
ghost use Rattle.std.specs.Prelude.{◌≡◌, ◌≢◌, ◌<◌, ◌≤◌, ℕ, length, map, IfNone, IfOk, IfSome, IsTrue, ◌↔◌, OnErr, Some, slice_get, true};
ghost use Rattle.refusal.specs.Answer.{Matches};
ghost use Rattle.job_core.specs.Jobs.{IsCore, IsOpen, NeedsWithin, NoneFree, NoneOpen, SomeHeld, held_count, is_out, is_over, is_ready, opening, state_of};
ghost use Rattle.job_core.specs.Step.{core_step};
ghost use Rattle.job_core.specs.inside.Marks.{lowered_page};
ghost use Rattle.job_core.specs.inside.Needs.{AreNeeds, needs_of};
ghost use Rattle.job_core.specs.declared.machine.TheConstants.{WORKER_LIMIT};

use crate::job::{CoreFault, Event, JobId, JobState};
use crate::jobs::Jobs;
use crate::needs::Needs;
use refusal::NoMemory;
use std::alloc::Global;
use std::marker::Model;

/// The most workers of a run: 64. This project's choice.
pub const WORKER_LIMIT: usize = 64;

/// The workers and the jobs of a run, and which pages each launch needs. Worker 0 never retires.
#[derive(Drop)]
pub struct Core {
    jobs: Jobs,
    /// No page below this one is free.
    pages_from: usize,
    /// How many pages are not done.
    pages_left: usize,
    /// How many launches are not done.
    launches_left: usize,
}

impl Model for Core {
    ghost use Rattle.job_core.specs.Jobs.{CoreState, IsCore};
    ghost use Rattle.job_core.specs.inside.Marks.{Marks};

    ghost Value = { CoreState };

    ghost view = { λ c. c.jobs };

    ghost invariant = { λ c. IsCore c.jobs
        × Marks c.pages_from c.pages_left c.launches_left c.jobs };
}

impl Core {
    /// A core of 1 to 64 workers and this many pages, and of launches that need the pages listed: the plain form, for boards that are
    /// written down page by page. A run makes its core of its plans. No worker is
    /// retired, and each job is free. It takes all memory that its steps need.
    pub fn new(
        alloc: Global,
        workers: usize,
        pages: usize,
        needs: Vec<Vec<usize>>,
    ) -> Result<Core, NoMemory>
        requires workers { (1 ≤ workers) × (workers ≤ WORKER_LIMIT) }
        requires needs { NeedsWithin (map (λ v. v.items) needs.items) pages }
        ensures { IfOk result (λ c. c ≡ opening workers pages (map (λ v. v.items) needs.items)) }
    {
        let needs = Needs::listed(alloc, pages, needs)?;
        Core::with_needs(alloc, workers, pages, needs)
    }

    /// A core of 1 to 64 workers and this many pages, and of launches with these needs.
    pub fn with_needs(
        alloc: Global,
        workers: usize,
        pages: usize,
        needs: Needs,
    ) -> Result<Core, NoMemory>
        requires workers { (1 ≤ workers) × (workers ≤ WORKER_LIMIT) }
        requires needs { AreNeeds pages needs }
        ensures { IfOk result (λ c. c ≡ opening workers pages (needs_of needs)) }
    {
        let launches = needs.launches();
        let jobs = Jobs::new(alloc, workers, pages, needs)?;
        Ok(Core {
            jobs,
            pages_from: 0,
            pages_left: pages,
            launches_left: launches,
        })
    }

    /// Makes the step of an event, or answers the first fault that holds and changes nothing. It takes no memory.
    pub fn step(&mut self, event: &Event) -> Result<(), CoreFault>
        ensures step { Matches (λ u. self.new) result (core_step self.old event.now) }
        ensures same { OnErr result (self.new ≡ self.old) }
    {
        match *event {
            Event::Take { worker, job } => self.take(worker, job),
            Event::Put { worker, job } => self.put(worker, job),
            Event::Retire { worker } => self.retire(worker),
        }
    }

    fn take(&mut self, worker: usize, job: JobId) -> Result<(), CoreFault>
        ensures step { Matches (λ u. self.new) result (core_step self.old (Event.Take worker job)) }
        ensures same { OnErr result (self.new ≡ self.old) }
    {
        self.jobs.take(worker, job)
    }

    fn put(&mut self, worker: usize, job: JobId) -> Result<(), CoreFault>
        ensures step { Matches (λ u. self.new) result (core_step self.old (Event.Put worker job)) }
        ensures same { OnErr result (self.new ≡ self.old) }
    {
        if let Err(fault) = self.jobs.put(worker, job) {
            return Err(fault);
        }
        match job {
            JobId::Page(_) => self.pages_left -= 1,
            JobId::Launch(_) => self.launches_left -= 1,
        }
        Ok(())
    }

    fn retire(&mut self, worker: usize) -> Result<(), CoreFault>
        ensures step { Matches (λ u. self.new) result (core_step self.old (Event.Retire worker)) }
        ensures same { OnErr result (self.new ≡ self.old) }
    {
        let held = self.jobs.held(worker);
        if let Err(fault) = self.jobs.retire(worker) {
            return Err(fault);
        }
        self.pages_from = lowered_page(self.pages_from, held);
        Ok(())
    }
}

impl Core {
    /// How many workers it has: 1 to 64.
    pub fn workers(&self) -> usize
        ensures count { result ≡ length self.now.retired }
        ensures core { IsCore self.now }
    {
        self.jobs.worker_count()
    }

    /// How many pages it has.
    pub fn pages(&self) -> usize
        ensures { result ≡ length self.now.pages }
    {
        self.jobs.pages().len()
    }

    /// How many launches it has.
    pub fn launches(&self) -> usize
        ensures { result ≡ length self.now.launches }
    {
        self.jobs.launches().len()
    }

    /// Whether a worker is retired or its number is unknown.
    pub fn is_out(&self, worker: usize) -> bool
        ensures { result ≡ is_out self.now worker }
    {
        self.jobs.is_out(worker)
    }

    /// How a job is, or `None` where no job has this number.
    pub fn state(&self, job: JobId) -> Option<JobState>
        ensures { result ≡ state_of self.now job }
    {
        self.jobs.state(job)
    }

    /// The job that a worker holds, or `None` where it holds none.
    pub fn held(&self, worker: usize) -> Option<JobId>
        ensures held { IfSome result (λ job. state_of self.now job ≡ Some (JobState.Held worker)) }
        ensures one { IfSome result (λ job. held_count self.now worker ≡ 1) }
        ensures none { IfNone result (held_count self.now worker ≡ 0) }
    {
        self.jobs.held(worker)
    }

    /// Whether some worker holds a job.
    pub fn is_some_held(&self) -> bool
        ensures { result ≡ true → SomeHeld self.now }
    {
        for worker in 0..self.workers() {
            if self.held(worker).is_some() {
                return true;
            }
        }
        false
    }

    /// Whether all jobs are done.
    pub fn is_finished(&self) -> bool
        ensures { result ≡ is_over self.now }
    {
        self.pages_left == 0 && self.launches_left == 0
    }

    /// A page that is free, or `None` where none is. Pages that were passed over are not looked at again, unless a
    /// retirement frees one.
    pub fn free_page(&mut self) -> Option<usize>
        ensures same { self.new ≡ self.old }
        ensures some { IfSome result (λ page. slice_get self.old.pages page ≡ Some JobState.Free) }
        ensures none { IfNone result (NoneFree self.old.pages) }
    {
        let pages = self.jobs.pages();
        let page = free_at(pages, self.pages_from);
        self.pages_from = page.unwrap_or(pages.len());
        page
    }

    /// A launch that is free and of which all pages are done, or `None` where none is. A launch that was passed over is not
    /// looked at again, unless a retirement frees one.
    pub fn ready_launch(&mut self) -> Option<usize>
        ensures same { self.new ≡ self.old }
        ensures some { IfSome result (IsOpen self.old) }
        ensures none { IfNone result (NoneOpen self.old) }
    {
        self.jobs.ready_launch()
    }

    /// A launch of which all pages are done, by its place in the order in which that came to be.
    pub fn in_line(&self, place: usize) -> Option<usize> {
        self.jobs.in_line(place)
    }

    /// Whether a launch is free and all pages that it needs are done.
    pub fn is_open(&self, launch: usize) -> bool
        ensures { IsTrue result ↔ IsOpen self.now launch }
    {
        let job = JobId::Launch(launch);
        self.jobs.is_free(job) && self.jobs.is_ready(job)
    }
}

/// How many pages are passed over, where what a worker held is free again.
fn lowered_page(from: usize, held: Option<JobId>) -> usize
    ensures { result ≡ lowered_page from held }
{
    match held {
        Some(JobId::Page(page)) => from.min(page),
        _ => from,
    }
}

/// The first free job of a list, from a place on.
fn free_at(states: &[JobState], from: usize) -> Option<usize>
    ensures some { IfSome result (λ j. slice_get states.now j ≡ Some JobState.Free) }
    ensures first { IfSome result
        (λ j. (k : ℕ) → from ≤ k → k < j → slice_get states.now k ≢ Some JobState.Free) }
    ensures none { IfNone result
        ((k : ℕ) → from ≤ k → slice_get states.now k ≢ Some JobState.Free) }
{
    for j in from..states.len() {
        if matches!(states[j], JobState::Free) {
            return Some(j);
        }
    }
    None
}
