//! How each job is, and what each event makes of it.
ghost use Rattle.std.specs.Prelude.{◌≡◌, false, length, true, IfNone, IfOk, IfSome, OnErr, Some};
ghost use Rattle.refusal.specs.Answer.{Matches};
ghost use Rattle.job_core.specs.declared.job.Event.{Event};
ghost use Rattle.job_core.specs.Jobs.{IsOpen, NoneOpen, held_count, is_done, is_free, is_out, is_ready, opening, state_of, with_job, with_launch, with_page};
ghost use Rattle.job_core.specs.Step.{core_step, job_is};
ghost use Rattle.job_core.specs.inside.Lines.{passed_over};
ghost use Rattle.job_core.specs.inside.Needs.{AreNeeds, needs_of};
ghost use Rattle.job_core.specs.inside.Notes.{IsJob, Moves, held_of, released};

use crate::job::{CoreFault, JobId, JobState};
use crate::line::{first_ready, free_in, launch_at};
use crate::needs::Needs;
use crate::reaches::{Cursor, all_left, note_done};
use refusal::NoMemory;
use std::alloc::Global;
use std::marker::Model;

/// The workers and the jobs of a run, and which pages each launch needs.
#[derive(Drop)]
pub(crate) struct Jobs {
    retired: Vec<bool>,
    pages: Vec<JobState>,
    launches: Vec<JobState>,
    needs: Needs,
    /// What each worker holds.
    holding: Vec<Option<JobId>>,
    /// How far each group of pages is done.
    cursors: Vec<Cursor>,
    /// Of each launch, how many of its reaches are not done.
    left: Vec<usize>,
    /// The launches that wait for nothing, in the order in which that came to be.
    ready: Vec<usize>,
    /// None before this place in their line is free.
    ready_from: usize,
}

impl Model for Jobs {
    ghost use Rattle.job_core.specs.Jobs.{CoreState};
    ghost use Rattle.job_core.specs.inside.Needs.{groups_of, needs_of};
    ghost use Rattle.std.specs.Prelude.{◌≡◌, length, vec_capacity};
    ghost use Rattle.job_core.specs.inside.Lines.{IsLine, IsPassed};
    ghost use Rattle.job_core.specs.inside.Notes.{Notes};
    ghost use Rattle.job_core.specs.inside.Reaches.{IsIndex, Waits};

    ghost Value = { CoreState };

    ghost view = { λ c. record {
      retired = c.retired.items;
      pages = c.pages.items;
      launches = c.launches.items;
      needs = needs_of c.needs;
    } };

    ghost invariant = { λ c. Notes c.holding.items (record {
      retired = c.retired.items;
      pages = c.pages.items;
      launches = c.launches.items;
      needs = needs_of c.needs;
    })
        × Waits c.pages.items (groups_of c.needs) c.cursors.items c.left.items
        × IsIndex (needs_of c.needs) (groups_of c.needs)
        × IsLine c.left.items c.ready.items (vec_capacity c.ready)
        × IsPassed c.launches.items c.ready.items c.ready_from
        × (length c.left.items ≡ length c.launches.items) };
}

impl Jobs {
    /// This many workers and pages, and launches with these needs. No worker is retired, and each job is free.
    pub(crate) fn new(
        alloc: Global,
        workers: usize,
        pages: usize,
        needs: Needs,
    ) -> Result<Jobs, NoMemory>
        requires { AreNeeds pages needs }
        ensures { IfOk result (λ c. c ≡ opening workers pages (needs_of needs)) }
    {
        let retired = vec![in alloc; false; workers]?;
        let pages = vec![in alloc; JobState::Free; pages]?;
        let launches = vec![in alloc; JobState::Free; needs.launches()]?;
        let holding = vec![in alloc; None; workers]?;
        let cursors = vec![in alloc; Cursor { done: 0, met: 0 }; needs.groups().len()]?;
        let left = all_left(alloc, needs.groups(), needs.launches())?;
        let ready = first_ready(alloc, &left)?;
        Ok(Jobs {
            retired,
            pages,
            launches,
            needs,
            holding,
            cursors,
            left,
            ready,
            ready_from: 0,
        })
    }

    /// Takes a job, or answers the first fault that holds and changes nothing.
    pub(crate) fn take(&mut self, worker: usize, job: JobId) -> Result<(), CoreFault>
        ensures step { Matches (λ u. self.new) result (core_step self.old (Event.Take worker job)) }
        ensures same { OnErr result (self.new ≡ self.old) }
    {
        if self.is_out(worker) {
            return Err(CoreFault::Retired);
        }
        let Some(state) = self.state(job) else {
            return Err(CoreFault::NoSuchJob);
        };
        if self.held(worker).is_some() {
            return Err(CoreFault::Busy);
        }
        if !matches!(state, JobState::Free) {
            return Err(CoreFault::Taken);
        }
        if !self.is_ready(job) {
            return Err(CoreFault::Early);
        }
        self.write(worker, job, JobState::Held(worker), Some(job));
        Ok(())
    }

    /// Puts a job, or answers the first fault that holds and changes nothing.
    pub(crate) fn put(&mut self, worker: usize, job: JobId) -> Result<(), CoreFault>
        ensures step { Matches (λ u. self.new) result (core_step self.old (Event.Put worker job)) }
        ensures same { OnErr result (self.new ≡ self.old) }
    {
        if self.is_out(worker) {
            return Err(CoreFault::Retired);
        }
        match self.state(job) {
            None => Err(CoreFault::NoSuchJob),
            Some(JobState::Held(holder)) if holder == worker => {
                self.finish(worker, job);
                Ok(())
            }
            Some(_) => Err(CoreFault::Stranger),
        }
    }

    /// Retires a worker, or answers the fault and changes nothing.
    pub(crate) fn retire(&mut self, worker: usize) -> Result<(), CoreFault>
        ensures step { Matches (λ u. self.new) result (core_step self.old (Event.Retire worker)) }
        ensures same { OnErr result (self.new ≡ self.old) }
    {
        if worker == 0 || self.is_out(worker) {
            return Err(CoreFault::Retired);
        }
        self.release(worker);
        self.retired[worker] = true;
        Ok(())
    }

    /// Frees what a worker holds.
    fn release(&mut self, worker: usize)
        requires { is_out self.old worker ≡ false }
        ensures { self.new ≡ released self.old worker }
    {
        match self.held(worker) {
            None => {}
            Some(job) => self.write(worker, job, JobState::Free, None),
        }
    }

    /// A job that a worker holds is done.
    fn finish(&mut self, worker: usize, job: JobId)
        requires known { is_out self.old worker ≡ false }
        requires held { state_of self.old job ≡ Some (JobState.Held worker) }
        ensures { self.new ≡ with_job self.old job JobState.Done }
    {
        let Jobs {
            pages,
            launches,
            needs,
            holding,
            cursors,
            left,
            ready,
            ..
        } = self;
        set_job(pages, launches, job, JobState::Done);
        holding[worker] = None;
        note_done(needs.groups(), pages, job, cursors, left, ready);
    }

    /// Writes how a job is that is not done then either, and what a worker then holds.
    fn write(&mut self, worker: usize, job: JobId, state: JobState, held: Option<JobId>)
        requires known { is_out self.old worker ≡ false }
        requires moves { Moves self.old worker job state held }
        requires open { is_done state ≡ false }
        ensures { self.new ≡ with_job self.old job state }
    {
        let Jobs {
            pages,
            launches,
            holding,
            ready_from,
            ..
        } = self;
        set_job(pages, launches, job, state);
        holding[worker] = held;
        *ready_from = passed_over(*ready_from, job, state);
    }
}

impl Jobs {
    /// How a job is, or `None` where no job has this number.
    pub(crate) fn state(&self, job: JobId) -> Option<JobState>
        ensures { result ≡ state_of self.now job }
    {
        match job {
            JobId::Page(page) => self.pages.get(page).copied(),
            JobId::Launch(launch) => self.launches.get(launch).copied(),
        }
    }

    /// Whether a worker is retired or its number is unknown.
    pub(crate) fn is_out(&self, worker: usize) -> bool
        ensures { result ≡ is_out self.now worker }
    {
        self.retired.get(worker).copied().unwrap_or(true)
    }

    /// The job that a worker holds, if it holds one.
    pub(crate) fn held(&self, worker: usize) -> Option<JobId>
        ensures held { IfSome result (λ job. state_of self.now job ≡ Some (JobState.Held worker)) }
        ensures count { held_count self.now worker ≡ held_of result }
    {
        self.holding.get(worker).copied().flatten()
    }

    pub(crate) fn is_free(&self, job: JobId) -> bool
        ensures { result ≡ job_is is_free (state_of self.now job) }
    {
        matches!(self.state(job), Some(JobState::Free))
    }

    pub(crate) fn worker_count(&self) -> usize
        ensures { result ≡ length self.now.retired }
    {
        self.retired.len()
    }

    pub(crate) fn pages(&self) -> &[JobState]
        ensures { result.now ≡ self.now.pages }
    {
        self.pages.as_slice()
    }

    pub(crate) fn launches(&self) -> &[JobState]
        ensures { result.now ≡ self.now.launches }
    {
        self.launches.as_slice()
    }

    /// Whether all pages that a job needs are done.
    pub(crate) fn is_ready(&self, job: JobId) -> bool
        ensures { result ≡ is_ready self.now job }
    {
        match job {
            JobId::Page(_) => true,
            JobId::Launch(launch) => self.is_launch_ready(launch),
        }
    }

    /// A launch that is free and of which all pages are done, or `None` where none is. A launch that was passed over is not
    /// looked at again, unless a retirement frees one.
    pub(crate) fn ready_launch(&mut self) -> Option<usize>
        ensures same { self.new ≡ self.old }
        ensures some { IfSome result (IsOpen self.old) }
        ensures none { IfNone result (NoneOpen self.old) }
    {
        let Jobs {
            launches,
            ready,
            ready_from,
            ..
        } = self;
        let from = free_in(launches, ready, *ready_from);
        *ready_from = from;
        launch_at(ready, from)
    }

    /// A launch of the line of those that came to be ready, by its place there.
    pub(crate) fn in_line(&self, place: usize) -> Option<usize> {
        launch_at(&self.ready, place)
    }

    /// Whether all pages that a launch needs are done: it waits for none of its reaches.
    fn is_launch_ready(&self, launch: usize) -> bool
        ensures { result ≡ is_ready self.now (JobId.Launch launch) }
    {
        self.left.get(launch).copied().unwrap_or(0) == 0
    }
}

/// How many of a line are passed over, where a job is made so: none, where a launch is free again.
fn passed_over(from: usize, job: JobId, state: JobState) -> usize
    ensures { result ≡ passed_over from job state }
{
    match (job, state) {
        (JobId::Launch(_), JobState::Free) => 0,
        _ => from,
    }
}

/// Writes how a job is.
fn set_job(pages: &mut Vec<JobState>, launches: &mut Vec<JobState>, job: JobId, state: JobState)
    requires { IsJob job (length pages.old.items) (length launches.old.items) }
    ensures pages { pages.new.items ≡ with_page job state pages.old.items }
    ensures launches { launches.new.items ≡ with_launch job state launches.old.items }
{
    match job {
        JobId::Page(page) => pages[page] = state,
        JobId::Launch(launch) => launches[launch] = state,
    }
}
