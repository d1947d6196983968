//! The jobs that a board gives, and what comes of them. Their types say that they are of its own run: so nothing is compared
//! when they are put.
ghost use Rattle.std.specs.Prelude.{◌≡◌, ◌<◌, ◌≤◌, ◌+◌, ◌↔◌, [], length, map, slice_get, slice_index_or, option_map, IfSome, IsSome, Some};
ghost use Rattle.page_jobs.specs.Page.{digest_of, page_view};
ghost use Rattle.rim_chain.specs.Chains.{IsUnderWay};
ghost use Rattle.launch_plan.specs.Links.{chain_of};
ghost use Rattle.rim_chain.specs.SharedPrefixes.{IsOwnPrefix};
ghost use Rattle.job_tasks.specs.Tasks.{IsOwnLaunch, IsOwnValue, whole_table};

use crate::rows::WorkerRow;
use crate::run::Run;
use page_jobs::{DigestRow, Hashed, Page, PageJob};
use rim_chain::{LaunchChain, LaunchJob, LaunchRim, Prefix};
use rim_desc::{Algo, Measurement};
use std::marker::{Model, PhantomData};

/// A page of a run that is to be hashed.
#[derive(Drop)]
pub struct PageTask<'a, L: Run> {
    number: usize,
    job: PageJob<'a>,
    run: PhantomData<L>,
}

impl<'a, L: Run> Model for PageTask<'a, L> {
    ghost use Rattle.std.specs.Prelude.{◌≡◌, Some, slice_get};
    ghost use Rattle.page_jobs.specs.Page.{page_view};
    ghost use Rattle.job_tasks.specs.Tasks.{PageTaskView};

    ghost Value = { PageTaskView };

    ghost view = { λ t. record { number = t.number; page = page_view t.job.page } };

    ghost invariant = { λ t. slice_get L.pages t.number ≡ Some (page_view t.job.page) };
}

/// A page of a run with its digest.
#[derive(Drop)]
pub struct HashedPage<'a, L: Run> {
    number: usize,
    hashed: Hashed<'a>,
    run: PhantomData<L>,
}

impl<'a, L: Run> Model for HashedPage<'a, L> {
    ghost use Rattle.std.specs.Prelude.{◌≡◌, Some, slice_get};
    ghost use Rattle.page_jobs.specs.Page.{page_view};
    ghost use Rattle.job_tasks.specs.Tasks.{HashedView};

    ghost Value = { HashedView };

    ghost view = { λ h. record
        { number = h.number; page = page_view h.hashed.page; digest = h.hashed.digest } };

    ghost invariant = { λ h. slice_get L.pages h.number ≡ Some (page_view h.hashed.page) };
}

/// A launch of a run that is to be chained, with the digests of its own pages.
#[derive(Drop)]
pub struct LaunchTask<'a, L: Run> {
    job: LaunchJob<'a>,
    run: PhantomData<L>,
}

impl<'a, L: Run> Model for LaunchTask<'a, L> {
    ghost use Rattle.rim_chain.specs.Jobs.{JobView};
    ghost use Rattle.job_tasks.specs.Tasks.{IsOwnLaunch};

    ghost Value = { JobView };

    ghost view = { λ t. t.job };

    ghost invariant = { λ t. IsOwnLaunch L.pages L.plans t.job };
}

/// A launch of a run with its measurement.
#[derive(Drop)]
pub struct ChainedLaunch<'a, L: Run> {
    rim: LaunchRim<'a>,
    run: PhantomData<L>,
}

impl<'a, L: Run> Model for ChainedLaunch<'a, L> {
    ghost use Rattle.rim_chain.specs.Jobs.{RimView};
    ghost use Rattle.job_tasks.specs.Tasks.{IsOwnLaunch};

    ghost Value = { RimView };

    ghost view = { λ c. c.rim };

    ghost invariant = { λ c. IsOwnLaunch L.pages L.plans c.rim.job };
}

/// The measurement of a launch of a run, by its number.
#[derive(Drop)]
pub struct OwnValue<L: Run> {
    number: usize,
    value: Measurement,
    run: PhantomData<L>,
}

impl<L: Run> Model for OwnValue<L> {
    ghost use Rattle.std.specs.Prelude.{ℕ};
    ghost use Rattle.job_tasks.specs.Tasks.{IsOwnValue};

    ghost Value = { ℕ };

    ghost view = { λ v. v.number };

    ghost invariant = { λ v. IsOwnValue L.pages L.plans v.number v.value };
}

impl<L: Run> OwnValue<L> {
    /// The number of the launch among those of the run.
    pub fn number(&self) -> usize
        ensures { result ≡ self.now }
    {
        self.number
    }

    /// The measurement itself.
    pub fn value(&self) -> Measurement
        ensures { IsOwnValue L.pages L.plans self.now result }
    {
        self.value
    }
}

/// A prefix of a launch of a run with its value, by the launch's number.
#[derive(Drop)]
pub struct OwnPrefix<L: Run> {
    number: usize,
    prefix: Prefix,
    run: PhantomData<L>,
}

impl<L: Run> Model for OwnPrefix<L> {
    ghost use Rattle.std.specs.Prelude.{ℕ};
    ghost use Rattle.rim_chain.specs.SharedPrefixes.{IsOwnPrefix};
    ghost use Rattle.job_tasks.specs.Tasks.{whole_table};

    ghost Value = { ℕ };

    ghost view = { λ o. o.number };

    ghost invariant = { λ o. IsOwnPrefix (whole_table L.pages) L.plans o.number o.prefix };
}

impl<L: Run> OwnPrefix<L> {
    /// The number of the launch among those of the run.
    pub fn number(&self) -> usize
        ensures { result ≡ self.now }
    {
        self.number
    }

    pub fn into_prefix(self) -> Prefix
        ensures { IsOwnPrefix (whole_table L.pages) L.plans self result }
    {
        self.prefix
    }
}

/// What comes of a prefix that a board keeps. No value depends on it.
#[derive(Clone, Copy, Debug, PartialEq, Eq)]
pub struct KeptPrefix {
    /// How many launches go on from it, which may be chained from now on.
    pub followers: usize,
    /// After how many links the next ones go on from the same launch, if any do.
    pub next_stop: Option<usize>,
}

impl<'a, L: Run> PageTask<'a, L> {
    /// The job of the page of a number, if one of the run's pages, which are these, has it.
    pub fn new(pages: &'a [Page<'a>], number: usize) -> Option<PageTask<'a, L>>
        requires { map page_view pages.now ≡ L.pages }
        ensures there { IsSome result ↔ (number < length pages.now) }
        ensures number { IfSome result (λ task. task.number ≡ number) }
    {
        let page = *pages.get(number)?;
        Some(PageTask {
            number,
            job: PageJob::new(page),
            run: PhantomData,
        })
    }

    /// The number of the page among those of the run.
    pub fn number(&self) -> usize
        ensures number { result ≡ self.now.number }
        ensures own { slice_get L.pages self.now.number ≡ Some self.now.page }
    {
        self.number
    }

    /// Hashes the page.
    pub fn run(self) -> HashedPage<'a, L>
        ensures number { result.number ≡ self.entry.number }
        ensures page { result.page ≡ self.entry.page }
    {
        HashedPage {
            number: self.number,
            hashed: self.job.run(),
            run: PhantomData,
        }
    }

    /// The page with its digest, which is known.
    pub fn known(self, digest: Measurement) -> HashedPage<'a, L>
        requires { digest.bytes ≡ digest_of self.page }
        ensures number { result.number ≡ self.entry.number }
        ensures page { result.page ≡ self.entry.page }
    {
        HashedPage {
            number: self.number,
            hashed: self.job.known(digest),
            run: PhantomData,
        }
    }
}

impl<'a, L: Run> HashedPage<'a, L> {
    /// The number of the page among those of the run.
    pub fn number(&self) -> usize
        ensures { result ≡ self.now.number }
    {
        self.number
    }

    pub fn into_hashed(self) -> Hashed<'a>
        ensures page { page_view result.page ≡ self.entry.page }
        ensures digest { result.digest ≡ self.entry.digest }
        ensures own { slice_get L.pages self.entry.number ≡ Some self.entry.page }
    {
        self.hashed
    }
}

impl<'a, L: Run> LaunchTask<'a, L> {
    pub fn new(job: LaunchJob<'a>) -> LaunchTask<'a, L>
        requires { IsOwnLaunch L.pages L.plans job }
        ensures { result ≡ job.entry }
    {
        LaunchTask {
            job,
            run: PhantomData,
        }
    }

    /// The number of the launch among those of the run.
    pub fn number(&self) -> usize
        ensures { result ≡ self.now.number }
    {
        self.job.number()
    }

    /// How many links the launch has, and so how often others can go on from it at most. No value depends on it.
    pub fn link_count(&self) -> usize {
        self.job.link_count()
    }

    /// Chains the launch. It takes no memory.
    pub fn run(self) -> ChainedLaunch<'a, L>
        ensures job { result.job ≡ self.entry }
        ensures value { result.value.bytes ≡ chain_of self.entry.plan self.entry.row.digests }
    {
        ChainedLaunch {
            rim: self.job.run(),
            run: PhantomData,
        }
    }
}

impl<'a, L: Run> LaunchTask<'a, L> {
    /// The algorithm that the launch is measured by.
    pub fn algo(&self) -> Algo {
        self.job.algo()
    }

    /// Its chain, up to where others go on from it first.
    pub(crate) fn chain(&self) -> LaunchChain<'_>
        ensures { IsUnderWay self.now result }
    {
        self.job.chain()
    }

    /// The chain that goes on from where another one of the launch ends, up to where others go on from it next, if any do.
    pub(crate) fn chain_after(&self, chain: &LaunchChain, stop: Option<usize>) -> LaunchChain<'_>
        requires { IsUnderWay self.now chain.now }
        ensures { IsUnderWay self.now result }
    {
        self.job.chain_after(chain, stop)
    }

    /// The prefix of the launch where a chain of it ends.
    pub(crate) fn prefix_after(&self, chain: &LaunchChain) -> OwnPrefix<L>
        requires { IsUnderWay self.now chain.now }
        ensures { result ≡ self.now.number }
    {
        OwnPrefix {
            number: self.job.number(),
            prefix: self.job.prefix_after(chain),
            run: PhantomData,
        }
    }

    /// The launch's measurement, of which a chain is under way.
    pub(crate) fn value_after(&self, chain: &LaunchChain) -> OwnValue<L>
        requires { IsUnderWay self.now chain.now }
        ensures { result ≡ self.now.number }
    {
        self.own_value(self.job.value_after(chain))
    }

    /// Its measurement, which was found.
    fn own_value(&self, value: Measurement) -> OwnValue<L>
        requires { value.bytes ≡ chain_of self.now.plan self.now.row.digests }
        ensures { result ≡ self.now.number }
    {
        OwnValue {
            number: self.job.number(),
            value,
            run: PhantomData,
        }
    }

    /// The launch with its measurement, which was found before.
    pub fn known(self, value: OwnValue<L>) -> ChainedLaunch<'a, L>
        requires { value ≡ self.number }
        ensures { result.job ≡ self.entry }
    {
        ChainedLaunch {
            rim: self.job.known(value.value),
            run: PhantomData,
        }
    }

    /// The row, to be filled for another launch.
    pub fn into_row(self) -> DigestRow {
        self.job.into_row()
    }

    /// The row of the worker that chains the launch, with the digests of the launch's pages.
    pub fn into_worker_row(self) -> WorkerRow<'a, L> {
        let plan = self.job.plan();
        WorkerRow::of_launch(plan, self.job.into_row())
    }
}

impl<'a, L: Run> ChainedLaunch<'a, L> {
    /// The measurement alone, by the launch's number; and the row, to be filled for another launch.
    pub fn into_parts(self) -> (OwnValue<L>, DigestRow)
        ensures { result.0 ≡ self.entry.job.number }
    {
        let number = self.rim.number();
        let value = self.rim.value();
        (
            OwnValue {
                number,
                value,
                run: PhantomData,
            },
            self.rim.into_row(),
        )
    }

    /// The number of the launch among those of the run.
    pub fn number(&self) -> usize
        ensures { result ≡ self.now.job.number }
    {
        self.rim.number()
    }

    /// Its Realm Initial Measurement.
    pub fn value(&self) -> Measurement
        ensures { result ≡ self.now.value }
    {
        self.rim.value()
    }

    pub fn into_rim(self) -> LaunchRim<'a>
        ensures rim { result ≡ self.entry }
        ensures own { IsOwnLaunch L.pages L.plans self.entry.job }
    {
        self.rim
    }
}
