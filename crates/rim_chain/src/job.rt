//! The work of chaining a launch, and what it gives.
ghost use Rattle.std.specs.Prelude.{◌≡◌, IfSome};
ghost use Rattle.launch_plan.specs.Prefixes.{IsPrefix};
ghost use Rattle.launch_plan.specs.Links.{chain_of};
ghost use Rattle.launch_plan.specs.Rows.{IsFilled};
ghost use Rattle.rim_chain.specs.Chains.{IsUnderWay};
ghost use Rattle.rim_chain.specs.inside.Places.{IsPlace};

use crate::chaining::{Place, chain_on, place_of};
use crate::under_way::LaunchChain;
use launch_plan::{LaunchPlan, Prefix};
use page_jobs::DigestRow;
use rim_desc::{Algo, Measurement};
use std::marker::Model;

/// A launch that is to be chained: its number, its plan, lent, and a row with the digests of its pages. Some of it may be chained
/// already, and it may have a place to stop at. They change nothing of what it gives.
#[derive(Drop)]
pub struct LaunchJob<'a> {
    number: usize,
    plan: &'a LaunchPlan,
    row: DigestRow,
    /// Where its chain is; `None` where nothing is chained.
    place: Option<Place>,
    /// How many links are chained before the chain stops, so that the value there can be handed over.
    stop: Option<usize>,
}

impl<'a> Model for LaunchJob<'a> {
    ghost use Rattle.std.specs.Prelude.{IfSome};
    ghost use Rattle.rim_chain.specs.Jobs.{JobView};
    ghost use Rattle.launch_plan.specs.Rows.{IsFilled};
    ghost use Rattle.rim_chain.specs.inside.Places.{IsPlace};

    ghost Value = { JobView };

    ghost view = { λ j. record { number = j.number; plan = j.plan.now; row = j.row } };

    ghost invariant = { λ j. IsFilled j.plan.now j.row.digests
        × IfSome j.place (IsPlace j.plan.now j.row.digests) };
}

/// A launch that was chained, with its measurement.
#[derive(Drop)]
pub struct LaunchRim<'a> {
    number: usize,
    plan: &'a LaunchPlan,
    row: DigestRow,
    value: Measurement,
}

impl<'a> Model for LaunchRim<'a> {
    ghost use Rattle.std.specs.Prelude.{◌≡◌};
    ghost use Rattle.rim_chain.specs.Jobs.{RimView};
    ghost use Rattle.launch_plan.specs.Links.{chain_of};

    ghost Value = { RimView };

    ghost view = { λ r. record
        { job = record { number = r.number; plan = r.plan.now; row = r.row }; value = r.value } };

    ghost invariant = { λ r. r.value.bytes ≡ chain_of r.plan.now r.row.digests };
}

impl<'a> LaunchJob<'a> {
    /// The work of chaining a launch of this number, whose pages have the digests of a row.
    pub fn new(number: usize, plan: &'a LaunchPlan, row: DigestRow) -> LaunchJob<'a>
        requires { IsFilled plan.now row.digests }
        ensures { result ≡ record { number = number; plan = plan.entry.now; row = row } }
    {
        LaunchJob {
            number,
            plan,
            row,
            place: None,
            stop: None,
        }
    }

    /// The same work, which goes on from a prefix of the launch, where one is known, and stops first after this many links.
    pub fn going_on(self, shared_prefix: Option<Prefix>, stop: Option<usize>) -> LaunchJob<'a>
        requires { IfSome shared_prefix (IsPrefix self.plan self.row.digests) }
        ensures { result ≡ self.entry }
    {
        let place = match shared_prefix {
            Some(_) => Some(place_of(self.plan, &self.row, shared_prefix)),
            None => self.place,
        };
        LaunchJob {
            number: self.number,
            plan: self.plan,
            row: self.row,
            place,
            stop,
        }
    }

    /// The number of the launch.
    pub fn number(&self) -> usize
        ensures { result ≡ self.now.number }
    {
        self.number
    }

    /// The plan of the launch, which is lent.
    pub fn plan(&self) -> &'a LaunchPlan
        ensures { result.now ≡ self.now.plan }
    {
        self.plan
    }

    /// The algorithm that the launch is measured by.
    pub fn algo(&self) -> Algo
        ensures { result ≡ self.now.plan.params.algo }
    {
        self.plan.algo()
    }

    /// How many links it has, and so how often it can stop at most. No value depends on it.
    pub fn link_count(&self) -> usize {
        self.plan.links().len()
    }

    /// Chains the launch. It takes no memory.
    pub fn run(self) -> LaunchRim<'a>
        ensures job { result.job ≡ self.entry }
        ensures value { result.value.bytes ≡ chain_of self.entry.plan self.entry.row.digests }
    {
        let value = chain_on(self.plan, &self.row, self.here());
        LaunchRim {
            number: self.number,
            plan: self.plan,
            row: self.row,
            value,
        }
    }

    /// Where its chain is.
    fn here(&self) -> Place
        ensures { IsPlace self.now.plan self.now.row.digests result }
    {
        match self.place {
            Some(place) => place,
            None => place_of(self.plan, &self.row, None),
        }
    }
}

impl<'a> LaunchJob<'a> {
    /// The chain of the launch, as far as nothing of it is done, up to where it is to stop.
    pub fn chain(&self) -> LaunchChain<'_>
        ensures { IsUnderWay self.now result }
    {
        self.chain_between(self.here(), self.stop)
    }

    /// The chain that goes on from where another one of the launch ends, up to where others go on from it next, if any do.
    pub fn chain_after(&self, chain: &LaunchChain, stop: Option<usize>) -> LaunchChain<'_>
        requires { IsUnderWay self.now chain.now }
        ensures { IsUnderWay self.now result }
    {
        self.chain_between(self.place_after(chain), stop)
    }

    /// The chain from a place on up to a stop, where the launch comes to one, or to its end.
    fn chain_between(&self, from: Place, stop: Option<usize>) -> LaunchChain<'_>
        requires { IsPlace self.now.plan self.now.row.digests from }
        ensures { IsUnderWay self.now result }
    {
        let links = self.plan.links().len();
        match stop {
            Some(stop) if from.links <= stop && stop <= links => {
                LaunchChain::new(self.plan, &self.row, from, stop, true)
            }
            _ => LaunchChain::new(self.plan, &self.row, from, links, false),
        }
    }

    /// The prefix of the launch where a chain of it ends.
    pub fn prefix_after(&self, chain: &LaunchChain) -> Prefix
        requires { IsUnderWay self.now chain.now }
        ensures { IsPrefix self.now.plan self.now.row.digests result }
    {
        Prefix {
            links: chain.end(),
            value: chain.finished(),
        }
    }

    /// The place where a chain of the launch ends.
    fn place_after(&self, chain: &LaunchChain) -> Place
        requires { IsUnderWay self.now chain.now }
        ensures { IsPlace self.now.plan self.now.row.digests result }
    {
        place_of(self.plan, &self.row, Some(self.prefix_after(chain)))
    }

    /// The launch's measurement, of which a chain is under way.
    pub fn value_after(&self, chain: &LaunchChain) -> Measurement
        requires { IsUnderWay self.now chain.now }
        ensures { result.bytes ≡ chain_of self.now.plan self.now.row.digests }
    {
        chain_on(self.plan, &self.row, self.place_after(chain))
    }

    /// The launch with its measurement, which is known.
    pub fn known(self, value: Measurement) -> LaunchRim<'a>
        requires { value.bytes ≡ chain_of self.plan self.row.digests }
        ensures { result ≡ record { job = self.entry; value = value } }
    {
        LaunchRim {
            number: self.number,
            plan: self.plan,
            row: self.row,
            value,
        }
    }

    /// The row, to be filled for another launch.
    pub fn into_row(self) -> DigestRow
        ensures { result ≡ self.entry.row }
    {
        self.row
    }
}

impl<'a> LaunchRim<'a> {
    /// The row, to be filled for another launch.
    pub fn into_row(self) -> DigestRow
        ensures { result ≡ self.entry.job.row }
    {
        self.row
    }

    /// The number of the launch.
    pub fn number(&self) -> usize
        ensures { result ≡ self.now.job.number }
    {
        self.number
    }

    /// Its Realm Initial Measurement: the chain of its plan and these digests.
    pub fn value(&self) -> Measurement
        ensures value { result ≡ self.now.value }
        ensures own { result.bytes ≡ chain_of self.now.job.plan self.now.job.row.digests }
    {
        self.value
    }
}
