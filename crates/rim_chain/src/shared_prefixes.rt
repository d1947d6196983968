//! The prefixes that launches of a run have in common, so that each is chained once.
ghost use Rattle.std.specs.Prelude.{◌≡◌, ◌<◌, [], false, true, List, length, map, Some, IfOk, IfSome};
ghost use Rattle.std.specs.List.{Contains, slice_get};
ghost use Rattle.std.specs.Option.{option_map};
ghost use Rattle.page_jobs.specs.Table.{TableView};
ghost use Rattle.launch_plan.specs.Links.{PlanView};
ghost use Rattle.rim_chain.specs.SharedPrefixes.{AreShared, IsKept, IsOwnPrefix, IsPutAmong, IsValueOfPrefix};
ghost use Rattle.rim_chain.specs.inside.Checkpoints.{BothHavePrefix};

use crate::siblings::{checkpoints_of, shared_prefixes_of};
use launch_plan::{Checkpoint, LaunchPlan, Prefix, SharedPrefix};
use refusal::NoMemory;
use std::alloc::Global;
use std::marker::Model;

/// For each launch of a run whose prefix it begins with, and its own checkpoints, in their order. A launch goes on from the
/// prefix of an earlier one. No value depends on which: a prefix is handed out only where it is the launch's own.
#[derive(Drop)]
pub struct SharedPrefixes {
    shared: Vec<Option<SharedPrefix>>,
    checkpoints: Vec<Vec<Checkpoint>>,
}

impl Model for SharedPrefixes {
    ghost use Rattle.std.specs.Prelude.{List, map};
    ghost use Rattle.launch_plan.specs.declared.prefix.Checkpoint.{Checkpoint};

    ghost Value = { List (List Checkpoint) };

    ghost view = { λ s. map (λ own. own.items) s.checkpoints.items };
}

impl SharedPrefixes {
    /// The prefixes that these launches have in common. None has a value yet. No later call takes memory.
    pub fn new(alloc: Global, plans: &[LaunchPlan]) -> Result<SharedPrefixes, NoMemory>
        ensures { IfOk result (λ s. (t : TableView) (ps : List PlanView) → AreShared t ps s) }
    {
        let shared = shared_prefixes_of(alloc, plans)?;
        let checkpoints = checkpoints_of(alloc, shared.as_slice())?;
        Ok(SharedPrefixes {
            shared,
            checkpoints,
        })
    }

    /// The prefix that a launch goes on from, where its value is known.
    pub fn prefix(&self, plans: &[LaunchPlan], number: usize) -> Option<Prefix>
        ensures { (t : TableView) (p : PlanView) → AreShared t plans.now self.now
            → slice_get plans.now number ≡ Some p
            → IfSome result (λ f. IsValueOfPrefix t p f.links f.value) }
    {
        let shared_prefix = (*self.shared.get(number)?)?;
        let checkpoints = checkpoints_at(self.checkpoints.as_slice(), shared_prefix.launch)?;
        let prefix = prefix_at(checkpoints, shared_prefix.links)?;
        if !is_own(plans, shared_prefix.launch, number, prefix.links) {
            return None;
        }
        Some(prefix)
    }

    /// Keeps the value of a prefix of a launch, where another one parts from it there and none is kept yet. Answers whether that
    /// is so; else nothing is changed.
    pub fn keep(&mut self, number: usize, prefix: Prefix) -> bool
        ensures kept { result ≡ true → IsKept self.old number prefix self.new }
        ensures same { result ≡ false → self.new ≡ self.old }
        ensures shared { (t : TableView) (ps : List PlanView) → IsOwnPrefix t ps number prefix
            → AreShared t ps self.old
            → AreShared t ps self.new }
    {
        if number >= self.checkpoints.len() {
            return false;
        }
        put_value(self.checkpoints[number].as_mut_slice(), prefix)
    }

    /// After how many links, more than these, another launch first parts from a launch. No value depends on it.
    pub fn next_stop(&self, number: usize, links: usize) -> Option<usize> {
        let own = checkpoints_at(self.checkpoints.as_slice(), number)?;
        let next = own.partition_point(|checkpoint| checkpoint.links <= links);
        let checkpoint = own.get(next)?;
        Some(checkpoint.links)
    }
}

impl SharedPrefixes {
    /// The earlier launch that a launch goes on from, and after how many links; `None` where it goes on from none. No value
    /// depends on it.
    pub fn shared_prefix(&self, number: usize) -> Option<SharedPrefix> {
        self.shared.get(number).copied().flatten()
    }

    /// Whether a launch goes on from no other, or its prefix is chained. No value depends on it.
    pub fn is_prefix_known(&self, number: usize) -> bool {
        let Some(Some(shared_prefix)) = self.shared.get(number) else {
            return true;
        };
        let Some(checkpoints) = checkpoints_at(self.checkpoints.as_slice(), shared_prefix.launch)
        else {
            return false;
        };
        prefix_at(checkpoints, shared_prefix.links).is_some()
    }

    /// Whether no other launch goes on from a launch.
    pub fn is_last(&self, number: usize) -> bool
        ensures { result ≡ true → slice_get self.now number ≡ Some [] }
    {
        match checkpoints_at(self.checkpoints.as_slice(), number) {
            Some(checkpoints) => checkpoints.is_empty(),
            None => false,
        }
    }
}

/// The checkpoints of a launch.
fn checkpoints_at(checkpoints: &[Vec<Checkpoint>], launch: usize) -> Option<&[Checkpoint]>
    ensures { IfSome result
        (λ own. slice_get (map (λ m. m.items) checkpoints.now) launch ≡ Some own.now) }
{
    let own = checkpoints.get(launch)?;
    Some(own.as_slice())
}

/// Where a list has the checkpoint after this many links, if it has it.
fn place_in(checkpoints: &[Checkpoint], links: usize) -> Option<usize>
    ensures within { IfSome result (λ at. at < length checkpoints.now) }
    ensures links { IfSome result
        (λ at. option_map (λ m. m.links) (slice_get checkpoints.now at) ≡ Some links) }
{
    let at = checkpoints.partition_point(|checkpoint| checkpoint.links < links);
    let checkpoint = checkpoints.get(at)?;
    if checkpoint.links == links {
        Some(at)
    } else {
        None
    }
}

/// The prefix of a checkpoint after this many links, where its value is known.
fn prefix_at(checkpoints: &[Checkpoint], links: usize) -> Option<Prefix>
    ensures { IfSome result
        (λ f. Contains checkpoints.now (record { links = f.links; value = Some f.value })) }
{
    let at = place_in(checkpoints, links)?;
    let Checkpoint { links, value } = checkpoints[at];
    let value = value?;
    Some(Prefix { links, value })
}

/// Puts the value of a prefix at its checkpoint, if there is one and it has no value. Answers whether that is so.
fn put_value(checkpoints: &mut [Checkpoint], prefix: Prefix) -> bool
    ensures put { result ≡ true → IsPutAmong checkpoints.old prefix checkpoints.new }
    ensures same { result ≡ false → checkpoints.new ≡ checkpoints.old }
{
    let Some(at) = place_in(checkpoints, prefix.links) else {
        return false;
    };
    if checkpoints[at].value.is_some() {
        return false;
    }
    checkpoints[at].value = Some(prefix.value);
    true
}

/// Whether two launches have the same prefix of this many links.
fn is_own(plans: &[LaunchPlan], earlier: usize, own: usize, links: usize) -> bool
    ensures { result ≡ true → BothHavePrefix plans.now earlier own links }
{
    match (plans.get(earlier), plans.get(own)) {
        (Some(earlier), Some(own)) => earlier.is_same_prefix(own, links),
        _ => false,
    }
}
