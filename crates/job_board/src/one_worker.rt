//! In which order, and which beside which, one worker chains the launches of a run, all of whose pages are hashed. No value depends on it.
ghost use Rattle.std.specs.Prelude.{◌<◌, ◌≤◌, IfSome};
ghost use Rattle.rim_desc.specs.declared.side_by_side.TheConstants.{MOST_LANES};

use crate::chain_order::{ChainOrder, is_long};
use crate::lending::{is_group, most_others, others_for};
use refusal::NoMemory;
use rim_chain::{LaunchPlan, SharedPrefix, SharedPrefixes};
use rim_desc::{Algo, Lanes, MOST_LANES};
use std::alloc::Global;

/// The launches of a run that are not chained yet, in the order and in the groups in which a board gives them to one worker.
#[derive(Drop)]
pub struct LaunchGroups {
    chain_order: ChainOrder,
    lanes: Lanes,
}

/// Launches by one algorithm that are best chained side by side.
#[derive(Clone, Copy, Debug, PartialEq, Eq)]
pub struct LaunchGroup {
    pub algo: Algo,
    /// The numbers of the launches, the first of which is the one that is to be chained next.
    pub numbers: [Option<usize>; MOST_LANES],
    /// In how many lanes they go: as many as are quick side by side, also where the launches are fewer.
    pub lanes: usize,
}

/// How many of these launches one worker chains side by side at most.
pub fn most_lanes(plans: &[LaunchPlan], lanes: Lanes) -> usize {
    (most_others(plans, 1, lanes) + 1).min(plans.len())
}

impl LaunchGroups {
    /// Those of a run none of whose launches is chained. No later call takes memory.
    pub fn new(
        alloc: Global,
        plans: &[LaunchPlan],
        prefixes: &SharedPrefixes,
        lanes: Lanes,
    ) -> Result<LaunchGroups, NoMemory> {
        let mut chain_order = ChainOrder::new(alloc, plans, prefixes)?;
        for number in 0..plans.len() {
            chain_order.note_ready(prefixes, number);
        }
        Ok(LaunchGroups { chain_order, lanes })
    }

    /// Notes that a prefix is chained: the launches that go on from it may be chained now.
    pub fn note_chained(&mut self, prefix: SharedPrefix) {
        self.chain_order.offer_followers(prefix);
    }

    /// Takes the launch that is to be chained next, and those that are best chained beside it. `None` where no launch is left whose
    /// prefix is known.
    pub fn next(&mut self, plans: &[LaunchPlan], prefixes: &SharedPrefixes) -> Option<LaunchGroup>
        ensures some { IfSome result (λ group. 0 < group.lanes) }
        ensures most { IfSome result (λ group. group.lanes ≤ MOST_LANES) }
    {
        let first = self.chain_order.next()?;
        let algo = plans.get(first)?.algo();
        let others = if is_long(plans, prefixes, first) {
            self.places_beside(algo)
        } else {
            0
        };
        let mut numbers = [None; MOST_LANES];
        numbers[0] = Some(first);
        for place in 1..=others {
            numbers[place] = self.chain_order.next_beside(plans, prefixes, algo);
            if numbers[place].is_none() {
                break;
            }
        }
        Some(LaunchGroup {
            algo,
            numbers,
            lanes: others + 1,
        })
    }

    /// How many launches by an algorithm are best chained beside one.
    fn places_beside(&self, algo: Algo) -> usize
        ensures { result < MOST_LANES }
    {
        if !is_group(algo, self.chain_order.offered_beside(algo)) {
            return 0;
        }
        let launches = self.chain_order.offered().saturating_add(1);
        others_for(self.lanes.count(algo), launches, 1)
    }
}
