//! The order in which the launches of a run are to be chained. No value depends on it.
//!
//! A launch that goes on from an earlier one is offered when the worker that chains that one hands over the prefix that both have.
//! Launches are offered by algorithm, since only those by the same one are chained side by side.
use refusal::NoMemory;
use rim_chain::{LaunchPlan, SharedPrefix, SharedPrefixes};
use rim_desc::Algo;
use std::alloc::Global;
use std::cmp::Reverse;
use std::collections::BinaryHeap;

/// A launch, and the prefix of an earlier one that it goes on from.
#[derive(Clone, Copy, PartialEq, Eq, PartialOrd, Ord)]
struct Follower {
    from: SharedPrefix,
    number: usize,
}

/// A launch that may be chained, in the order in which that is best done: the greatest of some is the next.
#[derive(Clone, Copy, PartialEq, Eq, PartialOrd, Ord)]
struct Candidate {
    /// How many parts the longest way has that begins with the launch; of a launch that goes on from another, in whole steps.
    parts: u64,
    /// The launch that it goes on from, or the launch itself: the one with the least number comes first.
    first: Reverse<usize>,
    /// Of launches that go on from the same one, the one with the least number comes first.
    number: Reverse<usize>,
}

/// Launches that go on from others are not set apart by fewer parts than this, which take about a millisecond. So those that
/// begin with the same pages come one after another, and a worker has most digests in its row already.
const STEP: u64 = 1_024;

/// A launch of the run: its place in the order, and by which algorithm it is measured.
#[derive(Clone, Copy)]
struct Ranked {
    candidate: Candidate,
    algo: Algo,
}

/// Launches of which no prefix is still to be chained, the one with the longest way first. A way is what is left of a launch, up to
/// where another goes on from it, and then of that one, and so on: no number of workers chains it in less time. So launches that
/// others wait for are chained early.
#[derive(Drop)]
pub(crate) struct ChainOrder {
    /// Each launch of the run.
    launches: Vec<Ranked>,
    /// The launches that go on from others, by the prefix that each goes on from.
    followers: Vec<Follower>,
    /// Those by each algorithm that may be chained and were not taken from here.
    offered_sha256: BinaryHeap<Candidate>,
    offered_sha512: BinaryHeap<Candidate>,
}

impl ChainOrder {
    pub(crate) fn new(
        alloc: Global,
        plans: &[LaunchPlan],
        prefixes: &SharedPrefixes,
    ) -> Result<ChainOrder, NoMemory> {
        let followers = followers_of(alloc, plans.len(), prefixes)?;
        let launches = ranked_launches(alloc, plans, prefixes)?;
        let sha512 = plans
            .iter()
            .filter(|plan| plan.algo() == Algo::Sha512)
            .count();
        // Each launch is offered when it is ready, and again when the prefix that it goes on from is chained.
        let offered_sha512 = BinaryHeap::with_capacity(alloc, 2 * sha512)?;
        let offered_sha256 = BinaryHeap::with_capacity(
            alloc,
            2 * plans.len().saturating_sub(sha512),
        )?;
        Ok(ChainOrder {
            launches,
            followers,
            offered_sha256,
            offered_sha512,
        })
    }

    /// Notes that the pages of a launch are hashed. Where it goes on from no other, or its prefix is chained, it may be
    /// chained now; else that is noted when its prefix is chained.
    pub(crate) fn note_ready(&mut self, prefixes: &SharedPrefixes, number: usize) {
        if prefixes.is_prefix_known(number) {
            self.offer(number);
        }
    }

    /// Offers a launch, where room was reserved for it.
    fn offer(&mut self, number: usize) {
        let Some(Ranked { candidate, algo }) = self.launches.get(number).copied() else {
            return;
        };
        let offered = self.offered_by(algo);
        if offered.len() < offered.capacity() {
            let _ = offered.push(candidate);
        }
    }

    /// Those by an algorithm that were offered and not taken.
    fn offered_by(&mut self, algo: Algo) -> &mut BinaryHeap<Candidate> {
        match algo {
            Algo::Sha256 => &mut self.offered_sha256,
            Algo::Sha512 => &mut self.offered_sha512,
        }
    }

    /// Offers the launches that go on from a prefix. Answers how many they are.
    pub(crate) fn offer_followers(&mut self, prefix: SharedPrefix) -> usize {
        let from = self.followers.partition_point(|other| other.from < prefix);
        let to = self.followers.partition_point(|other| other.from <= prefix);
        for at in from..to {
            if let Some(follower) = self.followers.get(at).copied() {
                self.offer(follower.number);
            }
        }
        to.saturating_sub(from)
    }

    /// How many launches were offered and not taken.
    pub(crate) fn offered(&self) -> usize {
        let sha256 = self.offered_sha256.len();
        sha256.saturating_add(self.offered_sha512.len())
    }

    /// How many of them are by an algorithm.
    pub(crate) fn offered_beside(&self, algo: Algo) -> usize {
        match algo {
            Algo::Sha256 => self.offered_sha256.len(),
            Algo::Sha512 => self.offered_sha512.len(),
        }
    }

    /// Takes the launch that is to be chained next.
    pub(crate) fn next(&mut self) -> Option<usize> {
        let algo = if self.offered_sha256.peek() < self.offered_sha512.peek() {
            Algo::Sha512
        } else {
            Algo::Sha256
        };
        let candidate = self.offered_by(algo).pop()?;
        Some(candidate.number.0)
    }

    /// Takes the launch that is to be chained next beside one by an algorithm, where much of it is left.
    pub(crate) fn next_beside(
        &mut self,
        plans: &[LaunchPlan],
        prefixes: &SharedPrefixes,
        algo: Algo,
    ) -> Option<usize> {
        let number = self.offered_by(algo).pop()?.number.0;
        if is_long(plans, prefixes, number) {
            return Some(number);
        }
        self.offer(number);
        None
    }
}

/// Whether so much of a launch is left that it is best chained beside another.
pub(crate) fn is_long(plans: &[LaunchPlan], prefixes: &SharedPrefixes, number: usize) -> bool {
    let links = prefixes
        .shared_prefix(number)
        .map_or(0, |shared_prefix| shared_prefix.links);
    plans
        .get(number)
        .is_some_and(|plan| plan.is_long_after(links))
}

/// Of this many launches those that go on from others, by the prefix that each goes on from.
fn followers_of(
    alloc: Global,
    launches: usize,
    prefixes: &SharedPrefixes,
) -> Result<Vec<Follower>, NoMemory> {
    let mut followers = Vec::with_capacity(alloc, launches)?;
    for number in 0..launches {
        if let Some(from) = prefixes.shared_prefix(number) {
            followers.push(Follower { from, number })?;
        }
    }
    followers.sort_unstable();
    Ok(followers)
}

/// Each launch, with its place in the order.
fn ranked_launches(
    alloc: Global,
    plans: &[LaunchPlan],
    prefixes: &SharedPrefixes,
) -> Result<Vec<Ranked>, NoMemory> {
    let ways = ways_of(alloc, plans, prefixes)?;
    let mut launches = Vec::with_capacity(alloc, plans.len())?;
    for number in 0..plans.len() {
        let way = ways.get(number).copied().unwrap_or(0);
        launches.push(Ranked {
            candidate: placed(prefixes.shared_prefix(number), number, way),
            algo: plans[number].algo(),
        })?;
    }
    Ok(launches)
}

/// The place of a launch in the order, which may go on from another. Its longest way has this many parts.
fn placed(shared_prefix: Option<SharedPrefix>, number: usize, way: u64) -> Candidate {
    let (first, parts) = match shared_prefix {
        Some(shared_prefix) => (shared_prefix.launch, way - way % STEP),
        None => (number, way),
    };
    Candidate {
        parts,
        first: Reverse(first),
        number: Reverse(number),
    }
}

/// Of each launch, how many parts its longest way has. Whoever goes on from a launch has a greater number.
fn ways_of(
    alloc: Global,
    plans: &[LaunchPlan],
    prefixes: &SharedPrefixes,
) -> Result<Vec<u64>, NoMemory> {
    // First of each launch that is not looked at yet, how many parts from its realm on the longest way has that leaves it.
    let mut ways = vec![in alloc; 0; plans.len()]?;
    for number in (0..plans.len()).rev() {
        let shared_prefix = prefixes.shared_prefix(number);
        let links = shared_prefix.map_or(0, |shared_prefix| shared_prefix.links);
        let before = plans[number].parts_before(links);
        let whole = plans[number].parts_after(0);
        let longest = whole.max(ways[number]);
        ways[number] = longest.saturating_sub(before);
        if let Some(shared_prefix) = shared_prefix {
            raise(&mut ways, shared_prefix.launch, longest);
        }
    }
    Ok(ways)
}

/// Notes a way that leaves a launch, where no longer one does.
fn raise(ways: &mut [u64], launch: usize, way: u64) {
    if let Some(longest) = ways.get_mut(launch) {
        *longest = way.max(*longest);
    }
}
