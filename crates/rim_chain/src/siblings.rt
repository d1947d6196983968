//! Which launches begin alike. Whatever is found here, each launch chains to the same value.
ghost use Rattle.std.specs.Prelude.{IfOk, None};
ghost use Rattle.std.specs.List.{All};
ghost use Rattle.rim_chain.specs.inside.Checkpoints.{HaveNoValues};

use crate::under_way::fewest_together;
use launch_plan::{Checkpoint, LaunchPlan, SharedPrefix};
use refusal::NoMemory;
use rim_desc::Algo;
use std::alloc::Global;
use std::cmp::Ordering;

/// How many parts a launch may have left for each part that is saved where launches go on from a prefix. No value depends on it.
const LEFT_A_SAVED_PART: u64 = 8;

/// Neighbouring launches in the order of their plans: the first of them by its number, and how many links they have
/// in common with the launches before them.
#[derive(Clone, Copy)]
struct Group {
    first: usize,
    links: usize,
}

/// For each launch the earlier one that it has most links in common with, and how many; none where little would be saved. Plans are
/// compared with their neighbours in the order of plans alone.
pub(crate) fn shared_prefixes_of(
    alloc: Global,
    plans: &[LaunchPlan],
) -> Result<Vec<Option<SharedPrefix>>, NoMemory> {
    let order = ordered(alloc, plans)?;
    let mut shared = vec![in alloc; None; plans.len()]?;
    let mut groups = Vec::with_capacity(alloc, order.len())?;
    let mut last = None;
    for number in &order {
        let links = common_links(plans, last, *number);
        join(&mut groups, &mut shared, links);
        groups.push(Group {
            first: *number,
            links,
        })?;
        last = Some(*number);
    }
    join(&mut groups, &mut shared, 0);
    shorten(&mut shared);
    part_short(alloc, plans, &mut shared)?;
    Ok(shared)
}

/// The numbers of launches in the order of their plans.
fn ordered(alloc: Global, plans: &[LaunchPlan]) -> Result<Vec<usize>, NoMemory> {
    let mut order = Vec::with_capacity(alloc, plans.len())?;
    for number in 0..plans.len() {
        order.push(number)?;
    }
    order.sort_unstable_by(|a, b| compare(plans, *a, *b));
    Ok(order)
}

/// The order of two launches' plans.
fn compare(plans: &[LaunchPlan], a: usize, b: usize) -> Ordering {
    match (plans.get(a), plans.get(b)) {
        (Some(own), Some(other)) => own.compare(other).then(a.cmp(&b)),
        _ => a.cmp(&b),
    }
}

/// How many links a launch has in common with the one before it.
fn common_links(plans: &[LaunchPlan], last: Option<usize>, number: usize) -> usize {
    match (last, plans.get(number)) {
        (Some(last), Some(plan)) => plans.get(last).map_or(0, |other| plan.common_links(other)),
        _ => 0,
    }
}

/// Joins the last groups that have at least this many links in common. Of two groups the later begins with the prefix of
/// the earlier.
fn join(groups: &mut Vec<Group>, shared: &mut [Option<SharedPrefix>], links: usize) {
    for _ in 0..groups.len() {
        let Some(last) = groups.pop() else {
            return;
        };
        let Some(before) = groups.last_mut() else {
            groups.push_reserved(last);
            return;
        };
        if last.links < links {
            groups.push_reserved(last);
            return;
        }
        let later = before.first.max(last.first);
        before.first = before.first.min(last.first);
        if last.links > 0 && later < shared.len() {
            shared[later] = Some(SharedPrefix {
                launch: before.first,
                links: last.links,
            });
        }
    }
}

/// Where a launch goes on from one that goes on from the same prefix, lets it go on from that one's launch at once.
fn shorten(shared: &mut [Option<SharedPrefix>]) {
    for number in 0..shared.len() {
        shared[number] = shortened(shared, number);
    }
}

/// Where a launch goes on from.
fn shortened(shared: &[Option<SharedPrefix>], number: usize) -> Option<SharedPrefix> {
    let shared_prefix = (*shared.get(number)?)?;
    match shared.get(shared_prefix.launch) {
        Some(Some(above)) if above.links == shared_prefix.links => Some(*above),
        _ => Some(shared_prefix),
    }
}

/// Lets launches begin by themselves where they would save little by a prefix. Launches with RAM of different sizes, say, have the
/// first blocks of it in common, and then each has the same kernel at a value of its own. If each waited for the one before it, they
/// would be chained one after another; so they go side by side, where enough of them can.
fn part_short(
    alloc: Global,
    plans: &[LaunchPlan],
    shared: &mut [Option<SharedPrefix>],
) -> Result<(), NoMemory> {
    let prefixes = sorted(alloc, shared)?;
    for algo in [Algo::Sha256, Algo::Sha512] {
        if first_ones(plans, shared, &prefixes, algo) >= fewest_together(algo) {
            part_short_by(plans, shared, &prefixes, algo);
        }
    }
    Ok(())
}

/// How many launches by an algorithm go on from none, or save little where they do.
fn first_ones(
    plans: &[LaunchPlan],
    shared: &[Option<SharedPrefix>],
    prefixes: &[SharedPrefix],
    algo: Algo,
) -> usize {
    let mut count = 0usize;
    for number in 0..shared.len() {
        if is_by(plans, number, algo)
            && shared[number].is_none_or(|prefix| is_short(plans, prefixes, prefix, number))
        {
            count = count.saturating_add(1);
        }
    }
    count
}

/// Lets the launches by an algorithm that save little by a prefix begin by themselves.
fn part_short_by(
    plans: &[LaunchPlan],
    shared: &mut [Option<SharedPrefix>],
    prefixes: &[SharedPrefix],
    algo: Algo,
) {
    for number in 0..shared.len() {
        if let Some(prefix) = shared[number]
            && is_by(plans, number, algo)
            && is_short(plans, prefixes, prefix, number)
        {
            shared[number] = None;
        }
    }
}

fn is_by(plans: &[LaunchPlan], number: usize, algo: Algo) -> bool {
    plans.get(number).is_some_and(|plan| plan.algo() == algo)
}

/// Whether little is saved by a prefix that a launch goes on from: all that go on from it, of which `prefixes` has one each in their order,
/// save fewer parts than an eighth of what the launch has left.
fn is_short(
    plans: &[LaunchPlan],
    prefixes: &[SharedPrefix],
    prefix: SharedPrefix,
    number: usize,
) -> bool {
    let Some(plan) = plans.get(number) else {
        return false;
    };
    let from = prefixes.partition_point(|other| *other < prefix);
    let to = prefixes.partition_point(|other| *other <= prefix);
    let followers = to.saturating_sub(from) as u64;
    let saved = plan.parts_before(prefix.links).saturating_mul(followers);
    saved.saturating_mul(LEFT_A_SAVED_PART) < plan.parts_after(prefix.links)
}

/// The checkpoints of each launch: where others part from it, from the first on, and none twice. None has a value.
pub(crate) fn checkpoints_of(
    alloc: Global,
    shared: &[Option<SharedPrefix>],
) -> Result<Vec<Vec<Checkpoint>>, NoMemory>
    ensures { IfOk result (λ checkpoints. All (λ own. HaveNoValues own.items) checkpoints.items) }
{
    let mut parted = sorted(alloc, shared)?;
    parted.dedup();
    let mut checkpoints = Vec::with_capacity(alloc, shared.len())?;
    for number in 0..shared.len() {
        let own = own_checkpoints(alloc, &parted, number)?;
        checkpoints.push(own)?;
    }
    Ok(checkpoints)
}

/// The shared prefixes in their order, each as often as launches go on from it.
fn sorted(alloc: Global, shared: &[Option<SharedPrefix>]) -> Result<Vec<SharedPrefix>, NoMemory> {
    let mut prefixes = Vec::with_capacity(alloc, shared.len())?;
    for shared_prefix in shared {
        if let Some(shared_prefix) = shared_prefix {
            prefixes.push(*shared_prefix)?;
        }
    }
    prefixes.sort_unstable();
    Ok(prefixes)
}

/// The checkpoints of a launch, by the different shared prefixes in their order.
fn own_checkpoints(
    alloc: Global,
    parted: &[SharedPrefix],
    number: usize,
) -> Result<Vec<Checkpoint>, NoMemory>
    ensures { IfOk result (λ own. HaveNoValues own.items) }
{
    let from = parted.partition_point(|shared_prefix| shared_prefix.launch < number);
    let mut checkpoints = Vec::new(alloc);
    for at in from..parted.len() {
        let shared_prefix = parted[at];
        if shared_prefix.launch != number {
            break;
        }
        checkpoints.push(Checkpoint {
            links: shared_prefix.links,
            value: None,
        })?;
    }
    Ok(checkpoints)
}
