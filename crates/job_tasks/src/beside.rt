//! Launches of a run that are chained side by side: of each the chain up to where others go on from it next, or to its end. They are by
//! one algorithm, and there are as many as are quick; where a place has no launch, its chain has no parts.
ghost use Rattle.std.specs.Prelude.{◌≡◌, ◌≤◌, length, map, option_map};
ghost use Rattle.rim_desc.specs.declared.side_by_side.TheConstants.{MOST_LANES};
ghost use Rattle.job_tasks.specs.Beside.{AreUnderWay};

use crate::run::Run;
use crate::task::{LaunchTask, OwnPrefix, OwnValue};
use rim_chain::{LaunchChain, go_on};
use rim_desc::MOST_LANES;

/// Writes the chains of launches, each in its own place. Nothing is done of them beyond what each launch goes on from.
pub fn begin_each<'b, 'a, L: Run>(
    tasks: &'b [Option<LaunchTask<'a, L>>],
    chains: &mut [LaunchChain<'b>],
)
    requires { length tasks.now ≤ length chains.old }
    ensures size { length chains.new ≡ length chains.old }
    ensures own { AreUnderWay tasks.now chains.new }
{
    for i in 0..tasks.len() {
        if let Some(task) = &tasks[i] {
            chains[i] = task.chain();
        }
    }
}

/// Lets the chains of launches go on until one has come to where others go on from its launch: answers its place, and the prefix
/// there. `None` where each has come to its end. It takes no memory.
pub fn run_to_stop<'a, L: Run>(
    tasks: &[Option<LaunchTask<'a, L>>],
    chains: &mut [LaunchChain],
) -> Option<(usize, OwnPrefix<L>)>
    requires few { length chains.old ≤ MOST_LANES }
    requires size { length tasks.now ≤ length chains.old }
    requires own { AreUnderWay tasks.now chains.old }
    ensures size { length chains.new ≡ length chains.old }
    ensures own { AreUnderWay tasks.now chains.new }
{
    // Each turn brings one chain at least to its end.
    'turns: for _ in 0..=MOST_LANES {
        if let Some(place) = arrived(chains) {
            let prefix = prefix_at(tasks, chains, place)?;
            return Some((place, prefix));
        }
        go_on(chains);
    }
    None
}

/// Lets the chain in a place go on from where it ends, up to where others go on from its launch next (`KeptPrefix::next_stop`).
pub fn set_stop<'b, 'a, L: Run>(
    tasks: &'b [Option<LaunchTask<'a, L>>],
    chains: &mut [LaunchChain<'b>],
    place: usize,
    stop: Option<usize>,
)
    requires size { length tasks.now ≤ length chains.old }
    requires own { AreUnderWay tasks.now chains.old }
    ensures size { length chains.new ≡ length chains.old }
    ensures own { AreUnderWay tasks.now chains.new }
{
    if place >= tasks.len() {
        return;
    }
    if let Some(task) = &tasks[place] {
        chains[place] = task.chain_after(&chains[place], stop);
    }
}

/// Writes the measurements of launches, each in its own place. What is left of a chain is done first.
pub fn put_values<'a, L: Run>(
    tasks: &[Option<LaunchTask<'a, L>>],
    chains: &[LaunchChain],
    values: &mut [Option<OwnValue<L>>],
)
    requires size { length tasks.now ≤ length chains.now }
    requires own { AreUnderWay tasks.now chains.now }
    requires room { length values.old ≡ length tasks.now }
    ensures { values.new ≡ map (option_map (λ t. t.number)) tasks.now }
{
    for i in 0..tasks.len() {
        values[i] = match &tasks[i] {
            Some(task) => Some(task.value_after(&chains[i])),
            None => None,
        };
    }
}

/// How often the chains of launches can stop at most. No value depends on it.
pub fn most_stops<'a, L: Run>(tasks: &[Option<LaunchTask<'a, L>>]) -> usize {
    let mut stops = 0usize;
    for task in tasks {
        let links = task.as_ref().map_or(0, |task| task.link_count());
        stops = stops.saturating_add(links).saturating_add(1);
    }
    stops
}

/// The place of a chain that has come to where others go on.
fn arrived(chains: &[LaunchChain]) -> Option<usize> {
    chains.iter().position(|chain| chain.has_arrived())
}

/// The prefix of the launch in a place where its chain ends.
fn prefix_at<'a, L: Run>(
    tasks: &[Option<LaunchTask<'a, L>>],
    chains: &[LaunchChain],
    place: usize,
) -> Option<OwnPrefix<L>>
    requires size { length tasks.now ≤ length chains.now }
    requires own { AreUnderWay tasks.now chains.now }
{
    if place >= tasks.len() {
        return None;
    }
    match &tasks[place] {
        Some(task) => Some(task.prefix_after(&chains[place])),
        None => None,
    }
}
