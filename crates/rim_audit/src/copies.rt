//! Copies of monitors: a launch that begins with the same commands as an earlier one goes on from a copy of that one's monitor.
ghost use Rattle.std.specs.Prelude.{◌≡◌, ◌≤◌, ℕ, IfSome, length, true};
ghost use Rattle.std.specs.List.{All};
ghost use Rattle.rim_desc.specs.declared.source.Source.TheVariants.{File};
ghost use Rattle.ipa_layout.specs.Files.{bytes_of_files};
ghost use Rattle.rim_audit.specs.inside.Commands.{commands_in, state_after};
ghost use Rattle.rim_audit.specs.inside.Copies.{AreMarked, IsKept, IsSameItem, Serves, ServesWithin};

use crate::commands::LaunchCommands;
use ipa_layout::PlacedItem;
use rim_accepted::item_at;
use rim_desc::{Algo, RecRule, Source};
use rim_launch::{Config, ITEM_LIMIT, Launch};
use rmi_list::Plan;
use rmm_monitor::Monitor;
use std::alloc::Global;

/// A monitor that was given the first `count` commands of a launch.
#[derive(Drop)]
pub struct MonitorCopy {
    pub count: usize,
    pub monitor: Monitor,
}

/// A launch with its items as they are placed, its list, and monitors that were given its first commands. Its edited devicetree
/// is not kept.
#[derive(Drop)]
pub struct LaunchCopies<'a> {
    pub launch: &'a Launch,
    pub items: Vec<PlacedItem>,
    pub plan: Plan,
    pub copies: Vec<MonitorCopy>,
}

/// A monitor for a launch and how many of its commands it was given: a copy of the one that was given most, of launches that
/// begin with the same commands; else one that was given none.
pub fn begin(alloc: Global, commands: &LaunchCommands, kept: &[LaunchCopies]) -> (Monitor, usize)
    requires { All (IsKept (bytes_of_files commands.now.accepted.files.now)) kept.now }
    ensures within { result.1 ≤ length (commands_in commands.now) }
    ensures monitor { result.0 ≡ state_after commands.now result.1 }
{
    let Some(copy) = best(commands, kept) else {
        return (commands.monitor(alloc), 0);
    };
    match copy.monitor.try_clone() {
        Ok(monitor) => (monitor, copy.count),
        Err(_) => (commands.monitor(alloc), 0),
    }
}

/// The copy that was given most commands, of those that a launch can go on from and that are found. Lists are compared from that
/// of the last launch on, up to as many spans in all as the launch has twice, so this takes little of an audit's time.
fn best<'c>(commands: &LaunchCommands, kept: &'c [LaunchCopies]) -> Option<&'c MonitorCopy>
    requires { All (IsKept (bytes_of_files commands.now.accepted.files.now)) kept.now }
    ensures { IfSome result (λ copy. Serves commands.now copy.now) }
{
    let mut looks = commands.plan.span_count().saturating_mul(2);
    let mut most = 0;
    let mut found = None;
    for of_launch in kept.iter().rev() {
        if has_longer(&of_launch.copies, most) {
            if let Some(copy) = best_of(commands, of_launch, &mut looks) {
                if copy.count > most {
                    most = copy.count;
                    found = Some(copy);
                }
            }
        }
    }
    found
}

/// Whether some copy was given more commands than this many.
fn has_longer(copies: &[MonitorCopy], count: usize) -> bool {
    copies.iter().any(|copy| copy.count > count)
}

/// The same of the copies of one launch.
fn best_of<'c>(
    commands: &LaunchCommands,
    of_launch: &'c LaunchCopies,
    looks: &mut usize,
) -> Option<&'c MonitorCopy>
    requires { IsKept (bytes_of_files commands.now.accepted.files.now) of_launch.now }
    ensures { IfSome result (λ copy. Serves commands.now copy.now) }
{
    let shared = shared_with(commands, of_launch, looks)?;
    longest(commands, &of_launch.copies, shared)
}

/// The copy that was given most commands, of those that were given no more than a launch shares.
fn longest<'c>(
    commands: &LaunchCommands,
    copies: &'c [MonitorCopy],
    shared: usize,
) -> Option<&'c MonitorCopy>
    requires { All (ServesWithin commands.now shared) copies.now }
    ensures { IfSome result (λ copy. Serves commands.now copy.now) }
{
    let mut most = 0;
    let mut found = None;
    for copy in copies {
        if copy.count > most && copy.count <= shared {
            most = copy.count;
            found = Some(copy);
        }
    }
    found
}

/// How many first commands of a launch are those too of one of which copies are kept.
fn shared_with(
    commands: &LaunchCommands,
    of_launch: &LaunchCopies,
    looks: &mut usize,
) -> Option<usize>
    requires { IsKept (bytes_of_files commands.now.accepted.files.now) of_launch.now }
    ensures { IfSome result
        (λ shared. All (ServesWithin commands.now shared) of_launch.now.copies.items) }
{
    if !has_same_settings(
        &of_launch.launch.config(),
        &commands.accepted.launch().config(),
    ) {
        return None;
    }
    let marks = marked(&of_launch.items, commands.accepted.placed().items());
    Some(
        of_launch
            .plan
            .common_commands(&commands.plan, &marks, looks),
    )
}

/// Whether two launches have RECs with as many auxiliary granules, the same rule for RECs, and the same algorithm.
fn has_same_settings(a: &Config, b: &Config) -> bool
    ensures aux { result ≡ true → a.now.num_aux ≡ b.now.num_aux }
    ensures rule { result ≡ true → a.now.rec_rule ≡ b.now.rec_rule }
    ensures algo { result ≡ true → a.now.algo ≡ b.now.algo }
{
    a.num_aux == b.num_aux && is_same_rule(a.rec_rule, b.rec_rule) && is_same_algo(a.algo, b.algo)
}

fn is_same_rule(a: Option<RecRule>, b: Option<RecRule>) -> bool
    ensures { result ≡ true → a ≡ b }
{
    a == b
}

fn is_same_algo(a: Algo, b: Algo) -> bool
    ensures { result ≡ true → a ≡ b }
{
    a == b
}

/// The items that two launches have from the same file and with the same lead, by their numbers.
fn marked(items: &[PlacedItem], others: &[PlacedItem]) -> [bool; ITEM_LIMIT]
    ensures { AreMarked items.now others.now result }
{
    let mut marks = [false; ITEM_LIMIT];
    for number in 0..ITEM_LIMIT {
        marks[number] = is_same_item(items, others, number);
    }
    marks
}

/// Whether two launches have an item of a number from the same file and with the same lead.
fn is_same_item(items: &[PlacedItem], others: &[PlacedItem], number: usize) -> bool
    ensures { result ≡ true → IsSameItem items.now others.now number }
{
    match (item_at(items, number), item_at(others, number)) {
        (Some(item), Some(other)) => item.lead == other.lead
            && is_same_file(item.source, other.source),
        _ => false,
    }
}

/// Whether two sources are there and are one file.
fn is_same_file(source: Option<Source>, other: Option<Source>) -> bool
    ensures { result ≡ true
        → (file : ℕ) × (source ≡ Some (File file)) × (other ≡ Some (File file)) }
{
    match (source, other) {
        (Some(Source::File(a)), Some(Source::File(b))) => a == b,
        _ => false,
    }
}
