//! Whether the items and steps of a launch are what its type asks of them.
ghost use Rattle.std.specs.Prelude.{◌≡◌, ◌+◌, ◌<◌, ◌≤◌, ℕ, List, length, take, true, false, not, slice_index_or, slice_set};
ghost use Rattle.std.specs.List.{list_all, list_any};
ghost use Rattle.rim_launch.specs.Kinds.{count_of, edits_possible, needs_initrd, needs_memory, once_each};
ghost use Rattle.rim_launch.specs.Steps.{names_something, number_of, each_once, steps_complete};
ghost use Rattle.rim_launch.specs.inside.StepViews.{AreMarks, IsNext};
ghost use Rattle.rim_launch.specs.declared.step.Step.{Step};
ghost use Rattle.rim_launch.specs.declared.launch.TheConstants.{NAMED_REC_LIMIT};

use crate::item::{Item, Region, Role};
use crate::launch::NAMED_REC_LIMIT;
use crate::step::Step;

/// How many items have a role.
fn count_of(items: &[Item], role: Role) -> usize
    ensures { result ≡ count_of role items.now }
{
    items.iter().filter(|item| item.has_role(role)).count()
}

/// Whether at most one item is a kernel, at most one an initrd, and at most one a devicetree.
pub fn once_each(items: &[Item]) -> bool
    ensures { result ≡ once_each items.now }
{
    count_of(items, Role::Kernel) <= 1
        && count_of(items, Role::Initrd) <= 1
        && count_of(items, Role::Dtb) <= 1
}

fn needs_initrd(items: &[Item]) -> bool
    ensures { result ≡ list_any (λ i. needs_initrd i.kind) items.now }
{
    items.iter().any(|item| item.kind.needs_initrd())
}

fn needs_memory(items: &[Item]) -> bool
    ensures { result ≡ list_any (λ i. needs_memory i.kind) items.now }
{
    items.iter().any(|item| item.kind.needs_memory())
}

/// Whether the launch has an initrd and RAM, as far as a devicetree is to have their places.
pub fn edits_possible(ram: &[Region], items: &[Item]) -> bool
    ensures { result ≡ edits_possible ram.now items.now }
{
    (count_of(items, Role::Initrd) > 0 || !needs_initrd(items))
        && (!ram.is_empty() || !needs_memory(items))
}

/// Whether a step names a region, an item or a REC that the launch has.
fn names_something(num_regions: usize, num_items: usize, num_recs: usize, step: &Step) -> bool
    ensures { result ≡ names_something num_regions num_items num_recs step.now }
{
    match step {
        Step::Ram(number) => *number < num_regions,
        Step::Item(number) => *number < num_items,
        Step::Rec(number) => *number < num_recs,
    }
}

/// What a step is for: a region, an item or a REC.
#[derive(Clone, Copy, Debug, PartialEq, Eq)]
pub enum StepTarget {
    Ram,
    Item,
    Rec,
}

/// The number that a step names, where it is a step for this target.
fn number_of(target: StepTarget, step: &Step) -> Option<usize>
    ensures { result ≡ number_of target step.now }
{
    match (target, step) {
        (StepTarget::Ram, Step::Ram(number)) => Some(*number),
        (StepTarget::Item, Step::Item(number)) => Some(*number),
        (StepTarget::Rec, Step::Rec(number)) => Some(*number),
        _ => None,
    }
}

/// Marks a number, unless it has a mark already.
fn mark(named: &mut [bool], number: usize) -> bool
    requires { number < length named.old }
    ensures fresh { result ≡ not (slice_index_or named.old number false) }
    ensures marked { named.new ≡ slice_set named.old number true }
{
    let is_fresh = !named[number];
    named[number] = true;
    is_fresh
}

/// Marks the number that a step for this target names, where it is below `count`; and whether it had no mark.
fn mark_step(named: &mut [bool], target: StepTarget, count: usize, step: &Step) -> bool
    requires { count ≤ length named.old }
    ensures len { length named.new ≡ length named.old }
    ensures once { (steps : List Step) (at : ℕ) → IsNext steps at step.now
        → AreMarks target count (take at steps) named.old
        → result ≡ true
        → AreMarks target count (take (at + 1) steps) named.new }
    ensures twice { (steps : List Step) (at : ℕ) → IsNext steps at step.now
        → AreMarks target count (take at steps) named.old
        → result ≡ false
        → each_once target steps count ≡ false }
{
    match number_of(target, step) {
        Some(number) if number < count => mark(named, number),
        _ => true,
    }
}

/// Whether each has a mark.
fn all_marked(named: &[bool]) -> bool
    ensures { result ≡ list_all (λ b. b) named.now }
{
    named.iter().all(|is_named| *is_named)
}

/// Whether each number below `count` is named by exactly one step for this target. The steps are
/// read once.
fn each_once(target: StepTarget, steps: &[Step], count: usize) -> bool
    requires { count ≤ NAMED_REC_LIMIT }
    ensures { result ≡ each_once target steps.now count }
{
    let mut named = [false; NAMED_REC_LIMIT];
    for step in steps {
        if !mark_step(&mut named, target, count, step) {
            return false;
        }
    }
    all_marked(&named[..count])
}

fn all_name_something(num_regions: usize, num_items: usize, num_recs: usize, steps: &[Step]) -> bool
    ensures { result ≡ list_all (names_something num_regions num_items num_recs) steps.now }
{
    steps.iter().all(|step| names_something(num_regions, num_items, num_recs, step))
}

/// Whether each step names what the launch has, and each region, item and REC is named by exactly one.
pub fn steps_complete(num_regions: usize, num_items: usize, num_recs: usize, steps: &[Step]) -> bool
    requires { (num_regions ≤ NAMED_REC_LIMIT) × (num_items ≤ NAMED_REC_LIMIT)
        × (num_recs ≤ NAMED_REC_LIMIT) }
    ensures { result ≡ steps_complete num_regions num_items num_recs steps.now }
{
    all_name_something(num_regions, num_items, num_recs, steps)
        && each_once(StepTarget::Ram, steps, num_regions)
        && each_once(StepTarget::Item, steps, num_items)
        && each_once(StepTarget::Rec, steps, num_recs)
}
