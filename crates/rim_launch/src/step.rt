//! The steps of a launch.
ghost use Rattle.std.specs.Prelude.{◌≡◌, ◌++◌, length, map, true, IfOk, OnOk};
ghost use Rattle.std.specs.List.{range_with_len};
ghost use Rattle.rim_launch.specs.Steps.{default_steps, item_steps, steps_complete};

use crate::item::{Item, Role};
use refusal::NoMemory;
use std::alloc::{AllocError, Global};

/// What is done with a region, an item or a REC, each by its number among its like, from 0 on.
#[derive(Clone, Copy, Debug, PartialEq, Eq)]
pub enum Step {
    /// The region is made RAM.
    Ram(usize),
    /// The item's pages are given their contents.
    Item(usize),
    /// The REC is created.
    Rec(usize),
}

fn push_regions(steps: &mut Vec<Step>, count: usize) -> Result<(), AllocError>
    ensures { OnOk result
        (steps.new.items ≡ steps.old.items ++ map Step.Ram (range_with_len 0 count)) }
{
    steps.extend((0..count).map(|number| Step::Ram(number)))
}

fn push_recs(steps: &mut Vec<Step>, count: usize) -> Result<(), AllocError>
    ensures { OnOk result
        (steps.new.items ≡ steps.old.items ++ map Step.Rec (range_with_len 0 count)) }
{
    steps.extend((0..count).map(|number| Step::Rec(number)))
}

/// Adds a step for each item with a role, in their order.
fn push_items(steps: &mut Vec<Step>, items: &[Item], role: Role) -> Result<(), AllocError>
    ensures { OnOk result (steps.new.items ≡ steps.old.items ++ item_steps role items.now) }
{
    steps.extend(
        items
            .iter()
            .enumerate()
            .filter(|(_, item)| item.has_role(role))
            .map(|(number, _)| Step::Item(number)),
    )
}

/// The steps of a launch that names none, with this many regions, these items and this many RECs: the
/// regions, the kernel, the initrd, the devicetree, the raw items, those of unknown content, and the RECs, each in their order.
/// The order is this project's choice. Each region, item and REC has exactly one step.
#[tactic(auto, unfolding(crate::specs::Steps::default_steps))]
pub fn default_steps(
    alloc: Global,
    num_regions: usize,
    items: &[Item],
    num_recs: usize,
) -> Result<Vec<Step>, NoMemory>
    ensures exact { IfOk result (λ v. v.items ≡ default_steps num_regions items.now num_recs) }
    ensures complete { IfOk result
        (λ v. steps_complete num_regions (length items.now) num_recs v.items ≡ true) }
{
    let mut steps = Vec::new(alloc);
    push_regions(&mut steps, num_regions)?;
    push_items(&mut steps, items, Role::Kernel)?;
    push_items(&mut steps, items, Role::Initrd)?;
    push_items(&mut steps, items, Role::Dtb)?;
    push_items(&mut steps, items, Role::Raw)?;
    push_items(&mut steps, items, Role::Unknown)?;
    push_recs(&mut steps, num_recs)?;
    Ok(steps)
}
