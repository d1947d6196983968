//! Groups of pages, from what launches need in the order of its pages.
ghost use Rattle.std.specs.Prelude.{◌≡◌, ◌-◌, true, false, IfOk, OnOk};
ghost use Rattle.job_board.specs.declared.grouping.Stretch.{Stretch};
ghost use Rattle.job_core.specs.declared.reaches.PageGroup.{PageGroup};
ghost use Rattle.job_board.specs.inside.Grouping.{AddsStretch, AreGroupsOf, LastBegins, NoneBegins};

use job_core::{PageGroup, Reach};
use refusal::NoMemory;
use std::alloc::Global;

/// As many pages from one on as a launch needs. Stretches are ordered by their fields, in this order.
#[derive(Clone, Copy, PartialEq, Eq, PartialOrd, Ord)]
pub(crate) struct Stretch {
    pub first: usize,
    pub count: usize,
    pub launch: usize,
}

/// The groups of stretches that are in the order of their pages.
pub(crate) fn grouped(alloc: Global, stretches: &[Stretch]) -> Result<Vec<PageGroup>, NoMemory>
    ensures { IfOk result (λ groups. AreGroupsOf stretches.now groups.items) }
{
    let mut groups = Vec::new(alloc);
    for stretch in stretches {
        add_stretch(alloc, &mut groups, *stretch)?;
    }
    Ok(groups)
}

/// Adds a stretch that comes after those that were added.
fn add_stretch(alloc: Global, groups: &mut Vec<PageGroup>, stretch: Stretch) -> Result<(), NoMemory>
    ensures { OnOk result (AddsStretch groups.old.items stretch groups.new.items) }
{
    if begins_last(groups, stretch.first) {
        return extend_last(groups, stretch);
    }
    add_group(alloc, groups, stretch)
}

/// Whether the last group begins with a page.
fn begins_last(groups: &[PageGroup], first: usize) -> bool
    ensures yes { result ≡ true → LastBegins groups.now first }
    ensures no { result ≡ false → NoneBegins groups.now first }
{
    let count = groups.len();
    if count == 0 {
        return false;
    }
    let last = &groups[count - 1];
    last.first == first
}

/// Adds a stretch to the last group, which begins with its first page.
fn extend_last(groups: &mut [PageGroup], stretch: Stretch) -> Result<(), NoMemory>
    requires { LastBegins groups.old stretch.first }
    ensures { OnOk result (AddsStretch groups.old stretch groups.new) }
{
    let last = groups.len() - 1;
    let group = &mut groups[last];
    group.reaches.push(Reach {
        launch: stretch.launch,
        count: stretch.count,
    })?;
    group.count = stretch.count;
    Ok(())
}

/// Adds a group with a stretch with whose first page no other begins.
fn add_group(alloc: Global, groups: &mut Vec<PageGroup>, stretch: Stretch) -> Result<(), NoMemory>
    requires { NoneBegins groups.old.items stretch.first }
    ensures { OnOk result (AddsStretch groups.old.items stretch groups.new.items) }
{
    let mut reaches = Vec::new(alloc);
    reaches.push(Reach {
        launch: stretch.launch,
        count: stretch.count,
    })?;
    groups.push(PageGroup {
        first: stretch.first,
        count: stretch.count,
        reaches,
    })?;
    Ok(())
}
