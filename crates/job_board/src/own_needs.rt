//! What launches need: the pages of their own plans.
ghost use Rattle.std.specs.Prelude.{◌≡◌, ◌++◌, length, IfOk, OnOk};
ghost use Rattle.std.specs.List.{All, Contains};
ghost use Rattle.page_jobs.specs.Table.{page_keys_of as page_keys};
ghost use Rattle.launch_plan.specs.Fitting.{BeginsItem};
ghost use Rattle.launch_plan.specs.Links.{keys_of};
ghost use Rattle.job_board.specs.Board.{NeedsOwn};
ghost use Rattle.job_core.specs.inside.Needs.{AreNeeds, needs_of};
ghost use Rattle.job_board.specs.inside.OwnStretches.{link_stretches, plan_stretches, stretch_at, stretches_from};

use crate::grouping::{Stretch, grouped};
use job_core::Needs;
use page_jobs::Table;
use refusal::NoMemory;
use rim_chain::{LaunchPlan, Link};
use std::alloc::Global;

/// What the launches of some plans need, all of whose pages the table has. It takes memory for each link of pages, however
/// many pages it has.
pub(crate) fn own_needs(
    alloc: Global,
    table: &Table,
    plans: &[LaunchPlan],
) -> Result<Needs, NoMemory>
    requires { All (λ p. All (Contains (page_keys table.now.pages)) (keys_of p.links)) plans.now }
    ensures needs { IfOk result (AreNeeds (length table.now.pages)) }
    ensures own { IfOk result (λ needs. NeedsOwn table.now plans.now (needs_of needs)) }
{
    // The keys of a table's pages rise.
    let _pages = table.pages();
    let mut stretches = stretches_of(alloc, table, plans)?;
    stretches.sort_unstable();
    let groups = grouped(alloc, &stretches)?;
    Ok(Needs::Reaches(plans.len(), groups))
}

/// The stretches of pages that plans need, in the order of the plans.
fn stretches_of(
    alloc: Global,
    table: &Table,
    plans: &[LaunchPlan],
) -> Result<Vec<Stretch>, NoMemory>
    ensures stretches { IfOk result
        (λ stretches. stretches.items ≡ stretches_from table.now.pages 0 plans.now) }
    ensures begin { IfOk result (λ stretches. All (λ p. All BeginsItem p.links) plans.now) }
{
    let mut stretches = Vec::new(alloc);
    for launch in 0..plans.len() {
        push_plan(&mut stretches, table, &plans[launch], launch)?;
    }
    Ok(stretches)
}

/// Adds the stretches of a launch's plan.
fn push_plan(
    stretches: &mut Vec<Stretch>,
    table: &Table,
    plan: &LaunchPlan,
    launch: usize,
) -> Result<(), NoMemory>
    ensures stretches { OnOk result (stretches.new.items
        ≡ stretches.old.items ++ plan_stretches table.now.pages launch plan.now) }
    ensures begin { All BeginsItem plan.now.links }
{
    for link in plan.links() {
        push_link(stretches, table, link, launch)?;
    }
    Ok(())
}

/// Adds the stretch of a link, if it has pages.
fn push_link(
    stretches: &mut Vec<Stretch>,
    table: &Table,
    link: &Link,
    launch: usize,
) -> Result<(), NoMemory>
    ensures { OnOk result (stretches.new.items
        ≡ stretches.old.items ++ link_stretches table.now.pages launch link.now) }
{
    let Link::Pages { key, count, .. } = link else {
        return Ok(());
    };
    push_pages(stretches, table.slot_of(key), *count as usize, launch)
}

/// Adds the stretch of this many pages from a slot on, if it has pages.
fn push_pages(
    stretches: &mut Vec<Stretch>,
    slot: Option<usize>,
    count: usize,
    launch: usize,
) -> Result<(), NoMemory>
    ensures { OnOk result
        (stretches.new.items ≡ stretches.old.items ++ stretch_at launch count slot) }
{
    let Some(first) = slot else {
        return Ok(());
    };
    if count == 0 {
        return Ok(());
    }
    stretches.push(Stretch {
        first,
        count,
        launch,
    })?;
    Ok(())
}
