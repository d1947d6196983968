//! Whether a table has all pages of some plans, as a board asks of them.
ghost use Rattle.std.specs.Prelude.{◌↔◌, IsTrue};
ghost use Rattle.std.specs.List.{All, Contains};
ghost use Rattle.page_jobs.specs.Table.{page_keys_of as page_keys};
ghost use Rattle.launch_plan.specs.Links.{keys_of};

use page_jobs::{PageKey, Table, slots_go_by_keys};
use rim_chain::LaunchPlan;

/// Whether a table has a page of this key.
fn has_key(table: &Table, key: &PageKey) -> bool
    ensures { IsTrue result ↔ Contains (page_keys table.now.pages) key.now }
{
    slots_go_by_keys();
    let _pages = table.pages();
    table.slot_of(key).is_some()
}

/// Whether a table has a page for each key of a plan.
fn has_keys(table: &Table, plan: &LaunchPlan) -> bool
    ensures { IsTrue result ↔ All (Contains (page_keys table.now.pages)) (keys_of plan.now.links) }
{
    for index in 0..plan.pages() {
        if !has_key(table, &plan.key(index)) {
            return false;
        }
    }
    true
}

/// Whether a table has a page for each key of some plans. A board is made of no other table and plans.
///
/// Each key is looked for among the sorted keys of the table. So the time grows with the plans' pages, and with the
/// logarithm of the table's.
pub fn has_all_keys(table: &Table, plans: &[LaunchPlan]) -> bool
    ensures { IsTrue result
        ↔ All (λ p. All (Contains (page_keys table.now.pages)) (keys_of p.links)) plans.now }
{
    for plan in plans {
        if !has_keys(table, plan) {
            return false;
        }
    }
    true
}
