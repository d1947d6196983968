//! The acts of a region of RAM, and of pages of data. A call that finds no memory takes back what it added, the last table
//! first. A table is put among the acts before it is made, so each that was made is found there. A copy of all tables before each
//! call would cost time for all that was planned before.
ghost use Rattle.std.specs.Prelude.{◌≡◌, ◌++◌, ◌*◌, ◌+◌, ◌%◌, ◌<◌, ◌≤◌, ◌^◌, OnOk};
ghost use Rattle.rmm_model.specs.Blocks.{granules};
ghost use Rattle.rmm_model.specs.Space.{SameTables};
ghost use Rattle.rtt_plan.specs.Places.{IsRegion};
ghost use Rattle.rtt_plan.specs.Runs.{runs_of};
ghost use Rattle.rtt_plan.specs.Missing.{page_acts, page_tables, run_acts, run_tables};
ghost use Rattle.rtt_plan.specs.inside.Undone.{undone};
ghost use Rattle.rim_desc.specs.declared.page.TheConstants.{PAGE_SIZE};

use crate::act::Act;
use crate::longest::run_from;
use crate::missing::push_missing;
use refusal::NoMemory;
use rim_desc::GRANULE_SIZE;
use rmm_model::{Table, span_of_level, table_base};
use std::collections::BTreeSet;

/// Adds the acts of a region's runs, and the tables among them.
pub fn push_region(
    tables: &mut BTreeSet<Table>,
    acts: &mut Vec<Act>,
    start: u8,
    least_level: u8,
    base: u64,
    end: u64,
) -> Result<(), NoMemory>
    requires region { IsRegion base end }
    requires some { base < end }
    requires small { end ≤ 2 ^ 47 }
    requires low { start ≤ least_level }
    requires deep { least_level ≤ 3 }
    ensures undone { undone acts.new.items tables.new.keys ≡ undone acts.old.items tables.old.keys }
    ensures acts { OnOk result (acts.new.items
        ≡ acts.old.items ++ run_acts start tables.old.keys (runs_of base end least_level)) }
    ensures tables { OnOk result (SameTables tables.new.keys
        (run_tables start tables.old.keys (runs_of base end least_level))) }
{
    let mut x = base;
    while x < end {
        let run = run_from(base, end, least_level, x);
        push_missing(tables, acts, start, run.level, x)?;
        acts.push(Act::Run {
            base: x,
            top: run.top,
            level: run.level,
        })?;
        x = run.top;
    }
    Ok(())
}

/// Adds the acts of `count` pages from `base` on, and the tables among them. The pages of one table are one act, and
/// are not visited.
pub fn push_data(
    tables: &mut BTreeSet<Table>,
    acts: &mut Vec<Act>,
    start: u8,
    base: u64,
    count: u64,
) -> Result<(), NoMemory>
    requires whole { base % PAGE_SIZE ≡ 0 }
    requires small { base + PAGE_SIZE * count ≤ 2 ^ 47 }
    requires deep { start ≤ 3 }
    ensures undone { undone acts.new.items tables.new.keys ≡ undone acts.old.items tables.old.keys }
    ensures acts { OnOk result
        (acts.new.items ≡ acts.old.items ++ page_acts start tables.old.keys (granules count base)) }
    ensures tables { OnOk result
        (SameTables tables.new.keys (page_tables start tables.old.keys (granules count base))) }
{
    let mut page = base;
    let mut left = count;
    while left > 0 {
        push_missing(tables, acts, start, 3, page)?;
        let in_table = (table_base(3, page) + span_of_level(3) - page) / GRANULE_SIZE;
        let group = in_table.min(left);
        acts.push(Act::Pages {
            base: page,
            count: group,
        })?;
        page += GRANULE_SIZE * group;
        left -= group;
    }
    Ok(())
}
