//! The tables that a block needs first.
ghost use Rattle.std.specs.Prelude.{◌≡◌, ◌++◌, ◌<◌, ◌≤◌, OnOk, map};
ghost use Rattle.rmm_model.specs.Space.{SameTables};
ghost use Rattle.rtt_plan.specs.Missing.{table_act, missing};
ghost use Rattle.rtt_plan.specs.inside.Undone.{undone};

use crate::act::Act;
use refusal::NoMemory;
use rmm_model::{Table, table_base};
use std::collections::BTreeSet;

/// Adds the tables that a block of a level at `x` needs, rising in level, to the acts and to the tables. A table is put
/// among the acts first, so that each that was made is found there when memory is refused.
pub fn push_missing(
    tables: &mut BTreeSet<Table>,
    acts: &mut Vec<Act>,
    start: u8,
    level: u8,
    x: u64,
) -> Result<(), NoMemory>
    requires low { start ≤ level }
    requires deep { level ≤ 3 }
    ensures tables { OnOk result
        (SameTables tables.new.keys (tables.old.keys ++ missing start tables.old.keys level x)) }
    ensures undone { undone acts.new.items tables.new.keys ≡ undone acts.old.items tables.old.keys }
    ensures acts { OnOk result
        (acts.new.items ≡ acts.old.items ++ map table_act (missing start tables.old.keys level x)) }
{
    for above in start..level {
        let table = Table {
            level: above + 1,
            base: table_base(above + 1, x),
        };
        if !tables.contains(&table) {
            acts.push(Act::Table {
                base: table.base,
                level: table.level,
            })?;
            tables.insert(table)?;
        }
    }
    Ok(())
}

/// Takes the tables of some acts back, the last first.
pub fn take_back(tables: &mut BTreeSet<Table>, mut acts: Vec<Act>)
    ensures { tables.new.keys ≡ undone acts.items tables.old.keys }
{
    while let Some(act) = acts.pop() {
        if let Act::Table { base, level } = act {
            tables.remove(&Table { level, base });
        }
    }
}
