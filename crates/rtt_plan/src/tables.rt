//! What was planned so far.
ghost use Rattle.std.specs.Prelude.{◌≡◌, ◌*◌, ◌+◌, ◌%◌, ◌<◌, ◌≤◌, ◌^◌, Err, IfOk, IsOk, OnErr, OnOk, true};
ghost use Rattle.std.specs.BTreeMap.{insert_entry};
ghost use Rattle.std.specs.Ordering.{nat_cmp};
ghost use Rattle.refusal.specs.Answer.{Answers};
ghost use Rattle.rmm_model.specs.Blocks.{granules};
ghost use Rattle.rmm_model.specs.Space.{SameTables, walk};
ghost use Rattle.rmm_model.specs.Start.{is_width};
ghost use Rattle.rtt_plan.specs.Places.{IsRegion};
ghost use Rattle.rtt_plan.specs.Planned.{AgreesWith, after_data, after_region, nothing_planned, plan_data, plan_region};
ghost use Rattle.rtt_plan.specs.Runs.{runs_of};
ghost use Rattle.rtt_plan.specs.Missing.{page_acts, page_tables, run_acts, run_tables};
ghost use Rattle.rtt_plan.specs.inside.PageRanges.{with_pages};
ghost use Rattle.rim_desc.specs.declared.page.TheConstants.{PAGE_SIZE};

use crate::act::Act;
use crate::counting::total_entries;
use crate::fault::PlanFault;
use crate::missing::take_back;
use crate::planning::{push_data, push_region};
use crate::questions::{all_ram, any_assigned, ends_past, overlaps};
use refusal::NoMemory;
use rim_desc::GRANULE_SIZE;
use rmm_model::{Table, protected_end, start_level, walk_level};
use std::alloc::Global;
use std::collections::{BTreeMap, BTreeSet};
use std::marker::Model;

/// The tables, the RAM and the pages of data that were planned so far for one realm.
///
/// RAM and pages of data are one range for each call, by address. A table and a range are looked up in the logarithm of
/// their number, and no page is visited.
#[derive(Drop)]
pub struct Tables {
    alloc: Global,
    start: u8,
    protected_end: u64,
    least_level: u8,
    entries: u64,
    tables: BTreeSet<Table>,
    ram: BTreeMap<u64, u64>,
    assigned: BTreeMap<u64, u64>,
}

impl Model for Tables {
    ghost use Rattle.rtt_plan.specs.Planned.{Planned};

    ghost Value = { Planned };

    ghost use Rattle.rtt_plan.specs.inside.Tables.{IsWellFormed, shown_plan};

    ghost view = { shown_plan };

    ghost invariant = { IsWellFormed };
}

impl Tables {
    /// Nothing planned, for a realm with IPAs of `s2sz` bits whose blocks of RAM have at least
    /// `block_level`. It takes no memory.
    pub fn new(alloc: Global, s2sz: u8, block_level: u8) -> Tables
        requires width { is_width s2sz ≡ true }
        requires deep { block_level ≤ 3 }
        ensures { result ≡ nothing_planned s2sz block_level }
    {
        let start = start_level(s2sz);
        Tables {
            alloc,
            start,
            protected_end: protected_end(s2sz),
            least_level: block_level.max(start),
            entries: 0,
            tables: BTreeSet::new(alloc),
            ram: BTreeMap::new(alloc),
            assigned: BTreeMap::new(alloc),
        }
    }

    /// The level at which the walk of an IPA ends, with the tables planned so far. DEN0137, "RTT walk".
    pub fn walk_level(&self, ipa: u64) -> u8
        ensures { result ≡ walk self.now.space.start self.now.space.tables ipa }
    {
        walk_level(self.start, &self.tables, ipa)
    }

    /// The acts that make a region RAM, from `base` up to `end`: its runs in rising order, and before
    /// each run the tables that it needs. NoMemory comes after all other faults, and after a fault the
    /// plan is as before.
    #[tactic(auto, unfolding(crate::specs::Planned::plan_region))]
    pub fn ripas_runs(&mut self, base: u64, end: u64) -> Result<Vec<Act>, PlanFault>
        requires { base < end }
        ensures acts { Answers PlanFault.NoMemory (λ acts. acts.items) result
            (plan_region self.old base end) }
        ensures memory { result ≡ Err PlanFault.NoMemory → IsOk (plan_region self.old base end) }
        ensures after { OnOk result (AgreesWith self.new (after_region self.old base end)) }
        ensures kept { OnErr result (self.new ≡ self.old) }
    {
        if end > self.protected_end {
            return Err(PlanFault::OutsideProtected);
        }
        if base % GRANULE_SIZE != 0 || end % GRANULE_SIZE != 0 {
            return Err(PlanFault::Unaligned);
        }
        if overlaps(&self.ram, base, end) {
            return Err(PlanFault::RipasTwice);
        }
        let Some(entries) = total_entries(self.entries, base, end, self.least_level) else {
            return Err(PlanFault::TooManyEntries);
        };
        let (start, least_level) = (self.start, self.least_level);
        let acts = add_region(
            self.alloc,
            &mut self.tables,
            &mut self.ram,
            start,
            least_level,
            base,
            end,
        )?;
        self.entries = entries;
        Ok(acts)
    }

    /// The acts that give `count` pages from `base` on data, in rising order: the longest groups of pages
    /// in one level 3 table, and before each group the tables that it needs. NoMemory comes after all
    /// other faults, and after a fault the plan is as before.
    #[tactic(auto, unfolding(crate::specs::Planned::plan_data))]
    pub fn data_pages(&mut self, base: u64, count: u64) -> Result<Vec<Act>, PlanFault>
        requires { 1 ≤ count }
        ensures acts { Answers PlanFault.NoMemory (λ acts. acts.items) result
            (plan_data self.old base count) }
        ensures memory { result ≡ Err PlanFault.NoMemory → IsOk (plan_data self.old base count) }
        ensures after { OnOk result (AgreesWith self.new (after_data self.old base count)) }
        ensures low { OnOk result (base + PAGE_SIZE * count ≤ 2 ^ 47) }
        ensures kept { OnErr result (self.new ≡ self.old) }
    {
        if ends_past(self.protected_end, base, count) {
            return Err(PlanFault::OutsideProtected);
        }
        if base % GRANULE_SIZE != 0 {
            return Err(PlanFault::Unaligned);
        }
        if !all_ram(&self.ram, base, count) {
            return Err(PlanFault::NotRam);
        }
        if any_assigned(&self.assigned, base, count) {
            return Err(PlanFault::DataTwice);
        }
        let start = self.start;
        let acts = add_data(
            self.alloc,
            &mut self.tables,
            &mut self.assigned,
            start,
            base,
            count,
        )?;
        Ok(acts)
    }
}

/// The acts of a region. The tables among them and the region are added; where memory is refused,
/// nothing is.
fn add_region(
    alloc: Global,
    tables: &mut BTreeSet<Table>,
    ram: &mut BTreeMap<u64, u64>,
    start: u8,
    least_level: u8,
    base: u64,
    end: u64,
) -> Result<Vec<Act>, NoMemory>
    requires region { IsRegion base end }
    requires some { base < end }
    requires small { end ≤ 2 ^ 47 }
    requires low { start ≤ least_level }
    requires deep { least_level ≤ 3 }
    ensures acts { IfOk result
        (λ acts. acts.items ≡ run_acts start tables.old.keys (runs_of base end least_level)) }
    ensures tables { OnOk result (SameTables tables.new.keys
        (run_tables start tables.old.keys (runs_of base end least_level))) }
    ensures ram { OnOk result (ram.new.entries ≡ insert_entry nat_cmp ram.old.entries base end) }
    ensures tables_kept { OnErr result (tables.new.keys ≡ tables.old.keys) }
    ensures ram_kept { OnErr result (ram.new.entries ≡ ram.old.entries) }
{
    let mut acts = Vec::new(alloc);
    if push_region(tables, &mut acts, start, least_level, base, end).is_ok()
        && ram.insert(base, end).is_ok()
    {
        return Ok(acts);
    }
    take_back(tables, acts);
    Err(NoMemory)
}

/// The acts of `count` pages from `base` on. The tables among them and the range of the pages are added;
/// where memory is refused, nothing is.
fn add_data(
    alloc: Global,
    tables: &mut BTreeSet<Table>,
    assigned: &mut BTreeMap<u64, u64>,
    start: u8,
    base: u64,
    count: u64,
) -> Result<Vec<Act>, NoMemory>
    requires whole { base % PAGE_SIZE ≡ 0 }
    requires small { base + PAGE_SIZE * count ≤ 2 ^ 47 }
    requires deep { start ≤ 3 }
    ensures acts { IfOk result
        (λ acts. acts.items ≡ page_acts start tables.old.keys (granules count base)) }
    ensures tables { OnOk result
        (SameTables tables.new.keys (page_tables start tables.old.keys (granules count base))) }
    ensures assigned { OnOk result
        (assigned.new.entries ≡ with_pages assigned.old.entries base count) }
    ensures tables_kept { OnErr result (tables.new.keys ≡ tables.old.keys) }
    ensures assigned_kept { OnErr result (assigned.new.entries ≡ assigned.old.entries) }
{
    let mut acts = Vec::new(alloc);
    if push_data(tables, &mut acts, start, base, count).is_ok()
        && assigned.insert(base, base + GRANULE_SIZE * count).is_ok()
    {
        return Ok(acts);
    }
    take_back(tables, acts);
    Err(NoMemory)
}
