//! The IPA space of the realm.
ghost use Rattle.std.specs.Prelude.{◌≡◌, ◌+◌, ◌-◌, ◌<◌, ◌≤◌, ◌^◌, ◌&&◌, nat_lt, not, IfOk, OnOk, OnErr, Ok, true, false};
ghost use Rattle.rmm_model.specs.Blocks.{down, span};
ghost use Rattle.rmm_model.specs.Space.{after_page, after_run, after_table, deeper, empty_space, has, has_table_in, is_ram, overlaps, walk};
ghost use Rattle.rmm_model.specs.Checks.{is_not_fresh};

use refusal::NoMemory;
use rmm_model::{Table, walk_level};
use std::alloc::Global;
use std::collections::{BTreeMap, BTreeSet};
use std::marker::Model;

/// The tables of a realm, its RAM and its pages with data. Each call takes the logarithm of their
/// numbers.
#[derive(Drop)]
pub struct IpaSpace {
    start: u8,
    protected_end: u64,
    tables: BTreeSet<Table>,
    ram: BTreeMap<u64, u64>,
    assigned: BTreeSet<u64>,
}

impl Model for IpaSpace {
    ghost use Rattle.rmm_model.specs.Space.{Space};

    ghost Value = { Space };

    ghost use Rattle.rmm_monitor.specs.inside.Space.{IsWellFormed, shown_space};

    ghost view = { shown_space };

    ghost invariant = { IsWellFormed };
}

impl IpaSpace {
    /// Start tables of a level alone, with `protected_end` the first address past the protected half.
    pub fn new(alloc: Global, start: u8, protected_end: u64) -> IpaSpace
        requires start { start ≤ 2 }
        requires protected_end { protected_end ≤ 2 ^ 47 }
        ensures { result ≡ empty_space start protected_end }
    {
        IpaSpace {
            start,
            protected_end,
            tables: BTreeSet::new(alloc),
            ram: BTreeMap::new(alloc),
            assigned: BTreeSet::new(alloc),
        }
    }

    /// The same tables, RAM and pages.
    pub fn try_clone(&self) -> Result<IpaSpace, NoMemory>
        ensures { IfOk result (λ copy. copy ≡ self.now) }
    {
        let tables = self.tables.clone()?;
        let ram = self.ram.clone()?;
        let assigned = self.assigned.clone()?;
        Ok(IpaSpace {
            start: self.start,
            protected_end: self.protected_end,
            tables,
            ram,
            assigned,
        })
    }

    /// The level of the start tables.
    pub fn start(&self) -> u8
        ensures value { result ≡ self.now.start }
        ensures most { result ≤ 2 }
    {
        self.start
    }

    /// The first address past the protected half.
    pub fn protected_end(&self) -> u64
        ensures value { result ≡ self.now.protected_end }
        ensures most { result ≤ 2 ^ 47 }
    {
        self.protected_end
    }

    /// The level at which the walk of an IPA ends: the deepest table that covers it decides.
    pub fn walk_level(&self, ipa: u64) -> u8
        ensures value { result ≡ walk self.now.start self.now.tables ipa }
        ensures most { result ≤ 3 }
    {
        walk_level(self.start, &self.tables, ipa)
    }

    /// Whether a table of a deeper level has its first address in the range.
    fn has_deeper(&self, level: u8, base: u64, top: u64) -> bool
        requires { base ≤ top }
        ensures { result ≡ deeper self.now.tables level base top }
    {
        let first = is_deeper(&self.tables, level, 1, base, top);
        let second = is_deeper(&self.tables, level, 2, base, top);
        let third = is_deeper(&self.tables, level, 3, base, top);
        first || second || third
    }

    /// Whether a range has RAM, or a table of a level deeper than `level`.
    pub fn is_not_fresh(&self, level: u8, base: u64, top: u64) -> bool
        requires { base < top }
        ensures { result ≡ is_not_fresh self.now level base top }
    {
        self.meets_ram(base, top - 1) || self.has_deeper(level, base, top)
    }

    /// Whether some address from `base` to `last` is RAM.
    fn meets_ram(&self, base: u64, last: u64) -> bool
        ensures { result ≡ overlaps self.now.ram base (last + 1) }
    {
        match self.ram.range(..=last).next_back() {
            Some((_, top)) => base < *top,
            None => false,
        }
    }

    /// Whether an address is RAM.
    pub fn is_ram(&self, ipa: u64) -> bool
        ensures { result ≡ is_ram self.now.ram ipa }
    {
        self.meets_ram(ipa, ipa)
    }

    /// Whether a page has data.
    pub fn has_data(&self, ipa: u64) -> bool
        ensures { result ≡ has self.now.assigned ipa }
    {
        self.assigned.contains(&ipa)
    }

    /// Adds a table.
    pub fn add_table(&mut self, level: u8, base: u64) -> Result<(), NoMemory>
        requires above { self.old.start < level }
        requires deepest { level ≤ 3 }
        requires multiple { down (span level) base ≡ base }
        ensures ok { OnOk result (self.new ≡ after_table self.old level base) }
        ensures err { OnErr result (self.new ≡ self.old) }
    {
        self.tables.insert(Table { level, base })?;
        Ok(())
    }

    /// Makes a range RAM of which nothing is RAM.
    pub fn add_run(&mut self, base: u64, top: u64) -> Result<(), NoMemory>
        requires some { base < top }
        requires fresh { overlaps self.old.ram base top ≡ false }
        ensures ok { OnOk result (self.new ≡ after_run self.old base top) }
        ensures err { OnErr result (self.new ≡ self.old) }
    {
        self.ram.insert(base, top)?;
        Ok(())
    }

    /// Gives data to a page that has none, which needs memory. Answers whether it had none.
    pub fn add_page(&mut self, ipa: u64) -> Result<bool, NoMemory>
        ensures value { IfOk result (λ done. done ≡ not (has self.old.assigned ipa)) }
        ensures done { result ≡ Ok true → self.new ≡ after_page self.old ipa }
        ensures kept { result ≡ Ok false → self.new ≡ self.old }
        ensures err { OnErr result (self.new ≡ self.old) }
        ensures absent { OnErr result (has self.old.assigned ipa ≡ false) }
    {
        Ok(self.assigned.insert(ipa)?)
    }
}

/// Whether a table of a level has its first address in the range.
fn is_table_between(tables: &BTreeSet<Table>, level: u8, base: u64, top: u64) -> bool
    requires { base ≤ top }
    ensures { result ≡ has_table_in tables.now.keys level base top }
{
    let first = Table { level, base };
    let past = Table { level, base: top };
    tables.range(first..past).next().is_some()
}

/// Whether a level is deeper than another, and a table of it has its first address in the range.
fn is_deeper(tables: &BTreeSet<Table>, than: u8, level: u8, base: u64, top: u64) -> bool
    requires { base ≤ top }
    ensures { result ≡ (nat_lt than level && has_table_in tables.now.keys level base top) }
{
    than < level && is_table_between(tables, level, base, top)
}
