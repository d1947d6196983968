//! Launches.
ghost use Rattle.std.specs.Prelude.{◌≡◌, ◌&&◌, nat_le, length};
ghost use Rattle.rim_launch.specs.Kinds.{is_below};
ghost use Rattle.rim_launch.specs.declared.launch.TheConstants.{ITEM_LIMIT, NAMED_REC_LIMIT, REGION_LIMIT};

use crate::conditions::{edits_possible, once_each, steps_complete};
use crate::config::Config;
use crate::item::{Item, Region};
use crate::rec::Rec;
use crate::step::Step;
use std::marker::Model;

/// The most regions of a launch: 64. This project's choice, as are the next two.
pub const REGION_LIMIT: usize = 64;

/// The most items of a launch: 64.
pub const ITEM_LIMIT: usize = 64;

/// The most RECs that a launch may name: 1,024. A list takes fewer.
pub const NAMED_REC_LIMIT: usize = 1024;

/// A launch: what a realm is made of, and in which order.
///
/// Its type keeps the limits of a manifest, at most one kernel, initrd and devicetree, an
/// initrd and RAM where the devicetree is to have their places, and one step for each region, item and
/// REC.
#[derive(Drop)]
pub struct Launch {
    number: usize,
    config: Config,
    ram: Vec<Region>,
    items: Vec<Item>,
    recs: Vec<Rec>,
    steps: Vec<Step>,
}

impl Model for Launch {
    ghost use Rattle.std.specs.Prelude.{◌≡◌, true};
    ghost use Rattle.rim_launch.specs.LaunchData.{LaunchData, is_launch};

    ghost Value = { LaunchData };

    ghost view = { λ l. record {
      number = l.number;
      config = l.config;
      ram = l.ram.items;
      items = l.items.items;
      recs = l.recs.items;
      steps = l.steps.items;
    } };

    ghost invariant = { λ l. is_launch (record {
      number = l.number;
      config = l.config;
      ram = l.ram.items;
      items = l.items.items;
      recs = l.recs.items;
      steps = l.steps.items;
    }) ≡ true };
}

impl Launch {
    ghost use Rattle.std.specs.Prelude.{◌≡◌, Some, None, if◌then◌else◌, true};
    ghost use Rattle.rim_launch.specs.LaunchData.{LaunchData, is_launch};
    ghost use Rattle.rim_launch.specs.LaunchData.{has_files};

    /// A launch of these parts, or `None` where they break a condition of its type.
    #[tactic(auto, unfolding(crate::specs::LaunchData::is_launch))]
    pub fn new(
        number: usize,
        config: Config,
        ram: Vec<Region>,
        items: Vec<Item>,
        recs: Vec<Rec>,
        steps: Vec<Step>,
    ) -> Option<Launch>
        ensures { let l : LaunchData = record {
          number = number;
          config = config;
          ram = ram.items;
          items = items.items;
          recs = recs.items;
          steps = steps.items;
        } in
            result ≡ (if is_launch l then Some l else None) }
    {
        if within_limits(&ram, &items, &recs)
            && once_each(&items)
            && edits_possible(&ram, &items)
            && steps_complete(ram.len(), items.len(), recs.len(), &steps)
        {
            Some(Launch {
                number,
                config,
                ram,
                items,
                recs,
                steps,
            })
        } else {
            None
        }
    }

    /// Its number in the release.
    pub fn number(&self) -> usize
        ensures { result ≡ self.now.number }
    {
        self.number
    }

    /// Its configuration.
    pub fn config(&self) -> Config
        ensures value { result ≡ self.now.config }
        ensures kept { is_launch self.now ≡ true }
    {
        self.config
    }

    /// Its regions of RAM.
    pub fn ram(&self) -> &[Region]
        ensures value { result.now ≡ self.now.ram }
        ensures kept { is_launch self.now ≡ true }
    {
        self.ram.as_slice()
    }

    /// Its items.
    pub fn items(&self) -> &[Item]
        ensures value { result.now ≡ self.now.items }
        ensures kept { is_launch self.now ≡ true }
    {
        self.items.as_slice()
    }

    /// Its RECs, without their defaults.
    pub fn recs(&self) -> &[Rec]
        ensures value { result.now ≡ self.now.recs }
        ensures kept { is_launch self.now ≡ true }
    {
        self.recs.as_slice()
    }

    /// Whether each file that an item has is one of the first `count` files.
    pub fn has_files(&self, count: usize) -> bool
        ensures { result ≡ has_files self.now count }
    {
        self.items
            .iter()
            .all(|item| is_below(count, item.kind.file()))
    }

    /// Its steps, in order.
    pub fn steps(&self) -> &[Step]
        ensures value { result.now ≡ self.now.steps }
        ensures kept { is_launch self.now ≡ true }
    {
        self.steps.as_slice()
    }
}

/// Whether a file is one of the first `count` files; where there is none, nothing is asked.
fn is_below(count: usize, file: Option<usize>) -> bool
    ensures { result ≡ is_below count file }
{
    match file {
        Some(file) => file < count,
        None => true,
    }
}

/// Whether the regions, the items and the RECs are no more than a launch may have.
fn within_limits(ram: &[Region], items: &[Item], recs: &[Rec]) -> bool
    ensures { result
        ≡ (nat_le (length ram.now) REGION_LIMIT && nat_le (length items.now) ITEM_LIMIT
        && nat_le (length recs.now) NAMED_REC_LIMIT) }
{
    ram.len() <= REGION_LIMIT && items.len() <= ITEM_LIMIT && recs.len() <= NAMED_REC_LIMIT
}
