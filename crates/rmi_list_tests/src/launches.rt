//! The launches of the rows.
ghost use Rattle.std.specs.Prelude.{◌≡◌, length, true};
ghost use Rattle.rim_launch.specs.LaunchData.{has_files};
ghost use Rattle.rmi_list.specs.Listed.{HasPlace};

use ipa_layout::{Placed, place};
use rim_launch::{Config, Item, ItemKind, Launch, Rec, Region, Step, default_steps};
use rmi_list::{ListFault, Plan, list};
use std::alloc::Global;
use std::process::Abort;

/// A configuration by its width, its least level of a block, its number of auxiliary granules and its number of
/// granules, with SHA-256 and the defaults of a manifest.
macro_rules! config {
    ($s2sz:expr, $block_level:expr, $num_aux:expr, $pool_count:expr) => {
        Config {
            algo: rim_desc::Algo::Sha256,
            s2sz: $s2sz,
            sve: false,
            pmu: false,
            numbers: rim_desc::NO_NUMBERS,
            rpv: [0; 64],
            block_level: $block_level,
            num_aux: $num_aux,
            rec_rule: None,
            pool_base: 0x8_0000_0000,
            pool_count: $pool_count,
        }
    };
}

pub(crate) use config;

/// IPAs of 33 bits, and blocks of 2 MiB.
pub const CONFIG: Config = config!(33, 2, 0, 16_777_216);

/// IPAs of 40 bits, and blocks of up to 1 GiB.
pub const WIDE: Config = config!(40, 1, 0, 16_777_216);

/// What a launch of a row has beside its configuration.
#[derive(Clone, Copy)]
pub struct Parts {
    /// Regions, from their first address to the first past them.
    pub ram: &'static [(u64, u64)],
    /// Raw items, each with its address, its stated size in bytes, and whether it is measured. Its file has one byte, or
    /// none where the size is 0.
    pub items: &'static [(u64, u64, bool)],
    /// Whether each REC is runnable.
    pub recs: &'static [bool],
    /// The steps; the default ones where none is named.
    pub steps: &'static [Step],
}

/// A launch without parts.
pub const NOTHING: Parts = Parts {
    ram: &[],
    items: &[],
    recs: &[],
    steps: &[],
};

pub fn check(rt: &impl Abort, holds: bool, name: &str) {
    assert!(rt; holds, "{name}");
}

fn regions(rt: &impl Abort, alloc: Global, ram: &[(u64, u64)]) -> Vec<Region> {
    let mut regions = Vec::new(alloc);
    for (base, end) in ram {
        let region = Region::new(*base, *end).expect(rt, "a region");
        regions.push(region).expect(rt, "memory");
    }
    regions
}

fn items(rt: &impl Abort, alloc: Global, parts: &[(u64, u64, bool)]) -> Vec<Item> {
    let mut items = Vec::new(alloc);
    for (at, size, measured) in parts {
        let file = if *size == 0 { 1 } else { 0 };
        let item = Item::new(ItemKind::Raw { file }, *at, Some(*size), *measured);
        items.push(item.expect(rt, "an item")).expect(rt, "memory");
    }
    items
}

fn recs(rt: &impl Abort, alloc: Global, parts: &[bool]) -> Vec<Rec> {
    let mut recs = Vec::new(alloc);
    for runnable in parts {
        let rec = Rec {
            pc: Some(0x4008_0000),
            x: None,
            runnable: *runnable,
        };
        recs.push(rec).expect(rt, "memory");
    }
    recs
}

/// The launch with these parts.
pub fn launch_of(rt: &impl Abort, alloc: Global, config: &Config, parts: &Parts) -> Launch {
    let ram = regions(rt, alloc, parts.ram);
    let items = items(rt, alloc, parts.items);
    let recs = recs(rt, alloc, parts.recs);
    let steps = if parts.steps.is_empty() {
        default_steps(alloc, ram.len(), &items, recs.len()).expect(rt, "memory")
    } else {
        Vec::from_slice(alloc, parts.steps).expect(rt, "memory")
    };
    Launch::new(0, *config, ram, items, recs, steps).expect(rt, "a launch")
}

/// A file of one byte, 7, and one of none.
pub fn files_of(rt: &impl Abort, alloc: Global) -> Vec<Vec<u8>> {
    let bytes = Vec::from_slice(alloc, &[7]).expect(rt, "memory");
    Vec::from_array(alloc, [bytes, Vec::new(alloc)]).expect(rt, "memory")
}

/// The list of a launch with these files.
pub fn list_of(rt: &impl Abort, alloc: Global, launch: &Launch) -> Result<Plan, ListFault> {
    let files = files_of(rt, alloc);
    if !launch.has_files(files.len()) {
        panic!(rt; "an item's file is missing");
    }
    let placed = placed_of(rt, alloc, launch, &files);
    list(alloc, launch, &placed)
}

/// The place of a launch with these files.
pub fn placed_of(rt: &impl Abort, alloc: Global, launch: &Launch, files: &[Vec<u8>]) -> Placed
    requires { has_files launch.now (length files.now) ≡ true }
    ensures { HasPlace launch.now result }
{
    place(alloc, launch, files).expect(rt, "the launch has a place")
}
