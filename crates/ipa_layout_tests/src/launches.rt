//! Which parts make a launch.
use crate::placements;
use crate::placements::{REC, check, config};
use ipa_layout::{Bootargs, Config, Item, ItemKind, Launch, Region, Role, Step, default_steps};
use std::alloc::Global;
use std::process::Abort;

fn item(rt: &impl Abort, kind: ItemKind) -> Item {
    let has_size = kind.role() == Role::Unknown;
    let size = if has_size { Some(4096) } else { None };
    placements::item(rt, kind, 0x4000_0000, size)
}

/// A kernel, or raw content.
fn kind(is_kernel: bool) -> ItemKind {
    if is_kernel {
        ItemKind::Kernel { file: 0 }
    } else {
        ItemKind::Raw { file: 0 }
    }
}

fn push(rt: &impl Abort, items: &mut Vec<Item>, item: Item) {
    items.push(item).expect(rt, "memory");
}

fn items(rt: &impl Abort, alloc: Global, kinds: &[bool]) -> Vec<Item> {
    let mut items = Vec::new(alloc);
    for is_kernel in kinds {
        push(rt, &mut items, item(rt, kind(*is_kernel)));
    }
    items
}

fn steps_of(rt: &impl Abort, alloc: Global, steps: &[Step]) -> Vec<Step> {
    Vec::from_slice(alloc, steps).expect(rt, "memory")
}

/// With IPAs of 33 bits.
const NARROW: Config = config!(33);

const REGION: Region = Region {
    base: 0x4000_0000,
    end: 0x4020_0000,
};

/// A launch with one region, these kinds of items, one REC and these steps.
fn launch(rt: &impl Abort, alloc: Global, kinds: &[bool], steps: &[Step]) -> Option<Launch> {
    let items = items(rt, alloc, kinds);
    let ram = Vec::from_slice(alloc, &[REGION]).expect(rt, "memory");
    let recs = Vec::from_slice(alloc, &[REC]).expect(rt, "memory");
    let steps = steps_of(rt, alloc, steps);
    Launch::new(7, NARROW, ram, items, recs, steps)
}

const ALL: [Step; 3] = [Step::Rec(0), Step::Item(0), Step::Ram(0)];

const TWICE: [Step; 4] = [Step::Rec(0), Step::Item(0), Step::Ram(0), Step::Item(0)];

const ALL_OF_TWO: [Step; 4] = [Step::Ram(0), Step::Item(0), Step::Item(1), Step::Rec(0)];

/// Items, of which some are kernels, steps, and whether they make a launch.
type Row = (&'static [bool], &'static [Step], bool);

const ROWS: [Row; 6] = [
    // Steps name each part once.
    (&[false], &ALL, true),
    (&[false, false], &ALL, false),
    (&[], &ALL, false),
    (&[false], &TWICE, false),
    // One kernel at most.
    (&[true, false], &ALL_OF_TWO, true),
    (&[true, true], &ALL_OF_TWO, false),
];

fn check_launch(rt: &impl Abort, alloc: Global, row: &Row) {
    let (kinds, steps, makes_one) = row;
    let made = launch(rt, alloc, kinds, steps);
    assert!(rt; made.is_some() == *makes_one, "{kinds:?}, {steps:?}");
}

#[test]
fn parts_make_a_launch(rt: HostRuntime) {
    for row in &ROWS {
        check_launch(&rt, rt.alloc(), row);
    }
}

const KINDS_IN_ORDER: [Step; 10] = [
    Step::Ram(0),
    Step::Ram(1),
    Step::Item(4),
    Step::Item(3),
    Step::Item(2),
    Step::Item(1),
    Step::Item(5),
    Step::Item(0),
    Step::Rec(0),
    Step::Rec(1),
];

/// A devicetree, and whether it is to have the place of the initrd.
fn dtb(rt: &impl Abort, initrd: bool) -> Item {
    item(rt, placements::dtb(initrd, false))
}

/// Unknown content, raw content, a devicetree, an initrd, a kernel, and raw content.
fn six_items(rt: &impl Abort, alloc: Global) -> Vec<Item> {
    let mut items = Vec::new(alloc);
    push(rt, &mut items, item(rt, ItemKind::Unknown));
    push(rt, &mut items, item(rt, ItemKind::Raw { file: 0 }));
    push(rt, &mut items, dtb(rt, false));
    push(rt, &mut items, item(rt, ItemKind::Initrd { file: 0 }));
    push(rt, &mut items, item(rt, ItemKind::Kernel { file: 0 }));
    push(rt, &mut items, item(rt, ItemKind::Raw { file: 0 }));
    items
}

#[test]
fn default_steps_by_kind(rt: HostRuntime) {
    let items = six_items(&rt, rt.alloc());
    let steps = default_steps(rt.alloc(), 2, &items, 2).expect(&rt, "memory");
    let are_in_order = steps.as_slice() == KINDS_IN_ORDER.as_slice();
    check(&rt, are_in_order, "the steps");
}

/// A base, an end, and whether they make a region.
const REGIONS: [(u64, u64, bool); 4] = [
    (0, 1, true),
    (4096, 4096, false),
    (0, 0x7fff_ffff_ffff_ffff, true),
    (0, 0x8000_0000_0000_0000, false),
];

fn check_region(rt: &impl Abort, base: u64, end: u64, makes_one: bool) {
    let made = Region::new(base, end);
    assert!(rt; made.is_some() == makes_one, "{base:x} to {end:x}");
}

#[test]
fn regions_have_addresses(rt: HostRuntime) {
    for (base, end, makes_one) in &REGIONS {
        check_region(&rt, *base, *end, *makes_one);
    }
}

const END: u64 = 0x8000_0000_0000_0000;

/// An address, a size, and whether they make an item.
const NUMBERS: [(u64, Option<u64>, bool); 4] = [
    (0, None, true),
    (END - 1, Some(END - 1), true),
    (END, None, false),
    (0, Some(END), false),
];

fn check_item(rt: &impl Abort, at: u64, size: Option<u64>, makes_one: bool) {
    let made = Item::new(ItemKind::Raw { file: 0 }, at, size, true);
    assert!(rt; made.is_some() == makes_one, "{at:x}, {size:?}");
}

#[test]
fn items_have_numbers(rt: HostRuntime) {
    for (at, size, makes_one) in &NUMBERS {
        check_item(&rt, *at, *size, *makes_one);
    }
}

/// Unknown content has a size, and is not measured.
#[test]
fn unknown_content_has_a_size(rt: HostRuntime) {
    let item = |size, measured| Item::new(ItemKind::Unknown, 0, size, measured).is_some();
    check(&rt, item(Some(0), false), "with a size");
    check(&rt, !item(None, false), "without a size");
    check(&rt, !item(Some(0), true), "measured");
}

/// A launch of a devicetree alone.
fn check_edits(rt: &impl Abort, alloc: Global, initrd: bool) {
    let mut items = Vec::new(alloc);
    push(rt, &mut items, dtb(rt, initrd));
    let steps = steps_of(rt, alloc, &[Step::Item(0)]);
    let made = Launch::new(0, NARROW, Vec::new(alloc), items, Vec::new(alloc), steps);
    check(rt, made.is_some() == !initrd, "only without an initrd");
}

#[test]
fn edits_need_their_parts(rt: HostRuntime) {
    for initrd in [false, true] {
        check_edits(&rt, rt.alloc(), initrd);
    }
}

fn check_line(rt: &impl Abort, alloc: Global, text: &str, makes_one: bool) {
    let made = Bootargs::new(String::from_str(alloc, text).expect(rt, "memory"));
    assert!(rt; made.is_some() == makes_one, "{text:?}");
}

#[test]
fn command_lines(rt: HostRuntime) {
    check_line(&rt, rt.alloc(), "quiet", true);
    check_line(&rt, rt.alloc(), "qui\0et", false);
}
