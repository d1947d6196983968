//! Whole launches as they are placed, and why others are not.
use fdt_tree::Tree;
use fdt_tree_tests::vectors::{CHOSEN, EMPTY};
use ipa_layout::{
    Bootargs, Config, Edits, Item, ItemKind, Launch, LayoutFault, Placed, PlacedItem, PlacedRec,
    Rec, Region, Role, Source, Step, place,
};
use std::alloc::Global;
use std::process::Abort;

pub fn check(rt: &impl Abort, holds: bool, name: &str) {
    assert!(rt; holds, "{name}");
}

/// The first bytes of the empty root, one less than a header has.
pub const SHORT: [u8; 39] = [
    0xd0, 0x0d, 0xfe, 0xed, 0, 0, 0, 0x48, 0, 0, 0, 0x38, 0, 0, 0, 0x48, 0, 0, 0, 0x28, 0, 0, 0,
    0x11, 0, 0, 0, 0x10, 0, 0, 0, 0, 0, 0, 0, 0, 0, 0, 0,
];

/// An Image with the text offset 0 and the size 2 MiB.
pub const IMAGE: [u8; 64] = [
    0, 0, 0, 0, 0, 0, 0, 0, 0, 0, 0, 0, 0, 0, 0, 0, 0, 0, 0x20, 0, 0, 0, 0, 0, 0, 0, 0, 0, 0, 0, 0,
    0, 0, 0, 0, 0, 0, 0, 0, 0, 0, 0, 0, 0, 0, 0, 0, 0, 0, 0, 0, 0, 0, 0, 0, 0, 0x41, 0x52, 0x4d,
    0x64, 0, 0, 0, 0,
];

/// With the text offset 512 KiB.
const OFFSET_IMAGE: [u8; 64] = [
    0, 0, 0, 0, 0, 0, 0, 0, 0, 0, 8, 0, 0, 0, 0, 0, 0, 0, 0x20, 0, 0, 0, 0, 0, 0, 0, 0, 0, 0, 0, 0,
    0, 0, 0, 0, 0, 0, 0, 0, 0, 0, 0, 0, 0, 0, 0, 0, 0, 0, 0, 0, 0, 0, 0, 0, 0, 0x41, 0x52, 0x4d,
    0x64, 0, 0, 0, 0,
];

/// With the text offset 2^64 - 1 and the size 1.
pub const FAR_IMAGE: [u8; 64] = [
    0, 0, 0, 0, 0, 0, 0, 0, 0xff, 0xff, 0xff, 0xff, 0xff, 0xff, 0xff, 0xff, 1, 0, 0, 0, 0, 0, 0, 0,
    0, 0, 0, 0, 0, 0, 0, 0, 0, 0, 0, 0, 0, 0, 0, 0, 0, 0, 0, 0, 0, 0, 0, 0, 0, 0, 0, 0, 0, 0, 0, 0,
    0x41, 0x52, 0x4d, 0x64, 0, 0, 0, 0,
];

/// With the size 2 MiB and a byte.
pub const LONG_IMAGE: [u8; 64] = [
    0, 0, 0, 0, 0, 0, 0, 0, 0, 0, 0, 0, 0, 0, 0, 0, 1, 0, 0x20, 0, 0, 0, 0, 0, 0, 0, 0, 0, 0, 0, 0,
    0, 0, 0, 0, 0, 0, 0, 0, 0, 0, 0, 0, 0, 0, 0, 0, 0, 0, 0, 0, 0, 0, 0, 0, 0, 0x41, 0x52, 0x4d,
    0x64, 0, 0, 0, 0,
];

/// With the size 2^64 - 1.
pub const ENDLESS_IMAGE: [u8; 64] = [
    0, 0, 0, 0, 0, 0, 0, 0, 0, 0, 0, 0, 0, 0, 0, 0, 0xff, 0xff, 0xff, 0xff, 0xff, 0xff, 0xff, 0xff,
    0, 0, 0, 0, 0, 0, 0, 0, 0, 0, 0, 0, 0, 0, 0, 0, 0, 0, 0, 0, 0, 0, 0, 0, 0, 0, 0, 0, 0, 0, 0, 0,
    0x41, 0x52, 0x4d, 0x64, 0, 0, 0, 0,
];

/// A region, from its first address to the first past it.
pub type Stretch = (u64, u64);

pub const SMALL: [Stretch; 1] = [(0x4000_0000, 0x4020_0000)];

pub const LARGE: [Stretch; 1] = [(0x4000_0000, 0x8_8000_0000)];

/// The contents of files 0, 1 and so on.
pub type Contents = &'static [&'static [u8]];

/// What an item of a case is. Kernels are of file 0, initrds of file 1, devicetrees of file 2.
#[derive(Clone, Copy)]
pub enum What {
    Kernel,
    Initrd,
    Dtb,
    /// A devicetree that is to have the place of RAM.
    Edited,
    /// A devicetree that is to have the places of RAM and of the initrd.
    Both,
    /// Raw content of this file.
    Raw(usize),
    Unknown,
}

/// An item, its load address, and its size where it is stated.
pub type Asked = (What, u64, Option<u64>);

/// A launch of these regions and items, and what becomes of it: the pages of its last item, or why it is refused.
pub type Case = (
    &'static [Stretch],
    &'static [Asked],
    Result<u64, LayoutFault>,
);

/// A devicetree, and whether it is to have the place of the initrd, and that of RAM.
pub fn dtb(initrd: bool, memory: bool) -> ItemKind {
    let edits = Edits {
        bootargs: None,
        initrd,
        memory,
    };
    ItemKind::Dtb { file: 2, edits }
}

fn kind(what: What) -> ItemKind {
    match what {
        What::Kernel => ItemKind::Kernel { file: 0 },
        What::Initrd => ItemKind::Initrd { file: 1 },
        What::Dtb => dtb(false, false),
        What::Edited => dtb(false, true),
        What::Both => dtb(true, true),
        What::Raw(file) => ItemKind::Raw { file },
        What::Unknown => ItemKind::Unknown,
    }
}

/// An item that is measured where its content is known, with numbers that a manifest can spell.
pub fn item(rt: &impl Abort, kind: ItemKind, at: u64, size: Option<u64>) -> Item {
    let measured = kind.role() != Role::Unknown;
    Item::new(kind, at, size, measured).expect(rt, "numbers of an item")
}

fn items(rt: &impl Abort, alloc: Global, asked: &[Asked]) -> Vec<Item> {
    let mut items = Vec::new(alloc);
    for (what, at, size) in asked {
        let item = item(rt, kind(*what), *at, *size);
        items.push(item).expect(rt, "memory");
    }
    items
}

/// A configuration by its width of IPAs.
macro_rules! config {
    ($s2sz:expr) => {
        ipa_layout::Config {
            algo: rim_desc::Algo::Sha256,
            s2sz: $s2sz,
            sve: false,
            pmu: false,
            numbers: rim_desc::NO_NUMBERS,
            rpv: [0; 64],
            block_level: 2,
            num_aux: 0,
            rec_rule: None,
            pool_base: 0x8_0000_0000,
            pool_count: 16_777_216,
        }
    };
}

pub(crate) use config;

const CONFIG: Config = config!(40);

/// A REC that says nothing.
pub const REC: Rec = Rec {
    pc: None,
    x: None,
    runnable: true,
};

/// The step of a number, of those for the regions, the items and the RECs.
fn step_of(number: usize, regions: usize, items: usize) -> Step {
    if number < regions {
        Step::Ram(number)
    } else if number - regions < items {
        Step::Item(number - regions)
    } else {
        Step::Rec(number - regions - items)
    }
}

/// A step for each of these regions and items, and for two RECs.
fn steps(rt: &impl Abort, alloc: Global, regions: usize, items: usize) -> Vec<Step> {
    let mut steps = Vec::new(alloc);
    for number in 0..regions.saturating_add(items).saturating_add(2) {
        let step = step_of(number, regions, items);
        steps.push(step).expect(rt, "memory");
    }
    steps
}

fn regions(rt: &impl Abort, alloc: Global, ram: &[Stretch]) -> Vec<Region> {
    let mut regions = Vec::new(alloc);
    for (base, end) in ram {
        let region = Region::new(*base, *end).expect(rt, "a region");
        regions.push(region).expect(rt, "memory");
    }
    regions
}

/// Launch 3, with these regions and items, and two RECs that say nothing.
fn launch(rt: &impl Abort, alloc: Global, ram: &[Stretch], items: Vec<Item>) -> Launch {
    let steps = steps(rt, alloc, ram.len(), items.len());
    let ram = regions(rt, alloc, ram);
    let recs = Vec::from_slice(alloc, &[REC, REC]).expect(rt, "memory");
    Launch::new(3, CONFIG, ram, items, recs, steps).expect(rt, "the parts make a launch")
}

pub fn files(rt: &impl Abort, alloc: Global, contents: &[&[u8]]) -> Vec<Vec<u8>> {
    let mut files = Vec::new(alloc);
    for bytes in contents {
        let file = bytes.to_vec(alloc).expect(rt, "memory");
        files.push(file).expect(rt, "memory");
    }
    files
}

/// Want of memory ends the test.
fn outcome(
    rt: &impl Abort,
    alloc: Global,
    ram: &[Stretch],
    items: Vec<Item>,
    files: &[Vec<u8>],
) -> Result<Placed, LayoutFault> {
    let launch = launch(rt, alloc, ram, items);
    assert!(rt; launch.has_files(files.len()));
    let outcome = place(alloc, &launch, files);
    let fault = outcome.as_ref().err();
    assert!(rt; fault != Some(&LayoutFault::NoMemory), "memory");
    outcome
}

/// How many pages the last item has, where they are placed.
fn last_pages(placed: &Placed) -> u64 {
    match placed.items().last() {
        Some(item) => item.pages,
        None => 0,
    }
}

/// How many items are placed and how many pages the last one has, or the fault.
fn pages_of(outcome: Result<Placed, LayoutFault>) -> Result<(usize, u64), LayoutFault> {
    outcome.map(|placed| (placed.items().len(), last_pages(&placed)))
}

pub fn check_case(
    rt: &impl Abort,
    alloc: Global,
    files: &[Vec<u8>],
    case: &Case,
    name: &str,
    number: usize,
) {
    let (ram, asked, wanted) = case;
    let found = pages_of(outcome(rt, alloc, ram, items(rt, alloc, asked), files));
    let wanted = wanted.map(|pages| (asked.len(), pages));
    assert!(rt; found == wanted, "{name}, case {number}");
}

/// An item that is placed: its source, address, lead and pages, and whether it is measured.
macro_rules! placed_item {
    ($source:expr, $address:expr, $lead:expr, $pages:expr, $measured:expr) => {
        PlacedItem {
            source: $source,
            address: $address,
            lead: $lead,
            pages: $pages,
            measured: $measured,
        }
    };
}

/// What is placed: the files' contents, the items that are asked for, and those that are placed; and how many bytes the
/// first one has.
type Row = (Contents, &'static [Asked], &'static [PlacedItem], usize);

const ROWS: [Row; 4] = [
    (
        &[&[1; 4097]],
        &[(What::Raw(0), 0x4000_0000, None)],
        &[placed_item!(Some(Source::File(0)), 0x4000_0000, 0, 2, true)],
        4097,
    ),
    (
        &[&[1; 4097]],
        &[(What::Raw(0), 0x4000_0004, None)],
        &[placed_item!(Some(Source::File(0)), 0x4000_0004, 4, 2, true)],
        4097,
    ),
    // Where its content is not known an item has no bytes, and is not measured.
    (
        &[],
        &[(What::Unknown, 0x4000_0004, Some(4097))],
        &[placed_item!(None, 0x4000_0004, 4, 2, false)],
        0,
    ),
    // Empty items need nothing.
    (
        &[&[], &[]],
        &[
            (What::Initrd, 0, None),
            (What::Raw(0), 0x7fff_ffff_ffff_ffff, None),
        ],
        &[
            placed_item!(Some(Source::File(1)), 0, 0, 0, true),
            placed_item!(Some(Source::File(0)), 0x7fff_ffff_ffff_ffff, 0xfff, 0, true),
        ],
        0,
    ),
];

fn check_items(rt: &impl Abort, placed: &Placed, wanted: &[PlacedItem]) {
    check(rt, placed.items() == wanted, "the items");
}

fn placed(
    rt: &impl Abort,
    alloc: Global,
    ram: &[Stretch],
    items: Vec<Item>,
    files: &[Vec<u8>],
) -> Placed {
    outcome(rt, alloc, ram, items, files).expect(rt, "it is placed")
}

/// How many bytes the first item has.
fn first_len(placed: &Placed, files: &[Vec<u8>]) -> usize {
    let source = placed.items().first().and_then(|item| item.source);
    source.map_or(0, |source| placed.bytes(files, source).len())
}

fn check_row(rt: &impl Abort, alloc: Global, row: &Row) {
    let (contents, asked, wanted, len) = row;
    let files = files(rt, alloc, contents);
    let placed = placed(rt, alloc, &SMALL, items(rt, alloc, asked), &files);
    check_items(rt, &placed, wanted);
    check(rt, placed.edited().is_none(), "no devicetree is changed");
    check(rt, first_len(&placed, &files) == *len, "the first's bytes");
}

#[test]
fn items_as_they_are_placed(rt: HostRuntime) {
    for row in &ROWS {
        check_row(&rt, rt.alloc(), row);
    }
}

/// A devicetree and a kernel.
const BOOTED: [Asked; 2] = [
    (What::Dtb, 0x4800_0000, None),
    (What::Kernel, 0x4000_0000, None),
];

const BOOT_RECS: [PlacedRec; 2] = [
    PlacedRec {
        pc: 0x4008_0000,
        x: [0x4800_0000, 0, 0, 0, 0, 0, 0, 0],
        runnable: true,
    },
    PlacedRec {
        pc: 0,
        x: [0; 8],
        runnable: true,
    },
];

/// Whether two items are placed, at these addresses.
fn are_at(placed: &Placed, first: u64, second: u64) -> bool {
    match placed.items() {
        [one, other] => one.address == first && other.address == second,
        _ => false,
    }
}

#[test]
fn boot_values(rt: HostRuntime) {
    let files = files(&rt, rt.alloc(), &[&OFFSET_IMAGE, &[], &EMPTY]);
    let items = items(&rt, rt.alloc(), &BOOTED);
    let placed = placed(&rt, rt.alloc(), &LARGE, items, &files);
    check(&rt, are_at(&placed, 0x4800_0000, 0x4008_0000), "addresses");
    check(&rt, placed.recs() == BOOT_RECS.as_slice(), "RECs");
}

const EDITED: [PlacedItem; 1] = [placed_item!(Some(Source::Edited(3)), 0x4000_0008, 8, 1, true)];

/// A devicetree whose command line is to be `quiet`.
fn quiet(rt: &impl Abort, alloc: Global) -> Vec<Item> {
    let text = String::from_str(alloc, "quiet").expect(rt, "memory");
    let edits = Edits {
        bootargs: Bootargs::new(text),
        initrd: false,
        memory: false,
    };
    let item = item(rt, ItemKind::Dtb { file: 2, edits }, 0x4000_0008, None);
    let mut items = Vec::new(alloc);
    items.push(item).expect(rt, "memory");
    items
}

/// The bytes of a source.
fn check_bytes(rt: &impl Abort, placed: &Placed, files: &[Vec<u8>], source: Source, bytes: &[u8]) {
    assert!(rt; placed.bytes(files, source) == bytes, "{source:?}");
}

#[test]
fn command_line(rt: HostRuntime) {
    let files = files(&rt, rt.alloc(), &[&[], &[], &EMPTY]);
    let items = quiet(&rt, rt.alloc());
    let placed = placed(&rt, rt.alloc(), &SMALL, items, &files);
    check_items(&rt, &placed, &EDITED);
    let is_chosen = placed.edited() == Some(CHOSEN.as_slice());
    check(&rt, is_chosen, "the devicetree");
    check_bytes(&rt, &placed, &files, Source::Edited(3), &CHOSEN);
    check_bytes(&rt, &placed, &files, Source::Edited(4), &[]);
}

/// A devicetree that is to have the places of RAM and of the initrd, and the initrd.
const BOTH: [Asked; 2] = [
    (What::Both, 0x4000_0000, None),
    (What::Initrd, 0x4000_1000, Some(4097)),
];

/// A path, a name and the value in the changed devicetree.
type Value = (&'static [u8], &'static [u8], &'static [u8]);

const VALUES: [Value; 3] = [
    (
        b"/chosen",
        b"linux,initrd-start",
        &[0, 0, 0, 0, 0x40, 0, 0x10, 0],
    ),
    (
        b"/chosen",
        b"linux,initrd-end",
        &[0, 0, 0, 0, 0x40, 0, 0x10, 5],
    ),
    (
        b"/memory@40000000",
        b"reg",
        &[0, 0, 0, 0, 0x40, 0, 0, 0, 0, 0x20, 0, 0],
    ),
];

fn check_value(rt: &impl Abort, tree: &Tree, row: &Value) {
    let (path, name, value) = row;
    let found = tree.get(path, name);
    assert!(rt; found == Some(value), "at {path:?}, {name:?}");
}

/// The changed devicetree.
fn edited(rt: &impl Abort, alloc: Global, placed: &Placed) -> Tree {
    let bytes = placed.edited().expect(rt, "a devicetree was changed");
    fdt_tree::read(alloc, bytes).expect(rt, "it is read")
}

fn check_values(rt: &impl Abort, tree: &Tree) {
    for row in &VALUES {
        check_value(rt, tree, row);
    }
}

#[test]
fn places_of_initrd_and_memory(rt: HostRuntime) {
    let files = files(&rt, rt.alloc(), &[&[], &[1; 5], &EMPTY]);
    let items = items(&rt, rt.alloc(), &BOTH);
    let placed = placed(&rt, rt.alloc(), &SMALL, items, &files);
    check(&rt, last_pages(&placed) == 2, "pages of the initrd");
    check_values(&rt, &edited(&rt, rt.alloc(), &placed));
}
