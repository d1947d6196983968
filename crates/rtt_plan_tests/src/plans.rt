//! Regions and pages, and the acts that they ask for.
use crate::plans::Ask::{Data, Ram, Walk};
use crate::plans::Plan::{Acts, Count, Fault};
use rtt_plan::PlanFault::{
    DataTwice, NotRam, OutsideProtected, RipasTwice, TooManyEntries, Unaligned,
};
use rtt_plan::{Act, PlanFault, Tables, start_of};
use std::process::Abort;

macro_rules! table {
    ($base:expr, $level:expr) => {
        Act::Table {
            base: $base,
            level: $level,
        }
    };
}

macro_rules! run {
    ($base:expr, $top:expr, $level:expr) => {
        Act::Run {
            base: $base,
            top: $top,
            level: $level,
        }
    };
}

macro_rules! pages {
    ($base:expr, $count:expr) => {
        Act::Pages {
            base: $base,
            count: $count,
        }
    };
}

/// The acts of a plan, how many they are, or why there is none.
#[derive(Clone, Copy)]
enum Plan {
    Acts(&'static [Act]),
    Count(usize),
    Fault(PlanFault),
}

/// What tables are asked, and what they answer.
#[derive(Clone, Copy)]
enum Ask {
    /// To make a region RAM, from its first address to the first past it.
    Ram(u64, u64, Plan),
    /// From an address on, to give data to this many pages.
    Data(u64, u64, Plan),
    /// An address, and the level at which its walk ends.
    Walk(u64, u8),
}

fn is_planned(found: &Result<Vec<Act>, PlanFault>, plan: &Plan) -> bool {
    match (found, plan) {
        (Ok(made), Acts(acts)) => made.as_slice() == *acts,
        (Ok(made), Count(count)) => made.len() == *count,
        (Err(found), Fault(fault)) => found == fault,
        _ => false,
    }
}

/// Compares a plan from `base` on. There is one place for this, since each comparison is proved.
fn check_plan(rt: &impl Abort, found: Result<Vec<Act>, PlanFault>, base: u64, plan: &Plan) {
    assert!(rt; is_planned(&found, plan), "at {base:x}");
}

fn check_walk(rt: &impl Abort, tables: &Tables, ipa: u64, level: u8) {
    assert!(rt; tables.walk_level(ipa) == level, "at {ipa:x}");
}

fn check(rt: &impl Abort, tables: &mut Tables, ask: &Ask) {
    match *ask {
        Ram(base, end, plan) if base < end => {
            check_plan(rt, tables.ripas_runs(base, end), base, &plan)
        }
        Data(base, count, plan) if 1 <= count => {
            check_plan(rt, tables.data_pages(base, count), base, &plan)
        }
        Walk(ipa, level) => check_walk(rt, tables, ipa, level),
        _ => panic!(rt; "a region or data without pages"),
    }
}

fn check_all(rt: &impl Abort, mut tables: Tables, asks: &[Ask]) {
    for ask in asks {
        check(rt, &mut tables, ask);
    }
}

const PAST_2_MIB: [Act; 3] = [
    run!(0x4000_0000, 0x4020_0000, 2),
    table!(0x4020_0000, 3),
    run!(0x4020_0000, 0x4020_1000, 3),
];

const REGION_THAT_ENDS_PAST_2_MIB: [Ask; 3] = [
    Ram(0x4000_0000, 0x4020_1000, Acts(&PAST_2_MIB)),
    Walk(0x4020_0fff, 3),
    Walk(0x4000_0000, 2),
];

const FROM_4_KIB: [Act; 3] = [
    table!(0x4000_0000, 3),
    run!(0x4000_1000, 0x4020_0000, 3),
    run!(0x4020_0000, 0x4040_0000, 2),
];

const BASE_AT_4_KIB: [Ask; 1] = [Ram(0x4000_1000, 0x4040_0000, Acts(&FROM_4_KIB))];

const LARGE_BLOCKS: [Act; 1] = [run!(0x4000_0000, 0xc000_0000, 1)];

const BLOCKS_OF_1_GIB: [Ask; 1] = [Ram(0x4000_0000, 0xc000_0000, Acts(&LARGE_BLOCKS))];

const SMALL_BLOCKS: [Act; 4] = [
    table!(0x4000_0000, 2),
    run!(0x4000_0000, 0x8000_0000, 2),
    table!(0x8000_0000, 2),
    run!(0x8000_0000, 0xc000_0000, 2),
];

const BLOCKS_OF_2_MIB: [Ask; 1] = [Ram(0x4000_0000, 0xc000_0000, Acts(&SMALL_BLOCKS))];

const IN_A_LARGE_BLOCK: [Act; 3] = [
    table!(0x4000_0000, 2),
    table!(0x4000_0000, 3),
    pages!(0x4000_0000, 1),
];

const SECOND: [Act; 2] = [table!(0xc000_0000, 2), run!(0xc000_0000, 0xc020_0000, 2)];

/// A page in such a block, and then a second region.
const IN_BLOCKS_OF_1_GIB: [Ask; 5] = [
    Ram(0x4000_0000, 0xc000_0000, Acts(&LARGE_BLOCKS)),
    Data(0x4000_0000, 1, Acts(&IN_A_LARGE_BLOCK)),
    Data(0x4000_0000, 2, Fault(DataTwice)),
    Ram(0xc000_0000, 0xc020_0000, Acts(&SECOND)),
    Ram(0x7fff_f000, 0x8000_0000, Fault(RipasTwice)),
];

const LAST_BLOCK: [Act; 1] = [run!(0xffe0_0000, 0x1_0000_0000, 2)];

const END_OF_THE_PROTECTED_HALF: [Ask; 6] = [
    Ram(0xffe0_0000, 0x1_0000_1000, Fault(OutsideProtected)),
    Ram(0xffe0_0001, u64::MAX, Fault(OutsideProtected)),
    Ram(0xffe0_0000, 0x1_0000_0000, Acts(&LAST_BLOCK)),
    Data(0xffff_f000, 2, Fault(OutsideProtected)),
    Data(0xffff_ffff_ffff_f000, 1, Fault(OutsideProtected)),
    Data(0, u64::MAX, Fault(OutsideProtected)),
];

const TWO_PAGES: [Act; 2] = [table!(0x4000_0000, 3), run!(0x4000_0000, 0x4000_2000, 3)];

const BESIDE: [Act; 1] = [run!(0x4000_2000, 0x4000_3000, 3)];

const FAULTS_IN_THEIR_ORDER: [Ask; 14] = [
    Data(0x4000_0000, 1, Fault(NotRam)),
    Ram(0x4000_0001, 0x4000_2000, Fault(Unaligned)),
    Ram(0x4000_0000, 0x4000_2001, Fault(Unaligned)),
    Ram(0x4000_0000, 0x4000_2000, Acts(&TWO_PAGES)),
    Ram(0x4000_0001, 0x4000_2000, Fault(Unaligned)),
    Ram(0x4000_0000, 0x4000_2001, Fault(Unaligned)),
    Ram(0x4000_1000, 0x4000_3000, Fault(RipasTwice)),
    Ram(0x3fff_f000, 0x4000_1000, Fault(RipasTwice)),
    Ram(0x4000_0001, 0x1_0000_0001, Fault(OutsideProtected)),
    Data(0x4000_0001, 1, Fault(Unaligned)),
    Data(0x4000_1000, 1, Acts(&[pages!(0x4000_1000, 1)])),
    Data(0x4000_0000, 2, Fault(DataTwice)),
    Data(0x4000_1000, 2, Fault(NotRam)),
    Ram(0x4000_2000, 0x4000_3000, Acts(&BESIDE)),
];

const FIRST_BLOCK: [Act; 4] = [
    table!(0, 1),
    table!(0, 2),
    table!(0, 3),
    run!(0, 0x20_0000, 3),
];

const ENTRIES_OF_A_LAUNCH: [Ask; 4] = [
    Ram(0, 0x4_0000_1000, Fault(TooManyEntries)),
    Ram(0, 0x20_0000, Acts(&FIRST_BLOCK)),
    Ram(0x1f_f000, 0x4_0020_0000, Fault(RipasTwice)),
    Ram(0x20_0000, 0x4_0000_1000, Fault(TooManyEntries)),
];

/// 16 GiB of pages of 4 KiB: 8,192 runs, their tables of level 3, 16 of level 2 and one of level 1.
const MOST_ENTRIES: [Ask; 2] = [
    Ram(0, 0x4_0000_0000, Count(8192 + 8192 + 16 + 1)),
    Ram(0x4_0000_0000, 0x4_0000_1000, Fault(TooManyEntries)),
];

/// 4 GiB of RAM as blocks of 2 MiB, and data in each page of it, by two calls: 524,288 pages each, and a table
/// of level 3 for each 512.
const MOST_PAGES: [Ask; 5] = [
    Ram(0, 0x1_0000_0000, Count(4)),
    Data(0, 524_288, Count(1024 + 1024)),
    Data(0x8000_0000, 524_288, Count(1024 + 1024)),
    Data(0x7fff_f000, 1, Fault(DataTwice)),
    Data(0, 1_048_576, Fault(DataTwice)),
];

/// The acts of pages that two level 3 tables cover.
const OVER_TWO_TABLES: [Act; 4] = [
    table!(0x4000_0000, 3),
    pages!(0x4010_0000, 256),
    table!(0x4020_0000, 3),
    pages!(0x4020_0000, 512),
];

const PAGES_OVER_TWO_TABLES: [Ask; 2] = [
    Ram(0x4000_0000, 0x4060_0000, Count(1)),
    Data(0x4010_0000, 768, Acts(&OVER_TWO_TABLES)),
];

/// What tables are asked for IPAs of 33 bits, with blocks of 2 MiB.
const OF_33_BITS: [&[Ask]; 6] = [
    &REGION_THAT_ENDS_PAST_2_MIB,
    &BASE_AT_4_KIB,
    &END_OF_THE_PROTECTED_HALF,
    &FAULTS_IN_THEIR_ORDER,
    &MOST_PAGES,
    &PAGES_OVER_TWO_TABLES,
];

#[test]
fn blocks_of_level_2(rt: HostRuntime) {
    for asks in &OF_33_BITS {
        check_all(&rt, Tables::new(rt.alloc(), 33, 2), asks);
    }
    check_all(&rt, Tables::new(rt.alloc(), 40, 2), &BLOCKS_OF_2_MIB);
}

#[test]
fn blocks_of_level_1(rt: HostRuntime) {
    check_all(&rt, Tables::new(rt.alloc(), 40, 1), &BLOCKS_OF_1_GIB);
    check_all(&rt, Tables::new(rt.alloc(), 40, 1), &IN_BLOCKS_OF_1_GIB);
}

#[test]
fn pages_of_level_3(rt: HostRuntime) {
    check_all(&rt, Tables::new(rt.alloc(), 48, 3), &ENTRIES_OF_A_LAUNCH);
    check_all(&rt, Tables::new(rt.alloc(), 48, 3), &MOST_ENTRIES);
}

/// The width of IPAs in bits, and the level and the number of their start tables.
const STARTS: [(u8, Option<(u8, u8)>); 9] = [
    (31, None),
    (32, Some((2, 4))),
    (34, Some((2, 16))),
    (35, Some((1, 1))),
    (40, Some((1, 2))),
    (43, Some((1, 16))),
    (44, Some((0, 1))),
    (48, Some((0, 1))),
    (49, None),
];

fn check_start(rt: &impl Abort, s2sz: u8, start: Option<(u8, u8)>) {
    assert!(rt; start_of(s2sz) == start, "{s2sz} bits");
}

#[test]
fn start_tables(rt: HostRuntime) {
    for (s2sz, start) in &STARTS {
        check_start(&rt, *s2sz, *start);
    }
}
