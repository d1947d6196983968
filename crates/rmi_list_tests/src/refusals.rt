//! Launches without a list, each beside one that has a list; and which reason comes first where two hold.
use crate::launches::{CONFIG, NOTHING, Parts, check, config, launch_of, list_of};
use rim_launch::{Config, Step};
use rmi_list::ListFault;
use rmi_list::ListFault::{Plan, PoolEnd, RecNotRunnable, RecOrder, TooManyRecs};
use rtt_plan::PlanFault::{NotRam, OutsideProtected, RipasTwice, TooManyEntries, Unaligned};
use std::alloc::Global;
use std::process::Abort;

/// A table and two runs: one granule after those of the realm.
const PAST_A_BLOCK: Parts = Parts {
    ram: &[(0x4000_0000, 0x4020_1000)],
    ..NOTHING
};

/// Two regions that share a page.
const TWICE: Parts = Parts {
    ram: &[(0x4000_0000, 0x4000_2000), (0x4000_1000, 0x4000_3000)],
    ..NOTHING
};

/// An item whose step comes before that of its region.
const ITEM_FIRST: Parts = Parts {
    ram: &[(0x4000_0000, 0x4020_0000)],
    items: &[(0x4000_0000, 4096, true)],
    steps: &[Step::Item(0), Step::Ram(0)],
    ..NOTHING
};

/// An item after its region: a table and a page, two granules.
const ITEM: Parts = Parts {
    ram: &[(0x4000_0000, 0x4020_0000)],
    items: &[(0x4000_0000, 4096, true)],
    ..NOTHING
};

const REC: Parts = Parts {
    recs: &[true],
    ..NOTHING
};

const STOPPED_REC: Parts = Parts {
    recs: &[false],
    ..NOTHING
};

/// The second REC comes first, and it is not runnable.
const RECS_TURNED: Parts = Parts {
    recs: &[true, false],
    steps: &[Step::Rec(1), Step::Rec(0)],
    ..NOTHING
};

const MOST_RECS: Parts = Parts {
    recs: &[true; 512],
    ..NOTHING
};

const TOO_MANY_RECS: Parts = Parts {
    recs: &[true; 513],
    ..NOTHING
};

/// The last 2 MiB of the protected half.
const LAST_BLOCK: Parts = Parts {
    ram: &[(0xffe0_0000, 0x1_0000_0000)],
    ..NOTHING
};

const PAST_THE_HALF: Parts = Parts {
    ram: &[(0xffe0_0000, 0x1_0000_1000)],
    ..NOTHING
};

const ODD: Parts = Parts {
    ram: &[(0x4000_0000, 0x4000_0800)],
    ..NOTHING
};

/// 4,194,305 pages.
const TOO_MANY_PAGES: Parts = Parts {
    ram: &[(0, 0x4_0000_1000)],
    ..NOTHING
};

/// IPAs of 33 bits, blocks of 2 MiB, and this many granules.
macro_rules! pool {
    ($pool_count:expr) => {
        config!(33, 2, 0, $pool_count)
    };
}

/// A configuration, parts, and the fault if there is one.
type Row = (&'static str, Config, &'static Parts, Option<ListFault>);

const ROWS: [Row; 24] = [
    ("a pool of 9", pool!(9), &NOTHING, None),
    ("a pool of 8", pool!(8), &NOTHING, Some(PoolEnd)),
    ("a pool of 1", pool!(1), &NOTHING, Some(PoolEnd)),
    (
        "a table in the last granule",
        pool!(10),
        &PAST_A_BLOCK,
        None,
    ),
    (
        "a table past the pool",
        pool!(9),
        &PAST_A_BLOCK,
        Some(PoolEnd),
    ),
    ("a page in the last granule", pool!(11), &ITEM, None),
    ("a page past the pool", pool!(10), &ITEM, Some(PoolEnd)),
    ("a page set twice", CONFIG, &TWICE, Some(Plan(RipasTwice))),
    ("no RAM", CONFIG, &ITEM_FIRST, Some(Plan(NotRam))),
    (
        "no RAM and no granule",
        pool!(9),
        &ITEM_FIRST,
        Some(Plan(NotRam)),
    ),
    ("a REC in the last granule", pool!(10), &REC, None),
    ("a REC past the pool", pool!(9), &REC, Some(PoolEnd)),
    (
        "a REC with an auxiliary granule",
        config!(33, 2, 1, 11),
        &REC,
        None,
    ),
    (
        "an auxiliary granule past the pool",
        config!(33, 2, 1, 10),
        &REC,
        Some(PoolEnd),
    ),
    (
        "a REC that is not runnable",
        CONFIG,
        &STOPPED_REC,
        Some(RecNotRunnable),
    ),
    (
        "not runnable, and no granule",
        pool!(9),
        &STOPPED_REC,
        Some(RecNotRunnable),
    ),
    ("RECs turned", CONFIG, &RECS_TURNED, Some(RecOrder)),
    ("512 RECs", CONFIG, &MOST_RECS, None),
    ("513 RECs", CONFIG, &TOO_MANY_RECS, Some(TooManyRecs)),
    (
        "513 RECs and a pool of 1",
        pool!(1),
        &TOO_MANY_RECS,
        Some(TooManyRecs),
    ),
    ("the end of the protected half", CONFIG, &LAST_BLOCK, None),
    (
        "past the protected half",
        CONFIG,
        &PAST_THE_HALF,
        Some(Plan(OutsideProtected)),
    ),
    (
        "a region that is no whole page",
        CONFIG,
        &ODD,
        Some(Plan(Unaligned)),
    ),
    (
        "too many entries",
        config!(48, 3, 0, 16_777_216),
        &TOO_MANY_PAGES,
        Some(Plan(TooManyEntries)),
    ),
];

fn check_fault(rt: &impl Abort, alloc: Global, row: &Row) {
    let (name, config, parts, fault) = row;
    let launch = launch_of(rt, alloc, config, parts);
    check(rt, list_of(rt, alloc, &launch).err() == *fault, name);
}

#[test]
fn refusals(rt: HostRuntime) {
    for row in &ROWS {
        check_fault(&rt, rt.alloc(), row);
    }
}
