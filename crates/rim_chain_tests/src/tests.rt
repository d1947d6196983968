//! The launch of these tests has two blocks of RAM, two pages of an item that begins 16 bytes after the start of its
//! first page, a page that is not measured, and a REC. The item has 4097 bytes, of which byte i is (7 * i + 3) mod 251.
mod chains;
mod going_on;
mod plans;
mod side_by_side;

ghost use Rattle.launch_plan.specs.Links.{keys_of};
ghost use Rattle.launch_plan.specs.Rows.{IsFilled, IsRowOf};

use page_jobs::{DigestRow, Page, PageJob, PageKey, Table};
use rim_chain::{LaunchPlan, Link};
use rim_desc::{Algo, NO_NUMBERS, RealmNumbers, RealmParams, RecParams, Source, hash, rec_page};
use std::alloc::Global;
use std::process::Abort;

const LEAD: u64 = 16;

fn check(rt: &impl Abort, holds: bool, name: &str) {
    assert!(rt; holds, "{name}");
}

fn item(rt: &impl Abort, alloc: Global) -> Vec<u8> {
    let mut bytes = Vec::new(alloc);
    for i in 0..4097u32 {
        bytes.push(((7 * i + 3) % 251) as u8).expect(rt, "memory");
    }
    bytes
}

fn realm(algo: Algo) -> RealmParams {
    RealmParams {
        flags: 0,
        s2sz: 33,
        numbers: RealmNumbers {
            num_bps: 2,
            num_wps: 3,
            ..NO_NUMBERS
        },
        rtt_level_start: 2,
        rtt_num_start: 1,
        algo,
        rpv: [7; 64],
        rtt_base: 0x8_0000_0000,
    }
}

fn first_key(algo: Algo) -> PageKey {
    PageKey {
        algo,
        source: Source::File(0),
        lead: LEAD,
        number: 0,
    }
}

/// The plan of a launch with these links, where it may be.
fn plan_with(
    rt: &impl Abort,
    alloc: Global,
    realm: RealmParams,
    links: &[Link],
) -> Option<LaunchPlan> {
    LaunchPlan::new(realm, Vec::from_slice(alloc, links).expect(rt, "memory"))
}

/// A plan of blocks from an address on, two measured pages, pages that are not measured, and a REC.
fn plan_of(
    rt: &impl Abort,
    alloc: Global,
    realm: RealmParams,
    blocks: (u64, u64),
    unmeasured: u64,
    rec: &[u8],
) -> LaunchPlan {
    let (base, count) = blocks;
    let links = [
        Link::Blocks {
            base,
            size: 4096,
            count,
        },
        measured(realm.algo),
        Link::Unmeasured {
            ipa: 0x4010_0000,
            count: unmeasured,
        },
        Link::Rec {
            content: hash(realm.algo, rec),
        },
    ];
    plan_with(rt, alloc, realm, &links).expect(rt, "the links fit")
}

/// The two measured pages.
fn measured(algo: Algo) -> Link {
    Link::Pages {
        ipa: 0x4000_0000,
        key: first_key(algo),
        count: 2,
    }
}

/// The plan of the launch.
fn plan(rt: &impl Abort, alloc: Global, algo: Algo) -> LaunchPlan {
    let rec = RecParams::new(1, 0, 0x4000_0010, [7, 0, 0, 0, 0, 0, 0, 0], &[]);
    plan_of(rt, alloc, realm(algo), (0x4000_0000, 2), 1, &rec_page(&rec))
}

/// Puts a page's digest into its slot.
fn put<'a>(rt: &impl Abort, table: &mut Table<'a>, slot: usize, page: Page<'a>) {
    let is_kept = table.fill(slot, PageJob::new(page).run()).is_ok();
    check(rt, is_kept, "its slot");
}

/// A row with the digests of the plan's pages.
fn filled_row(rt: &impl Abort, alloc: Global, plan: &LaunchPlan, table: &Table) -> DigestRow
    ensures filled { IsFilled plan.now result.digests }
    ensures row { IsRowOf table.now (keys_of plan.now.links) result.digests }
{
    let mut row = DigestRow::reserve(alloc, plan.pages()).expect(rt, "memory");
    assert!(rt; plan.fill_row(table, &mut row));
    row
}
