//! The chain of a launch is what a monitor holds after the launch's list: both are made of the digests of its pages.
ghost use Rattle.std.specs.Prelude.{◌≡◌, ◌<◌, length, Ok};
ghost use Rattle.rim_desc.specs.declared.measurement.Algo.TheVariants.{Sha256};
ghost use Rattle.rmi_list.specs.Listed.{listed};

use crate::launches::{NOTHING, Parts, WIDE, check, config, files_of, launch_of, placed_of};
use ipa_layout::{Placed, PlacedItem};
use page_jobs::{Blob, DigestRow, Page, PageJob, Table};
use page_jobs_tests::distinct_pages;
use rim_chain::{LaunchPlan, chain};
use rim_desc::{Algo, Measurement, Source};
use rim_launch::{Config, Launch, Step};
use rmi_list::{Plan, list};
use rmm_monitor::Monitor;
use std::alloc::Global;
use std::process::Abort;

/// A page of an item, which has this source and these bytes.
fn page_of<'a>(item: &PlacedItem, source: Source, bytes: &'a [u8], page: u64) -> Option<Page<'a>> {
    if item.lead < 4096 && page < 0x10_0000 {
        Some(Blob::new(source, item.lead, bytes).page(Algo::Sha256, page))
    } else {
        None
    }
}

/// The page that a command creates, where it is measured.
fn page_at<'a>(
    placed: &'a Placed,
    plan: &Plan,
    files: &'a [Vec<u8>],
    index: usize,
) -> Option<Page<'a>>
    requires { index < length plan.now }
{
    let (number, page) = plan.page_of(index)?;
    let item = placed.items().get(number)?;
    let source = item.source?;
    page_of(item, source, placed.bytes(files, source), page)
}

/// The measured pages of a list, each as often as it is created.
fn pages_of<'a>(
    rt: &impl Abort,
    alloc: Global,
    placed: &'a Placed,
    plan: &Plan,
    files: &'a [Vec<u8>],
) -> Vec<Page<'a>> {
    let mut pages = Vec::new(alloc);
    for index in 0..plan.len() {
        if let Some(page) = page_at(placed, plan, files, index) {
            pages.push(page).expect(rt, "memory");
        }
    }
    pages
}

/// Puts the digest of each page into its slot.
fn fill(table: &mut Table) {
    for (slot, page) in table.pages().iter().enumerate() {
        let _ = table.fill(slot, PageJob::new(*page).run());
    }
}

/// The digest of a command's page, where it creates a measured one: the next of those that are left.
fn next_content(plan: &Plan, index: usize, rest: &mut &[Measurement]) -> Measurement
    requires { index < length plan.now }
{
    if plan.page_of(index).is_some()
        && let Some((first, others)) = rest.split_first()
    {
        *rest = others;
        *first
    } else {
        Measurement { bytes: [0; 64] }
    }
}

/// What a monitor holds after the commands of a list, whose measured pages have these digests in order.
fn followed(
    rt: &impl Abort,
    alloc: Global,
    launch: &Launch,
    plan: &Plan,
    digests: &[Measurement],
) -> Option<Measurement> {
    let mut monitor = Monitor::new(alloc, launch.config().num_aux, launch.config().rec_rule);
    let mut rest = digests;
    for index in 0..plan.len() {
        let content = next_content(plan, index, &mut rest);
        let answer = monitor.apply(&plan.command(index, &content));
        check(rt, answer.is_ok(), "a command is taken");
    }
    monitor.rim()
}

/// The digests of a launch's measured pages in a table, in order, and their chain.
fn chained(
    rt: &impl Abort,
    alloc: Global,
    launch: &Launch,
    placed: &Placed,
    commands: &Plan,
    table: &Table,
) -> (DigestRow, Measurement)
    requires algo { launch.now.config.algo ≡ Sha256 }
    requires list { listed launch.now placed.now ≡ Ok commands.now }
{
    let plan = LaunchPlan::read(alloc, Algo::Sha256, launch, placed, commands);
    let plan = plan.expect(rt, "a plan");
    let mut row = DigestRow::reserve(alloc, plan.pages()).expect(rt, "memory");
    if !plan.fill_row(table, &mut row) {
        panic!(rt; "a page has no digest");
    }
    let rim = chain(&plan, &row);
    (row, rim)
}

/// The chain of a launch's measured pages is what a monitor holds after its list. They are this many.
fn check_chain(
    rt: &impl Abort,
    alloc: Global,
    launch: &Launch,
    placed: &Placed,
    commands: &Plan,
    files: &[Vec<u8>],
    measured: usize,
)
    requires algo { launch.now.config.algo ≡ Sha256 }
    requires list { listed launch.now placed.now ≡ Ok commands.now }
{
    let mut pages = pages_of(rt, alloc, placed, commands, files);
    distinct_pages(&mut pages);
    let mut table = Table::reserve(alloc, &pages).expect(rt, "memory");
    fill(&mut table);
    let (row, rim) = chained(rt, alloc, launch, placed, commands, &table);
    check(rt, row.digests().len() == measured, "how many pages");
    let held = followed(rt, alloc, launch, commands, row.digests());
    check(rt, held == Some(rim), "what the monitor holds");
}

fn check_row(rt: &impl Abort, alloc: Global, row: &Row) {
    let (_, config, parts, measured) = row;
    let launch = launch_of(rt, alloc, config, parts);
    let files = files_of(rt, alloc);
    if !launch.has_files(files.len()) || launch.config().algo != Algo::Sha256 {
        panic!(rt; "no files");
    }
    let placed = placed_of(rt, alloc, &launch, &files);
    let commands = list(alloc, &launch, &placed).expect(rt, "a list");
    check_chain(rt, alloc, &launch, &placed, &commands, &files, *measured);
}

const GIB: u64 = 0x4000_0000;

/// A configuration, the parts of a launch, and how many measured pages it has.
type Row = (&'static str, Config, Parts, usize);

const ROWS: [Row; 4] = [
    ("nothing but a realm", WIDE, NOTHING, 0),
    (
        "a page of data that is not measured in a block of 1 GiB",
        WIDE,
        Parts {
            ram: &[(GIB, 0xc000_0000)],
            items: &[(GIB, 4096, false)],
            ..NOTHING
        },
        0,
    ),
    (
        "pages with and without a lead, and a second region by a later step",
        WIDE,
        Parts {
            ram: &[(GIB, 0xc000_0000), (0xc000_0000, 0xc020_0000)],
            items: &[
                (GIB, 8192, true),
                (0x4010_0004, 4096, true),
                (0x4020_0000, 12288, false),
                (0x4030_0000, 0, true),
            ],
            steps: &[
                Step::Ram(0),
                Step::Item(1),
                Step::Item(2),
                Step::Item(0),
                Step::Item(3),
                Step::Ram(1),
            ],
            ..NOTHING
        },
        4,
    ),
    (
        "pages of RAM, a page of data and two RECs with auxiliary granules",
        config!(33, 3, 2, 16_777_216),
        Parts {
            ram: &[(GIB, 0x4020_2000)],
            items: &[(0x4020_1000, 4096, true)],
            recs: &[true, true],
            ..NOTHING
        },
        1,
    ),
];

#[test]
fn chains_are_what_a_monitor_holds(rt: HostRuntime) {
    for row in &ROWS {
        check_row(&rt, rt.alloc(), row);
    }
}
