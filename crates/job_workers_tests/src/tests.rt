mod beside;
mod late;
mod own_pages;
mod runs;
mod waiting;

ghost use Rattle.std.specs.Prelude.{◌≡◌, ◌≤◌, ◌<◌, length, map, replicate, vec_len, IfOk, None};
ghost use Rattle.std.specs.List.{All, Contains};
ghost use Rattle.page_jobs.specs.Key.{IsRising};
ghost use Rattle.page_jobs.specs.Page.{page_view};
ghost use Rattle.page_jobs.specs.Table.{page_keys_of};
ghost use Rattle.launch_plan.specs.Links.{keys_of as link_keys};

use job_board::{BoardState, Run, Share};
use job_board_tests::has_all_keys;
use job_workers::{Board, Gate, run_workers_on};
use page_jobs::{Blob, Page, PageKey, Table};
use page_jobs_tests::distinct_pages;
use refusal::NoMemory;
use rim_chain::{LaunchPlan, Link};
use rim_desc::{Algo, Measurement, NO_NUMBERS, RealmParams, Source};
use std::alloc::Global;
use std::marker::Brand;
use std::process::Abort;
use std::sync::Wait;
use std::sync::ledger::Blank;
use std::thread::Threads;

/// The stack of each worker that is to be started.
const STACK: usize = 1 << 20;

fn check(rt: &impl Abort, holds: bool, name: &str) {
    assert!(rt; holds, "{name}");
}

/// The pages of file 0 from the first on.
fn pages_of(alloc: Global, bytes: &[u8], count: u16) -> Result<Vec<Page<'_>>, NoMemory>
    ensures { IfOk result (λ pages. IsRising (page_keys_of (map page_view pages.items))) }
{
    let mut pages = Vec::new(alloc);
    for number in 0..count {
        let blob = Blob::new(Source::File(0), 0, bytes);
        pages.push(blob.page(Algo::Sha256, u64::from(number)))?;
    }
    distinct_pages(&mut pages);
    Ok(pages)
}

const REALM: RealmParams = RealmParams {
    flags: 0,
    s2sz: 33,
    numbers: NO_NUMBERS,
    rtt_level_start: 2,
    rtt_num_start: 1,
    algo: Algo::Sha256,
    rpv: [0; 64],
    rtt_base: 0,
};

/// The plan of a launch that measures the first pages of a file.
fn plan_of(rt: &impl Abort, alloc: Global, file: usize, count: u64) -> LaunchPlan {
    plan_at(rt, alloc, 0x4000_0000, file, count)
}

/// The same at an address.
fn plan_at(rt: &impl Abort, alloc: Global, ipa: u64, file: usize, count: u64) -> LaunchPlan {
    let key = PageKey {
        algo: Algo::Sha256,
        source: Source::File(file),
        lead: 0,
        number: 0,
    };
    let link = Link::Pages { ipa, key, count };
    let links = Vec::from_slice(alloc, &[link]).expect(rt, "memory");
    LaunchPlan::new(REALM, links).expect(rt, "the link fits")
}

/// The plans of this many launches, all of which measure the first pages of file 0, each at an address of its own.
fn plans_of(rt: &impl Abort, alloc: Global, launches: u64, count: u64) -> Vec<LaunchPlan> {
    let mut plans = Vec::new(alloc);
    for launch in 0..launches {
        let ipa = 0x4000_0000u64.saturating_add(launch.saturating_mul(0x10_0000));
        plans
            .push(plan_at(rt, alloc, ipa, 0, count))
            .expect(rt, "memory");
    }
    plans
}

/// Runs this many workers over the pages of a table and over plans, and answers the launches' values.
fn run_by<'a, L: Run + Send + Sync, G: Gate + Sync, R: Threads + Wait + Sync>(
    rt: &R,
    alloc: Global,
    blank: Blank,
    workers: usize,
    table: Table<'a>,
    plans: &'a [LaunchPlan],
    gate: &mut G,
) -> Result<Vec<Measurement>, NoMemory>
    requires name { blank.name ≡ L.name }
    requires parts { (blank.parts ≡ L.parts) × (blank.parts ≡ workers) }
    requires workers { (1 ≤ workers) × (workers ≤ 64) }
    requires pages { table.pages ≡ L.pages }
    requires plans { plans.now ≡ L.plans }
    requires keys { All
        (λ p. All (Contains (page_keys_of table.pages)) (link_keys p.links))
        plans.now }
    requires empty { table.digests ≡ replicate (length table.pages) None }
{
    let lanes = gate.lanes();
    let (state, shares) = BoardState::<L>::with_lanes(alloc, blank, workers, table, plans, lanes)?;
    run_on(rt, alloc, &Board::new(state), shares, plans.len(), gate)
}

/// Runs as many workers as there are shares, and answers the values of this many launches.
fn run_on<L: Run + Send + Sync, G: Gate + Sync, R: Threads + Wait + Sync>(
    rt: &R,
    alloc: Global,
    board: &Board<'_, L>,
    shares: Vec<Share<L>>,
    launches: usize,
    gate: &mut G,
) -> Result<Vec<Measurement>, NoMemory>
    requires whole { vec_len shares ≡ L.parts }
    requires some { 0 < vec_len shares }
    requires launches { launches ≡ length L.plans }
{
    let mut counts = vec![in alloc; 0; shares.len()]?;
    let mut values = vec![in alloc; Measurement { bytes: [0; 64] }; launches]?;
    run_workers_on(rt, gate, board, shares, &mut counts, &mut values, STACK);
    Ok(values)
}

/// The values of a run by this many workers over pages, which all pages of the plans are among.
fn values_by<G: Gate + Sync, R: Threads + Wait + Abort + Sync>(
    rt: &R,
    alloc: Global,
    workers: usize,
    pages: &[Page<'_>],
    plans: &[LaunchPlan],
    gate: &mut G,
) -> Result<Vec<Measurement>, NoMemory>
    requires workers { (1 ≤ workers) × (workers ≤ 64) }
    requires rising { IsRising (page_keys_of (map page_view pages.now)) }
{
    let table = Table::reserve(alloc, pages)?;
    if !has_all_keys(&table, plans) {
        panic!(rt; "the launches' pages exist");
    }
    let blank = Blank::new(workers as u64);
    run_by::<Brand, G, R>(rt, alloc, blank, workers, table, plans, gate)
}
