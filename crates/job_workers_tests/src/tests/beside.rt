//! Runs in which a worker chains launches beside others.
ghost use Rattle.std.specs.Prelude.{◌≤◌, map};
ghost use Rattle.page_jobs.specs.Key.{IsRising};
ghost use Rattle.page_jobs.specs.Page.{page_view};
ghost use Rattle.page_jobs.specs.Table.{page_keys_of};

use super::{REALM, check, pages_of, plan_at, values_by};
use job_board::JobId;
use job_workers::Gate;
use page_jobs::{DigestRow, Page, PageJob};
use refusal::NoMemory;
use rim_chain::{LaunchPlan, Link, chain};
use rim_desc::{Lanes, Measurement};
use std::alloc::Global;
use std::process::Abort;
use std::sync::Wait;
use std::test::Fail;
use std::thread::Threads;

/// Three pages.
const BYTES: [u8; 12_288] = [7; 12_288];

/// Launches with nothing in common but pages: they measure one to three of these, each at addresses of its own.
const LAUNCHES: u64 = 19;

/// A gate of a program that was built for vectors of this width.
#[derive(Clone, Copy, Debug)]
struct WidthGate {
    lanes: Lanes,
}

impl Gate for WidthGate {
    fn before(&self, _worker: usize, _job: JobId) {}

    fn after(&self, _worker: usize, _job: JobId) {}

    fn lanes(&self) -> Lanes {
        self.lanes
    }

    fn lets_launches_wait(&self) -> bool {
        true
    }
}

fn plans(rt: &impl Abort, alloc: Global) -> Vec<LaunchPlan> {
    let mut plans = Vec::new(alloc);
    for number in 0..LAUNCHES {
        let ipa = 0x4000_0000 + number * 0x10_0000;
        let plan = plan_at(rt, alloc, ipa, 0, number % 3 + 1);
        plans.push(plan).expect(rt, "memory");
    }
    plans
}

/// Hashes a page into a row that has room for it.
fn push_digest(row: &mut DigestRow, page: &Page) {
    if row.digests().len() < row.room() {
        row.push(PageJob::new(*page).run().digest);
    }
}

/// A row with the digests of the first pages that a launch measures.
fn row_of(rt: &impl Abort, alloc: Global, plan: &LaunchPlan, pages: &[Page]) -> DigestRow {
    let mut row = DigestRow::reserve(alloc, plan.pages()).expect(rt, "memory");
    for page in pages {
        push_digest(&mut row, page);
    }
    row
}

/// What a launch chains to, with the digests of the first pages.
fn chained(rt: &impl Abort, alloc: Global, plan: &LaunchPlan, pages: &[Page]) -> Measurement {
    let row = row_of(rt, alloc, plan, pages);
    if row.digests().len() != plan.pages() {
        panic!(rt; "the row is filled");
    }
    chain(plan, &row)
}

/// A launch has the value that it chains to.
fn check_value(
    rt: &impl Abort,
    alloc: Global,
    plan: &LaunchPlan,
    pages: &[Page],
    value: &Measurement,
) {
    let want = chained(rt, alloc, plan, pages);
    check(rt, want == *value, "the value");
}

fn check_values(
    rt: &impl Abort,
    alloc: Global,
    plans: &[LaunchPlan],
    pages: &[Page],
    values: &[Measurement],
) {
    check(rt, values.len() == plans.len(), "as many values");
    for (plan, value) in plans.iter().zip(values) {
        check_value(rt, alloc, plan, pages, value);
    }
}

/// The values of a run by this many workers, in as many lanes.
fn check_run<R: Threads + Wait + Abort + Sync>(
    rt: &R,
    alloc: Global,
    lanes: Lanes,
    workers: usize,
    pages: &[Page<'_>],
    plans: &[LaunchPlan],
) -> Result<(), NoMemory>
    requires workers { (1 ≤ workers) × (workers ≤ 64) }
    requires rising { IsRising (page_keys_of (map page_view pages.now)) }
{
    let mut gate = WidthGate { lanes };
    let values = values_by(rt, alloc, workers, pages, plans, &mut gate)?;
    check_values(rt, alloc, plans, pages, &values);
    Ok(())
}

/// The same, in four lanes and in eight.
fn check_runs<R: Threads + Wait + Abort + Sync>(
    rt: &R,
    alloc: Global,
    workers: usize,
    pages: &[Page<'_>],
    plans: &[LaunchPlan],
) -> Result<(), NoMemory>
    requires workers { (1 ≤ workers) × (workers ≤ 64) }
    requires rising { IsRising (page_keys_of (map page_view pages.now)) }
{
    check_run(rt, alloc, Lanes::Four, workers, pages, plans)?;
    check_run(rt, alloc, Lanes::Eight, workers, pages, plans)
}

/// One worker, or each of two, chains four or eight launches at a time as long as enough are left; of nineteen workers none is
/// lent any.
#[test]
fn launches_are_chained_beside_others(rt: HostRuntime) -> Result<(), Fail> {
    let alloc = rt.alloc();
    let pages = pages_of(alloc, &BYTES, 3)?;
    let plans = plans(&rt, alloc);
    for workers in [1, 2, 19] {
        check_runs(&rt, alloc, workers, &pages, &plans)?;
    }
    Ok(())
}

/// Launches that go on from one prefix, each with blocks of its own.
fn plans_alike(rt: &impl Abort, alloc: Global) -> Vec<LaunchPlan> {
    let mut plans = Vec::new(alloc);
    for number in 0..LAUNCHES {
        let first = plan_at(rt, alloc, 0x4000_0000, 0, 3);
        let own = Link::Blocks {
            base: 0x8000_0000,
            size: 4096,
            count: number + 1,
        };
        let mut links = Vec::from_slice(alloc, first.links()).expect(rt, "memory");
        links.push(own).expect(rt, "memory");
        let plan = LaunchPlan::new(REALM, links).expect(rt, "the links fit");
        plans.push(plan).expect(rt, "memory");
    }
    plans
}

/// The same of launches that go on from the first one's prefix.
#[test]
fn launches_go_on_beside_others(rt: HostRuntime) -> Result<(), Fail> {
    let alloc = rt.alloc();
    let pages = pages_of(alloc, &BYTES, 3)?;
    let plans = plans_alike(&rt, alloc);
    for workers in [1, 2] {
        check_runs(&rt, alloc, workers, &pages, &plans)?;
    }
    Ok(())
}
