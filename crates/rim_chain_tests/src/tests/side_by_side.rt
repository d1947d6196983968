//! Launches that are chained side by side.
use super::{LEAD, check, filled_row, item, plan_of, put, realm};
use page_jobs::{Blob, DigestRow, Table};
use rim_chain::{LaunchJob, LaunchPlan, chain, go_on, no_chains};
use rim_desc::{Algo, MOST_LANES, Measurement, RealmParams, Source};
use std::alloc::Global;
use std::process::Abort;

/// The blocks of each launch. Two have the same number, and one has none.
const BLOCKS: [u64; MOST_LANES] = [3, 0, 9, 40, 7, 30, 2, 7];

/// Plans by an algorithm, each with its blocks, two measured pages, two that are not measured, and a REC.
fn plans_by(rt: &impl Abort, alloc: Global, algo: Algo) -> Vec<LaunchPlan> {
    let mut plans = Vec::new(alloc);
    for number in 0..BLOCKS.len() {
        let params = RealmParams {
            s2sz: 33 + number as u8,
            ..realm(algo)
        };
        let plan = plan_of(rt, alloc, params, (0, BLOCKS[number]), 2, &[number as u8]);
        plans.push(plan).expect(rt, "memory");
    }
    plans
}

/// Each comes to what it comes to alone.
fn check_values(rt: &impl Abort, algo: Algo, jobs: &[LaunchJob], values: &[Measurement]) {
    let mut chains = no_chains(algo);
    for lane in 0..jobs.len().min(MOST_LANES) {
        chains[lane] = jobs[lane].chain();
    }
    for _ in 0..=MOST_LANES {
        go_on(&mut chains);
    }
    check(rt, !go_on(&mut chains), "no parts are left");
    for lane in 0..values.len().min(MOST_LANES) {
        check(rt, chains[lane].finished() == values[lane], "its own value");
    }
}

fn check_group(rt: &impl Abort, alloc: Global, algo: Algo) {
    let bytes = item(rt, alloc);
    let blob = Blob::new(Source::File(0), LEAD, &bytes);
    let pages = [blob.page(algo, 0), blob.page(algo, 1)];
    let mut table = Table::reserve(alloc, pages.as_slice()).expect(rt, "memory");
    for slot in 0..pages.len() {
        put(rt, &mut table, slot, pages[slot]);
    }
    let plans = plans_by(rt, alloc, algo);
    let mut jobs = Vec::new(alloc);
    let mut values = Vec::new(alloc);
    for number in 0..plans.len() {
        let row = filled_row(rt, alloc, &plans[number], &table);
        values
            .push(chain(&plans[number], &row))
            .expect(rt, "memory");
        jobs.push(LaunchJob::new(number, &plans[number], row))
            .expect(rt, "memory");
    }
    check_values(rt, algo, &jobs, &values);
}

#[test]
fn launches_side_by_side_are_their_own_chains(rt: HostRuntime) {
    check_group(&rt, rt.alloc(), Algo::Sha256);
    check_group(&rt, rt.alloc(), Algo::Sha512);
}
