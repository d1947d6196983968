//! Launches that go on from a prefix of another one.
use super::{LEAD, check, filled_row, item, plan_of, put, realm};
use page_jobs::{Blob, Table};
use rim_chain::{LaunchJob, LaunchPlan, SharedPrefixes};
use rim_desc::{Algo, Source};
use std::alloc::Global;
use std::process::Abort;

/// Plans of as many launches that differ in their RECs alone, after three links.
fn plans_alike(rt: &impl Abort, alloc: Global, count: u8) -> Vec<LaunchPlan> {
    let mut plans = Vec::new(alloc);
    for number in 0..count {
        let plan = plan_of(rt, alloc, realm(Algo::Sha256), (0, 3), 2, &[number]);
        plans.push(plan).expect(rt, "memory");
    }
    plans
}

#[test]
fn launches_go_on_from_one_prefix(rt: HostRuntime) {
    let alloc = rt.alloc();
    let bytes = item(&rt, alloc);
    let blob = Blob::new(Source::File(0), LEAD, &bytes);
    let pages = [blob.page(Algo::Sha256, 0), blob.page(Algo::Sha256, 1)];
    let mut table = Table::reserve(alloc, pages.as_slice()).expect(&rt, "memory");
    for slot in 0..pages.len() {
        put(&rt, &mut table, slot, pages[slot]);
    }
    let plans = plans_alike(&rt, alloc, 5);
    let first = plans.get(0).expect(&rt, "the first");
    let row = filled_row(&rt, alloc, first, &table);
    let job = LaunchJob::new(0, first, row).going_on(None, Some(3));
    let prefix = job.prefix_after(&job.chain());
    check(&rt, prefix.links == 3, "it stops after three links");
    let mut shared = SharedPrefixes::new(alloc, &plans).expect(&rt, "memory");
    check(
        &rt,
        shared.prefix(&plans, 1).is_none(),
        "it is not known yet",
    );
    check(&rt, shared.keep(0, prefix), "it is kept");
    check(&rt, !shared.keep(0, prefix), "it is kept once");
    for number in 1..plans.len() {
        let own = shared.prefix(&plans, number);
        check(
            &rt,
            own == Some(prefix),
            "each of the others goes on from it",
        );
    }
}
