//! Whole lists of events.
use super::Act::{Put, Retire, Take};
use super::{Row, check, core_of, play, step};
use job_board::{Core, CoreFault, Event, JobId};
use std::alloc::Global;
use std::mem::size_of;
use std::process::Abort;

const PAGE: JobId = JobId::Page(0);

const LAUNCH: JobId = JobId::Launch(0);

const A_LAUNCH_WAITS: [Row; 9] = [
    (Take(1, LAUNCH), Err(CoreFault::Early)),
    (Take(0, PAGE), Ok(())),
    (Take(1, PAGE), Err(CoreFault::Taken)),
    (Take(1, LAUNCH), Err(CoreFault::Early)),
    (Retire(0), Err(CoreFault::Retired)),
    (Put(0, PAGE), Ok(())),
    (Take(1, LAUNCH), Ok(())),
    (Take(0, LAUNCH), Err(CoreFault::Taken)),
    (Put(1, LAUNCH), Ok(())),
];

const A_PAGE_AGAIN: [Row; 7] = [
    (Take(1, PAGE), Ok(())),
    (Retire(1), Ok(())),
    (Put(1, PAGE), Err(CoreFault::Retired)),
    (Take(0, PAGE), Ok(())),
    (Put(0, PAGE), Ok(())),
    (Take(0, LAUNCH), Ok(())),
    (Put(0, LAUNCH), Ok(())),
];

const A_LAUNCH_AGAIN: [Row; 5] = [
    (Take(1, LAUNCH), Ok(())),
    (Retire(1), Ok(())),
    (Take(1, LAUNCH), Err(CoreFault::Retired)),
    (Take(0, LAUNCH), Ok(())),
    (Put(0, LAUNCH), Ok(())),
];

/// Each launch waits for its own pages alone. A page that is listed twice is one need.
const OWN_PAGES: [Row; 8] = [
    (Take(0, JobId::Page(1)), Ok(())),
    (Put(0, JobId::Page(1)), Ok(())),
    (Take(0, JobId::Launch(0)), Err(CoreFault::Early)),
    (Take(0, JobId::Launch(1)), Ok(())),
    (Take(1, JobId::Page(0)), Ok(())),
    (Put(1, JobId::Page(0)), Ok(())),
    (Take(1, JobId::Launch(0)), Ok(())),
    (Put(1, JobId::Launch(0)), Ok(())),
];

const NO_SUCH_JOB: [Row; 1] = [(Take(0, PAGE), Err(CoreFault::NoSuchJob))];

/// How many workers and pages, the pages that each launch needs, events, and whether all jobs are done after them.
type Run = (
    usize,
    usize,
    &'static [&'static [usize]],
    &'static [Row],
    bool,
);

const RUNS: [Run; 6] = [
    (2, 1, &[&[0]], &A_LAUNCH_WAITS, true),
    (2, 1, &[&[0]], &A_PAGE_AGAIN, true),
    (2, 0, &[&[]], &A_LAUNCH_AGAIN, true),
    (2, 2, &[&[1, 0], &[1, 1]], &OWN_PAGES, false),
    // No jobs are done at once.
    (1, 0, &[], &[], true),
    (1, 0, &[], &NO_SUCH_JOB, true),
];

/// How many workers, pages and launches a core has.
fn check_counts(rt: &impl Abort, core: &Core, workers: usize, pages: usize, launches: usize) {
    check(rt, core.workers() == workers, "workers");
    check(rt, core.pages() == pages, "pages");
    check(rt, core.launches() == launches, "launches");
}

fn check_run(rt: &impl Abort, alloc: Global, run: &Run, number: usize) {
    let (workers, pages, lists, rows, is_finished) = run;
    let mut core = core_of(rt, alloc, *workers, *pages, lists);
    play(rt, &mut core, rows);
    check_counts(rt, &core, *workers, *pages, lists.len());
    assert!(rt; core.is_finished() == *is_finished, "run {number}");
}

#[test]
fn runs(rt: HostRuntime) {
    for number in 0..RUNS.len() {
        check_run(&rt, rt.alloc(), &RUNS[number], number);
    }
}

/// Each worker works on the page of its number.
fn work_all(rt: &impl Abort, core: &mut Core, workers: usize) {
    for worker in 0..workers {
        step(rt, core, Take(worker, JobId::Page(worker)), Ok(()));
        step(rt, core, Put(worker, JobId::Page(worker)), Ok(()));
    }
}

/// As many pages as workers.
fn check_workers(rt: &impl Abort, alloc: Global, workers: usize) {
    let mut core = core_of(rt, alloc, workers, workers, &[]);
    step(rt, &mut core, Take(workers, PAGE), Err(CoreFault::Retired));
    work_all(rt, &mut core, workers);
    check(rt, core.is_finished(), "all pages are done");
    check_counts(rt, &core, workers, workers, 0);
}

#[test]
fn one_worker_and_sixty_four(rt: HostRuntime) {
    check_workers(&rt, rt.alloc(), 1);
    check_workers(&rt, rt.alloc(), 64);
}

#[test]
fn an_event_is_small(rt: HostRuntime) {
    check(&rt, size_of::<Event>() <= 48, "48 bytes");
}
