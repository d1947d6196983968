//! Which page is free, and which launch is ready.
use super::Act::{Put, Retire, Take};
use super::{Act, check, core_of, step};
use job_board::{Core, JobId};
use std::process::Abort;

/// An event that is accepted, and the free page and the ready launch after it.
type Step = (Act, Option<usize>, Option<usize>);

fn search(rt: &impl Abort, core: &mut Core, row: &Step) {
    let (act, page, launch) = row;
    step(rt, core, *act, Ok(()));
    check(rt, core.free_page() == *page, "the free page");
    check(rt, core.ready_launch() == *launch, "the ready launch");
}

/// Workers 2 and 1 retire while they hold a page and a launch, which are then found again.
const STEPS: [Step; 13] = [
    (Take(0, JobId::Page(0)), Some(1), None),
    (Take(1, JobId::Page(1)), Some(2), None),
    (Take(2, JobId::Page(2)), None, None),
    (Put(1, JobId::Page(1)), None, None),
    (Retire(2), Some(2), None),
    (Take(1, JobId::Page(2)), None, None),
    (Put(1, JobId::Page(2)), None, Some(1)),
    (Take(1, JobId::Launch(1)), None, None),
    (Put(0, JobId::Page(0)), None, Some(0)),
    (Take(0, JobId::Launch(0)), None, None),
    (Retire(1), None, Some(1)),
    (Put(0, JobId::Launch(0)), None, Some(1)),
    (Take(0, JobId::Launch(1)), None, None),
];

#[test]
fn free_pages_and_ready_launches_are_found(rt: HostRuntime) {
    let mut core = core_of(&rt, rt.alloc(), 3, 3, &[&[0, 1, 2], &[1, 2]]);
    check(&rt, core.free_page() == Some(0), "the first free page");
    for row in &STEPS {
        search(&rt, &mut core, row);
    }
    check(&rt, core.is_out(2), "worker 2 is out");
    check(&rt, !core.is_finished(), "not all jobs are done");
}
