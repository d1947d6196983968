//! Each fault at its edge, and the first of two that hold.
use super::Act::{Put, Retire, Take};
use super::{Row, check, core_of, play};
use job_board::{CoreFault, JobId, JobState};

const PAGE: JobId = JobId::Page(0);

const OTHER: JobId = JobId::Page(1);

const LAUNCH: JobId = JobId::Launch(0);

/// Beside worker 0 there are worker 1, who holds a page, and worker 2, who is retired. The launch needs both pages.
const BEFORE: [Row; 2] = [(Take(1, PAGE), Ok(())), (Retire(2), Ok(()))];

const REFUSED: [Row; 24] = [
    (Retire(0), Err(CoreFault::Retired)),
    (Retire(2), Err(CoreFault::Retired)),
    (Retire(3), Err(CoreFault::Retired)),
    (Retire(usize::MAX), Err(CoreFault::Retired)),
    (Take(2, OTHER), Err(CoreFault::Retired)),
    (Take(3, OTHER), Err(CoreFault::Retired)),
    (Take(usize::MAX, OTHER), Err(CoreFault::Retired)),
    // No such job either.
    (Take(2, JobId::Page(2)), Err(CoreFault::Retired)),
    (Put(3, JobId::Launch(1)), Err(CoreFault::Retired)),
    (Put(2, PAGE), Err(CoreFault::Retired)),
    (Take(0, JobId::Page(2)), Err(CoreFault::NoSuchJob)),
    (Take(0, JobId::Launch(1)), Err(CoreFault::NoSuchJob)),
    // Busy too.
    (Take(1, JobId::Page(2)), Err(CoreFault::NoSuchJob)),
    (Put(1, JobId::Page(usize::MAX)), Err(CoreFault::NoSuchJob)),
    (Put(1, JobId::Launch(1)), Err(CoreFault::NoSuchJob)),
    (Put(0, OTHER), Err(CoreFault::Stranger)),
    (Put(0, PAGE), Err(CoreFault::Stranger)),
    (Put(1, OTHER), Err(CoreFault::Stranger)),
    (Put(1, LAUNCH), Err(CoreFault::Stranger)),
    (Take(1, OTHER), Err(CoreFault::Busy)),
    // Held already, and early.
    (Take(1, PAGE), Err(CoreFault::Busy)),
    (Take(1, LAUNCH), Err(CoreFault::Busy)),
    (Take(0, PAGE), Err(CoreFault::Taken)),
    (Take(0, LAUNCH), Err(CoreFault::Early)),
];

const DONE: [Row; 11] = [
    (Put(1, PAGE), Ok(())),
    (Put(1, PAGE), Err(CoreFault::Stranger)),
    (Take(0, PAGE), Err(CoreFault::Taken)),
    (Take(0, LAUNCH), Err(CoreFault::Early)),
    (Take(1, OTHER), Ok(())),
    // The other page is held, and not done.
    (Take(0, LAUNCH), Err(CoreFault::Early)),
    (Put(1, OTHER), Ok(())),
    (Take(0, LAUNCH), Ok(())),
    (Take(1, LAUNCH), Err(CoreFault::Taken)),
    (Put(0, LAUNCH), Ok(())),
    (Put(0, LAUNCH), Err(CoreFault::Stranger)),
];

#[test]
fn the_first_fault_is_answered(rt: HostRuntime) {
    let mut core = core_of(&rt, rt.alloc(), 3, 2, &[&[0, 1]]);
    play(&rt, &mut core, &BEFORE);
    play(&rt, &mut core, &REFUSED);
    check(&rt, core.held(1) == Some(PAGE), "worker 1 holds the page");
    play(&rt, &mut core, &DONE);
    let is_done = core.state(PAGE) == Some(JobState::Done);
    check(&rt, is_done, "the page is done");
}
