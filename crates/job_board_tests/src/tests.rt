//! What tests ask of a core and of a board. Each question is compared at one place, since each comparison is proved.
mod boards;
mod faults;
mod groups;
mod puts;
mod runs;
mod searches;
mod sizes;

ghost use Rattle.std.specs.Prelude.{◌<◌, map, IfOk};
ghost use Rattle.std.specs.List.{All};
ghost use Rattle.job_core.specs.Jobs.{NeedsWithin};

use job_board::{Core, CoreFault, Event, JobId};
use refusal::NoMemory;
use std::alloc::Global;
use std::process::Abort;

/// An event, in short.
#[derive(Clone, Copy)]
enum Act {
    Take(usize, JobId),
    Put(usize, JobId),
    Retire(usize),
}

fn event_of(act: Act) -> Event {
    match act {
        Act::Take(worker, job) => Event::Take { worker, job },
        Act::Put(worker, job) => Event::Put { worker, job },
        Act::Retire(worker) => Event::Retire { worker },
    }
}

/// The pages of a list that are below a number.
fn pages_below(alloc: Global, list: &[usize], pages: usize) -> Result<Vec<usize>, NoMemory>
    ensures { IfOk result (λ v. All (λ p. p < pages) v.items) }
{
    let mut kept = Vec::new(alloc);
    for page in list {
        if *page < pages {
            kept.push(*page)?;
        }
    }
    Ok(kept)
}

/// What each launch needs, of this many pages.
fn needs_of(alloc: Global, lists: &[&[usize]], pages: usize) -> Result<Vec<Vec<usize>>, NoMemory>
    ensures { IfOk result (λ v. NeedsWithin (map (λ needed. needed.items) v.items) pages) }
{
    let mut needs = Vec::new(alloc);
    for list in lists {
        needs.push(pages_below(alloc, list, pages)?)?;
    }
    Ok(needs)
}

/// A core of 1 to 64 workers, whose launches need the pages listed.
fn core_of(
    rt: &impl Abort,
    alloc: Global,
    workers: usize,
    pages: usize,
    lists: &[&[usize]],
) -> Core {
    let needs = needs_of(alloc, lists, pages).expect(rt, "memory");
    let workers = workers.max(1).min(64);
    Core::new(alloc, workers, pages, needs).expect(rt, "memory")
}

fn check(rt: &impl Abort, holds: bool, name: &str) {
    assert!(rt; holds, "{name}");
}

/// An event, and its answer.
type Row = (Act, Result<(), CoreFault>);

/// Offers an event, which is to be answered so.
fn step(rt: &impl Abort, core: &mut Core, act: Act, answer: Result<(), CoreFault>) {
    let event = event_of(act);
    assert!(rt; core.step(&event) == answer, "{event:?}");
}

/// Offers events in order.
fn play(rt: &impl Abort, core: &mut Core, rows: &[Row]) {
    for (act, answer) in rows {
        step(rt, core, *act, *answer);
    }
}
