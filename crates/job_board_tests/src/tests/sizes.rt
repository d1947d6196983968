//! The least and the largest boards.
use super::boards::Ask::{Launch, Page, Retire, Take};
use super::boards::{Ask, Game, Given, play, play_game};
use std::alloc::Global;
use std::process::Abort;

/// A board without jobs.
const NO_JOBS: [Ask; 3] = [Take(0, Given::Done), Take(1, Given::Done), Retire(0, false)];

/// The launch measures no page.
const NO_PAGES: [Ask; 4] = [
    Take(0, Given::Launch(0)),
    Take(0, Given::Busy),
    Launch(0, 0, true),
    Take(0, Given::Done),
];

/// A launch waits for its own pages, and not for those that it does not measure.
const OWN_PAGE: [Ask; 8] = [
    Take(0, Given::Page(0)),
    Take(1, Given::Page(1)),
    Page(1, 1, true),
    Take(1, Given::Launch(0)),
    Launch(1, 0, true),
    Take(1, Given::Later),
    Page(0, 0, true),
    Take(1, Given::Done),
];

/// As many pages as are hashed side by side, and more.
const FIVE: [usize; 5] = [0, 1, 2, 3, 4];

/// A launch that is ready is given before more pages, but not to a worker within a group of pages that it hashed side by
/// side.
const READY_FIRST: [Ask; 9] = [
    Take(0, Given::Page(0)),
    Take(1, Given::Page(4)),
    Page(1, 4, true),
    Page(0, 0, true),
    Take(0, Given::Page(1)),
    Page(0, 1, true),
    Take(2, Given::Launch(1)),
    Launch(2, 1, true),
    Take(2, Given::Page(2)),
];

/// The last group of pages is not whole. Of the launches that are ready then, the one with the most to chain is first.
const LONGEST_FIRST: [Ask; 9] = [
    Take(0, Given::Page(0)),
    Page(0, 0, true),
    Take(0, Given::Page(1)),
    Page(0, 1, true),
    Take(0, Given::Launch(1)),
    Launch(0, 1, true),
    Take(0, Given::Launch(0)),
    Launch(0, 0, true),
    Take(0, Given::Done),
];

const GAMES: [Game; 5] = [
    (1, 0, &[], &NO_JOBS),
    (1, 0, &[&[]], &NO_PAGES),
    (2, 2, &[&[1]], &OWN_PAGE),
    (3, 5, &[&FIVE, &[4]], &READY_FIRST),
    (1, 2, &[&[0], &[1, 0]], &LONGEST_FIRST),
];

#[test]
fn small_boards(rt: HostRuntime) {
    for game in &GAMES {
        play_game(&rt, rt.alloc(), game);
    }
}

/// The page that is given after this many others: first those that begin a group, and then the rest.
fn page_after(count: usize, pages: usize) -> usize {
    let groups = pages.div_ceil(4);
    if count < groups {
        count.saturating_mul(4)
    } else {
        let count = count - groups;
        (count / 3).saturating_mul(4).saturating_add(1 + count % 3)
    }
}

/// What worker 0 is given after a page.
fn after(page: usize, pages: usize) -> Given {
    if page < pages && page + 1 < pages {
        Given::Page(page + 1)
    } else {
        Given::Done
    }
}

/// What worker 0 asks for each page: that it is accepted, and the next one.
fn work_at(number: usize, pages: usize) -> Ask {
    let page = number / 2;
    if number % 2 == 0 {
        Page(0, page, true)
    } else {
        Take(0, after(page, pages))
    }
}

fn ask_at(number: usize, workers: usize) -> Ask {
    if number < workers {
        Take(number, Given::Page(page_after(number, workers)))
    } else if number == workers {
        Take(number, Given::Done)
    } else if number - workers < workers {
        Retire(number - workers, true)
    } else {
        work_at(number - workers - workers, workers)
    }
}

/// Each of this many workers takes a page, and all but worker 0 retire. Worker 0 works all pages.
fn asks_of(rt: &impl Abort, alloc: Global, workers: usize) -> Vec<Ask> {
    let mut asks = Vec::new(alloc);
    for number in 0..workers.saturating_mul(4) {
        asks.push(ask_at(number, workers)).expect(rt, "memory");
    }
    asks
}

#[test]
fn one_worker_and_sixty_four(rt: HostRuntime) {
    for workers in [1, 64] {
        let asks = asks_of(&rt, rt.alloc(), workers);
        play(&rt, rt.alloc(), workers, workers, &[], &asks);
    }
}
