//! Which pages and launches are accepted.
use super::boards::Ask::{Launch, Page, Retire, Share, Take};
use super::boards::{Ask, Game, Given, play_game};

const ONCE: [Ask; 13] = [
    Take(0, Given::Page(0)),
    Take(0, Given::Busy),
    Take(1, Given::Later),
    Page(1, 0, false),
    Share(1, 0),
    Page(0, 0, true),
    Share(0, 1),
    Page(0, 0, false),
    Share(0, 1),
    Take(0, Given::Launch(0)),
    Take(1, Given::Later),
    Launch(0, 0, true),
    Take(0, Given::Done),
];

/// Worker 0 holds page 0, and worker 1 holds page 1.
const FOREIGN_PAGES: [Ask; 11] = [
    Page(0, 0, false),
    Take(0, Given::Page(0)),
    Take(1, Given::Page(1)),
    // Another worker's job, and an unknown worker's.
    Page(0, 1, false),
    Page(1, 0, false),
    Page(2, 0, false),
    Page(usize::MAX, 0, false),
    Share(0, 0),
    Page(0, 0, true),
    Page(1, 1, true),
    Take(0, Given::Done),
];

/// Launches 0 and 1 measure both pages, in two orders. Launch 2 has the plan of launch 0.
const FOREIGN_LAUNCHES: [Ask; 18] = [
    Take(0, Given::Page(0)),
    Page(0, 0, true),
    Take(0, Given::Page(1)),
    Page(0, 1, true),
    Take(0, Given::Launch(0)),
    Take(1, Given::Launch(1)),
    Take(0, Given::Busy),
    // Another worker's, and an unknown worker's.
    Launch(0, 1, false),
    Launch(1, 0, false),
    Launch(2, 0, false),
    Launch(usize::MAX, 0, false),
    Launch(0, 0, true),
    Launch(1, 1, true),
    Take(1, Given::Launch(2)),
    Launch(0, 2, false),
    Launch(1, 2, true),
    Take(0, Given::Done),
    Take(1, Given::Done),
];

const HELD: [Ask; 22] = [
    Retire(0, false),
    Retire(3, false),
    Retire(usize::MAX, false),
    Take(1, Given::Page(0)),
    Take(0, Given::Later),
    Retire(1, true),
    Retire(1, false),
    Take(1, Given::Done),
    Page(1, 0, false),
    Page(0, 0, false),
    Take(2, Given::Page(0)),
    Page(2, 0, true),
    Take(2, Given::Launch(0)),
    Take(0, Given::Later),
    Retire(2, true),
    Launch(2, 0, false),
    Launch(0, 0, false),
    Take(0, Given::Launch(0)),
    Launch(0, 0, true),
    Take(0, Given::Done),
    Share(2, 1),
    Share(0, 0),
];

const GAMES: [Game; 4] = [
    (2, 1, &[&[0]], &ONCE),
    (2, 2, &[], &FOREIGN_PAGES),
    (2, 2, &[&[0, 1], &[1, 0], &[0, 1]], &FOREIGN_LAUNCHES),
    (3, 1, &[&[0]], &HELD),
];

#[test]
fn what_is_accepted(rt: HostRuntime) {
    for game in &GAMES {
        play_game(&rt, rt.alloc(), game);
    }
}
