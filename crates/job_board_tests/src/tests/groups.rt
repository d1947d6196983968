//! Which page a worker is given, where more than one is free.
use super::boards::Ask::{Page, Retire, Take};
use super::boards::{Ask, Game, Given, play_game};

/// Two workers and ten pages: two groups of four, and a group that is not whole. Each worker has a group of its own as
/// long as one is left to begin. After that any free page is given, the lowest first.
const NEIGHBOURS: [Ask; 21] = [
    Take(0, Given::Page(0)),
    Take(1, Given::Page(4)),
    Page(0, 0, true),
    Take(0, Given::Page(1)),
    Page(1, 4, true),
    Take(1, Given::Page(5)),
    Page(1, 5, true),
    Take(1, Given::Page(6)),
    Page(1, 6, true),
    Take(1, Given::Page(7)),
    Page(1, 7, true),
    // The last group, and then the first one, which worker 0 still has.
    Take(1, Given::Page(8)),
    Page(1, 8, true),
    Take(1, Given::Page(9)),
    Page(1, 9, true),
    Take(1, Given::Page(2)),
    Page(0, 1, true),
    Take(0, Given::Page(3)),
    Page(1, 2, true),
    Page(0, 3, true),
    Take(0, Given::Done),
];

/// A page that a retired worker held is given to another, after the group that that one has.
const RETIRED: [Ask; 13] = [
    Take(1, Given::Page(0)),
    Take(0, Given::Page(4)),
    Retire(1, true),
    Page(0, 4, true),
    Take(0, Given::Page(5)),
    Page(0, 5, true),
    Take(0, Given::Page(0)),
    Page(0, 0, true),
    Take(0, Given::Page(1)),
    Page(0, 1, true),
    Take(0, Given::Page(2)),
    Page(0, 2, true),
    Take(0, Given::Page(3)),
];

const GAMES: [Game; 2] = [(2, 10, &[], &NEIGHBOURS), (2, 6, &[], &RETIRED)];

#[test]
fn pages_of_groups(rt: HostRuntime) {
    for game in &GAMES {
        play_game(&rt, rt.alloc(), game);
    }
}
