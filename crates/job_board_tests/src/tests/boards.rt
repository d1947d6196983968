//! What is asked of a board, and what it answers. Page n is the page of file n, which has n + 1 bytes.
ghost use Rattle.std.specs.Prelude.{◌≡◌, ◌≤◌, length, map, replicate, IfOk, None};
ghost use Rattle.std.specs.List.{All, Contains};
ghost use Rattle.page_jobs.specs.Key.{IsRising};
ghost use Rattle.page_jobs.specs.Page.{page_view};
ghost use Rattle.page_jobs.specs.Table.{page_keys_of as page_keys};
ghost use Rattle.launch_plan.specs.Links.{keys_of};

use crate::{REALM, has_all_keys, pages_link};
use job_board::{BoardState, ChainedLaunch, PageTask, Run, Share, Work};
use page_jobs::{Blob, Page, Table};
use page_jobs_tests::distinct_pages;
use refusal::NoMemory;
use rim_chain::LaunchPlan;
use rim_desc::{Algo, Source};
use std::alloc::Global;
use std::marker::Brand;
use std::process::Abort;
use std::sync::ledger::Blank;

const ONES: [u8; 64] = [1; 64];

/// What a take gives.
#[derive(Clone, Copy, Debug, PartialEq, Eq)]
pub(super) enum Given {
    Page(usize),
    Launch(usize),
    Later,
    Busy,
    Done,
}

/// What is asked of a board by a worker, and what is answered.
#[derive(Clone, Copy, Debug)]
pub(super) enum Ask {
    Take(usize, Given),
    /// A put of the page of a number, and whether it is accepted.
    Page(usize, usize, bool),
    /// A put of the launch of a number, as it was taken last, and whether it is accepted.
    Launch(usize, usize, bool),
    Retire(usize, bool),
    /// The share of the worker.
    Share(usize, u64),
}

fn page_of(number: usize) -> Page<'static> {
    let (bytes, _) = ONES.split_at(number.min(63) + 1);
    Blob::new(Source::File(number), 0, bytes).page(Algo::Sha256, 0)
}

/// The pages of the first numbers.
fn pages_of(alloc: Global, count: usize) -> Result<Vec<Page<'static>>, NoMemory>
    ensures { IfOk result (λ pages. IsRising (page_keys (map page_view pages.items))) }
{
    let mut pages = Vec::new(alloc);
    for number in 0..count {
        pages.push(page_of(number))?;
    }
    distinct_pages(&mut pages);
    Ok(pages)
}

/// The plan of a launch that measures the pages of these numbers.
fn plan_of(alloc: Global, pages: &[usize]) -> Result<Option<LaunchPlan>, NoMemory> {
    let mut links = Vec::new(alloc);
    for number in pages {
        links.push(pages_link(0x4000_0000, *number, 1))?;
    }
    Ok(LaunchPlan::new(REALM, links))
}

fn plans_of(
    rt: &impl Abort,
    alloc: Global,
    launches: &[&[usize]],
) -> Result<Vec<LaunchPlan>, NoMemory> {
    let mut plans = Vec::new(alloc);
    for pages in launches {
        plans.push(plan_of(alloc, pages)?.expect(rt, "the links fit"))?;
    }
    Ok(plans)
}

/// A board, the shares of its workers, and each launch that was taken, chained.
#[derive(Drop)]
struct Desk<'a, L: Run> {
    board: BoardState<'a, L>,
    shares: Vec<Share<L>>,
    chained: Vec<Option<ChainedLaunch<'a, L>>>,
}

/// Takes, and chains a launch that is given.
fn take<L: Run>(rt: &impl Abort, desk: &mut Desk<'_, L>, worker: usize) -> Given {
    match desk.board.take(worker) {
        Work::Page(task) => Given::Page(task.number()),
        Work::Launch(task) => {
            let number = task.number();
            keep(rt, desk, task.run());
            Given::Launch(number)
        }
        Work::Later => Given::Later,
        Work::Busy => Given::Busy,
        Work::Done => Given::Done,
    }
}

/// Keeps a launch that was chained.
fn keep<'a, L: Run>(rt: &impl Abort, desk: &mut Desk<'a, L>, launch: ChainedLaunch<'a, L>) {
    let place = desk.chained.get_mut(launch.number());
    *place.expect(rt, "the launch exists") = Some(launch);
}

/// Whether a page is accepted. It is counted in the worker's share, or in that of worker 0 where the worker has none.
fn put_page<L: Run>(rt: &impl Abort, desk: &mut Desk<'_, L>, worker: usize, number: usize) -> bool {
    let place = if worker < desk.shares.len() {
        worker
    } else {
        0
    };
    let share = desk.shares.get_mut(place);
    let share = share.expect(rt, "worker 0 has a share");
    let Some(task) = PageTask::new(desk.board.pages(), number) else {
        panic!(rt; "the page exists");
    };
    match desk.board.put_page(worker, task.run(), share) {
        Ok(()) => true,
        Err(back) => {
            assert!(rt; back.number() == number, "what is handed back");
            false
        }
    }
}

/// Whether a launch that was taken before is accepted.
fn put_launch<L: Run>(
    rt: &impl Abort,
    desk: &mut Desk<'_, L>,
    worker: usize,
    number: usize,
) -> bool {
    let place = desk.chained.get_mut(number);
    let Some(launch) = place.expect(rt, "the launch exists").take() else {
        panic!(rt; "the launch was taken");
    };
    let value = launch.value();
    match desk.board.put_launch(worker, launch) {
        Ok(()) => true,
        Err(back) => {
            assert!(rt; back.value() == value, "what is handed back");
            keep(rt, desk, back);
            false
        }
    }
}

/// How many pages are counted in a worker's share.
fn count_of<L: Run>(desk: &Desk<'_, L>, worker: usize) -> Option<u64> {
    desk.shares.get(worker).map(|share| share.count())
}

/// Whether the answer is the one that is given.
fn is_answer<L: Run>(rt: &impl Abort, desk: &mut Desk<'_, L>, ask: &Ask) -> bool {
    match *ask {
        Ask::Take(worker, given) => take(rt, desk, worker) == given,
        Ask::Page(worker, number, is_taken) => put_page(rt, desk, worker, number) == is_taken,
        Ask::Launch(worker, number, is_taken) => put_launch(rt, desk, worker, number) == is_taken,
        Ask::Retire(worker, is_retired) => desk.board.retire(worker) == is_retired,
        Ask::Share(worker, count) => count_of(desk, worker) == Some(count),
    }
}

fn ask_all<L: Run>(rt: &impl Abort, desk: &mut Desk<'_, L>, asks: &[Ask]) {
    for ask in asks {
        assert!(rt; is_answer(rt, desk, ask), "{ask:?}");
    }
}

/// Asks a new board over a table and plans.
fn play_on<'a, L: Run>(
    rt: &impl Abort,
    alloc: Global,
    blank: Blank,
    workers: usize,
    table: Table<'a>,
    plans: &'a [LaunchPlan],
    asks: &[Ask],
) -> Result<(), NoMemory>
    requires name { blank.name ≡ L.name }
    requires parts { (blank.parts ≡ L.parts) × (blank.parts ≡ workers) }
    requires pages { table.pages ≡ L.pages }
    requires plans { plans.now ≡ L.plans }
    requires workers { (1 ≤ workers) × (workers ≤ 64) }
    requires keys { All (λ p. All (Contains (page_keys table.pages)) (keys_of p.links)) plans.now }
    requires empty { table.digests ≡ replicate (length table.pages) None }
{
    let (board, shares) = BoardState::<L>::new(alloc, blank, workers, table, plans)?;
    let mut chained = Vec::with_capacity(alloc, plans.len())?;
    for _launch in plans {
        chained.push(None)?;
    }
    let mut desk = Desk {
        board,
        shares,
        chained,
    };
    ask_all(rt, &mut desk, asks);
    Ok(())
}

/// Asks a new board of 1 to 64 workers in order. It has pages of the first numbers, and launches that measure pages of
/// these numbers.
pub(super) fn play(
    rt: &impl Abort,
    alloc: Global,
    workers: usize,
    pages: usize,
    launches: &[&[usize]],
    asks: &[Ask],
) {
    let workers = workers.max(1).min(64);
    let pages = pages_of(alloc, pages).expect(rt, "memory");
    let owned = plans_of(rt, alloc, launches).expect(rt, "memory");
    let plans = owned.as_slice();
    let table = Table::reserve(alloc, &pages).expect(rt, "memory");
    if !has_all_keys(&table, plans) {
        panic!(rt; "all pages of the launches exist");
    }
    let blank = Blank::new(workers as u64);
    let played = play_on::<Brand>(rt, alloc, blank, workers, table, plans, asks);
    played.expect(rt, "memory");
}

/// How many workers, how many pages, the pages that each launch measures, and what is asked.
pub(super) type Game = (usize, usize, &'static [&'static [usize]], &'static [Ask]);

pub(super) fn play_game(rt: &impl Abort, alloc: Global, game: &Game) {
    let (workers, pages, launches, asks) = game;
    play(rt, alloc, *workers, *pages, launches, asks);
}
