//! Launches that begin alike: a worker waits for the prefix that another hands over.
ghost use Rattle.std.specs.Prelude.{◌≡◌, ◌≤◌, length, map, option_map, replicate, None};
ghost use Rattle.std.specs.List.{All, Contains};
ghost use Rattle.page_jobs.specs.Key.{IsRising};
ghost use Rattle.page_jobs.specs.Page.{page_view};
ghost use Rattle.page_jobs.specs.Table.{page_keys_of};
ghost use Rattle.launch_plan.specs.Links.{keys_of as link_keys};

use super::{REALM, check, pages_of, values_by};
use job_board::{
    BoardState, LaunchTask, OwnValue, PageTask, Run, Share, Work, begin_each, put_values,
    run_to_stop, set_stop,
};
use job_board_tests::has_all_keys;
use job_workers::FreeGate;
use page_jobs::{DigestRow, Page, PageKey, Table};
use refusal::NoMemory;
use rim_chain::{LaunchPlan, Link, chain, no_chains};
use rim_desc::{Algo, Measurement, Source};
use std::alloc::Global;
use std::marker::Brand;
use std::process::Abort;
use std::sync::Wait;
use std::sync::ledger::Blank;
use std::test::Fail;
use std::thread::Threads;

/// How many launches there are, and how often workers measure them.
const LAUNCHES: u64 = 8;

const RUNS: usize = 20;

/// A run of this many blocks, of a place of its own.
fn blocks(place: u64, count: u64) -> Link {
    Link::Blocks {
        base: place.saturating_mul(0x80_0000),
        size: 4096,
        count,
    }
}

/// The plan of a launch that begins with one or two runs of blocks, which others begin with too, and then has one of its own.
fn plan_of(rt: &impl Abort, alloc: Global, number: u64) -> LaunchPlan {
    let mut links = Vec::new(alloc);
    for place in 0..number % 2 + 1 {
        links.push(blocks(place, 1_100)).expect(rt, "memory");
    }
    links
        .push(blocks(5, number.saturating_add(1)))
        .expect(rt, "memory");
    LaunchPlan::new(REALM, links).expect(rt, "the links fit")
}

/// The plans of the first launches, this many.
fn plans_of(rt: &impl Abort, alloc: Global, launches: u64) -> Vec<LaunchPlan> {
    let mut plans = Vec::new(alloc);
    for number in 0..launches {
        plans.push(plan_of(rt, alloc, number)).expect(rt, "memory");
    }
    plans
}

/// What a launch without pages chains to.
fn chained(rt: &impl Abort, alloc: Global, plan: &LaunchPlan) -> Measurement {
    let row = DigestRow::reserve(alloc, plan.pages()).expect(rt, "memory");
    if row.digests().len() != plan.pages() {
        panic!(rt; "no launch has pages");
    }
    chain(plan, &row)
}

fn values_of(rt: &impl Abort, alloc: Global, plans: &[LaunchPlan]) -> Vec<Measurement> {
    let mut values = Vec::new(alloc);
    for plan in plans {
        values.push(chained(rt, alloc, plan)).expect(rt, "memory");
    }
    values
}

/// A run by this many workers ends, with these values.
fn check_run<R: Threads + Wait + Abort + Sync>(
    rt: &R,
    alloc: Global,
    workers: usize,
    pages: &[Page<'_>],
    plans: &[LaunchPlan],
    alone: &[Measurement],
) -> Result<(), NoMemory>
    requires workers { (1 ≤ workers) × (workers ≤ 64) }
    requires rising { IsRising (page_keys_of (map page_view pages.now)) }
{
    let values = values_by(rt, alloc, workers, pages, plans, &mut FreeGate)?;
    check(rt, values.as_slice() == alone, "the values");
    Ok(())
}

/// Runs by few workers and by the most.
fn check_runs<R: Threads + Wait + Abort + Sync>(
    rt: &R,
    alloc: Global,
    pages: &[Page<'_>],
    plans: &[LaunchPlan],
    alone: &[Measurement],
) -> Result<(), NoMemory>
    requires rising { IsRising (page_keys_of (map page_view pages.now)) }
{
    for workers in [2, 4, 64] {
        check_run(rt, alloc, workers, pages, plans, alone)?;
    }
    Ok(())
}

/// Each of many runs of workers ends, with the values of one thread; of 64 workers too, most of which find nothing to do.
#[test]
fn runs_end_with_the_same_values(rt: HostRuntime) -> Result<(), Fail> {
    let alloc = rt.alloc();
    let pages = pages_of(alloc, &[], 0)?;
    let plans = plans_of(&rt, alloc, LAUNCHES);
    let alone = values_of(&rt, alloc, &plans);
    for _run in 0..RUNS {
        check_runs(&rt, alloc, &pages, &plans, &alone)?;
    }
    Ok(())
}

/// The launch that a worker is given, if it does not wait.
fn given<'a, L: Run>(
    rt: &impl Abort,
    board: &mut BoardState<'a, L>,
    worker: usize,
) -> Option<LaunchTask<'a, L>> {
    match board.take_or_wait(worker) {
        Work::Launch(task) => Some(task),
        Work::Later => None,
        _ => panic!(rt; "only launches are left"),
    }
}

/// The launch of a number, which a worker is given.
fn taken<'a, L: Run>(
    rt: &impl Abort,
    board: &mut BoardState<'a, L>,
    worker: usize,
    number: usize,
) -> LaunchTask<'a, L> {
    let task = given(rt, board, worker).expect(rt, "a launch");
    check(rt, task.number() == number, "the launch");
    task
}

/// A worker waits for a launch.
fn waits<L: Run>(rt: &impl Abort, board: &mut BoardState<'_, L>, worker: usize) {
    check(rt, given(rt, board, worker).is_none(), "the worker waits");
}

/// A worker puts a launch.
fn put<'a, L: Run>(
    rt: &impl Abort,
    board: &mut BoardState<'a, L>,
    worker: usize,
    task: LaunchTask<'a, L>,
) {
    let answer = board.put_launch(worker, task.run());
    check(rt, answer.is_ok(), "the launch is taken");
}

/// Worker 1 holds launch 0 when it retires. Worker 2 waits before that.
fn retire_with_launch<L: Run>(rt: &impl Abort, board: &mut BoardState<'_, L>) {
    let _first = taken(rt, board, 1, 0);
    waits(rt, board, 2);
    check(rt, board.retire(1), "worker 1 retires");
}

/// Launch 1 goes on from launch 0, whose worker hands no prefix over. So it is given only when no worker holds a job.
fn wait_for_first<L: Run>(rt: &impl Abort, board: &mut BoardState<'_, L>) {
    retire_with_launch(rt, board);
    let first = taken(rt, board, 2, 0);
    waits(rt, board, 0);
    put(rt, board, 2, first);
    let _second = taken(rt, board, 0, 1);
}

/// Chains launch 0, and hands over the prefix that launch 1 goes on from. So that one is given before launch 0 is done.
fn hand_over<'a, L: Run>(
    rt: &impl Abort,
    board: &mut BoardState<'a, L>,
    tasks: &[Option<LaunchTask<'a, L>>],
    values: &mut [Option<OwnValue<L>>],
) -> LaunchTask<'a, L>
    requires one { length tasks.now ≡ 1 }
    requires room { length values.old ≡ 1 }
    ensures { values.new ≡ map (option_map (λ t. t.number)) tasks.now }
{
    let mut chains = no_chains(REALM.algo);
    let chains = &mut chains[..1];
    begin_each(tasks, chains);
    let (place, prefix) = run_to_stop(tasks, chains).expect(rt, "launch 1 goes on from it");
    check(rt, place == 0, "it is in the first place");
    check(rt, prefix.number() == 0, "the prefix is launch 0's");
    let kept = board.keep_prefix(prefix);
    check(rt, kept.followers == 1, "launch 1 goes on from it");
    set_stop(tasks, chains, place, kept.next_stop);
    let second = taken(rt, board, 2, 1);
    check(
        rt,
        run_to_stop(tasks, chains).is_none(),
        "no other goes on from it",
    );
    put_values(tasks, chains, values);
    second
}

/// Launch 1 is given when the prefix that it goes on from is kept, while launch 0 is still being chained. Each chains to its own
/// value.
fn go_on_from_first<L: Run>(rt: &impl Abort, board: &mut BoardState<'_, L>, own: &[Measurement]) {
    let first = taken(rt, board, 1, 0);
    waits(rt, board, 2);
    let mut tasks = [Some(first)];
    let tasks = &mut tasks[..];
    let mut values = [None];
    let values = &mut values[..];
    let second = hand_over(rt, board, tasks, values);
    let (Some(first), Some(value)) = (tasks[0].take(), values[0].take()) else {
        panic!(rt; "a value for launch 0");
    };
    let values = [first.known(value).value(), second.run().value()];
    check(rt, values.as_slice() == own, "the values");
}

/// The bytes of four pages.
const BYTES: [u8; 16384] = [7; 16384];

/// The plans of launches that begin alike, of which only the first has pages, this many.
fn plans_with_pages(rt: &impl Abort, alloc: Global, launches: u64, pages: u16) -> Vec<LaunchPlan> {
    let mut plans = Vec::new(alloc);
    for number in 0..launches {
        let own = if number == 0 {
            pages_link(pages)
        } else {
            blocks(5, number)
        };
        let links = Vec::from_slice(alloc, &[blocks(0, 1_100), own]).expect(rt, "memory");
        plans
            .push(LaunchPlan::new(REALM, links).expect(rt, "the links fit"))
            .expect(rt, "memory");
    }
    plans
}

/// The first pages of a file.
fn pages_link(pages: u16) -> Link {
    let key = PageKey {
        algo: Algo::Sha256,
        source: Source::File(0),
        lead: 0,
        number: 0,
    };
    Link::Pages {
        ipa: 0x4000_0000,
        key,
        count: u64::from(pages),
    }
}

/// Each of many runs of workers ends, where workers wait for a launch whose pages another hashes. The values are those of one
/// worker.
#[test]
fn runs_end_where_pages_are_waited_for(rt: HostRuntime) -> Result<(), Fail> {
    let alloc = rt.alloc();
    let pages = pages_of(alloc, &BYTES, 4)?;
    let plans = plans_with_pages(&rt, alloc, LAUNCHES, 4);
    let alone = values_by(&rt, alloc, 1, &pages, &plans, &mut FreeGate)?;
    for _run in 0..RUNS {
        check_run(&rt, alloc, 4, &pages, &plans, &alone)?;
    }
    Ok(())
}

/// The page that a worker is given, if it does not wait.
fn page_given<'a, L: Run>(
    rt: &impl Abort,
    board: &mut BoardState<'a, L>,
    worker: usize,
) -> Option<PageTask<'a, L>> {
    match board.take_or_wait(worker) {
        Work::Page(task) => Some(task),
        Work::Later => None,
        _ => panic!(rt; "no launch is to be begun"),
    }
}

/// The first page, which a worker is given.
fn page_taken<'a, L: Run>(
    rt: &impl Abort,
    board: &mut BoardState<'a, L>,
    worker: usize,
) -> PageTask<'a, L> {
    let task = page_given(rt, board, worker).expect(rt, "the page");
    check(rt, task.number() == 0, "page 0");
    task
}

/// A worker waits for a page.
fn waits_for_page<L: Run>(rt: &impl Abort, board: &mut BoardState<'_, L>, worker: usize) {
    check(
        rt,
        page_given(rt, board, worker).is_none(),
        "the worker waits",
    );
}

/// Worker 1 holds the page when it retires. Worker 2 waits before that.
fn retire_with_page<L: Run>(rt: &impl Abort, board: &mut BoardState<'_, L>) {
    let _page = page_taken(rt, board, 1);
    waits_for_page(rt, board, 2);
    check(rt, board.retire(1), "worker 1 retires");
}

/// Worker 2 is given the page, for which worker 0 waits, and puts it.
fn put_page<L: Run>(rt: &impl Abort, board: &mut BoardState<'_, L>, share: &mut Share<L>) {
    let page = page_taken(rt, board, 2);
    waits_for_page(rt, board, 0);
    let answer = board.put_page(2, page.run(), share);
    check(rt, answer.is_ok(), "the page is taken");
}

/// Launch 1, which needs no page, is not given while a worker has the page of launch 0, from which it goes on.
fn wait_for_page<L: Run>(rt: &impl Abort, board: &mut BoardState<'_, L>, share: &mut Share<L>) {
    retire_with_page(rt, board);
    put_page(rt, board, share);
    let first = taken(rt, board, 0, 0);
    waits(rt, board, 2);
    put(rt, board, 0, first);
    let _second = taken(rt, board, 2, 1);
}

/// What launch 1 waits for.
#[derive(Clone, Copy, Debug)]
enum Wanted {
    Launch,
    Prefix,
    Page,
}

/// Asks a new board of three workers.
fn ask<'a, L: Run>(
    rt: &impl Abort,
    alloc: Global,
    blank: Blank,
    table: Table<'a>,
    plans: &'a [LaunchPlan],
    wanted: Wanted,
) -> Result<(), NoMemory>
    requires name { blank.name ≡ L.name }
    requires parts { (blank.parts ≡ L.parts) × (blank.parts ≡ 3) }
    requires pages { table.pages ≡ L.pages }
    requires plans { plans.now ≡ L.plans }
    requires keys { All
        (λ p. All (Contains (page_keys_of table.pages)) (link_keys p.links))
        plans.now }
    requires empty { table.digests ≡ replicate (length table.pages) None }
{
    let (mut board, mut shares) = BoardState::<L>::new(alloc, blank, 3, table, plans)?;
    ask_for(rt, alloc, &mut board, &mut shares, plans, wanted);
    Ok(())
}

fn ask_for<L: Run>(
    rt: &impl Abort,
    alloc: Global,
    board: &mut BoardState<'_, L>,
    shares: &mut [Share<L>],
    plans: &[LaunchPlan],
    wanted: Wanted,
) {
    match wanted {
        Wanted::Launch => wait_for_first(rt, board),
        Wanted::Prefix => go_on_from_first(rt, board, &values_of(rt, alloc, plans)),
        Wanted::Page => wait_for_page(rt, board, shares.get_mut(2).expect(rt, "a share")),
    }
}

/// The same of a board over pages, which all pages of the plans are among.
fn ask_over(
    rt: &impl Abort,
    alloc: Global,
    pages: &[Page<'_>],
    plans: &[LaunchPlan],
    wanted: Wanted,
) -> Result<(), NoMemory>
    requires rising { IsRising (page_keys_of (map page_view pages.now)) }
{
    let table = Table::reserve(alloc, pages)?;
    if !has_all_keys(&table, plans) {
        panic!(rt; "the launches' pages exist");
    }
    ask::<Brand>(rt, alloc, Blank::new(3), table, plans, wanted)
}

#[test]
fn a_launch_waits_for_another(rt: HostRuntime) -> Result<(), Fail> {
    let pages = pages_of(rt.alloc(), &[], 0)?;
    let plans = plans_of(&rt, rt.alloc(), 2);
    ask_over(&rt, rt.alloc(), &pages, &plans, Wanted::Launch)?;
    Ok(())
}

#[test]
fn a_launch_goes_on_from_one_that_is_being_chained(rt: HostRuntime) -> Result<(), Fail> {
    let pages = pages_of(rt.alloc(), &[], 0)?;
    let plans = plans_of(&rt, rt.alloc(), 2);
    ask_over(&rt, rt.alloc(), &pages, &plans, Wanted::Prefix)?;
    Ok(())
}

#[test]
fn a_launch_waits_for_the_page_of_another(rt: HostRuntime) -> Result<(), Fail> {
    let pages = pages_of(rt.alloc(), &BYTES, 1)?;
    let plans = plans_with_pages(&rt, rt.alloc(), 2, 1);
    ask_over(&rt, rt.alloc(), &pages, &plans, Wanted::Page)?;
    Ok(())
}
