//! Runs of workers over pages: what is counted, who is started, and what is called around each job.
ghost use Rattle.std.specs.Prelude.{◌≡◌, [], length, replicate, None};
ghost use Rattle.std.specs.List.{All, Contains};
ghost use Rattle.page_jobs.specs.Table.{page_keys_of};
ghost use Rattle.launch_plan.specs.Links.{keys_of as link_keys};

use super::{STACK, check, pages_of, plans_of};
use job_board::{BoardState, JobId, PageTask, Run, Share, Work};
use job_board_tests::has_all_keys;
use job_workers::{Board, FreeGate, Gate, run_workers_on};
use page_jobs::Table;
use refusal::NoMemory;
use rim_chain::LaunchPlan;
use std::alloc::Global;
use std::marker::Brand;
use std::process::Abort;
use std::sync::Wait;
use std::sync::atomic::{AtomicU64, Ordering};
use std::sync::ledger::Blank;
use std::test::Fail;
use std::thread;
use std::thread::Threads;

/// Six pages of the same byte, and one that ends early.
const BYTES: [u8; 25_000] = [7; 25_000];

/// Holds the first page until another was put, for a number of turns; and counts the workers that begin, and the pages that worker 0 and
/// the others put. There are no launches, but a worker takes by another call where launches may wait.
#[derive(Drop)]
struct Hold {
    starts: AtomicU64,
    begun: AtomicU64,
    first: AtomicU64,
    others: AtomicU64,
    in_vain: AtomicU64,
    turns: u64,
    lets_wait: bool,
}

impl Gate for Hold {
    fn start(&self, _worker: usize) {
        self.starts.fetch_add(1, Ordering::SeqCst);
    }

    fn before(&self, _worker: usize, _job: JobId) {
        if self.begun.fetch_add(1, Ordering::SeqCst) > 0 {
            return;
        }
        for _turn in 0..self.turns {
            if self.first.load(Ordering::SeqCst) > 0 || self.others.load(Ordering::SeqCst) > 0 {
                return;
            }
            thread::yield_now();
        }
        self.in_vain.fetch_add(1, Ordering::SeqCst);
    }

    fn after(&self, worker: usize, _job: JobId) {
        let count = if worker == 0 {
            &self.first
        } else {
            &self.others
        };
        count.fetch_add(1, Ordering::SeqCst);
    }

    fn lets_launches_wait(&self) -> bool {
        self.lets_wait
    }
}

fn holding(turns: u64, lets_wait: bool) -> Hold {
    Hold {
        starts: AtomicU64::new(0),
        begun: AtomicU64::new(0),
        first: AtomicU64::new(0),
        others: AtomicU64::new(0),
        in_vain: AtomicU64::new(0),
        turns,
        lets_wait,
    }
}

/// Compares how many pages worker 0 and the others put.
fn check_counts(rt: &impl Abort, gate: &Hold, counts: &[u64; 2]) {
    check(
        rt,
        counts[0] == gate.first.load(Ordering::SeqCst),
        "worker 0",
    );
    check(
        rt,
        counts[1] == gate.others.load(Ordering::SeqCst),
        "the others",
    );
}

/// Runs workers over the pages of a table. They are to be this many, and to put what the gate counted.
fn run<L: Run + Send + Sync, R: Threads + Wait + Abort + Sync>(
    rt: &R,
    alloc: Global,
    blank: Blank,
    table: Table,
    gate: &mut Hold,
    stack_size: usize,
    started: usize,
) -> Result<(), NoMemory>
    requires name { blank.name ≡ L.name }
    requires parts { (blank.parts ≡ L.parts) × (blank.parts ≡ 2) }
    requires pages { table.pages ≡ L.pages }
    requires plans { [] ≡ L.plans }
    requires empty { table.digests ≡ replicate (length table.pages) None }
{
    let (state, shares) = BoardState::<L>::new(alloc, blank, 2, table, &[])?;
    let board = Board::new(state);
    let mut counts = [0; 2];
    let tally = run_workers_on(rt, gate, &board, shares, &mut counts, &mut [], stack_size);
    check(rt, tally.pages == 7, "seven pages");
    check(rt, tally.started == started, "workers that are started");
    check(
        rt,
        gate.starts.load(Ordering::SeqCst) == started as u64,
        "workers that begin",
    );
    check_counts(rt, gate, &counts);
    Ok(())
}

/// Runs two workers over seven pages, of whom this many are started.
fn run_over_seven<R: Threads + Wait + Abort + Sync>(
    rt: &R,
    alloc: Global,
    gate: &mut Hold,
    stack_size: usize,
    started: usize,
) -> Result<(), NoMemory> {
    let pages = pages_of(alloc, &BYTES, 7)?;
    let table = Table::reserve(alloc, &pages)?;
    run::<Brand, R>(rt, alloc, Blank::new(2), table, gate, stack_size, started)
}

/// Both put pages, and none waited in vain.
fn check_both<R: Threads + Wait + Abort + Sync>(
    rt: &R,
    alloc: Global,
    lets_wait: bool,
) -> Result<(), NoMemory> {
    let mut gate = holding(100_000_000, lets_wait);
    run_over_seven(rt, alloc, &mut gate, STACK, 2)?;
    check(rt, gate.first.load(Ordering::SeqCst) > 0, "worker 0");
    check(rt, gate.others.load(Ordering::SeqCst) > 0, "the other");
    check(rt, gate.in_vain.load(Ordering::SeqCst) == 0, "none in vain");
    Ok(())
}

#[test]
fn two_workers_at_a_time(rt: HostRuntime) -> Result<(), Fail> {
    for lets_wait in [false, true] {
        check_both(&rt, rt.alloc(), lets_wait)?;
    }
    Ok(())
}

/// Worker 0 puts all pages where no other can be started.
fn check_alone<R: Threads + Wait + Abort + Sync>(
    rt: &R,
    alloc: Global,
    lets_wait: bool,
) -> Result<(), NoMemory> {
    let mut gate = holding(0, lets_wait);
    run_over_seven(rt, alloc, &mut gate, usize::MAX, 1)?;
    check(rt, gate.first.load(Ordering::SeqCst) == 7, "worker 0");
    Ok(())
}

#[test]
fn no_worker_can_be_started(rt: HostRuntime) -> Result<(), Fail> {
    for lets_wait in [false, true] {
        check_alone(&rt, rt.alloc(), lets_wait)?;
    }
    Ok(())
}

/// The page that a worker is given.
fn page_taken<'a, L: Run>(
    rt: &(impl Wait + Abort),
    board: &Board<'a, L>,
    worker: usize,
) -> PageTask<'a, L> {
    match board.take(rt, worker) {
        Work::Page(task) => task,
        _ => panic!(rt; "the page is free"),
    }
}

/// Worker 1 has taken the one page before the run. In the run it is given no job, so it retires. Worker 0 sleeps until
/// then, and puts the page.
fn run_after_take<L: Run + Send + Sync, R: Threads + Wait + Abort + Sync>(
    rt: &R,
    alloc: Global,
    blank: Blank,
    table: Table,
) -> Result<(), NoMemory>
    requires name { blank.name ≡ L.name }
    requires parts { (blank.parts ≡ L.parts) × (blank.parts ≡ 2) }
    requires pages { table.pages ≡ L.pages }
    requires plans { [] ≡ L.plans }
    requires empty { table.digests ≡ replicate (length table.pages) None }
{
    let (state, shares) = BoardState::<L>::new(alloc, blank, 2, table, &[])?;
    let board = Board::new(state);
    let _task = page_taken(rt, &board, 1);
    let mut counts = [0; 2];
    run_workers_on(
        rt,
        &mut FreeGate,
        &board,
        shares,
        &mut counts,
        &mut [],
        STACK,
    );
    check(rt, counts == [1, 0], "worker 0 puts the page");
    Ok(())
}

#[test]
fn a_worker_that_holds_a_job_retires(rt: HostRuntime) -> Result<(), Fail> {
    let pages = pages_of(rt.alloc(), &BYTES, 1)?;
    let table = Table::reserve(rt.alloc(), &pages)?;
    run_after_take::<Brand, HostRuntime>(&rt, rt.alloc(), Blank::new(2), table)?;
    Ok(())
}

/// A worker offers the first page under the lock; it is to be taken or handed back so, and then the worker's share is to be
/// this.
fn offer<L: Run>(
    rt: &(impl Wait + Abort),
    board: &Board<'_, L>,
    shares: &mut [Share<L>],
    worker: usize,
    is_taken: bool,
    count: u64,
) {
    let Some(task) = PageTask::new(board.pages(rt), 0) else {
        panic!(rt; "the page exists");
    };
    let share = shares.get_mut(worker).expect(rt, "a share");
    let answer = board.put_page(rt, worker, task.run(), share);
    check(rt, answer.is_ok() == is_taken, "whether it is taken");
    check(rt, share.count() == count, "the share");
}

/// Worker 0 takes the page, and is given no other job.
fn take_page<L: Run>(rt: &(impl Wait + Abort), board: &Board<'_, L>) {
    let task = page_taken(rt, board, 0);
    check(rt, task.number() == 0, "page 0");
    check(
        rt,
        matches!(board.take(rt, 0), Work::Busy),
        "worker 0 is busy",
    );
}

/// Worker 0 takes the launch and puts it.
fn put_launch<L: Run>(rt: &(impl Wait + Abort), board: &Board<'_, L>) {
    let Work::Launch(task) = board.take(rt, 0) else {
        panic!(rt; "the launch has its page");
    };
    let answer = board.put_launch(rt, 0, task.run());
    check(rt, answer.is_ok(), "the launch is taken");
}

/// Worker 0 puts a page and the launch that measures it. No other worker can put the page, and no page is put twice.
fn put_once_on<L: Run>(rt: &(impl Wait + Abort), board: &Board<'_, L>, shares: &mut [Share<L>]) {
    take_page(rt, board);
    offer(rt, board, shares, 1, false, 0);
    offer(rt, board, shares, 0, true, 1);
    offer(rt, board, shares, 0, false, 1);
    put_launch(rt, board);
    check(rt, matches!(board.take(rt, 0), Work::Done), "all is done");
}

/// The same on a new board.
fn put_once<'a, L: Run>(
    rt: &(impl Wait + Abort),
    alloc: Global,
    blank: Blank,
    table: Table<'a>,
    plans: &'a [LaunchPlan],
) -> Result<(), NoMemory>
    requires name { blank.name ≡ L.name }
    requires parts { (blank.parts ≡ L.parts) × (blank.parts ≡ 2) }
    requires pages { table.pages ≡ L.pages }
    requires plans { plans.now ≡ L.plans }
    requires keys { All
        (λ p. All (Contains (page_keys_of table.pages)) (link_keys p.links))
        plans.now }
    requires empty { table.digests ≡ replicate (length table.pages) None }
{
    let (state, mut shares) = BoardState::<L>::new(alloc, blank, 2, table, plans)?;
    put_once_on(rt, &Board::new(state), &mut shares);
    Ok(())
}

#[test]
fn a_page_and_its_launch_are_put_once(rt: HostRuntime) -> Result<(), Fail> {
    let pages = pages_of(rt.alloc(), &[1, 2, 3], 1)?;
    let table = Table::reserve(rt.alloc(), &pages)?;
    let plans = plans_of(&rt, rt.alloc(), 1, 1);
    let plans = plans.as_slice();
    if !has_all_keys(&table, plans) {
        panic!(rt; "the launch's page exists");
    }
    put_once::<Brand>(&rt, rt.alloc(), Blank::new(2), table, plans)?;
    Ok(())
}
