//! A run: workers in threads of their own, until all jobs of a board are done.
ghost use Rattle.std.specs.Prelude.{◌≡◌, ◌≤◌, ◌<◌, length, sum, vec_len};
ghost use Rattle.job_board.specs.Board.{AreValuesOf, BoardView, IsBoard, IsOfRun};

use crate::board::Board;
use crate::gate::Gate;
use crate::worker::{Early, run_job, work};
use job_board::{Run, Share, Work};
use rim_desc::Measurement;
use std::sync::Wait;
use std::thread;
use std::thread::Threads;

/// The bytes of a worker's stack.
const STACK: usize = 1 << 21;

/// How many workers were started, and how many pages were hashed.
#[derive(Drop)]
pub struct Tally {
    pub started: usize,
    pub pages: u64,
}

/// Does all jobs of a board, by as many workers as there are shares; the caller is worker 0. The run does without a worker
/// that cannot be started. Writes how many pages each worker has put, and the value of each launch in the order of the
/// plans. The board that it finds first has in its book what the shares have counted.
///
/// A launch is ready when its own pages are done. A worker that finds nothing ready sleeps until a put or a retirement is
/// accepted; so does one that finds only launches that should wait for others, where the gate lets launches wait. When all
/// workers have ended, the others are retired, and worker 0 does what is left, until a take finds all jobs done. What is
/// written is read under the same lock.
///
/// The gate is borrowed to be changed, and no clause says what it is after the run. So a caller whose own contract says
/// that the gate is as it was has started no worker with this gate.
pub fn run_workers<L: Run + Send + Sync, G: Gate + Sync, R: Threads + Wait + Sync>(
    rt: &R,
    gate: &mut G,
    board: &Board<'_, L>,
    shares: Vec<Share<L>>,
    counts: &mut [u64],
    values: &mut [Measurement],
) -> Tally
    requires whole { vec_len shares ≡ L.parts }
    requires some { 0 < vec_len shares }
    requires counts { length counts.old ≡ vec_len shares }
    requires values { length values.old ≡ length L.plans }
    ensures fresh { (found : BoardView) × IsBoard found × IsOfRun L.pages L.plans found
        × (found.book ≡ sum shares.items) }
    ensures started { (1 ≤ result.started) × (result.started ≤ vec_len shares) }
    ensures pages { result.pages ≡ length L.pages }
    ensures sum { sum counts.new ≡ result.pages }
    ensures values { AreValuesOf L.pages L.plans values.new }
{
    run_workers_on(rt, gate, board, shares, counts, values, STACK)
}

/// The same, with this many bytes for the stack of each worker. Where they are too many no worker can be started.
pub fn run_workers_on<L: Run + Send + Sync, G: Gate + Sync, R: Threads + Wait + Sync>(
    rt: &R,
    gate: &mut G,
    board: &Board<'_, L>,
    shares: Vec<Share<L>>,
    counts: &mut [u64],
    values: &mut [Measurement],
    stack_size: usize,
) -> Tally
    requires whole { vec_len shares ≡ L.parts }
    requires some { 0 < vec_len shares }
    requires counts { length counts.old ≡ vec_len shares }
    requires values { length values.old ≡ length L.plans }
    ensures fresh { (found : BoardView) × IsBoard found × IsOfRun L.pages L.plans found
        × (found.book ≡ sum shares.items) }
    ensures started { (1 ≤ result.started) × (result.started ≤ vec_len shares) }
    ensures pages { result.pages ≡ length L.pages }
    ensures sum { sum counts.new ≡ result.pages }
    ensures values { AreValuesOf L.pages L.plans values.new }
{
    let gate = &*gate;
    let mut shares = shares;
    board.audit_shares(rt, &mut shares);
    round(rt, gate, board, &mut shares, stack_size);
    let started = started(&shares);
    retire_others(rt, board, shares.len());
    let pages = finish(rt, gate, board, shares, counts, values);
    Tally { started, pages }
}

/// Workers 1 and up in threads of a scope, and worker 0 here, until no job is given to any of them. Each is lent its
/// share until all have ended.
fn round<L: Run + Send + Sync, G: Gate + Sync, R: Threads + Wait + Sync>(
    rt: &R,
    gate: &G,
    board: &Board<'_, L>,
    shares: &mut Vec<Share<L>>,
    stack_size: usize,
)
    requires { 0 < vec_len shares.old }
    ensures { vec_len shares.new ≡ vec_len shares.old }
{
    let gate = &*gate;
    let board = &*board;
    let rt = &*rt;
    let lent = shares.as_mut_slice();
    thread::scope(
        thread::scope_env(),
        rt,
        move |scope|
            requires { 0 < length lent.now }
        {
            let Some((mine, others)) = lent.split_first_mut() else {
                unreachable!()
            };
            for (k, share) in others.iter_mut().enumerate() {
                let _ = thread::Builder::new()
                    .stack_size(stack_size)
                    .spawn_scoped(scope, move || work(rt, gate, board, k + 1, share));
            }
            work(rt, gate, board, 0, mine);
        },
    )
}

/// How many workers were started, worker 0 among them.
fn started<L: Run>(shares: &[Share<L>]) -> usize
    requires { 0 < length shares.now }
    ensures { (1 ≤ result) × (result ≤ length shares.now) }
{
    let mut started = 1;
    for share in &shares[1..] {
        if share.is_started() {
            started += 1;
        }
    }
    started
}

/// Retires workers 1 and up: those that were started have done so, and the others hold no job.
fn retire_others<L: Run>(rt: &impl Wait, board: &Board<'_, L>, workers: usize) {
    for worker in 1..workers {
        board.retire(rt, worker);
    }
}

/// Does as worker 0 what is left, until all jobs are done; then ends the run in the critical section that found this.
fn finish<'a, L: Run, G: Gate, R: Wait>(
    rt: &R,
    gate: &G,
    board: &Board<'a, L>,
    shares: Vec<Share<L>>,
    counts: &mut [u64],
    values: &mut [Measurement],
) -> u64
    requires whole { vec_len shares ≡ L.parts }
    requires some { 0 < vec_len shares }
    requires counts { length counts.old ≡ vec_len shares }
    requires values { length values.old ≡ length L.plans }
    ensures pages { result ≡ length L.pages }
    ensures sum { sum counts.new ≡ result }
    ensures values { AreValuesOf L.pages L.plans values.new }
{
    let mut shares = shares;
    let mut early = Early::new(rt, board, gate.lanes());
    for _ in rt.forever() {
        let mut state = board.lock(rt);
        let given = state.take(0);
        if matches!(given, Work::Done) {
            return state.close(shares, counts, values);
        }
        drop(state);
        run_job(rt, gate, board, 0, &mut shares[0], &mut early, given);
    }
    unreachable!()
}
