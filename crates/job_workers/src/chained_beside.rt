//! Launches that a worker chains before they are given to it.
ghost use Rattle.std.specs.Prelude.{◌≡◌, ◌<◌, ◌≤◌, length, map, option_map, IfSome};
ghost use Rattle.rim_desc.specs.declared.side_by_side.TheConstants.{MOST_LANES};
ghost use Rattle.job_workers.specs.declared.chained_beside.TheConstants.{MOST_OTHERS};

use crate::board::Board;
use job_board::{
    ChainedLaunch, LaunchTask, OwnValue, Run, begin_each, most_stops, put_values, run_to_stop,
    set_stop,
};
use page_jobs::DigestRow;
use rim_chain::no_chains;
use rim_desc::{Algo, MOST_LANES};
use std::sync::Wait;

/// The most launches that are chained beside one.
const MOST_OTHERS: usize = MOST_LANES - 1;

/// Rows for launches that are chained beside another, and the measurements of those that were chained so last.
///
/// A worker that is given a launch chains others with it side by side, where the board lends it as many as go best, since the
/// board prefers to give it these next. Their measurements are put when their own jobs are given. Where another worker is given
/// such a job, it chains the launch anew.
#[derive(Drop)]
pub(crate) struct ChainedBeside<L: Run> {
    rows: [Option<DigestRow>; MOST_OTHERS],
    values: [Option<OwnValue<L>>; MOST_LANES],
}

impl<L: Run> ChainedBeside<L> {
    /// No launch was chained beside another. It has no rows.
    pub(crate) fn new() -> ChainedBeside<L> {
        ChainedBeside {
            rows: [None, None, None, None, None, None, None],
            values: [None, None, None, None, None, None, None, None],
        }
    }

    /// Chains a launch that was given, unless that was done beside another.
    pub(crate) fn run<'a>(
        &mut self,
        rt: &impl Wait,
        board: &Board<'a, L>,
        worker: usize,
        task: LaunchTask<'a, L>,
    ) -> ChainedLaunch<'a, L>
        ensures { result.job ≡ task.entry }
    {
        if let Some(value) = taken(&mut self.values, task.number()) {
            return task.known(value);
        }
        let mut tasks = [None, None, None, None, None, None, None, None];
        let tasks = &mut tasks[..];
        let algo = task.algo();
        let count = self.lend(rt, board, worker, &task, tasks);
        tasks[0] = Some(task);
        chain_each(rt, board, algo, &tasks[..count], &mut self.values[..count]);
        let (Some(task), Some(value)) = (tasks[0].take(), self.values[0].take()) else {
            unreachable!()
        };
        self.keep_rows(tasks);
        task.known(value)
    }

    /// Puts launches that the board lends in these places, after the one for the launch itself, in the rows for them. Answers in how
    /// many lanes all these are best chained: as many as are quick side by side, also where fewer launches were lent.
    fn lend<'a>(
        &mut self,
        rt: &impl Wait,
        board: &Board<'a, L>,
        worker: usize,
        task: &LaunchTask<'a, L>,
        tasks: &mut [Option<LaunchTask<'a, L>>],
    ) -> usize
        requires { length tasks.old ≡ MOST_LANES }
        ensures size { length tasks.new ≡ length tasks.old }
        ensures count { (0 < result) × (result ≤ MOST_LANES) }
    {
        let count = board.lend_count(rt, worker, task.algo());
        for i in 0..count {
            let Some(row) = self.row(rt, board, i) else {
                break;
            };
            match board.lend(rt, worker, i, row) {
                Ok(other) => tasks[i + 1] = Some(other),
                Err(row) => {
                    self.rows[i] = Some(row);
                    break;
                }
            }
        }
        count + 1
    }

    /// A row for the launch in a place, which the board lends where none is kept.
    fn row(&mut self, rt: &impl Wait, board: &Board<'_, L>, place: usize) -> Option<DigestRow>
        requires { place < MOST_OTHERS }
    {
        match self.rows[place].take() {
            Some(row) => Some(row),
            None => board.lend_row(rt),
        }
    }

    /// Keeps the rows of launches that were lent, for others. The first place is the given launch's.
    fn keep_rows<'a>(&mut self, tasks: &mut [Option<LaunchTask<'a, L>>])
        requires { length tasks.old ≡ MOST_LANES }
    {
        for i in 0..MOST_OTHERS {
            if let Some(other) = tasks[i + 1].take() {
                self.rows[i] = Some(other.into_row());
            }
        }
    }
}

/// Chains launches side by side, writes their measurements, each in its own place, and lets the board keep each prefix that others
/// go on from when a chain comes to it.
fn chain_each<'a, L: Run>(
    rt: &impl Wait,
    board: &Board<'a, L>,
    algo: Algo,
    tasks: &[Option<LaunchTask<'a, L>>],
    values: &mut [Option<OwnValue<L>>],
)
    requires few { length tasks.now ≤ MOST_LANES }
    requires room { length values.old ≡ length tasks.now }
    ensures { values.new ≡ map (option_map (λ t. t.number)) tasks.now }
{
    let mut chains = no_chains(algo);
    let chains = &mut chains[..tasks.len()];
    begin_each(tasks, chains);
    'stops: for _ in 0..most_stops(tasks) {
        let Some((place, prefix)) = run_to_stop(tasks, chains) else {
            break;
        };
        set_stop(tasks, chains, place, board.keep_prefix(rt, prefix));
    }
    put_values(tasks, chains, values);
}

/// Takes the measurement of the launch of this number, if it is in one of these places.
fn taken<L: Run>(places: &mut [Option<OwnValue<L>>], number: usize) -> Option<OwnValue<L>>
    ensures { IfSome result (λ value. value ≡ number) }
{
    for i in 0..places.len() {
        match &places[i] {
            Some(value) if value.number() == number => return places[i].take(),
            _ => {}
        }
    }
    None
}
