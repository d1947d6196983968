//! The measurements of launches by their plans, on one thread.
ghost use Rattle.std.specs.Prelude.{◌≡◌, ◌≤◌, IfOk, IfSome, Some, length, map, true};
ghost use Rattle.std.specs.List.{All, slice_get};
ghost use Rattle.rim_desc.specs.declared.side_by_side.TheConstants.{MOST_LANES};
ghost use Rattle.launch_plan.specs.Links.{keys_of};
ghost use Rattle.launch_plan.specs.Rows.{has_all, value_in};
ghost use Rattle.job_tasks.specs.Tasks.{IsOwnValue};

use job_board::{
    LaunchGroup, LaunchGroups, LaunchTask, OwnPrefix, OwnValue, Run, WorkerRow, begin_each,
    filled_task, most_lanes, most_stops, plan_at, put_values, run_to_stop, set_stop, worker_rows,
};
use page_jobs::{DigestRow, Table};
use refusal::NoMemory;
use rim_chain::{LaunchPlan, SharedPrefix, SharedPrefixes, chain, most_pages, no_chains};
use rim_desc::{Algo, Lanes, MOST_LANES, Measurement};
use std::alloc::Global;
use std::marker::{Brand, Model};

/// The Realm Initial Measurements of launches by their plans, where a table has the digests of all their pages. They are chained in
/// the groups in which a board gives them to one worker.
pub fn chains<'a>(
    alloc: Global,
    lanes: Lanes,
    table: &Table<'a>,
    plans: &'a [LaunchPlan],
) -> Result<Vec<Measurement>, NoMemory>
    requires { All (λ v. has_all table.now (keys_of v.links) ≡ true) plans.now }
    ensures { IfOk result
        (λ rims. map (λ m. m.bytes) rims.items ≡ map (value_in table.now) plans.now) }
{
    chains_of_run::<Brand>(alloc, lanes, table, plans)
}

/// The same of a run with these pages and plans.
fn chains_of_run<'a, L: Run>(
    alloc: Global,
    lanes: Lanes,
    table: &Table<'a>,
    plans: &'a [LaunchPlan],
) -> Result<Vec<Measurement>, NoMemory>
    requires pages { table.now.pages ≡ L.pages }
    requires plans { plans.now ≡ L.plans }
    requires all { All (λ v. has_all table.now (keys_of v.links) ≡ true) plans.now }
    ensures { IfOk result
        (λ rims. map (λ m. m.bytes) rims.items ≡ map (value_in table.now) plans.now) }
{
    let mut rims = Vec::with_capacity(alloc, plans.len())?;
    let mut chaining = Chaining::<L>::new(alloc, lanes, plans)?;
    chaining.chain_groups(table, plans);
    for number in 0..plans.len() {
        let plan = &plans[number];
        let rim = match chaining.value(number) {
            Some(value) => own_rim::<L>(table, plan, number, value),
            None => chained_alone(alloc, table, plan)?,
        };
        rims.push(rim)?;
    }
    Ok(rims)
}

/// The measurement of the launch of a number, which was found, is what its plan chains to in the table.
fn own_rim<L: Run>(
    table: &Table,
    plan: &LaunchPlan,
    number: usize,
    value: Measurement,
) -> Measurement
    requires pages { table.now.pages ≡ L.pages }
    requires plan { slice_get L.plans number ≡ Some plan.now }
    requires all { has_all table.now (keys_of plan.now.links) ≡ true }
    requires own { IsOwnValue L.pages L.plans number value }
    ensures { result.bytes ≡ value_in table.now plan.now }
{
    // Each filled slot of a table has the digest of its own page.
    let _pages = table.pages();
    value
}

/// The measurement of a launch that was in no group.
fn chained_alone(alloc: Global, table: &Table, plan: &LaunchPlan) -> Result<Measurement, NoMemory>
    requires { has_all table.now (keys_of plan.now.links) ≡ true }
    ensures { IfOk result (λ rim. rim.bytes ≡ value_in table.now plan.now) }
{
    let mut row = DigestRow::reserve(alloc, plan.pages())?;
    if !plan.fill_row(table, &mut row) {
        unreachable!()
    }
    Ok(chain(plan, &row))
}

/// The launches of a run that are chained, group by group.
#[derive(Drop)]
struct Chaining<'a, L: Run> {
    prefixes: SharedPrefixes,
    groups: LaunchGroups,
    /// The row of each lane.
    rows: Vec<Option<WorkerRow<'a, L>>>,
    /// The measurement of each launch that is chained, in the order of the plans.
    values: Vec<Option<OwnValue<L>>>,
}

impl<'a, L: Run> Model for Chaining<'a, L> {
    ghost use Rattle.rim_chain.specs.SharedPrefixes.{AreShared};
    ghost use Rattle.job_tasks.specs.Tasks.{whole_table};

    ghost Value = { Unit {0} };

    ghost view = { λ c. tt };

    ghost invariant = { λ c. AreShared (whole_table L.pages) L.plans c.prefixes };
}

impl<'a, L: Run> Chaining<'a, L> {
    /// No launch is chained. No later call takes memory.
    fn new(alloc: Global, lanes: Lanes, plans: &[LaunchPlan]) -> Result<Chaining<'a, L>, NoMemory>
        requires plans { plans.now ≡ L.plans }
    {
        let prefixes = SharedPrefixes::new(alloc, plans)?;
        let groups = LaunchGroups::new(alloc, plans, &prefixes, lanes)?;
        let rows = worker_rows(alloc, most_pages(plans), most_lanes(plans, lanes))?;
        let mut values = Vec::with_capacity(alloc, plans.len())?;
        for _ in 0..plans.len() {
            values.push(None)?;
        }
        Ok(Chaining {
            prefixes,
            groups,
            rows,
            values,
        })
    }

    /// The measurement of the launch of a number, where it is chained.
    fn value(&self, number: usize) -> Option<Measurement>
        ensures { IfSome result (IsOwnValue L.pages L.plans number) }
    {
        match self.values.get(number)? {
            Some(value) if value.number() == number => Some(value.value()),
            _ => None,
        }
    }

    /// Chains launches as long as there are groups of them.
    fn chain_groups(&mut self, table: &Table<'a>, plans: &'a [LaunchPlan])
        requires pages { table.now.pages ≡ L.pages }
        requires plans { plans.now ≡ L.plans }
        requires all { All (λ v. has_all table.now (keys_of v.links) ≡ true) plans.now }
    {
        for _ in 0..plans.len() {
            let Some(group) = self.groups.next(plans, &self.prefixes) else {
                return;
            };
            self.chain_group(table, plans, &group);
        }
    }

    /// Chains the launches of a group, and keeps their measurements, and each row for the next launch in its lane.
    fn chain_group(&mut self, table: &Table<'a>, plans: &'a [LaunchPlan], group: &LaunchGroup)
        requires pages { table.now.pages ≡ L.pages }
        requires plans { plans.now ≡ L.plans }
        requires all { All (λ v. has_all table.now (keys_of v.links) ≡ true) plans.now }
        requires lanes { group.now.lanes ≤ MOST_LANES }
    {
        let mut tasks = [None, None, None, None, None, None, None, None];
        let tasks = &mut tasks[..];
        self.begin_each(table, plans, group, tasks);
        let mut values = [None, None, None, None, None, None, None, None];
        let values = &mut values[..group.lanes];
        self.chain_each(group.algo, &tasks[..group.lanes], values);
        self.keep_each(tasks, values);
    }

    /// Puts the jobs of the launches of a group in these places.
    fn begin_each(
        &mut self,
        table: &Table<'a>,
        plans: &'a [LaunchPlan],
        group: &LaunchGroup,
        tasks: &mut [Option<LaunchTask<'a, L>>],
    )
        requires pages { table.now.pages ≡ L.pages }
        requires plans { plans.now ≡ L.plans }
        requires all { All (λ v. has_all table.now (keys_of v.links) ≡ true) plans.now }
        requires lanes { group.now.lanes ≤ MOST_LANES }
        requires size { length tasks.old ≡ MOST_LANES }
        ensures size { length tasks.new ≡ length tasks.old }
    {
        for lane in 0..group.lanes {
            if let Some(number) = group.numbers[lane] {
                tasks[lane] = self.task(table, plans, lane, number);
            }
        }
    }

    /// The job of a launch, with the row of a lane.
    fn task(
        &mut self,
        table: &Table<'a>,
        plans: &'a [LaunchPlan],
        lane: usize,
        number: usize,
    ) -> Option<LaunchTask<'a, L>>
        requires pages { table.now.pages ≡ L.pages }
        requires plans { plans.now ≡ L.plans }
        requires all { All (λ v. has_all table.now (keys_of v.links) ≡ true) plans.now }
    {
        if number >= plans.len() {
            return None;
        }
        let plan = plan_at(plans, number);
        let row = self.rows.get_mut(lane)?.take()?;
        let row = row.filled_for(table, plan);
        Some(filled_task(table, plans, &self.prefixes, number, plan, row))
    }

    /// Chains launches side by side and writes their measurements, each in its own place. Each prefix that others go on from is kept
    /// when a chain comes to it.
    fn chain_each(
        &mut self,
        algo: Algo,
        tasks: &[Option<LaunchTask<'a, L>>],
        values: &mut [Option<OwnValue<L>>],
    )
        requires few { length tasks.now ≤ MOST_LANES }
        requires room { length values.old ≡ length tasks.now }
        ensures { length values.new ≡ length values.old }
    {
        let mut chains = no_chains(algo);
        let chains = &mut chains[..tasks.len()];
        begin_each(tasks, chains);
        'stops: for _ in 0..most_stops(tasks) {
            let Some((lane, prefix)) = run_to_stop(tasks, chains) else {
                break;
            };
            set_stop(tasks, chains, lane, self.keep_prefix(prefix));
        }
        put_values(tasks, chains, values);
    }

    /// Keeps a prefix that others go on from. Answers after how many links the next ones go on from the same launch, if any do.
    fn keep_prefix(&mut self, prefix: OwnPrefix<L>) -> Option<usize> {
        let launch = prefix.number();
        let prefix = prefix.into_prefix();
        let links = prefix.links;
        if self.prefixes.keep(launch, prefix) {
            self.groups.note_chained(SharedPrefix { launch, links });
        }
        self.prefixes.next_stop(launch, links)
    }

    /// Keeps what chaining launches gave, each in its lane.
    fn keep_each(
        &mut self,
        tasks: &mut [Option<LaunchTask<'a, L>>],
        values: &mut [Option<OwnValue<L>>],
    )
        requires { length values.old ≤ length tasks.old }
    {
        for lane in 0..values.len() {
            if let (Some(task), Some(value)) = (tasks[lane].take(), values[lane].take()) {
                self.keep(lane, task, value);
            }
        }
    }

    /// Keeps the measurement of a launch, and the row that it had, for the next one in its lane.
    fn keep(&mut self, lane: usize, task: LaunchTask<'a, L>, value: OwnValue<L>) {
        let number = value.number();
        if lane < self.rows.len() {
            self.rows[lane] = Some(task.into_worker_row());
        }
        if number < self.values.len() {
            self.values[number] = Some(value);
        }
    }
}
