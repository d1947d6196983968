//! A board's state: what it keeps, and what a put, a retirement and the end of a run make of it.
ghost use Rattle.std.specs.Prelude.{◌≡◌, ◌<◌, ◌≤◌, ◌+◌, ◌⊎◌, List, [], ◌∷◌, ◌++◌, false, true, length, map, replicate, sum, vec_len, IfErr, IfOk, None, OnErr, OnOk, Some, slice_set, vec_capacity};
ghost use Rattle.std.specs.List.{All, Contains};
ghost use Rattle.job_core.specs.declared.job.Event.{Event};
ghost use Rattle.job_core.specs.declared.job.JobId.{JobId};
ghost use Rattle.job_board.specs.Board.{Adds, AreValuesOf, CanPutJob, CanPutPage, IsBoard, IsOfRun, NeedsOwn, SameRest};
ghost use Rattle.job_board.specs.History.{IsHistory, most_events};
ghost use Rattle.job_core.specs.Step.{core_step};
ghost use Rattle.refusal.specs.Answer.{Matches};
ghost use Rattle.job_core.specs.Jobs.{NeedsWithin, is_out, is_over, opening};
ghost use Rattle.page_jobs.specs.Page.{page_view};
ghost use Rattle.page_jobs.specs.Table.{IsTable, TableView, page_keys_of as page_keys, with_digest};
ghost use Rattle.launch_plan.specs.Links.{PlanView, keys_of};
ghost use Rattle.launch_plan.specs.Rows.{value_in};
ghost use Rattle.rim_chain.specs.SharedPrefixes.{AreShared};
ghost use Rattle.job_core.specs.declared.machine.TheConstants.{WORKER_LIMIT};

mod giving;

use crate::closing::{add_up, audit_all, copy_values, write_counts};
use crate::lending::{Lending, most_others};
use crate::own_needs::own_needs;
use crate::preferences::Preferences;
use crate::share::{Share, cut};
use job_core::{Core, CoreFault, Event, JobId};
use job_tasks::{
    ChainedLaunch, HashedPage, KeptPrefix, OwnPrefix, Run, WorkerRow, keep_row, lent_rows, plan_at,
    worker_rows,
};
use page_jobs::{Page, Table};
use refusal::NoMemory;
use rim_chain::{LaunchPlan, SharedPrefix, SharedPrefixes, most_pages};
use rim_desc::{Lanes, Measurement};
use std::alloc::Global;
use std::marker::Model;
use std::sync::ledger::{Blank, Book};

/// The core and its history, the table, the plans, the rows, the values of launches and of the prefixes that launches
/// have in common, which job each worker is best given next, and the ledger's book. Its type says that the core is what its
/// history leaves, that each filled slot, each value and each prefix is its own job's, that as many pages are done as the book
/// says, and that pages and plans are those of its run.
#[derive(Drop)]
pub struct BoardState<'a, L: Run> {
    core: Core,
    history: Vec<Event>,
    table: Table<'a>,
    plans: &'a [LaunchPlan],
    /// Of each worker the row that its next launch is given in; it is with the launch as long as the worker holds one.
    rows: Vec<Option<WorkerRow<'a, L>>>,
    /// The most pages of a launch, for which each row has room.
    room: usize,
    results: Vec<Option<Measurement>>,
    prefixes: SharedPrefixes,
    preferences: Preferences,
    book: Book<L>,
}

impl<'a, L: Run> Model for BoardState<'a, L> {
    ghost use Rattle.std.specs.Prelude.{◌≤◌, vec_capacity};
    ghost use Rattle.job_board.specs.Board.{BoardView, IsBoard, IsOfRun};
    ghost use Rattle.job_board.specs.History.{most_events};
    ghost use Rattle.job_tasks.specs.Tasks.{whole_table};
    ghost use Rattle.job_tasks.specs.inside.Rows.{HasRows};
    ghost use Rattle.rim_chain.specs.SharedPrefixes.{AreShared};

    ghost Value = { BoardView };

    ghost view = { λ b. record {
      core = b.core;
      history = b.history.items;
      table = b.table;
      plans = b.plans.now;
      results = b.results.items;
      book = b.book.total;
    } };

    ghost invariant = { λ b. IsBoard (record {
      core = b.core;
      history = b.history.items;
      table = b.table;
      plans = b.plans.now;
      results = b.results.items;
      book = b.book.total;
    }) × (most_events b.core ≤ vec_capacity b.history)
        × HasRows b.core b.plans.now b.rows.items b.room
        × AreShared (whole_table L.pages) L.plans b.prefixes
        × IsOfRun L.pages L.plans (record {
          core = b.core;
          history = b.history.items;
          table = b.table;
          plans = b.plans.now;
          results = b.results.items;
          book = b.book.total;
        }) };
}

impl<'a, L: Run> BoardState<'a, L> {
    /// A board of 1 to 64 workers, all of whose jobs are to be done, and a share for each worker. Each launch needs just the
    /// pages of its own plan. It takes all memory that the board's calls need; the table is dropped where that is refused.
    pub fn new(
        alloc: Global,
        blank: Blank,
        workers: usize,
        table: Table<'a>,
        plans: &'a [LaunchPlan],
    ) -> Result<(BoardState<'a, L>, Vec<Share<L>>), NoMemory>
        requires name { blank.name ≡ L.name }
        requires parts { (blank.parts ≡ L.parts) × (blank.parts ≡ workers) }
        requires pages { table.pages ≡ L.pages }
        requires plans { plans.now ≡ L.plans }
        requires workers { (1 ≤ workers) × (workers ≤ WORKER_LIMIT) }
        requires empty { table.digests ≡ replicate (length table.pages) None }
        requires keys { All (λ p. All (Contains (page_keys table.pages)) (keys_of p.links))
            plans.now }
        ensures core { IfOk result
            (λ r. r.0.core ≡ opening workers (length table.entry.pages) r.0.core.needs) }
        ensures needs { IfOk result (λ r. NeedsOwn table.entry plans.now r.0.core.needs) }
        ensures rest { IfOk result (λ r. (r.0.history ≡ []) × (r.0.table ≡ table.entry)
            × (r.0.plans ≡ plans.now) × (r.0.results ≡ replicate (length plans.now) None)
            × (r.0.book ≡ 0)) }
        ensures shares { IfOk result (λ r. r.1.items ≡ replicate workers 0) }
    {
        BoardState::with_lanes(alloc, blank, workers, table, plans, Lanes::Four)
    }

    /// The same, where the jobs of a worker are done side by side as is best with vectors of this width.
    pub fn with_lanes(
        alloc: Global,
        blank: Blank,
        workers: usize,
        table: Table<'a>,
        plans: &'a [LaunchPlan],
        lanes: Lanes,
    ) -> Result<(BoardState<'a, L>, Vec<Share<L>>), NoMemory>
        requires name { blank.name ≡ L.name }
        requires parts { (blank.parts ≡ L.parts) × (blank.parts ≡ workers) }
        requires pages { table.pages ≡ L.pages }
        requires plans { plans.now ≡ L.plans }
        requires workers { (1 ≤ workers) × (workers ≤ WORKER_LIMIT) }
        requires empty { table.digests ≡ replicate (length table.pages) None }
        requires keys { All (λ p. All (Contains (page_keys table.pages)) (keys_of p.links))
            plans.now }
        ensures core { IfOk result
            (λ r. r.0.core ≡ opening workers (length table.entry.pages) r.0.core.needs) }
        ensures needs { IfOk result (λ r. NeedsOwn table.entry plans.now r.0.core.needs) }
        ensures rest { IfOk result (λ r. (r.0.history ≡ []) × (r.0.table ≡ table.entry)
            × (r.0.plans ≡ plans.now) × (r.0.results ≡ replicate (length plans.now) None)
            × (r.0.book ≡ 0)) }
        ensures shares { IfOk result (λ r. r.1.items ≡ replicate workers 0) }
    {
        let (book, part) = blank.open::<L>();
        let shares = cut(alloc, part, workers)?;
        let (core, history) = new_jobs(alloc, workers, &table, plans)?;
        let room = most_pages(plans);
        let rows = worker_rows(alloc, room, workers)?;
        let results = vec![in alloc; None; plans.len()]?;
        let (prefixes, preferences) = new_choices(alloc, workers, plans, room, lanes)?;
        Ok((
            BoardState {
                core,
                history,
                table,
                plans,
                rows,
                room,
                results,
                prefixes,
                preferences,
                book,
            },
            shares,
        ))
    }

    /// The pages of its table, which are lent. Page `j` is the one of job `j`.
    pub fn pages(&self) -> &'a [Page<'a>]
        ensures { map page_view result.now ≡ L.pages }
    {
        self.table.pages()
    }
}

impl<'a, L: Run> BoardState<'a, L> {
    /// Puts a page that a worker holds, and counts it in the worker's share. The page is handed back, and nothing is
    /// changed, where the worker does not hold its job.
    pub fn put_page(
        &mut self,
        worker: usize,
        page: HashedPage<'a, L>,
        share: &mut Share<L>,
    ) -> Result<(), HashedPage<'a, L>>
        ensures board { IsBoard self.old × IsOfRun L.pages L.plans self.old }
        ensures fresh { share.old ≤ self.old.book }
        ensures can { OnOk result (CanPutPage self.old worker page.entry.number page.entry.page) }
        ensures event { OnOk result
            (Adds self.old (Event.Put worker (JobId.Page page.entry.number)) self.new) }
        ensures table { OnOk result
            (self.new.table ≡ with_digest self.old.table page.entry.number page.entry.digest) }
        ensures same { OnOk result
            ((self.new.plans ≡ self.old.plans) × (self.new.results ≡ self.old.results)) }
        ensures book { OnOk result (self.new.book ≡ self.old.book + 1) }
        ensures share { OnOk result (share.new ≡ share.old + 1) }
        ensures err { IfErr result
            (λ p. (p ≡ page.entry) × (self.new ≡ self.old) × (share.new ≡ share.old)) }
        ensures refused { IfErr result
            (λ p. ¬ CanPutPage self.old worker page.entry.number page.entry.page) }
    {
        let BoardState {
            core,
            history,
            table,
            book,
            ..
        } = self;
        let Share { count, part, .. } = share;
        book.audit(part);
        let number = page.number();
        let event = Event::Put {
            worker,
            job: JobId::Page(number),
        };
        let Ok(()) = record(core, history, event) else {
            return Err(page);
        };
        table.keep(number, page.into_hashed());
        book.add(part, 1);
        *count += 1;
        Ok(())
    }

    /// Puts a launch that a worker holds, with its value. It is handed back, and nothing is changed, where the worker
    /// does not hold its job.
    pub fn put_launch(
        &mut self,
        worker: usize,
        launch: ChainedLaunch<'a, L>,
    ) -> Result<(), ChainedLaunch<'a, L>>
        ensures board { IsBoard self.old × IsOfRun L.pages L.plans self.old }
        ensures can { OnOk result (CanPutJob self.old worker launch.entry.job) }
        ensures event { OnOk result
            (Adds self.old (Event.Put worker (JobId.Launch launch.entry.job.number)) self.new) }
        ensures results { OnOk result (self.new.results
            ≡ slice_set self.old.results launch.entry.job.number (Some launch.entry.value)) }
        ensures own { OnOk result
            (launch.entry.value.bytes ≡ value_in self.old.table launch.entry.job.plan) }
        ensures same { OnOk result ((self.new.table ≡ self.old.table)
            × (self.new.plans ≡ self.old.plans) × (self.new.book ≡ self.old.book)) }
        ensures err { IfErr result (λ l. (l ≡ launch.entry) × (self.new ≡ self.old)) }
        ensures refused { IfErr result (λ l. ¬ CanPutJob self.old worker launch.entry.job) }
    {
        let BoardState {
            core,
            history,
            table,
            plans,
            rows,
            results,
            ..
        } = self;
        // Each filled slot of a table has the digest of its own page.
        let _pages = table.pages();
        let number = launch.number();
        let event = Event::Put {
            worker,
            job: JobId::Launch(number),
        };
        let Ok(()) = record(core, history, event) else {
            return Err(launch);
        };
        let rim = launch.into_rim();
        results[number] = Some(rim.value());
        keep_row(
            rows,
            worker,
            WorkerRow::of_launch(plan_at(plans, number), rim.into_row()),
        );
        Ok(())
    }

    /// Keeps a prefix of a launch that is being chained, from which others go on. It adds no event.
    pub fn keep_prefix(&mut self, prefix: OwnPrefix<L>) -> KeptPrefix
        ensures { self.new ≡ self.old }
    {
        let BoardState {
            prefixes,
            preferences,
            ..
        } = self;
        let launch = prefix.number();
        let prefix = prefix.into_prefix();
        let links = prefix.links;
        let followers = if prefixes.keep(launch, prefix) {
            preferences.note_chained(SharedPrefix { launch, links })
        } else {
            0
        };
        KeptPrefix {
            followers,
            next_stop: prefixes.next_stop(launch, links),
        }
    }

    /// Retires a worker, whose job is then free. False, and nothing is changed, for worker 0 and for workers that are
    /// retired or unknown.
    pub fn retire(&mut self, worker: usize) -> bool
        ensures board { IsBoard self.old × IsOfRun L.pages L.plans self.old }
        ensures yes { result ≡ true
            → Adds self.old (Event.Retire worker) self.new × SameRest self.old self.new }
        ensures no { result ≡ false
            → (self.new ≡ self.old) × ((worker ≡ 0) ⊎ (is_out self.old.core worker ≡ true)) }
    {
        let BoardState { core, history, .. } = self;
        let Ok(()) = record(core, history, Event::Retire { worker }) else {
            return false;
        };
        true
    }
}

impl<'a, L: Run> BoardState<'a, L> {
    /// Says that the shares of all workers add up to the board's book, and leaves both as they were.
    pub fn audit_shares(&mut self, shares: &mut [Share<L>])
        requires whole { length shares.old ≡ L.parts }
        requires some { 0 < length shares.old }
        ensures board { IsBoard self.old × IsOfRun L.pages L.plans self.old }
        ensures sum { sum shares.old ≡ self.old.book }
        ensures same { self.new ≡ self.old }
        ensures shares { shares.new ≡ shares.old }
    {
        let BoardState { book, .. } = self;
        audit_all(book, shares);
    }

    /// Ends a run, all of whose jobs are done: writes how many pages each worker has put, and the value of each launch in
    /// the order of the plans. The answer is the number of pages, to which the workers' numbers add up.
    pub fn close(
        &mut self,
        shares: Vec<Share<L>>,
        counts: &mut [u64],
        values: &mut [Measurement],
    ) -> u64
        requires whole { vec_len shares ≡ L.parts }
        requires some { 0 < vec_len shares }
        requires counts { length counts.old ≡ vec_len shares }
        requires values { length values.old ≡ length L.plans }
        requires over { is_over self.old.core ≡ true }
        ensures same { self.new ≡ self.old }
        ensures counts { counts.new ≡ shares.items }
        ensures pages { result ≡ length L.pages }
        ensures sum { sum counts.new ≡ result }
        ensures values { AreValuesOf L.pages L.plans values.new }
    {
        write_counts(&shares, counts);
        let BoardState {
            table,
            results,
            book,
            ..
        } = self;
        add_up(book, shares);
        copy_values(results, values);
        table.pages().len() as u64
    }
}

/// The jobs of a new board, none of which is begun, and its history, with room for each event of a run. Each launch needs just the pages
/// of its own plan.
fn new_jobs(
    alloc: Global,
    workers: usize,
    table: &Table,
    plans: &[LaunchPlan],
) -> Result<(Core, Vec<Event>), NoMemory>
    requires workers { (1 ≤ workers) × (workers ≤ WORKER_LIMIT) }
    requires keys { All (λ p. All (Contains (page_keys table.now.pages)) (keys_of p.links))
        plans.now }
    ensures table { IsTable table.now }
    ensures core { IfOk result
        (λ r. r.0 ≡ opening workers (length table.now.pages) r.0.needs) }
    ensures within { IfOk result (λ r. NeedsWithin r.0.needs (length table.now.pages)) }
    ensures needs { IfOk result (λ r. NeedsOwn table.now plans.now r.0.needs) }
    ensures empty { IfOk result (λ r. r.1.items ≡ []) }
    ensures room { IfOk result (λ r. most_events r.0 ≤ vec_capacity r.1) }
{
    let pages = table.pages().len();
    let needs = own_needs(alloc, table, plans)?;
    let core = Core::with_needs(alloc, workers, pages, needs)?;
    let history = room_for(alloc, 2 * (pages + plans.len()) + 2 * workers)?;
    Ok((core, history))
}

/// The prefixes that these launches have in common, none of which is chained, and what each worker is best given next; no launch has more
/// pages than `room`.
fn new_choices(
    alloc: Global,
    workers: usize,
    plans: &[LaunchPlan],
    room: usize,
    lanes: Lanes,
) -> Result<(SharedPrefixes, Preferences), NoMemory>
    requires workers { workers ≤ WORKER_LIMIT }
    ensures { IfOk result (λ r. (t : TableView) (ps : List PlanView) → AreShared t ps r.0) }
{
    let prefixes = SharedPrefixes::new(alloc, plans)?;
    let others = most_others(plans, workers, lanes);
    // No more launches are lent at a time than there are.
    let rows = lent_rows(alloc, room, (others * workers).min(plans.len()))?;
    let lending = Lending::new(alloc, workers, lanes, others, rows)?;
    let preferences = Preferences::new(alloc, workers, plans, &prefixes, lanes, lending)?;
    Ok((prefixes, preferences))
}

/// Makes the step of an event and adds it to the history, or answers the first fault that holds and changes nothing. It takes no memory.
fn record(core: &mut Core, history: &mut Vec<Event>, event: Event) -> Result<(), CoreFault>
    requires history { IsHistory core.old history.old.items }
    requires room { most_events core.old ≤ vec_capacity history.old }
    ensures step { Matches (λ u. core.new) result (core_step core.old event) }
    ensures history { OnOk result (history.new.items ≡ history.old.items ++ event ∷ []) }
    ensures room { most_events core.new ≤ vec_capacity history.new }
    ensures same { OnErr result ((core.new ≡ core.old) × (history.new ≡ history.old)) }
{
    core.step(&event)?;
    history.push_reserved(event);
    Ok(())
}

/// A list with room for this many events.
fn room_for(alloc: Global, count: usize) -> Result<Vec<Event>, NoMemory>
    ensures empty { IfOk result (λ events. events.items ≡ []) }
    ensures room { IfOk result (λ events. count ≤ vec_capacity events) }
{
    Ok(Vec::with_capacity(alloc, count)?)
}
