//! The report of a release, made by workers.
ghost use Rattle.std.specs.Prelude.{◌≡◌, ◌≤◌, Err, IfOk, OnErr, OnOk, false, length, map, sum, true, vec_len};
ghost use Rattle.std.specs.List.{All, Contains};
ghost use Rattle.refusal.specs.Answer.{Answers};
ghost use Rattle.ipa_layout.specs.Files.{bytes_of_files};
ghost use Rattle.job_board.specs.Board.{AreValuesOf};
ghost use Rattle.page_jobs.specs.Key.{IsRising};
ghost use Rattle.page_jobs.specs.Page.{page_view};
ghost use Rattle.page_jobs.specs.Table.{page_keys_of};
ghost use Rattle.launch_plan.specs.Links.{keys_of};
ghost use Rattle.rim_pages.specs.Pages.{page_keys};
ghost use Rattle.rim_accepted.specs.Lines.{has_refused, outcomes_for, seen};
ghost use Rattle.rim_report.specs.Report.{is_crew, started_of};
ghost use Rattle.job_core.specs.declared.machine.TheConstants.{WORKER_LIMIT};

use crate::outcomes::UNKNOWN;
use crate::pending_report::PendingReport;
use crate::plans::accepted_plans;
use job_board::{BoardState, Run, WORKER_LIMIT};
use job_workers::{Board, Gate, run_workers};
use page_jobs::{Page, Table};
use refusal::NoMemory;
use rim_accepted::{AcceptedRelease, AuditFault, Files, LoadedRelease, accept_all, has_refused};
use rim_chain::LaunchPlan;
use rim_desc::Measurement;
use rim_manifest::Release;
use rim_pages::{StartFault, pages};
use std::alloc::Global;
use std::marker::Brand;
use std::sync::Wait;
use std::sync::ledger::Blank;
use std::thread::Threads;

/// The outcome of measuring a release.
#[derive(Drop)]
pub struct Outcome<'a> {
    /// The launches of the release, each accepted or refused for a reason.
    pub accepted: AcceptedRelease<'a>,
    /// The report.
    pub report: Vec<u8>,
    /// The measurement of each launch or the fault that it is refused with, in the manifest's order.
    pub launches: Vec<Result<Measurement, AuditFault>>,
    /// Whether a launch is refused.
    pub has_refused: bool,
    /// The number of different pages that were hashed.
    pub pages: u64,
    /// The number of pages that each worker has put.
    pub shares: Vec<u64>,
    /// The number of workers that were started. The caller is one of them.
    pub started: usize,
}

/// The outcome of measuring a release, without its launches.
#[derive(Drop)]
pub(crate) struct Measured {
    pub report: Vec<u8>,
    pub launches: Vec<Result<Measurement, AuditFault>>,
    pub has_refused: bool,
    pub pages: u64,
    pub shares: Vec<u64>,
    pub started: usize,
}

impl Measured {
    ghost use Rattle.std.specs.Prelude.{◌≡◌};

    /// Returns the outcome with the launches that were measured.
    pub(crate) fn with<'a>(self, accepted: AcceptedRelease<'a>) -> Outcome<'a>
        ensures accepted { result.accepted ≡ accepted.entry }
        ensures report { result.report ≡ self.report }
        ensures launches { result.launches ≡ self.launches }
        ensures refused { result.has_refused ≡ self.has_refused }
        ensures pages { result.pages ≡ self.pages }
        ensures shares { result.shares ≡ self.shares }
        ensures started { result.started ≡ self.started }
    {
        let Measured {
            report,
            launches,
            has_refused,
            pages,
            shares,
            started,
        } = self;
        Outcome {
            accepted,
            report,
            launches,
            has_refused,
            pages,
            shares,
            started,
        }
    }
}

/// What each worker has put, and how many workers were started.
#[derive(Drop)]
struct Counted {
    shares: Vec<u64>,
    started: usize,
}

/// Measures a release with 1 to 64 workers. The report is the one that `measure_alone` makes, in whatever order the
/// workers come to their jobs. All memory is taken before the first worker is started, and from then on nothing is
/// refused. Of that the clause `unstarted` says that after a fault the gate is as it was, so it was lent to no run; that
/// there is no run with another gate is read in the code. The run does without a worker that cannot be started.
pub fn measure_release<'a, G: Gate + Sync, R: Threads + Wait + Sync>(
    rt: &R,
    alloc: Global,
    gate: &mut G,
    release: &'a Release,
    files: &'a Files,
    workers: usize,
) -> Result<Outcome<'a>, StartFault>
    requires { vec_len files.now ≡ length release.now.paths }
    ensures report { Answers StartFault.NoMemory (λ o. o.report.items) result (started_of workers
        (bytes_of_files files.entry.now.items) release.entry.now.launches) }
    ensures launches { IfOk result (λ o. map seen o.launches.items
        ≡ outcomes_for (bytes_of_files files.entry.now.items) release.entry.now.launches) }
    ensures accepted { IfOk result (λ o. (o.accepted.release ≡ release.entry.now)
        × (o.accepted.files ≡ bytes_of_files files.entry.now.items)) }
    ensures workers { is_crew workers ≡ false → result ≡ Err StartFault.Workers }
    ensures refused { IfOk result (λ o. o.has_refused
        ≡ has_refused (bytes_of_files files.entry.now.items) release.entry.now.launches) }
    ensures pages { IfOk result (λ o. o.pages
        ≡ length (page_keys (bytes_of_files files.entry.now.items) release.entry.now.launches)) }
    ensures shares { IfOk result
        (λ o. (vec_len o.shares ≡ workers) × (sum o.shares.items ≡ o.pages)) }
    ensures started { IfOk result (λ o. (1 ≤ o.started) × (o.started ≤ workers)) }
    ensures unstarted { OnErr result (gate.new ≡ gate.old) }
{
    if !(1..=WORKER_LIMIT).contains(&workers) {
        return Err(StartFault::Workers);
    }
    let accepted = accept_all(alloc, LoadedRelease::new(release, files))?;
    let measured = measure_accepted(rt, alloc, gate, &accepted, workers)?;
    Ok(measured.with(accepted))
}

/// Measures launches that are accepted or refused already.
fn measure_accepted<G: Gate + Sync, R: Threads + Wait + Sync>(
    rt: &R,
    alloc: Global,
    gate: &mut G,
    accepted: &AcceptedRelease<'_>,
    workers: usize,
) -> Result<Measured, StartFault>
    requires crew { is_crew workers ≡ true }
    ensures report { Answers StartFault.NoMemory (λ o. o.report.items) result
        (started_of workers accepted.now.files accepted.now.release.launches) }
    ensures launches { IfOk result (λ o. map seen o.launches.items
        ≡ outcomes_for accepted.now.files accepted.now.release.launches) }
    ensures refused { IfOk result (λ o. o.has_refused
        ≡ has_refused accepted.now.files accepted.now.release.launches) }
    ensures pages { IfOk result (λ o. o.pages
        ≡ length (page_keys accepted.now.files accepted.now.release.launches)) }
    ensures shares { IfOk result
        (λ o. (vec_len o.shares ≡ workers) × (sum o.shares.items ≡ o.pages)) }
    ensures started { IfOk result (λ o. (1 ≤ o.started) × (o.started ≤ workers)) }
    ensures unstarted { OnErr result (gate.new ≡ gate.old) }
{
    let plans = accepted_plans(alloc, accepted)?;
    let pages = pages(alloc, accepted)?;
    let mut rims = vec![in alloc; UNKNOWN; plans.len()]?;
    let pending_report = PendingReport::new(alloc, accepted, pages.len())?;
    let counted = run::<Brand, G, R>(
        rt,
        alloc,
        gate,
        Blank::new(workers as u64),
        &pages,
        &plans,
        workers,
        &mut rims,
    )?;
    let filled = pending_report.fill(accepted.launches(), &rims, pages.len());
    Ok(Measured {
        report: filled.text,
        launches: filled.outcomes,
        has_refused: has_refused(accepted.outcomes()),
        pages: pages.len() as u64,
        shares: counted.shares,
        started: counted.started,
    })
}

/// Hashes pages and chains plans by workers. The growths are made before the first worker is started.
fn run<'a, L: Run + Send + Sync, G: Gate + Sync, R: Threads + Wait + Sync>(
    rt: &R,
    alloc: Global,
    gate: &mut G,
    blank: Blank,
    pages: &'a [Page<'a>],
    plans: &'a [LaunchPlan],
    workers: usize,
    rims: &mut Vec<Measurement>,
) -> Result<Counted, NoMemory>
    requires name { blank.name ≡ L.name }
    requires parts { (blank.parts ≡ L.parts) × (blank.parts ≡ workers) }
    requires workers { (1 ≤ workers) × (workers ≤ WORKER_LIMIT) }
    requires pages { map page_view pages.now ≡ L.pages }
    requires plans { plans.now ≡ L.plans }
    requires rising { IsRising (page_keys_of (map page_view pages.now)) }
    requires keys { All
        (λ p. All (Contains (page_keys_of (map page_view pages.now))) (keys_of p.links)) plans.now }
    requires rims { length rims.old.items ≡ length plans.now }
    ensures rims { OnOk result (AreValuesOf (map page_view pages.now) plans.now rims.new.items) }
    ensures shares { IfOk result
        (λ c. (vec_len c.shares ≡ workers) × (sum c.shares.items ≡ length pages.now)) }
    ensures started { IfOk result (λ c. (1 ≤ c.started) × (c.started ≤ workers)) }
    ensures unstarted { OnErr result (gate.new ≡ gate.old) }
{
    let mut counts = vec![in alloc; 0; workers]?;
    let table = Table::reserve(alloc, pages)?;
    let lanes = gate.lanes();
    let (state, shares) = BoardState::<L>::with_lanes(alloc, blank, workers, table, plans, lanes)?;
    let board = Board::new(state);
    gate.begin(pages.len(), plans.len());
    let tally = run_workers(
        rt,
        gate,
        &board,
        shares,
        counts.as_mut_slice(),
        rims.as_mut_slice(),
    );
    Ok(Counted {
        shares: counts,
        started: tally.started,
    })
}
