//! The report of a release and the digests of its files, made by the same workers.
ghost use Rattle.std.specs.Prelude.{◌≡◌, ◌≤◌, IfOk, OnErr, length, map, sum, vec_len};
ghost use Rattle.refusal.specs.Answer.{Answers};
ghost use Rattle.sha2.specs.Sha256.{sha256};
ghost use Rattle.ipa_layout.specs.Files.{bytes_of_files};
ghost use Rattle.rim_pages.specs.Pages.{page_keys};
ghost use Rattle.rim_accepted.specs.Lines.{has_refused, outcomes_for, seen};
ghost use Rattle.rim_report.specs.Report.{measured_of, started_of};

use super::FileDigest;
use super::beside::DigestsBeside;
use super::board::FileBoard;
use super::files_of_run::FilesOfRun;
use super::slots::digests_alone;
use crate::one_thread::outcome_alone;
use crate::workers::{Outcome, measure_release};
use job_workers::Gate;
use rim_accepted::Files;
use rim_desc::Lanes;
use rim_manifest::Release;
use rim_pages::StartFault;
use std::alloc::Global;
use std::marker::Brand;
use std::sync::Wait;
use std::thread::Threads;

/// The outcome of measuring a release, and the digests of its files.
#[derive(Drop)]
pub struct Digested<'a> {
    pub outcome: Outcome<'a>,
    /// The SHA-256 digest of each file, in the manifest's order.
    pub digests: Vec<FileDigest>,
}

/// Measures a release as `measure_release` does, and hashes each of its files with the same workers: each worker first hashes files
/// until no file is left to be taken. The caller hashes after the run what no worker has hashed.
/// All memory is taken before the first worker is started, and from then on nothing is refused; of that the clause `unstarted` says as
/// much as that of `measure_release`.
pub fn measure_with_digests<'a, G: Gate + Sync, R: Threads + Wait + Sync>(
    rt: &R,
    alloc: Global,
    gate: &mut G,
    release: &'a Release,
    files: &'a Files,
    workers: usize,
) -> Result<Digested<'a>, StartFault>
    requires { vec_len files.now ≡ length release.now.paths }
    ensures digests { IfOk result
        (λ d. d.digests.items ≡ map sha256 (bytes_of_files files.entry.now.items)) }
    ensures report { Answers StartFault.NoMemory (λ d. d.outcome.report.items) result (started_of
        workers (bytes_of_files files.entry.now.items) release.entry.now.launches) }
    ensures launches { IfOk result (λ d. map seen d.outcome.launches.items
        ≡ outcomes_for (bytes_of_files files.entry.now.items) release.entry.now.launches) }
    ensures accepted { IfOk result (λ d. (d.outcome.accepted.release ≡ release.entry.now)
        × (d.outcome.accepted.files ≡ bytes_of_files files.entry.now.items)) }
    ensures refused { IfOk result (λ d. d.outcome.has_refused
        ≡ has_refused (bytes_of_files files.entry.now.items) release.entry.now.launches) }
    ensures pages { IfOk result (λ d. d.outcome.pages
        ≡ length (page_keys (bytes_of_files files.entry.now.items) release.entry.now.launches)) }
    ensures shares { IfOk result (λ d. (vec_len d.outcome.shares ≡ workers)
        × (sum d.outcome.shares.items ≡ d.outcome.pages)) }
    ensures started { IfOk result
        (λ d. (1 ≤ d.outcome.started) × (d.outcome.started ≤ workers)) }
    ensures unstarted { OnErr result (gate.new ≡ gate.old) }
{
    run::<Brand, G, R>(rt, alloc, gate, release, files, workers)
}

/// The same by one worker, the caller. It takes no lock and does not wait.
pub fn digested_alone<'a>(
    alloc: Global,
    lanes: Lanes,
    release: &'a Release,
    files: &'a Files,
) -> Result<Digested<'a>, StartFault>
    requires { vec_len files.now ≡ length release.now.paths }
    ensures digests { IfOk result
        (λ d. d.digests.items ≡ map sha256 (bytes_of_files files.entry.now.items)) }
    ensures report { Answers StartFault.NoMemory (λ d. d.outcome.report.items) result
        (measured_of (bytes_of_files files.entry.now.items) release.entry.now.launches) }
    ensures launches { IfOk result (λ d. map seen d.outcome.launches.items
        ≡ outcomes_for (bytes_of_files files.entry.now.items) release.entry.now.launches) }
    ensures accepted { IfOk result (λ d. (d.outcome.accepted.release ≡ release.entry.now)
        × (d.outcome.accepted.files ≡ bytes_of_files files.entry.now.items)) }
    ensures refused { IfOk result (λ d. d.outcome.has_refused
        ≡ has_refused (bytes_of_files files.entry.now.items) release.entry.now.launches) }
    ensures pages { IfOk result (λ d. d.outcome.pages
        ≡ length (page_keys (bytes_of_files files.entry.now.items) release.entry.now.launches)) }
{
    let outcome = outcome_alone(alloc, lanes, release, files)?;
    Ok(Digested {
        outcome,
        digests: digests_alone(alloc, files)?,
    })
}

/// The same, by a board of the run's files.
fn run<'a, L: FilesOfRun + Send + Sync, G: Gate + Sync, R: Threads + Wait + Sync>(
    rt: &R,
    alloc: Global,
    gate: &mut G,
    release: &'a Release,
    files: &'a Files,
    workers: usize,
) -> Result<Digested<'a>, StartFault>
    requires each { vec_len files.now ≡ length release.now.paths }
    requires files { bytes_of_files files.now.items ≡ L.files }
    ensures digests { IfOk result (λ d. d.digests.items ≡ map sha256 L.files) }
    ensures report { Answers StartFault.NoMemory (λ d. d.outcome.report.items) result (started_of
        workers (bytes_of_files files.entry.now.items) release.entry.now.launches) }
    ensures launches { IfOk result (λ d. map seen d.outcome.launches.items
        ≡ outcomes_for (bytes_of_files files.entry.now.items) release.entry.now.launches) }
    ensures accepted { IfOk result (λ d. (d.outcome.accepted.release ≡ release.entry.now)
        × (d.outcome.accepted.files ≡ bytes_of_files files.entry.now.items)) }
    ensures refused { IfOk result (λ d. d.outcome.has_refused
        ≡ has_refused (bytes_of_files files.entry.now.items) release.entry.now.launches) }
    ensures pages { IfOk result (λ d. d.outcome.pages
        ≡ length (page_keys (bytes_of_files files.entry.now.items) release.entry.now.launches)) }
    ensures shares { IfOk result (λ d. (vec_len d.outcome.shares ≡ workers)
        × (sum d.outcome.shares.items ≡ d.outcome.pages)) }
    ensures started { IfOk result
        (λ d. (1 ≤ d.outcome.started) × (d.outcome.started ≤ workers)) }
    ensures unstarted { OnErr result (gate.new ≡ gate.old) }
{
    let board = FileBoard::<L>::new(alloc, files)?;
    let outcome = {
        let mut beside = DigestsBeside {
            rt,
            gate,
            board: &board,
        };
        measure_release(rt, alloc, &mut beside, release, files, workers)?
    };
    Ok(Digested {
        outcome,
        digests: board.into_digests(),
    })
}
