//! The report of a release, made on the calling thread.
ghost use Rattle.std.specs.Prelude.{◌≡◌, [], ◌∷◌, IfOk, length, map, vec_len};
ghost use Rattle.refusal.specs.Answer.{Answers};
ghost use Rattle.ipa_layout.specs.Files.{bytes_of_files};
ghost use Rattle.rim_pages.specs.Pages.{page_keys};
ghost use Rattle.rim_accepted.specs.Lines.{has_refused, outcomes_for, seen};
ghost use Rattle.rim_report.specs.Report.{measured_of};

use crate::chains::chains;
use crate::hashing::hashed;
use crate::outcomes::{set_rims, unknown_outcomes};
use crate::plans::accepted_plans;
use crate::report::report;
use crate::workers::{Measured, Outcome};
use rim_accepted::{AcceptedRelease, Files, LoadedRelease, accept_all, has_refused};
use rim_desc::Lanes;
use rim_manifest::Release;
use rim_pages::{StartFault, pages};
use std::alloc::Global;

/// Returns the report of a release, made on the calling thread without waiting: a line `rim-report 1`; a line `NAME ALGO HEX`
/// for each launch in the manifest's order, or `NAME refused KIND`; and a line `pages N`. This is the plain form of
/// `measure_release`, whose report is the same. No program calls it: this is the report of `outcome_alone`.
pub fn measure_alone(alloc: Global, release: &Release, files: &Files) -> Result<Vec<u8>, StartFault>
    requires { vec_len files.now ≡ length release.now.paths }
    ensures { Answers StartFault.NoMemory (λ text. text.items) result
        (measured_of (bytes_of_files files.now.items) release.now.launches) }
{
    let outcome = outcome_alone(alloc, Lanes::Four, release, files)?;
    Ok(outcome.report)
}

/// Measures a release on the calling thread. Takes no lock and does not wait. Pages and launches are hashed side by side in as
/// many lanes.
pub fn outcome_alone<'a>(
    alloc: Global,
    lanes: Lanes,
    release: &'a Release,
    files: &'a Files,
) -> Result<Outcome<'a>, StartFault>
    requires { vec_len files.now ≡ length release.now.paths }
    ensures report { Answers StartFault.NoMemory (λ o. o.report.items) result
        (measured_of (bytes_of_files files.entry.now.items) release.entry.now.launches) }
    ensures launches { IfOk result (λ o. map seen o.launches.items
        ≡ outcomes_for (bytes_of_files files.entry.now.items) release.entry.now.launches) }
    ensures accepted { IfOk result (λ o. (o.accepted.release ≡ release.entry.now)
        × (o.accepted.files ≡ bytes_of_files files.entry.now.items)) }
    ensures refused { IfOk result (λ o. o.has_refused
        ≡ has_refused (bytes_of_files files.entry.now.items) release.entry.now.launches) }
    ensures pages { IfOk result (λ o. o.pages
        ≡ length (page_keys (bytes_of_files files.entry.now.items) release.entry.now.launches)) }
    ensures shares { IfOk result (λ o. (o.shares.items ≡ o.pages ∷ []) × (o.started ≡ 1)) }
{
    let accepted = accept_all(alloc, LoadedRelease::new(release, files))?;
    let measured = accepted_alone(alloc, lanes, &accepted)?;
    Ok(measured.with(accepted))
}

/// Measures launches that are accepted or refused already.
fn accepted_alone(
    alloc: Global,
    lanes: Lanes,
    accepted: &AcceptedRelease<'_>,
) -> Result<Measured, StartFault>
    ensures report { Answers StartFault.NoMemory (λ o. o.report.items) result
        (measured_of accepted.now.files accepted.now.release.launches) }
    ensures launches { IfOk result (λ o. map seen o.launches.items
        ≡ outcomes_for accepted.now.files accepted.now.release.launches) }
    ensures refused { IfOk result (λ o. o.has_refused
        ≡ has_refused accepted.now.files accepted.now.release.launches) }
    ensures pages { IfOk result (λ o. o.pages
        ≡ length (page_keys accepted.now.files accepted.now.release.launches)) }
    ensures shares { IfOk result (λ o. (o.shares.items ≡ o.pages ∷ []) × (o.started ≡ 1)) }
{
    let laid_out = accepted.outcomes();
    let plans = accepted_plans(alloc, accepted)?;
    let pages = pages(alloc, accepted)?;
    let table = hashed(alloc, lanes, &pages)?;
    let rims = chains(alloc, lanes, &table, &plans)?;
    let mut outcomes = unknown_outcomes(alloc, laid_out)?;
    set_rims(&mut outcomes, &rims);
    let text = report(alloc, accepted.launches(), &outcomes, pages.len())?;
    let count = pages.len() as u64;
    Ok(Measured {
        report: text,
        launches: outcomes,
        has_refused: has_refused(laid_out),
        pages: count,
        shares: vec![in alloc; count; 1]?,
        started: 1,
    })
}
