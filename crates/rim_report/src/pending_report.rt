//! A report whose measurements are still to come. It has all memory that it needs.
ghost use Rattle.std.specs.Prelude.{◌≡◌, ◌≤◌, [], IfOk, length, map, vec_capacity};
ghost use Rattle.rim_report.specs.Report.{report_with};
ghost use Rattle.rim_report.specs.inside.Unknown.{unknown_outcome, with_rims};
ghost use Rattle.rim_accepted.specs.Lines.{lines_with};

use crate::outcomes::{set_rims, unknown_outcomes};
use crate::report::{push_report, report};
use refusal::NoMemory;
use rim_accepted::{AcceptedRelease, AuditFault};
use rim_desc::Measurement;
use rim_manifest::NamedLaunch;
use std::alloc::Global;

/// What came of each launch, with other measurements in the place of those that are to come; and room for the report.
#[derive(Drop)]
pub struct PendingReport {
    outcomes: Vec<Result<Measurement, AuditFault>>,
    text: Vec<u8>,
    ghost empty: { text.items ≡ [] },
}

/// What came of each launch, and the report.
#[derive(Drop)]
pub struct Filled {
    pub outcomes: Vec<Result<Measurement, AuditFault>>,
    pub text: Vec<u8>,
}

impl PendingReport {
    /// A report of a release with this many different measured pages. It has room for all its measurements.
    pub fn new(
        alloc: Global,
        accepted: &AcceptedRelease<'_>,
        count: usize,
    ) -> Result<PendingReport, NoMemory>
        ensures outcomes { IfOk result
            (λ s. s.outcomes.items ≡ map unknown_outcome accepted.now.launches) }
        ensures room { IfOk result (λ s. length (report_with (lines_with
            accepted.now.release.launches (map unknown_outcome accepted.now.launches)) count)
            ≤ vec_capacity s.text) }
    {
        let outcomes = unknown_outcomes(alloc, accepted.outcomes())?;
        let room = report(alloc, accepted.launches(), &outcomes, count)?.len();
        let text = Vec::with_capacity(alloc, room)?;
        Ok(PendingReport { outcomes, text })
    }

    /// The report with these measurements, and what came of each launch. It takes no memory.
    pub fn fill(self, launches: &[NamedLaunch], rims: &[Measurement], count: usize) -> Filled
        requires { length (report_with
            (lines_with launches.now (with_rims self.outcomes.items rims.now)) count)
            ≤ vec_capacity self.text }
        ensures text { result.text.items
            ≡ report_with (lines_with launches.now (with_rims self.outcomes.items rims.now)) count }
        ensures outcomes { result.outcomes.items ≡ with_rims self.outcomes.items rims.now }
    {
        let PendingReport {
            mut outcomes,
            mut text,
        } = self;
        set_rims(&mut outcomes, rims);
        let Ok(()) = push_report(&mut text, launches, &outcomes, count) else {
            unreachable!()
        };
        Filled { outcomes, text }
    }
}
