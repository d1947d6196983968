//! The report of what came of each launch of a release.
ghost use Rattle.std.specs.Prelude.{◌≡◌, ◌≤◌, ◌++◌, IfOk, OnErr, OnOk, vec_capacity};
ghost use Rattle.rim_accepted.specs.Lines.{HasNoRoom, lines_with};
ghost use Rattle.rim_report.specs.Report.{report_with};

use itoa::Buffer;
use refusal::NoMemory;
use rim_accepted::{AuditFault, push_lines};
use rim_desc::Measurement;
use rim_manifest::NamedLaunch;
use std::alloc::Global;

/// The report of launches with what came of them, which have this many different measured pages.
pub fn report(
    alloc: Global,
    launches: &[NamedLaunch],
    outcomes: &[Result<Measurement, AuditFault>],
    count: usize,
) -> Result<Vec<u8>, NoMemory>
    ensures { IfOk result
        (λ text. text.items ≡ report_with (lines_with launches.now outcomes.now) count) }
{
    let mut text = Vec::new(alloc);
    push_report(&mut text, launches, outcomes, count)?;
    Ok(text)
}

/// Adds the report to a text. It fails only where the text has no room for it.
pub fn push_report(
    text: &mut Vec<u8>,
    launches: &[NamedLaunch],
    outcomes: &[Result<Measurement, AuditFault>],
    count: usize,
) -> Result<(), NoMemory>
    ensures text { OnOk result (text.new.items
        ≡ text.old.items ++ report_with (lines_with launches.now outcomes.now) count) }
    ensures keeps { vec_capacity text.old ≤ vec_capacity text.new }
    ensures full { OnErr result
        (HasNoRoom text.old (report_with (lines_with launches.now outcomes.now) count)) }
{
    text.extend_from_slice(b"rim-report 1\n")?;
    push_lines(text, launches, outcomes)?;
    text.extend_from_slice(b"pages ")?;
    text.extend_from_slice(Buffer::new().format(count).as_bytes())?;
    text.extend_from_slice(b"\n")?;
    Ok(())
}
