//! The audit of a release: a monitor is given the commands of each launch.
ghost use Rattle.std.specs.Prelude.{◌≡◌, ◌<◌, length, map, vec_len, IfOk, IfSome};
ghost use Rattle.std.specs.List.{All, slice_get};
ghost use Rattle.refusal.specs.Answer.{Answers};
ghost use Rattle.ipa_layout.specs.Files.{bytes_of_files};
ghost use Rattle.rim_accepted.specs.Accepted.{rim_after, rim_for};
ghost use Rattle.rim_accepted.specs.Lines.{has_refused, seen};
ghost use Rattle.rim_accepted.specs.Outcomes.{came_to};
ghost use Rattle.rim_audit.specs.Audit.{audit_text_of};
ghost use Rattle.rim_audit.specs.inside.Commands.{commands_in};
ghost use Rattle.rim_audit.specs.inside.Copies.{AreKept, IsCopyIn};

use crate::commands::LaunchCommands;
use crate::copies::{MonitorCopy, begin};
use crate::kept::Kept;
use crate::laying_out::lay_out;
use job_board::JobId;
use job_workers::{FreeGate, Gate};
use refusal::NoMemory;
use rim_accepted::{
    AuditFault, Files, LoadedLaunch, LoadedRelease, RefusedLaunch, Report, has_refused, push_lines,
};
use rim_desc::{Lanes, Measurement};
use rim_manifest::Release;
use std::alloc::Global;

/// Returns the Realm Initial Measurement that a monitor holds after the commands of the launch of this number, or why the launch is refused.
/// Each page is hashed as its command is given, and nothing is kept of it. This is the plain form, with which tests compare the audit of a
/// release. No program calls it.
pub fn audit(
    alloc: Global,
    release: &Release,
    files: &Files,
    i: usize,
) -> Result<Measurement, AuditFault>
    requires files { vec_len files.now ≡ length release.now.paths }
    requires launch { i < length release.now.launches }
    ensures { IfSome (slice_get release.now.launches i) (λ l. Answers AuditFault.NoMemory
        (λ m. m.bytes) result (rim_for l.launch (bytes_of_files files.now.items))) }
{
    let mut kept = Kept::nothing(alloc, files);
    let launch = LoadedRelease::new(release, files).launch(i);
    match audit_launch(alloc, launch, &mut kept, Lanes::Four)? {
        Ok(rim) => Ok(rim),
        Err(refused) => Err(refused.fault()),
    }
}

/// Returns the audit of all launches: a line `rim-audit 1`, and a line `NAME ALGO HEX` for each launch in the manifest's order, or
/// `NAME refused KIND`. No program calls it: `audit_with_gate` also says whether a launch is refused.
pub fn audit_report(alloc: Global, release: &Release, files: &Files) -> Result<Vec<u8>, NoMemory>
    requires { vec_len files.now ≡ length release.now.paths }
    ensures { IfOk result
        (λ text. text.items ≡ audit_text_of (bytes_of_files files.now.items) release.now.launches) }
{
    let report = audit_launches(alloc, LoadedRelease::new(release, files))?;
    Ok(report.text)
}

/// Returns the same audit, and whether some launch in it is refused. No program calls it: this is `audit_with_gate` with a gate that is always
/// open.
pub fn audit_launches(alloc: Global, loaded: LoadedRelease<'_>) -> Result<Report, NoMemory>
    ensures text { IfOk result (λ r. r.text.items ≡ audit_text_of
        (bytes_of_files loaded.entry.files.now) loaded.entry.release.now.launches) }
    ensures refused { IfOk result (λ r. r.has_refused ≡ has_refused
        (bytes_of_files loaded.entry.files.now) loaded.entry.release.now.launches) }
{
    audit_with_gate(alloc, &FreeGate, loaded)
}

/// The same, where a gate is called around the audit of each launch, as by worker 0, and no page is counted. No clause mentions the gate, so
/// the audit does not depend on it.
pub fn audit_with_gate<G: Gate>(
    alloc: Global,
    gate: &G,
    loaded: LoadedRelease<'_>,
) -> Result<Report, NoMemory>
    ensures text { IfOk result (λ r. r.text.items ≡ audit_text_of
        (bytes_of_files loaded.entry.files.now) loaded.entry.release.now.launches) }
    ensures refused { IfOk result (λ r. r.has_refused ≡ has_refused
        (bytes_of_files loaded.entry.files.now) loaded.entry.release.now.launches) }
{
    let outcomes = outcomes(alloc, gate, loaded)?;
    let mut text = Vec::new(alloc);
    text.extend_from_slice(b"rim-audit 1\n")?;
    push_lines(&mut text, loaded.release.all_launches(), &outcomes)?;
    Ok(Report {
        text,
        has_refused: has_refused(&outcomes),
    })
}

/// What came of each launch. What launches share is done once where there is room and memory for it: pages of files are hashed, and
/// first commands are given to a monitor.
fn outcomes<G: Gate>(
    alloc: Global,
    gate: &G,
    loaded: LoadedRelease<'_>,
) -> Result<Vec<Result<Measurement, AuditFault>>, NoMemory>
    ensures { IfOk result (λ found. map seen found.items
        ≡ map (λ l. rim_for l.launch (bytes_of_files loaded.entry.files.now))
        loaded.entry.release.now.launches) }
{
    let LoadedRelease { release, files } = loaded;
    let mut kept = Kept::new(alloc, files);
    let mut found = Vec::with_capacity(alloc, release.launches())?;
    gate.begin(0, release.launches());
    for (number, launch) in release.all_launches().iter().enumerate() {
        let job = JobId::Launch(number);
        gate.before(0, job);
        kept.close_at_last(number.saturating_add(1) >= release.launches());
        let launch = LoadedLaunch { launch, files };
        found.push(outcome(alloc, launch, &mut kept, gate.lanes())?)?;
        gate.after(0, job);
    }
    Ok(found)
}

/// Returns the measurement of a launch, or the fault that it is refused with. If memory is refused, frees what is kept of other launches, and
/// audits this launch again.
fn outcome<'a>(
    alloc: Global,
    launch: LoadedLaunch<'a>,
    kept: &mut Kept<'a>,
    lanes: Lanes,
) -> Result<Result<Measurement, AuditFault>, NoMemory>
    requires { AreKept (bytes_of_files launch.files.now) kept.old }
    ensures outcome { IfOk result
        (λ outcome. seen outcome ≡ rim_for launch.entry.launch.now.launch
        (bytes_of_files launch.entry.files.now)) }
    ensures kept { AreKept (bytes_of_files launch.entry.files.now) kept.new }
{
    let outcome = match audit_launch(alloc, launch, kept, lanes) {
        Ok(outcome) => outcome,
        Err(_) => {
            kept.free(launch.files);
            audit_launch(alloc, launch, kept, lanes)?
        }
    };
    match outcome {
        Ok(rim) => Ok(Ok(rim)),
        Err(refused) => Ok(Err(refused.fault())),
    }
}

/// Returns the measurement that a monitor holds after the commands of a launch, or the launch as it is refused. Its edited devicetree is made
/// here and dropped.
#[tactic(auto, unfolding(rim_accepted::specs::Accepted::rim_for))]
fn audit_launch<'a>(
    alloc: Global,
    launch: LoadedLaunch<'a>,
    kept: &mut Kept<'a>,
    lanes: Lanes,
) -> Result<Result<Measurement, RefusedLaunch<'a>>, NoMemory>
    requires { AreKept (bytes_of_files launch.files.now) kept.old }
    ensures rim { IfOk result (λ found. came_to (λ m. m.bytes) found
        ≡ rim_for launch.entry.launch.now.launch (bytes_of_files launch.entry.files.now)) }
    ensures kept { AreKept (bytes_of_files launch.entry.files.now) kept.new }
{
    let commands = match lay_out(alloc, launch, lanes)? {
        Ok(commands) => commands,
        Err(refused) => return Ok(Err(refused)),
    };
    let (rim, copies) = followed(alloc, &commands, kept)?;
    kept.keep(commands, copies);
    Ok(Ok(rim))
}

/// The measurement that a monitor holds after the commands of a launch, and copies of the monitor for later launches. It goes on
/// from a copy that is kept, where one serves.
fn followed(
    alloc: Global,
    commands: &LaunchCommands,
    kept: &mut Kept,
) -> Result<(Measurement, Vec<MonitorCopy>), NoMemory>
    requires { AreKept (bytes_of_files commands.now.accepted.files.now) kept.old }
    ensures rim { IfOk result (λ found. found.0.bytes
        ≡ rim_after commands.now.accepted.named.now.launch (commands_in commands.now)) }
    ensures copies { IfOk result (λ found. All (IsCopyIn commands.now) found.1.items) }
    ensures kept { AreKept (bytes_of_files commands.now.accepted.files.now) kept.new }
{
    let (mut monitor, first) = begin(alloc, commands, &kept.launches);
    kept.beside.begin_launch();
    let mut copies = Vec::new(alloc);
    let mut last = first;
    for index in first..commands.len() {
        if is_worth_a_copy(commands, index, last) {
            kept.push_copy(&mut copies, commands, index, &monitor);
            last = index;
        }
        commands.give(&mut monitor, &mut kept.beside, index)?;
    }
    Ok((commands.rim(&monitor), copies))
}

/// Whether a copy is made before a command, where the last one was made, or the launch begun, before the command `last`: where an
/// item begins, and as many commands were given since then as before. So a launch's copies were given less than twice its commands.
fn is_worth_a_copy(commands: &LaunchCommands, index: usize, last: usize) -> bool
    requires { index < length (commands_in commands.now) }
{
    let given = index.saturating_sub(last);
    given >= LEAST_COPIED && given >= last && commands.begins_item(index)
}

/// No copy is made after fewer commands than this. This project's choice.
const LEAST_COPIED: usize = 1_024;
