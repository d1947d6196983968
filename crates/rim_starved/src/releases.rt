//! Calls on a release and its files.
ghost use Rattle.std.specs.Prelude.{◌≡◌, ◌<◌, length, map, vec_len};
ghost use Rattle.sha2.specs.Sha256.{sha256};

use crate::calls::ReleaseCall;
use crate::inputs::{files_of, split};
use crate::trial::{Fault, Seen, Trial, digest, made, remarks_digest, text_digest, tried};
use refusal::NoMemory;
use rim_accepted::accept_with_list;
use rim_check::{LaunchCheck, check_launches, refusals};
use rim_desc::{Lanes, Measurement};
use rim_json::{Reported, json_report};
use rim_map::{map_json, map_text, refused_json, refused_text};
use rim_release::{
    AuditFault, Files, Gate, JobId, LoadedLaunch, LoadedRelease, Outcome, Release, StartFault,
    audit, audit_report, listing, measure_alone, measure_release, placed_devicetree, read_manifest,
    trace_launch,
};
use rim_report::{Digested, measure_with_digests};
use shown_text::{Remark, Word};
use std::alloc::{AllocError, Global};
use std::sync::Wait;
use std::sync::atomic::{AtomicU64, Ordering};
use std::thread::Threads;

/// What a call answers on the release of a manifest, and where it is about one launch, on the first.
pub fn seen<R: Threads + Wait + Sync + Print + AllocGlobal>(
    trial: &Trial<'_, R>,
    call: ReleaseCall,
    input: &[u8],
) -> Result<Seen, Fault> {
    let alloc = trial.rt.alloc();
    let (text, rest) = split(input);
    let release = read_manifest(alloc, text).map_err(|_| Fault::Input)?;
    let files = files_of(alloc, &release, rest)?;
    let loaded = LoadedRelease::new(&release, &files);
    match call {
        ReleaseCall::MeasureAlone => {
            let (release, files) = (&release, &files);
            tried!(trial, measure_alone(alloc, release, files) => text_digest, StartFault::NoMemory)
        }
        ReleaseCall::ByWorkers => by_workers(trial, &release, &files, true),
        ReleaseCall::NoWaiting => by_workers(trial, &release, &files, false),
        ReleaseCall::WithDigests => with_digests(trial, &release, &files),
        ReleaseCall::JsonReport => as_json(trial, text, &release, &files),
        ReleaseCall::AuditReport =>
            tried!(trial, audit_report(alloc, &release, &files) => text_digest, NoMemory),
        ReleaseCall::CheckLaunches =>
            tried!(trial, check_launches(alloc, loaded, false) => check_digest, NoMemory),
        _ => first_launch(trial, call, &release, &files),
    }
}

fn first_launch<R: Print + AllocGlobal>(
    trial: &Trial<'_, R>,
    call: ReleaseCall,
    release: &Release,
    files: &Files,
) -> Result<Seen, Fault>
    requires { vec_len files.now ≡ length release.now.paths }
{
    if release.launches() == 0 {
        return Err(Fault::Input);
    }
    let alloc = trial.rt.alloc();
    let first = LoadedRelease::new(release, files).launch(0);
    match call {
        ReleaseCall::Audit =>
            tried!(trial, audit(alloc, release, files, 0) => value_digest, AuditFault::NoMemory),
        ReleaseCall::Listing =>
            tried!(trial, listing(alloc, release, files, 0) => text_digest, AuditFault::NoMemory),
        ReleaseCall::Trace =>
            tried!(trial, traced(alloc, first) => text_digest, AuditFault::NoMemory),
        ReleaseCall::MapText => mapped(trial, release, first, false),
        ReleaseCall::MapJson => mapped(trial, release, first, true),
        _ => tried!(trial, placed_devicetree(alloc, first) => bytes_digest, AuditFault::NoMemory),
    }
}

/// The trace of a launch, or the fault that it is refused with.
fn traced(alloc: Global, launch: LoadedLaunch<'_>) -> Result<Vec<u8>, AuditFault> {
    match trace_launch(alloc, Lanes::Four, launch)? {
        Ok(text) => Ok(text),
        Err(refused) => Err(refused.fault()),
    }
}

/// The map of a launch, accepted or refused.
fn mapped<R: Print + AllocGlobal>(
    trial: &Trial<'_, R>,
    release: &Release,
    launch: LoadedLaunch<'_>,
    is_json: bool,
) -> Result<Seen, Fault> {
    let alloc = trial.rt.alloc();
    match accept_with_list(alloc, launch) {
        Ok(Ok(listed)) => {
            if is_json {
                tried!(trial, map_json(alloc, release, &listed) => text_digest, NoMemory)
            } else {
                tried!(trial, map_text(alloc, release, &listed) => text_digest, NoMemory)
            }
        }
        Ok(Err(refused)) => {
            let remark = Remark::new(alloc, Word::Fault("refused"));
            let (refused, remark) = (&refused, &remark);
            if is_json {
                tried!(
                    trial,
                    refused_json(alloc, release, refused, remark) => text_digest,
                    NoMemory
                )
            } else {
                tried!(
                    trial,
                    refused_text(alloc, release, refused, remark) => text_digest,
                    NoMemory
                )
            }
        }
        Err(_) => Err(Fault::Input),
    }
}

/// The report in JSON of a run that one worker has made, with the remarks on what is refused.
fn as_json<R: Threads + Wait + Sync + Print + AllocGlobal>(
    trial: &Trial<'_, R>,
    manifest: &[u8],
    release: &Release,
    files: &Files,
) -> Result<Seen, Fault>
    requires { vec_len files.now ≡ length release.now.paths }
{
    let alloc = trial.rt.alloc();
    let gate = &mut Counting::new(true);
    let Ok(digested) = measure_with_digests(trial.rt, alloc, gate, release, files, 1) else {
        return Err(Fault::Input);
    };
    tried!(trial, reported(alloc, manifest, &digested) => text_digest, NoMemory)
}

fn reported(alloc: Global, manifest: &[u8], digested: &Digested<'_>) -> Result<Vec<u8>, NoMemory>
    requires { digested.now.digests.items ≡ map sha256 digested.now.outcome.accepted.files }
{
    let accepted = &digested.outcome.accepted;
    let remarks = refusals(alloc, accepted)?;
    let reported = Reported {
        program: "rim",
        path: "manifest.toml",
        bytes: manifest,
        accepted,
        digests: &digested.digests,
        outcomes: &digested.outcome.launches,
        remarks: &remarks,
        pages: digested.outcome.pages,
    };
    json_report(alloc, &reported)
}

/// Counts the calls when a worker begins, and around jobs.
#[derive(Drop)]
struct Counting {
    calls: AtomicU64,
    lets_wait: bool,
}

impl Counting {
    fn new(lets_wait: bool) -> Counting {
        Counting {
            calls: AtomicU64::new(0),
            lets_wait,
        }
    }

    fn calls(&self) -> u64 {
        self.calls.load(Ordering::SeqCst)
    }
}

impl Gate for Counting {
    fn start(&self, _worker: usize) {
        self.calls.fetch_add(1, Ordering::SeqCst);
    }

    fn before(&self, _worker: usize, _job: JobId) {
        self.calls.fetch_add(1, Ordering::SeqCst);
    }

    fn after(&self, _worker: usize, _job: JobId) {
        self.calls.fetch_add(1, Ordering::SeqCst);
    }

    fn lets_launches_wait(&self) -> bool {
        self.lets_wait
    }
}

/// How many workers measure.
const WORKERS: usize = 3;

/// A run of three workers. Where memory is refused no job was begun. How many workers were started is said, where it is the run that
/// is tried; the report and the pages are those of all workers.
fn by_workers<R: Threads + Wait + Sync + Print + AllocGlobal>(
    trial: &Trial<'_, R>,
    release: &Release,
    files: &Files,
    lets_wait: bool,
) -> Result<Seen, Fault>
    requires { vec_len files.now ≡ length release.now.paths }
{
    let (rt, alloc) = (trial.rt, trial.rt.alloc());
    let mut gate = Counting::new(lets_wait);
    match made!(
        trial,
        measure_release(rt, alloc, &mut gate, release, files, WORKERS)
    ) {
        Ok(outcome) => {
            let started = outcome.started;
            trial.say(format!(in alloc; "{started} started")?.as_str())?;
            Ok(Some(outcome_digest(&outcome)))
        }
        Err(_) if gate.calls() > 0 => Err(Fault::Changed),
        Err(StartFault::NoMemory) => Ok(None),
        Err(_) => Err(Fault::Input),
    }
}

/// A run of three workers that hash the files too. Where memory is refused no worker has begun.
fn with_digests<R: Threads + Wait + Sync + Print + AllocGlobal>(
    trial: &Trial<'_, R>,
    release: &Release,
    files: &Files,
) -> Result<Seen, Fault>
    requires { vec_len files.now ≡ length release.now.paths }
{
    let (rt, alloc) = (trial.rt, trial.rt.alloc());
    let mut gate = Counting::new(true);
    match made!(
        trial,
        measure_with_digests(rt, alloc, &mut gate, release, files, WORKERS)
    ) {
        Ok(digested) => {
            let started = digested.outcome.started;
            trial.say(format!(in alloc; "{started} started")?.as_str())?;
            Ok(Some(digested_digest(&digested)))
        }
        Err(_) if gate.calls() > 0 => Err(Fault::Changed),
        Err(StartFault::NoMemory) => Ok(None),
        Err(_) => Err(Fault::Input),
    }
}

/// A digest of a report and of the files' digests.
fn digested_digest(digested: &Digested<'_>) -> u64 {
    let mut value = outcome_digest(&digested.outcome);
    for file in &digested.digests {
        value = value.rotate_left(1) ^ digest(file);
    }
    value
}

/// A digest of a report; 0 where the shares do not add up to the pages.
fn outcome_digest(outcome: &Outcome<'_>) -> u64 {
    let mut sum = 0_u64;
    for share in &outcome.shares {
        sum = sum.wrapping_add(*share);
    }
    if sum != outcome.pages || outcome.shares.len() != WORKERS {
        return 0;
    }
    digest(outcome.report.as_slice())
}

fn check_digest(alloc: Global, check: &LaunchCheck) -> Result<u64, AllocError> {
    Ok(remarks_digest(alloc, &check.faults)? ^ remarks_digest(alloc, &check.warnings)?)
}

fn value_digest(_alloc: Global, value: &Measurement) -> Result<u64, AllocError> {
    Ok(digest(&value.bytes))
}

fn bytes_digest(_alloc: Global, bytes: &Option<Vec<u8>>) -> Result<u64, AllocError> {
    match bytes {
        Some(bytes) => Ok(digest(bytes.as_slice())),
        None => Ok(0),
    }
}
