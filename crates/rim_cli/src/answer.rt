//! The answer to a request, made whole.
ghost use Rattle.std.specs.Prelude.{◌≡◌, ◌⊎◌, ◌<◌, ◌≤◌, Err, IfErr, IfOk, IsOkAnd, Ok, Some, if◌then◌else◌, length, map, position, true, vec_len};
ghost use Rattle.sha2.specs.Sha256.{sha256};
ghost use Rattle.ipa_layout.specs.Files.{bytes_of_files};
ghost use Rattle.rim_manifest.specs.Launches.{NamedData};
ghost use Rattle.rim_accepted.specs.Lines.{has_refused, outcomes_for, seen};
ghost use Rattle.rim_accepted.specs.Outcomes.{came_to};
ghost use Rattle.rim_pages.specs.Pages.{page_keys};
ghost use Rattle.rim_report.specs.Report.{is_crew, measured_of};
ghost use Rattle.rim_words.specs.Command.{HasCrew, IsCrew};
ghost use Rattle.rim_manifest.specs.Manifest.{manifest_of};
ghost use Rattle.rim_show.specs.ShownDevicetree.{ShowsDevicetree};
ghost use Rattle.rim_show.specs.ShownImage.{image_answer_of};
ghost use Rattle.rim_cli.specs.Done.{IsAnswer, IsAudit, IsLaunchAnswer, IsLaunchFault, IsManifestFault, IsReport, IsReportAsJson, IsReportOf, IsShown, Refuses, RefusesAudit, RefusesFdt, RefusesImage, RefusesManifest, RefusesReport};
ghost use Rattle.rim_files.specs.Files.{AreRead, IfFile};

use crate::checking::check;
use crate::found::{read_launch, read_release, release_in};
use crate::freed::keep_freed_memory;
use crate::mapping::map_of;
use crate::replaying::replay;
use job_workers::Gate;
use refusal::NoMemory;
use rim_accepted::{
    Files, LoadedLaunch, LoadedRelease, RefusedLaunch, accept_all, placed_devicetree, refused_line,
};
use rim_audit::{audit_with_gate, list_launch, trace_launch};
use rim_check::{MarkedLine, refusal_remark, refusals};
use rim_desc::Lanes;
use rim_files::{Fault, Opener, read_file, read_files, read_files_at_once};
use rim_json::{Reported, json_report};
use rim_manifest::Release;
use rim_pages::StartFault;
use rim_report::{
    Digested, Outcome, digested_alone, measure_release, measure_with_digests, outcome_alone,
};
use rim_show::{show_fdt, show_image};
use rim_words::{Ask, FileAsk, Format, LaunchAsk, ManifestAsk, Request, VERSION};
use shown_text::Remark;
use std::alloc::Global;
use std::convert::AsSlice;
use std::sync::Wait;
use std::thread::{Threads, available_parallelism};

/// The answer to a request.
#[derive(Drop)]
pub struct Answer {
    /// The text that the request asks for, or the bytes of a devicetree.
    pub text: Vec<u8>,
    /// The exit status: 0, or 1 where the text says that some launch is refused or that a listing is not what it says, or 3 where it says
    /// what a check found at fault in a manifest or its files.
    pub status: u8,
    /// Why launches are refused, where the request asks for it. No clause mentions these remarks.
    pub refusals: Vec<Option<Remark>>,
    /// The line of a manifest that has the first fault which a check has found. No clause mentions it.
    pub mark: Option<MarkedLine>,
}

impl Answer {
    ghost use Rattle.std.specs.Prelude.{◌≡◌};

    /// Returns an answer without remarks.
    pub(crate) fn new(alloc: Global, text: Vec<u8>, status: u8) -> Answer
        ensures text { result.text ≡ text }
        ensures status { result.status ≡ status }
    {
        Answer {
            text,
            status,
            refusals: Vec::new(alloc),
            mark: None,
        }
    }
}

/// Answers a request, or returns the first fault. The gate is called by workers, and by an audit.
pub fn answer_to<R: Threads + Wait + Sync, G: Gate + Sync, O: Opener>(
    rt: &R,
    alloc: Global,
    gate: &mut G,
    request: Request,
    opener: &mut O,
) -> Result<Answer, Fault>
    requires { HasCrew request.ask }
    ensures answered { IfOk result (λ a. IfFile (O.held opener.old request.entry.path.now)
        (λ bytes. IsAnswer (O.held opener.old) request.entry.ask request.entry.path.now bytes
        a.text.items a.status)) }
    ensures refused { IfErr result (Refuses (O.held opener.old) request.entry.ask
        (O.held opener.old request.entry.path.now)) }
    ensures status { IfOk result (λ a. (a.status ≤ 1) ⊎ (a.status ≡ 3)) }
    ensures stays { O.held opener.new ≡ O.held opener.old }
{
    let path = request.path;
    match request.ask {
        Ask::Manifest(ManifestAsk::Measure { workers, format }) => {
            let explain = request.explain;
            measure(rt, alloc, gate, opener, path, workers, format, explain)
        }
        _ => answer_alone(alloc, gate, request, opener),
    }
}

/// The same answer, made on the calling thread alone, whatever number of workers is asked for. It takes no lock and does not wait. The gate
/// is called by an audit.
pub fn answer_alone<G: Gate, O: Opener>(
    alloc: Global,
    gate: &G,
    request: Request,
    opener: &mut O,
) -> Result<Answer, Fault>
    ensures answered { IfOk result (λ a. IfFile (O.held opener.old request.entry.path.now)
        (λ bytes. IsAnswer (O.held opener.old) request.entry.ask request.entry.path.now bytes
        a.text.items a.status)) }
    ensures refused { IfErr result (Refuses (O.held opener.old) request.entry.ask
        (O.held opener.old request.entry.path.now)) }
    ensures status { IfOk result (λ a. (a.status ≤ 1) ⊎ (a.status ≡ 3)) }
    ensures stays { O.held opener.new ≡ O.held opener.old }
{
    let path = request.path;
    let explain = request.explain;
    match request.ask {
        Ask::Manifest(ask) => manifest_answer(alloc, gate, opener, path, ask, explain),
        Ask::Launch { launch, ask } => {
            launch_answer(alloc, gate.lanes(), opener, path, launch, ask, explain)
        }
        Ask::File(ask) => file_answer(alloc, opener, path, ask),
    }
}

/// The answer to what is asked of a manifest.
fn manifest_answer<G: Gate, O: Opener>(
    alloc: Global,
    gate: &G,
    opener: &mut O,
    path: &str,
    ask: ManifestAsk,
    explain: bool,
) -> Result<Answer, Fault>
    ensures answered { IfOk result (λ a. IfFile (O.held opener.old path.now)
        (λ bytes. IsAnswer (O.held opener.old) (Ask.Manifest ask) path.now bytes
        a.text.items a.status)) }
    ensures refused { IfErr result
        (Refuses (O.held opener.old) (Ask.Manifest ask) (O.held opener.old path.now)) }
    ensures status { IfOk result (λ a. (a.status ≤ 1) ⊎ (a.status ≡ 3)) }
    ensures stays { O.held opener.new ≡ O.held opener.old }
{
    match ask {
        ManifestAsk::Measure { format, .. } => {
            measure_alone(alloc, gate.lanes(), opener, path, format, explain)
        }
        ManifestAsk::Audit => audit(alloc, gate, opener, path, explain),
        ManifestAsk::Check { quiet, format } => check(alloc, opener, path, quiet, format),
    }
}

/// The answer to what is asked of a launch of a manifest.
fn launch_answer<O: Opener>(
    alloc: Global,
    lanes: Lanes,
    opener: &mut O,
    path: &str,
    launch: &str,
    ask: LaunchAsk,
    explain: bool,
) -> Result<Answer, Fault>
    ensures answered { IfOk result (λ a. IfFile (O.held opener.old path.now)
        (λ bytes. IsAnswer (O.held opener.old) (Ask.Launch launch.entry ask) path.now bytes
        a.text.items a.status)) }
    ensures refused { IfErr result (Refuses (O.held opener.old) (Ask.Launch launch.entry ask)
        (O.held opener.old path.now)) }
    ensures status { IfOk result (λ a. a.status ≤ 1) }
    ensures stays { O.held opener.new ≡ O.held opener.old }
{
    let found = read_launch(alloc, opener, path, launch)?;
    answer_of_launch(alloc, lanes, &found.release, found.loaded(), ask, explain)
}

/// Answers what is asked of a launch that is read. A launch that is refused has a line of a report, or a map; its devicetree is not given.
fn answer_of_launch(
    alloc: Global,
    lanes: Lanes,
    release: &Release,
    loaded: LoadedLaunch<'_>,
    ask: LaunchAsk,
    explain: bool,
) -> Result<Answer, Fault>
    ensures answered { IfOk result (λ a. IsLaunchAnswer ask release.now.paths
        loaded.entry.launch.now (bytes_of_files loaded.entry.files.now) a.text.items a.status) }
    ensures refused { IfErr result (λ e. (e ≡ Fault.NoMemory) ⊎ IsLaunchFault ask
        loaded.entry.launch.now (bytes_of_files loaded.entry.files.now) e) }
    ensures status { IfOk result (λ a. a.status ≤ 1) }
{
    match ask {
        LaunchAsk::List => {
            let listed = list_launch(alloc, lanes, loaded)?;
            Ok(text_answer(alloc, listed, explain)?)
        }
        LaunchAsk::Trace => {
            let traced = trace_launch(alloc, lanes, loaded)?;
            Ok(text_answer(alloc, traced, explain)?)
        }
        LaunchAsk::Map { format } => Ok(map_of(alloc, release, loaded, format)?),
        LaunchAsk::Dtb => match placed_devicetree(alloc, loaded) {
            Ok(Some(bytes)) => Ok(Answer::new(alloc, bytes, 0)),
            Ok(None) => Err(Fault::NoDevicetree),
            Err(fault) => Err(Fault::Refused(fault)),
        },
    }
}

/// Answers with the text of a launch, or with its line of a report where it is refused.
fn text_answer(
    alloc: Global,
    text: Result<Vec<u8>, RefusedLaunch<'_>>,
    explain: bool,
) -> Result<Answer, NoMemory>
    ensures shown { IfOk result (λ a. (l : NamedData) → IfErr text.entry (λ r. r.named.now ≡ l)
        → IsShown l (came_to (λ t. t.items) text.entry) a.text.items a.status) }
    ensures status { IfOk result (λ a. a.status ≤ 1) }
{
    match text {
        Ok(text) => Ok(Answer::new(alloc, text, 0)),
        Err(refused) => {
            let mut answer = Answer::new(alloc, refused_line(alloc, &refused)?, 1);
            if explain {
                let remark = refusal_remark(alloc, &refused)?;
                answer.refusals.push(Some(remark))?;
            }
            Ok(answer)
        }
    }
}

/// The answer to what is asked of a file that is no manifest.
fn file_answer<O: Opener>(
    alloc: Global,
    opener: &mut O,
    path: &str,
    ask: FileAsk,
) -> Result<Answer, Fault>
    ensures answered { IfOk result (λ a. IfFile (O.held opener.old path.now)
        (λ bytes. IsAnswer (O.held opener.old) (Ask.File ask) path.now bytes
        a.text.items a.status)) }
    ensures refused { IfErr result
        (Refuses (O.held opener.old) (Ask.File ask) (O.held opener.old path.now)) }
    ensures status { IfOk result (λ a. a.status ≤ 1) }
    ensures stays { O.held opener.new ≡ O.held opener.old }
{
    match ask {
        FileAsk::Replay => replay(alloc, opener, path),
        FileAsk::Image => image(alloc, opener, path),
        FileAsk::Fdt => fdt(alloc, opener, path),
    }
}

/// How many of this many workers are of use: no more than there are processors that the program may run on, where the system says
/// that. More would take work from one another, and their launches would not go side by side.
fn of_use<R: Threads>(rt: &R, workers: u8) -> usize
    requires { IsCrew workers }
    ensures { (1 ≤ result) × (result ≤ workers) }
{
    let workers = workers as usize;
    available_parallelism(rt).map_or(workers, |processors| workers.min(processors.get()))
}

/// The report of a manifest's launches, made by 1 to 64 workers.
fn measure<R: Threads + Wait + Sync, G: Gate + Sync, O: Opener>(
    rt: &R,
    alloc: Global,
    gate: &mut G,
    opener: &mut O,
    path: &str,
    workers: u8,
    format: Format,
    explain: bool,
) -> Result<Answer, Fault>
    requires { IsCrew workers }
    ensures answered { IfOk result (λ a. IfFile (O.held opener.old path.now) (λ bytes. IsOkAnd
        (manifest_of bytes)
        (λ r. IsReport format path.now bytes (O.held opener.old) r a.text.items a.status))) }
    ensures refused { IfErr result
        (RefusesManifest (RefusesReport (O.held opener.old)) (O.held opener.old path.now)) }
    ensures status { IfOk result (λ a. a.status ≤ 1) }
    ensures stays { O.held opener.new ≡ O.held opener.old }
{
    let text = read_file(alloc, opener, path)?;
    let release = release_in(alloc, text.as_slice())?;
    let workers = of_use(rt, workers);
    let files = read_files_at_once(rt, alloc, opener, &release, workers)?;
    let text = text.as_slice();
    let report = report(
        rt, alloc, gate, path, text, &release, &files, workers, format, explain,
    );
    report.map_err(Fault::Start)
}

/// The same report, made on the calling thread alone.
fn measure_alone<O: Opener>(
    alloc: Global,
    lanes: Lanes,
    opener: &mut O,
    path: &str,
    format: Format,
    explain: bool,
) -> Result<Answer, Fault>
    ensures answered { IfOk result (λ a. IfFile (O.held opener.old path.now) (λ bytes. IsOkAnd
        (manifest_of bytes)
        (λ r. IsReport format path.now bytes (O.held opener.old) r a.text.items a.status))) }
    ensures refused { IfErr result
        (RefusesManifest (RefusesReport (O.held opener.old)) (O.held opener.old path.now)) }
    ensures status { IfOk result (λ a. a.status ≤ 1) }
    ensures stays { O.held opener.new ≡ O.held opener.old }
{
    let text = read_file(alloc, opener, path)?;
    let release = release_in(alloc, text.as_slice())?;
    let files = read_files(alloc, opener, &release)?;
    let text = text.as_slice();
    let report = report_alone(alloc, lanes, path, text, &release, &files, format, explain);
    report.map_err(Fault::Start)
}

/// Answers with the report of the release that a manifest describes, made by 1 to 64 workers, in a format.
fn report<R: Threads + Wait + Sync, G: Gate + Sync>(
    rt: &R,
    alloc: Global,
    gate: &mut G,
    path: &str,
    bytes: &[u8],
    release: &Release,
    files: &Files,
    workers: usize,
    format: Format,
    explain: bool,
) -> Result<Answer, StartFault>
    requires each { vec_len files.now ≡ length release.now.paths }
    requires crew { is_crew workers ≡ true }
    ensures text { IfOk result (λ a. IsReportOf format path.now bytes.now
        (bytes_of_files files.now.items) release.now a.text.items) }
    ensures fault { IfErr result (λ e. (e ≡ StartFault.NoMemory)
        ⊎ (measured_of (bytes_of_files files.now.items) release.now.launches ≡ Err e)) }
    ensures status { IfOk result (λ a. a.status
        ≡ (if has_refused (bytes_of_files files.now.items) release.now.launches then 1 else 0)) }
{
    match format {
        Format::Text => {
            let outcome = measure_release(rt, alloc, gate, release, files, workers)?;
            Ok(report_as_text(alloc, outcome, explain)?)
        }
        Format::Json => {
            let digested = measure_with_digests(rt, alloc, gate, release, files, workers)?;
            Ok(report_as_json(alloc, path, bytes, digested)?)
        }
    }
}

/// Answers with the same report, made on the calling thread alone.
fn report_alone(
    alloc: Global,
    lanes: Lanes,
    path: &str,
    bytes: &[u8],
    release: &Release,
    files: &Files,
    format: Format,
    explain: bool,
) -> Result<Answer, StartFault>
    requires each { vec_len files.now ≡ length release.now.paths }
    ensures text { IfOk result (λ a. IsReportOf format path.now bytes.now
        (bytes_of_files files.now.items) release.now a.text.items) }
    ensures fault { IfErr result (λ e. (e ≡ StartFault.NoMemory)
        ⊎ (measured_of (bytes_of_files files.now.items) release.now.launches ≡ Err e)) }
    ensures status { IfOk result (λ a. a.status
        ≡ (if has_refused (bytes_of_files files.now.items) release.now.launches then 1 else 0)) }
{
    match format {
        Format::Text => {
            let outcome = outcome_alone(alloc, lanes, release, files)?;
            Ok(report_as_text(alloc, outcome, explain)?)
        }
        Format::Json => {
            let digested = digested_alone(alloc, lanes, release, files)?;
            Ok(report_as_json(alloc, path, bytes, digested)?)
        }
    }
}

/// Answers with the report as lines.
fn report_as_text(alloc: Global, outcome: Outcome<'_>, explain: bool) -> Result<Answer, NoMemory>
    ensures text { IfOk result (λ a. a.text.items ≡ outcome.entry.report.items) }
    ensures status { IfOk result (λ a. a.status ≡ (if outcome.entry.has_refused then 1 else 0)) }
{
    let mut answer = Answer::new(alloc, outcome.report, refused_status(outcome.has_refused));
    if explain {
        answer.refusals = refusals(alloc, &outcome.accepted)?;
    }
    Ok(answer)
}

/// Answers with the report as JSON.
fn report_as_json(
    alloc: Global,
    path: &str,
    bytes: &[u8],
    digested: Digested<'_>,
) -> Result<Answer, NoMemory>
    requires digests { digested.digests.items ≡ map sha256 digested.outcome.accepted.files }
    requires launches { map seen digested.outcome.launches.items ≡ outcomes_for
        digested.outcome.accepted.files digested.outcome.accepted.release.launches }
    requires pages { digested.outcome.pages ≡ length (page_keys
        digested.outcome.accepted.files digested.outcome.accepted.release.launches) }
    ensures text { IfOk result (λ a. IsReportAsJson path.now bytes.now
        digested.entry.outcome.accepted.files digested.entry.outcome.accepted.release
        a.text.items) }
    ensures status { IfOk result
        (λ a. a.status ≡ (if digested.entry.outcome.has_refused then 1 else 0)) }
{
    let Digested { outcome, digests } = digested;
    let program = format!(in alloc; "rim {VERSION}")?;
    let remarks = refusals(alloc, &outcome.accepted)?;
    let reported = Reported {
        program: &program,
        path,
        bytes,
        accepted: &outcome.accepted,
        digests: &digests,
        outcomes: &outcome.launches,
        remarks: &remarks,
        pages: outcome.pages,
    };
    let text = json_report(alloc, &reported)?;
    Ok(Answer {
        text,
        status: refused_status(outcome.has_refused),
        refusals: remarks,
        mark: None,
    })
}

/// Returns the exit status of a text about launches, by whether it says that some launch is refused.
fn refused_status(has_refused: bool) -> u8
    ensures value { result ≡ (if has_refused then 1 else 0) }
    ensures known { result ≤ 1 }
{
    if has_refused { 1 } else { 0 }
}

/// The audit of a manifest's launches.
fn audit<G: Gate, O: Opener>(
    alloc: Global,
    gate: &G,
    opener: &mut O,
    path: &str,
    explain: bool,
) -> Result<Answer, Fault>
    ensures answered { IfOk result (λ a. IfFile (O.held opener.old path.now) (λ bytes. IsOkAnd
        (manifest_of bytes) (λ r. IsAudit (O.held opener.old) r a.text.items a.status))) }
    ensures refused { IfErr result
        (RefusesManifest (RefusesAudit (O.held opener.old)) (O.held opener.old path.now)) }
    ensures status { IfOk result (λ a. a.status ≤ 1) }
    ensures stays { O.held opener.new ≡ O.held opener.old }
{
    let release = read_release(alloc, opener, path)?;
    let files = read_files(alloc, opener, &release)?;
    keep_freed_memory(alloc);
    let loaded = LoadedRelease::new(&release, &files);
    let report = audit_with_gate(alloc, gate, loaded)?;
    let mut answer = Answer::new(alloc, report.text, refused_status(report.has_refused));
    if explain && report.has_refused {
        // An audit keeps no launch, since each may have a large devicetree. So they are laid out again.
        answer.refusals = refusals(alloc, &accept_all(alloc, loaded)?)?;
    }
    Ok(answer)
}

/// The header of the Image at a path.
fn image<O: Opener>(alloc: Global, opener: &mut O, path: &str) -> Result<Answer, Fault>
    ensures answered { IfOk result (λ a. IfFile (O.held opener.old path.now)
        (λ bytes. (image_answer_of bytes ≡ Ok a.text.items) × (a.status ≡ 0))) }
    ensures refused { IfErr result (RefusesImage (O.held opener.old path.now)) }
    ensures status { IfOk result (λ a. a.status ≤ 1) }
    ensures stays { O.held opener.new ≡ O.held opener.old }
{
    let bytes = read_file(alloc, opener, path)?;
    let text = show_image(alloc, bytes.as_slice()).map_err(Fault::Show)?;
    Ok(Answer::new(alloc, text, 0))
}

/// The devicetree in the file at a path.
fn fdt<O: Opener>(alloc: Global, opener: &mut O, path: &str) -> Result<Answer, Fault>
    ensures answered { IfOk result (λ a. IfFile (O.held opener.old path.now)
        (λ bytes. ShowsDevicetree bytes a.text.items × (a.status ≡ 0))) }
    ensures refused { IfErr result (RefusesFdt (O.held opener.old path.now)) }
    ensures status { IfOk result (λ a. a.status ≤ 1) }
    ensures stays { O.held opener.new ≡ O.held opener.old }
{
    let bytes = read_file(alloc, opener, path)?;
    let text = show_fdt(alloc, bytes.as_slice()).map_err(Fault::Show)?;
    Ok(Answer::new(alloc, text, 0))
}
