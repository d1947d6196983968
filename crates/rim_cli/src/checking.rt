//! What is wrong with a manifest, with its files and with its launches.
ghost use Rattle.std.specs.Prelude.{◌≡◌, ◌≢◌, ◌⊎◌, ◌≤◌, [], ◌++◌, IfErr, IfOk, OnOk, if◌then◌else◌, map};
ghost use Rattle.rim_cli.specs.Done.{Finds, IsCheckIn, IsReleaseCheck, check_status, shown_in};
ghost use Rattle.rim_files.specs.Files.{IfFile, IsFileFault};
ghost use Rattle.shown_text.specs.Lines.{lines_of};
ghost use Rattle.rim_cli.specs.inside.Found.{AreFound, HasRemark, findings_of};

use crate::answer::Answer;
use refusal::NoMemory;
use rim_accepted::{Files, LoadedRelease};
use rim_check::{
    LaunchCheck, ManifestCheck, MarkedLine, ReleaseFault, Remark, check_json, check_launches,
    check_manifest, lines_of, mark_first, push_file,
};
use rim_files::{FILE_LIMIT, Fault, Opener, Unread, copy_file, read_file};
use rim_manifest::Release;
use rim_words::Format;
use std::alloc::{AllocError, Global};
use std::convert::AsSlice;
use std::io::ErrorKind;

/// What a check has found: the faults, the warnings, and the exit status that it ends with; and the line of the manifest that has its first
/// fault.
#[derive(Drop)]
pub struct Checked {
    pub faults: Vec<Remark>,
    pub warnings: Vec<Remark>,
    pub status: u8,
    pub mark: Option<MarkedLine>,
}

/// Answers with what is wrong with the manifest at a path, or else with the files and the launches of its release.
pub fn check<O: Opener>(
    alloc: Global,
    opener: &mut O,
    path: &str,
    quiet: bool,
    format: Format,
) -> Result<Answer, Fault>
    ensures answered { IfOk result (λ a. IfFile (O.held opener.old path.now)
        (λ bytes. IsCheckIn format (O.held opener.old) quiet path.now bytes a.text.items
        a.status)) }
    ensures refused { IfErr result (IsFileFault (O.held opener.old path.now)) }
    ensures status { IfOk result (λ a. (a.status ≤ 1) ⊎ (a.status ≡ 3)) }
    ensures stays { O.held opener.new ≡ O.held opener.old }
{
    let found = check_path(alloc, opener, path, quiet)?;
    answer_in(alloc, found, format)
}

/// What was found, in a format.
fn answer_in(alloc: Global, found: Checked, format: Format) -> Result<Answer, Fault>
    ensures text { IfOk result
        (λ a. a.text.items ≡ shown_in format (findings_of found) found.status) }
    ensures status { IfOk result (λ a. a.status ≡ found.status) }
    ensures refused { IfErr result (λ e. e ≡ Fault.NoMemory) }
{
    let Checked {
        faults,
        warnings,
        status,
        mark,
    } = found;
    let text = match format {
        Format::Text => lines(alloc, &faults, &warnings)?,
        Format::Json => check_json(alloc, &faults, &warnings, status)?,
    };
    Ok(Answer {
        text,
        status,
        refusals: Vec::new(alloc),
        mark,
    })
}

/// A line for each fault, and then for each warning.
fn lines(alloc: Global, faults: &[Remark], warnings: &[Remark]) -> Result<Vec<u8>, NoMemory>
    ensures { IfOk result (λ text. text.items ≡ lines_of faults.now ++ lines_of warnings.now) }
{
    let mut text = lines_of(alloc, faults)?;
    text.extend_from_slice(&lines_of(alloc, warnings)?)?;
    Ok(text)
}

/// What is found of the manifest at a path.
pub(crate) fn check_path<O: Opener>(
    alloc: Global,
    opener: &mut O,
    path: &str,
    quiet: bool,
) -> Result<Checked, Fault>
    ensures found { IfOk result (λ c. IfFile (O.held opener.old path.now)
        (λ bytes. Finds (O.held opener.old) quiet path.now bytes (findings_of c) c.status)) }
    ensures refused { IfErr result (IsFileFault (O.held opener.old path.now)) }
    ensures status { IfOk result (λ c. (c.status ≤ 1) ⊎ (c.status ≡ 3)) }
    ensures stays { O.held opener.new ≡ O.held opener.old }
{
    let bytes = read_file(alloc, opener, path)?;
    match check_manifest(alloc, path, bytes.as_slice()) {
        Ok(ManifestCheck::Faulty(faults, first)) => {
            let mut found = at_fault(alloc, faults);
            if let Ok(mark) = mark_first(alloc, bytes.as_slice(), first) {
                found.mark = mark;
            }
            Ok(found)
        }
        Ok(ManifestCheck::Readable(release)) => check_release(alloc, opener, &release, quiet),
        Err(_) => Err(Fault::NoMemory),
    }
}

/// Faults of a manifest or of its files, which leave no launch to look at.
fn at_fault(alloc: Global, faults: Vec<Remark>) -> Checked
    ensures faults { result.faults.items ≡ faults.items }
    ensures warnings { result.warnings.items ≡ [] }
    ensures status { result.status ≡ 3 }
{
    Checked {
        faults,
        warnings: Vec::new(alloc),
        status: 3,
        mark: None,
    }
}

/// What is wrong with the files of a release; or else with its launches.
fn check_release<O: Opener>(
    alloc: Global,
    opener: &mut O,
    release: &Release,
    quiet: bool,
) -> Result<Checked, Fault>
    ensures found { IfOk result
        (λ c. IsReleaseCheck (O.held opener.old) quiet release.now (findings_of c) c.status) }
    ensures refused { IfErr result (λ e. e ≡ Fault.NoMemory) }
    ensures status { IfOk result (λ c. (c.status ≤ 1) ⊎ (c.status ≡ 3)) }
    ensures stays { O.held opener.new ≡ O.held opener.old }
{
    let found = find_files(alloc, opener, release)?;
    if !found.unread.is_empty() {
        return Ok(at_fault(alloc, found.unread));
    }
    match check_launches(alloc, LoadedRelease::new(release, &found.files), quiet) {
        Ok(check) => Ok(release_check(alloc, check, quiet)),
        Err(_) => Err(Fault::NoMemory),
    }
}

/// What a check of launches has found: what is at fault, and the warnings unless it is quiet.
fn release_check(alloc: Global, check: LaunchCheck, quiet: bool) -> Checked
    ensures faults { result.faults.items ≡ check.faults.items }
    ensures warnings { result.warnings.items ≡ (if quiet then [] else check.warnings.items) }
    ensures status { result.status ≡ check_status check.fault }
    ensures known { (result.status ≤ 1) ⊎ (result.status ≡ 3) }
{
    let LaunchCheck {
        fault,
        faults,
        warnings,
    } = check;
    Checked {
        faults,
        warnings: if quiet { Vec::new(alloc) } else { warnings },
        status: check_status(fault),
        mark: None,
    }
}

/// The status that a check of launches ends with.
fn check_status(fault: Option<ReleaseFault>) -> u8
    ensures value { result ≡ check_status fault }
    ensures known { (result ≤ 1) ⊎ (result ≡ 3) }
{
    match fault {
        None => 0,
        Some(ReleaseFault::Refused) => 1,
        Some(ReleaseFault::TooManyPages) => 3,
    }
}

/// The bytes of the files that are read, and a remark on each that cannot be.
#[derive(Drop)]
struct FoundFiles {
    files: Files,
    unread: Vec<Remark>,
}

/// Reads each file of a release, also where one before it cannot be read.
fn find_files<O: Opener>(
    alloc: Global,
    opener: &mut O,
    release: &Release,
) -> Result<FoundFiles, Fault>
    ensures found { IfOk result (λ f. AreFound (O.held opener.old) release.now.paths
        (map (λ file. file.items) f.files.items) f.unread.items) }
    ensures fault { IfErr result (λ e. e ≡ Fault.NoMemory) }
    ensures stays { O.held opener.new ≡ O.held opener.old }
{
    let mut files = Vec::new(alloc);
    let mut unread = Vec::new(alloc);
    for i in 0..release.file_count() {
        let path = release.path(i);
        match copy_file(alloc, opener, path) {
            Ok(bytes) => files.push(bytes).map_err(|_| Fault::NoMemory)?,
            Err(why) => push_unread(&mut unread, path, why)?,
        }
    }
    Ok(FoundFiles { files, unread })
}

/// Adds the remark on a file that cannot be read, but passes want of memory on.
fn push_unread(unread: &mut Vec<Remark>, path: &str, why: Unread) -> Result<(), Fault>
    ensures line { OnOk result (HasRemark path.now why.fault unread.old.items unread.new.items) }
    ensures own { OnOk result (why.fault ≢ Fault.NoMemory) }
    ensures full { IfErr result (λ e. e ≡ Fault.NoMemory) }
{
    match why.fault {
        Fault::NoMemory => Err(Fault::NoMemory),
        fault => push_remark(unread, path, fault, why.failure).map_err(|_| Fault::NoMemory),
    }
}

/// Adds that remark, with what the system says.
fn push_remark(
    unread: &mut Vec<Remark>,
    path: &str,
    fault: Fault,
    failure: Option<ErrorKind>,
) -> Result<(), NoMemory>
    ensures { OnOk result (HasRemark path.now fault unread.old.items unread.new.items) }
{
    let alloc = *unread.allocator();
    let hint = failure_text(alloc, path, fault, failure)?;
    push_file(unread, path, fault.kind(), hint.as_str())
}

/// What is known of a file that cannot be read.
pub fn failure_text(
    alloc: Global,
    path: &str,
    fault: Fault,
    failure: Option<ErrorKind>,
) -> Result<String, AllocError> {
    match (fault, failure) {
        (Fault::FileTooLarge, _) => format!(in alloc; "it has more than {FILE_LIMIT} bytes"),
        (_, Some(ErrorKind::NotFound)) if path.starts_with('/') => {
            format!(in alloc; "there is no such file")
        }
        (_, Some(ErrorKind::NotFound)) => {
            format!(in alloc; "there is no such file in the folder where rim runs")
        }
        (_, Some(ErrorKind::IsADirectory)) => format!(in alloc; "it is a directory"),
        (_, Some(failure)) => format!(in alloc; "{failure}"),
        (_, None) => format!(in alloc; ""),
    }
}
