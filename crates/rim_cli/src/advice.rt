//! What is said after a fault or a refusal to a person at a terminal, or to one who asks for it: why, as `rim check` says it, or which file it
//! is about. That it is true is tested alone.
ghost use Rattle.std.specs.Prelude.{◌≡◌};

use crate::answer::Answer;
use crate::checking::{check_path, failure_text};
use crate::found::read_launch;
use crate::program::Terminals;
use file_front::{DevicetreeFront, image_front};
use refusal::NoMemory;
use rim_accepted::accept;
use rim_check::{MarkedLine, Nearest, Remark, refusal_remark};
use rim_files::{Fault, Opener, Unread, read_or_why};
use rim_manifest::read_manifest;
use rim_show::ShowFault;
use rim_words::{Ask, Request};
use shown_text::{Line, Quoted, Word};
use std::alloc::Global;
use std::convert::AsSlice;
use std::fmt::Write as _;
use std::io::{ErrorKind, Write};

/// The status of a run whose text says that a launch is refused, and of one that ends with a fault other than want of memory.
const REFUSED: u8 = 1;

const FAULT: u8 = 3;

/// Whether a fault is explained: where the words ask for it, or standard error is a terminal.
pub fn is_explained(request: &Request, terminals: Terminals) -> bool {
    request.explain || terminals.err
}

/// Writes why a request was refused with this fault, where that is explained. Its files are read again for it; nothing is written if they have
/// other contents by now, or if memory runs out.
pub fn advise<O: Opener, E: Write>(
    alloc: Global,
    request: &Request,
    terminals: Terminals,
    fault: Fault,
    opener: &mut O,
    err: &mut E,
)
    ensures stays { O.held opener.new ≡ O.held opener.old }
{
    if !is_explained(request, terminals) || fault.status() != FAULT {
        return;
    }
    if let Ok(line) = advice(alloc, opener, request, fault) {
        write_line(line.as_slice(), err);
    }
}

/// Writes why launches are refused, where the words ask for it and the text of the answer has only a word: a line for each.
pub fn explain_refusals<E: Write>(alloc: Global, request: &Request, answer: &Answer, err: &mut E) {
    if !request.explain || answer.status != REFUSED {
        return;
    }
    for remark in answer.refusals.iter().flatten() {
        if let Ok(line) = line_of(alloc, remark) {
            write_line(line.as_slice(), err);
        }
    }
}

/// Writes the line of a manifest that has the first fault which a check has found, with a mark under it, where both are read on a terminal.
pub fn show_mark<E: Write>(
    request: &Request,
    terminals: Terminals,
    mark: Option<&MarkedLine>,
    err: &mut E,
) {
    if !terminals.err || request.output.is_some() {
        return;
    }
    if let Some(MarkedLine { text, mark }) = mark {
        write_line(text.as_slice(), err);
        write_line(mark.as_slice(), err);
    }
}

/// Writes why the file at a path could not be saved.
pub fn show_unsaved<E: Write>(alloc: Global, path: &str, kind: ErrorKind, err: &mut E) {
    if let Ok(line) = unsaved_line(alloc, path, kind) {
        write_line(line.as_slice(), err);
    }
}

/// That line, without what is in front of it.
fn unsaved_line(alloc: Global, path: &str, kind: ErrorKind) -> Result<Vec<u8>, NoMemory> {
    match kind {
        ErrorKind::NotFound => named(alloc, path, "there is no such folder"),
        ErrorKind::IsADirectory => named(alloc, path, "it is a directory"),
        kind => {
            let text = format!(in alloc; "{kind}")?;
            named(alloc, path, text.as_str())
        }
    }
}

/// Writes a line under that of the fault, unless it is empty.
fn write_line<E: Write>(line: &[u8], err: &mut E) {
    if !line.is_empty() {
        let _ = err.write_all(b"  ");
        let _ = err.write_all(line);
        let _ = err.write_all(b"\n");
    }
}

/// The line of a remark, without a line feed.
fn line_of(alloc: Global, remark: &Remark) -> Result<Vec<u8>, NoMemory> {
    let mut line = Vec::new(alloc);
    remark.push_to(&mut line)?;
    Ok(line)
}

/// The line that says why a request was refused, without what is in front of it. It may be empty.
fn advice<O: Opener>(
    alloc: Global,
    opener: &mut O,
    request: &Request,
    fault: Fault,
) -> Result<Vec<u8>, NoMemory>
    ensures stays { O.held opener.new ≡ O.held opener.old }
{
    let path = request.path;
    match request.ask {
        Ask::Manifest(_) => fault_advice(alloc, opener, path, fault),
        Ask::Launch { launch, .. } => match fault {
            Fault::NoSuchLaunch => launch_advice(alloc, opener, path, launch),
            Fault::NoDevicetree => no_devicetree(alloc, launch),
            Fault::Refused(_) => refusal_advice(alloc, opener, path, launch),
            _ => fault_advice(alloc, opener, path, fault),
        },
        Ask::File(_) => file_advice(alloc, opener, path, fault),
    }
}

/// The line that a check has of a fault of a manifest, of a file that it names or of its pages.
fn fault_advice<O: Opener>(
    alloc: Global,
    opener: &mut O,
    manifest: &str,
    fault: Fault,
) -> Result<Vec<u8>, NoMemory>
    ensures stays { O.held opener.new ≡ O.held opener.old }
{
    if let Err(why) = read_or_why(alloc, opener, manifest) {
        return unread_advice(alloc, manifest, why);
    }
    let Ok(found) = check_path(alloc, opener, manifest, true) else {
        return Ok(Vec::new(alloc));
    };
    let word = fault.kind();
    for remark in &found.faults {
        if matches!(remark.word, Word::Fault(own) if own == word) {
            return line_of(alloc, remark);
        }
    }
    Ok(Vec::new(alloc))
}

/// That a manifest has no launch of a name, and the nearest name.
fn launch_advice<O: Opener>(
    alloc: Global,
    opener: &mut O,
    manifest: &str,
    launch: &str,
) -> Result<Vec<u8>, NoMemory>
    ensures stays { O.held opener.new ≡ O.held opener.old }
{
    let Ok(bytes) = read_or_why(alloc, opener, manifest) else {
        return Ok(Vec::new(alloc));
    };
    let Ok(release) = read_manifest(alloc, bytes.as_slice()) else {
        return Ok(Vec::new(alloc));
    };
    let mut nearest = Nearest::new(launch);
    for other in release.all_launches() {
        nearest.add(alloc, other.name())?;
    }
    let mut line = Line::new(alloc);
    line.push_path(manifest)?;
    let quoted = Quoted(launch);
    write!(line, " has no launch {quoted}{nearest}").map_err(|_| NoMemory)?;
    Ok(Vec::from_slice(alloc, line.as_slice())?)
}

/// Why a launch is refused.
fn refusal_advice<O: Opener>(
    alloc: Global,
    opener: &mut O,
    manifest: &str,
    launch: &str,
) -> Result<Vec<u8>, NoMemory>
    ensures stays { O.held opener.new ≡ O.held opener.old }
{
    let Ok(found) = read_launch(alloc, opener, manifest, launch) else {
        return Ok(Vec::new(alloc));
    };
    match accept(alloc, found.loaded())? {
        Ok(_) => Ok(Vec::new(alloc)),
        Err(refused) => line_of(alloc, &refusal_remark(alloc, &refused)?),
    }
}

/// That a launch has no devicetree.
fn no_devicetree(alloc: Global, launch: &str) -> Result<Vec<u8>, NoMemory> {
    let mut line = Line::new(alloc);
    let quoted = Quoted(launch);
    write!(line, "launch {quoted} has no item of the kind \"dtb\"").map_err(|_| NoMemory)?;
    Ok(Vec::from_slice(alloc, line.as_slice())?)
}

/// Why a file that is no manifest is refused.
fn file_advice<O: Opener>(
    alloc: Global,
    opener: &mut O,
    path: &str,
    fault: Fault,
) -> Result<Vec<u8>, NoMemory>
    ensures stays { O.held opener.new ≡ O.held opener.old }
{
    let bytes = match read_or_why(alloc, opener, path) {
        Ok(bytes) => bytes,
        Err(why) => return unread_advice(alloc, path, why),
    };
    let bytes = bytes.as_slice();
    let text = match fault {
        Fault::Show(ShowFault::Image(fault)) => image_front(alloc, bytes, fault)?,
        Fault::Show(ShowFault::Dtb(fault)) => {
            let front = DevicetreeFront { bytes, fault };
            format!(in alloc; "{front}")?
        }
        _ => String::new(alloc),
    };
    named(alloc, path, text.as_str())
}

/// Why a file cannot be read.
fn unread_advice(alloc: Global, path: &str, why: Unread) -> Result<Vec<u8>, NoMemory> {
    let text = failure_text(alloc, path, why.fault, why.failure)?;
    named(alloc, path, text.as_str())
}

/// What is said of a file, with its path; nothing where nothing is said.
fn named(alloc: Global, path: &str, text: &str) -> Result<Vec<u8>, NoMemory> {
    let mut line = Line::new(alloc);
    if !text.is_empty() {
        line.push_path(path)?;
        line.push_text(": ")?;
        line.push_text(text)?;
    }
    Ok(Vec::from_slice(alloc, line.as_slice())?)
}
