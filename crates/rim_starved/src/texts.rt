//! Calls on texts: the words of a command line, one a line; a listing; a manifest; lines.

use crate::calls::TextCall;
use crate::machine::{applied, cloned, printed};
use crate::trial::{Fault, Seen, Trial, digest, remarks_digest, text_digest, tried};
use refusal::NoMemory;
use rim_check::{ManifestCheck, MarkedLine, check_json, check_manifest, mark_first};
use rim_cli::{CommandFault, Request, command};
use rim_release::{ManifestFault, Release, ReplayFault, read_manifest, replay};
use std::alloc::{AllocError, Global};

/// What a call on this text answers.
pub fn seen<R: Print + AllocGlobal>(
    trial: &Trial<'_, R>,
    call: TextCall,
    text: &[u8],
) -> Result<Seen, Fault> {
    let alloc = trial.rt.alloc();
    match call {
        TextCall::Command => commanded(trial, text),
        TextCall::Replay => tried!(trial, replay(alloc, text) => confirmed, ReplayFault::NoMemory),
        TextCall::Apply => applied(trial, text),
        TextCall::CloneMonitor => cloned(trial, text),
        TextCall::PrintLines => printed(trial, text),
        TextCall::ReadManifest =>
            tried!(trial, read_manifest(alloc, text) => release_digest, ManifestFault::NoMemory),
        TextCall::CheckManifest =>
            tried!(trial, check_manifest(alloc, MANIFEST, text) => check_digest, NoMemory),
        TextCall::MarkFirst => fault_marked(trial, text),
        TextCall::CheckJson => written_as_json(trial, text),
    }
}

/// The path of the manifest that is checked.
const MANIFEST: &str = "manifest.toml";

/// The line with the first fault of a manifest.
fn fault_marked<R: Print + AllocGlobal>(trial: &Trial<'_, R>, text: &[u8]) -> Result<Seen, Fault> {
    let alloc = trial.rt.alloc();
    let first = match check_manifest(alloc, MANIFEST, text)? {
        ManifestCheck::Faulty(_, first) => first,
        ManifestCheck::Readable(_) => None,
    };
    tried!(trial, mark_first(alloc, text, first) => mark_digest, NoMemory)
}

/// What a check finds in a manifest, as JSON.
fn written_as_json<R: Print + AllocGlobal>(
    trial: &Trial<'_, R>,
    text: &[u8],
) -> Result<Seen, Fault> {
    let alloc = trial.rt.alloc();
    let ManifestCheck::Faulty(faults, _) = check_manifest(alloc, MANIFEST, text)? else {
        return Err(Fault::Input);
    };
    tried!(trial, check_json(alloc, &faults, &faults, 3) => text_digest, NoMemory)
}

/// The words that are in the lines of a text.
fn commanded<R: Print + AllocGlobal>(trial: &Trial<'_, R>, text: &[u8]) -> Result<Seen, Fault> {
    let alloc = trial.rt.alloc();
    let Ok(text) = str::from_utf8(text) else {
        return Err(Fault::Input);
    };
    let mut words = Vec::new(alloc);
    for word in text.lines() {
        words.push(word)?;
    }
    tried!(trial, command(alloc, words.as_slice()) => request_digest, CommandFault::NoMemory)
}

fn request_digest(alloc: Global, request: &Request) -> Result<u64, AllocError> {
    Ok(digest(format!(in alloc; "{request:?}")?.as_bytes()))
}

fn confirmed(_alloc: Global, _yes: &()) -> Result<u64, AllocError> {
    Ok(0)
}

/// A digest of the paths, and of the launches' names and steps.
fn release_digest(alloc: Global, release: &Release) -> Result<u64, AllocError> {
    let mut shown = String::new(alloc);
    for number in 0..release.file_count() {
        shown.push_str(release.path(number))?;
        shown.push_str("\n")?;
    }
    for named in release.all_launches() {
        let launch = named.launch();
        shown.push_str(named.name())?;
        let config = launch.config();
        let steps = launch.steps();
        shown.push_str(format!(in alloc; " {config:?} {steps:?}\n")?.as_str())?;
    }
    Ok(digest(shown.as_bytes()))
}

fn check_digest(alloc: Global, check: &ManifestCheck) -> Result<u64, AllocError> {
    match check {
        ManifestCheck::Faulty(faults, _) => remarks_digest(alloc, faults),
        ManifestCheck::Readable(release) => release_digest(alloc, release),
    }
}

fn mark_digest(_alloc: Global, marked: &Option<MarkedLine>) -> Result<u64, AllocError> {
    match marked {
        Some(marked) => Ok(digest(marked.text.as_slice()) ^ digest(marked.mark.as_slice())),
        None => Ok(0),
    }
}
