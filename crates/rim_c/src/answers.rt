//! What is answered of files in memory.
ghost use Rattle.std.specs.Prelude.{◌≡◌, IfOk, false, true};
ghost use Rattle.rim_desc.specs.Measurement.{algo_value};
ghost use Rattle.rim_c.specs.Ends.{Ends, EndsOfLaunch, EndsWithPaths, EndsWithRim, EndsWithVersion, paths_text};

use crate::codes::{NO_TEXT, ROOM, code_of};
use crate::held::{File, Held};
use crate::room::put;
use refusal::NoMemory;
use rim_cli::{Ask, Fault, Gate, JobId, Lanes, LaunchAsk, Request, answer_alone, launch_rim};
use rim_desc::Algo;
use rim_manifest::{Release, read_manifest};
use rim_words::VERSION;
use rmi_line::digest;
use std::alloc::Global;
use std::str;

/// A gate that is always open, for a program of a width.
#[derive(Clone, Copy, Debug)]
struct Width {
    lanes: Lanes,
}

impl Gate for Width {
    fn before(&self, _worker: usize, _job: JobId) {}

    fn after(&self, _worker: usize, _job: JobId) {}

    fn lanes(&self) -> Lanes {
        self.lanes
    }
}

/// Puts what is asked of a file, which may name others of these, into the room for it, and says how many bytes it has. The code says how the
/// call ended.
pub fn answer<'a>(
    alloc: Global,
    lanes: Lanes,
    ask: Ask<'a>,
    subject: &File<'a>,
    files: &'a [File<'a>],
    out: &mut [u8],
    said: &mut usize,
) -> u32
    ensures { Ends subject.now files.now ask.entry (record {
      old = out.old;
      new = out.new;
      before = said.old;
      after = said.new;
    }) result }
{
    let Ok(path) = str::from_utf8(subject.path) else {
        return NO_TEXT;
    };
    let request = Request {
        path,
        ask,
        output: None,
        explain: false,
    };
    let mut held = Held {
        subject: *subject,
        files,
    };
    match answer_alone(alloc, &Width { lanes }, request, &mut held) {
        Ok(answer) if put(answer.text.as_slice(), out, said) => answer.status as u32,
        Ok(_) => ROOM,
        Err(fault) => code_of(fault),
    }
}

/// The same of the launch of a name.
pub fn answer_of_launch<'a>(
    alloc: Global,
    lanes: Lanes,
    launch: &'a [u8],
    ask: LaunchAsk,
    subject: &File<'a>,
    files: &'a [File<'a>],
    out: &mut [u8],
    said: &mut usize,
) -> u32
    ensures { EndsOfLaunch subject.now files.now launch.now ask (record {
      old = out.old;
      new = out.new;
      before = said.old;
      after = said.new;
    }) result }
{
    match str::from_utf8(launch) {
        Ok(launch) => answer(
            alloc,
            lanes,
            Ask::Launch { launch, ask },
            subject,
            files,
            out,
            said,
        ),
        Err(_) => NO_TEXT,
    }
}

/// Puts the Realm Initial Measurement of the launch of a name into the room for it: 32 or 64 bytes; and says the monitor's number of the
/// algorithm that it is by.
pub fn launch_rim_of<'a>(
    alloc: Global,
    lanes: Lanes,
    launch: &'a [u8],
    manifest: &File<'a>,
    files: &'a [File<'a>],
    number: &mut u32,
    out: &mut [u8],
    said: &mut usize,
) -> u32
    ensures { EndsWithRim manifest.now files.now launch.now number.old number.new (record {
      old = out.old;
      new = out.new;
      before = said.old;
      after = said.new;
    }) result }
{
    let Ok(launch) = str::from_utf8(launch) else {
        return NO_TEXT;
    };
    let Ok(path) = str::from_utf8(manifest.path) else {
        return NO_TEXT;
    };
    let mut held = Held {
        subject: *manifest,
        files,
    };
    match launch_rim(alloc, lanes, &mut held, path, launch) {
        Ok(found) => {
            if !put(digest(found.algo, &found.rim), out, said) {
                return ROOM;
            }
            *number = number_of(found.algo);
            0
        }
        Err(fault) => code_of(fault),
    }
}

/// Puts the paths of the files that a manifest names into the room for them, each with a zero byte after it.
pub fn paths(alloc: Global, manifest: &File<'_>, out: &mut [u8], said: &mut usize) -> u32
    ensures { EndsWithPaths manifest.now.bytes.now (record {
      old = out.old;
      new = out.new;
      before = said.old;
      after = said.new;
    }) result }
{
    let release = match read_manifest(alloc, manifest.bytes) {
        Ok(release) => release,
        Err(fault) => return code_of(Fault::Manifest(fault)),
    };
    match paths_text(alloc, &release) {
        Ok(text) => code_if(put(text.as_slice(), out, said)),
        Err(NoMemory) => code_of(Fault::NoMemory),
    }
}

/// The paths of a release's files, each with a zero byte after it.
fn paths_text(alloc: Global, release: &Release) -> Result<Vec<u8>, NoMemory>
    ensures { IfOk result (λ text. text.items ≡ paths_text release.now) }
{
    let mut text = Vec::new(alloc);
    for i in 0..release.file_count() {
        text.extend_from_slice(release.path(i).as_bytes())?;
        text.push(0)?;
    }
    Ok(text)
}

/// Puts the library's version into the room for it.
pub fn version(out: &mut [u8], said: &mut usize) -> u32
    ensures { EndsWithVersion (record {
      old = out.old;
      new = out.new;
      before = said.old;
      after = said.new;
    }) result }
{
    code_if(put(VERSION.as_bytes(), out, said))
}

/// The monitor's number of an algorithm (DEN0137, RmiHashAlgorithm).
fn number_of(algo: Algo) -> u32
    ensures { result ≡ algo_value algo }
{
    match algo {
        Algo::Sha256 => 0,
        Algo::Sha512 => 1,
    }
}

/// The code of an answer, or of one that was not put.
fn code_if(is_put: bool) -> u32
    ensures put { is_put ≡ true → result ≡ 0 }
    ensures short { is_put ≡ false → result ≡ ROOM }
{
    if is_put { 0 } else { ROOM }
}
