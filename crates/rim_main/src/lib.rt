//! The program `rim`, for a processor with vectors of a width.
#![tactic(auto)]

mod progress;
mod saving;

use crate::progress::Progress;
use crate::saving::save;
pub use rim_cli::Lanes;
use rim_cli::{Opener, Patient, TerminalWriter, Terminals, report_unreadable, run};
use std::fs::File;
use std::io;
use std::io::{Eprint, ErrorKind, IsTerminal, Write};
use std::process::ExitCode;
use std::sync::Wait;
use std::thread::Threads;
use std::time::Clock;

/// Opens and saves the files of the system.
#[derive(Drop)]
struct FileOpener<'a> {
    rt: &'a HostRuntime,
    /// Why the last file could not be opened.
    failure: Option<ErrorKind>,
}

impl Opener for FileOpener<'_> {
    ghost use Rattle.std.specs.Prelude.{◌≡◌, ℕ, IfSome, List, None, Option};

    type Reader = Patient<File>;

    fn open(&mut self, path: &str) -> Option<Patient<File>> {
        match File::open(self.rt, path) {
            Ok(file) => Some(Patient::new(file)),
            Err(error) => {
                self.failure = Some(error.kind());
                None
            }
        }
    }

    fn save(&mut self, path: &str, bytes: &[u8]) -> io::Result<()> {
        save(self.rt, self.rt.alloc(), path, bytes)
    }

    fn size(file: &Patient<File>) -> Option<u64>
        ensures { IfSome result (λ _. let unknown : Option (List ℕ) = None in unknown ≡ None) }
    {
        let metadata = file.reader.metadata().ok()?;
        metadata.is_file().then_some(metadata.len())
    }

    fn failure(&self) -> Option<ErrorKind> {
        self.failure
    }
}

/// Runs the program by the words of its command line. A library has the right to start threads and to wait by a handle alone, so
/// `main` lends its runtime as that too. Pages and launches are hashed side by side in as many lanes; nothing that
/// it prints depends on that.
pub fn run_program<R: Threads + Wait + Clock + Eprint + Sync>(
    rt: &HostRuntime,
    workers: &R,
    lanes: Lanes,
) -> ExitCode {
    let words = match words(rt) {
        Ok(words) => words,
        Err(error) => return ExitCode::from(report_unreadable(&error, &mut rt.stderr())),
    };
    let terminals = Terminals {
        out: rt.stdout().is_terminal(),
        err: rt.stderr().is_terminal(),
    };
    let mut gate = Progress::new(workers, terminals.err, lanes);
    let mut out = io::writer(rt);
    let status = if terminals.out {
        let out = &mut TerminalWriter::new(out);
        run_to(rt, workers, &mut gate, &words, terminals, out)
    } else {
        run_to(rt, workers, &mut gate, &words, terminals, &mut out)
    };
    ExitCode::from(status)
}

/// Runs the program with this output, and answers its exit status.
fn run_to<R: Threads + Wait + Clock + Eprint + Sync, W: Write>(
    rt: &HostRuntime,
    workers: &R,
    gate: &mut Progress<'_, R>,
    words: &[String],
    terminals: Terminals,
    out: &mut W,
) -> u8 {
    let mut opener = FileOpener { rt, failure: None };
    run(
        workers,
        rt.alloc(),
        gate,
        words,
        terminals,
        &mut opener,
        out,
        &mut rt.stderr(),
    )
}

/// The words of the command line, of which the first is the program's name.
fn words(rt: &HostRuntime) -> io::Result<Vec<String>> {
    Ok(std::env::args(rt)?.collect(rt.alloc())?)
}
