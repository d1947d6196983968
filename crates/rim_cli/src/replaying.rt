//! Whether a listing is what it says.
ghost use Rattle.std.specs.Prelude.{◌≡◌, ◌≤◌, Err, IfErr, IfOk, Some, string_bytes};
ghost use Rattle.rim_files.specs.Files.{IfFile, IsFileFault};
ghost use Rattle.rim_cli.specs.Replayed.{IsReplayed, replay_text};

use crate::answer::Answer;
use rim_files::{Fault, Opener, read_file};
use rim_replay::{ReplayFault, refused_kind};
use std::alloc::{AllocError, Global};
use std::convert::AsSlice;

/// Whether the listing at a path is what it says: its commands are given to a monitor, line by line.
pub fn replay<O: Opener>(alloc: Global, opener: &mut O, path: &str) -> Result<Answer, Fault>
    ensures answered { IfOk result (λ a. IfFile (O.held opener.old path.now)
        (λ bytes. IsReplayed bytes a.text.items a.status)) }
    ensures refused { IfErr result (IsFileFault (O.held opener.old path.now)) }
    ensures status { IfOk result (λ a. a.status ≤ 1) }
    ensures stays { O.held opener.new ≡ O.held opener.old }
{
    let bytes = read_file(alloc, opener, path)?;
    let answer = rim_replay::replay(alloc, bytes.as_slice());
    let status = if answer.is_err() { 1 } else { 0 };
    let text = replay_text(alloc, answer).map_err(|_| Fault::NoMemory)?;
    Ok(Answer::new(alloc, text.into_bytes(), status))
}

/// The line of what a listing came to. Where that is want of memory, it has none.
fn replay_text(alloc: Global, answer: Result<(), ReplayFault>) -> Result<String, AllocError>
    ensures { IfOk result (λ text. replay_text answer ≡ Some (string_bytes text)) }
{
    match answer {
        Ok(()) => format!(in alloc; "yes\n"),
        Err(fault) => fault_text(alloc, fault),
    }
}

/// The line of a listing's fault.
fn fault_text(alloc: Global, fault: ReplayFault) -> Result<String, AllocError>
    ensures { IfOk result (λ text. replay_text (Err fault) ≡ Some (string_bytes text)) }
{
    match fault {
        ReplayFault::Line(number) => format!(in alloc; "no line {number}\n"),
        ReplayFault::Refused(number, refused) => {
            let kind = refused_kind(&refused);
            format!(in alloc; "no refused {number} {kind}\n")
        }
        ReplayFault::WrongRim => format!(in alloc; "no wrong-rim\n"),
        ReplayFault::NoMemory => Err(AllocError),
    }
}
