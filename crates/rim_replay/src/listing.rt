//! The replay of a listing.
ghost use Rattle.std.specs.Prelude.{◌≡◌, ◌⊎◌, ◌<◌, ◌-◌, ◌^◌, ◌==◌, Option, Err};
ghost use Rattle.std.specs.List.{slice_split};
ghost use Rattle.rim_desc.specs.declared.measurement.Algo.{Algo};
ghost use Rattle.rim_desc.specs.declared.measurement.Measurement.{Measurement};
ghost use Rattle.rmi_line.specs.Spelled.{ReadsLast};
ghost use Rattle.rim_replay.specs.Replay.{ReplayAnswer, Replays, is_held, last_answer};

use crate::fault::ReplayFault;
use crate::lines::next_line;
use rim_desc::{Algo, Measurement};
use rmi_line::{digest, read_first, read_last, read_line};
use rmm_model::Refused;
use rmm_monitor::Monitor;
use std::alloc::Global;

/// Whether a listing is what it says: a monitor takes the command of each line in turn, and the last line has the Realm Initial
/// Measurement that the monitor holds then. Or the fault of the first line that has one:
///
/// - `Line(n)` where line n is no line of a listing in its place, has no newline, or is missing; or where something follows
///   a right last line;
/// - `Refused(n, refused)` where the monitor refuses the command of line n;
/// - `WrongRim` at a last line where no realm exists, its algorithm is another or its measurement is another.
///
/// The text may be any bytes. It takes memory for the monitor alone, and each line is read once.
pub fn replay(alloc: Global, text: &[u8]) -> Result<(), ReplayFault>
    ensures { (result ≡ Err ReplayFault.NoMemory) ⊎ ReplayAnswer text.now result }
{
    let Some((line, rest)) = next_line(text) else {
        return Err(ReplayFault::Line(1));
    };
    let Some((num_aux, rule)) = read_first(line) else {
        return Err(ReplayFault::Line(1));
    };
    replay_commands(Monitor::new(alloc, num_aux, rule), rest)
}

/// What the lines after the first come to, where a monitor takes their commands.
fn replay_commands(monitor: Monitor, text: &[u8]) -> Result<(), ReplayFault>
    ensures { (result ≡ Err ReplayFault.NoMemory)
        ⊎ Replays 2 monitor (slice_split (λ b. b == 10) text.now) result }
{
    let mut monitor = monitor;
    let mut rest = text;
    for number in 2..usize::MAX {
        let Some((line, after)) = next_line(rest) else {
            return Err(ReplayFault::Line(number));
        };
        let Some(command) = read_line(line) else {
            return last_answer(&monitor, number, line, after);
        };
        if let Err(refused) = monitor.apply(&command) {
            return Err(fault_at(number, refused));
        }
        rest = after;
    }
    unreachable!()
}

/// The fault of the line of this number, whose command is refused.
fn fault_at(number: usize, refused: Refused) -> ReplayFault
    ensures memory { refused ≡ Refused.NoMemory → result ≡ ReplayFault.NoMemory }
    ensures own { (result ≡ ReplayFault.NoMemory) ⊎ (result ≡ ReplayFault.Refused number refused) }
{
    match refused {
        Refused::NoMemory => ReplayFault::NoMemory,
        refused => ReplayFault::Refused(number, refused),
    }
}

/// What the line of this number comes to, which spells no command and is followed by this text.
fn last_answer(
    monitor: &Monitor,
    number: usize,
    line: &[u8],
    after: &[u8],
) -> Result<(), ReplayFault>
    requires { number < 2 ^ 64 - 1 }
    ensures { (last : Option (Algo × Measurement)) × ReadsLast line.now last
        × (result ≡ last_answer number monitor.now (slice_split (λ b. b == 10) after.now) last) }
{
    let Some((algo, rim)) = read_last(line) else {
        return Err(ReplayFault::Line(number));
    };
    if !is_held(monitor, algo, &rim) {
        return Err(ReplayFault::WrongRim);
    }
    if !after.is_empty() {
        return Err(ReplayFault::Line(number + 1));
    }
    Ok(())
}

/// Whether a monitor's realm has this measurement, by this algorithm.
fn is_held(monitor: &Monitor, algo: Algo, rim: &Measurement) -> bool
    ensures { result ≡ is_held monitor.now.params monitor.now.rim algo rim.now }
{
    match (monitor.algo(), monitor.rim()) {
        (Some(own), Some(held)) => own == algo && digest(own, &held) == digest(algo, rim),
        _ => false,
    }
}
