//! A command in a trace.
ghost use Rattle.std.specs.Prelude.{◌≡◌, ◌∷◌, ◌++◌, drop, IfOk, OnOk};
ghost use Rattle.std.specs.List.{flat_map};
ghost use Rattle.rmi_line.specs.Trace.{traced_line, traced_words};
ghost use Rattle.rmi_line.specs.inside.Words.{spaced};

use crate::line::{named, push_content, push_realm, push_start};
use crate::words::{push_address, push_number};
use refusal::NoMemory;
use rim_desc::Command;
use std::alloc::Global;

/// A command as a trace spells it, without a newline: its name and its other words, parted by one space, but for the granules
/// that the host chooses.
pub fn print_traced(alloc: Global, command: &Command) -> Result<Vec<u8>, NoMemory>
    ensures { IfOk result (λ line. line.items ≡ traced_line command.now) }
{
    let mut line = named(alloc, name(command))?;
    push_others(&mut line, command)?;
    Ok(line)
}

/// The name of a command.
fn name(command: &Command) -> &'static str
    ensures { traced_words command.now ≡ result.now ∷ drop 1 (traced_words command.now) }
{
    match command {
        Command::Delegate { .. } => "delegate",
        Command::RealmCreate { .. } => "realm_create",
        Command::RttCreate { .. } => "rtt_create",
        Command::InitRipas { .. } => "init_ripas",
        Command::DataCreate { .. } => "data_create",
        Command::DataCreateUnknown { .. } => "data_unknown",
        Command::RecCreate { .. } => "rec_create",
        Command::Activate => "activate",
    }
}

/// Adds the other words of a command.
fn push_others(line: &mut Vec<u8>, command: &Command) -> Result<(), NoMemory>
    ensures { OnOk result
        (line.new.items ≡ line.old.items ++ flat_map spaced (drop 1 (traced_words command.now))) }
{
    match *command {
        Command::Delegate { .. } => Ok(()),
        Command::RealmCreate { params, .. } => push_realm(line, &params),
        Command::RttCreate { ipa, level, .. } => {
            push_address(line, ipa)?;
            push_number(line, level)
        }
        Command::InitRipas { base, top } => {
            push_address(line, base)?;
            push_address(line, top)
        }
        Command::DataCreate { ipa, content, .. } => {
            push_address(line, ipa)?;
            push_content(line, content)
        }
        Command::DataCreateUnknown { ipa, .. } => push_address(line, ipa),
        Command::RecCreate { params, .. } => push_start(line, &params),
        Command::Activate => Ok(()),
    }
}
