//! The trace of a launch: its measurement after each command that creates or extends it.
ghost use Rattle.std.specs.Prelude.{◌≡◌, ◌++◌, option_map, IfErr, IfOk, OnOk};
ghost use Rattle.ipa_layout.specs.Files.{bytes_of_files};
ghost use Rattle.rim_accepted.specs.Outcomes.{came_to};
ghost use Rattle.rim_audit.specs.Trace.{line_if_held, rim_held, rim_line, trace_of, trace_with};
ghost use Rattle.rim_audit.specs.inside.Commands.{commands_in};

use crate::beside::Beside;
use crate::commands::LaunchCommands;
use crate::known_pages::KnownPages;
use crate::laying_out::lay_out;
use refusal::NoMemory;
use rim_accepted::{LoadedLaunch, RefusedLaunch, push_digest};
use rim_desc::{Algo, Command, Lanes, Measurement, extends};
use rmi_line::print_traced;
use rmm_monitor::{Monitor, is_runnable};
use std::alloc::Global;

/// Returns the trace of a launch, or the launch as it is refused. The trace has a line for each command that creates or extends the Realm
/// Initial Measurement: the measurement that a monitor holds after it (64 or 128 hexadecimal digits), a space, and the command's words except
/// for the granules that the host chooses. Pages are hashed in as many lanes.
#[tactic(auto, unfolding(crate::specs::Trace::trace_of))]
pub fn trace_launch<'a>(
    alloc: Global,
    lanes: Lanes,
    loaded: LoadedLaunch<'a>,
) -> Result<Result<Vec<u8>, RefusedLaunch<'a>>, NoMemory>
    ensures text { IfOk result (λ found. came_to (λ text. text.items) found
        ≡ trace_of loaded.entry.launch.now.launch (bytes_of_files loaded.entry.files.now)) }
    ensures own_refusal { IfOk result
        (λ found. IfErr found (λ r. r.named.now ≡ loaded.entry.launch.now)) }
{
    match lay_out(alloc, loaded, lanes)? {
        Ok(commands) => Ok(Ok(trace(alloc, &commands)?)),
        Err(refused) => Ok(Err(refused)),
    }
}

/// The lines of a launch that is accepted. A monitor takes each command before its line is added.
fn trace(alloc: Global, commands: &LaunchCommands) -> Result<Vec<u8>, NoMemory>
    ensures { IfOk result (λ text. text.items
        ≡ trace_with commands.now.accepted.named.now.launch (commands_in commands.now)) }
{
    let algo = commands.accepted.launch().config().algo;
    let mut text = Vec::new(alloc);
    let mut monitor = commands.monitor(alloc);
    let mut beside = Beside::new(KnownPages::new(alloc, commands.accepted.files(), 0));
    for index in 0..commands.len() {
        let command = commands.give(&mut monitor, &mut beside, index)?;
        let rim = rim_held(&monitor, &command);
        push_step(alloc, &mut text, algo, rim, &command)?;
    }
    Ok(text)
}

/// The measurement that a monitor holds after a command, where the command creates or extends it.
fn rim_held(monitor: &Monitor, command: &Command) -> Option<Measurement>
    ensures { option_map (λ m. m.bytes) result ≡ rim_held monitor.now command.now }
{
    match command {
        Command::Delegate { .. }
        | Command::RttCreate { .. }
        | Command::DataCreateUnknown { .. }
        | Command::Activate => None,
        Command::RealmCreate { .. } | Command::InitRipas { .. } | Command::DataCreate { .. } =>
            monitor.rim(),
        Command::RecCreate { params, .. } => {
            if extends(monitor.rule(), is_runnable(params.flags())) {
                monitor.rim()
            } else {
                None
            }
        }
    }
}

/// Adds the line of a command, if there is a measurement after it.
fn push_step(
    alloc: Global,
    text: &mut Vec<u8>,
    algo: Algo,
    rim: Option<Measurement>,
    command: &Command,
) -> Result<(), NoMemory>
    ensures { OnOk result (text.new.items
        ≡ text.old.items ++ line_if_held algo (option_map (λ m. m.bytes) rim) command.now) }
{
    match rim {
        Some(rim) => push_line(alloc, text, algo, &rim, command),
        None => Ok(()),
    }
}

/// Adds the line of a command, with the measurement after it.
fn push_line(
    alloc: Global,
    text: &mut Vec<u8>,
    algo: Algo,
    rim: &Measurement,
    command: &Command,
) -> Result<(), NoMemory>
    ensures { OnOk result
        (text.new.items ≡ text.old.items ++ rim_line algo rim.now.bytes command.now) }
{
    let line = print_traced(alloc, command)?;
    push_digest(text, algo, rim)?;
    text.extend_from_slice(b" ")?;
    text.extend_from_slice(&line)?;
    text.extend_from_slice(b"\n")?;
    Ok(())
}
