//! Calls on the commands of a listing: each is given to a monitor, and each is printed.

use crate::trial::{Fault, Seen, Trial, digest, made, tried};
use refusal::NoMemory;
use rim_desc::Command;
use rmi_line::{print_line, read_first, read_line};
use rmm_monitor::{Monitor, Refused};
use std::alloc::{AllocError, Global};

/// A monitor before the first command of a listing, and the commands.
#[derive(Drop)]
struct Listing {
    monitor: Monitor,
    commands: Vec<Command>,
}

fn listed(alloc: Global, text: &[u8]) -> Result<Listing, Fault> {
    let mut lines = text.split(|byte| *byte == b'\n');
    let Some((num_aux, rule)) = lines.next().and_then(|line| read_first(line)) else {
        return Err(Fault::Input);
    };
    let mut commands = Vec::new(alloc);
    for line in lines {
        if let Some(command) = read_line(line) {
            commands.push(command)?;
        }
    }
    let monitor = Monitor::new(alloc, num_aux, rule);
    Ok(Listing { monitor, commands })
}

/// What a monitor answers of itself, and of the granules that a command may take.
fn state(alloc: Global, monitor: &Monitor, commands: &[Command]) -> Result<u64, AllocError> {
    let mut shown = format!(in alloc; "{:?} {}\n", monitor.rim(), monitor.owner_count())?;
    for command in commands {
        if let Command::Delegate { granule } = command {
            let owner = monitor.owner(*granule);
            shown.push_str(format!(in alloc; "{owner:?} ")?.as_str())?;
        }
    }
    Ok(digest(shown.as_bytes()))
}

/// Each command in its turn. Where memory is refused for one of them, the monitor answers as one that took those before it, and
/// then takes it and the others.
pub fn applied<R: Print + AllocGlobal>(trial: &Trial<'_, R>, text: &[u8]) -> Result<Seen, Fault> {
    let alloc = trial.rt.alloc();
    let Listing {
        mut monitor,
        commands,
    } = listed(alloc, text)?;
    match made!(trial, first_refused(&mut monitor, &commands)) {
        None => Ok(Some(state(alloc, &monitor, &commands)?)),
        Some(number) => after_refusal(alloc, text, monitor, number),
    }
}

/// The monitor that was refused memory for the command of this number is as one that took those before it, and takes the others.
fn after_refusal(
    alloc: Global,
    text: &[u8],
    monitor: Monitor,
    number: usize,
) -> Result<Seen, Fault> {
    let mut monitor = monitor;
    let Listing {
        monitor: mut other,
        commands,
    } = listed(alloc, text)?;
    let (done, left) = commands.as_slice().split_at(number.min(commands.len()));
    if first_refused(&mut other, done).is_some() {
        return Err(Fault::Input);
    }
    is_same(alloc, &monitor, &other, &commands)?;
    if first_refused(&mut other, left).is_some() || first_refused(&mut monitor, left).is_some() {
        return Err(Fault::Changed);
    }
    is_same(alloc, &monitor, &other, &commands)?;
    Ok(None)
}

/// Two monitors answer alike.
fn is_same(
    alloc: Global,
    monitor: &Monitor,
    other: &Monitor,
    commands: &[Command],
) -> Result<(), Fault> {
    if state(alloc, monitor, commands)? == state(alloc, other, commands)? {
        Ok(())
    } else {
        Err(Fault::Changed)
    }
}

/// Gives a monitor commands up to the first for which memory is refused.
fn first_refused(monitor: &mut Monitor, commands: &[Command]) -> Option<usize> {
    for (number, command) in commands.iter().enumerate() {
        if monitor.apply(command) == Err(Refused::NoMemory) {
            return Some(number);
        }
    }
    None
}

/// A copy of the monitor that has taken all commands.
pub fn cloned<R: Print + AllocGlobal>(trial: &Trial<'_, R>, text: &[u8]) -> Result<Seen, Fault> {
    let Listing {
        mut monitor,
        commands,
    } = listed(trial.rt.alloc(), text)?;
    if first_refused(&mut monitor, &commands).is_some() {
        return Err(Fault::Input);
    }
    tried!(trial, monitor.try_clone() => copy_digest, NoMemory)
}

fn copy_digest(alloc: Global, monitor: &Monitor) -> Result<u64, AllocError> {
    state(alloc, monitor, &[])
}

/// The lines of all commands.
pub fn printed<R: Print + AllocGlobal>(trial: &Trial<'_, R>, text: &[u8]) -> Result<Seen, Fault> {
    let alloc = trial.rt.alloc();
    let commands = listed(alloc, text)?.commands;
    Ok(made!(trial, lines(alloc, &commands)).ok())
}

/// A digest of the lines, each of which is dropped before the next is printed.
fn lines(alloc: Global, commands: &[Command]) -> Result<u64, NoMemory> {
    let mut value = 0_u64;
    for command in commands {
        let line = print_line(alloc, command)?;
        value = value.rotate_left(1) ^ digest(line.as_slice());
    }
    Ok(value)
}
