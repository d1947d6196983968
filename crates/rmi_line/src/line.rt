//! The line of a command.
ghost use Rattle.std.specs.Prelude.{◌≡◌, ◌++◌, drop, IfOk, OnOk};
ghost use Rattle.std.specs.List.{flat_map};
ghost use Rattle.rim_desc.specs.declared.command.Command.TheVariants.{DataCreate, DataCreateUnknown, Delegate, InitRipas, RealmCreate, RecCreate, RttCreate};
ghost use Rattle.rmi_line.specs.Line.{content_words, line_of, realm_words, start_words};
ghost use Rattle.rmi_line.specs.Spelled.{Spells};
ghost use Rattle.rmi_line.specs.inside.Words.{spaced};

use crate::typed::typed;
use crate::words::{
    push_address, push_addresses, push_bytes, push_number, push_numbers, push_word,
};
use refusal::NoMemory;
use rim_desc::{Command, Measurement, RealmParams, RecParams};
use std::alloc::Global;

/// The line of a command, without its newline: the command's name and its other words, parted by one space.
/// A command has this one line, and no other command has it.
pub fn print_line(alloc: Global, command: &Command) -> Result<Vec<u8>, NoMemory>
    ensures { IfOk result (λ line. Spells line.items command.now) }
{
    typed(command);
    match *command {
        Command::Delegate { granule } => delegate(alloc, granule),
        Command::RealmCreate { rd, params } => realm_create(alloc, rd, &params),
        Command::RttCreate { rtt, ipa, level } => rtt_create(alloc, rtt, ipa, level),
        Command::InitRipas { base, top } => init_ripas(alloc, base, top),
        Command::DataCreate {
            granule,
            ipa,
            content,
        } => data_create(alloc, granule, ipa, content),
        Command::DataCreateUnknown { granule, ipa } => data_create_unknown(alloc, granule, ipa),
        Command::RecCreate { rec, params } => rec_create(alloc, rec, &params),
        Command::Activate => named(alloc, "activate"),
    }
}

/// A line that has the name of its command alone.
pub fn named(alloc: Global, name: &str) -> Result<Vec<u8>, NoMemory>
    ensures { IfOk result (λ line. line.items ≡ name.now) }
{
    let line = Vec::from_slice(alloc, name.as_bytes())?;
    Ok(line)
}

#[tactic(auto, unfolding(crate::specs::Line::line_of))]
fn delegate(alloc: Global, granule: u64) -> Result<Vec<u8>, NoMemory>
    ensures { IfOk result (λ line. line.items ≡ line_of (Delegate granule)) }
{
    let mut line = named(alloc, "delegate")?;
    push_address(&mut line, granule)?;
    Ok(line)
}

#[tactic(auto, unfolding(crate::specs::Line::line_of))]
fn realm_create(alloc: Global, rd: u64, params: &RealmParams) -> Result<Vec<u8>, NoMemory>
    ensures { IfOk result (λ line. line.items ≡ line_of (RealmCreate rd params.now)) }
{
    let mut line = named(alloc, "realm_create")?;
    push_address(&mut line, rd)?;
    push_address(&mut line, params.rtt_base)?;
    push_realm(&mut line, params)?;
    Ok(line)
}

/// Adds the parameters of a realm after the address of its tables.
pub fn push_realm(line: &mut Vec<u8>, params: &RealmParams) -> Result<(), NoMemory>
    ensures { OnOk result
        (line.new.items ≡ line.old.items ++ flat_map spaced (drop 1 (realm_words params.now))) }
{
    push_number(line, params.rtt_level_start)?;
    push_number(line, params.rtt_num_start)?;
    push_number(line, params.s2sz)?;
    push_word(line, params.algo.word().as_bytes())?;
    push_address(line, params.flags)?;
    push_numbers(line, &params.numbers.in_order())?;
    push_bytes(line, &params.rpv)?;
    Ok(())
}

#[tactic(auto, unfolding(crate::specs::Line::line_of))]
fn rtt_create(alloc: Global, rtt: u64, ipa: u64, level: u8) -> Result<Vec<u8>, NoMemory>
    ensures { IfOk result (λ line. line.items ≡ line_of (RttCreate rtt ipa level)) }
{
    let mut line = named(alloc, "rtt_create")?;
    push_address(&mut line, rtt)?;
    push_address(&mut line, ipa)?;
    push_number(&mut line, level)?;
    Ok(line)
}

#[tactic(auto, unfolding(crate::specs::Line::line_of))]
fn init_ripas(alloc: Global, base: u64, top: u64) -> Result<Vec<u8>, NoMemory>
    ensures { IfOk result (λ line. line.items ≡ line_of (InitRipas base top)) }
{
    let mut line = named(alloc, "init_ripas")?;
    push_address(&mut line, base)?;
    push_address(&mut line, top)?;
    Ok(line)
}

fn data_create(
    alloc: Global,
    granule: u64,
    ipa: u64,
    content: Option<Measurement>,
) -> Result<Vec<u8>, NoMemory>
    ensures { IfOk result (λ line. line.items ≡ line_of (DataCreate granule ipa content)) }
{
    let mut line = named(alloc, "data_create")?;
    push_address(&mut line, granule)?;
    push_address(&mut line, ipa)?;
    push_content(&mut line, content)?;
    Ok(line)
}

/// Adds the measurement of a page's bytes, or that they are not measured.
pub fn push_content(line: &mut Vec<u8>, content: Option<Measurement>) -> Result<(), NoMemory>
    ensures { OnOk result
        (line.new.items ≡ line.old.items ++ flat_map spaced (content_words content)) }
{
    match content {
        Some(measurement) => {
            push_word(line, b"measured")?;
            push_bytes(line, &measurement.bytes)
        }
        None => push_word(line, b"unmeasured"),
    }
}

#[tactic(auto, unfolding(crate::specs::Line::line_of))]
fn data_create_unknown(alloc: Global, granule: u64, ipa: u64) -> Result<Vec<u8>, NoMemory>
    ensures { IfOk result (λ line. line.items ≡ line_of (DataCreateUnknown granule ipa)) }
{
    let mut line = named(alloc, "data_unknown")?;
    push_address(&mut line, granule)?;
    push_address(&mut line, ipa)?;
    Ok(line)
}

fn rec_create(alloc: Global, rec: u64, params: &RecParams) -> Result<Vec<u8>, NoMemory>
    ensures { IfOk result (λ line. line.items ≡ line_of (RecCreate rec params.now)) }
{
    let mut line = named(alloc, "rec_create")?;
    push_address(&mut line, rec)?;
    push_start(&mut line, params)?;
    push_number(&mut line, params.num_aux())?;
    push_addresses(&mut line, params.aux())?;
    Ok(line)
}

/// Adds what a REC starts with.
pub fn push_start(line: &mut Vec<u8>, params: &RecParams) -> Result<(), NoMemory>
    ensures { OnOk result
        (line.new.items ≡ line.old.items ++ flat_map spaced (start_words params.now)) }
{
    push_address(line, params.flags())?;
    push_address(line, params.mpidr())?;
    push_address(line, params.pc())?;
    push_addresses(line, params.gprs())
}
