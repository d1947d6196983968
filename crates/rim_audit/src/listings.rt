//! The listing of a launch: the commands that build its realm, as a monitor takes them.
ghost use Rattle.std.specs.Prelude.{◌≡◌, ◌++◌, ◌<◌, length, vec_len, Ok, IfErr, IfOk, IfSome, OnOk};
ghost use Rattle.std.specs.List.{All, flat_map, slice_get};
ghost use Rattle.refusal.specs.Answer.{Answers};
ghost use Rattle.ipa_layout.specs.Files.{bytes_of_files};
ghost use Rattle.rim_accepted.specs.Accepted.{rim_after};
ghost use Rattle.rim_accepted.specs.Outcomes.{came_to};
ghost use Rattle.rmi_line.specs.Ends.{command_line, first_line, last_line, with_newline};
ghost use Rattle.rmi_line.specs.Typed.{Are64Bytes, IsTyped};
ghost use Rattle.rim_replay.specs.Replay.{ReplayAnswer};
ghost use Rattle.rim_audit.specs.Listing.{listing_of, listing_with};
ghost use Rattle.rim_audit.specs.inside.Commands.{commands_in};

use crate::beside::Beside;
use crate::commands::LaunchCommands;
use crate::known_pages::KnownPages;
use crate::laying_out::lay_out;
use itoa::Buffer;
use refusal::NoMemory;
use rim_accepted::{AuditFault, Files, LoadedLaunch, LoadedRelease, RefusedLaunch, push_rim};
use rim_desc::{Algo, Command, Lanes, Measurement, RecRule};
use rim_manifest::Release;
use rmi_line::print_line;
use std::alloc::Global;

/// The listing of the launch of this number, or why the launch is refused: a line `rim-list 1 aux N`, where a REC has N
/// auxiliary granules, or `rim-list 2 aux N rec RULE` where the launch has a rule for RECs; a line for each command that builds the
/// realm; and a line `rim ALGO HEX` with the Realm Initial Measurement that a monitor holds then. A monitor is given each command
/// before the command is printed. Its replay says yes. No program calls it: this is `list_launch` of a launch by its number.
pub fn listing(
    alloc: Global,
    release: &Release,
    files: &Files,
    i: usize,
) -> Result<Vec<u8>, AuditFault>
    requires files { vec_len files.now ≡ length release.now.paths }
    requires launch { i < length release.now.launches }
    ensures text { IfSome (slice_get release.now.launches i) (λ l. Answers AuditFault.NoMemory
        (λ text. text.items) result (listing_of l.launch (bytes_of_files files.now.items))) }
    ensures confirmed { IfOk result (λ text. ReplayAnswer text.items (Ok tt)) }
{
    match list_launch(
        alloc,
        Lanes::Four,
        LoadedRelease::new(release, files).launch(i),
    )? {
        Ok(text) => Ok(text),
        Err(refused) => Err(refused.fault()),
    }
}

/// Returns the listing of a launch, or the launch as it is refused. Pages are hashed in as many lanes.
#[tactic(auto, unfolding(crate::specs::Listing::listing_of))]
pub fn list_launch<'a>(
    alloc: Global,
    lanes: Lanes,
    loaded: LoadedLaunch<'a>,
) -> Result<Result<Vec<u8>, RefusedLaunch<'a>>, NoMemory>
    ensures text { IfOk result (λ found. came_to (λ text. text.items) found
        ≡ listing_of loaded.entry.launch.now.launch (bytes_of_files loaded.entry.files.now)) }
    ensures confirmed { IfOk result
        (λ found. IfOk found (λ text. ReplayAnswer text.items (Ok tt))) }
    ensures own_refusal { IfOk result
        (λ found. IfErr found (λ r. r.named.now ≡ loaded.entry.launch.now)) }
{
    match lay_out(alloc, loaded, lanes)? {
        Ok(commands) => Ok(Ok(print(alloc, &commands)?)),
        Err(refused) => Ok(Err(refused)),
    }
}

/// The lines of a launch that is accepted.
fn print(alloc: Global, commands: &LaunchCommands) -> Result<Vec<u8>, NoMemory>
    ensures text { IfOk result (λ text. text.items
        ≡ listing_with commands.now.accepted.named.now.launch (commands_in commands.now)) }
    ensures confirmed { IfOk result (λ text. ReplayAnswer text.items (Ok tt)) }
{
    let config = commands.accepted.launch().config();
    let mut text = Vec::new(alloc);
    push_first(&mut text, config.num_aux, config.rec_rule)?;
    let rim = push_commands(alloc, &mut text, commands)?;
    push_last(&mut text, config.algo, &rim)?;
    Ok(text)
}

/// Adds the first line.
fn push_first(text: &mut Vec<u8>, num_aux: u8, rule: Option<RecRule>) -> Result<(), NoMemory>
    ensures { OnOk result
        (text.new.items ≡ text.old.items ++ with_newline (first_line num_aux rule)) }
{
    match rule {
        None => {
            text.extend_from_slice(b"rim-list 1 aux ")?;
            text.extend_from_slice(Buffer::new().format(num_aux).as_bytes())?;
        }
        Some(rule) => {
            text.extend_from_slice(b"rim-list 2 aux ")?;
            text.extend_from_slice(Buffer::new().format(num_aux).as_bytes())?;
            text.extend_from_slice(b" rec ")?;
            text.extend_from_slice(rule.word().as_bytes())?;
        }
    }
    text.extend_from_slice(b"\n")?;
    Ok(())
}

/// Adds the line of each command, which a monitor takes before. It answers the measurement that the monitor holds then.
fn push_commands(
    alloc: Global,
    text: &mut Vec<u8>,
    commands: &LaunchCommands,
) -> Result<Measurement, NoMemory>
    ensures text { OnOk result
        (text.new.items ≡ text.old.items ++ flat_map command_line (commands_in commands.now)) }
    ensures typed { IfOk result (λ m. All IsTyped (commands_in commands.now)) }
    ensures rim { IfOk result
        (λ m. m.bytes
        ≡ rim_after commands.now.accepted.named.now.launch (commands_in commands.now)) }
{
    let mut monitor = commands.monitor(alloc);
    let mut beside = Beside::new(KnownPages::new(alloc, commands.accepted.files(), 0));
    for index in 0..commands.len() {
        let command = commands.give(&mut monitor, &mut beside, index)?;
        push_command(alloc, text, &command)?;
    }
    Ok(commands.rim(&monitor))
}

/// Adds the line of a command.
fn push_command(alloc: Global, text: &mut Vec<u8>, command: &Command) -> Result<(), NoMemory>
    ensures text { OnOk result (text.new.items ≡ text.old.items ++ command_line command.now) }
    ensures typed { OnOk result (IsTyped command.now) }
{
    let line = print_line(alloc, command)?;
    text.extend_from_slice(&line)?;
    text.extend_from_slice(b"\n")?;
    Ok(())
}

/// Adds the last line.
fn push_last(text: &mut Vec<u8>, algo: Algo, rim: &Measurement) -> Result<(), NoMemory>
    ensures text { OnOk result (text.new.items
        ≡ text.old.items ++ with_newline (last_line algo rim.now.bytes)) }
    ensures bytes { OnOk result (Are64Bytes rim.now.bytes) }
{
    text.extend_from_slice(b"rim")?;
    push_rim(text, algo, rim)?;
    text.extend_from_slice(b"\n")?;
    Ok(())
}
