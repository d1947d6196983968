//! What the words of a command line ask for.
ghost use Rattle.std.specs.Prelude.{◌≡◌, ◌≢◌, [], IfOk, IfErr, IfSome, Some, true, pos, map, codes, is_some, option_map};
ghost use Rattle.clap.specs.Values.{IsSignedIn};
ghost use Rattle.clap.specs.Words.{HasKind, Kinds, fault_of, first_of, found_of, kind_of, rows_of, subcommand_of, takes};
ghost use Rattle.rim_words.specs.declared.words.CommandFault.TheVariants as fault;
ghost use Rattle.rim_words.specs.Command.{CountsWorkers, HasCrew, IsRefusalOf, ReadsAsk, ReadsRequest, ReadsRow, format_of, is_set, rim, verb_of};
ghost use Rattle.rim_words.specs.inside.Table.{IsEntered};
ghost use Rattle.job_core.specs.declared.machine.TheConstants.{WORKER_LIMIT};

use crate::definition::rim_command;
use clap::ArgMatches;
use clap::error::ErrorKind;
use std::alloc::{AllocError, Global};
use std::convert::AsStr;
use thiserror::Error;

/// What the words ask for: of the file at a path, this.
#[derive(Clone, Copy, Debug)]
pub struct Request<'a> {
    pub path: &'a str,
    pub ask: Ask<'a>,
    /// The path of the file that gets the output; standard output gets it where there is none.
    pub output: Option<&'a str>,
    /// Whether a fault is explained on standard error, whatever that is.
    pub explain: bool,
}

/// What is asked of a file.
#[derive(Clone, Copy, Debug)]
pub enum Ask<'a> {
    /// Of a manifest.
    Manifest(ManifestAsk),
    /// Of a launch of a manifest, by the launch's name.
    Launch { launch: &'a str, ask: LaunchAsk },
    /// Of a file that is no manifest.
    File(FileAsk),
}

/// What is asked of a manifest.
#[derive(Clone, Copy, Debug)]
pub enum ManifestAsk {
    /// The report of its launches, made by 1 to 64 workers.
    Measure { workers: u8, format: Format },
    /// The audit of its launches.
    Audit,
    /// What is wrong with it, and which of its launches are refused; and the warnings, unless the check is quiet.
    Check { quiet: bool, format: Format },
}

/// What is asked of a launch of a manifest.
#[derive(Clone, Copy, Debug)]
pub enum LaunchAsk {
    /// Its listing.
    List,
    /// Its trace.
    Trace,
    /// Its map.
    Map { format: Format },
    /// Its devicetree: bytes, and no text.
    Dtb,
}

/// What is asked of a file that is no manifest.
#[derive(Clone, Copy, Debug)]
pub enum FileAsk {
    /// Whether the listing in it is what it says.
    Replay,
    /// The header of the arm64 Image in it.
    Image,
    /// The devicetree in it, which is flattened.
    Fdt,
}

/// The format of a report, of a map or of what a check finds.
#[derive(Clone, Copy, Debug)]
pub enum Format {
    /// Lines.
    Text,
    /// One JSON object.
    Json,
}

/// Why the words ask for nothing.
#[derive(Debug, Drop, Error)]
pub enum CommandFault {
    /// They are no command line of this program, or ask for help or its version.
    #[error(transparent)]
    Usage(clap::Error),
    /// Memory ran out.
    #[error("no-memory")]
    NoMemory,
}

impl From<AllocError> for CommandFault {
    ghost from_gives = { λ _ e. e ≡ fault.NoMemory };

    fn from(_error: AllocError) -> CommandFault {
        CommandFault::NoMemory
    }
}

/// Reads the words of a command line, of which the first is the program's name.
pub fn command<'a, S: AsStr>(alloc: Global, words: &'a [S]) -> Result<Request<'a>, CommandFault>
    // the subcommand, its operands, the workers and the format are those that the words have by `clap`'s definition
    ensures reads { IfOk result (ReadsRequest (subcommand_of rim (map S.text words.entry.now))) }
    ensures crew { IfOk result (λ r. HasCrew r.ask) }
    ensures takes { takes rim (map S.text words.entry.now) ≡ true
        → IfErr result (λ e. e ≡ CommandFault.NoMemory) }
    ensures sound { IfOk result (λ _. fault_of rim (map S.text words.entry.now) ≡ []) }
    ensures refused { IfErr result (IsRefusalOf (fault_of rim (map S.text words.entry.now))) }
{
    let rim = rim_command(alloc)?;
    let matches = match rim.try_get_matches_from(words) {
        Ok(matches) => matches,
        Err(error) => return Err(refusal(error)),
    };
    let Some((name, given)) = matches.subcommand() else {
        unreachable!()
    };
    Ok(request_of(name, given))
}

/// What a subcommand with its matches asks for.
fn request_of<'a>(name: &str, given: &ArgMatches<'a>) -> Request<'a>
    requires { IsEntered name.now (rows_of (found_of given.now)) }
    ensures { ReadsRow name.now (rows_of (found_of given.now)) result }
{
    Request {
        path: operand(given, "path"),
        ask: ask_of(name, given),
        output: value(given, "output"),
        explain: flag(given, "explain"),
    }
}

/// What a subcommand with its matches asks of its file.
fn ask_of<'a>(name: &str, given: &ArgMatches<'a>) -> Ask<'a>
    requires { IsEntered name.now (rows_of (found_of given.now)) }
    ensures verb { name.now ≡ verb_of result }
    ensures options { ReadsAsk (rows_of (found_of given.now)) result }
{
    match name {
        "measure" => Ask::Manifest(ManifestAsk::Measure {
            workers: workers(given),
            format: report_format(given),
        }),
        "audit" => Ask::Manifest(ManifestAsk::Audit),
        "check" => Ask::Manifest(ManifestAsk::Check {
            quiet: flag(given, "quiet"),
            format: report_format(given),
        }),
        "list" => Ask::Launch {
            launch: operand(given, "launch"),
            ask: LaunchAsk::List,
        },
        "trace" => Ask::Launch {
            launch: operand(given, "launch"),
            ask: LaunchAsk::Trace,
        },
        "map" => Ask::Launch {
            launch: operand(given, "launch"),
            ask: LaunchAsk::Map {
                format: report_format(given),
            },
        },
        "dtb" => Ask::Launch {
            launch: operand(given, "launch"),
            ask: LaunchAsk::Dtb,
        },
        "replay" => Ask::File(FileAsk::Replay),
        "image" => Ask::File(FileAsk::Image),
        "fdt" => Ask::File(FileAsk::Fdt),
        _ => unreachable!(),
    }
}

/// What a refused parse is answered as.
fn refusal(error: clap::Error) -> CommandFault
    ensures memory { kind_of error ≡ ErrorKind.OutOfMemory → result ≡ CommandFault.NoMemory }
    ensures usage { kind_of error ≢ ErrorKind.OutOfMemory → result ≡ CommandFault.Usage error }
    ensures kinds { (kinds : Kinds) → HasKind kinds error → IsRefusalOf kinds result }
{
    match error.kind() {
        ErrorKind::OutOfMemory => CommandFault::NoMemory,
        _ => CommandFault::Usage(error),
    }
}

/// The text of an operand that was given.
fn operand<'a>(given: &ArgMatches<'a>, id: &str) -> &'a str
    requires { is_some (first_of id.now (rows_of (found_of given.now))) ≡ true }
    ensures { first_of id.now (rows_of (found_of given.now)) ≡ Some result.now }
{
    value(given, id).unwrap()
}

/// The text of an argument, where it has one.
fn value<'a>(given: &ArgMatches<'a>, id: &str) -> Option<&'a str>
    ensures { first_of id.now (rows_of (found_of given.now)) ≡ option_map (λ s. s.now) result }
{
    given.get_str(id)
}

/// The number of workers, 4 where none is given.
fn workers(given: &ArgMatches) -> u8
    requires { IfSome (first_of (codes "workers") (rows_of (found_of given.now)))
        (λ text. IsSignedIn (pos 1) (pos WORKER_LIMIT) text) }
    ensures { CountsWorkers (first_of (codes "workers") (rows_of (found_of given.now))) result }
{
    match value(given, "workers") {
        Some(text) => number_of(text),
        None => 4,
    }
}

/// The format that is asked for: JSON where the flag `--json` is given, and else text.
fn report_format(given: &ArgMatches) -> Format
    ensures { result ≡ format_of (first_of (codes "json") (rows_of (found_of given.now))) }
{
    if flag(given, "json") {
        Format::Json
    } else {
        Format::Text
    }
}

/// Whether a flag is given.
fn flag(given: &ArgMatches, id: &str) -> bool
    ensures { result ≡ is_set (first_of id.now (rows_of (found_of given.now))) }
{
    match value(given, id) {
        Some(text) => text == "true",
        None => false,
    }
}

/// The number from 1 to 64 that a text writes.
fn number_of(text: &str) -> u8
    requires { IsSignedIn (pos 1) (pos WORKER_LIMIT) text.now }
    ensures { CountsWorkers (Some text.now) result }
{
    text.parse::<u8>().unwrap()
}
