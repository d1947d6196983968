//! The command line as `clap` reads it: the program's subcommands with their arguments and help texts.
ghost use Rattle.std.specs.Prelude.{◌≡◌, IfOk, fold, map, false, true};
ghost use Rattle.clap.specs.Words.{app_of, new_app, rule_of, with_rule};
ghost use Rattle.clap.specs.declared.builder.command.Command.TheViews.{out-Command};
ghost use Rattle.rim_words.specs.Command.{rim, with_command};
ghost use Rattle.rim_words.specs.inside.Table.{command_in, rule_in};

use clap::{Arg, ArgAction, Command};
use job_core::WORKER_LIMIT;
use std::alloc::{AllocError, Global};

/// The version, and the day of its sources' last commit: `tools/package/dist.py` asks that they are the same.
pub const VERSION: &str = "0.2.0 (2026-12-01)";

/// A subcommand: its name, what help says of it, and its arguments, the operands in their order.
struct Subcommand {
    name: &'static str,
    about: &'static str,
    after_help: Option<&'static str>,
    arguments: &'static [Argument],
}

/// An argument of a subcommand.
enum Argument {
    /// An operand that has to be given: its name, that which usage texts show, and what help says of it.
    Operand(&'static str, &'static str, &'static str),
    /// A flag: its name, and what help says of it.
    Flag(&'static str, &'static str),
    /// The option `--workers`.
    Workers,
    /// The option `--output`.
    Output,
}

/// The path of a manifest.
const MANIFEST: Argument = Argument::Operand("path", "MANIFEST", "The manifest, a TOML file");

/// The name of a launch of that manifest.
const LAUNCH: Argument = Argument::Operand("launch", "LAUNCH", "The launch, by its name");

/// That standard error also says why, as it does where it is a terminal.
const EXPLAIN: Argument = Argument::Flag(
    "explain",
    "After a fault or a refusal, the line that `rim check` has of it, on standard error",
);

/// The subcommands, in the order of the help text.
const COMMANDS: [Subcommand; 10] = [
    Subcommand {
        name: "measure",
        about: "Prints the measurement of each launch of a manifest",
        after_help: Some("`rim --help` says what a manifest is, and lists the exit statuses."),
        arguments: &[
            MANIFEST,
            Argument::Workers,
            Argument::Flag("json", "The report as one JSON object, and not as lines"),
            Argument::Output,
            EXPLAIN,
        ],
    },
    Subcommand {
        name: "list",
        about: "Prints the monitor's commands that build the realm of a launch",
        after_help: None,
        arguments: &[MANIFEST, LAUNCH, Argument::Output, EXPLAIN],
    },
    Subcommand {
        name: "trace",
        about: "Prints the measurement of a launch step by step",
        after_help: None,
        arguments: &[MANIFEST, LAUNCH, Argument::Output, EXPLAIN],
    },
    Subcommand {
        name: "map",
        about: "Prints where the items of a launch are, and what its measurement is made of",
        after_help: None,
        arguments: &[
            MANIFEST,
            LAUNCH,
            Argument::Flag("json", "The map as one JSON object, and not as lines"),
            Argument::Output,
            EXPLAIN,
        ],
    },
    Subcommand {
        name: "audit",
        about: "Prints the measurement of each launch, \
            as a monitor that takes its commands holds it",
        after_help: None,
        arguments: &[MANIFEST, Argument::Output, EXPLAIN],
    },
    Subcommand {
        name: "check",
        about: "Prints what is wrong with a manifest and which launches are refused, \
            each with its place",
        after_help: None,
        arguments: &[
            MANIFEST,
            Argument::Flag("quiet", "No warnings: only what is wrong is printed"),
            Argument::Flag("json", "What is found as one JSON object, and not as lines"),
            Argument::Output,
        ],
    },
    Subcommand {
        name: "dtb",
        about: "Writes the devicetree of a launch, as it is placed and measured",
        after_help: None,
        arguments: &[MANIFEST, LAUNCH, Argument::Output, EXPLAIN],
    },
    Subcommand {
        name: "replay",
        about: "Says whether a listing is what it says, by giving its commands to a monitor",
        after_help: None,
        arguments: &[
            Argument::Operand("path", "FILE", "The listing, as `rim list` prints it"),
            EXPLAIN,
        ],
    },
    Subcommand {
        name: "image",
        about: "Prints the header of an arm64 kernel Image",
        after_help: None,
        arguments: &[
            Argument::Operand("path", "FILE", "The Image, as a kernel's build writes it"),
            EXPLAIN,
        ],
    },
    Subcommand {
        name: "fdt",
        about: "Prints a flattened devicetree, node by node",
        after_help: None,
        arguments: &[
            Argument::Operand("path", "FILE", "The devicetree, as dtc or QEMU writes it"),
            EXPLAIN,
        ],
    },
];

const GUIDE: &str = "\
A manifest is a TOML file that describes launches of realms. The smallest one:

    rim_manifest = 1
    [[launch]]
    name = \"small\"
    algo = \"sha256\"
    s2sz = 33

Launches also have memory (`ram`), contents (`item`, from `file` tables) and
processors (`rec`). docs/FORMATS.md lists all keys.

`rim measure MANIFEST` prints the report: the line `rim-report 1`, a line
`NAME ALGORITHM MEASUREMENT` or `NAME refused KIND` for each launch, and the line
`pages N`, the number of different pages that were hashed. With `--json` it is one JSON
object; docs/FORMATS.md describes it.

`rim list MANIFEST LAUNCH` prints the listing of a launch: the line `rim-list 1 aux N`,
or `rim-list 2 aux N rec RULE` where the launch has a rule for RECs; a line for each
command that a monitor takes to build the realm; and the line
`rim ALGORITHM MEASUREMENT`; or the line `NAME refused KIND`. `rim audit MANIFEST` gives
a monitor the commands of each launch, and prints the line `rim-audit 1` and a line for
each launch, as the report has it.

`rim trace MANIFEST LAUNCH` prints a line for each command that the monitor measures: the
measurement after it, and the command without the granules that the host chooses. Two
traces can be compared by `diff`: the first line that differs is the first step at which
two measurements part.

`rim map MANIFEST LAUNCH` prints where the RAM and the items of a launch are, how many
granules of the pool its commands take and become what, how many extensions its
measurement is made of, and its warnings. With `--json` it is one JSON object.

`rim check MANIFEST` prints a line for each fault of a manifest, with its place:
`MANIFEST:LINE:COLUMN: PLACE: FAULT`. Where there is none, it prints
`PATH: file-unreadable` or `PATH: file-too-large` for each file that cannot be read; where
all are read, a line for each launch that is refused, with what is at fault, and one where
the release has too many pages. Lines that begin with `warning:` say what is rarely meant
in launches that are accepted; they change no exit status, and `--quiet` leaves them out.
Else it prints nothing where nothing is wrong. With `--json` it prints one JSON object.

`rim dtb MANIFEST LAUNCH` writes the devicetree of a launch as it is placed: the bytes
that are measured, to be given to a hypervisor. They are not written to a terminal.

`rim replay FILE` gives the commands of a listing to a monitor, line by line. It prints
`yes` where the listing is what it says: the monitor takes each command, and then holds
the measurement of the last line. Else it prints `no line N` where line N is no line of
a listing in its place, `no refused N KIND` where the monitor refuses the command of line
N, or `no wrong-rim` where the measurement is another one.

A fault is one line on standard error, `rim: ` and its name; with `--explain`, or where
that is a terminal, a line follows that says why. What `rim check` finds is on standard
output.

With `-o FILE` the output is in FILE, which has all of it or is as it was.

Exit status:
  0  done
  1  done, and the launch or one of the launches is refused, or (`rim replay`) the
     listing is not what it says
  2  the command line is wrong
  3  the manifest, a file or the output is at fault, or no launch has the name, or
     (`rim dtb`) the launch is refused or has no devicetree
  4  out of memory

Beside it: `rim-manifest` writes manifests from what a hypervisor is given or does,
`rim-match` searches for the launch that has a value, `rim-compare` says what changed
between reports, `rim-verify` looks a token's value up, and `rim-endorse` writes reference
values for verifiers. Each has `--help` and a man page.";

/// The program's command line.
pub fn rim_command<'a>(alloc: Global) -> Result<Command<'a>, AllocError>
    ensures shape { IfOk result (λ c. app_of c ≡ rim) }
    ensures required { IfOk result (λ c. (out-Command c).subcommand_required ≡ true) }
    ensures globals { IfOk result (λ c. (out-Command c).has_globals ≡ false) }
{
    let rim = Command::new(alloc, "rim")
        .bin_name("rim")?
        .version(VERSION)
        .about("Computes Realm Initial Measurements of Arm CCA realms")
        .after_help(GUIDE);
    let rim = with_commands(alloc, rim, &COMMANDS)?;
    Ok(rim.subcommand_required(true))
}

/// A command with these subcommands more. None of them passes an argument on to all of its subcommands.
fn with_commands<'a>(
    alloc: Global,
    command: Command<'a>,
    rows: &[Subcommand],
) -> Result<Command<'a>, AllocError>
    requires { (out-Command command).has_globals ≡ false }
    ensures shape { IfOk result
        (λ c. app_of c ≡ fold with_command (app_of command.entry) (map command_in rows.now)) }
    ensures globals { IfOk result (λ c. (out-Command c).has_globals ≡ false) }
{
    let mut command = command;
    for row in rows {
        command = command.subcommand(command_of(alloc, row)?)?;
    }
    Ok(command)
}

/// A subcommand as `clap` has it.
fn command_of<'a>(alloc: Global, row: &Subcommand) -> Result<Command<'a>, AllocError>
    ensures shape { IfOk result
        (λ c. app_of c ≡ fold with_rule (new_app row.now.name.now) (command_in row.now).1) }
    ensures globals { IfOk result (λ c. (out-Command c).has_globals ≡ false) }
{
    let mut command = Command::new(alloc, row.name).about(row.about);
    if let Some(text) = row.after_help {
        command = command.after_help(text);
    }
    for argument in row.arguments {
        command = command.arg(arg_of(alloc, argument))?;
    }
    Ok(command)
}

/// An argument as `clap` has it.
fn arg_of<'a>(alloc: Global, argument: &Argument) -> Arg<'a>
    ensures rule { rule_of result ≡ rule_in argument.now }
    ensures local { result.global ≡ false }
{
    match *argument {
        Argument::Operand(id, name, help) => Arg::new(alloc, id)
            .required(true)
            .value_name(name)
            .help(help),
        Argument::Flag(name, help) => Arg::new(alloc, name)
            .long(name)
            .action(ArgAction::SetTrue)
            .help(help),
        Argument::Workers => Arg::new(alloc, "workers")
            .long("workers")
            .value_name("N")
            .value_parser(clap::value_parser!(u8).range(1..=WORKER_LIMIT as i64))
            .help("Threads that hash pages and chain launches, 1 to 64; 4 where not given"),
        Argument::Output => Arg::new(alloc, "output")
            .short('o')
            .long("output")
            .value_name("FILE")
            .help("The file that gets all of the output; standard output where not given"),
    }
}
