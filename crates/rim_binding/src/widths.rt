//! Facts about commands, launches and files that follow from their types: each number fits in its bits. The bodies only
//! read the parts, so that the prover learns their ranges.
ghost use Rattle.std.specs.Prelude.{length};
ghost use Rattle.std.specs.List.{All};
ghost use Rattle.ipa_layout.specs.Files.{bytes_of_files};
ghost use Rattle.rmi_line.specs.Typed.{IsByte, IsWord};
ghost use Rattle.rim_binding.specs.Event.{FitsParams, FitsRec, measured_params, measured_rec};
ghost use Rattle.rim_binding.specs.Widths.{FitsCommand, FitsLaunch, FitsPlacedRec};

use ipa_layout::{Placed, PlacedRec};
use rim_desc::{Command, RealmParams, RecParams};
use rim_launch::Launch;

/// The measured parameters of each command fit.
pub(crate) fn commands_fit(commands: &[Command])
    ensures { All FitsCommand commands.now }
{
    for command in commands {
        command_fits(command);
    }
}

/// The numbers of a launch and of its RECs fit, and its files are bytes.
pub(crate) fn launch_fits(files: &[Vec<u8>], launch: &Launch, placed: &Placed)
    ensures { FitsLaunch (bytes_of_files files.now) launch.now placed.now }
{
    bytes_fit(&launch.config().numbers.in_order());
    recs_fit(placed.recs());
    files_fit(files);
    bytes_fit(placed.edited().unwrap_or(&[]));
}

fn command_fits(command: &Command)
    ensures { FitsCommand command.now }
{
    let command = *command;
    match command {
        Command::RealmCreate { rd: _, params } => params_fit(&params),
        Command::RecCreate { rec: _, params } => rec_fits(&params),
        _ => {}
    }
}

fn params_fit(params: &RealmParams)
    ensures { FitsParams (measured_params params.now) }
{
    words_fit(&[params.flags]);
    bytes_fit(&[params.s2sz]);
    bytes_fit(&params.numbers.in_order());
}

fn rec_fits(params: &RecParams)
    ensures { FitsRec (measured_rec params.now) }
{
    words_fit(&[params.flags(), params.pc()]);
    words_fit(params.gprs());
}

fn recs_fit(recs: &[PlacedRec])
    ensures { All FitsPlacedRec recs.now }
{
    for rec in recs {
        placed_rec_fits(rec);
    }
}

fn placed_rec_fits(rec: &PlacedRec)
    ensures { FitsPlacedRec rec.now }
{
    words_fit(&[rec.pc]);
    words_fit(&rec.x);
}

fn files_fit(files: &[Vec<u8>])
    ensures { All (All IsByte) (bytes_of_files files.now) }
{
    for file in files {
        bytes_fit(file.as_slice());
    }
}

fn words_fit(words: &[u64])
    ensures { All IsWord words.now }
{
    let _ = words;
}

fn bytes_fit(bytes: &[u8])
    ensures { All IsByte bytes.now }
{
    let _ = bytes;
}
