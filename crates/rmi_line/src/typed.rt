//! What the type of a command says of it.
ghost use Rattle.std.specs.Prelude.{◌≡◌};
ghost use Rattle.std.specs.List.{All};
ghost use Rattle.rmi_line.specs.Typed.{IsByte, IsTyped, IsWord};

use rim_desc::Command;

/// Each number of a command fits in its bits, and each list has its size. The body looks at the parts, whose types
/// say so, and does nothing else.
pub fn typed(command: &Command)
    ensures { IsTyped command.now }
{
    let command = *command;
    match command {
        Command::Delegate { granule } => words_fit(&[granule]),
        Command::RealmCreate { rd, params } => {
            words_fit(&[rd, params.rtt_base, params.flags]);
            bytes_fit(&[params.rtt_level_start, params.rtt_num_start, params.s2sz]);
            bytes_fit(&params.numbers.in_order());
            bytes_fit(&params.rpv);
        }
        Command::RttCreate { rtt, ipa, level } => {
            words_fit(&[rtt, ipa]);
            bytes_fit(&[level]);
        }
        Command::InitRipas { base, top } => words_fit(&[base, top]),
        Command::DataCreate {
            granule,
            ipa,
            content,
        } => {
            words_fit(&[granule, ipa]);
            if let Some(measurement) = content {
                bytes_fit(&measurement.bytes);
            }
        }
        Command::DataCreateUnknown { granule, ipa } => words_fit(&[granule, ipa]),
        Command::RecCreate { rec, params } => {
            words_fit(&[rec, params.flags(), params.mpidr(), params.pc()]);
            words_fit(params.gprs());
            words_fit(params.aux());
        }
        Command::Activate => {}
    }
}

fn words_fit(words: &[u64])
    ensures { All IsWord words.now }
{
    let _ = words;
}

/// The bytes of a slice fit in their bits. The body does nothing.
pub(crate) fn bytes_fit(bytes: &[u8])
    ensures { All IsByte bytes.now }
{
    let _ = bytes;
}
