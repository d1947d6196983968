//! A law for readers of the definitions, proved.
ghost use Rattle.rim_words.specs.Examples.{ReadsExamples, RefusesExamples, TakesExamples};

/// The command line is not vacuous: the definition takes `rim measure manifest.toml`, also with `--workers=7`, and has 4
/// and 7 workers there, or with `--json`; it takes the smallest run of each subcommand, and neither 65 workers, nor
/// `--json=no`, nor `help`, nor no word. `--help` and `--version` ask for a text.
pub fn examples_are_read()
    ensures taken { TakesExamples }
    ensures read { ReadsExamples }
    ensures refused { RefusesExamples }
{}
