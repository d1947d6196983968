//! Laws for readers of the definitions, proved.
ghost use Rattle.std.specs.Prelude.{◌≡◌, ◌≢◌, ◌==◌, ℕ, List, Option, None, Some};
ghost use Rattle.std.specs.List.{All, slice_split};
ghost use Rattle.rim_desc.specs.declared.command.Command.{Command};
ghost use Rattle.rim_desc.specs.declared.measurement.Algo.{Algo};
ghost use Rattle.rim_desc.specs.declared.rule.RecRule.{RecRule};
ghost use Rattle.rmi_line.specs.Ends.{first_line, last_line};
ghost use Rattle.rmi_line.specs.Line.{line_of, words_of};
ghost use Rattle.rmi_line.specs.Spelled.{Reads};

use crate::typed::typed;

/// The spaces of a line part exactly its words, and no byte of it is a newline: a reader can part the lines of
/// a listing by newlines, and their words by spaces.
pub fn spaces_part_the_words()
    ensures words { (command : Command)
        → slice_split (λ b. b == 32) (line_of command) ≡ words_of command }
    ensures newline { (command : Command) → All (λ b. b ≢ 10) (line_of command) }
{}

/// No two commands have the same line.
pub fn one_command_a_line(first: rim_desc::Command, second: rim_desc::Command)
    ensures { line_of first ≡ line_of second → first ≡ second }
{
    typed(&first);
    typed(&second);
}

/// What is read of a command's line is that command.
pub fn a_line_gives_its_command(command: rim_desc::Command)
    ensures { (read : Option Command) → Reads (line_of command) read → read ≡ Some command }
{
    typed(&command);
}

/// Neither the first nor the last line of a listing has a newline, and the last one spells no command.
pub fn the_ends_are_lines()
    ensures first { (num_aux : ℕ) (rule : Option RecRule)
        → All (λ b. b ≢ 10) (first_line num_aux rule) }
    ensures last { (algo : Algo) (rim : List ℕ) → All (λ b. b ≢ 10) (last_line algo rim) }
    ensures apart { (algo : Algo) (rim : List ℕ) → Reads (last_line algo rim) None }
{}
