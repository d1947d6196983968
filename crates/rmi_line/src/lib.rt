//! The one spelling of a command of the monitor in a listing: a line of words, which is printed and read; its words in a trace;
//! and the first and the last line of a listing.
#![tactic(auto)]

mod digits;
mod ends;
mod laws;
mod line;
mod reader;
mod reading;
mod trace;
mod typed;
mod words;

pub use ends::{digest, read_first, read_last};
pub use laws::{
    a_line_gives_its_command, one_command_a_line, spaces_part_the_words, the_ends_are_lines,
};
pub use line::print_line;
pub use reading::read_line;
pub use trace::print_traced;
