//! Lines of text that show what a manifest has, so that no text in one ends it; and what a terminal is given of a text.
#![tactic(auto)]

mod json;
mod line;
mod remark;
mod terminal;

pub use json::{remark_value, remark_values};
pub use line::{Line, Quoted, shown};
pub use remark::{Joint, Remark, Word, launch_place, lines_of, push_file, push_remark};
pub use terminal::TerminalWriter;
