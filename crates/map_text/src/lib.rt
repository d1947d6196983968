//! The map of a launch in lines.
#![tactic(auto)]

mod columns;
mod picture;
mod text;
mod warnings;

pub use columns::Lines;
pub use picture::{push_ram, push_space, push_stated};
pub use text::{map_text, push_head};
pub use warnings::warning_remarks;
