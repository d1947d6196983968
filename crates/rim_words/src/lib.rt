//! The command line of `rim`, and what its words ask for.
#![tactic(auto)]

mod definition;
mod laws;
mod words;

pub use definition::VERSION;
pub use laws::examples_are_read;
pub use words::{Ask, CommandFault, FileAsk, Format, LaunchAsk, ManifestAsk, Request, command};
