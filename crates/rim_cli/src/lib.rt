//! A run of the program over any files and streams.
#![tactic(auto)]

mod advice;
mod answer;
mod checking;
mod found;
mod freed;
mod in_memory;
mod laws;
mod mapping;
mod program;
mod replaying;
mod rims;

pub use answer::{Answer, answer_alone};
pub use in_memory::measure_in_memory;
pub use job_board::JobId;
pub use job_workers::{FreeGate, Gate};
pub use laws::{answers_are_printed, the_smallest_manifest_is_read};
pub use program::{Terminals, report_unreadable, run};
pub use rim_desc::Lanes;
pub use rim_files::{Fault, Opener, Patient};
pub use rim_words::{
    Ask, CommandFault, FileAsk, Format, LaunchAsk, ManifestAsk, Request, command, examples_are_read,
};
pub use rims::{LaunchRim, launch_rim};
pub use shown_text::TerminalWriter;
