//! The report of a release as JSON: what each launch is, of which files, and what came of it.
#![tactic(auto)]

mod files;
mod launch;
mod parameters;
mod report;
mod reported;

pub use report::json_report;
pub use reported::Reported;
