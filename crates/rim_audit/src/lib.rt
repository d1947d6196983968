//! The commands of a launch, given to a monitor: audits of a release, and the listing and the trace of a launch.
#![tactic(auto)]

mod audits;
mod beside;
mod commands;
mod copies;
mod kept;
mod known_pages;
mod laws;
mod laying_out;
mod listings;
mod trace;

pub use audits::{audit, audit_launches, audit_report, audit_with_gate};
pub use laws::a_trace_shows_what_a_monitor_holds;
pub use listings::{list_launch, listing};
pub use trace::trace_launch;
