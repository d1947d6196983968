//! The commands that a host gives the monitor to build a launch's realm, in order.
#![tactic(auto)]

mod draft;
mod fault;
mod laws;
mod listing;
mod plan;
mod reason;
mod span;
mod step;
mod step_fault;

pub use fault::ListFault;
pub use laws::{contents_of_a_launch, list_is_followed};
pub use listing::{granules_taken, list, list_with_reason};
pub use plan::Plan;
pub use reason::{ListReason, StepReason};
