//! The different measured pages of a release, and why the measuring of them does not start.
#![tactic(auto)]

mod different;
mod fault;
mod measured;

pub use different::{DISTINCT_LIMIT, pages};
pub use fault::StartFault;
pub use measured::MeasuredPages;
