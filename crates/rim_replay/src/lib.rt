//! A listing from a stranger is given to a monitor, line by line: whether it is what it says.
#![tactic(auto)]

mod fault;
mod laws;
mod lines;
mod listing;

pub use fault::{ReplayFault, refused_kind};
pub use laws::a_true_listing_is_confirmed;
pub use listing::replay;
