//! A launch's Realm Initial Measurement from its plan and the digests of its pages.
#![tactic(auto)]

mod chaining;
mod job;
mod laws;
mod shared_prefixes;
mod siblings;
mod under_way;

pub use chaining::chain;
pub use job::{LaunchJob, LaunchRim};
pub use launch_plan::{
    Checkpoint, LastRecs, LaunchPlan, Link, Prefix, SharedPrefix, most_pages, page_key,
};
pub use laws::{
    a_chain_goes_on_from_its_prefix, a_row_has_the_digests_of_its_pages,
    the_chain_is_what_a_monitor_holds,
};
pub use shared_prefixes::SharedPrefixes;
pub use under_way::{LaunchChain, fewest_together, go_on, no_chains};
