//! Tests of jobs, events and faults; and for tests of other crates too, what plans are made of, and whether a board can be made of
//! a table and plans.
#![tactic(auto)]

mod known;
mod plans;

pub use known::has_all_keys;
pub use plans::{REALM, pages_link};

#[cfg(test)]
mod tests;
