//! Tests of plans, with acts worked out by hand.
#![tactic(auto)]

#[cfg(test)]
mod plans;
