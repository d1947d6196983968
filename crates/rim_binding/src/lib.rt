//! Laws on what a Realm Initial Measurement binds: realms with the same measurement have the same measured events, or the
//! law gives a SHA-2 collision.
#![tactic(auto)]

mod laws;
mod widths;

pub use laws::{
    a_message_determines_what_it_extends, a_rim_is_of_the_events, alike_launches_have_one_rim,
    any_host_builds_the_launch, parts_are_bound, the_worked_listing_is_built,
    two_launches_are_alike, what_is_not_bound,
};
