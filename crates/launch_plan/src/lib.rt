//! A launch's plan: the links of its chain (blocks of RAM, pages, RECs), and which pages they need the digests of.
#![tactic(auto)]

mod filling;
mod first_pages;
mod link;
mod plan;
mod prefix;
mod reading;
mod recs;

pub use filling::most_pages;
pub use link::Link;
pub use plan::{LaunchPlan, page_count, part_count};
pub use prefix::{Checkpoint, Prefix, SharedPrefix};
pub use reading::page_key;
pub use recs::LastRecs;
