//! Where in its text each part of a manifest is, by line and column. The kit's `toml` keeps no places of what it has read, so the text
//! is walked again. That the places are right is tested alone: no clause says it.
#![tactic(auto)]

mod searches;
mod spot;
mod tables;
mod walk;

pub use searches::Sought;
pub use spot::{Spot, spot_at};
pub use walk::find_spots;
