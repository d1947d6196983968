//! What is rarely meant in a launch that is accepted. That what it says of the launch is true is tested alone: no clause says it.
#![tactic(auto)]

mod cells;
mod chosen;
mod devicetree;
mod firmware;
mod initrd;
mod items;
mod memory;
mod processors;
mod ram;
mod ranges;
mod recs;
mod seen;
mod unusual;

pub use seen::SeenTrees;
pub use unusual::{Unusual, find_unusual};
