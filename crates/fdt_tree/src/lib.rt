//! Flattened devicetrees (Devicetree Specification 0.4, chapter 5) as trees in memory.
#![tactic(auto)]

mod edits;
mod laws;
mod lookup;
mod node;
mod reading;
mod tree;
mod writing;

pub use crate::laws::{
    first_fault, one_tree, refused_or_spelled, tree_at_is_spelled, written_is_spelled,
};
pub use crate::node::{Name, Node, Property};
pub use crate::reading::read;
pub use crate::tree::{Reservation, Tree};
pub use fdt_header::{FdtFault, SIZE_LIMIT};
