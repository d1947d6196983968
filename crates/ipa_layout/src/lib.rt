//! Where a launch's kernel, initrd, devicetree and raw contents are in the realm's address space, or why
//! they cannot be placed.
#![tactic(auto)]

mod dtb;
mod dtb_edit;
mod extent;
mod fault;
mod item_check;
mod laws;
mod layout;
mod memory;
mod overlap;
mod placed;
mod reason;
mod rec;

pub use extent::Extent;
pub use fault::LayoutFault;
pub use item_check::PAGE_LIMIT;
pub use laws::{
    each_placed_item, pages_are_apart, pages_of_a_placed_launch, parts_of_a_placed_launch,
};
pub use layout::{place, place_with_reason};
pub use placed::{Placed, PlacedItem};
pub use reason::{IpaRange, ItemExtent, ItemReason, LayoutReason};
pub use rec::PlacedRec;
pub use rim_desc::Source;
pub use rim_launch::{
    Bootargs, Config, Edits, Item, ItemKind, Launch, Rec, Region, Role, Step, default_steps,
};
