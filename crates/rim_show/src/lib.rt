//! The texts that show an Image and a devicetree, and the words of their faults.
#![tactic(auto)]

mod devicetree;
mod fault;
mod image;

pub use devicetree::show_fdt;
pub use fault::{ShowFault, devicetree_kind, image_kind};
pub use image::show_image;
