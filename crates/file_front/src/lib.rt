//! What a file is that is given as an arm64 Image or as a devicetree and is none, by its first bytes; else what is wrong with it.
#![tactic(auto)]

mod kernel;
mod shown;

pub use kernel::{KernelFront, front_of};
pub use shown::{DevicetreeFront, image_front};
