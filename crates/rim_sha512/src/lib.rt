//! SHA-512 (FIPS 180-4) of messages side by side, and of one of two blocks, with the contracts of the kit's `sha2`. What is here of lanes
//! and vectors is mostly made of the text for SHA-256, by tools/checks/widths.py.
#![tactic(auto)]

mod constants;
mod lanes;
mod messages;
mod pairs;
mod rounds;
mod schedule;
mod sigmas;
mod vectors;
mod words;

pub use lanes::descriptors::{hashes_of_two, headed_hashes};
pub use lanes::messages::{digests, digests_of};
pub use messages::{sha512_headed, sha512_of_two};
pub use vectors::Words;
