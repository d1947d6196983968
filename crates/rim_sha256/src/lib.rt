//! SHA-256 (FIPS 180-4) of messages side by side, and of one whose last blocks are known beforehand, with the contracts of the kit's `sha2`.
#![tactic(auto)]

mod constants;
mod lanes;
mod one;
mod sigmas;
mod vectors;
mod words;

pub use lanes::descriptors::headed_hashes;
pub use lanes::messages::{digests, digests_of};
pub use one::headed::sha256_headed;
pub use vectors::Words;
