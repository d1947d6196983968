//! SHA-256 of `N` messages side by side, each in a lane of vectors. Rust has no vector of more lanes than clauses let `N` be;
//! by this bound arrays of vectors are smaller than memory.
pub(crate) mod descriptors;
mod known_blocks;
mod loading;
pub(crate) mod messages;
mod padding;
mod rounds;
