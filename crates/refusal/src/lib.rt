//! Refusals: why a call does nothing, and the words in which contracts say what a call answered. Every
//! crate of the house uses these and has no spelling of its own.
#![tactic(auto)]

mod memory;

pub use memory::NoMemory;
