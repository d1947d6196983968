//! The rules of a manifest's tables: which keys each may have, which values each of them may hold, and how a value that keeps them is read.
#![tactic(auto)]

pub mod form;
pub mod kind;
pub mod laws;
pub mod names;
pub mod rules;
pub mod value;
pub mod version;
pub mod word;
