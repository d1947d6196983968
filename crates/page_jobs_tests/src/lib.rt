//! Tests of descriptors, pages, their digests and the table, with values from other programs; and the pages of a table in
//! order, for tests of other crates too.
#![tactic(auto)]

mod distinct;

pub use distinct::distinct_pages;

#[cfg(test)]
mod tests;
