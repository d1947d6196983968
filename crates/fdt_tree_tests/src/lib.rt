//! Tests of `fdt_tree`, apart from it so that it is proved once; and devicetrees for tests of other crates too.
#![tactic(auto)]

#[cfg(test)]
mod checks;
#[cfg(test)]
mod edits;
#[cfg(test)]
mod files;
#[cfg(test)]
mod large;
#[cfg(test)]
mod reading;
#[cfg(test)]
mod refused;
pub mod vectors;
#[cfg(test)]
mod writing;
