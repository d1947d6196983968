//! The manifest of a release: a TOML text that describes launches, read into typed values or refused
//! by the lowest fault that holds anywhere in it.
#![tactic(auto)]

mod check;
mod document;
mod fault;
mod fault_list;
mod finding;
mod item;
mod launch;
mod laws;
mod manifest;
mod naming;
mod rec;
mod region;
mod step;
mod texts;

pub use document::{Checked, Document};
pub use fault::{ManifestFault, is_lower};
pub use fault_list::{FINDING_LIMIT, FaultList};
pub use finding::{Array, Finding, Place, Subject};
pub use launch::NamedLaunch;
pub use laws::{the_lowest_fault_is_answered, what_is_given_is_read};
pub use manifest::{Release, entries, read_manifest};
pub use rim_rules::names::{asks_for, name, role};
