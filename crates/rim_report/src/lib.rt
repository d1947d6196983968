//! The report of a release, made on one thread or by workers, and the digests of its files.
#![tactic(auto)]

mod chains;
mod file_digests;
mod hashing;
mod laws;
mod one_thread;
mod outcomes;
mod pending_report;
mod plans;
mod report;
mod workers;

pub use file_digests::{Digested, digested_alone, measure_with_digests};
pub use laws::{a_value_is_its_launchs_rim, values_make_the_lines};
pub use one_thread::{measure_alone, outcome_alone};
pub use plans::accepted_plans;
pub use rim_pages::{DISTINCT_LIMIT, MeasuredPages, StartFault};
pub use workers::{Outcome, measure_release};
