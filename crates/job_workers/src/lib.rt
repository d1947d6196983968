//! A board under its lock, and the workers that do its jobs.
#![tactic(auto)]

mod board;
mod chained_beside;
mod gate;
mod worker;
mod workers;

pub use board::Board;
pub use gate::{FreeGate, Gate};
pub use workers::{Tally, run_workers, run_workers_on};
