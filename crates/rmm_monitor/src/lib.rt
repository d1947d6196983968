//! A Realm Management Monitor (Arm DEN0137 1.0) with one realm, while it is built: it takes or refuses
//! each command exactly as the definitions of `rmm_model` say, and holds the Realm Initial Measurement.
#![tactic(auto)]

mod measuring;
mod monitor;
mod owners;
mod parameters;
mod space;

pub use monitor::Monitor;
pub use parameters::is_runnable;
pub use rmm_model::{Kind, Refused};
