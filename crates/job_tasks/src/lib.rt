//! The jobs that a board gives, with all that doing them takes, and what comes of them.
#![tactic(auto)]

mod beside;
mod filling;
mod rows;
mod run;
mod task;
mod work;

pub use beside::{begin_each, most_stops, put_values, run_to_stop, set_stop};
pub use filling::filled_task;
pub use rows::{WorkerRow, keep_row, lent_rows, plan_at, take_row, worker_rows};
pub use run::Run;
pub use task::{ChainedLaunch, HashedPage, KeptPrefix, LaunchTask, OwnPrefix, OwnValue, PageTask};
pub use work::Work;
