//! The board of a run: the core's state with the run's pages, plans, rows and values, and which free job a worker is given.
#![tactic(auto)]

mod chain_order;
mod closing;
mod grouping;
mod lending;
mod one_worker;
mod own_needs;
mod preferences;
mod share;
mod side_by_side;
mod state;

pub use job_core::{
    Core, CoreFault, Event, JobId, JobState, WORKER_LIMIT, a_job_has_one_holder, a_job_is_put_once,
    a_step_keeps_needs_and_numbers, events_are_few, no_launch_is_early, no_state_is_stuck,
    pages_done_are_the_puts, values_are_own,
};
pub use job_tasks::{
    ChainedLaunch, HashedPage, KeptPrefix, LaunchTask, OwnPrefix, OwnValue, PageTask, Run, Work,
    WorkerRow, begin_each, filled_task, most_stops, plan_at, put_values, run_to_stop, set_stop,
    worker_rows,
};
pub use one_worker::{LaunchGroup, LaunchGroups, most_lanes};
pub use share::Share;
pub use state::BoardState;
