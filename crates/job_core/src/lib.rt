//! The core of a run: its jobs and its workers, and what each event does. A legal list of events is one that the core accepts: its laws
//! are here.
#![tactic(auto)]

mod job;
mod jobs;
mod laws;
mod line;
mod machine;
mod needs;
mod reaches;

pub use job::{CoreFault, Event, JobId, JobState};
pub use laws::{
    a_job_has_one_holder, a_job_is_put_once, a_step_keeps_needs_and_numbers, events_are_few,
    no_launch_is_early, no_state_is_stuck, pages_done_are_the_puts, values_are_own,
};
pub use machine::{Core, WORKER_LIMIT};
pub use needs::Needs;
pub use reaches::{PageGroup, Reach};
