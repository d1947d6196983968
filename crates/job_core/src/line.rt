//! The line of launches that wait for nothing, in the order in which that came to be.
//!
//! Each is in the line once. A launch that a retirement frees is found again from the line's begin. That happens at most 63
//! times, since of 64 workers worker 0 never retires, and the others do once.
ghost use Rattle.std.specs.Prelude.{◌≡◌, ◌≢◌, ◌<◌, ◌≤◌, ◌-◌, ◌++◌, ℕ, List, true, false, length, IfOk, Some, slice_get, slice_index, slice_set, vec_capacity};
ghost use Rattle.job_core.specs.declared.job.JobState.{JobState};
ghost use Rattle.job_core.specs.inside.Lines.{IsFreeAt, IsLine};

use crate::job::JobState;
use refusal::NoMemory;
use std::alloc::Global;

/// The line at first: the launches of which nothing is left.
pub(crate) fn first_ready(alloc: Global, left: &[usize]) -> Result<Vec<usize>, NoMemory>
    ensures { IfOk result (λ ready. IsLine left.now ready.items (vec_capacity ready)) }
{
    let mut ready = Vec::with_capacity(alloc, left.len())?;
    for launch in 0..left.len() {
        if left[launch] == 0 {
            ready.push_reserved(launch);
        }
    }
    Ok(ready)
}

/// A launch waits for one reach fewer, and comes into line where it waits for none.
pub(crate) fn wait_less(left: &mut [usize], launch: usize, ready: &mut Vec<usize>)
    requires some { 1 ≤ slice_index left.old launch }
    requires line { IsLine left.old ready.old.items (vec_capacity ready.old) }
    ensures left { left.new ≡ slice_set left.old launch (slice_index left.old launch - 1) }
    ensures line { IsLine left.new ready.new.items (vec_capacity ready.new) }
    ensures grows { (more : List ℕ) × (ready.new.items ≡ ready.old.items ++ more) }
{
    let rest = left[launch] - 1;
    left[launch] = rest;
    if rest == 0 {
        ready.push_reserved(launch);
    }
}

/// The place of the first free launch of a line, from a place on, or else the line's end.
pub(crate) fn free_in(launches: &[JobState], ready: &[usize], from: usize) -> usize
    requires { from ≤ length ready.now }
    ensures within { (from ≤ result) × (result ≤ length ready.now) }
    ensures passed { (i : ℕ) → from ≤ i → i < result → ¬ IsFreeAt launches.now ready.now i }
    ensures free { result < length ready.now → IsFreeAt launches.now ready.now result }
{
    for i in from..ready.len() {
        if is_free_at(launches, ready[i]) {
            return i;
        }
    }
    ready.len()
}

fn is_free_at(launches: &[JobState], launch: usize) -> bool
    ensures yes { result ≡ true → slice_get launches.now launch ≡ Some JobState.Free }
    ensures no { result ≡ false → slice_get launches.now launch ≢ Some JobState.Free }
{
    matches!(launches.get(launch), Some(JobState::Free))
}

/// The launch at a place of a line, if one is there.
pub(crate) fn launch_at(ready: &[usize], place: usize) -> Option<usize>
    ensures { result ≡ slice_get ready.now place }
{
    ready.get(place).copied()
}
