//! Laws of every legal list of events: of a core with these workers, pages and needs, no event is refused.
ghost use Rattle.std.specs.Prelude.{◌≡◌, ◌≢◌, ◌↔◌, ◌+◌, ◌*◌, ◌≤◌, ℕ, List, [], ◌∷◌, ◌++◌, Ok, Some, count_by, false, length, map, slice_get, slice_index_or, sum_by, true};
ghost use Rattle.std.specs.List.{Contains, list_all, range_with_len};
ghost use Rattle.job_core.specs.declared.job.Event.{Event};
ghost use Rattle.job_core.specs.declared.job.JobId.{JobId};
ghost use Rattle.job_core.specs.declared.job.JobState.{JobState};
ghost use Rattle.job_core.specs.Jobs.{CoreState, NeedsWithin, held_count, is_held_by, is_out, is_over, is_page_done, is_ready, opening, pages_done, state_of};
ghost use Rattle.job_core.specs.Step.{core_step, job_is};
ghost use Rattle.job_core.specs.Events.{holds, is_accepted, is_legal, jobs_put, puts, replay, same_job};
ghost use Rattle.job_core.specs.Values.{Makes, NeedsHold, own_value, values};

/// A step changes neither the needs of launches nor the numbers of workers, pages and launches, and worker 0 stays.
pub fn a_step_keeps_needs_and_numbers()
    ensures needs { (s t : CoreState) (e : Event) → core_step s e ≡ Ok t → t.needs ≡ s.needs }
    ensures workers { (s t : CoreState) (e : Event) → core_step s e ≡ Ok t
        → length t.retired ≡ length s.retired }
    ensures pages { (s t : CoreState) (e : Event) → core_step s e ≡ Ok t
        → length t.pages ≡ length s.pages }
    ensures launches { (s t : CoreState) (e : Event) → core_step s e ≡ Ok t
        → length t.launches ≡ length s.launches }
    ensures first { (s t : CoreState) (e : Event) → core_step s e ≡ Ok t → is_out s 0 ≡ false
        → is_out t 0 ≡ false }
{}

/// No job is held by two workers, and no worker holds two jobs. Who holds a job by the events holds it in the state.
pub fn a_job_has_one_holder()
    ensures one { (workers pages : ℕ) (needs : List (List ℕ)) (es : List Event)
        → is_legal (opening workers pages needs) es ≡ true
        → (v w : ℕ) (job : JobId)
        → holds es v job ≡ true
        → holds es w job ≡ true
        → v ≡ w }
    ensures state { (workers pages : ℕ) (needs : List (List ℕ)) (es : List Event)
        → is_legal (opening workers pages needs) es ≡ true
        → (w : ℕ) (job : JobId)
        → holds es w job
        ≡ job_is (is_held_by w) (state_of (replay (opening workers pages needs) es) job) }
    ensures count { (workers pages : ℕ) (needs : List (List ℕ)) (es : List Event)
        → is_legal (opening workers pages needs) es ≡ true
        → (w : ℕ)
        → held_count (replay (opening workers pages needs) es) w ≤ 1 }
{}

/// No job is put twice, and just the jobs that were put are done.
pub fn a_job_is_put_once()
    ensures once { (workers pages : ℕ) (needs : List (List ℕ)) (es : List Event)
        → is_legal (opening workers pages needs) es ≡ true
        → (job : JobId)
        → count_by (same_job job) (jobs_put es) ≤ 1 }
    ensures done { (workers pages : ℕ) (needs : List (List ℕ)) (es : List Event)
        → is_legal (opening workers pages needs) es ≡ true
        → (job : JobId)
        → (state_of (replay (opening workers pages needs) es) job ≡ Some JobState.Done)
        ↔ Contains (jobs_put es) job }
{}

/// No launch is taken before all pages that it needs are done, and they stay done: what is held or done is ready.
pub fn no_launch_is_early()
    ensures taken { (workers pages : ℕ) (needs : List (List ℕ)) (before after : List Event)
        (w l : ℕ)
        → let s = opening workers pages needs in
        is_legal s (before ++ Event.Take w (JobId.Launch l) ∷ after) ≡ true
        → list_all (is_page_done (replay s before).pages) (slice_index_or needs l []) ≡ true }
    ensures given { (workers pages : ℕ) (needs : List (List ℕ)) (es : List Event)
        → is_legal (opening workers pages needs) es ≡ true
        → (l : ℕ) (x : JobState)
        → slice_get (replay (opening workers pages needs) es).launches l ≡ Some x
        → x ≢ JobState.Free
        → is_ready (replay (opening workers pages needs) es) (JobId.Launch l) ≡ true }
{}

/// The pages done are as many as all workers have put.
pub fn pages_done_are_the_puts()
    ensures { (workers pages : ℕ) (needs : List (List ℕ)) (es : List Event)
        → is_legal (opening workers pages needs) es ≡ true
        → pages_done (replay (opening workers pages needs) es)
        ≡ sum_by (puts es) (range_with_len 0 workers) }
{}

/// A list has at most two events for each job and two for each worker.
pub fn events_are_few()
    ensures { (workers pages : ℕ) (needs : List (List ℕ)) (es : List Event)
        → is_legal (opening workers pages needs) es ≡ true
        → length es ≤ 2 * (pages + length needs) + 2 * workers }
{}

/// Each put has its job's own value, where each launch needs all pages of its row: a launch's value is what it makes
/// of all its pages' own values.
pub fn values_are_own()
    ensures { (m : Makes) (workers pages : ℕ) (needs : List (List ℕ)) (es : List Event)
        → NeedsHold m needs
        → is_legal (opening workers pages needs) es ≡ true
        → values m es ≡ map (λ job. (job, own_value m job)) (jobs_put es) }
{}

/// Where no job is held and some job is not done, worker 0 can take a job. So no state is stuck.
pub fn no_state_is_stuck()
    ensures { (workers pages : ℕ) (needs : List (List ℕ)) (es : List Event)
        → let s = replay (opening workers pages needs) es in 1 ≤ workers
        → NeedsWithin needs pages
        → is_legal (opening workers pages needs) es ≡ true
        → ((w : ℕ) → held_count s w ≡ 0)
        → is_over s ≡ false
        → (job : JobId) × (is_accepted s (Event.Take 0 job) ≡ true) }
{}
