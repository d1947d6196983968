//! Laws of reports, proved of the definitions.
ghost use Rattle.std.specs.Prelude.{◌≡◌, ℕ, List, length, true};
ghost use Rattle.std.specs.List.{Contains};
ghost use Rattle.job_core.specs.declared.job.Event.{Event};
ghost use Rattle.job_core.specs.declared.job.JobId.TheVariants.{Launch};
ghost use Rattle.job_core.specs.Events.{is_legal, replay};
ghost use Rattle.job_core.specs.Jobs.{is_over, opening};
ghost use Rattle.job_core.specs.Values.{NeedsHold, values};
ghost use Rattle.launch_plan.specs.Links.{PlanView};
ghost use Rattle.rim_manifest.specs.Launches.{AreNumbered, ReleaseData};
ghost use Rattle.rim_pages.specs.Pages.{release_pages};
ghost use Rattle.rim_report.specs.Plans.{ArePlans};
ghost use Rattle.rim_accepted.specs.Lines.{lines_of};
ghost use Rattle.rim_report.specs.Values.{IsRimOf, lines_by, makes_of};

/// The lines made of the values that workers put are the report's, in whatever order they came to the jobs: after each
/// legal list of events that leaves all jobs done, of the pages of a release and of plans that are read of its launches.
/// Each launch needs all pages of its own plan, or more.
pub fn values_make_the_lines()
    ensures { (files : List (List ℕ)) (r : ReleaseData) (plans : List PlanView) (workers : ℕ)
        (needs : List (List ℕ)) (es : List Event)
        → let pages = release_pages files r.launches in AreNumbered r
        → length files ≡ length r.paths
        → ArePlans files r.launches plans
        → length needs ≡ length plans
        → NeedsHold (makes_of pages plans) needs
        → is_legal (opening workers (length pages) needs) es ≡ true
        → is_over (replay (opening workers (length pages) needs) es) ≡ true
        → lines_by (values (makes_of pages plans) es) files 0 r.launches
        ≡ lines_of files r.launches }
{}

/// The value that is put for a launch is what the launch's measured parts measure to, in each legal list of events, whether
/// it leaves jobs or not: of the pages of a release and of plans that are read of its launches.
pub fn a_value_is_its_launchs_rim()
    ensures { (files : List (List ℕ)) (r : ReleaseData) (plans : List PlanView) (workers : ℕ)
        (needs : List (List ℕ)) (es : List Event)
        → let pages = release_pages files r.launches in AreNumbered r
        → length files ≡ length r.paths
        → ArePlans files r.launches plans
        → length needs ≡ length plans
        → NeedsHold (makes_of pages plans) needs
        → is_legal (opening workers (length pages) needs) es ≡ true
        → (k : ℕ) (value : List ℕ)
        → Contains (values (makes_of pages plans) es) (Launch k, value)
        → IsRimOf files r.launches k value }
{}
