//! What a run of workers is about.
ghost use Rattle.std.specs.Prelude.{[], List};
ghost use Rattle.page_jobs.specs.Page.{PageView};
ghost use Rattle.launch_plan.specs.Links.{PlanView};

use std::marker::Brand;
use std::sync::ledger::Ledger;

/// The pages and the plans of a run. A type names them, so that what is found under a lock is known to be of the
/// same run, and no page is compared. Whoever begins a run picks them, with `Brand` for the type.
pub trait Run: Ledger {
    ghost pages: { List PageView };

    ghost plans: { List PlanView };
}

/// These two lists bind no run. A call that passes `Brand` picks its own in their place, in its proof: `run` of
/// `rim_report` picks the pages and the plans that it has just made (`ghosts-run-L-Run`).
impl Run for Brand {
    ghost pages = { [] };

    ghost plans = { [] };
}
