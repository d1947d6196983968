//! The table of a release's pages with all their digests, made on one thread.
ghost use Rattle.std.specs.Prelude.{◌≡◌, ◌+◌, ◌<◌, IfOk, Some, length, map, slice_get};
ghost use Rattle.page_jobs.specs.Key.{IsRising};
ghost use Rattle.page_jobs.specs.Page.{page_view};
ghost use Rattle.page_jobs.specs.Table.{page_keys_of};
ghost use Rattle.launch_plan.specs.Rows.{IsFull};
ghost use Rattle.rim_report.specs.inside.Filled.{IsFilledTo};

use page_jobs::{Hashed, HashedAhead, Page, PageJob, Table};
use refusal::NoMemory;
use rim_desc::Lanes;
use std::alloc::Global;

/// A table with the digests of these pages, hashed in their order, side by side where they can be.
pub fn hashed<'a>(alloc: Global, lanes: Lanes, pages: &'a [Page<'a>]) -> Result<Table<'a>, NoMemory>
    requires { IsRising (page_keys_of (map page_view pages.now)) }
    ensures pages { IfOk result (λ t. t.pages ≡ map page_view pages.entry.now) }
    ensures full { IfOk result IsFull }
{
    let mut table = Table::reserve(alloc, pages)?;
    let mut ahead = HashedAhead::new(pages, lanes);
    for slot in 0..pages.len() {
        let hashed = hashed_page(&mut ahead, slot);
        fill(&mut table, slot, hashed);
    }
    Ok(table)
}

/// A page with its measurement.
fn hashed_page<'a>(ahead: &mut HashedAhead<'a>, slot: usize) -> Hashed<'a>
    requires { slot < length ahead.old.pages.now }
    ensures page { slice_get (map page_view ahead.old.pages.now) slot
        ≡ Some (page_view result.page) }
    ensures pages { ahead.new.pages ≡ ahead.old.pages }
{
    let job = PageJob::new(ahead.pages[slot]);
    let digest = ahead.digest(slot);
    job.known(digest)
}

/// Fills the first slot that is not filled.
fn fill<'a>(table: &mut Table<'a>, slot: usize, hashed: Hashed<'a>)
    requires filled { IsFilledTo table.old slot }
    requires page { slice_get table.old.pages slot ≡ Some (page_view hashed.page) }
    ensures same { table.new.pages ≡ table.old.pages }
    ensures filled { IsFilledTo table.new (slot + 1) }
{
    let Ok(()) = table.fill(slot, hashed) else {
        unreachable!()
    };
}
