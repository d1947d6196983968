//! Pages in the order of their keys, each key once.
ghost use Rattle.std.specs.Prelude.{◌≡◌, map};
ghost use Rattle.std.specs.List.{All, Contains};
ghost use Rattle.page_jobs.specs.Key.{IsRising, rising_keys};
ghost use Rattle.page_jobs.specs.Page.{page_view};
ghost use Rattle.page_jobs.specs.Table.{page_keys_of};

use page_jobs::Page;

/// Sorts pages by their keys, and keeps one page of each key. It takes no memory.
pub fn distinct_pages(pages: &mut Vec<Page>)
    ensures keys { page_keys_of (map page_view pages.new.items)
        ≡ rising_keys (page_keys_of (map page_view pages.old.items)) }
    ensures rising { IsRising (page_keys_of (map page_view pages.new.items)) }
    ensures kept { All (Contains pages.old.items) pages.new.items }
{
    pages.sort_unstable_by_key(|page| page.key);
    pages.dedup_by_key(|page| page.key);
}
