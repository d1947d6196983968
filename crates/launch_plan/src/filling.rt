//! Rows of the digests of a launch's pages.
ghost use Rattle.std.specs.Prelude.{◌≡◌, ◌+◌, ◌^◌, ◌<◌, ◌≤◌, [], length, map, take, true, false, option_map};
ghost use Rattle.std.specs.List.{All, range_with_len};
ghost use Rattle.page_jobs.specs.Table.{digest_at};
ghost use Rattle.launch_plan.specs.Links.{key_after, keys_in, keys_of, page_count};
ghost use Rattle.launch_plan.specs.Rows.{IsFilled, IsRowOf, has_all};
ghost use Rattle.launch_plan.specs.inside.Filling.{AreAdded};
ghost use Rattle.launch_plan.specs.Fitting.{IsFitting};

use crate::link::Link;
use crate::plan::{LaunchPlan, page_count};
use page_jobs::{DigestRow, PageKey, Table};
use rim_desc::Measurement;

impl LaunchPlan {
    /// Fills an empty row with the digests that a table has for the plan's pages, in order; or answers false, and
    /// leaves the row as it was, where the table has none for some page. It takes no memory.
    pub fn fill_row(&self, table: &Table, row: &mut DigestRow) -> bool
        requires empty { row.old.digests ≡ [] }
        requires room { length (keys_of self.now.links) ≤ row.old.room }
        ensures filled { result ≡ true
            → IsRowOf table.now (keys_of self.now.links) row.new.digests }
        ensures size { result ≡ true → IsFilled self.now row.new.digests }
        ensures missing { result ≡ false → has_all table.now (keys_of self.now.links) ≡ false }
        ensures kept { result ≡ false → row.new ≡ row.old }
        ensures room { row.new.room ≡ row.old.room }
    {
        self.fill_row_on(table, 0, row)
    }

    /// The same for a row that has the digests of the plan's first links already: it goes on from there. Where the table has
    /// no digest for some page it empties the row. It searches the table once for each item whose pages are in
    /// neighbouring slots.
    pub fn fill_row_on(&self, table: &Table, links: usize, row: &mut DigestRow) -> bool
        requires within { links ≤ length self.now.links }
        requires begun { IsRowOf table.now (keys_of (take links self.now.links)) row.old.digests }
        requires room { length (keys_of self.now.links) ≤ row.old.room }
        ensures filled { result ≡ true
            → IsRowOf table.now (keys_of self.now.links) row.new.digests }
        ensures size { result ≡ true → IsFilled self.now row.new.digests }
        ensures missing { result ≡ false → has_all table.now (keys_of self.now.links) ≡ false }
        ensures emptied { result ≡ false → row.new.digests ≡ [] }
        ensures room { row.new.room ≡ row.old.room }
    {
        for at in links..self.links().len() {
            if !push_digests(table, &self.links()[at], row) {
                row.truncate(0);
                return false;
            }
        }
        true
    }
}

/// The most measured pages of a plan: a row with room for them can be any plan's.
pub fn most_pages(plans: &[LaunchPlan]) -> usize
    ensures { All (λ v. length (keys_of v.links) ≤ result) plans.now }
{
    let mut most = 0;
    for plan in plans {
        most = most.max(plan.pages());
    }
    most
}

/// Adds the digests of a link's pages to a row that has room for them, or answers false where the table has none for
/// some page.
fn push_digests(table: &Table, link: &Link, row: &mut DigestRow) -> bool
    requires fits { IsFitting link.now }
    requires room { length row.old.digests + page_count link.now ≤ row.old.room }
    ensures added { result ≡ true
        → AreAdded table.now (keys_in link.now) row.old.digests row.new.digests }
    ensures missing { result ≡ false → has_all table.now (keys_in link.now) ≡ false }
    ensures room { row.new.room ≡ row.old.room }
{
    match link {
        Link::Pages { key, count, .. } => push_pages(table, key, *count, row),
        _ => true,
    }
}

/// Adds the digests of this many pages of an item, from the one that has the key on.
fn push_pages(table: &Table, key: &PageKey, count: u64, row: &mut DigestRow) -> bool
    requires fits { key.now.number + count < 2 ^ 64 }
    requires room { length row.old.digests + count ≤ row.old.room }
    ensures added { result ≡ true
        → AreAdded table.now (map (key_after key.now) (range_with_len 0 count)) row.old.digests
        row.new.digests }
    ensures missing { result ≡ false
        → has_all table.now (map (key_after key.now) (range_with_len 0 count)) ≡ false }
    ensures room { row.new.room ≡ row.old.room }
{
    let mut slot = 0;
    for number in 0..count {
        let Some((digest, at)) = digest_near(table, slot, &key_after(key, number)) else {
            return false;
        };
        row.push(digest);
        slot = at.saturating_add(1);
    }
    true
}

/// The digest of the page that has a key, and its slot, which is looked for at a guess first.
fn digest_near(table: &Table, guess: usize, key: &PageKey) -> Option<(Measurement, usize)>
    ensures { option_map (λ found. found.0) result ≡ digest_at table.now key.now }
{
    let slot = table.slot_near(guess, key)?;
    let digest = table.digest(slot)?;
    Some((digest, slot))
}

/// The key of the page n pages after another in the same item.
fn key_after(key: &PageKey, n: u64) -> PageKey
    requires { key.now.number + n < 2 ^ 64 }
    ensures { result ≡ key_after key.now n }
{
    PageKey {
        number: key.number + n,
        ..*key
    }
}
