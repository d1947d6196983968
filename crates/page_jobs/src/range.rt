//! Neighbouring pages of items.
ghost use Rattle.std.specs.Prelude.{◌≡◌, IfOk};
ghost use Rattle.std.specs.List.{flat_map};
ghost use Rattle.page_jobs.specs.Key.{rising_keys};
ghost use Rattle.page_jobs.specs.Ranges.{keys_before, range_keys, with_number};
ghost use Rattle.page_jobs.specs.inside.Fresh.{fresh_from, fresh_range, is_item};

use crate::page::PageKey;
use rim_desc::NoMemory;
use std::alloc::Global;

/// Neighbouring pages of an item: this many, of which the first has the key.
#[derive(Clone, Copy, Debug, PartialEq, Eq)]
pub struct KeyRange {
    pub first: PageKey,
    pub count: u64,
}

/// The different pages of some items, in the order of their keys, each page once. An item is given by the key after
/// its last page, and has pages from number 0 on; items of one source and lead share their pages.
pub fn distinct_ranges(alloc: Global, ends: Vec<PageKey>) -> Result<Vec<KeyRange>, NoMemory>
    ensures { IfOk result (λ ranges. flat_map range_keys ranges.items
        ≡ rising_keys (flat_map keys_before ends.items)) }
{
    let mut ends = ends;
    ends.sort_unstable();
    let mut ranges = Vec::with_capacity(alloc, ends.len())?;
    let mut last = None;
    for end in &ends {
        ranges.push(fresh_range(last, end))?;
        last = Some(*end);
    }
    Ok(ranges)
}

/// The pages of an item that are not pages of the item before it, in the order of ends.
fn fresh_range(last: Option<PageKey>, end: &PageKey) -> KeyRange
    ensures { result ≡ fresh_range last end.now }
{
    let from = fresh_from(last, end);
    KeyRange {
        first: with_number(end, from),
        count: end.number.saturating_sub(from),
    }
}

/// The number of the first page that is not a page of the item before.
fn fresh_from(last: Option<PageKey>, end: &PageKey) -> u64
    ensures { result ≡ fresh_from last end.now }
{
    match last {
        Some(last) if is_item(&last, end) => last.number,
        _ => 0,
    }
}

/// Whether two keys are of pages of one item.
fn is_item(a: &PageKey, b: &PageKey) -> bool
    ensures { result ≡ is_item a.now b.now }
{
    with_number(a, 0).cmp(&with_number(b, 0)).is_eq()
}

/// The key of a page of the same item, by its number.
fn with_number(key: &PageKey, number: u64) -> PageKey
    ensures { result ≡ with_number key.now number }
{
    PageKey { number, ..*key }
}
