//! Queries on the plan so far.
ghost use Rattle.std.specs.Prelude.{◌≡◌, ◌*◌, ◌+◌, ◌%◌, ◌≤◌, ◌<◌, ◌^◌, IfNone, IfSome, false, nat_lt, true};
ghost use Rattle.std.specs.List.{list_all, list_any};
ghost use Rattle.rmm_model.specs.Blocks.{granules};
ghost use Rattle.rmm_model.specs.Space.{has, is_ram, overlaps};
ghost use Rattle.rmm_model.specs.Apart.{are_apart};
ghost use Rattle.rtt_plan.specs.inside.PageRanges.{IsRamTo, are_pages, pages_of};
ghost use Rattle.rim_desc.specs.declared.page.TheConstants.{PAGE_SIZE};

use rim_desc::GRANULE_SIZE;
use std::collections::BTreeMap;

/// Whether some address from `base` on and below `top` is in one of some ranges in order: the last of those that begin
/// below `top` decides.
pub fn overlaps(ranges: &BTreeMap<u64, u64>, base: u64, top: u64) -> bool
    requires { are_apart 0 ranges.now.entries ≡ true }
    ensures { result ≡ overlaps ranges.now.entries base top }
{
    match ranges.range(..top).next_back() {
        Some((_, end)) => base < *end,
        None => false,
    }
}

/// The end of the range of RAM that holds an address.
fn ram_end(ram: &BTreeMap<u64, u64>, ipa: u64) -> Option<u64>
    requires apart { are_apart 0 ram.now.entries ≡ true }
    requires whole { are_pages ram.now.entries ≡ true }
    ensures none { IfNone result (is_ram ram.now.entries ipa ≡ false) }
    ensures some { IfSome result (λ top. IsRamTo ram.now.entries ipa top) }
{
    match ram.range(..=ipa).next_back() {
        Some((_, top)) => { if ipa < *top { Some(*top) } else { None } }
        None => None,
    }
}

/// Whether `count` pages from `base` on end past an address.
pub fn ends_past(end: u64, base: u64, count: u64) -> bool
    ensures { result ≡ nat_lt end (base + PAGE_SIZE * count) }
{
    base > end || (end - base) / GRANULE_SIZE < count
}

/// Whether `count` pages from `base` on are all RAM. It goes from range to range, and no page is visited.
pub fn all_ram(ram: &BTreeMap<u64, u64>, base: u64, count: u64) -> bool
    requires apart { are_apart 0 ram.now.entries ≡ true }
    requires whole { are_pages ram.now.entries ≡ true }
    requires at { base % PAGE_SIZE ≡ 0 }
    requires small { base + PAGE_SIZE * count ≤ 2 ^ 47 }
    ensures { result ≡ list_all (is_ram ram.now.entries) (granules count base) }
{
    let end = base + GRANULE_SIZE * count;
    let mut x = base;
    while x < end {
        match ram_end(ram, x) {
            Some(top) => x = top,
            None => return false,
        }
    }
    true
}

/// Whether one of `count` pages from `base` on is in a range of pages. Ranges are compared, and no page is visited.
pub fn any_assigned(assigned: &BTreeMap<u64, u64>, base: u64, count: u64) -> bool
    requires apart { are_apart 0 assigned.now.entries ≡ true }
    requires whole { are_pages assigned.now.entries ≡ true }
    requires at { base % PAGE_SIZE ≡ 0 }
    requires some { 1 ≤ count }
    requires small { base + PAGE_SIZE * count ≤ 2 ^ 47 }
    ensures { result ≡ list_any (has (pages_of assigned.now.entries)) (granules count base) }
{
    overlaps(assigned, base, base + GRANULE_SIZE * count)
}
