//! Neighbours in a list of pages, hashed side by side.
ghost use Rattle.std.specs.Prelude.{◌≡◌, ◌<◌, ◌≤◌, ◌↔◌, length, map, slice_get, IsTrue, IfSome};
ghost use Rattle.page_jobs.specs.Group.{AreDigests, digests_in};
ghost use Rattle.page_jobs.specs.Page.{digest_of, page_view};
ghost use Rattle.page_jobs.specs.inside.Lanes.{AreWhole, IsWhole};
ghost use Rattle.rim_desc.specs.declared.page.TheConstants.{PAGE_SIZE};

use crate::group::{GroupDigests, NONE};
use crate::hashed::page_digest;
use crate::page::Page;
use rim_desc::{Algo, Lanes, MOST_LANES, PAGE_SIZE, hash_each};

/// How many messages by an algorithm are hashed side by side where there are fewer than eight.
const FOUR: usize = 4;

/// Hashes the first of some pages: as many as go side by side, and at least one where there is one. Whole pages by one
/// algorithm go side by side. A page with zeros before or after its item's bytes is hashed alone.
pub fn hash_group(pages: &[Page], lanes: Lanes) -> GroupDigests
    ensures some { 0 < length pages.now → 0 < result.count }
    ensures digests { AreDigests (map page_view pages.now) (digests_in result) }
{
    let Some(first) = pages.first() else {
        return GroupDigests::none();
    };
    let algo = first.key.algo;
    let count = whole_pages(pages, algo, lanes.count(algo));
    if count < 2 {
        return alone(first);
    }
    group_of(pages, algo, count)
}

/// The measurement of a page that is hashed alone.
fn alone(page: &Page) -> GroupDigests
    ensures one { result.count ≡ 1 }
    ensures digest { IfSome (slice_get result.all 0)
        (λ m. m.bytes ≡ digest_of (page_view page.now)) }
{
    let mut all = [NONE; MOST_LANES];
    all[0] = page_digest(page);
    GroupDigests { all, count: 1 }
}

/// How many of the first of some pages are whole and by an algorithm, up to a number.
fn whole_pages(pages: &[Page], algo: Algo, most: usize) -> usize
    ensures within { result ≤ length pages.now }
    ensures most { result ≤ most }
    ensures whole { AreWhole algo (map page_view pages.now) result }
{
    let room = most.min(pages.len());
    for i in 0..room {
        if !is_whole(&pages[i], algo) {
            return i;
        }
    }
    room
}

/// Whether a page is by an algorithm, and all its bytes are its item's.
fn is_whole(page: &Page, algo: Algo) -> bool
    ensures { IsTrue result ↔ IsWhole algo (page_view page.now) }
{
    page.key.algo == algo && page.bytes.len() == PAGE_SIZE
}

/// The measurements of the first pages, which are whole. Where a group is not full the last page fills it.
fn group_of(pages: &[Page], algo: Algo, count: usize) -> GroupDigests
    requires some { 0 < count }
    requires most { count ≤ 8 }
    requires within { count ≤ length pages.now }
    requires whole { AreWhole algo (map page_view pages.now) count }
    ensures some { result.count ≡ count }
    ensures digests { AreDigests (map page_view pages.now) (digests_in result) }
{
    let lanes = [
        lane(pages, algo, count, 0),
        lane(pages, algo, count, 1),
        lane(pages, algo, count, 2),
        lane(pages, algo, count, 3),
        lane(pages, algo, count, 4),
        lane(pages, algo, count, 5),
        lane(pages, algo, count, 6),
        lane(pages, algo, count, 7),
    ];
    let used = if count > FOUR { MOST_LANES } else { FOUR };
    let mut all = [NONE; MOST_LANES];
    hash_each(algo, &lanes[..used], PAGE_SIZE, &mut all[..used]);
    GroupDigests { all, count }
}

/// The bytes of page `k` of the first pages, or of the last of them.
fn lane<'a>(pages: &[Page<'a>], algo: Algo, count: usize, k: usize) -> &'a [u8]
    requires some { 0 < count }
    requires within { count ≤ length pages.now }
    requires whole { AreWhole algo (map page_view pages.now) count }
    ensures size { length result.now ≡ PAGE_SIZE }
    ensures own { k < count
        → IfSome (slice_get (map page_view pages.now) k) (λ p. result.now ≡ p.bytes) }
{
    let last = count - 1;
    pages[k.min(last)].bytes
}
