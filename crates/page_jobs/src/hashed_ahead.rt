//! Pages of a list that are hashed before they are asked for.
ghost use Rattle.std.specs.Prelude.{map, drop};
ghost use Rattle.page_jobs.specs.Group.{AreDigests, digests_in};
ghost use Rattle.page_jobs.specs.Page.{page_view};

use crate::group::GroupDigests;
use crate::page::Page;
use crate::side_by_side::hash_group;
use rim_desc::{Algo, Lanes, Measurement};

/// The pages of a list, which are lent, and the digests of those that were hashed last.
///
/// With a page that is asked for, those after it are hashed as far as they go side by side, since they are most often asked
/// for next. The pages are in groups of neighbours. A page within a group, which does not follow on those that were hashed
/// last, is hashed alone: another thread has most likely begun its group.
#[derive(Drop)]
pub struct HashedAhead<'a> {
    pub pages: &'a [Page<'a>],
    lanes: Lanes,
    /// The page that the first of the digests is of.
    first: usize,
    group: GroupDigests,
    ghost own: { AreDigests (drop first (map page_view pages.now)) (digests_in group) },
}

impl<'a> HashedAhead<'a> {
    ghost use Rattle.std.specs.Prelude.{◌≡◌, ◌<◌, length, map, slice_get, IfSome};
    ghost use Rattle.page_jobs.specs.Page.{digest_of, page_view};

    /// None of these pages is hashed yet.
    pub fn new(pages: &'a [Page<'a>], lanes: Lanes) -> HashedAhead<'a>
        ensures { result.pages ≡ pages.entry }
    {
        HashedAhead {
            pages,
            lanes,
            first: 0,
            group: GroupDigests::none(),
        }
    }

    /// The measurement of a page, by its number in the list. It is hashed unless that was done before.
    pub fn digest(&mut self, number: usize) -> Measurement
        requires { number < length self.old.pages.now }
        ensures digest { IfSome (slice_get (map page_view self.old.pages.now) number)
            (λ p. result.bytes ≡ digest_of p) }
        ensures pages { self.new.pages ≡ self.old.pages }
    {
        if let Some(digest) = self.known(number) {
            return digest;
        }
        self.hash_from(number)
    }

    /// The measurement of a page that was hashed last.
    fn known(&self, number: usize) -> Option<Measurement>
        ensures { IfSome result (λ m. IfSome (slice_get (map page_view self.now.pages.now) number)
            (λ p. m.bytes ≡ digest_of p)) }
    {
        self.group.get(number.checked_sub(self.first)?)
    }

    /// Hashes a page, and those after it that go with it.
    fn hash_from(&mut self, number: usize) -> Measurement
        requires { number < length self.old.pages.now }
        ensures digest { IfSome (slice_get (map page_view self.old.pages.now) number)
            (λ p. result.bytes ≡ digest_of p) }
        ensures pages { self.new.pages ≡ self.old.pages }
    {
        let (_, rest) = self.pages.split_at(number);
        let (group, _) = rest.split_at(self.reach(number).min(rest.len()));
        self.first = number;
        self.group = hash_group(group, self.lanes);
        self.group.all[0]
    }

    /// How many pages from one on may go with it.
    fn reach(&self, number: usize) -> usize
        ensures { 0 < result }
    {
        let wide = self.lanes.count(Algo::Sha256);
        let within = number % wide;
        let follows = number == self.first.saturating_add(self.group.count);
        if within == 0 || follows {
            wide - within
        } else {
            1
        }
    }
}
