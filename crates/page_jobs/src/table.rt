//! The table of digests: a slot for each of the pages of a run, in the order of their keys.
ghost use Rattle.std.specs.Prelude.{◌≡◌, ◌<◌, length, map, replicate, None, Some, IfOk, OnOk, OnErr, IfErr, IfSome, IsTrue, ◌↔◌, true, slice_get};
ghost use Rattle.page_jobs.specs.Key.{IsRising, key_cmp};
ghost use Rattle.page_jobs.specs.Page.{digest_of, page_view};
ghost use Rattle.page_jobs.specs.Table.{CanFill, IsTable, digest_at, digest_in, page_keys_of, page_at, slot_of, with_digest};

use crate::hashed::Hashed;
use crate::page::{Page, PageKey};
use rim_desc::{Measurement, NoMemory};
use std::alloc::Global;
use std::cmp::Ordering;
use std::marker::Model;

/// The digests of a list of pages, each in the slot of its page. Slots are empty at first.
#[derive(Drop)]
pub struct Table<'a> {
    pages: &'a [Page<'a>],
    digests: Vec<Option<Measurement>>,
}

impl<'a> Model for Table<'a> {
    ghost use Rattle.std.specs.Prelude.{map};
    ghost use Rattle.page_jobs.specs.Page.{page_view};
    ghost use Rattle.page_jobs.specs.Table.{TableView, IsTable};

    ghost Value = { TableView };

    ghost view = { λ t. record { pages = map page_view t.pages.now; digests = t.digests.items } };

    ghost invariant = { λ t. IsTable
        (record { pages = map page_view t.pages.now; digests = t.digests.items }) };
}

impl<'a> Table<'a> {
    /// A table for these pages, with all slots empty. One for no pages takes no memory.
    pub fn reserve(alloc: Global, pages: &'a [Page<'a>]) -> Result<Table<'a>, NoMemory>
        requires { IsRising (page_keys_of (map page_view pages.now)) }
        ensures pages { IfOk result (λ t. t.pages ≡ map page_view pages.entry.now) }
        ensures empty { IfOk result (λ t. t.digests ≡ replicate (length pages.entry.now) None) }
        ensures growth { OnErr result (0 < length pages.entry.now) }
    {
        let digests = empty_slots(alloc, pages.len())?;
        Ok(Table { pages, digests })
    }

    /// The pages that it was reserved for. Their keys rise, and each has a slot.
    pub fn pages(&self) -> &'a [Page<'a>]
        ensures pages { map page_view result.now ≡ self.now.pages }
        ensures table { IsTable self.now }
    {
        self.pages
    }

    /// Whether a slot is this page's.
    pub fn is_page(&self, slot: usize, page: &Page) -> bool
        ensures { IsTrue result ↔ (slice_get self.now.pages slot ≡ Some (page_view page.now)) }
    {
        slot < self.pages.len() && self.pages[slot].is_same(page)
    }

    /// Keeps a digest in the slot of its page, or hands it back where no such slot exists, the slot is
    /// another page's, or it is filled.
    pub fn fill(&mut self, slot: usize, hashed: Hashed<'a>) -> Result<(), Hashed<'a>>
        ensures ok { OnOk result (CanFill self.old slot (page_view hashed.entry.page)
            × (self.new ≡ with_digest self.old slot hashed.entry.digest)) }
        ensures err { IfErr result (λ h. (h ≡ hashed.entry) × (self.new ≡ self.old)
            × ¬ CanFill self.old slot (page_view hashed.entry.page)) }
    {
        if !self.is_page(slot, &hashed.page) || self.digests[slot].is_some() {
            return Err(hashed);
        }
        self.keep(slot, hashed);
        Ok(())
    }

    /// Keeps a digest in the slot of its page, which is empty. Nothing is compared.
    pub fn keep(&mut self, slot: usize, hashed: Hashed<'a>)
        requires { CanFill self.old slot (page_view hashed.page) }
        ensures { self.new ≡ with_digest self.old slot hashed.entry.digest }
    {
        self.digests[slot] = Some(hashed.digest);
    }

    /// The slot of the page that has a key.
    pub fn slot_of(&self, key: &PageKey) -> Option<usize>
        ensures { result ≡ slot_of self.now.pages key.now }
    {
        search(self.pages, key)
    }

    /// The slot of the page that has a key. The guess is looked at first; where it is right no slot is searched for.
    /// The slot of an item's next page is the next one.
    pub fn slot_near(&self, guess: usize, key: &PageKey) -> Option<usize>
        ensures { result ≡ slot_of self.now.pages key.now }
    {
        if self.has_key(guess, key) {
            Some(guess)
        } else {
            self.slot_of(key)
        }
    }

    /// Whether the page of a slot has a key.
    fn has_key(&self, slot: usize, key: &PageKey) -> bool
        ensures { result ≡ true → slot_of self.now.pages key.now ≡ Some slot }
    {
        match self.pages.get(slot) {
            Some(page) => is_key(page, key),
            None => false,
        }
    }

    /// The digest in a slot, where such a slot exists and is filled.
    pub fn digest(&self, slot: usize) -> Option<Measurement>
        ensures value { result ≡ digest_in self.now slot }
        ensures own { IfSome result
            (λ m. IfSome (slice_get self.now.pages slot) (λ p. m.bytes ≡ digest_of p)) }
    {
        *self.digests.get(slot)?
    }

    /// The digest of the page that has a key, where such a page exists and its slot is filled.
    pub fn get(&self, key: &PageKey) -> Option<Measurement>
        ensures value { result ≡ digest_at self.now key.now }
        ensures own { IfSome result (λ m. IfSome (page_at self.now key.now)
            (λ p. (p.key ≡ key.now) × (m.bytes ≡ digest_of p))) }
    {
        let slot = self.slot_of(key)?;
        self.digest(slot)
    }
}

/// As many empty slots.
fn empty_slots(alloc: Global, count: usize) -> Result<Vec<Option<Measurement>>, NoMemory>
    ensures empty { IfOk result (λ slots. slots.items ≡ replicate count None) }
    ensures growth { OnErr result (0 < count) }
{
    if count == 0 {
        return Ok(Vec::new(alloc));
    }
    Ok(vec![in alloc; None; count]?)
}

/// The place of the page that has a key, in a list whose keys rise.
fn search(pages: &[Page], key: &PageKey) -> Option<usize>
    requires { IsRising (page_keys_of (map page_view pages.now)) }
    ensures { result ≡ slot_of (map page_view pages.now) key.now }
{
    pages.binary_search_by(|page| compare(page, key)).ok()
}

/// Whether a page has a key.
fn is_key(page: &Page, key: &PageKey) -> bool
    ensures { IsTrue result ↔ (page.now.key ≡ key.now) }
{
    page.key == *key
}

/// The order of a page's key and a key.
fn compare(page: &Page, key: &PageKey) -> Ordering
    ensures { result ≡ key_cmp (page_view page.now).key key.now }
{
    page.key.cmp(key)
}
