//! Pages: their keys, and the bytes of an item that fall in them, which are lent.
ghost use Rattle.std.specs.Prelude.{◌≡◌, ◌+◌, ◌^◌, ◌<◌, ◌≤◌, ◌↔◌, IsTrue, length};
ghost use Rattle.rim_desc.specs.PageBytes.{page_bytes};
ghost use Rattle.page_jobs.specs.Lent.{front_of, lent_of};
ghost use Rattle.rim_desc.specs.declared.page.TheConstants.{PAGE_SIZE};

use rim_desc::{Algo, GRANULE_SIZE, PAGE_SIZE, Source, put, zero_page};

/// What distinguishes a page from all others. Keys are ordered by their fields, in this order.
#[derive(Clone, Copy, Debug, PartialEq, Eq, PartialOrd, Ord)]
pub struct PageKey {
    /// The algorithm that hashes it.
    pub algo: Algo,
    /// Where its item's bytes come from.
    pub source: Source,
    /// The offset of the item's first byte in its first page, in bytes.
    pub lead: u64,
    /// Its number among the item's pages, from 0 on.
    pub number: u64,
}

/// The bytes of an item, lent.
#[derive(Clone, Copy)]
pub struct Blob<'a> {
    pub bytes: &'a [u8],
    /// Where they come from.
    pub source: Source,
    /// The offset of the first byte in its page, in bytes.
    pub lead: u64,
    pub ghost inside: { lead < PAGE_SIZE },
}

/// A page of 4096 bytes. An item's first page begins with as many zeros as the lead, and zeros fill what
/// is after the item's bytes.
#[derive(Clone, Copy)]
pub struct Page<'a> {
    pub key: PageKey,
    /// The bytes of the item that fall in the page, lent.
    pub bytes: &'a [u8],
    pub ghost fits: { front_of key.lead key.number + length bytes.now ≤ PAGE_SIZE },
}

impl<'a> Blob<'a> {
    ghost use Rattle.page_jobs.specs.Page.{bytes_of_page, page_of, page_view};

    /// The bytes of a source, which begin `lead` bytes after the start of a page.
    pub fn new(source: Source, lead: u64, bytes: &'a [u8]) -> Blob<'a>
        requires { lead < PAGE_SIZE }
        ensures source { result.source ≡ source }
        ensures lead { result.lead ≡ lead }
        ensures bytes { result.bytes ≡ bytes.entry }
    {
        Blob {
            bytes,
            source,
            lead,
        }
    }

    /// A page of these bytes, for an algorithm that is to hash it.
    pub fn page(self, algo: Algo, number: u64) -> Page<'a>
        requires { number < 2 ^ 52 }
        ensures page { page_view result
            ≡ page_of algo self.entry.source self.entry.lead self.entry.bytes.now number }
        ensures contents { bytes_of_page (page_view result)
            ≡ page_bytes self.entry.lead self.entry.bytes.now number }
    {
        let key = PageKey {
            algo,
            source: self.source,
            lead: self.lead,
            number,
        };
        Page {
            key,
            bytes: lent_bytes(self.bytes, self.lead, number),
        }
    }
}

/// The zeros in front of an item's bytes in one of its pages.
fn front(lead: u64, number: u64) -> usize
    requires { lead < 2 ^ 64 }
    ensures { result ≡ front_of lead number }
{
    if number == 0 { lead as usize } else { 0 }
}

/// The bytes of an item that fall in one of its pages.
fn lent_bytes<'a>(bytes: &'a [u8], lead: u64, number: u64) -> &'a [u8]
    requires lead { lead < PAGE_SIZE }
    requires number { number < 2 ^ 52 }
    ensures { result.now ≡ lent_of lead bytes.now number }
{
    let start = (GRANULE_SIZE * number).saturating_sub(lead);
    let start = start.min(bytes.len() as u64) as usize;
    let (_, rest) = bytes.split_at(start);
    let room = PAGE_SIZE - front(lead, number);
    let (lent, _) = rest.split_at(room.min(rest.len()));
    lent
}

impl<'a> Page<'a> {
    ghost use Rattle.page_jobs.specs.Page.{bytes_of_page, page_view};

    /// Whether two pages have the same key and the same lent bytes.
    pub fn is_same(&self, other: &Page) -> bool
        ensures { IsTrue result ↔ (page_view self.now ≡ page_view other.now) }
    {
        self.key == other.key && self.bytes == other.bytes
    }

    /// The 4096 bytes of the page.
    pub fn bytes(&self) -> [u8; PAGE_SIZE]
        ensures { result ≡ bytes_of_page (page_view self.now) }
    {
        let mut bytes = zero_page();
        put(
            &mut bytes,
            front(self.key.lead, self.key.number),
            self.bytes,
        );
        bytes
    }
}
