//! The work of hashing a page, and what it gives.
ghost use Rattle.std.specs.Prelude.{◌≡◌};
ghost use Rattle.page_jobs.specs.Page.{digest_of, page_view};

use crate::page::Page;
use crate::zeros::zeros_digest;
use rim_desc::{Measurement, PAGE_SIZE, hash};

/// A page that is to be hashed.
#[derive(Drop)]
pub struct PageJob<'a> {
    pub page: Page<'a>,
}

/// A page with the measurement of its own 4096 bytes.
#[derive(Drop)]
pub struct Hashed<'a> {
    pub page: Page<'a>,
    pub digest: Measurement,
    pub ghost own: { digest.bytes ≡ digest_of (page_view page) },
}

impl<'a> PageJob<'a> {
    /// The work of hashing a page.
    pub fn new(page: Page<'a>) -> PageJob<'a>
        ensures { result.page ≡ page.entry }
    {
        PageJob { page }
    }

    /// The page with its measurement, which is known.
    pub fn known(self, digest: Measurement) -> Hashed<'a>
        requires { digest.bytes ≡ digest_of (page_view self.page) }
        ensures page { result.page ≡ self.entry.page }
        ensures digest { result.digest ≡ digest }
    {
        Hashed {
            page: self.page,
            digest,
        }
    }

    /// Hashes the page. A whole page is hashed where it lies, and only a page with zeros before or after its
    /// bytes is copied first. A page without bytes of its item is all zeros, whose measurement is known.
    pub fn run(self) -> Hashed<'a>
        ensures { result.page ≡ self.entry.page }
    {
        let PageJob { page } = self;
        Hashed {
            page,
            digest: page_digest(&page),
        }
    }
}

/// The measurement of a page.
pub(crate) fn page_digest(page: &Page) -> Measurement
    ensures { result.bytes ≡ digest_of (page_view page.now) }
{
    let algo = page.key.algo;
    if page.bytes.is_empty() {
        return zeros_digest(algo);
    }
    if page.bytes.len() == PAGE_SIZE {
        hash(algo, page.bytes)
    } else {
        hash(algo, &page.bytes())
    }
}
