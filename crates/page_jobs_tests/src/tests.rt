//! The item of most tests of pages has 4097 bytes, of which byte i is (7 * i + 3) mod 251.
mod descriptors;
mod pages;
mod tables;

ghost use Rattle.std.specs.Prelude.{map, IfOk};
ghost use Rattle.page_jobs.specs.Key.{IsRising};
ghost use Rattle.page_jobs.specs.Page.{page_view};
ghost use Rattle.page_jobs.specs.Table.{page_keys_of};

use crate::distinct_pages;
use page_jobs::{Blob, Page, PageJob, PageKey};
use rim_desc::{Algo, Measurement, Source};
use std::alloc::{AllocError, Global};
use std::process::Abort;

fn check(rt: &impl Abort, holds: bool, name: &str) {
    assert!(rt; holds, "{name}");
}

/// Bytes of which byte i is (factor * i + first) mod 251.
fn counted(alloc: Global, count: u32, factor: u32, first: u32) -> Result<Vec<u8>, AllocError> {
    let mut bytes = Vec::new(alloc);
    for i in 0..count {
        bytes.push((factor.wrapping_mul(i).wrapping_add(first) % 251) as u8)?;
    }
    Ok(bytes)
}

fn item(alloc: Global) -> Result<Vec<u8>, AllocError> {
    counted(alloc, 4097, 7, 3)
}

/// A page: the algorithm, the source, the lead, which is below 4096, and the number, which is below 2^52.
type Row = (Algo, Source, u16, u64);

fn page_of<'a>(item: &'a [u8], row: &Row) -> Page<'a> {
    let (algo, source, lead, number) = *row;
    let lead = u64::from(lead.min(4095));
    Blob::new(source, lead, item).page(algo, number.min((1 << 52) - 1))
}

fn key_of(row: &Row) -> PageKey {
    let (algo, source, lead, number) = *row;
    PageKey {
        algo,
        source,
        lead: u64::from(lead),
        number,
    }
}

/// The pages in the order of their keys, each once.
fn pages_of<'a>(alloc: Global, item: &'a [u8], rows: &[Row]) -> Result<Vec<Page<'a>>, AllocError>
    ensures { IfOk result (λ pages. IsRising (page_keys_of (map page_view pages.items))) }
{
    let mut pages = Vec::new(alloc);
    for row in rows {
        pages.push(page_of(item, row))?;
    }
    distinct_pages(&mut pages);
    Ok(pages)
}

/// The digest of a page alone.
fn digest_of(page: Page) -> Measurement {
    PageJob::new(page).run().digest
}
