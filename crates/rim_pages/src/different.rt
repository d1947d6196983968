//! The different measured pages of a release.
ghost use Rattle.std.specs.Prelude.{◌≡◌, ◌++◌, IfOk, OnOk, length, map, option_map};
ghost use Rattle.std.specs.List.{All, flat_map};
ghost use Rattle.refusal.specs.Answer.{Answers};
ghost use Rattle.ipa_layout.specs.Files.{bytes_of_files};
ghost use Rattle.page_jobs.specs.Page.{page_named, page_view};
ghost use Rattle.page_jobs.specs.Ranges.{range_keys};
ghost use Rattle.rim_accepted.specs.Outcomes.{place_of};
ghost use Rattle.rim_pages.specs.Pages.{edited_at, pages_of, source_bytes};
ghost use Rattle.rim_pages.specs.inside.Ends.{outcome_ends};
ghost use Rattle.rim_pages.specs.inside.Sources.{IsUsable};

use crate::fault::StartFault;
use crate::measured::{page_count, push_launch};
use page_jobs::{Blob, KeyRange, Page, PageKey, distinct_ranges};
use refusal::NoMemory;
use rim_accepted::{AcceptedLaunch, AcceptedRelease, RefusedLaunch};
use rim_desc::Source;
use std::alloc::{AllocError, Global};

/// The most different measured pages of a release: 1,048,576. This project's choice.
pub const DISTINCT_LIMIT: u64 = 1_048_576;

/// The different measured pages of the launches that are accepted, in the order of their keys. No byte is copied, and no
/// page is looked at twice, however many launches measure it.
pub fn pages<'a>(
    alloc: Global,
    accepted: &'a AcceptedRelease<'_>,
) -> Result<Vec<Page<'a>>, StartFault>
    ensures { Answers StartFault.NoMemory (λ pages. map page_view pages.items) result
        (pages_of accepted.entry.now.files accepted.entry.now.release.launches) }
{
    let outcomes = accepted.outcomes();
    let ends = ends(alloc, outcomes)?;
    let ranges = distinct_ranges(alloc, ends)?;
    let count = page_count(&ranges);
    if count > u128::from(DISTINCT_LIMIT) {
        return Err(StartFault::TooManyPages);
    }
    Ok(pages_in(alloc, count as usize, &ranges, outcomes, accepted.files())?)
}

/// The measured items of the launches that are accepted, each by the key after its last page.
fn ends(
    alloc: Global,
    outcomes: &[Result<AcceptedLaunch<'_>, RefusedLaunch<'_>>],
) -> Result<Vec<PageKey>, AllocError>
    ensures { IfOk result (λ ends. ends.items ≡ flat_map outcome_ends outcomes.now) }
{
    let mut ends = Vec::new(alloc);
    for outcome in outcomes {
        push_outcome(&mut ends, outcome)?;
    }
    Ok(ends)
}

/// Adds the measured items of a launch, if it is accepted.
fn push_outcome(
    ends: &mut Vec<PageKey>,
    outcome: &Result<AcceptedLaunch<'_>, RefusedLaunch<'_>>,
) -> Result<(), AllocError>
    ensures { OnOk result (ends.new.items ≡ ends.old.items ++ outcome_ends outcome.now) }
{
    match outcome {
        Ok(accepted) => push_launch(ends, accepted),
        Err(_) => Ok(()),
    }
}

/// The pages of some ranges, this many in all.
fn pages_in<'a>(
    alloc: Global,
    count: usize,
    ranges: &[KeyRange],
    outcomes: &'a [Result<AcceptedLaunch<'_>, RefusedLaunch<'_>>],
    files: &'a [Vec<u8>],
) -> Result<Vec<Page<'a>>, NoMemory>
    requires { All IsUsable ranges.now }
    ensures { IfOk result (λ pages. map page_view pages.items
        ≡ map (page_named (source_bytes (bytes_of_files files.entry.now)
        (map place_of outcomes.entry.now))) (flat_map range_keys ranges.now)) }
{
    let mut pages = Vec::with_capacity(alloc, count)?;
    for range in ranges {
        let bytes = source_bytes(files, outcomes, range.first.source);
        push_range(&mut pages, range, bytes)?;
    }
    Ok(pages)
}

/// Adds neighbouring pages of the item that has these bytes.
fn push_range<'a>(
    pages: &mut Vec<Page<'a>>,
    range: &KeyRange,
    bytes: &'a [u8],
) -> Result<(), NoMemory>
    requires { IsUsable range.now }
    ensures { OnOk result (map page_view pages.new.items
        ≡ map page_view pages.old.items
        ++ map (page_named (λ source. bytes.entry.now)) (range_keys range.now)) }
{
    if range.count == 0 {
        return Ok(());
    }
    let first = range.first;
    let blob = Blob::new(first.source, first.lead, bytes);
    for index in 0..range.count {
        pages.push(blob.page(first.algo, first.number + index))?;
    }
    Ok(())
}

/// The bytes of a source of the release: a file, or the devicetree that a launch edited.
fn source_bytes<'a>(
    files: &'a [Vec<u8>],
    outcomes: &'a [Result<AcceptedLaunch<'_>, RefusedLaunch<'_>>],
    source: Source,
) -> &'a [u8]
    ensures { result.now ≡ source_bytes (bytes_of_files files.entry.now)
        (map place_of outcomes.entry.now) source }
{
    match source {
        Source::File(number) => match files.get(number) {
            Some(bytes) => bytes.as_slice(),
            None => &[],
        },
        Source::Edited(launch) => edited_at(outcomes.get(launch)),
    }
}

/// The devicetree that a launch edited, if it is accepted and has one.
fn edited_at<'a>(outcome: Option<&'a Result<AcceptedLaunch<'_>, RefusedLaunch<'_>>>) -> &'a [u8]
    ensures { result.now ≡ edited_at (option_map (λ r. place_of r.now) outcome.entry) }
{
    match outcome {
        Some(Ok(accepted)) => accepted.placed().edited().unwrap_or(&[]),
        _ => &[],
    }
}
