//! Tables and rows.
ghost use Rattle.std.specs.Prelude.{map, IfOk};
ghost use Rattle.page_jobs.specs.Key.{IsRising};
ghost use Rattle.page_jobs.specs.Page.{page_view};
ghost use Rattle.page_jobs.specs.Table.{page_keys_of};

use super::{Row, check, digest_of, item, key_of, page_of, pages_of};
use crate::distinct_pages;
use page_jobs::{DigestRow, Page, PageJob, PageKey, Table};
use rim_desc::{Algo, Measurement, Source};
use std::alloc::{AllocError, Global};
use std::process::Abort;
use std::test::Fail;

fn check_get(rt: &impl Abort, table: &Table, key: &PageKey, digest: Option<Measurement>) {
    assert!(rt; table.get(key) == digest, "{key:?}");
}

/// The slot of a key, also where the slot or the next one is guessed.
fn check_place(rt: &impl Abort, table: &Table, key: &PageKey, slot: usize) {
    let found = [
        table.slot_of(key),
        table.slot_near(slot, key),
        table.slot_near(slot.saturating_add(1), key),
    ];
    assert!(rt; found == [Some(slot); 3], "slot {slot}");
}

/// Whether a page's digest is accepted.
fn put<'a>(table: &mut Table<'a>, slot: usize, page: Page<'a>) -> bool {
    table.fill(slot, PageJob::new(page).run()).is_ok()
}

/// A page is put into its empty slot, once.
fn check_slot<'a>(rt: &impl Abort, table: &mut Table<'a>, slot: usize, page: Page<'a>) {
    check(rt, table.digest(slot).is_none(), "the slot is empty");
    check_get(rt, table, &page.key, None);
    check(rt, put(table, slot, page), "a first result is kept");
    check(rt, !put(table, slot, page), "a second one is handed back");
    check_get(rt, table, &page.key, Some(digest_of(page)));
    check_place(rt, table, &page.key, slot);
}

fn check_missing(rt: &impl Abort, table: &Table, rows: &[Row]) {
    for row in rows {
        check_get(rt, table, &key_of(row), None);
    }
}

/// Each page of a table is put into its slot. The others are pages that it does not have.
fn check_table(
    rt: &impl Abort,
    alloc: Global,
    item: &[u8],
    rows: &[Row],
    others: &[Row],
) -> Result<(), Fail> {
    let pages = pages_of(alloc, item, rows)?;
    let mut table = Table::reserve(alloc, &pages)?;
    check(rt, table.pages().len() == rows.len(), "pages");
    for slot in 0..pages.len() {
        check_slot(rt, &mut table, slot, pages[slot]);
    }
    check_missing(rt, &table, others);
    Ok(())
}

/// Pages in the order of their keys.
const FOUR: [Row; 4] = [
    (Algo::Sha256, Source::File(0), 0, 0),
    (Algo::Sha256, Source::File(0), 0, 1),
    (Algo::Sha256, Source::File(0), 4, 0),
    (Algo::Sha512, Source::File(0), 0, 0),
];

const OTHERS: [Row; 2] = [
    (Algo::Sha512, Source::File(0), 4, 0),
    (Algo::Sha256, Source::File(0), 0, 2),
];

const FIRST: [Row; 1] = [(Algo::Sha256, Source::File(0), 0, 0)];

#[test]
fn digests_are_kept_in_their_slots(rt: HostRuntime) -> Result<(), Fail> {
    let item = item(rt.alloc())?;
    check_table(&rt, rt.alloc(), &item, &FOUR, &OTHERS)?;
    check_table(&rt, rt.alloc(), &[7], &FIRST, &[])?;
    check_table(&rt, rt.alloc(), &[], &[], &FIRST)
}

/// A result that is handed back: the slot, the bytes of the item from the first to the first that is not taken, and
/// their page.
type Stranger = (usize, usize, usize, Row);

const TWO: [Row; 2] = [
    (Algo::Sha256, Source::File(0), 0, 0),
    (Algo::Sha256, Source::File(0), 0, 1),
];

const STRANGERS: [Stranger; 9] = [
    // another page's slot
    (0, 0, 4097, (Algo::Sha256, Source::File(0), 0, 1)),
    // an equal key, and other bytes or fewer
    (0, 1, 4097, (Algo::Sha256, Source::File(0), 0, 0)),
    (0, 0, 4095, (Algo::Sha256, Source::File(0), 0, 0)),
    // equal bytes, and another source, lead or algorithm
    (0, 0, 4097, (Algo::Sha256, Source::File(1), 0, 0)),
    (1, 4096, 4097, (Algo::Sha256, Source::File(0), 4095, 0)),
    (0, 0, 4097, (Algo::Sha256, Source::Edited(0), 0, 0)),
    (0, 0, 4097, (Algo::Sha512, Source::File(0), 0, 0)),
    // no slot
    (2, 0, 4097, (Algo::Sha256, Source::File(0), 0, 0)),
    (usize::MAX, 0, 4097, (Algo::Sha256, Source::File(0), 0, 0)),
];

/// A table without pages has no slot.
const NO_SLOT: [Stranger; 1] = [(0, 0, 1, (Algo::Sha256, Source::File(0), 0, 0))];

fn check_stranger<'a>(
    rt: &impl Abort,
    table: &mut Table<'a>,
    item: &'a [u8],
    row: &Stranger,
) -> Result<(), Fail> {
    let (slot, from, to, page) = row;
    let part = item.get(*from..*to).ok_or("bytes of the item")?;
    let is_kept = put(table, *slot, page_of(part, page));
    assert!(rt; !is_kept, "slot {slot}, {page:?}");
    Ok(())
}

fn check_strangers(
    rt: &impl Abort,
    alloc: Global,
    item: &[u8],
    rows: &[Row],
    strangers: &[Stranger],
) -> Result<(), Fail> {
    let pages = pages_of(alloc, item, rows)?;
    let mut table = Table::reserve(alloc, &pages)?;
    for stranger in strangers {
        check_stranger(rt, &mut table, item, stranger)?;
    }
    check_missing(rt, &table, rows);
    Ok(())
}

#[test]
fn strange_results_are_handed_back(rt: HostRuntime) -> Result<(), Fail> {
    let item = item(rt.alloc())?;
    check_strangers(&rt, rt.alloc(), &item, &TWO, &STRANGERS)?;
    check_strangers(&rt, rt.alloc(), &[7], &[], &NO_SLOT)
}

/// Slots of a large table that are filled, and slots that are left empty.
const FILLED: [usize; 5] = [0, 4_096, 4_097, 65_536, 99_999];

const EMPTY: [usize; 4] = [1, 4_095, 65_537, 99_998];

/// 100,000 pages, made from the last to the first.
fn many_pages(alloc: Global, item: &[u8]) -> Result<Vec<Page<'_>>, AllocError>
    ensures { IfOk result (λ pages. IsRising (page_keys_of (map page_view pages.items))) }
{
    let mut pages = Vec::new(alloc);
    for number in 0..100_000u64 {
        pages.push(page_of(item, &numbered(99_999 - number)))?;
    }
    distinct_pages(&mut pages);
    Ok(pages)
}

/// A page of the large table.
fn numbered(number: u64) -> Row {
    (Algo::Sha256, Source::File(0), 0, number)
}

fn check_empty(rt: &impl Abort, table: &Table, slot: usize) {
    let key = key_of(&numbered(slot as u64));
    check_place(rt, table, &key, slot);
    check_get(rt, table, &key, None);
}

#[test]
fn large_table(rt: HostRuntime) -> Result<(), Fail> {
    let item = item(rt.alloc())?;
    let pages = many_pages(rt.alloc(), &item)?;
    let mut table = Table::reserve(rt.alloc(), &pages)?;
    check(&rt, table.pages().len() == 100_000, "pages");
    for slot in FILLED {
        let page = page_of(&item, &numbered(slot as u64));
        check_slot(&rt, &mut table, slot, page);
    }
    for slot in EMPTY {
        check_empty(&rt, &table, slot);
    }
    Ok(())
}

fn check_row(rt: &impl Abort, row: &DigestRow, room: usize, digests: &[Measurement]) {
    let holds = row.room() == room && row.digests() == digests;
    assert!(rt; holds, "room for {room}");
}

#[test]
fn rows_take_no_more_memory(rt: HostRuntime) -> Result<(), Fail> {
    let digest = digest_of(page_of(&[7], &FIRST[0]));
    let mut row = DigestRow::reserve(rt.alloc(), 2)?;
    check_row(&rt, &row, 2, &[]);
    row.push(digest);
    row.push(digest);
    check_row(&rt, &row, 2, &[digest; 2]);
    row.truncate(1);
    check_row(&rt, &row, 2, &[digest]);
    Ok(())
}

#[test]
fn rows_of_other_sizes(rt: HostRuntime) -> Result<(), Fail> {
    for room in [0, 100_000] {
        check_row(&rt, &DigestRow::reserve(rt.alloc(), room)?, room, &[]);
    }
    let is_too_large = DigestRow::reserve(rt.alloc(), usize::MAX).is_err();
    check(&rt, is_too_large, "too large");
    Ok(())
}
