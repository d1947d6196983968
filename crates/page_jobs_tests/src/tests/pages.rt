//! Pages and their digests. The digests were computed by Python's hashlib.
use super::{Row, check, counted, digest_of, item, key_of, page_of, pages_of};
use page_jobs::{GroupDigests, HashedAhead, Page, PageKey, hash_group};
use rim_desc::{Algo, Lanes, Source};
use std::alloc::Global;
use std::mem::size_of;
use std::process::Abort;
use std::test::Fail;

fn is_zero(bytes: &[u8]) -> bool {
    for byte in bytes {
        if *byte != 0 {
            return false;
        }
    }
    true
}

/// Whether the bytes are this many zeros, then this part, and then zeros.
fn is_laid(bytes: &[u8], zeros: usize, part: &[u8]) -> bool {
    let Some((front, rest)) = bytes.split_at_checked(zeros) else {
        return false;
    };
    let Some((middle, rest)) = rest.split_at_checked(part.len()) else {
        return false;
    };
    is_zero(front) && middle == part && is_zero(rest)
}

/// A page has its key, and its bytes are this many zeros, then this part of the item, and then zeros.
fn check_page(rt: &impl Abort, item: &[u8], row: &Row, zeros: usize, part: &[u8]) {
    let page = page_of(item, row);
    let has_part = page.bytes == part && is_laid(&page.bytes(), zeros, part);
    assert!(rt; has_part && page.key == key_of(row), "{row:?}");
}

/// A page of the item, how many zeros are in front, and which bytes of the item are in it, from the first to the first
/// that is not.
type OfItem = (Row, usize, usize, usize);

const OF_ITEM: [OfItem; 4] = [
    ((Algo::Sha256, Source::File(5), 0, 0), 0, 0, 4096),
    ((Algo::Sha256, Source::File(5), 0, 1), 0, 4096, 4097),
    ((Algo::Sha512, Source::File(5), 4, 0), 4, 0, 4092),
    ((Algo::Sha512, Source::File(5), 4, 1), 0, 4092, 4097),
];

fn check_of_item(rt: &impl Abort, item: &[u8], row: &OfItem) -> Result<(), Fail> {
    let (page, zeros, from, to) = row;
    let part = item.get(*from..*to).ok_or("bytes of the item")?;
    check_page(rt, item, page, *zeros, part);
    Ok(())
}

#[test]
fn pages_of_the_item(rt: HostRuntime) -> Result<(), Fail> {
    let item = item(rt.alloc())?;
    check(&rt, item.get(4096) == Some(&61), "the last byte");
    for row in &OF_ITEM {
        check_of_item(&rt, &item, row)?;
    }
    Ok(())
}

/// The bytes, the lead and the number of a page, how many zeros are in front, and the bytes that are in it.
type Small = (&'static [u8], u16, u64, usize, &'static [u8]);

const SMALL: [Small; 6] = [
    (&[9, 8], 4095, 0, 4095, &[9]),
    (&[9, 8], 4095, 1, 0, &[8]),
    (&[9, 8], 4095, 2, 0, &[]),
    (&[9, 8], 4095, 1_048_576, 0, &[]),
    (&[9, 8], 4095, (1 << 52) - 1, 0, &[]),
    (&[], 7, 0, 7, &[]),
];

#[test]
fn pages_past_the_bytes_are_zero(rt: HostRuntime) {
    for (bytes, lead, number, zeros, part) in &SMALL {
        let page = (Algo::Sha256, Source::File(0), *lead, *number);
        check_page(&rt, bytes, &page, *zeros, part);
    }
}

/// Algorithm, lead and number of pages of the item, and the digest of each, with zeros up to 64 bytes.
type Digest = (Algo, u16, u64, &'static str);

const DIGESTS: [Digest; 7] = [
    (
        Algo::Sha256,
        0,
        0,
        "0d356260eaf09e3b3dc81a65b2ad2399aa7c4921c0274bd2cbb54c2a21c46e3b0000000000000000000000000000000000000000000000000000000000000000",
    ),
    (
        Algo::Sha256,
        0,
        1,
        "2faf36c99cd01776e2b7ca3b9c65bb525111c9697a91ce463a75e136f0cb79420000000000000000000000000000000000000000000000000000000000000000",
    ),
    (
        Algo::Sha256,
        4,
        0,
        "17dfa417e92a58b13bade8724977223be4485ccd3d831ab22e5d0ef29efb2bb40000000000000000000000000000000000000000000000000000000000000000",
    ),
    (
        Algo::Sha256,
        4,
        1,
        "a4663780de907fcca9b7e27e617f2b200b7f33c43fbda67fe97f952f9efa68a30000000000000000000000000000000000000000000000000000000000000000",
    ),
    (
        Algo::Sha256,
        4,
        2,
        "ad7facb2586fc6e966c004d7d1d16b024f5805ff7cb47c7a85dabd8b48892ca70000000000000000000000000000000000000000000000000000000000000000",
    ),
    (
        Algo::Sha512,
        0,
        0,
        "efb56f47d015ebe00e16c78bb2df83e5377478abad618d7ec380ffb03371e302e03285d1ac341ffde98c676f14a46d3138b5400460fd290592037c88526e0066",
    ),
    (
        Algo::Sha512,
        4,
        1,
        "170596cec9b33e5a6d59ed75c5084f8778c4ec5ed2e2c632a988679308f8a03c3bb5461d3e8a7a04a4dfe47767b59f295554da839349ac13fc03afcc16b88d1a",
    ),
];

fn check_digest(rt: &impl Abort, alloc: Global, item: &[u8], row: &Digest) -> Result<(), Fail> {
    let (algo, lead, number, digest) = row;
    let page = page_of(item, &(*algo, Source::File(0), *lead, *number));
    let text = hex::encode(alloc, digest_of(page).bytes.as_slice())?;
    assert!(rt; text.as_str() == *digest, "page {number} at lead {lead}");
    Ok(())
}

#[test]
fn digests(rt: HostRuntime) -> Result<(), Fail> {
    let item = item(rt.alloc())?;
    for row in &DIGESTS {
        check_digest(&rt, rt.alloc(), &item, row)?;
    }
    Ok(())
}

/// Pages of an item with four pages and one byte: the algorithm and the number of each. The width that they are hashed in, and
/// how many go side by side from the first on.
type Group = (Lanes, usize, [(Algo, u8); 9]);

/// The pages 0 to 3 again and again.
fn whole(algo: Algo) -> [(Algo, u8); 9] {
    let [a, b, c, d] = [(algo, 0), (algo, 1), (algo, 2), (algo, 3)];
    [a, b, c, d, a, b, c, d, a]
}

/// The same, with another page in a place.
fn with(algo: Algo, place: usize, page: (Algo, u8)) -> [(Algo, u8); 9] {
    let mut pages = whole(algo);
    if let Some(slot) = pages.get_mut(place) {
        *slot = page;
    }
    pages
}

fn groups() -> [Group; 12] {
    let last = (Algo::Sha256, 4);
    let other = (Algo::Sha512, 1);
    [
        (Lanes::Four, 4, whole(Algo::Sha256)),
        (Lanes::Eight, 8, whole(Algo::Sha256)),
        (Lanes::Four, 1, whole(Algo::Sha512)),
        (Lanes::Eight, 4, whole(Algo::Sha512)),
        (Lanes::Eight, 5, with(Algo::Sha256, 5, last)),
        (Lanes::Eight, 7, with(Algo::Sha256, 7, other)),
        (Lanes::Eight, 3, with(Algo::Sha256, 3, last)),
        (Lanes::Four, 3, with(Algo::Sha256, 3, other)),
        (Lanes::Four, 2, with(Algo::Sha256, 2, last)),
        (Lanes::Eight, 1, with(Algo::Sha256, 1, other)),
        (Lanes::Eight, 1, with(Algo::Sha256, 0, last)),
        (Lanes::Eight, 2, with(Algo::Sha512, 2, (Algo::Sha256, 0))),
    ]
}

fn page_in<'a>(bytes: &'a [u8], place: (Algo, u8)) -> Page<'a> {
    let (algo, number) = place;
    page_of(bytes, &(algo, Source::File(0), 0, u64::from(number)))
}

/// Whether the digests are this many, and each is its page's alone.
fn are_alone(digests: &GroupDigests, count: usize, pages: &[Page]) -> bool {
    for (k, page) in pages.iter().take(count).enumerate() {
        if digests.get(k) != Some(digest_of(*page)) {
            return false;
        }
    }
    digests.count == count && digests.get(count).is_none()
}

/// A group's digests are those of its pages alone.
fn check_group(rt: &impl Abort, bytes: &[u8], group: Group) {
    let (lanes, count, places) = group;
    let pages = places.map(|place| page_in(bytes, place));
    let digests = hash_group(&pages, lanes);
    assert!(rt; are_alone(&digests, count, &pages), "{group:?}");
    check_ahead(rt, &pages, lanes);
}

/// Whichever page is asked for, its digest is its own.
fn check_ahead(rt: &impl Abort, pages: &[Page], lanes: Lanes) {
    let mut ahead = HashedAhead::new(pages, lanes);
    for number in [0, 1, 2, 3, 4, 5, 6, 7, 8, 3, 4, 8, 0, 7] {
        if number < ahead.pages.len() {
            let page = ahead.pages[number];
            let digest = ahead.digest(number);
            assert!(rt; digest == digest_of(page), "page {number} by {lanes:?}");
        }
    }
}

#[test]
fn pages_side_by_side(rt: HostRuntime) -> Result<(), Fail> {
    let bytes = counted(rt.alloc(), 16_385, 1, 0)?;
    for group in groups() {
        check_group(&rt, &bytes, group);
    }
    Ok(())
}

/// Pages, mixed and with repeats.
const MIXED: [Row; 14] = [
    (Algo::Sha512, Source::File(0), 0, 0),
    (Algo::Sha256, Source::Edited(0), 0, 0),
    (Algo::Sha256, Source::File(2), 0, 1),
    (Algo::Sha256, Source::File(2), 4, 0),
    (Algo::Sha256, Source::File(10), 0, 0),
    (Algo::Sha256, Source::File(2), 0, 300),
    (Algo::Sha256, Source::File(2), 0, 1),
    (Algo::Sha256, Source::Edited(1), 0, 0),
    (Algo::Sha512, Source::File(0), 0, 0),
    (Algo::Sha256, Source::File(2), 0, 1),
    (Algo::Sha512, Source::Edited(0), 0, 0),
    (Algo::Sha256, Source::Edited(0), 0, 0),
    (Algo::Sha256, Source::File(2), 0, 0),
    (Algo::Sha256, Source::File(2), 4, 0),
];

/// The same in the order of their keys, each once.
const IN_ORDER: [Row; 9] = [
    (Algo::Sha256, Source::File(2), 0, 0),
    (Algo::Sha256, Source::File(2), 0, 1),
    (Algo::Sha256, Source::File(2), 0, 300),
    (Algo::Sha256, Source::File(2), 4, 0),
    (Algo::Sha256, Source::File(10), 0, 0),
    (Algo::Sha256, Source::Edited(0), 0, 0),
    (Algo::Sha256, Source::Edited(1), 0, 0),
    (Algo::Sha512, Source::File(0), 0, 0),
    (Algo::Sha512, Source::Edited(0), 0, 0),
];

fn check_key(rt: &impl Abort, pages: &[Page], place: usize, row: &Row) {
    let page = pages.get(place).expect(rt, "nine pages");
    assert!(rt; page.key == key_of(row), "page {place}");
}

#[test]
fn mixed_pages_are_sorted_and_distinct(rt: HostRuntime) -> Result<(), Fail> {
    let item = item(rt.alloc())?;
    let pages = pages_of(rt.alloc(), &item, &MIXED)?;
    check(&rt, pages.len() == 9, "nine pages");
    for place in 0..IN_ORDER.len() {
        check_key(&rt, &pages, place, &IN_ORDER[place]);
    }
    Ok(())
}

#[test]
fn sizes(rt: HostRuntime) {
    check(&rt, size_of::<Page>() <= 56, "a page");
    check(&rt, size_of::<PageKey>() <= 40, "a key");
}
