//! Which items overlap, and whether kernel and initrd are too far from each other.
ghost use Rattle.std.specs.Prelude.{◌≡◌, ◌+◌, ◌≤◌, drop, length};
ghost use Rattle.ipa_layout.specs.Overlap.{checked_all, checked_window, first_met, first_overlap, gib_span, is_too_far, overlaps};
ghost use Rattle.ipa_layout.specs.Extent.{end_page};

use crate::extent::{Extent, end_page};
use crate::reason::{ItemExtent, LayoutReason};
use rim_desc::GRANULE_SIZE;

/// The bytes of a GiB.
const GIB: u128 = 0x4000_0000;

/// Whether the rounded extents of two items overlap. An empty extent overlaps none.
pub fn overlaps(a: &Extent, b: &Extent) -> bool
    ensures { result ≡ overlaps a.now b.now }
{
    a.len != 0
        && b.len != 0
        && a.address / GRANULE_SIZE < end_of(b)
        && b.address / GRANULE_SIZE < end_of(a)
}

/// The number of the first page after an item's extent.
fn end_of(a: &Extent) -> u64
    ensures { result ≡ end_page (a.now.address + a.now.len) }
{
    end_page(u128::from(a.address) + u128::from(a.len))
}

/// The first item from this number on whose rounded extent overlaps that of another item.
fn first_met(extent: &Extent, items: &[Extent], from: usize) -> Option<ItemExtent>
    requires { from ≤ length items.now }
    ensures { result ≡ first_met extent.now from (drop from items.now) }
{
    for item in from..items.len() {
        let other = items[item];
        if overlaps(extent, &other) {
            return Some(ItemExtent {
                item,
                extent: other,
            });
        }
    }
    None
}

/// The first item whose rounded extent overlaps that of a later one, and the first later one.
pub fn first_overlap(items: &[Extent]) -> Option<(ItemExtent, ItemExtent)>
    ensures { result ≡ first_overlap 0 items.now }
{
    for item in 0..items.len() {
        let extent = items[item];
        if let Some(second) = first_met(&extent, items, item + 1) {
            return Some((ItemExtent { item, extent }, second));
        }
    }
    None
}

/// How many GiB the smallest range of whole GiB has that covers two extents.
fn gib_span(a: &Extent, b: &Extent) -> u128
    ensures { result ≡ gib_span a.now b.now }
{
    let end_a = u128::from(a.address) + u128::from(a.len);
    let end_b = u128::from(b.address) + u128::from(b.len);
    let first = u128::from(a.address.min(b.address)) / GIB;
    let end = (end_a.max(end_b) + 0x3fff_ffff) / GIB;
    end.saturating_sub(first)
}

/// Whether a kernel and an initrd are too far from each other: no 32 GiB, aligned to 1 GiB, cover both.
/// An empty initrd is never too far.
pub fn is_too_far(kernel: &Extent, initrd: &Extent) -> bool
    ensures { result ≡ is_too_far kernel.now initrd.now }
{
    initrd.len != 0 && 32 < gib_span(kernel, initrd)
}

/// Refuses a kernel and an initrd that are too far from each other, where the launch has both.
fn check_window(kernel: Option<ItemExtent>, initrd: Option<ItemExtent>) -> Result<(), LayoutReason>
    ensures { result ≡ checked_window kernel initrd }
{
    match (kernel, initrd) {
        (Some(kernel), Some(initrd)) if is_too_far(&kernel.extent, &initrd.extent) => {
            Err(LayoutReason::InitrdWindow { kernel, initrd })
        }
        _ => Ok(()),
    }
}

/// Refuses the items together: two of them overlap, or else kernel and initrd are too far from each other.
#[tactic(auto, unfolding(crate::specs::Overlap::checked_all))]
pub fn check_all(
    items: &[Extent],
    kernel: Option<ItemExtent>,
    initrd: Option<ItemExtent>,
) -> Result<(), LayoutReason>
    ensures { result ≡ checked_all items.now kernel initrd }
{
    match first_overlap(items) {
        Some((first, second)) => Err(LayoutReason::Overlap { first, second }),
        None => check_window(kernel, initrd),
    }
}
