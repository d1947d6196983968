//! Whether an item may be where its launch asks for it.
ghost use Rattle.std.specs.Prelude.{◌≡◌, ◌+◌, ◌^◌, ◌<◌, ◌≤◌, IfOk, false};
ghost use Rattle.ipa_layout.specs.Extent.{page_count_of};
ghost use Rattle.ipa_layout.specs.ItemCheck.{checked_item, checked_wanted, first_outside, is_past_end, pages_with, range_of};
ghost use Rattle.ipa_layout.specs.declared.item_check.TheConstants.{PAGE_LIMIT};

use crate::extent::{Extent, WantedExtent, end_page, first_page, page_count, wanted_extent};
use crate::memory::first_unheld;
use crate::reason::{IpaRange, ItemReason};
use fdt_tree::SIZE_LIMIT;
use rim_launch::{Item, Region, Role};

/// The most pages of a launch's items: 1,048,576. This project's choice.
pub const PAGE_LIMIT: u64 = 1_048_576;

/// A kernel's base is a multiple of this many bytes: 2 MiB (Linux, booting.rst, "Call the kernel image").
pub const KERNEL_ALIGNMENT: u64 = 2_097_152;

/// The first address that no item may have.
const ADDRESS_END: u128 = 0x1_0000_0000_0000_0000;

/// Whether an item would begin at 2^64 or after it, or end past it.
fn is_past_end(wanted: &WantedExtent) -> bool
    requires { wanted.now.address < 2 ^ 65 }
    ensures { result ≡ is_past_end wanted.now }
{
    wanted.address >= ADDRESS_END || wanted.address + u128::from(wanted.len) > ADDRESS_END
}

/// The first page of an item that is not RAM.
fn first_outside(ram: &[Region], wanted: &WantedExtent) -> Option<u64>
    requires { is_past_end wanted.now ≡ false }
    ensures { result ≡ first_outside ram.now wanted.now }
{
    if wanted.len == 0 {
        return None;
    }
    let end = wanted.address + u128::from(wanted.len);
    first_unheld(ram, first_page(wanted.address), end_page(end))
}

/// How many pages the launch has with an item, where the items before it have `pages_before`.
fn pages_with(pages_before: u64, wanted: &WantedExtent) -> u128
    requires { wanted.now.address < 2 ^ 65 }
    ensures { result ≡ pages_with pages_before wanted.now }
{
    u128::from(pages_before) + u128::from(page_count(wanted.address, wanted.size))
}

/// The addresses that an item asks for.
fn range_of(wanted: &WantedExtent) -> IpaRange
    requires { wanted.now.address < 2 ^ 65 }
    ensures { result ≡ range_of wanted.now }
{
    IpaRange {
        base: wanted.address,
        end: wanted.address + u128::from(wanted.len),
    }
}

/// The extent of an item with these bytes, in a launch whose items before it have `pages_before` pages;
/// or the first reason why it may not be where the launch asks for it.
pub fn check_item(
    ram: &[Region],
    pages_before: u64,
    item: &Item,
    bytes: &[u8],
) -> Result<Extent, ItemReason>
    ensures exact { result ≡ checked_item ram.now pages_before item.now bytes.now }
    ensures within { IfOk result (λ s. pages_before + page_count_of s.address s.size ≤ PAGE_LIMIT) }
{
    let wanted = wanted_extent(item, bytes)?;
    check_wanted(ram, pages_before, item, bytes.len() as u64, wanted)
}

/// The same, from the extent that the launch asks for.
#[tactic(auto, unfolding(crate::specs::ItemCheck::checked_wanted))]
fn check_wanted(
    ram: &[Region],
    pages_before: u64,
    item: &Item,
    count: u64,
    wanted: WantedExtent,
) -> Result<Extent, ItemReason>
    requires { wanted.address < 2 ^ 65 }
    ensures exact { result ≡ checked_wanted ram.now pages_before item.now count wanted }
    ensures within { IfOk result (λ s. pages_before + page_count_of s.address s.size ≤ PAGE_LIMIT) }
{
    let WantedExtent { address, size, len } = wanted;
    if item.has_role(Role::Dtb) && size > SIZE_LIMIT as u64 {
        return Err(ItemReason::TooLarge { size });
    }
    if item.has_role(Role::Dtb) && item.at % 8 != 0 {
        return Err(ItemReason::Unaligned { at: item.at });
    }
    if item.has_role(Role::Kernel) && item.at % KERNEL_ALIGNMENT != 0 {
        return Err(ItemReason::KernelBase { at: item.at });
    }
    if size < count {
        return Err(ItemReason::Short { size, count });
    }
    let pages = pages_with(pages_before, &wanted);
    if pages > u128::from(PAGE_LIMIT) {
        return Err(ItemReason::TooManyPages { pages });
    }
    if is_past_end(&wanted) {
        return Err(ItemReason::PastEnd(range_of(&wanted)));
    }
    if let Some(page) = first_outside(ram, &wanted) {
        return Err(ItemReason::OutsideRam {
            range: range_of(&wanted),
            page,
        });
    }
    Ok(Extent {
        address: address as u64,
        size,
        len,
    })
}
