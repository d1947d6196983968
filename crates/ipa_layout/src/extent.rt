//! The extent that is asked for an item, and the extent that it has.
ghost use Rattle.std.specs.Prelude.{◌≡◌, ◌^◌, ◌<◌, IfOk};
ghost use Rattle.ipa_layout.specs.Extent.{end_page, first_page, lead_of, page_count_of, size_of, wanted_of};
ghost use Rattle.rim_desc.specs.declared.page.TheConstants.{PAGE_SIZE};

use crate::reason::ItemReason;
use rim_desc::{GRANULE_SIZE, PAGE_SIZE};
use rim_launch::{Item, Role};

/// The bytes of a page, among addresses that may be past 2^64.
const PAGE: u128 = PAGE_SIZE as u128;

/// Where an item is. All numbers are in bytes.
#[derive(Clone, Copy, Debug, PartialEq, Eq)]
pub struct Extent {
    /// The address of its first byte.
    pub address: u64,
    /// Its size: the stated one, or the number of its bytes.
    pub size: u64,
    /// How many bytes from its address on it takes: its size, or for a kernel what its header says
    /// where that is more.
    pub len: u64,
}

impl Extent {
    ghost use Rattle.std.specs.Prelude.{◌≡◌};
    ghost use Rattle.ipa_layout.specs.Extent.{page_count_of};

    /// How many pages the item has.
    pub fn page_count(&self) -> u64
        ensures { result ≡ page_count_of self.now.address self.now.size }
    {
        page_count(u128::from(self.address), self.size)
    }
}

/// Where a launch asks for an item. All numbers are in bytes.
#[derive(Clone, Copy, Debug, PartialEq, Eq)]
pub struct WantedExtent {
    /// The address of its first byte. A kernel's may exceed 64 bits.
    pub address: u128,
    /// Its size: the stated one, or the number of its bytes.
    pub size: u64,
    /// How many bytes from its address on it takes.
    pub len: u64,
}

/// How many bytes after the start of a page an address is.
pub fn lead(address: u64) -> u64
    ensures exact { result ≡ lead_of address }
    ensures inside { result < PAGE_SIZE }
{
    address % GRANULE_SIZE
}

/// How many pages `size` bytes from `address` on touch.
pub fn page_count(address: u128, size: u64) -> u64
    requires { address < 2 ^ 66 }
    ensures { result ≡ page_count_of address size }
{
    if size == 0 {
        return 0;
    }
    let last = (address + u128::from(size) - 1) / PAGE;
    (last + 1 - address / PAGE) as u64
}

/// The number of the page that has an address.
pub fn first_page(address: u128) -> u64
    requires { address < 2 ^ 66 }
    ensures { result ≡ first_page address }
{
    (address / PAGE) as u64
}

/// The number of the first page that begins at an address or after it.
pub fn end_page(address: u128) -> u64
    requires { address < 2 ^ 66 }
    ensures { result ≡ end_page address }
{
    ((address + (PAGE - 1)) / PAGE) as u64
}

/// The size of an item with this many bytes.
fn size(item: &Item, count: u64) -> u64
    ensures { result ≡ size_of item.now count }
{
    item.size.unwrap_or(count)
}

/// The extent that a launch asks for, of an item with these bytes.
#[tactic(auto, unfolding(crate::specs::Extent::wanted_of))]
pub fn wanted_extent(item: &Item, bytes: &[u8]) -> Result<WantedExtent, ItemReason>
    ensures exact { result ≡ wanted_of item.now bytes.now }
    ensures low { IfOk result (λ a. a.address < 2 ^ 65) }
{
    let count = bytes.len() as u64;
    let size = size(item, count);
    if item.has_role(Role::Kernel) {
        match arm64_image::read(bytes) {
            Ok(header) => Ok(WantedExtent {
                address: u128::from(item.at) + u128::from(header.load_offset()),
                size,
                len: size.max(header.extent(count)),
            }),
            Err(fault) => Err(ItemReason::Kernel { fault, count }),
        }
    } else {
        Ok(WantedExtent {
            address: u128::from(item.at),
            size,
            len: size,
        })
    }
}
