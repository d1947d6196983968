//! Why a launch cannot be laid out, with the numbers that the refusing check looked at.
ghost use Rattle.std.specs.Prelude.{◌≡◌};
ghost use Rattle.ipa_layout.specs.Reason.{fault_of, item_fault_of};

use crate::extent::Extent;
use crate::fault::LayoutFault;
use arm64_image::ImageFault;
use fdt_tree::FdtFault;

/// Addresses from `base` on and below `end`. Those that a kernel asks for may exceed 64 bits.
#[derive(Clone, Copy, Debug, PartialEq, Eq)]
pub struct IpaRange {
    pub base: u128,
    pub end: u128,
}

/// Why an item may not be where its launch asks for it.
#[derive(Clone, Copy, Debug, PartialEq, Eq)]
pub enum ItemReason {
    /// The kernel's bytes, `count` of them, are no Image.
    Kernel { fault: ImageFault, count: u64 },
    /// The devicetree cannot be read, edited or written.
    Edits(FdtFault),
    /// The devicetree has this many bytes, which is more than 2 MiB.
    TooLarge { size: u64 },
    /// The devicetree's address is not a multiple of 8.
    Unaligned { at: u64 },
    /// The kernel's base is not a multiple of 2 MiB.
    KernelBase { at: u64 },
    /// The stated size is below the number of the item's bytes.
    Short { size: u64, count: u64 },
    /// With this item the launch has this many pages, which is more than 1,048,576.
    TooManyPages { pages: u128 },
    /// The addresses that it asks for begin at 2^64 or after it, or end past it.
    PastEnd(IpaRange),
    /// No region of RAM holds all of a page of these addresses: `page` is the number of the first such page.
    OutsideRam { range: IpaRange, page: u64 },
}

impl ItemReason {
    ghost use Rattle.std.specs.Prelude.{◌≡◌};
    ghost use Rattle.ipa_layout.specs.Reason.{item_fault_of};

    /// The fault that the item is refused with.
    pub fn fault(&self) -> LayoutFault
        ensures { result ≡ item_fault_of self.now }
    {
        match *self {
            ItemReason::Kernel { fault, .. } => fault.into(),
            ItemReason::Edits(fault) => LayoutFault::Dtb(fault),
            ItemReason::TooLarge { .. } => LayoutFault::Dtb(FdtFault::TooLarge),
            ItemReason::Unaligned { .. } => LayoutFault::Unaligned,
            ItemReason::KernelBase { .. } => LayoutFault::KernelBase,
            ItemReason::Short { .. } => LayoutFault::Size,
            ItemReason::TooManyPages { .. } => LayoutFault::Size,
            ItemReason::PastEnd(_) => LayoutFault::OutsideRam,
            ItemReason::OutsideRam { .. } => LayoutFault::OutsideRam,
        }
    }
}

/// An item of a launch, by its number from 0 on, and its extent.
#[derive(Clone, Copy, Debug, PartialEq, Eq)]
pub struct ItemExtent {
    pub item: usize,
    pub extent: Extent,
}

/// Why a launch cannot be laid out: which item is refused, or which two. The first reason that holds is answered.
#[derive(Clone, Copy, Debug, PartialEq, Eq)]
pub enum LayoutReason {
    /// The item of this number is refused by itself. Those before it are not.
    Item {
        item: usize,
        reason: ItemReason,
    },
    /// The rounded extents of two items overlap: `first` is the first item that meets a later one, and `second` the
    /// first later one that it meets.
    Overlap {
        first: ItemExtent,
        second: ItemExtent,
    },
    /// The kernel and the initrd are too far from each other.
    InitrdWindow {
        kernel: ItemExtent,
        initrd: ItemExtent,
    },
}

impl LayoutReason {
    ghost use Rattle.std.specs.Prelude.{◌≡◌};
    ghost use Rattle.ipa_layout.specs.Reason.{fault_of};

    /// The fault that the launch is refused with.
    pub fn fault(&self) -> LayoutFault
        ensures { result ≡ fault_of self.now }
    {
        match self {
            LayoutReason::Item { reason, .. } => reason.fault(),
            LayoutReason::Overlap { .. } => LayoutFault::Overlap,
            LayoutReason::InitrdWindow { .. } => LayoutFault::InitrdWindow,
        }
    }
}
