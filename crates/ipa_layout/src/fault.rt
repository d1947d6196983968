//! Why a launch cannot be laid out.
ghost use Rattle.std.specs.Prelude.{◌≡◌};
ghost use Rattle.ipa_layout.specs.declared.fault.LayoutFault.TheVariants.{Kernel, NoMemory};

use arm64_image::ImageFault;
use fdt_tree::FdtFault;
use refusal::NoMemory;
use std::alloc::{AllocError, AllocFailed};

/// Why a launch cannot be laid out.
#[derive(Clone, Copy, Debug, PartialEq, Eq)]
pub enum LayoutFault {
    /// The kernel's bytes are no Image.
    Kernel(ImageFault),
    /// The devicetree cannot be read, edited or written, or is larger than 2 MiB.
    Dtb(FdtFault),
    /// The devicetree's address is not a multiple of 8.
    Unaligned,
    /// The kernel's base is not a multiple of 2 MiB.
    KernelBase,
    /// A page of the item's rounded extent is not wholly in one region of RAM, or its extent passes 2^64.
    OutsideRam,
    /// The rounded extents of two items overlap.
    Overlap,
    /// The kernel and the initrd are too far from each other.
    InitrdWindow,
    /// The stated size is below the number of bytes, or the launch has too many pages.
    Size,
    /// Memory was refused.
    NoMemory,
}

impl From<ImageFault> for LayoutFault {
    ghost from_gives = { λ e f. f ≡ Kernel e };

    fn from(e: ImageFault) -> LayoutFault {
        LayoutFault::Kernel(e)
    }
}

impl From<NoMemory> for LayoutFault {
    ghost from_gives = { λ _ e. e ≡ NoMemory };

    fn from(_error: NoMemory) -> LayoutFault {
        LayoutFault::NoMemory
    }
}

impl From<AllocError> for LayoutFault {
    ghost from_gives = { λ _ e. e ≡ NoMemory };

    fn from(_error: AllocError) -> LayoutFault {
        LayoutFault::NoMemory
    }
}

impl<T: Drop> From<AllocFailed<T>> for LayoutFault {
    ghost from_gives = { λ _ e. e ≡ NoMemory };

    fn from(_error: AllocFailed<T>) -> LayoutFault {
        LayoutFault::NoMemory
    }
}
