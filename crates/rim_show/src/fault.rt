//! Why a file is not shown.
ghost use Rattle.std.specs.Prelude.{◌≡◌};
ghost use Rattle.rim_show.specs.ShowFaults.{devicetree_kind_of, image_kind_of, show_kind_of, shown_fault};
ghost use Rattle.rim_show.specs.declared.fault.ShowFault.TheVariants as show;

use arm64_image::ImageFault;
use fdt_tree::FdtFault;
use refusal::NoMemory;
use std::fmt;
use thiserror::Error;

/// Why a file is not shown.
#[derive(Clone, Copy, Debug, PartialEq, Eq, Error)]
pub enum ShowFault {
    /// The file is no arm64 Image.
    Image(ImageFault),
    /// The file is no flattened devicetree. It is never `NoMemory`.
    Dtb(FdtFault),
    /// The allocator refused a growth.
    NoMemory,
}

impl From<NoMemory> for ShowFault {
    ghost from_gives = { λ _ e. e ≡ show.NoMemory };

    fn from(_error: NoMemory) -> ShowFault {
        ShowFault::NoMemory
    }
}

impl From<ImageFault> for ShowFault {
    ghost from_gives = { λ fault e. e ≡ show.Image fault };

    fn from(fault: ImageFault) -> ShowFault {
        ShowFault::Image(fault)
    }
}

impl From<FdtFault> for ShowFault {
    ghost from_gives = { λ fault e. e ≡ shown_fault fault };

    fn from(fault: FdtFault) -> ShowFault {
        match fault.own_fault() {
            Ok(own) => ShowFault::Dtb(own),
            Err(NoMemory) => ShowFault::NoMemory,
        }
    }
}

impl ShowFault {
    /// The fault's word, as the program prints it.
    pub fn kind(&self) -> &'static str
        ensures { result.now ≡ show_kind_of self.now }
    {
        match self {
            ShowFault::Image(fault) => image_kind(*fault),
            ShowFault::Dtb(fault) => devicetree_kind(*fault),
            ShowFault::NoMemory => "no-memory",
        }
    }
}

impl fmt::Display for ShowFault {
    fn fmt<W: fmt::Write>(&self, f: &mut fmt::Formatter<W>) -> fmt::Result {
        f.write_str(self.kind())
    }
}

/// The word of a fault of an Image.
pub fn image_kind(fault: ImageFault) -> &'static str
    ensures { result.now ≡ image_kind_of fault }
{
    match fault {
        ImageFault::Short => "kernel-short",
        ImageFault::BadMagic => "kernel-bad-magic",
    }
}

/// The word of a fault of a devicetree.
pub fn devicetree_kind(fault: FdtFault) -> &'static str
    ensures { result.now ≡ devicetree_kind_of fault }
{
    match fault {
        FdtFault::Short => "dtb-short",
        FdtFault::BadMagic => "dtb-bad-magic",
        FdtFault::BadVersion => "dtb-bad-version",
        FdtFault::BadBlock => "dtb-bad-block",
        FdtFault::BadReserve => "dtb-bad-reserve",
        FdtFault::BadToken => "dtb-bad-token",
        FdtFault::BadName => "dtb-bad-name",
        FdtFault::BadString => "dtb-bad-string",
        FdtFault::LateProperty => "dtb-late-property",
        FdtFault::TooDeep => "dtb-too-deep",
        FdtFault::BadCells => "dtb-bad-cells",
        FdtFault::TooLarge => "dtb-too-large",
        FdtFault::NoMemory => "no-memory",
    }
}
