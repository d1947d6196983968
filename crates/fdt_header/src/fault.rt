//! Why a flattened devicetree is refused.

ghost use Rattle.std.specs.Prelude.{◌≡◌};
ghost use Rattle.fdt_header.specs.declared.fault.FdtFault.TheVariants.{NoMemory};

use refusal::NoMemory;
use std::alloc::{AllocError, AllocFailed};

/// Why a devicetree cannot be read, edited or written.
#[derive(Clone, Copy, Debug, PartialEq, Eq)]
pub enum FdtFault {
    /// Fewer bytes than a header has.
    Short,
    /// The magic number is wrong.
    BadMagic,
    /// The version is not 17, or `last_comp_version` is later than 17.
    BadVersion,
    /// A block is not aligned or not within the file.
    BadBlock,
    /// The reservations have no end.
    BadReserve,
    /// A token is cut off, has an unknown number or is not allowed where it is.
    BadToken,
    /// A name is empty or has a byte that no name may have; or the root's name is not empty.
    BadName,
    /// A property's name is not within the strings block.
    BadString,
    /// A property comes after a child of its node.
    LateProperty,
    /// A node is deeper than 64.
    TooDeep,
    /// `#address-cells` or `#size-cells` of the root is not 1 or 2, or a number does not fit in its cells.
    BadCells,
    /// More than 2 MiB (2,097,152 bytes).
    TooLarge,
    /// Memory was refused.
    NoMemory,
}

impl FdtFault {
    ghost use Rattle.std.specs.Prelude.{◌≡◌};
    ghost use Rattle.fdt_header.specs.Faults.{own_fault};

    /// The devicetree's own fault; or `NoMemory`, where memory was refused. A caller that reports the two
    /// in different ways keeps them apart by this.
    pub fn own_fault(self) -> Result<FdtFault, NoMemory>
        ensures { result ≡ own_fault self }
    {
        match self {
            FdtFault::NoMemory => Err(NoMemory),
            fault => Ok(fault),
        }
    }
}

impl From<NoMemory> for FdtFault {
    ghost from_gives = { λ _ e. e ≡ NoMemory };

    fn from(_error: NoMemory) -> FdtFault {
        FdtFault::NoMemory
    }
}

impl From<AllocError> for FdtFault {
    ghost from_gives = { λ _ e. e ≡ NoMemory };

    fn from(_error: AllocError) -> FdtFault {
        FdtFault::NoMemory
    }
}

impl<T: Drop> From<AllocFailed<T>> for FdtFault {
    ghost from_gives = { λ _ e. e ≡ NoMemory };

    fn from(_error: AllocFailed<T>) -> FdtFault {
        FdtFault::NoMemory
    }
}
