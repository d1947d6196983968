//! Why a call plans nothing.
ghost use Rattle.std.specs.Prelude.{◌≡◌};
ghost use Rattle.rtt_plan.specs.declared.fault.PlanFault.TheVariants as fault;

use refusal::NoMemory;

/// Why a call plans nothing. The first that holds, in the order of the call's checks, is answered.
#[derive(Clone, Copy, Debug, PartialEq, Eq)]
pub enum PlanFault {
    /// The range ends above the protected half of IPA space.
    OutsideProtected,
    /// An end is not a multiple of 4096.
    Unaligned,
    /// A page of the region was set before.
    RipasTwice,
    /// A page of data is not RAM.
    NotRam,
    /// A page has data already.
    DataTwice,
    /// The entries of all regions are more than the limit.
    TooManyEntries,
    /// The allocator refused a growth.
    NoMemory,
}

impl From<NoMemory> for PlanFault {
    ghost from_gives = { λ _ e. e ≡ fault.NoMemory };

    fn from(_error: NoMemory) -> PlanFault {
        PlanFault::NoMemory
    }
}
