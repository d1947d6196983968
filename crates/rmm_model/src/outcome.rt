//! The words of the monitor's state and answers.
ghost use Rattle.std.specs.Prelude.{◌≡◌};
ghost use Rattle.rmm_model.specs.declared.outcome.Refused.TheVariants as refused;

use refusal::NoMemory;

/// What a granule is used for (DEN0137, granule states). A granule that is UNDELEGATED has none.
#[derive(Clone, Copy, Debug, PartialEq, Eq)]
pub enum Kind {
    /// Handed to the realm world, and not used yet.
    Delegated,
    /// A realm descriptor.
    Rd,
    /// A translation table.
    Rtt,
    /// A page of the realm.
    DataPage,
    /// A REC.
    Rec,
    /// An auxiliary granule of a REC.
    RecAux,
}

/// Where the realm is in its life (DEN0137, realm states), with EMPTY for no realm.
#[derive(Clone, Copy, Debug, PartialEq, Eq)]
pub enum Phase {
    /// There is no realm.
    Empty,
    /// It is being built.
    New,
    /// It may run.
    Active,
}

/// Why a command is refused. The names, and the order in which a command's checks are made, are this
/// project's choice.
#[derive(Clone, Copy, Debug, PartialEq, Eq)]
pub enum Refused {
    /// The realm is not in the state that the command needs.
    State,
    /// A parameter is outside its range.
    BadParams,
    /// An address is not a multiple of what it must be.
    Unaligned,
    /// An IPA is not in the protected half.
    OutsideProtected,
    /// The walk of an IPA ends at another level.
    WalkLevel,
    /// A page of the range is RAM, or a deeper table lies in it.
    NotFresh,
    /// The page is not RAM.
    NotRam,
    /// The page has data.
    Assigned,
    /// The MPIDR is not that of the next REC.
    RecIndex,
    /// The number of auxiliary granules is not the monitor's.
    AuxCount,
    /// The granule is delegated already.
    NotUndelegated,
    /// A granule is not DELEGATED, or is named twice.
    NotDelegated,
    /// The allocator refused a growth.
    NoMemory,
}

impl From<NoMemory> for Refused {
    ghost from_gives = { λ _ e. e ≡ refused.NoMemory };

    fn from(_error: NoMemory) -> Refused {
        Refused::NoMemory
    }
}
