//! Why a listing is not what it says.
ghost use Rattle.std.specs.Prelude.{◌≡◌};
ghost use Rattle.rim_replay.specs.Kinds.{refused_kind_of};

use rmm_model::Refused;

/// Why a listing is not what it says. Lines are numbered from 1 on.
#[derive(Clone, Copy, Debug, PartialEq, Eq)]
pub enum ReplayFault {
    /// The line of this number is none that a listing may have there, or it is missing.
    Line(usize),
    /// A monitor refuses the command of the line of this number.
    Refused(usize, Refused),
    /// The measurement of the last line is not the one that the monitor holds, or it is by another algorithm.
    WrongRim,
    /// The allocator refused a growth.
    NoMemory,
}

/// The word of a monitor's refusal, as the program prints it.
pub fn refused_kind(refused: &Refused) -> &'static str
    ensures { result.now ≡ refused_kind_of refused.now }
{
    match refused {
        Refused::State => "state",
        Refused::BadParams => "bad-params",
        Refused::Unaligned => "unaligned",
        Refused::OutsideProtected => "outside-protected",
        Refused::WalkLevel => "walk-level",
        Refused::NotFresh => "not-fresh",
        Refused::NotRam => "not-ram",
        Refused::Assigned => "assigned",
        Refused::RecIndex => "rec-index",
        Refused::AuxCount => "aux-count",
        Refused::NotUndelegated => "not-undelegated",
        Refused::NotDelegated => "not-delegated",
        Refused::NoMemory => "no-memory",
    }
}
