//! Why a launch has no list of commands.
ghost use Rattle.std.specs.Prelude.{◌≡◌};
ghost use Rattle.rmi_list.specs.declared.fault.ListFault.TheVariants as fault;

use refusal::NoMemory;
use rtt_plan::PlanFault;

/// Why a launch has no list of commands. The first that holds, in the order of the list, is answered.
#[derive(Clone, Copy, Debug, PartialEq, Eq)]
pub enum ListFault {
    /// The planner refuses a region, or the pages of an item.
    Plan(PlanFault),
    /// The pool has fewer granules than a step takes.
    PoolEnd,
    /// The launch has more than 512 RECs.
    TooManyRecs,
    /// A step names a REC that is not the next one.
    RecOrder,
    /// A REC is not runnable, and the launch has no rule for such.
    RecNotRunnable,
    /// The allocator refused a growth.
    NoMemory,
}

impl From<NoMemory> for ListFault {
    ghost from_gives = { λ _ e. e ≡ fault.NoMemory };

    fn from(_error: NoMemory) -> ListFault {
        ListFault::NoMemory
    }
}
