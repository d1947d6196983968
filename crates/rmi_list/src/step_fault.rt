//! Why a step of a list is not listed.
ghost use Rattle.std.specs.Prelude.{◌≡◌};
ghost use Rattle.rmi_list.specs.declared.step_fault.StepFault.TheVariants as fault;

use crate::reason::StepReason;
use ipa_layout::IpaRange;
use refusal::NoMemory;
use rtt_plan::PlanFault;
use std::alloc::AllocFailed;

/// Why a step is not listed: it is refused for a reason, or the allocator refused a growth.
#[derive(Clone, Copy, Debug, PartialEq, Eq)]
pub enum StepFault {
    Refused(StepReason),
    NoMemory,
}

impl StepFault {
    ghost use Rattle.std.specs.Prelude.{◌≡◌, OnErr, IfOk};
    ghost use Rattle.rmi_list.specs.inside.Steps.{plan_fault};
    ghost use Rattle.rmi_list.specs.declared.step_fault.StepFault.TheVariants as fault;

    /// A fault of the planner, for a region or pages that have these addresses.
    pub fn of_plan(fault: PlanFault, range: IpaRange) -> StepFault
        ensures { result ≡ plan_fault fault range }
    {
        match fault {
            PlanFault::NoMemory => StepFault::NoMemory,
            _ => StepFault::Refused(StepReason::Plan { fault, range }),
        }
    }

    /// The reason, if it is refused.
    pub fn reason(self) -> Result<StepReason, NoMemory>
        ensures own { IfOk result (λ why. self ≡ fault.Refused why) }
        ensures memory { OnErr result (self ≡ fault.NoMemory) }
    {
        match self {
            StepFault::Refused(reason) => Ok(reason),
            StepFault::NoMemory => Err(NoMemory),
        }
    }
}

impl From<NoMemory> for StepFault {
    ghost from_gives = { λ _ e. e ≡ fault.NoMemory };

    fn from(_error: NoMemory) -> StepFault {
        StepFault::NoMemory
    }
}

impl<T: Drop> From<AllocFailed<T>> for StepFault {
    ghost from_gives = { λ _ e. e ≡ fault.NoMemory };

    fn from(_error: AllocFailed<T>) -> StepFault {
        StepFault::NoMemory
    }
}
