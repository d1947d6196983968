//! Why a launch has no list of commands, with the numbers that the refusing check looked at.
ghost use Rattle.std.specs.Prelude.{◌≡◌};
ghost use Rattle.rmi_list.specs.Reason.{item_range, region_range};

use crate::fault::ListFault;
use ipa_layout::{IpaRange, PlacedItem};
use rim_desc::PAGE_SIZE;
use rim_launch::{Region, Step};
use rtt_plan::PlanFault;

/// Why a step is refused.
#[derive(Clone, Copy, Debug, PartialEq, Eq)]
pub enum StepReason {
    /// The planner refuses the region, or the pages of the item, which have these addresses.
    Plan { fault: PlanFault, range: IpaRange },
    /// The pool has fewer granules than the step takes.
    PoolEnd,
    /// The step names a REC that is not the next one: this many RECs were listed before it.
    RecOrder { listed: usize },
    /// The REC is not runnable, and the launch has no rule for such.
    RecNotRunnable,
}

impl StepReason {
    ghost use Rattle.std.specs.Prelude.{◌≡◌};
    ghost use Rattle.rmi_list.specs.Reason.{step_fault_of};

    /// The fault that the step is refused with.
    pub fn fault(&self) -> ListFault
        ensures { result ≡ step_fault_of self.now }
    {
        match self {
            StepReason::Plan { fault, .. } => ListFault::Plan(*fault),
            StepReason::PoolEnd => ListFault::PoolEnd,
            StepReason::RecOrder { .. } => ListFault::RecOrder,
            StepReason::RecNotRunnable => ListFault::RecNotRunnable,
        }
    }
}

/// Why a launch has no list of commands: which part of the list is refused. The first reason that holds is answered.
#[derive(Clone, Copy, Debug, PartialEq, Eq)]
pub enum ListReason {
    /// The launch has this many RECs, which is more than 512.
    TooManyRecs {
        count: usize,
    },
    /// The pool has fewer granules than the start tables and the realm descriptor take.
    Opening,
    /// The step of this number, from 0 on, is refused. Those before it are not.
    Step {
        number: usize,
        step: Step,
        reason: StepReason,
    },
}

impl ListReason {
    ghost use Rattle.std.specs.Prelude.{◌≡◌};
    ghost use Rattle.rmi_list.specs.Reason.{list_fault_of};

    /// The fault that the list is refused with.
    pub fn fault(&self) -> ListFault
        ensures { result ≡ list_fault_of self.now }
    {
        match self {
            ListReason::TooManyRecs { .. } => ListFault::TooManyRecs,
            ListReason::Opening => ListFault::PoolEnd,
            ListReason::Step { reason, .. } => reason.fault(),
        }
    }
}

/// The addresses of a region.
pub(crate) fn region_range(region: &Region) -> IpaRange
    ensures { result ≡ region_range region.now }
{
    IpaRange {
        base: u128::from(region.base),
        end: u128::from(region.end),
    }
}

/// The addresses of the pages of an item.
pub(crate) fn item_range(item: &PlacedItem) -> IpaRange
    ensures { result ≡ item_range item.now }
{
    let base = u128::from(item.address.saturating_sub(item.lead));
    IpaRange {
        base,
        end: base + u128::from(item.pages) * PAGE_SIZE as u128,
    }
}
