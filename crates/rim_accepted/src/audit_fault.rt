//! Why a launch is refused.
ghost use Rattle.std.specs.Prelude.{◌≡◌};
ghost use Rattle.rim_accepted.specs.AuditFaults.{audit_kind_of, layout_kind_of, list_kind_of, plan_kind_of};
ghost use Rattle.rim_accepted.specs.declared.audit_fault.AuditFault.TheVariants as fault;

use ipa_layout::LayoutFault;
use refusal::NoMemory;
use rim_show::{devicetree_kind, image_kind};
use rmi_list::ListFault;
use rtt_plan::PlanFault;
use std::alloc::{AllocError, AllocFailed};
use std::fmt;
use thiserror::Error;

/// Why a launch is refused: the first refusal of its layout, else of its list of commands.
#[derive(Clone, Copy, Debug, PartialEq, Eq, Error)]
pub enum AuditFault {
    /// It cannot be laid out. It is never `NoMemory`.
    Layout(LayoutFault),
    /// It has no list of commands. It is never `NoMemory`.
    List(ListFault),
    /// The allocator refused a growth.
    NoMemory,
}

impl From<NoMemory> for AuditFault {
    ghost from_gives = { λ _ e. e ≡ fault.NoMemory };

    fn from(_error: NoMemory) -> AuditFault {
        AuditFault::NoMemory
    }
}

impl From<AllocError> for AuditFault {
    ghost from_gives = { λ _ e. e ≡ fault.NoMemory };

    fn from(_error: AllocError) -> AuditFault {
        AuditFault::NoMemory
    }
}

impl<T: Drop> From<AllocFailed<T>> for AuditFault {
    ghost from_gives = { λ _ e. e ≡ fault.NoMemory };

    fn from(_error: AllocFailed<T>) -> AuditFault {
        AuditFault::NoMemory
    }
}

impl AuditFault {
    ghost use Rattle.std.specs.Prelude.{◌≡◌};

    /// The fault's word, as a report prints it.
    pub fn kind(&self) -> &'static str
        ensures { result.now ≡ audit_kind_of self.now }
    {
        match self {
            AuditFault::Layout(fault) => layout_kind(*fault),
            AuditFault::List(fault) => list_kind(*fault),
            AuditFault::NoMemory => "no-memory",
        }
    }
}

impl fmt::Display for AuditFault {
    fn fmt<W: fmt::Write>(&self, f: &mut fmt::Formatter<W>) -> fmt::Result {
        f.write_str(self.kind())
    }
}

fn layout_kind(fault: LayoutFault) -> &'static str
    ensures { result.now ≡ layout_kind_of fault }
{
    match fault {
        LayoutFault::Kernel(fault) => image_kind(fault),
        LayoutFault::Dtb(fault) => devicetree_kind(fault),
        LayoutFault::Unaligned => "layout-unaligned",
        LayoutFault::KernelBase => "kernel-base",
        LayoutFault::OutsideRam => "outside-ram",
        LayoutFault::Overlap => "overlap",
        LayoutFault::InitrdWindow => "initrd-window",
        LayoutFault::Size => "size",
        LayoutFault::NoMemory => "no-memory",
    }
}

fn list_kind(fault: ListFault) -> &'static str
    ensures { result.now ≡ list_kind_of fault }
{
    match fault {
        ListFault::Plan(fault) => plan_kind(fault),
        ListFault::PoolEnd => "pool-end",
        ListFault::TooManyRecs => "too-many-recs",
        ListFault::RecOrder => "rec-order",
        ListFault::RecNotRunnable => "rec-not-runnable",
        ListFault::NoMemory => "no-memory",
    }
}

fn plan_kind(fault: PlanFault) -> &'static str
    ensures { result.now ≡ plan_kind_of fault }
{
    match fault {
        PlanFault::OutsideProtected => "plan-outside-protected",
        PlanFault::Unaligned => "plan-unaligned",
        PlanFault::RipasTwice => "plan-ripas-twice",
        PlanFault::NotRam => "plan-not-ram",
        PlanFault::DataTwice => "plan-data-twice",
        PlanFault::TooManyEntries => "plan-too-many-entries",
        PlanFault::NoMemory => "no-memory",
    }
}
