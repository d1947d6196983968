//! Why a launch is refused, with all that the refusing check looked at.
use crate::audit_fault::AuditFault;
use ipa_layout::{LayoutReason, Placed};
use rmi_list::ListReason;

/// Why a launch is refused.
#[derive(Drop)]
pub enum LaunchReason {
    /// It cannot be laid out.
    Layout(LayoutReason),
    /// Its items have these places, but it has no list of commands. Where its pool has too few granules, it takes this many of
    /// the largest pool that a launch may have; none are said where it is refused with that pool too.
    List {
        placed: Placed,
        reason: ListReason,
        granules: Option<u64>,
    },
}

impl LaunchReason {
    ghost use Rattle.std.specs.Prelude.{◌≡◌};
    ghost use Rattle.rim_accepted.specs.Reasons.{audit_fault_of};

    /// The fault that the launch is refused with.
    pub fn fault(&self) -> AuditFault
        ensures { result ≡ audit_fault_of self.now }
    {
        match self {
            LaunchReason::Layout(reason) => AuditFault::Layout(reason.fault()),
            LaunchReason::List { reason, .. } => AuditFault::List(reason.fault()),
        }
    }
}
