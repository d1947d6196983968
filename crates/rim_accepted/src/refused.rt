//! A launch that is refused.
use crate::audit_fault::AuditFault;
use crate::reason::LaunchReason;
use rim_manifest::NamedLaunch;

/// A launch that is refused, with its names, the files of its release and the reason of its first refusal.
#[derive(Drop)]
pub struct RefusedLaunch<'a> {
    pub named: &'a NamedLaunch,
    pub files: &'a [Vec<u8>],
    pub reason: LaunchReason,
}

impl<'a> RefusedLaunch<'a> {
    ghost use Rattle.std.specs.Prelude.{◌≡◌};
    ghost use Rattle.rim_accepted.specs.Reasons.{audit_fault_of};

    /// Returns the fault that the launch is refused with.
    pub fn fault(&self) -> AuditFault
        ensures { result ≡ audit_fault_of self.now.reason }
    {
        self.reason.fault()
    }
}
