//! The devicetree of a launch as it is placed.
ghost use Rattle.std.specs.Prelude.{◌≡◌, option_map, IfOk};
ghost use Rattle.std.specs.List.{slice_get};
ghost use Rattle.refusal.specs.Answer.{Answers};
ghost use Rattle.rim_launch.specs.Kinds.{has_role};
ghost use Rattle.ipa_layout.specs.Files.{bytes_of_files};
ghost use Rattle.rim_accepted.specs.Devicetree.{devicetree_in, devicetree_number, devicetree_of};

use crate::accepted::{AcceptedLaunch, accept};
use crate::audit_fault::AuditFault;
use crate::loaded::LoadedLaunch;
use refusal::NoMemory;
use rim_launch::{Launch, Role};
use std::alloc::Global;

/// The devicetree of a launch, as it is placed: the bytes of its file, or the edited ones. `None` where the launch has no devicetree.
/// A launch that is refused has no devicetree to give, and its first refusal is the error.
#[tactic(auto, unfolding(crate::specs::Devicetree::devicetree_of))]
pub fn placed_devicetree(
    alloc: Global,
    loaded: LoadedLaunch<'_>,
) -> Result<Option<Vec<u8>>, AuditFault>
    ensures { Answers AuditFault.NoMemory (option_map (λ bytes. bytes.items)) result
        (devicetree_of loaded.entry.launch.now.launch (bytes_of_files loaded.entry.files.now)) }
{
    let accepted = match accept(alloc, loaded)? {
        Ok(accepted) => accepted,
        Err(refused) => return Err(refused.fault()),
    };
    match devicetree_bytes(&accepted) {
        Some(bytes) => Ok(Some(copied(alloc, bytes)?)),
        None => Ok(None),
    }
}

/// The bytes of the devicetree of a launch that is accepted, if it has one.
fn devicetree_bytes<'a>(accepted: &'a AcceptedLaunch<'_>) -> Option<&'a [u8]>
    ensures { option_map (λ bytes. bytes.now) result ≡ devicetree_in
        accepted.entry.now.named.now.launch (bytes_of_files accepted.entry.now.files.now)
        accepted.entry.now.placed }
{
    let number = number_of(accepted.launch())?;
    let item = accepted.placed().items().get(number)?;
    accepted.bytes_of(item)
}

/// Which item of a launch is its devicetree, if it has one.
fn number_of(launch: &Launch) -> Option<usize>
    ensures { result ≡ devicetree_number launch.now }
{
    launch
        .items()
        .iter()
        .position(|item| item.has_role(Role::Dtb))
}

/// A copy of some bytes.
fn copied(alloc: Global, bytes: &[u8]) -> Result<Vec<u8>, NoMemory>
    ensures { IfOk result (λ copy. copy.items ≡ bytes.now) }
{
    let mut copy = Vec::with_capacity(alloc, bytes.len())?;
    copy.extend_from_slice(bytes)?;
    Ok(copy)
}
