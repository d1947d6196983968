//! A launch is laid out: its items are placed, and the commands that build its realm are listed.
ghost use Rattle.std.specs.Prelude.{◌≡◌, IfErr, IfOk};
ghost use Rattle.ipa_layout.specs.Files.{bytes_of_files};
ghost use Rattle.rim_accepted.specs.Accepted.{commands_for};
ghost use Rattle.rim_accepted.specs.Outcomes.{came_to};
ghost use Rattle.rim_audit.specs.inside.Commands.{commands_in};

use crate::commands::LaunchCommands;
use refusal::NoMemory;
use rim_accepted::{LoadedLaunch, RefusedLaunch, accept_with_list};
use rim_desc::Lanes;
use std::alloc::Global;

/// Places and lists a launch, and returns its commands, or the launch as it is refused. The pages of the commands are hashed in as many
/// lanes.
pub fn lay_out<'a>(
    alloc: Global,
    loaded: LoadedLaunch<'a>,
    lanes: Lanes,
) -> Result<Result<LaunchCommands<'a>, RefusedLaunch<'a>>, NoMemory>
    ensures commands { IfOk result (λ found. came_to commands_in found
        ≡ commands_for loaded.entry.launch.now.launch (bytes_of_files loaded.entry.files.now)) }
    ensures own { IfOk result (λ found. IfOk found (λ c.
        (c.accepted.named.now ≡ loaded.entry.launch.now)
        × (c.accepted.files.now ≡ loaded.entry.files.now))) }
    ensures own_refusal { IfOk result
        (λ found. IfErr found (λ r. r.named.now ≡ loaded.entry.launch.now)) }
{
    match accept_with_list(alloc, loaded)? {
        Ok(listed) => Ok(Ok(LaunchCommands {
            accepted: listed.accepted,
            plan: listed.plan,
            lanes,
        })),
        Err(refused) => Ok(Err(refused)),
    }
}
