//! A launch is accepted or refused: it is laid out and listed, each once.
ghost use Rattle.std.specs.Prelude.{◌≡◌, IfErr, IfOk, Ok};
ghost use Rattle.ipa_layout.specs.Files.{bytes_of_files};
ghost use Rattle.rmi_list.specs.Listed.{HasPlace};
ghost use Rattle.rim_accepted.specs.Accepted.{accepted_of};
ghost use Rattle.rim_accepted.specs.Outcomes.{IsReasoned};
ghost use Rattle.rim_accepted.specs.Reasons.{HasCount, IsRefusedFor};

use super::{AcceptedLaunch, ListedLaunch};
use crate::loaded::LoadedLaunch;
use crate::reason::LaunchReason;
use crate::refused::RefusedLaunch;
use ipa_layout::{Placed, place_with_reason};
use refusal::NoMemory;
use rim_launch::Launch;
use rmi_list::{ListFault, granules_taken, list_with_reason};
use std::alloc::Global;

/// Accepts a launch, or refuses it with its first reason: of its layout, else of its list. No list is kept.
pub fn accept<'a>(
    alloc: Global,
    loaded: LoadedLaunch<'a>,
) -> Result<Result<AcceptedLaunch<'a>, RefusedLaunch<'a>>, NoMemory>
    ensures reason { IfOk result (IsReasoned loaded.entry.launch.now.launch
        (bytes_of_files loaded.entry.files.now)) }
    ensures own { IfOk result (λ found. IfOk found (λ a.
        (a.named.now ≡ loaded.entry.launch.now) × (a.files.now ≡ loaded.entry.files.now))) }
    ensures own_refusal { IfOk result (λ found. IfErr found (λ r.
        (r.named.now ≡ loaded.entry.launch.now) × (r.files.now ≡ loaded.entry.files.now))) }
{
    match accept_with_list(alloc, loaded)? {
        Ok(listed) => Ok(Ok(listed.accepted)),
        Err(refused) => Ok(Err(refused)),
    }
}

/// The same, with the list of commands of a launch that is accepted.
pub fn accept_with_list<'a>(
    alloc: Global,
    loaded: LoadedLaunch<'a>,
) -> Result<Result<ListedLaunch<'a>, RefusedLaunch<'a>>, NoMemory>
    ensures accepted { IfOk result (λ found. IfOk found (λ x.
        accepted_of loaded.entry.launch.now.launch (bytes_of_files loaded.entry.files.now)
        ≡ Ok x.accepted.placed)) }
    ensures refused { IfOk result (λ found. IfErr found (λ r. IsRefusedFor
        loaded.entry.launch.now.launch (bytes_of_files loaded.entry.files.now) r.reason)) }
    ensures own { IfOk result (λ found. IfOk found (λ x.
        (x.accepted.named.now ≡ loaded.entry.launch.now)
        × (x.accepted.files.now ≡ loaded.entry.files.now))) }
    ensures own_refusal { IfOk result (λ found. IfErr found (λ r.
        (r.named.now ≡ loaded.entry.launch.now) × (r.files.now ≡ loaded.entry.files.now))) }
{
    let LoadedLaunch {
        launch: named,
        files,
    } = loaded;
    let launch = named.launch();
    let placed = match place_with_reason(alloc, launch, files)? {
        Ok(placed) => placed,
        Err(reason) => {
            let reason = LaunchReason::Layout(reason);
            return Ok(Err(RefusedLaunch {
                named,
                files,
                reason,
            }));
        }
    };
    match list_with_reason(alloc, launch, &placed)? {
        Ok(plan) => Ok(Ok(ListedLaunch {
            accepted: AcceptedLaunch {
                named,
                files,
                placed,
            },
            plan,
        })),
        Err(reason) => {
            let granules = granules_of(alloc, launch, &placed, reason.fault())?;
            let reason = LaunchReason::List {
                placed,
                reason,
                granules,
            };
            Ok(Err(RefusedLaunch {
                named,
                files,
                reason,
            }))
        }
    }
}

/// How many granules a launch takes whose list is refused so, where its pool has too few.
fn granules_of(
    alloc: Global,
    launch: &Launch,
    placed: &Placed,
    fault: ListFault,
) -> Result<Option<u64>, NoMemory>
    requires { HasPlace launch.now placed.now }
    ensures { IfOk result (HasCount launch.now placed.now fault) }
{
    match fault {
        ListFault::PoolEnd => granules_taken(alloc, launch, placed),
        _ => Ok(None),
    }
}
