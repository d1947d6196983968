//! The launches of a release that are refused.
ghost use Rattle.std.specs.Prelude.{◌≡◌, [], ◌++◌, IfOk, Ok, OnOk, length, true, vec_len};
ghost use Rattle.ipa_layout.specs.Files.{bytes_of_files};
ghost use Rattle.rim_check.specs.Explained.{IsLaunchCheck, refusal_said};
ghost use Rattle.shown_text.specs.Lines.{AddsLine, Says};
ghost use Rattle.rim_check.specs.inside.Found.{AddsFound, AddsNumber, numbers_of};
ghost use Rattle.rim_pages.specs.Pages.{keys_at};

use crate::detail::{reason_detail, reason_expected};
use crate::found::{Found, LaunchCheck};
use crate::mending::mending_of;
use refusal::NoMemory;
use rim_accepted::{AcceptedLaunch, LoadedLaunch, LoadedRelease, RefusedLaunch, accept};
use rim_unusual::find_unusual;
use shown_text::{Line, Remark, Word, launch_place, push_remark};
use std::alloc::Global;

/// A remark for each launch that is refused, in the manifest's order: its name, the word of its refusal as the report has
/// it, and what is at fault. Then one where the release has too many different measured pages, and beside them the warnings of
/// the launches that are accepted, unless the check is quiet. What is at fault is what keeps `rim measure` from a report without a
/// refused launch.
pub fn check_launches(
    alloc: Global,
    loaded: LoadedRelease<'_>,
    is_quiet: bool,
) -> Result<LaunchCheck, NoMemory>
    ensures { IfOk result (IsLaunchCheck (bytes_of_files loaded.entry.files.now)
        loaded.entry.release.now.launches) }
{
    let LoadedRelease { release, files } = loaded;
    let launches = release.all_launches();
    let mut found = Found::new(alloc, is_quiet);
    for launch in launches {
        look_at(alloc, &mut found, LoadedLaunch { launch, files })?;
    }
    found.finish(alloc, launches)
}

/// Adds what is found of a launch.
fn look_at(alloc: Global, found: &mut Found, loaded: LoadedLaunch<'_>) -> Result<(), NoMemory>
    ensures { OnOk result (AddsFound (bytes_of_files loaded.entry.files.now)
        loaded.entry.launch.now found.old found.new) }
{
    match accept(alloc, loaded)? {
        Ok(accepted) => add_accepted(alloc, found, &accepted),
        Err(refused) => {
            found.has_refused = true;
            push_refusal(&mut found.refusals, &refused)
        }
    }
}

/// Adds the pages of a launch that is accepted, and what is rarely meant in it unless the check is quiet.
fn add_accepted(
    alloc: Global,
    found: &mut Found,
    accepted: &AcceptedLaunch<'_>,
) -> Result<(), NoMemory>
    ensures refusals { OnOk result ((found.new.refusals.items ≡ found.old.refusals.items)
        × (found.new.has_refused ≡ found.old.has_refused)) }
    ensures pages { OnOk result (found.new.pages
        ≡ found.old.pages ++ keys_at accepted.now.named.now.launch (Ok accepted.now.placed)) }
    ensures warnings { OnOk result (AddsNumber accepted.now.named.now.launch.number
        (numbers_of found.old.warnings) (numbers_of found.new.warnings)) }
{
    found.pages.add(accepted)?;
    if found.is_quiet {
        return Ok(());
    }
    let unusual = find_unusual(alloc, &mut found.seen, accepted)?;
    found.warnings.add_all(accepted.launch().number(), &unusual)
}

/// Adds the remark on a launch that is refused.
fn push_refusal(remarks: &mut Vec<Remark>, refused: &RefusedLaunch<'_>) -> Result<(), NoMemory>
    ensures { OnOk result (AddsLine (refusal_said refused.now.named.now refused.now.reason)
        remarks.old.items remarks.new.items) }
{
    let remark = refusal_remark(*remarks.allocator(), refused)?;
    push_remark(remarks, remark)
}

/// Returns the remark on a launch that is refused, with what helps to mend it.
pub fn refusal_remark(alloc: Global, refused: &RefusedLaunch<'_>) -> Result<Remark, NoMemory>
    ensures { IfOk result (Says (refusal_said refused.now.named.now refused.now.reason)) }
{
    let launch = refused.named;
    let reason = &refused.reason;
    let config = launch.launch().config();
    let given = reason_detail(alloc, launch, &config, reason)?;
    let expected = reason_expected(alloc, reason)?;
    let mending = mending_of(launch.launch(), refused.files, reason);
    let help = format!(in alloc; "{mending}")?;
    Ok(Remark {
        place: launch_place(alloc, launch.name(), 0)?,
        word: Word::Fault(reason.fault().kind()),
        given: Line::of(alloc, given.as_str())?,
        expected: Line::of(alloc, expected.as_str())?,
        help: Line::of(alloc, help.as_str())?,
        joint: mending.joint(),
    })
}
