//! The map of a launch.
ghost use Rattle.std.specs.Prelude.{◌≤◌, IfOk};
ghost use Rattle.rim_cli.specs.Mapped.{IsMapOf, ShowsPlaced, ShowsRefusal};
ghost use Rattle.rim_check.specs.Explained.{refusal_said};
ghost use Rattle.shown_text.specs.Lines.{Says};
ghost use Rattle.shown_text.specs.declared.remark.Remark.{Remark};
ghost use Rattle.ipa_layout.specs.Files.{bytes_of_files};

use crate::answer::Answer;
use refusal::NoMemory;
use rim_accepted::{ListedLaunch, LoadedLaunch, RefusedLaunch, accept_with_list};
use rim_check::refusal_remark;
use rim_manifest::Release;
use rim_map::{map_json, map_text, refused_json, refused_text};
use rim_words::Format;
use std::alloc::Global;

/// Answers with the map of a launch of a release in a format, as far as it goes: status 1 where the launch is refused.
pub fn map_of(
    alloc: Global,
    release: &Release,
    loaded: LoadedLaunch<'_>,
    format: Format,
) -> Result<Answer, NoMemory>
    ensures map { IfOk result (λ a. IsMapOf format release.now.paths loaded.entry.launch.now
        (bytes_of_files loaded.entry.files.now) a.text.items a.status) }
    ensures status { IfOk result (λ a. a.status ≤ 1) }
{
    match accept_with_list(alloc, loaded)? {
        Ok(listed) => {
            let text = accepted_map(alloc, release, &listed, format)?;
            Ok(Answer::new(alloc, text, 0))
        }
        Err(refused) => {
            let text = refused_map(alloc, release, &refused, format)?;
            Ok(Answer::new(alloc, text, 1))
        }
    }
}

/// The map of a launch that is accepted.
fn accepted_map(
    alloc: Global,
    release: &Release,
    listed: &ListedLaunch<'_>,
    format: Format,
) -> Result<Vec<u8>, NoMemory>
    ensures { IfOk result (λ text. ShowsPlaced format release.now.paths
        listed.now.accepted.named.now (bytes_of_files listed.now.accepted.files.now)
        listed.now.accepted.placed text.items) }
{
    match format {
        Format::Text => map_text(alloc, release, listed),
        Format::Json => map_json(alloc, release, listed),
    }
}

/// The map of a launch that is refused, with the line that a check prints of it.
fn refused_map(
    alloc: Global,
    release: &Release,
    refused: &RefusedLaunch<'_>,
    format: Format,
) -> Result<Vec<u8>, NoMemory>
    ensures { IfOk result (λ text. (remark : Remark)
        × Says (refusal_said refused.now.named.now refused.now.reason) remark
        × ShowsRefusal format release.now.paths refused.now.named.now
        (bytes_of_files refused.now.files.now) refused.now.reason remark text.items) }
{
    let remark = refusal_remark(alloc, refused)?;
    match format {
        Format::Text => refused_text(alloc, release, refused, &remark),
        Format::Json => refused_json(alloc, release, refused, &remark),
    }
}
