//! The map of a launch that is refused, as far as it goes: the items at their places where its list is refused, and as the manifest
//! states them where it cannot be laid out. What its lines show before the last one is tested alone.
ghost use Rattle.std.specs.Prelude.{◌≡◌, IfOk, OnOk, codes};
ghost use Rattle.serde_json.specs.Data.{put as with_member, string};
ghost use Rattle.serde_json.specs.View.{members_view, view};
ghost use Rattle.ipa_layout.specs.Files.{bytes_of_files};
ghost use Rattle.rim_accepted.specs.AuditFaults.{audit_kind_of};
ghost use Rattle.rim_accepted.specs.Reasons.{audit_fault_of};
ghost use Rattle.rim_map.specs.RefusedMap.{EndsWithRemark, IsRefusedMap, ShowsSpace, refused_data};
ghost use Rattle.rim_map.specs.inside.Spaces.{IsStated, seen_space};
ghost use Rattle.shown_text.specs.RemarkJson.{remark_json};

use crate::json::{Space, placed_space, put_head, put_space};
use crate::json_parts::region_values;
use launch_json::{Members, json_text, put_text, stated_values, stretch_values};
use map_rows::{Shown, between, item_rows};
use map_text::{Lines, push_head, push_ram, push_space, push_stated};
use refusal::NoMemory;
use rim_accepted::{LaunchReason, RefusedLaunch};
use rim_manifest::Release;
use serde_json::{Map, Value, put};
use shown_text::{Remark, remark_value};
use std::alloc::{AllocError, Global};

/// The map of a launch that is refused: a line with what it is, its address space as far as it is known, and the line that says why
/// it is refused. No line but that one has more than 100 columns.
pub fn refused_text(
    alloc: Global,
    release: &Release,
    refused: &RefusedLaunch<'_>,
    remark: &Remark,
) -> Result<Vec<u8>, NoMemory>
    ensures { IfOk result (λ text. EndsWithRemark remark.now text.items) }
{
    let mut text = lines_before(alloc, release, refused)?.into_bytes();
    remark.push_to(&mut text)?;
    text.push(b'\n')?;
    Ok(text)
}

/// The lines of the map before the last one.
fn lines_before(
    alloc: Global,
    release: &Release,
    refused: &RefusedLaunch<'_>,
) -> Result<Lines, NoMemory> {
    let launch = refused.named;
    let shown = Shown { release, launch };
    let mut text = Lines::new(alloc);
    push_head(alloc, &mut text, launch)?;
    match &refused.reason {
        LaunchReason::List { placed, .. } => {
            let rows = item_rows(alloc, launch.launch(), refused.files, placed)?;
            push_space(alloc, &mut text, shown, &rows)?;
        }
        LaunchReason::Layout(_) => {
            push_ram(alloc, &mut text, launch.launch())?;
            push_stated(alloc, &mut text, shown)?;
        }
    }
    Ok(text)
}

/// The same as JSON: one object without spaces, and a line feed. Beside the members of [`crate::map_json`] but `extensions`,
/// `granules` and `warnings` it has `refusal`, the line that says why the launch is refused, and `refused`, the word in it. Items that
/// have no places have `stated`, their `at` and `size` as the manifest states them, in the place of `place`.
pub fn refused_json(
    alloc: Global,
    release: &Release,
    refused: &RefusedLaunch<'_>,
    remark: &Remark,
) -> Result<Vec<u8>, NoMemory>
    ensures { IfOk result (λ text. IsRefusedMap release.now.paths refused.now.named.now
        (bytes_of_files refused.now.files.now) refused.now.reason remark.now text.items) }
{
    let space = shown_space(alloc, release, refused)?;
    let value = refused_value(alloc, refused, remark, space)?;
    json_text(alloc, &value)
}

/// The address space of a launch, as far as it is known.
fn shown_space(
    alloc: Global,
    release: &Release,
    refused: &RefusedLaunch<'_>,
) -> Result<Space, NoMemory>
    ensures { IfOk result (λ space. ShowsSpace release.now.paths refused.now.named.now
        (bytes_of_files refused.now.files.now) refused.now.reason (seen_space space)) }
{
    let launch = refused.named;
    let shown = Shown { release, launch };
    match &refused.reason {
        LaunchReason::List { placed, .. } => {
            let rows = item_rows(alloc, launch.launch(), refused.files, placed)?;
            placed_space(alloc, shown, &rows)
        }
        LaunchReason::Layout(_) => space_as_stated(alloc, shown),
    }
}

/// The RAM of a launch, and its items as the manifest states them.
fn space_as_stated(alloc: Global, shown: Shown<'_>) -> Result<Space, NoMemory>
    ensures { IfOk result (λ space. IsStated shown.entry.release.now.paths shown.entry.launch.now
        (seen_space space)) }
{
    let launch = shown.launch.launch();
    let gaps = between(alloc, launch.ram())?;
    Ok(Space {
        gaps: stretch_values(alloc, &gaps)?,
        items: stated_values(alloc, shown, None)?,
        regions: region_values(alloc, launch.ram(), &[])?,
    })
}

/// The map as a JSON value.
#[tactic(auto, unfolding(crate::specs::RefusedMap::refused_data))]
fn refused_value(
    alloc: Global,
    refused: &RefusedLaunch<'_>,
    remark: &Remark,
    space: Space,
) -> Result<Value, AllocError>
    ensures { IfOk result (λ v. view v ≡ refused_data refused.now.named.now (seen_space space)
        remark.now (audit_kind_of (audit_fault_of refused.now.reason))) }
{
    let mut members = Map::new(alloc);
    put_space(alloc, &mut members, space)?;
    put_head(alloc, &mut members, refused.named)?;
    put_refusal(alloc, &mut members, refused, remark)?;
    Ok(Value::Object(members))
}

/// Adds the line that says why a launch is refused, and the word in it.
fn put_refusal(
    alloc: Global,
    members: &mut Members,
    refused: &RefusedLaunch<'_>,
    remark: &Remark,
) -> Result<(), AllocError>
    ensures { OnOk result (members_view members.new.entries
        ≡ with_member (codes "refused")
        (string (audit_kind_of (audit_fault_of refused.now.reason)))
        (with_member (codes "refusal") (remark_json remark.now)
        (members_view members.old.entries))) }
{
    let refusal = remark_value(alloc, remark)?;
    put(members, alloc, "refusal", refusal)?;
    put_text(alloc, members, "refused", refused.fault().kind())
}
