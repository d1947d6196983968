//! A launch with what came of it.
ghost use Rattle.std.specs.Prelude.{◌≡◌, IfOk, OnOk, codes, map, option_map};
ghost use Rattle.sha2.specs.Sha256.{sha256};
ghost use Rattle.serde_json.specs.Data.{no_members, put as with_member};
ghost use Rattle.serde_json.specs.View.{members_view, view};
ghost use Rattle.ipa_layout.specs.Files.{bytes_of_files};
ghost use Rattle.map_rows.specs.Stretches.{region_stretch};
ghost use Rattle.rim_accepted.specs.Lines.{seen};
ghost use Rattle.launch_json.specs.Items.{stretch_json};
ghost use Rattle.rim_json.specs.ReportJson.{edited_json, items_at, launch_members, with_outcome, with_refusal};

use crate::parameters::{parameters_value, recs_value};
use base64::engine::general_purpose::STANDARD;
use ipa_layout::Placed;
use launch_json::{
    FileDigest, Members, item_values, put_count, put_text, put_values, stated_values,
    stretch_values,
};
use map_rows::{Shown, Stretch, item_rows};
use refusal::NoMemory;
use rim_accepted::AuditFault;
use rim_desc::{Algo, Measurement};
use rim_launch::Region;
use rim_manifest::NamedLaunch;
use rmi_line::digest;
use serde_json::{Value, json, put};
use sha2::{Digest, Sha256};
use shown_text::{Remark, remark_value};
use std::alloc::{AllocError, Global};

/// The items of a launch: at their places where it can be laid out, and else as the manifest states them. Each has the digest of its
/// file.
pub(crate) fn items(
    alloc: Global,
    shown: Shown<'_>,
    files: &[Vec<u8>],
    digests: &[FileDigest],
    place: Option<&Placed>,
) -> Result<Vec<Value>, NoMemory>
    requires { digests.now ≡ map sha256 (bytes_of_files files.now) }
    ensures { IfOk result (λ values. map view values.items
        ≡ items_at shown.entry.release.now.paths (bytes_of_files files.now) shown.entry.launch.now
        (option_map (λ p. p.now) place.entry)) }
{
    match place {
        Some(placed) => {
            let rows = item_rows(alloc, shown.launch.launch(), files, placed)?;
            Ok(item_values(alloc, shown, Some(digests), &rows)?)
        }
        None => Ok(stated_values(alloc, shown, Some(digests))?),
    }
}

/// Adds what a launch is, with these items.
#[tactic(auto, unfolding(crate::specs::ReportJson::launch_members))]
pub(crate) fn put_launch(
    alloc: Global,
    members: &mut Members,
    launch: &NamedLaunch,
    items: Vec<Value>,
) -> Result<(), AllocError>
    requires { members_view members.old.entries ≡ no_members }
    ensures { OnOk result (members_view members.new.entries
        ≡ launch_members (map view items.items) launch.now) }
{
    let name = launch.name();
    let launch = launch.launch();
    let config = launch.config();
    put_text(alloc, members, "algorithm", config.algo.word())?;
    put_count(alloc, members, "block_level", u64::from(config.block_level))?;
    put_values(alloc, members, "items", items)?;
    put_text(alloc, members, "name", name)?;
    let parameters = parameters_value(alloc, &config)?;
    put(members, alloc, "parameters", parameters)?;
    let ram = ram_values(alloc, launch.ram())?;
    put_values(alloc, members, "ram", ram)?;
    let recs = recs_value(alloc, launch)?;
    put(members, alloc, "recs", recs)?;
    let rpv = hex::encode(alloc, config.rpv)?;
    put_text(alloc, members, "rpv", &rpv)?;
    put_count(alloc, members, "s2sz", u64::from(config.s2sz))
}

/// The regions of RAM.
fn ram_values(alloc: Global, ram: &[Region]) -> Result<Vec<Value>, AllocError>
    ensures { IfOk result (λ values. map view values.items
        ≡ map stretch_json (map region_stretch ram.now)) }
{
    let mut regions = Vec::with_capacity(alloc, ram.len())?;
    for region in ram {
        regions.push(Stretch {
            base: region.base,
            end: region.end,
        })?;
    }
    stretch_values(alloc, &regions)
}

/// Adds the digest of the devicetree that a launch edits, as it is placed, or null where it edits none or cannot be laid out.
pub(crate) fn put_edited(
    alloc: Global,
    members: &mut Members,
    place: Option<&Placed>,
) -> Result<(), AllocError>
    ensures { OnOk result (members_view members.new.entries ≡ with_member (codes "edited_sha256")
        (edited_json (option_map (λ p. p.now) place.entry)) (members_view members.old.entries)) }
{
    let value = edited_value(alloc, place)?;
    put(members, alloc, "edited_sha256", value)
}

fn edited_value(alloc: Global, place: Option<&Placed>) -> Result<Value, AllocError>
    ensures { IfOk result (λ v. view v ≡ edited_json (option_map (λ p. p.now) place.entry)) }
{
    let Some(placed) = place else {
        return Ok(Value::Null);
    };
    match placed.edited() {
        Some(bytes) => {
            let digits = hex::encode(alloc, Sha256::digest(bytes))?;
            json!(in alloc; digits)
        }
        None => Ok(Value::Null),
    }
}

/// Adds what came of a launch: its measurement, or the word of its refusal.
pub(crate) fn put_outcome(
    alloc: Global,
    members: &mut Members,
    algo: Algo,
    outcome: Option<&Result<Measurement, AuditFault>>,
) -> Result<(), AllocError>
    ensures { OnOk result (members_view members.new.entries
        ≡ with_outcome algo (option_map (λ o. seen o.now) outcome.entry)
        (members_view members.old.entries)) }
{
    match outcome {
        Some(Ok(rim)) => put_rim(alloc, members, algo, rim),
        Some(Err(fault)) => put_text(alloc, members, "refused", fault.kind()),
        None => Ok(()),
    }
}

/// Adds a measurement, as hexadecimal digits and in base64.
fn put_rim(
    alloc: Global,
    members: &mut Members,
    algo: Algo,
    rim: &Measurement,
) -> Result<(), AllocError>
    ensures { OnOk result (members_view members.new.entries
        ≡ with_outcome algo (Some (Ok rim.now.bytes)) (members_view members.old.entries)) }
{
    let bytes = digest(algo, rim);
    let digits = hex::encode(alloc, bytes)?;
    put_text(alloc, members, "rim", &digits)?;
    let base64 = STANDARD.encode(alloc, bytes)?;
    put_text(alloc, members, "rim_base64", &base64)
}

/// Adds the line of the remark that says why a launch is refused, where there is one.
pub(crate) fn put_refusal(
    alloc: Global,
    members: &mut Members,
    remark: Option<&Remark>,
) -> Result<(), AllocError>
    ensures { OnOk result (members_view members.new.entries
        ≡ with_refusal (option_map (λ r. r.now) remark.entry) (members_view members.old.entries)) }
{
    match remark {
        Some(remark) => {
            let line = remark_value(alloc, remark)?;
            put(members, alloc, "refusal", line)
        }
        None => Ok(()),
    }
}
