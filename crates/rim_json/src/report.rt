//! The report of a release as JSON.
ghost use Rattle.std.specs.Prelude.{◌≡◌, [], ◌∷◌, IfOk, OnOk, Some, codes, map, option_map};
ghost use Rattle.std.specs.List.{slice_get};
ghost use Rattle.std.specs.Result.{result_ok};
ghost use Rattle.serde_json.specs.Data.{array, put as with_member};
ghost use Rattle.serde_json.specs.View.{items_of, members_view, view};
ghost use Rattle.sha2.specs.Sha256.{sha256};
ghost use Rattle.ipa_layout.specs.Layout.{places};
ghost use Rattle.rim_accepted.specs.Lines.{seen};
ghost use Rattle.rim_json.specs.ReportJson.{edited_json, file_json, items_at, launch_json, launches_json, remark_at, report_text, reported_data, with_outcome, with_refusal};
ghost use Rattle.rim_json.specs.inside.Seen.{news_of, reported};

use crate::files::{file_value, file_values};
use crate::launch::{items, put_edited, put_launch, put_outcome, put_refusal};
use crate::reported::Reported;
use launch_json::{Members, json_text, put_count, put_text, put_values};
use map_rows::Shown;
use refusal::NoMemory;
use rim_accepted::AuditFault;
use rim_desc::Measurement;
use rim_manifest::NamedLaunch;
use serde_json::{Map, Value};
use sha2::{Digest, Sha256};
use shown_text::Remark;
use std::alloc::{AllocError, Global};

/// Returns the report as JSON: one object without spaces, and a line feed. Its members are `files` and
/// `launches`, each in the manifest's order; `manifests`, of which the manifest's own file is the only one, so that reports can be joined;
/// `pages`, the number of different measured pages;
/// `program`, the program's name and version as they are given; and `version`, which is 4. A file has `bytes`, how many it has; `path`;
/// and `sha256`, the digest of its bytes (FIPS 180-4) in lower case hexadecimal digits. A launch has what it is: `algorithm`,
/// `block_level`, `items`, `name`, `parameters`, `ram`, `recs`, `rpv` and `s2sz`, and as `edited_sha256` the digest of the devicetree that it
/// edits, if any; and the measurement, as `rim` in lower case hexadecimal
/// digits and as `rim_base64` in base64 (RFC 4648, section 4); or `refused`, the word of its refusal, and `refusal`, the line that says
/// why. The files are not hashed here: their digests are given.
pub fn json_report(alloc: Global, given: &Reported<'_, '_>) -> Result<Vec<u8>, NoMemory>
    ensures { IfOk result (λ text. text.items ≡ report_text (record {
      program = given.now.program.now;
      path = given.now.path.now;
      bytes = given.now.bytes.now;
      paths = given.now.accepted.now.release.paths;
      files = given.now.accepted.now.files;
      launches = given.now.accepted.now.release.launches;
      news = record {
        outcomes = map seen given.now.outcomes.now;
        remarks = given.now.remarks.now;
      };
      pages = given.now.pages;
    })) }
{
    let value = report_value(alloc, given)?;
    json_text(alloc, &value)
}

/// The report as a JSON value.
#[tactic(auto, unfolding(crate::specs::ReportJson::report_data))]
fn report_value(alloc: Global, given: &Reported<'_, '_>) -> Result<Value, NoMemory>
    ensures { IfOk result (λ v. view v ≡ reported_data (reported given.now)) }
{
    let mut members = Map::new(alloc);
    let files = file_values(alloc, given.accepted.loaded(), given.digests)?;
    put_values(alloc, &mut members, "files", files)?;
    let launches = launch_values(alloc, given)?;
    put_values(alloc, &mut members, "launches", launches)?;
    put_manifest(alloc, &mut members, given)?;
    put_count(alloc, &mut members, "pages", given.pages)?;
    put_text(alloc, &mut members, "program", given.program)?;
    put_count(alloc, &mut members, "version", 4)?;
    Ok(Value::Object(members))
}

/// Adds the manifest's own file.
fn put_manifest(
    alloc: Global,
    members: &mut Members,
    given: &Reported<'_, '_>,
) -> Result<(), AllocError>
    ensures { OnOk result (members_view members.new.entries
        ≡ with_member (codes "manifests")
        (array (items_of (file_json given.now.path.now given.now.bytes.now ∷ [])))
        (members_view members.old.entries)) }
{
    let digest = Sha256::digest(given.bytes);
    let mut manifests = Vec::with_capacity(alloc, 1)?;
    manifests.push(file_value(alloc, given.path, given.bytes, &digest)?)?;
    put_values(alloc, members, "manifests", manifests)
}

/// Each launch with what came of it.
fn launch_values(alloc: Global, given: &Reported<'_, '_>) -> Result<Vec<Value>, NoMemory>
    ensures { IfOk result (λ values. map view values.items
        ≡ launches_json given.now.accepted.now.release.paths given.now.accepted.now.files
        (news_of given.now) 0 given.now.accepted.now.release.launches) }
{
    let launches = given.accepted.launches();
    let mut values = Vec::with_capacity(alloc, launches.len())?;
    for number in 0..launches.len() {
        let shown = Shown {
            release: given.accepted.release(),
            launch: &launches[number],
        };
        values.push(launch_value(alloc, given, shown, number)?)?;
    }
    Ok(values)
}

/// The launch of a number with what came of it.
#[tactic(auto, unfolding(crate::specs::ReportJson::launch_json))]
fn launch_value(
    alloc: Global,
    given: &Reported<'_, '_>,
    shown: Shown<'_>,
    number: usize,
) -> Result<Value, NoMemory>
    requires launch { slice_get given.now.accepted.now.release.launches number
        ≡ Some shown.launch.now }
    requires release { shown.release.now ≡ given.now.accepted.now.release }
    ensures { IfOk result (λ v. view v ≡ launch_json given.now.accepted.now.release.paths
        given.now.accepted.now.files (slice_get (map seen given.now.outcomes.now) number)
        (remark_at given.now.remarks.now number) shown.entry.launch.now) }
{
    let items = items_of(alloc, given, shown, number)?;
    let mut members = Map::new(alloc);
    put_launch(alloc, &mut members, shown.launch, items)?;
    put_devicetree(alloc, &mut members, given, shown.launch, number)?;
    put_news(alloc, &mut members, given, shown.launch, number)?;
    Ok(Value::Object(members))
}

/// The items of the launch of a number.
fn items_of(
    alloc: Global,
    given: &Reported<'_, '_>,
    shown: Shown<'_>,
    number: usize,
) -> Result<Vec<Value>, NoMemory>
    requires launch { slice_get given.now.accepted.now.release.launches number
        ≡ Some shown.launch.now }
    requires release { shown.release.now ≡ given.now.accepted.now.release }
    ensures { IfOk result (λ values. map view values.items
        ≡ items_at given.now.accepted.now.release.paths given.now.accepted.now.files
        shown.entry.launch.now
        (result_ok (places shown.entry.launch.now.launch given.now.accepted.now.files))) }
{
    let accepted = given.accepted;
    let place = accepted.place(number);
    items(alloc, shown, accepted.files(), given.digests, place)
}

/// Adds the digest of the devicetree that the launch of a number edits.
fn put_devicetree(
    alloc: Global,
    members: &mut Members,
    given: &Reported<'_, '_>,
    launch: &NamedLaunch,
    number: usize,
) -> Result<(), AllocError>
    requires { slice_get given.now.accepted.now.release.launches number ≡ Some launch.now }
    ensures { OnOk result (members_view members.new.entries ≡ with_member (codes "edited_sha256")
        (edited_json (result_ok (places launch.now.launch given.now.accepted.now.files)))
        (members_view members.old.entries)) }
{
    put_edited(alloc, members, given.accepted.place(number))
}

/// Adds what came of the launch of a number.
fn put_news(
    alloc: Global,
    members: &mut Members,
    given: &Reported<'_, '_>,
    launch: &NamedLaunch,
    number: usize,
) -> Result<(), AllocError>
    ensures { OnOk result (members_view members.new.entries
        ≡ with_refusal (remark_at given.now.remarks.now number)
        (with_outcome launch.now.launch.config.algo
        (slice_get (map seen given.now.outcomes.now) number)
        (members_view members.old.entries))) }
{
    let algo = launch.launch().config().algo;
    put_outcome(alloc, members, algo, outcome_at(given.outcomes, number))?;
    put_refusal(alloc, members, remark_at(given.remarks, number))
}

/// What came of the launch of a number, if there is one.
#[tactic(auto, using(crate::proofs::ReportAsJson::get_seen))]
fn outcome_at(
    outcomes: &[Result<Measurement, AuditFault>],
    number: usize,
) -> Option<&Result<Measurement, AuditFault>>
    ensures { option_map (λ o. seen o.now) result
        ≡ slice_get (map seen outcomes.entry.now) number }
{
    Some(outcomes.get(number)?)
}

/// The remark on the launch of a number, if there is one.
fn remark_at(remarks: &[Option<Remark>], number: usize) -> Option<&Remark>
    ensures { option_map (λ r. r.now) result ≡ remark_at remarks.entry.now number }
{
    remarks.get(number)?.as_ref()
}
