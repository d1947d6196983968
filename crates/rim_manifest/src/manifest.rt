//! Reading a manifest.
ghost use Rattle.std.specs.Prelude.{◌≡◌, ◌<◌, [], ◌∷◌, ◌++◌, ◌||◌, IfOk, None, OnOk, Some, codes, length, map, position, slice_get, string_bytes};
ghost use Rattle.std.specs.List.{flat_map, list_any};
ghost use Rattle.refusal.specs.Answer.{Answers};
ghost use Rattle.toml.specs.Data.{get_member};
ghost use Rattle.toml.specs.View.{table_view, view};
ghost use Rattle.rim_manifest.specs.Faults.{lowest};
ghost use Rattle.rim_manifest.specs.Launches.{AreNumbered, ReleaseData, launches_from};
ghost use Rattle.rim_rules.specs.Forms.{items_in};
ghost use Rattle.rim_manifest.specs.Manifest.{all_made, item_faults, launch_faults, manifest_faults, manifest_of, name_in, named_of};
ghost use Rattle.rim_manifest.specs.StepTexts.{is_miscounted};
ghost use Rattle.rim_rules.specs.Names.{lacks_file, repeats, share_names};
ghost use Rattle.rim_manifest.specs.inside.Findings.{kept};
ghost use Rattle.rim_manifest.specs.inside.Kept.{with_faults};

use crate::check::{at_key, check_ruled, check_table, check_tables};
use crate::fault::ManifestFault;
use crate::finding::{Array, Finding, Findings, Place, Subject, note_if};
use crate::launch::{NamedLaunch, read_launch};
use crate::step::is_miscounted;
use crate::texts::read_texts;
use refusal::NoMemory;
use rim_rules::form::Form;
use rim_rules::kind::item_rules;
use rim_rules::names::{has_asked, lacks_file, repeats, role, share_names};
use rim_rules::rules::{FILE_RULES, REC_RULES, TOP_RULES};
use rim_rules::value::{array, cell, items};
use rim_rules::version::{FormatVersion, has_version, lacks_rule, launch_rules, version};
use std::alloc::{AllocError, Global};
use std::marker::Model;
use toml::{Table, Value};

/// What a manifest describes: files by their paths, and launches. A launch's number is its place among them, and the
/// files of its items are files of the release.
#[derive(Drop)]
pub struct Release {
    paths: Vec<String>,
    launches: Vec<NamedLaunch>,
}

impl Model for Release {
    ghost Value = { ReleaseData };

    ghost view = { λ r. record
        { paths = map string_bytes r.paths.items; launches = r.launches.items } };

    ghost invariant = { λ r. AreNumbered
        (record { paths = map string_bytes r.paths.items; launches = r.launches.items }) };
}

impl Release {
    /// How many files the launches may name.
    pub fn file_count(&self) -> usize
        ensures { result ≡ length self.now.paths }
    {
        self.paths.as_slice().len()
    }

    /// The path of a file, as the manifest writes it.
    pub fn path(&self, i: usize) -> &str
        requires { i < length self.now.paths }
        ensures { slice_get self.now.paths i ≡ Some result.now }
    {
        self.paths[i].as_str()
    }

    /// The number of launches.
    pub fn launches(&self) -> usize
        ensures { result ≡ length self.now.launches }
    {
        self.all_launches().len()
    }

    /// The number of the launch of this name.
    pub fn launch_named(&self, name: &str) -> Option<usize>
        ensures { result ≡ position (name_in name.now) self.now.launches }
    {
        self.launches
            .iter()
            .position(|launch| launch.name() == name)
    }

    /// All launches, in the manifest's order.
    pub fn all_launches(&self) -> &[NamedLaunch]
        ensures value { result.now ≡ self.now.launches }
        ensures kept { AreNumbered self.now }
    {
        self.launches.as_slice()
    }
}

/// Reads a manifest, or answers the lowest fault that holds anywhere in it.
pub fn read_manifest(alloc: Global, text: &[u8]) -> Result<Release, ManifestFault>
    ensures { Answers ManifestFault.NoMemory (λ release. release) result (manifest_of text.now) }
{
    let table = match toml::table_from_slice(alloc, text) {
        Ok(table) => table,
        Err(error) => {
            if error.is_memory() {
                return Err(ManifestFault::NoMemory);
            }
            return Err(ManifestFault::Syntax);
        }
    };
    match lowest_fault(&table)? {
        Some(fault) => Err(fault),
        None => read_release(alloc, &table),
    }
}

/// The lowest fault of the tables, each by itself. It takes no memory.
fn lowest_fault(table: &Table) -> Result<Option<ManifestFault>, NoMemory>
    ensures { IfOk result (λ least. least ≡ lowest (manifest_faults (table_view table.now))) }
{
    let mut found = Findings::Lowest(None);
    find_faults(table, &mut found)?;
    match found {
        Findings::Lowest(least) => Ok(least),
        Findings::Listed(_) => unreachable!(),
    }
}

/// Adds the faults of the tables, each by itself.
#[tactic(auto, unfolding(crate::specs::Manifest::manifest_faults))]
pub fn find_faults(table: &Table, found: &mut Findings) -> Result<(), NoMemory>
    ensures { OnOk result
        (kept found.new ≡ with_faults (kept found.old) (manifest_faults (table_view table.now))) }
{
    let other_version = Finding {
        place: Place::Top,
        subject: Subject::Key {
            key: "rim_manifest",
            form: Form::Version,
        },
        fault: ManifestFault::Version,
    };
    note_if(found, !has_version(table), other_version)?;
    check_table(&TOP_RULES, Place::Top, table, found)?;
    check_tables(&FILE_RULES, Array::Files, entries(table, "file"), found)?;
    check_launches(version(table), entries(table, "launch"), found)
}

/// The values of the array at a key; none where it is not given.
pub fn entries<'a>(table: &'a Table, key: &str) -> &'a [Value]
    ensures { map view result.now ≡ items_in (get_member key.now (table_view table.now)) }
{
    match cell(table, key) {
        Some(value) => items(value),
        None => &[],
    }
}

fn check_launches(
    version: FormatVersion,
    launches: &[Value],
    found: &mut Findings,
) -> Result<(), NoMemory>
    ensures { OnOk result (kept found.new
        ≡ with_faults (kept found.old)
        (flat_map (λ l. launch_faults version (view l)) launches.now)) }
{
    for (number, launch) in launches.iter().enumerate() {
        check_launch(version, number, launch, found)?;
    }
    Ok(())
}

/// Adds the faults of a launch's table and of the tables of its items and RECs, an edit without what it asks
/// for, and a REC without the rule that it asks for.
#[tactic(auto, unfolding(crate::specs::Manifest::launch_faults))]
fn check_launch(
    version: FormatVersion,
    number: usize,
    launch: &Value,
    found: &mut Findings,
) -> Result<(), NoMemory>
    ensures { OnOk result (kept found.new
        ≡ with_faults (kept found.old) (launch_faults version (view launch.now))) }
{
    let Value::Table(table) = launch else {
        return Ok(());
    };
    let place = Place::Launch { launch: number };
    check_table(launch_rules(version), place, table, found)?;
    check_items(number, array(launch, "item"), found)?;
    let recs = Array::Recs { launch: number };
    check_tables(&REC_RULES, recs, array(launch, "rec"), found)?;
    let asked = Finding {
        place,
        subject: Subject::Asked,
        fault: ManifestFault::MissingKey,
    };
    note_if(found, !has_asked(launch), asked)?;
    let no_rule = at_key("rec_rule", Form::RecRule, place, ManifestFault::MissingKey);
    note_if(found, lacks_rule(version, launch), no_rule)
}

fn check_items(launch: usize, items: &[Value], found: &mut Findings) -> Result<(), NoMemory>
    ensures { OnOk result (kept found.new
        ≡ with_faults (kept found.old) (flat_map (λ v. item_faults (view v)) items.now)) }
{
    for (number, item) in items.iter().enumerate() {
        let place = Place::Item {
            launch,
            item: number,
        };
        check_item(place, item, found)?;
    }
    Ok(())
}

/// Adds the faults of an item's table, which has the keys of its kind.
fn check_item(place: Place, item: &Value, found: &mut Findings) -> Result<(), NoMemory>
    ensures { OnOk result
        (kept found.new ≡ with_faults (kept found.old) (item_faults (view item.now))) }
{
    check_ruled(item_rules(role(item)), place, item, found)
}

/// Reads what a document without faults in its tables describes. The searches are quadratic in the launches and
/// in the items of each, which are at most 1,024 and 64 by now, and in the files, which are at most 64.
pub fn read_release(alloc: Global, table: &Table) -> Result<Release, ManifestFault>
    requires { lowest (manifest_faults (table_view table.now)) ≡ None }
    ensures { Answers ManifestFault.NoMemory (λ release. release) result
        (named_of (table_view table.now)) }
{
    let files = entries(table, "file");
    let launches = entries(table, "launch");
    if has_two_names(files, launches) {
        return Err(ManifestFault::TwoNames);
    }
    if has_no_file(files, launches) {
        return Err(ManifestFault::NoSuchFile);
    }
    if any_miscounted(launches) {
        return Err(ManifestFault::BadStep);
    }
    let paths = read_texts(alloc, files, "path")?;
    let launches = read_launches(alloc, version(table), files, launches)?;
    Ok(Release { paths, launches })
}

/// Whether two files, two launches or two items of a launch share a name, or two items a kind other than raw and
/// unknown.
pub fn has_two_names(files: &[Value], launches: &[Value]) -> bool
    ensures { result
        ≡ (share_names (map view files.now) || share_names (map view launches.now)
        || list_any (λ l. repeats (view l)) launches.now) }
{
    share_names(files) || share_names(launches) || any_repeats(launches)
}

fn any_repeats(launches: &[Value]) -> bool
    ensures { result ≡ list_any (λ l. repeats (view l)) launches.now }
{
    launches.iter().any(|launch| repeats(launch))
}

/// Whether an item of a launch needs a file and names none.
pub fn has_no_file(files: &[Value], launches: &[Value]) -> bool
    ensures { result ≡ list_any (λ l. lacks_file (map view files.now) (view l)) launches.now }
{
    launches.iter().any(|launch| lacks_file(files, launch))
}

/// Whether a launch names other than as many steps as it has regions, items and RECs.
pub fn any_miscounted(launches: &[Value]) -> bool
    ensures { result ≡ list_any (λ l. is_miscounted (view l)) launches.now }
{
    launches.iter().any(|launch| is_miscounted(launch))
}

fn read_launches(
    alloc: Global,
    version: FormatVersion,
    files: &[Value],
    tables: &[Value],
) -> Result<Vec<NamedLaunch>, ManifestFault>
    ensures { Answers ManifestFault.NoMemory (λ ls. ls.items) result
        (all_made (launches_from version (map view files.now) 0 (map view tables.now))) }
{
    let mut launches = Vec::with_capacity(alloc, tables.len())?;
    for (number, table) in tables.iter().enumerate() {
        push(
            &mut launches,
            read_launch(alloc, version, files, number, table)?,
        )?;
    }
    Ok(launches)
}

fn push(launches: &mut Vec<NamedLaunch>, launch: NamedLaunch) -> Result<(), AllocError>
    ensures { OnOk result (launches.new.items ≡ launches.old.items ++ launch ∷ []) }
{
    launches.push(launch)?;
    Ok(())
}
