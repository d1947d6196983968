//! A manifest as a TOML document, which is searched for all of its faults.
ghost use Rattle.std.specs.Prelude.{◌≡◌, ◌≢◌, [], ◌∷◌, All, Contains, Err, IfErr, IfOk, None, Some, map, option_map};
ghost use Rattle.std.specs.List.{slice_get};
ghost use Rattle.toml.specs.Errors.{IsMemory, IsWithin};
ghost use Rattle.toml.specs.View.{table_view, view};
ghost use Rattle.rim_manifest.specs.Faults.{lowest};
ghost use Rattle.rim_manifest.specs.Found.{AreListed, IsChecked};
ghost use Rattle.rim_manifest.specs.Manifest.{document_of, manifest_faults, name_faults, named_of};
ghost use Rattle.rim_manifest.specs.Places.{table_at, table_of};
ghost use Rattle.rim_rules.specs.Rules.{rule_of};
ghost use Rattle.rim_rules.specs.Versions.{launch_rules_in, version_at};
ghost use Rattle.rim_manifest.specs.inside.Kept.{faults_in};

use crate::fault::ManifestFault;
use crate::fault_list::FaultList;
use crate::finding::{Finding, Findings, Place, Subject};
use crate::manifest::{Release, entries, find_faults, read_release};
use crate::naming::find_names;
use refusal::NoMemory;
use rim_rules::form::Rule;
use rim_rules::value::array;
use rim_rules::version::{launch_rules, version};
use std::alloc::Global;
use toml::de::Error;
use toml::{Table, Value};

/// A TOML document, which may be a manifest.
#[derive(Drop)]
pub struct Document {
    pub table: Table,
}

/// What a document is found to be.
#[derive(Drop)]
pub enum Checked {
    /// A manifest, and the release that it describes.
    Accepted(Release),
    /// A manifest with faults, each with its place.
    Refused(FaultList),
}

impl Document {
    /// The document that a text is. The error is that of `toml`, and its place is within the text.
    pub fn read(alloc: Global, text: &[u8]) -> Result<Document, Error>
        ensures document { IfOk result (λ d. document_of text.now ≡ Some (table_view d.table)) }
        ensures refused { IfErr result (λ e. ¬ (IsMemory e) → document_of text.now ≡ None) }
        ensures span { IfErr result (IsWithin text.now) }
    {
        match toml::table_from_slice(alloc, text) {
            Ok(table) => Ok(Document { table }),
            Err(error) => Err(error),
        }
    }

    /// The release that it describes, or its faults: those of the tables, each where it holds; or, where no table has one,
    /// those of names and of steps.
    pub fn check(&self, alloc: Global) -> Result<Checked, NoMemory>
        ensures { IfOk result (IsChecked (table_view self.now.table)) }
    {
        let found = table_faults(alloc, &self.table)?;
        if found.lowest().is_some() {
            return Ok(Checked::Refused(found));
        }
        match read_release(alloc, &self.table) {
            Ok(release) => Ok(Checked::Accepted(release)),
            Err(fault) => Ok(Checked::Refused(faults_of_names(alloc, &self.table, fault)?)),
        }
    }

    /// The keys of its launches, by its version.
    pub fn launch_rules(&self) -> &'static [Rule]
        ensures { map rule_of result.now
            ≡ launch_rules_in (version_at (table_view self.now.table)) }
    {
        launch_rules(version(&self.table))
    }

    /// The table at a place, if it is there.
    pub fn table(&self, place: Place) -> Option<&Table>
        ensures { option_map (λ t. table_view t.now) result
            ≡ table_at (table_view self.now.table) place }
    {
        let launches = entries(&self.table, "launch");
        match place {
            Place::Top => Some(&self.table),
            Place::File { file } => table_at(entries(&self.table, "file"), file),
            Place::Launch { launch } => table_at(launches, launch),
            Place::Item { launch, item } => table_at(array(launches.get(launch)?, "item"), item),
            Place::Rec { launch, rec } => table_at(array(launches.get(launch)?, "rec"), rec),
        }
    }
}

/// The table of this number.
fn table_at(tables: &[Value], number: usize) -> Option<&Table>
    ensures { option_map (λ t. table_view t.now) result
        ≡ table_of (slice_get (map view tables.now) number) }
{
    as_table(tables.get(number)?)
}

/// The table that a value is, if it is one.
fn as_table(value: &Value) -> Option<&Table>
    ensures { option_map (λ t. table_view t.now) result ≡ table_of (Some (view value.now)) }
{
    match value {
        Value::Table(table) => Some(table),
        _ => None,
    }
}

/// The faults of the tables, each by itself.
fn table_faults(alloc: Global, table: &Table) -> Result<FaultList, NoMemory>
    ensures { IfOk result (λ found. AreListed (manifest_faults (table_view table.now))
        (faults_in found.findings.items) found.more) }
{
    let mut found = Findings::Listed(FaultList::new(alloc));
    find_faults(table, &mut found)?;
    match found {
        Findings::Listed(list) => Ok(list),
        Findings::Lowest(_) => unreachable!(),
    }
}

/// Faults of names and of steps, of which the lowest is this one; want of memory is no such fault.
fn faults_of_names(
    alloc: Global,
    table: &Table,
    fault: ManifestFault,
) -> Result<FaultList, NoMemory>
    ensures least { IfOk result
        (λ found. lowest (faults_in found.findings.items) ≡ Some fault) }
    ensures own { IfOk result (λ _. fault ≢ ManifestFault.NoMemory) }
    ensures names { IfOk result (λ found. named_of (table_view table.now) ≡ Err fault
        → All (Contains (name_faults (table_view table.now))) (faults_in found.findings.items)) }
{
    if fault == ManifestFault::NoMemory {
        return Err(NoMemory);
    }
    let mut found = Findings::Listed(FaultList::new(alloc));
    find_names(alloc, table, &mut found)?;
    match found {
        Findings::Listed(list) if list.lowest() == Some(fault) => Ok(list),
        _ => one_fault(alloc, fault),
    }
}

/// This fault, of which no place is known.
#[tactic(auto, unfolding(crate::specs::Faults::lower))]
fn one_fault(alloc: Global, fault: ManifestFault) -> Result<FaultList, NoMemory>
    ensures least { IfOk result
        (λ found. lowest (faults_in found.findings.items) ≡ Some fault) }
    ensures one { IfOk result (λ found. faults_in found.findings.items ≡ fault ∷ []) }
{
    let mut list = FaultList::new(alloc);
    list.add(Finding {
        place: Place::Top,
        subject: Subject::Whole,
        fault,
    })?;
    Ok(list)
}
