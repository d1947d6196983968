//! Finds the faults of names, kinds, files and steps, with their places. Called only if no table has a fault of its own.
ghost use Rattle.std.specs.Prelude.{◌≡◌, Contains, IfOk, OnOk, map, true};
ghost use Rattle.toml.specs.View.{table_view, view};
ghost use Rattle.rim_manifest.specs.Manifest.{name_faults, name_faults_if};
ghost use Rattle.rim_manifest.specs.StepTexts.{has_bad_steps};
ghost use Rattle.rim_manifest.specs.inside.Findings.{kept};
ghost use Rattle.rim_manifest.specs.inside.Kept.{AddsOnly};

use crate::fault::ManifestFault;
use crate::finding::{Array, Finding, Findings, Place, Subject, note_if};
use crate::manifest::{any_miscounted, entries, has_no_file, has_two_names};
use crate::step::{is_miscounted, is_misnamed, step};
use refusal::NoMemory;
use rim_launch::Step;
use rim_rules::form::Form;
use rim_rules::kind::may_repeat;
use rim_rules::names::{lacks_its_file, name, position_of, role};
use rim_rules::value::{array, field, items};
use std::alloc::Global;
use toml::{Table, Value};

/// The kinds of faults of names, files and steps that a manifest has. A place is reported as faulty only for one of these, so that no
/// report names a fault that the manifest does not have.
#[derive(Clone, Copy)]
pub struct NameFaults {
    pub two_names: bool,
    pub no_file: bool,
    pub bad_step: bool,
}

impl NameFaults {
    /// Returns whether the manifest has this fault.
    fn has(self, fault: ManifestFault) -> bool
        ensures { result ≡ true
            → Contains (name_faults_if self.two_names self.no_file self.bad_step) fault }
    {
        match fault {
            ManifestFault::TwoNames => self.two_names,
            ManifestFault::NoSuchFile => self.no_file,
            ManifestFault::BadStep => self.bad_step,
            _ => false,
        }
    }

    /// Adds a fault if it holds.
    fn note_if(self, found: &mut Findings, holds: bool, finding: Finding) -> Result<(), NoMemory>
        ensures { OnOk result
            (AddsOnly (name_faults_if self.two_names self.no_file self.bad_step) (kept found.old)
            (kept found.new)) }
    {
        note_if(found, self.has(finding.fault) && holds, finding)
    }
}

/// Adds the faults of names, files and steps. Each of them is a fault that the manifest has.
pub fn find_names(alloc: Global, table: &Table, found: &mut Findings) -> Result<(), NoMemory>
    ensures { OnOk result
        (AddsOnly (name_faults (table_view table.now)) (kept found.old) (kept found.new)) }
{
    let files = entries(table, "file");
    let launches = entries(table, "launch");
    let has = NameFaults {
        two_names: has_two_names(files, launches),
        no_file: has_no_file(files, launches),
        bad_step: has_bad_steps(alloc, launches)?,
    };
    find_by_place(has, files, launches, found)
}

/// Returns whether a launch has steps that do not fit.
fn has_bad_steps(alloc: Global, launches: &[Value]) -> Result<bool, NoMemory>
    ensures { IfOk result (λ b. b ≡ true → has_bad_steps (map view launches.now) ≡ true) }
{
    if any_miscounted(launches) {
        return Ok(true);
    }
    for launch in launches {
        let is_bad = is_misnamed(alloc, launch)?;
        if is_bad {
            return Ok(true);
        }
    }
    Ok(false)
}

/// Adds the faults of files and launches, place by place.
fn find_by_place(
    has: NameFaults,
    files: &[Value],
    launches: &[Value],
    found: &mut Findings,
) -> Result<(), NoMemory>
    ensures { OnOk result
        (AddsOnly (name_faults_if has.two_names has.no_file has.bad_step) (kept found.old)
        (kept found.new)) }
{
    find_shared(has, Array::Files, files, found)?;
    find_shared(has, Array::Launches, launches, found)?;
    for (number, launch) in launches.iter().enumerate() {
        find_in_launch(has, files, number, launch, found)?;
    }
    Ok(())
}

/// Adds the faults of the names, files and steps of a launch.
fn find_in_launch(
    has: NameFaults,
    files: &[Value],
    number: usize,
    launch: &Value,
    found: &mut Findings,
) -> Result<(), NoMemory>
    ensures { OnOk result
        (AddsOnly (name_faults_if has.two_names has.no_file has.bad_step) (kept found.old)
        (kept found.new)) }
{
    let parts = array(launch, "item");
    find_shared(has, Array::Items { launch: number }, parts, found)?;
    for (item, part) in parts.iter().enumerate() {
        let place = Place::Item {
            launch: number,
            item,
        };
        find_in_item(has, files, place, part, &parts[..item], found)?;
    }
    find_steps(has, number, launch, found)
}

/// A fault of the value at a key.
fn at(place: Place, key: &'static str, form: Form, fault: ManifestFault) -> Finding {
    Finding {
        place,
        subject: Subject::Key { key, form },
        fault,
    }
}

/// Adds a fault for each table of an array that has the name of an earlier one.
fn find_shared(
    has: NameFaults,
    array: Array,
    tables: &[Value],
    found: &mut Findings,
) -> Result<(), NoMemory>
    ensures { OnOk result
        (AddsOnly (name_faults_if has.two_names has.no_file has.bad_step) (kept found.old)
        (kept found.new)) }
{
    for (number, table) in tables.iter().enumerate() {
        let first = position_of(tables, name(table).as_bytes());
        let shared = at(
            array.at(number),
            "name",
            Form::Name,
            ManifestFault::TwoNames,
        );
        has.note_if(found, first.is_some_and(|first| first < number), shared)?;
    }
    Ok(())
}

/// Adds a fault for an item with a kind that an earlier item has and that may be there once, and for an item that needs a file and names
/// none.
fn find_in_item(
    has: NameFaults,
    files: &[Value],
    place: Place,
    item: &Value,
    earlier: &[Value],
    found: &mut Findings,
) -> Result<(), NoMemory>
    ensures { OnOk result
        (AddsOnly (name_faults_if has.two_names has.no_file has.bad_step) (kept found.old)
        (kept found.new)) }
{
    let kind = role(item);
    let twice = !may_repeat(kind) && earlier.iter().any(|other| role(other) == kind);
    let second = at(place, "kind", Form::ItemKind, ManifestFault::TwoNames);
    has.note_if(found, twice, second)?;
    let no_file = at(place, "file", Form::AnyText, ManifestFault::NoSuchFile);
    has.note_if(found, lacks_its_file(files, item), no_file)
}

/// Adds a fault for each step that cannot be read, names what the launch lacks, or names what an earlier step names. If there are not as
/// many steps as the launch has parts, adds one fault for all of them.
fn find_steps(
    has: NameFaults,
    number: usize,
    launch: &Value,
    found: &mut Findings,
) -> Result<(), NoMemory>
    ensures { OnOk result
        (AddsOnly (name_faults_if has.two_names has.no_file has.bad_step) (kept found.old)
        (kept found.new)) }
{
    let Some(steps) = field(launch, "steps") else {
        return Ok(());
    };
    if is_miscounted(launch) {
        let steps = Finding {
            place: Place::Launch { launch: number },
            subject: Subject::Steps,
            fault: ManifestFault::BadStep,
        };
        return has.note_if(found, true, steps);
    }
    for (index, text) in items(steps).iter().enumerate() {
        let bad = Finding {
            place: Place::Launch { launch: number },
            subject: Subject::Step { step: index },
            fault: ManifestFault::BadStep,
        };
        has.note_if(found, is_bad(launch, &items(steps)[..index], text), bad)?;
    }
    Ok(())
}

/// Returns whether a step names what the launch lacks, or what an earlier step names.
fn is_bad(launch: &Value, earlier: &[Value], text: &Value) -> bool {
    let parts = array(launch, "item");
    let named = step(parts, text);
    let is_there = match named {
        Step::Ram(region) => region < array(launch, "ram").len(),
        Step::Item(item) => item < parts.len(),
        Step::Rec(rec) => rec < array(launch, "rec").len(),
    };
    !is_there || earlier.iter().any(|other| step(parts, other) == named)
}
