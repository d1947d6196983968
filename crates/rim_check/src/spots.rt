//! Where the faults of a manifest are in its text.
use crate::finding_detail::lacks_initrd;
use refusal::NoMemory;
use rim_hints::{bad_element, rules_of};
use rim_manifest::{Document, Finding, ManifestFault, Place, Subject, asks_for, entries};
use rim_rules::form::Form;
use rim_rules::value::cell;
use rim_spot::{Sought, Spot, find_spots};
use std::alloc::Global;
use toml::{Table, Value};

/// The key of a launch's steps.
const STEPS: &str = "steps";

/// A manifest as it is found: its path, its text, and the document that this is.
#[derive(Clone, Copy)]
pub(crate) struct Manifest<'a> {
    pub path: &'a str,
    pub text: &'a [u8],
    pub document: &'a Document,
}

/// Where each fault is in the text, if that is known.
pub(crate) fn finding_spots(
    alloc: Global,
    manifest: &Manifest<'_>,
    found: &[Finding],
) -> Result<Vec<Option<Spot>>, NoMemory> {
    let mut sought = Vec::with_capacity(alloc, found.len())?;
    for finding in found {
        sought.push(sought_of(manifest.document, finding))?;
    }
    find_spots(alloc, manifest.text, &sought)
}

/// In which table a fault is, and what is to be looked for there.
fn sought_of(document: &Document, finding: &Finding) -> (Place, Sought) {
    let place = finding.place;
    let Some(table) = document.table(place) else {
        return (place, Sought::Table);
    };
    match finding.subject {
        Subject::Key { key, form } => (place, value_at(table, key, form, finding.fault)),
        Subject::OtherKeys => (place, Sought::OtherKey(rules_of(document, place, table))),
        Subject::Step { step } => (
            place,
            Sought::Member {
                key: STEPS,
                number: step,
            },
        ),
        Subject::Steps => (place, Sought::Key(STEPS)),
        Subject::Asked => asked(place, table),
        Subject::Whole => (place, Sought::Table),
    }
}

/// The key by which a devicetree asks for something that its launch does not have.
fn asked(place: Place, launch: &Table) -> (Place, Sought) {
    let key = if lacks_initrd(launch) {
        "initrd"
    } else {
        "memory"
    };
    let items = entries(launch, "item");
    let item = (0..items.len()).find(|item| is_asking(items, *item, key));
    match (place, item) {
        (Place::Launch { launch }, Some(item)) => (Place::Item { launch, item }, Sought::Key(key)),
        _ => (place, Sought::Table),
    }
}

/// Whether the item of this number asks for what a key of a devicetree is about.
fn is_asking(items: &[Value], item: usize, key: &str) -> bool {
    let from = items.get(item..).unwrap_or(&[]);
    asks_for(from.get(..1).unwrap_or(&[]), key)
}

/// The value at a key that has a fault, or the member of it that has.
fn value_at(table: &Table, key: &'static str, form: Form, fault: ManifestFault) -> Sought {
    let Some(value) = cell(table, key) else {
        return Sought::Key(key);
    };
    match bad_element(value, form, fault) {
        Some((number, _)) => Sought::Member { key, number },
        None => Sought::Key(key),
    }
}
