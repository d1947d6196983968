//! Which faults of a manifest have a line.
ghost use Rattle.std.specs.Prelude.{◌≡◌, ◌≤◌, ◌+◌, IfOk, length};
ghost use Rattle.rim_manifest.specs.Faults.{IsSubsequence, lowest};
ghost use Rattle.rim_manifest.specs.inside.Kept.{faults_in};

use crate::finding_detail::lacks_initrd;
use refusal::NoMemory;
use rim_hints::is_meant;
use rim_manifest::{Document, FaultList, Finding, ManifestFault, Place, Subject, is_lower};
use rim_rules::form::{Form, Rule};
use rim_rules::rules::TOP_RULES;
use rim_rules::value::cell;
use std::alloc::{AllocError, Global};
use toml::Table;

/// The key of the format's number. That it is not 1 or 2 is said also where it is not given or is no number.
const VERSION_KEY: &str = "rim_manifest";

/// Faults that have a line, and how many others there are.
#[derive(Drop)]
pub(crate) struct Excerpt {
    pub findings: Vec<Finding>,
    pub more: u64,
    least: Option<ManifestFault>,
    ghost own: { lowest (faults_in findings.items) ≡ least },
}

impl Excerpt {
    ghost use Rattle.std.specs.Prelude.{◌≡◌, ◌≤◌, ◌+◌, [], ◌∷◌, ◌++◌, List, OnOk, length};
    ghost use Rattle.rim_manifest.specs.Faults.{IsSubsequence, lower};
    ghost use Rattle.rim_manifest.specs.declared.fault.ManifestFault.{ManifestFault};

    /// Adds a fault: a line, or one more of the others.
    fn add(&mut self, document: &Document, finding: &Finding) -> Result<(), NoMemory>
        ensures some { OnOk result ((fs : List ManifestFault)
            → IsSubsequence (faults_in self.old.findings.items) fs
            → IsSubsequence (faults_in self.new.findings.items) (fs ++ finding.now.fault ∷ [])) }
        ensures least { OnOk result (self.new.least ≡ lower self.old.least finding.now.fault) }
        ensures beside { OnOk result (self.old.more ≤ self.new.more) }
        ensures within { OnOk result (length self.new.findings.items + self.new.more
            ≤ (length self.old.findings.items + self.old.more) + 1) }
    {
        if is_lower(finding.fault, self.least) {
            self.findings.push(*finding)?;
            self.least = Some(finding.fault);
            return Ok(());
        }
        match standing_of(*self.findings.allocator(), document, finding)? {
            Standing::Own => self.findings.push(*finding)?,
            Standing::Repeated => {}
            Standing::PastLimit => self.more = self.more.saturating_add(1),
        }
        Ok(())
    }
}

/// The faults that have a line: those that are listed, but for a second one of the same cause, and for those of the members of an
/// array that are past its limit, which are counted with the others. One that is lower than all before it has a line always.
pub(crate) fn take_excerpt(
    alloc: Global,
    document: &Document,
    list: &FaultList,
) -> Result<Excerpt, NoMemory>
    ensures some { IfOk result (λ e. IsSubsequence (faults_in e.findings.items)
        (faults_in list.now.findings.items)) }
    ensures least { IfOk result (λ e. lowest (faults_in e.findings.items)
        ≡ lowest (faults_in list.now.findings.items)) }
    ensures beside { IfOk result (λ e. list.now.more ≤ e.more) }
    ensures within { IfOk result (λ e. length e.findings.items + e.more
        ≤ length list.now.findings.items + list.now.more) }
{
    let mut excerpt = Excerpt {
        findings: Vec::new(alloc),
        more: list.more(),
        least: None,
    };
    let listed = list.findings();
    for finding in listed {
        excerpt.add(document, finding)?;
    }
    Ok(excerpt)
}

/// Whether a fault has a line.
#[derive(Clone, Copy)]
enum Standing {
    Own,
    /// An earlier line says its cause.
    Repeated,
    /// It is one of a member of an array that is past the array's limit.
    PastLimit,
}

/// Whether a fault that is not the lowest so far has a line.
fn standing_of(
    alloc: Global,
    document: &Document,
    finding: &Finding,
) -> Result<Standing, AllocError> {
    if is_past_limit(document, finding.place) {
        return Ok(Standing::PastLimit);
    }
    let is_repeated = match document.table(finding.place) {
        Some(table) => is_repeated(alloc, document, table, finding)?,
        None => false,
    };
    Ok(if is_repeated {
        Standing::Repeated
    } else {
        Standing::Own
    })
}

/// Whether an earlier line says the cause of a fault.
fn is_repeated(
    alloc: Global,
    document: &Document,
    table: &Table,
    finding: &Finding,
) -> Result<bool, AllocError> {
    match (finding.subject, finding.fault) {
        (Subject::Key { key, .. }, fault) if key == VERSION_KEY => {
            Ok(fault != ManifestFault::Version)
        }
        (Subject::Key { key, .. }, ManifestFault::MissingKey) => {
            is_meant(alloc, document, finding.place, table, key)
        }
        (Subject::Asked, _) => is_ram_at_fault(alloc, document, table, finding),
        _ => Ok(false),
    }
}

/// Whether a devicetree asks for RAM alone, which is given, but under another key or not as an array.
fn is_ram_at_fault(
    alloc: Global,
    document: &Document,
    launch: &Table,
    finding: &Finding,
) -> Result<bool, AllocError> {
    if lacks_initrd(launch) {
        return Ok(false);
    }
    match cell(launch, "ram") {
        Some(ram) => Ok(!ram.is_array()),
        None => is_meant(alloc, document, finding.place, launch, "ram"),
    }
}

/// Whether a table is past the limit of the array that it is in, or in such a table.
fn is_past_limit(document: &Document, place: Place) -> bool {
    let rules = document.launch_rules();
    match place {
        Place::Top => false,
        Place::File { file } => is_past(&TOP_RULES, "file", file),
        Place::Launch { launch } => is_past(&TOP_RULES, "launch", launch),
        Place::Item { launch, item } => {
            is_past(&TOP_RULES, "launch", launch) || is_past(rules, "item", item)
        }
        Place::Rec { launch, rec } => {
            is_past(&TOP_RULES, "launch", launch) || is_past(rules, "rec", rec)
        }
    }
}

/// Whether a number is past the limit of the array at a key.
fn is_past(rules: &[Rule], key: &str, number: usize) -> bool {
    match rules.iter().find(|rule| rule.0 == key) {
        Some((_, Form::Tables { most }, _)) => *most <= number,
        _ => false,
    }
}
