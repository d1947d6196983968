//! The faults of a manifest.
ghost use Rattle.std.specs.Prelude.{◌≡◌, ◌<◌, [], ◌∷◌, IfOk, None, OnOk, Option, Some, string_bytes};
ghost use Rattle.toml.specs.View.{table_view};
ghost use Rattle.rim_manifest.specs.Manifest.{manifest_of};
ghost use Rattle.rim_manifest.specs.inside.Kept.{faults_in};
ghost use Rattle.rim_check.specs.Explained.{IsCheckOf, fault_said, others_said, others_text};
ghost use Rattle.rim_spot.specs.declared.spot.Spot.{Spot};
ghost use Rattle.rim_check.specs.inside.Listed.{ListsFaults, ShowsFindings, located, no_document};
ghost use Rattle.shown_text.specs.Lines.{AddsAll, AddsLine, SayInTurn};

use crate::excerpt::take_excerpt;
use crate::finding_detail::write_detail;
use crate::spots::{Manifest, finding_spots};
use refusal::NoMemory;
use rim_hints::{error_spot, fault_place, place_text, write_message};
use rim_manifest::{Checked, Document, FaultList, Finding, ManifestFault, Release};
use rim_spot::Spot;
use shown_text::{Line, Remark, Word, push_remark};
use std::alloc::{AllocError, Global};
use toml::de::Error;

/// A manifest that was checked.
#[derive(Drop)]
pub enum ManifestCheck {
    /// It has faults: a remark for each, and where the first of these is in the text, if that is known.
    Faulty(Vec<Remark>, Option<Spot>),
    /// It describes this release.
    Readable(Release),
}

/// Checks the manifest at a path: a remark for each of its faults, and how many there are beside these; or the release that it describes.
/// It is proved that the lowest fault has a remark, and that each remark is on a fault that was found. A remark has the path, the line and
/// the column of the fault in the text, its table and its key, its word, what is given and what is expected.
pub fn check_manifest(alloc: Global, path: &str, text: &[u8]) -> Result<ManifestCheck, NoMemory>
    ensures { IfOk result (IsCheckOf path.now text.now (manifest_of text.now)) }
{
    let document = match Document::read(alloc, text) {
        Ok(document) => document,
        Err(error) => {
            if error.is_memory() {
                return Err(NoMemory);
            }
            return Ok(ManifestCheck::Faulty(
                syntax_remark(alloc, path, text, &error)?,
                error_spot(text, &error),
            ));
        }
    };
    match document.check(alloc)? {
        Checked::Accepted(release) => Ok(ManifestCheck::Readable(release)),
        Checked::Refused(list) => {
            let manifest = Manifest {
                path,
                text,
                document: &document,
            };
            remarks(alloc, &manifest, &list)
        }
    }
}

/// The remark on a text that is no TOML document: where it is none, and why.
fn syntax_remark(
    alloc: Global,
    path: &str,
    text: &[u8],
    error: &Error,
) -> Result<Vec<Remark>, NoMemory>
    ensures { IfOk result (λ remarks. (spot : Option Spot)
        × SayInTurn (fault_said path.now None (no_document spot) ∷ []) remarks.items) }
{
    let word = Word::Fault(ManifestFault::Syntax.kind());
    let mut remark = Remark::new(alloc, word);
    write_message(&mut remark, text, error).map_err(|_| NoMemory)?;
    remark.place = fault_place(alloc, path, error_spot(text, error), "")?;
    remark.word = word;
    let mut remarks = Vec::new(alloc);
    push_remark(&mut remarks, remark)?;
    Ok(remarks)
}

/// A remark for each fault of which an excerpt is given, and one that says how many others there are.
fn remarks(
    alloc: Global,
    manifest: &Manifest<'_>,
    list: &FaultList,
) -> Result<ManifestCheck, NoMemory>
    ensures { IfOk result (ListsFaults manifest.now.path.now
        (table_view manifest.now.document.now.table) (faults_in list.now.findings.items)
        list.now.more) }
{
    let excerpt = take_excerpt(alloc, manifest.document, list)?;
    let spots = finding_spots(alloc, manifest, &excerpt.findings)?;
    let mut remarks = finding_remarks(alloc, manifest, &excerpt.findings, &spots)?;
    if excerpt.more > 0 {
        push_others(&mut remarks, excerpt.more)?;
    }
    Ok(ManifestCheck::Faulty(remarks, spots.first().copied().flatten()))
}

/// A remark for each fault, at these places in the text.
fn finding_remarks(
    alloc: Global,
    manifest: &Manifest<'_>,
    found: &[Finding],
    spots: &[Option<Spot>],
) -> Result<Vec<Remark>, NoMemory>
    ensures { IfOk result (λ remarks. ShowsFindings manifest.now.path.now
        (table_view manifest.now.document.now.table) found.now remarks.items) }
{
    let mut remarks = Vec::new(alloc);
    let mut spots = spots.iter();
    for finding in found {
        let spot = spots.next().copied().flatten();
        add_remark(&mut remarks, manifest, finding, spot)?;
    }
    Ok(remarks)
}

/// Adds a remark that says how many faults have none.
fn push_others(remarks: &mut Vec<Remark>, more: u64) -> Result<(), NoMemory>
    requires { 0 < more }
    ensures { OnOk result (AddsAll (others_said more) remarks.old.items remarks.new.items) }
{
    let alloc = *remarks.allocator();
    let place = others_text(alloc, more)?;
    let mut remark = Remark::new(alloc, Word::Fault(""));
    remark.place = Line::of(alloc, place.as_str())?;
    push_remark(remarks, remark)
}

fn others_text(alloc: Global, more: u64) -> Result<String, AllocError>
    ensures { IfOk result (λ s. string_bytes s ≡ others_text more) }
{
    if more == 1 {
        format!(in alloc; "{more} more fault")
    } else {
        format!(in alloc; "{more} more faults")
    }
}

/// Adds the remark on a fault, with its place in the text where that is known.
fn add_remark(
    remarks: &mut Vec<Remark>,
    manifest: &Manifest<'_>,
    finding: &Finding,
    spot: Option<Spot>,
) -> Result<(), NoMemory>
    ensures { OnOk result (AddsLine (fault_said manifest.now.path.now
        (Some (table_view manifest.now.document.now.table)) (located finding.now spot))
        remarks.old.items remarks.new.items) }
{
    let alloc = *remarks.allocator();
    let place = place_text(alloc, manifest.document, finding.place, finding.subject)?;
    let word = Word::Fault(finding.fault.kind());
    let mut remark = Remark::new(alloc, word);
    write_detail(alloc, &mut remark, manifest.document, finding).map_err(|_| NoMemory)?;
    remark.place = fault_place(alloc, manifest.path, spot, place.as_str())?;
    remark.word = word;
    push_remark(remarks, remark)
}
