//! The faults that are found in a manifest, each with its place.
ghost use Rattle.std.specs.Prelude.{◌≡◌, OnOk};
ghost use Rattle.rim_manifest.specs.Faults.{fault_if, lowest};
ghost use Rattle.rim_manifest.specs.Places.{place_at};
ghost use Rattle.rim_manifest.specs.inside.Findings.{kept};
ghost use Rattle.rim_manifest.specs.inside.Kept.{faults_in, with_fault, with_faults};

use crate::fault::{ManifestFault, lower};
use crate::fault_list::FaultList;
use refusal::NoMemory;
use rim_rules::form::Form;

/// A table of a manifest: the one at the top, or one of an array, by its number there.
#[derive(Clone, Copy, Debug, PartialEq, Eq)]
pub enum Place {
    Top,
    File { file: usize },
    Launch { launch: usize },
    Item { launch: usize, item: usize },
    Rec { launch: usize, rec: usize },
}

/// An array of tables of a manifest.
#[derive(Clone, Copy, Debug, PartialEq, Eq)]
pub enum Array {
    Files,
    Launches,
    Items { launch: usize },
    Recs { launch: usize },
}

impl Array {
    /// The table of this number in the array.
    pub fn at(self, number: usize) -> Place
        ensures { result ≡ place_at self number }
    {
        match self {
            Array::Files => Place::File { file: number },
            Array::Launches => Place::Launch { launch: number },
            Array::Items { launch } => Place::Item {
                launch,
                item: number,
            },
            Array::Recs { launch } => Place::Rec {
                launch,
                rec: number,
            },
        }
    }
}

/// What is at fault in a table.
#[derive(Clone, Copy, Debug)]
pub enum Subject {
    /// The value at a key, or that the key is not given.
    Key { key: &'static str, form: Form },
    /// The keys that the format does not list.
    OtherKeys,
    /// A devicetree of the launch asks for an initrd or for RAM that the launch lacks.
    Asked,
    /// The step of this number.
    Step { step: usize },
    /// The launch's steps together.
    Steps,
    /// No part of it is known to be.
    Whole,
}

/// A fault of a manifest, where it is.
#[derive(Clone, Copy, Debug)]
pub struct Finding {
    pub place: Place,
    pub subject: Subject,
    pub fault: ManifestFault,
}

/// What is kept of the faults that are found: the lowest, which takes no memory, or a list of them.
#[derive(Drop)]
pub enum Findings {
    Lowest(Option<ManifestFault>),
    Listed(FaultList),
}

/// Adds a fault to those that were found.
pub fn note(found: &mut Findings, finding: Finding) -> Result<(), NoMemory>
    ensures { OnOk result (kept found.new ≡ with_fault (kept found.old) finding.fault) }
{
    match found {
        Findings::Lowest(least) => lower(least, finding.fault),
        Findings::Listed(list) => list.add(finding)?,
    }
    Ok(())
}

/// Adds a fault where it holds.
pub fn note_if(found: &mut Findings, holds: bool, finding: Finding) -> Result<(), NoMemory>
    ensures { OnOk result
        (kept found.new ≡ with_faults (kept found.old) (fault_if holds finding.fault)) }
{
    if holds {
        note(found, finding)?;
    }
    Ok(())
}
