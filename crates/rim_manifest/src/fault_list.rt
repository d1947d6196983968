//! A list of the faults of a manifest, which is no longer than can be read.
ghost use Rattle.std.specs.Prelude.{◌≡◌};
ghost use Rattle.rim_manifest.specs.Faults.{lowest};
ghost use Rattle.rim_manifest.specs.inside.Kept.{faults_in};

use crate::fault::{ManifestFault, is_lower, lower};
use crate::finding::Finding;
use refusal::NoMemory;
use std::alloc::Global;

/// The most faults that are listed of a manifest: 200. One that is lower than all of these is listed too. This project's choice.
pub const FINDING_LIMIT: usize = 200;

/// Faults that are listed, and how many there are beside them. A clause sees the faults of the list, and that number.
#[derive(Drop)]
pub struct FaultList {
    findings: Vec<Finding>,
    least: Option<ManifestFault>,
    more: u64,
    ghost own: { lowest (faults_in findings.items) ≡ least },
}

impl FaultList {
    ghost use Rattle.std.specs.Prelude.{◌≡◌, [], None, OnOk};
    ghost use Rattle.rim_manifest.specs.Faults.{lowest};
    ghost use Rattle.rim_manifest.specs.inside.Kept.{Listed, faults_in, with_fault};

    /// No fault. It takes no memory.
    pub(crate) fn new(alloc: Global) -> FaultList
        ensures findings { result.findings.items ≡ [] }
        ensures more { result.more ≡ 0 }
    {
        FaultList {
            findings: Vec::new(alloc),
            least: None,
            more: 0,
        }
    }

    /// Those that are listed, in the order in which they were found.
    pub fn findings(&self) -> &[Finding]
        ensures { result.now ≡ self.now.findings.items }
    {
        &self.findings
    }

    /// How many there are beside these.
    pub fn more(&self) -> u64
        ensures { result ≡ self.now.more }
    {
        self.more
    }

    /// The lowest of them all.
    pub(crate) fn lowest(&self) -> Option<ManifestFault>
        ensures { result ≡ lowest (faults_in self.now.findings.items) }
    {
        self.least
    }

    /// Adds one: to the list, where that has room or none in it is as low, else to the number of the others. That number is below
    /// 2^64, since the text that has the faults is: where it were not, this answers want of memory.
    pub(crate) fn add(&mut self, finding: Finding) -> Result<(), NoMemory>
        ensures { OnOk result (Listed (faults_in self.new.findings.items) self.new.more
            ≡ with_fault (Listed (faults_in self.old.findings.items) self.old.more) finding.fault) }
    {
        if self.findings.len() < FINDING_LIMIT || is_lower(finding.fault, self.least) {
            self.findings.push(finding)?;
            lower(&mut self.least, finding.fault);
        } else {
            self.more = self.more.checked_add(1).ok_or(NoMemory)?;
        }
        Ok(())
    }
}
