//! What a check of the launches of a release has found.
ghost use Rattle.std.specs.Prelude.{◌≡◌, IfOk, OnOk};
ghost use Rattle.rim_check.specs.Explained.{fault_of, pages_said, pages_saying};
ghost use Rattle.shown_text.specs.Lines.{AddsAll, Says};

use crate::warnings::Warnings;
use refusal::NoMemory;
use rim_manifest::NamedLaunch;
use rim_pages::{DISTINCT_LIMIT, MeasuredPages, StartFault};
use rim_unusual::SeenTrees;
use shown_text::{Line, Remark, Word, push_remark};
use std::alloc::Global;

/// What is at fault in a release whose manifest is not, and whose files can be read.
#[derive(Clone, Copy, Debug, PartialEq, Eq)]
pub enum ReleaseFault {
    /// Some launch is refused.
    Refused,
    /// The launches that are accepted have too many different measured pages, so that there is no report.
    TooManyPages,
}

/// What a check of the launches of a release found.
#[derive(Drop)]
pub struct LaunchCheck {
    /// What is at fault, if anything is.
    pub fault: Option<ReleaseFault>,
    /// A remark on each launch that is refused, and one where there are too many pages.
    pub faults: Vec<Remark>,
    /// A remark on each thing that is rarely meant in launches that are accepted; none where the check is quiet.
    pub warnings: Vec<Remark>,
}

/// What was found in the launches that were looked at. A quiet check looks for no warning.
#[derive(Drop)]
pub struct Found {
    pub refusals: Vec<Remark>,
    pub has_refused: bool,
    pub pages: MeasuredPages,
    pub warnings: Warnings,
    /// The devicetrees that were looked at for warnings.
    pub seen: SeenTrees,
    pub is_quiet: bool,
}

impl Found {
    ghost use Rattle.std.specs.Prelude.{◌≡◌, [], IfOk, List, false, length, ℕ};
    ghost use Rattle.page_jobs.specs.Key.{rising_keys};
    ghost use Rattle.rim_check.specs.Explained.{fault_of, pages_said};
    ghost use Rattle.shown_text.specs.Lines.{AddsAll};
    ghost use Rattle.rim_check.specs.Warned.{ShowsWarnings};
    ghost use Rattle.rim_check.specs.inside.Found.{AreWarned, numbers_of};

    /// Nothing: no launch was looked at.
    pub fn new(alloc: Global, is_quiet: bool) -> Found
        ensures refusals { result.refusals.items ≡ [] }
        ensures refused { result.has_refused ≡ false }
        ensures pages { result.pages ≡ [] }
        ensures warnings { numbers_of result.warnings ≡ [] }
    {
        Found {
            refusals: Vec::new(alloc),
            has_refused: false,
            pages: MeasuredPages::new(alloc),
            warnings: Warnings::new(alloc),
            seen: SeenTrees::new(alloc),
            is_quiet,
        }
    }

    /// All of it, where these are the launches that were looked at.
    pub fn finish(self, alloc: Global, launches: &[NamedLaunch]) -> Result<LaunchCheck, NoMemory>
        ensures fault { IfOk result
            (λ c. c.fault ≡ fault_of (length (rising_keys self.pages)) self.has_refused) }
        ensures faults { IfOk result (λ c. AddsAll (pages_said (length (rising_keys self.pages)))
            self.refusals.items c.faults.items) }
        ensures warnings { IfOk result (λ c. (files : List (List ℕ))
            → AreWarned files launches.now (numbers_of self.warnings)
            → ShowsWarnings files launches.now c.warnings.items) }
    {
        let count = self.pages.count(alloc)?;
        let warnings = self.warnings.remarks(alloc, launches)?;
        let mut faults = self.refusals;
        push_pages(&mut faults, count)?;
        Ok(LaunchCheck {
            fault: fault_of(count, self.has_refused),
            faults,
            warnings,
        })
    }
}

/// What is at fault where there are this many different measured pages, and some launch is refused or none is.
fn fault_of(count: u128, has_refused: bool) -> Option<ReleaseFault>
    ensures { result ≡ fault_of count has_refused }
{
    if count > u128::from(DISTINCT_LIMIT) {
        return Some(ReleaseFault::TooManyPages);
    }
    if has_refused {
        Some(ReleaseFault::Refused)
    } else {
        None
    }
}

/// Adds a remark that says how many different measured pages there are, where these are too many.
fn push_pages(remarks: &mut Vec<Remark>, count: u128) -> Result<(), NoMemory>
    ensures { OnOk result (AddsAll (pages_said count) remarks.old.items remarks.new.items) }
{
    if count <= u128::from(DISTINCT_LIMIT) {
        return Ok(());
    }
    let remark = pages_remark(*remarks.allocator(), count)?;
    push_remark(remarks, remark)
}

/// How many different measured pages there are, and how many there may be.
fn pages_remark(alloc: Global, count: u128) -> Result<Remark, NoMemory>
    ensures { IfOk result (Says (pages_saying count)) }
{
    let given = format!(in alloc; "{count} different measured pages")?;
    let expected = format!(in alloc; "at most {DISTINCT_LIMIT}")?;
    let mut remark = Remark::new(alloc, Word::Fault(StartFault::TooManyPages.kind()));
    remark.place = Line::of(alloc, "manifest")?;
    remark.given = Line::of(alloc, given.as_str())?;
    remark.expected = Line::of(alloc, expected.as_str())?;
    Ok(remark)
}
