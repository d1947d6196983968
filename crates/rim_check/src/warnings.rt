//! The warnings of a release: what is rarely meant in launches that are accepted, said once for all launches that have it.
ghost use Rattle.std.specs.Prelude.{◌<◌, ◌^◌, OnOk};
ghost use Rattle.shown_text.specs.Lines.{AddsAll, AddsLine};
ghost use Rattle.rim_check.specs.Warned.{more_said, warning_said};

use refusal::NoMemory;
use rim_manifest::NamedLaunch;
use rim_unusual::Unusual;
use shown_text::{Line, Remark, Word, launch_place, push_remark};
use std::alloc::Global;

/// The most warnings that have a line: 200. How many more there are is said in one line. This project's choice.
const WARNING_LIMIT: usize = 200;

/// What a warning says, without its place; the number of the first launch that it is about, and how many others have the same.
#[derive(Drop)]
pub struct Warning {
    said: Remark,
    launch: usize,
    others: usize,
}

/// The warnings of some launches.
#[derive(Drop)]
pub struct Warnings {
    found: Vec<Warning>,
    /// How many have no line.
    more: usize,
}

impl Warnings {
    ghost use Rattle.std.specs.Prelude.{◌≡◌, ◌<◌, [], IfOk, IfSome, List, OnOk, length, ℕ};
    ghost use Rattle.rim_check.specs.Warned.{ShowsWarnings};
    ghost use Rattle.rim_check.specs.inside.Found.{AddsNumber, AreWarned, numbers_of};

    /// No warning.
    pub fn new(alloc: Global) -> Warnings
        ensures { numbers_of result ≡ [] }
    {
        Warnings {
            found: Vec::new(alloc),
            more: 0,
        }
    }

    /// Adds what is rarely meant in the launch of this number.
    pub fn add_all(&mut self, launch: usize, unusual: &[Unusual<'_>]) -> Result<(), NoMemory>
        ensures { OnOk result (AddsNumber launch (numbers_of self.old) (numbers_of self.new)) }
    {
        for one in unusual {
            self.add(launch, one)?;
        }
        Ok(())
    }

    /// Adds one: it is counted with the same of an earlier launch.
    fn add(&mut self, launch: usize, unusual: &Unusual<'_>) -> Result<(), NoMemory>
        ensures { OnOk result (AddsNumber launch (numbers_of self.old) (numbers_of self.new)) }
    {
        let said = unusual.remark(*self.found.allocator())?;
        match self.position(&said) {
            Some(at) => self.count_other(at),
            None => self.push(launch, said)?,
        }
        Ok(())
    }

    /// Where the warning is that says the same.
    fn position(&self, said: &Remark) -> Option<usize>
        ensures { IfSome result (λ at. at < length self.now.found.items) }
    {
        self.found
            .iter()
            .position(|warning| is_same(&warning.said, said))
    }

    /// Counts one more launch that has the warning at a place.
    fn count_other(&mut self, at: usize)
        requires { at < length self.old.found.items }
        ensures { numbers_of self.new ≡ numbers_of self.old }
    {
        let others = self.found[at].others;
        self.found[at].others = others.saturating_add(1);
    }

    /// Adds a warning that no launch has had.
    fn push(&mut self, launch: usize, said: Remark) -> Result<(), NoMemory>
        ensures { OnOk result (AddsNumber launch (numbers_of self.old) (numbers_of self.new)) }
    {
        if self.found.len() >= WARNING_LIMIT {
            self.more = self.more.saturating_add(1);
            return Ok(());
        }
        self.found.push(Warning {
            said,
            launch,
            others: 0,
        })?;
        Ok(())
    }

    /// A remark for each, and one that says how many more there are.
    pub fn remarks(&self, alloc: Global, launches: &[NamedLaunch]) -> Result<Vec<Remark>, NoMemory>
        ensures { IfOk result (λ remarks. (files : List (List ℕ))
            → AreWarned files launches.now (numbers_of self.now)
            → ShowsWarnings files launches.now remarks.items) }
    {
        let mut remarks = Vec::new(alloc);
        for warning in &self.found {
            if let Some(launch) = launches.get(warning.launch) {
                push_warning(&mut remarks, launch.name(), warning)?;
            }
        }
        if self.more > 0 {
            push_more(&mut remarks, self.more)?;
        }
        Ok(remarks)
    }
}

/// Whether two remarks say the same of their places.
fn is_same(one: &Remark, other: &Remark) -> bool {
    one.given.as_slice() == other.given.as_slice()
        && one.expected.as_slice() == other.expected.as_slice()
        && one.help.as_slice() == other.help.as_slice()
}

/// Adds the remark of a warning about a launch of this name, and how many others have the same.
fn push_warning(remarks: &mut Vec<Remark>, name: &str, warning: &Warning) -> Result<(), NoMemory>
    ensures adds { OnOk result (AddsLine (warning_said name.now warning.now.others)
        remarks.old.items remarks.new.items) }
    ensures few { warning.now.others < 2 ^ 64 }
{
    let alloc = *remarks.allocator();
    let mut remark = Remark::new(alloc, Word::Warning);
    remark.place = launch_place(alloc, name, warning.others)?;
    remark.given.append(&warning.said.given)?;
    remark.expected.append(&warning.said.expected)?;
    remark.help.append(&warning.said.help)?;
    remark.joint = warning.said.joint;
    push_remark(remarks, remark)
}

/// Adds a remark that says how many warnings have none.
fn push_more(remarks: &mut Vec<Remark>, more: usize) -> Result<(), NoMemory>
    requires { 0 < more }
    ensures { OnOk result (AddsAll (more_said more) remarks.old.items remarks.new.items) }
{
    let alloc = *remarks.allocator();
    let place = format!(in alloc; "{more} more")?;
    let mut remark = Remark::new(alloc, Word::Warning);
    remark.place = Line::of(alloc, place.as_str())?;
    push_remark(remarks, remark)
}
