//! What the steps of a launch name.
use rim_manifest::{entries, name};
use rim_rules::kind::StepKind;
use std::fmt;
use toml::{Table, Value};

/// A region, an item or a REC of a launch. Printed, it is the step that names it.
#[derive(Clone, Copy)]
pub enum Part<'a> {
    Ram(usize),
    Item(&'a str),
    Rec(usize),
}

impl Part<'_> {
    fn kind(&self) -> StepKind {
        match self {
            Part::Ram(_) => StepKind::Ram,
            Part::Item(_) => StepKind::Item,
            Part::Rec(_) => StepKind::Rec,
        }
    }
}

impl fmt::Display for Part<'_> {
    fn fmt<W: fmt::Write>(&self, f: &mut fmt::Formatter<W>) -> fmt::Result {
        let front = self.kind().front();
        match *self {
            Part::Ram(number) | Part::Rec(number) => write!(f, "{front}{number}"),
            Part::Item(name) => write!(f, "{front}{name}"),
        }
    }
}

/// The parts of a launch. They are counted from 0: its regions, then its items, then its RECs.
#[derive(Clone, Copy)]
pub struct Parts<'a> {
    pub regions: usize,
    pub items: &'a [Value],
    pub recs: usize,
}

impl<'a> Parts<'a> {
    /// The parts of a launch.
    pub fn new(launch: &'a Table) -> Parts<'a> {
        Parts {
            regions: entries(launch, "ram").len(),
            items: entries(launch, "item"),
            recs: entries(launch, "rec").len(),
        }
    }

    /// How many there are.
    pub fn count(&self) -> usize {
        self.regions
            .saturating_add(self.items.len())
            .saturating_add(self.recs)
    }

    /// The part of this number.
    pub fn part(&self, number: usize) -> Part<'a> {
        let Some(number) = number.checked_sub(self.regions) else {
            return Part::Ram(number);
        };
        match self.items.get(number) {
            Some(item) => Part::Item(name(item)),
            None => Part::Rec(number.saturating_sub(self.items.len())),
        }
    }

    /// The number of the part that a step names, if it names one.
    pub fn named(&self, step: &str) -> Option<usize> {
        if let Some(digits) = step.strip_prefix(StepKind::Ram.front()) {
            return number_below(self.regions, digits);
        }
        if let Some(wanted) = step.strip_prefix(StepKind::Item.front()) {
            let item = self.items.iter().position(|item| name(item) == wanted)?;
            return Some(self.regions.saturating_add(item));
        }
        let rec = number_below(self.recs, step.strip_prefix(StepKind::Rec.front())?)?;
        Some(
            self.regions
                .saturating_add(self.items.len())
                .saturating_add(rec),
        )
    }
}

/// The number of decimal digits without a leading zero, where it is below a count.
fn number_below(count: usize, digits: &str) -> Option<usize> {
    let is_plain = digits.bytes().all(|byte| byte.is_ascii_digit());
    if !is_plain || digits.len() > 1 && digits.starts_with('0') {
        return None;
    }
    match digits.parse::<usize>() {
        Ok(number) if number < count => Some(number),
        _ => None,
    }
}
