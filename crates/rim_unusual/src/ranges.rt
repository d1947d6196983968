//! Sets of addresses.
use ipa_layout::IpaRange;
use refusal::NoMemory;
use shown_text::Remark;
use std::alloc::Global;
use std::fmt;
use std::fmt::Write;

/// Where two sets of addresses differ first: the range of the one and of the other. Where one of them has no more, its range
/// is `None`.
#[derive(Clone, Copy)]
pub struct Difference {
    found: Option<IpaRange>,
    expected: Option<IpaRange>,
}

impl Difference {
    /// Adds it to its warning.
    pub(crate) fn write_to(&self, remark: &mut Remark) -> fmt::Result {
        let found = RangeText(self.found);
        let expected = RangeText(self.expected);
        write!(remark.given, "{found}")?;
        write!(remark.expected, "{expected}")
    }
}

/// A range as it is shown, or `none`.
#[derive(Clone, Copy)]
pub struct RangeText(Option<IpaRange>);

impl fmt::Display for RangeText {
    fn fmt<W: fmt::Write>(&self, f: &mut fmt::Formatter<W>) -> fmt::Result {
        match *self {
            RangeText(Some(range)) => {
                let IpaRange { base, end } = range;
                write!(f, "{base:#x} to {end:#x}")
            }
            RangeText(None) => f.write_str("none"),
        }
    }
}

/// The same addresses as ranges in rising order that do not touch.
pub(crate) fn merged(alloc: Global, mut ranges: Vec<IpaRange>) -> Result<Vec<IpaRange>, NoMemory> {
    ranges.sort_by_key(|range| range.base)?;
    let mut all = Vec::new(alloc);
    for range in &ranges {
        add(&mut all, *range)?;
    }
    Ok(all)
}

/// Adds a range that begins at the last one or after it: to the last one, where they touch.
fn add(all: &mut Vec<IpaRange>, range: IpaRange) -> Result<(), NoMemory> {
    match all.last_mut() {
        Some(last) if range.base <= last.end => last.end = last.end.max(range.end),
        _ => all.push(range)?,
    }
    Ok(())
}

/// Returns whether each range is within one of others.
pub(crate) fn is_within(ranges: &[IpaRange], others: &[IpaRange]) -> bool {
    ranges.iter().all(|range| {
        others
            .iter()
            .any(|other| other.base <= range.base && range.end <= other.end)
    })
}

/// Where two sets of addresses differ first, if they do, each as ranges in rising order that do not touch.
pub(crate) fn first_difference(found: &[IpaRange], expected: &[IpaRange]) -> Option<Difference> {
    let same = found
        .iter()
        .zip(expected.iter())
        .take_while(|(one, other)| one == other)
        .count();
    let found = found.get(same).copied();
    let expected = expected.get(same).copied();
    if found.is_none() && expected.is_none() {
        None
    } else {
        Some(Difference { found, expected })
    }
}
