//! RECs that are rarely meant.
use crate::unusual::Unusual;
use ipa_layout::PlacedRec;
use refusal::NoMemory;
use shown_text::Remark;
use std::fmt;
use std::fmt::Write;

/// What is rarely meant of a launch's RECs.
#[derive(Clone, Copy)]
pub enum UnusualRec {
    /// There is none.
    None,
    /// The REC of this number is not REC 0, is runnable and enters at address 0, as `others` after it do.
    AtZero { number: usize, others: usize },
}

impl UnusualRec {
    /// Adds it to its warning.
    pub(crate) fn write_to(&self, remark: &mut Remark) -> fmt::Result {
        match *self {
            UnusualRec::None => {
                write!(remark.given, "no REC")?;
                write!(remark.expected, "one for each processor")
            }
            UnusualRec::AtZero { number, others } => {
                let processor = if others == 0 {
                    write!(remark.given, "REC {number} enters at 0x0")?;
                    "its processor"
                } else {
                    write!(remark.given, "REC {number} and {others} more enter at 0x0")?;
                    "a processor"
                };
                write!(
                    remark.expected,
                    "runnable = false where {processor} begins off"
                )?;
                write!(remark.help, "rim_manifest = 2, rec_rule")
            }
        }
    }
}

/// Adds what is rarely meant of the RECs of a launch.
pub(crate) fn find_in_recs<'a>(
    found: &mut Vec<Unusual<'a>>,
    recs: &[PlacedRec],
) -> Result<(), NoMemory> {
    if recs.is_empty() {
        found.push(Unusual::Rec(UnusualRec::None))?;
    }
    if let Some(unusual) = at_zero(recs) {
        found.push(Unusual::Rec(unusual))?;
    }
    Ok(())
}

/// The first REC after REC 0 that is runnable and enters at address 0, and how many others do.
fn at_zero(recs: &[PlacedRec]) -> Option<UnusualRec> {
    let mut at_zero = recs
        .iter()
        .enumerate()
        .skip(1)
        .filter(|(_, rec)| enters_at_zero(rec));
    let (number, _) = at_zero.next()?;
    Some(UnusualRec::AtZero {
        number,
        others: at_zero.count(),
    })
}

/// Whether a REC is runnable and enters at address 0.
fn enters_at_zero(rec: &PlacedRec) -> bool {
    rec.runnable && rec.pc == 0
}
