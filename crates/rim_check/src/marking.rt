//! The line of a manifest's text that has its first fault, with a mark under it.
use refusal::NoMemory;
use rim_spot::Spot;
use shown_text::Line;
use std::alloc::Global;
use std::fmt::Write;

/// The most characters that are shown before a fault, and from it on.
const MOST_SHOWN: usize = 60;

/// A part of a line, and a line that has a mark under the character that is at fault.
#[derive(Drop)]
pub struct MarkedLine {
    pub text: Line,
    pub mark: Line,
}

/// The line with the first fault of a manifest, which is there as `check_manifest` says; `None` where that is not known.
pub fn mark_first(
    alloc: Global,
    text: &[u8],
    first: Option<Spot>,
) -> Result<Option<MarkedLine>, NoMemory> {
    let Some(spot) = first else {
        return Ok(None);
    };
    let line = text
        .split(|byte| *byte == b'\n')
        .nth(spot.line.saturating_sub(1));
    match std::str::from_utf8(line.unwrap_or(&[])) {
        Ok(line) => Ok(Some(marked(alloc, line.trim_end(), spot)?)),
        Err(_) => Ok(None),
    }
}

/// What is shown of the line of a place, after its number, with a mark under the character there. The mark that some editors put before
/// a text is no character.
fn marked(alloc: Global, line: &str, spot: Spot) -> Result<MarkedLine, NoMemory> {
    let Spot {
        line: number,
        column,
    } = spot;
    let line = line.strip_prefix('\u{feff}').unwrap_or(line);
    let before = column.saturating_sub(1);
    let left_out = before.saturating_sub(MOST_SHOWN);
    let mut text = Line::new(alloc);
    write!(text, "{number} | ").map_err(|_| NoMemory)?;
    let mut mark = Line::new(alloc);
    push_chars(&mut text, line, left_out, before)?;
    for byte in text.as_slice() {
        if byte & 0xc0 != 0x80 {
            mark.push_text(" ")?;
        }
    }
    mark.push_text("^")?;
    push_chars(&mut text, line, before, before.saturating_add(MOST_SHOWN))?;
    Ok(MarkedLine { text, mark })
}

/// Adds the characters of a text from one number up to another.
fn push_chars(line: &mut Line, text: &str, from: usize, to: usize) -> Result<(), NoMemory> {
    let mut bytes = [0; 4];
    for c in text.chars().skip(from).take(to.saturating_sub(from)) {
        line.push_text(c.encode_utf8(&mut bytes))?;
    }
    Ok(())
}
