//! Lines of a map, and texts of a manifest that fit in them.
ghost use Rattle.std.specs.Prelude.{◌≡◌, true};
ghost use Rattle.map_text.specs.Lines.{are_lines};

use refusal::NoMemory;
use shown_text::Line;
use std::alloc::{AllocError, Global};
use std::fmt;

/// The most bytes of a line of a map, but for those that `rim check` prints too. No line has more columns than bytes.
pub const COLUMNS: usize = 100;

/// A text of whole lines.
#[derive(Drop)]
pub struct Lines {
    text: Vec<u8>,
    ghost whole: { are_lines text.items ≡ true },
}

impl Lines {
    ghost use Rattle.std.specs.Prelude.{◌≡◌, true};
    ghost use Rattle.map_text.specs.Lines.{are_lines};

    pub fn new(alloc: Global) -> Lines {
        Lines {
            text: Vec::new(alloc),
        }
    }

    /// Adds a line and a line feed.
    pub fn push(&mut self, line: &Line) -> Result<(), NoMemory> {
        push_whole(&mut self.text, line.as_slice())
    }

    /// Its bytes.
    pub fn into_bytes(self) -> Vec<u8>
        ensures { are_lines result.items ≡ true }
    {
        self.text
    }
}

/// Adds bytes and a line feed to whole lines: both of them, or nothing.
#[tactic(auto, using(crate::proofs::LastLine::ends_lines))]
fn push_whole(text: &mut Vec<u8>, line: &[u8]) -> Result<(), NoMemory>
    ensures { are_lines text.old.items ≡ true → are_lines text.new.items ≡ true }
{
    text.reserve(line.len() + 1)?;
    text.extend_from_slice(line)?;
    text.push_reserved(b'\n');
    Ok(())
}

/// What came of writing to a line: that fails by want of memory alone.
pub fn written(done: fmt::Result) -> Result<(), NoMemory> {
    match done {
        Ok(()) => Ok(()),
        Err(_) => Err(NoMemory),
    }
}

/// Adds a name between double quotes, with a `\` before each double quote and each `\` in it, in at most `room` bytes.
pub fn push_name(
    alloc: Global,
    line: &mut Line,
    name: &str,
    room: usize,
) -> Result<(), AllocError> {
    line.push_text("\"")?;
    push_shown(alloc, line, name, room.saturating_sub(2), true)?;
    line.push_text("\"")
}

/// Adds a path, with each `\` doubled, in at most `room` bytes.
pub fn push_path(
    alloc: Global,
    line: &mut Line,
    path: &str,
    room: usize,
) -> Result<(), AllocError> {
    push_shown(alloc, line, path, room, false)
}

/// Adds the characters of a text that have room, and `..` where not all have.
fn push_shown(
    alloc: Global,
    line: &mut Line,
    text: &str,
    room: usize,
    is_quoted: bool,
) -> Result<(), AllocError> {
    let mut whole = Line::new(alloc);
    let mut front = Line::new(alloc);
    if push_both(&mut whole, &mut front, text, room, is_quoted)? {
        return line.append(&whole);
    }
    line.append(&front)?;
    line.push_text("..")
}

/// Adds the characters of a text to one line, and to another one those that have room beside `..`; and whether all have room.
fn push_both(
    whole: &mut Line,
    front: &mut Line,
    text: &str,
    room: usize,
    is_quoted: bool,
) -> Result<bool, AllocError> {
    for c in text.chars() {
        push_char(whole, c, is_quoted)?;
        let len = whole.as_slice().len();
        if len > room {
            return Ok(false);
        }
        if room - len >= 2 {
            push_char(front, c, is_quoted)?;
        }
    }
    Ok(true)
}

/// Adds a character of a text.
fn push_char(line: &mut Line, c: char, is_quoted: bool) -> Result<(), AllocError> {
    if c == '\\' || (c == '"' && is_quoted) {
        line.push_text("\\")?;
    }
    push_as_is(line, c)
}

/// Adds a character without a `\` before it.
fn push_as_is(line: &mut Line, c: char) -> Result<(), AllocError> {
    let mut bytes = [0; 4];
    line.push_text(c.encode_utf8(&mut bytes))
}

/// How many bytes of a line are left after some.
pub fn room_after(line: &Line) -> usize {
    COLUMNS.saturating_sub(line.as_slice().len())
}

/// How many pages some bytes are, and the same in the largest unit of which they are a whole number; or how many bytes, where they
/// are no whole pages.
#[derive(Clone, Copy)]
pub struct Size(pub u64);

impl fmt::Display for Size {
    fn fmt<W: fmt::Write>(&self, f: &mut fmt::Formatter<W>) -> fmt::Result {
        let Size(bytes) = *self;
        if bytes % 4096 != 0 {
            return write!(f, "{bytes} bytes");
        }
        let pages = bytes / 4096;
        let ending = if pages == 1 { "" } else { "s" };
        let (count, unit) = in_units(bytes);
        write!(f, "{pages} page{ending}, {count} {unit}")
    }
}

/// A size in the largest unit of which it is a whole number; in KiB where there is none.
fn in_units(bytes: u64) -> (u64, &'static str) {
    if bytes % (1 << 40) == 0 {
        (bytes / (1 << 40), "TiB")
    } else if bytes % (1 << 30) == 0 {
        (bytes / (1 << 30), "GiB")
    } else if bytes % (1 << 20) == 0 {
        (bytes / (1 << 20), "MiB")
    } else {
        (bytes / (1 << 10), "KiB")
    }
}
