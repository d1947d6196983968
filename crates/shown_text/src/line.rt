//! Lines of text.
ghost use Rattle.std.specs.Prelude.{◌≡◌, ◌<◌, true};
ghost use Rattle.std.specs.List.{list_all};
ghost use Rattle.shown_text.specs.Shown.{is_inside, is_plain};

use std::alloc::{AllocError, Global};
use std::fmt;
use std::fmt::Write;
use ucd_category::{GeneralCategory, GeneralCategoryGroup};
use ucd_derived::is_default_ignorable_code_point;

/// The most bytes that are shown of a text.
const MOST_SHOWN: usize = 64;

/// A line that is being written, without its line feed. A character that a person cannot see, or cannot tell from a space, is
/// written as its number: `\x` and two hexadecimal digits, `\u` and four or `\U` and eight. So no text can end the line or change
/// how a terminal shows it.
#[derive(Drop)]
pub struct Line {
    text: Vec<u8>,
    ghost inside: { list_all is_inside text.items ≡ true },
}

impl Line {
    ghost use Rattle.std.specs.Prelude.{◌≡◌, ◌++◌, [], IfOk, OnOk, true};
    ghost use Rattle.std.specs.List.{list_all};
    ghost use Rattle.shown_text.specs.Shown.{is_inside, is_plain};

    /// A line with no bytes. It takes no memory.
    pub fn new(alloc: Global) -> Line
        ensures { result.text.items ≡ [] }
    {
        Line {
            text: Vec::new(alloc),
        }
    }

    /// The line that shows a text.
    pub fn of(alloc: Global, text: &str) -> Result<Line, AllocError>
        ensures { IfOk result (λ line. list_all is_plain text.now ≡ true
            → line.text.items ≡ text.now) }
    {
        let mut line = Line::new(alloc);
        line.push_text(text)?;
        Ok(line)
    }

    /// Its bytes. None of them is a line feed.
    pub fn as_slice(&self) -> &[u8]
        ensures value { result.now ≡ self.now.text.items }
        ensures inside { list_all is_inside result.now ≡ true }
    {
        self.text.as_slice()
    }

    /// Adds another line's bytes.
    pub fn append(&mut self, other: &Line) -> Result<(), AllocError>
        ensures { OnOk result (self.new.text.items ≡ self.old.text.items ++ other.now.text.items) }
    {
        self.text.extend_from_slice(other.as_slice())?;
        Ok(())
    }

    /// Adds a text: as it is, where all of its bytes are shown so.
    pub fn push_text(&mut self, text: &str) -> Result<(), AllocError>
        ensures { OnOk result (list_all is_plain text.now ≡ true
            → self.new.text.items ≡ self.old.text.items ++ text.now) }
    {
        if is_all_plain(text) {
            self.push_plain(text.as_bytes())
        } else {
            self.push_chars(text)
        }
    }

    /// Adds bytes that are shown as they are.
    fn push_plain(&mut self, bytes: &[u8]) -> Result<(), AllocError>
        requires { list_all is_plain bytes.now ≡ true }
        ensures { OnOk result (self.new.text.items ≡ self.old.text.items ++ bytes.now) }
    {
        self.text.extend_from_slice(bytes)?;
        Ok(())
    }

    /// Adds a text that is not between quotes, as a path: each `\` is doubled, so that none is taken for the first of a number.
    pub fn push_path(&mut self, text: &str) -> Result<(), AllocError>
        ensures { OnOk result (list_all is_plain text.now ≡ true
            → self.new.text.items ≡ self.old.text.items ++ text.now) }
    {
        if is_all_plain(text) {
            return self.push_plain(text.as_bytes());
        }
        for c in text.chars() {
            if c == '\\' {
                self.push_inside(b'\\')?;
            }
            self.push_char(c)?;
        }
        Ok(())
    }

    /// Adds each character of a text.
    fn push_chars(&mut self, text: &str) -> Result<(), AllocError> {
        for c in text.chars() {
            self.push_char(c)?;
        }
        Ok(())
    }

    /// Adds a character, or its number where it is not shown.
    fn push_char(&mut self, c: char) -> Result<(), AllocError> {
        if !is_shown(c) {
            return self.push_number(c as u32);
        }
        let mut bytes = [0; 4];
        for byte in c.encode_utf8(&mut bytes).as_bytes() {
            self.push(*byte)?;
        }
        Ok(())
    }

    /// Adds a byte of a character that is shown. None of these ends a line.
    fn push(&mut self, byte: u8) -> Result<(), AllocError> {
        if byte == b'\n' {
            return Ok(());
        }
        self.push_inside(byte)
    }

    /// Adds the number of a character.
    fn push_number(&mut self, number: u32) -> Result<(), AllocError> {
        let (letter, count) = match number {
            0..=0xff => (b'x', 2),
            0x100..=0xffff => (b'u', 4),
            _ => (b'U', 8),
        };
        self.push_inside(b'\\')?;
        self.push_inside(letter)?;
        for place in 0..count {
            self.push_inside(digit_at(number, count - 1 - place))?;
        }
        Ok(())
    }

    /// Adds a byte that ends no line.
    fn push_inside(&mut self, byte: u8) -> Result<(), AllocError>
        requires { is_inside byte ≡ true }
    {
        self.text.push(byte)?;
        Ok(())
    }
}

/// Whether all bytes of a text are shown as they are.
fn is_all_plain(text: &str) -> bool
    ensures { result ≡ list_all is_plain text.now }
{
    text.as_bytes().iter().all(|byte| is_plain(*byte))
}

/// Whether a byte is shown as it is in any text. Those above 127 are the later bytes of a character, or begin one that is a letter
/// or a sign: others that begin such a character are looked at with it.
fn is_plain(byte: u8) -> bool
    ensures { result ≡ is_plain byte }
{
    match byte {
        b'\\' | 0x7f => false,
        0x20..=0xbf | 0xc3..=0xcc | 0xd0..=0xd3 | 0xe4..=0xe9 => true,
        _ => false,
    }
}

/// Whether a person can see a character, and can tell it from a space (Unicode, `General_Category` and
/// `Default_Ignorable_Code_Point`).
pub(crate) fn is_shown(c: char) -> bool {
    let category = GeneralCategory::for_char(c);
    let is_sign = !GeneralCategoryGroup::Other.contains(category)
        && !GeneralCategoryGroup::Separator.contains(category)
        && !is_default_ignorable_code_point(c)
        && !is_blank(c);
    c == ' ' || is_sign
}

/// Whether a character is drawn as nothing although it is a sign or a letter by its category: the Braille pattern without dots, the one
/// that an object is put in the place of, two blanks of Egyptian hieroglyphs, the filler of Khitan script, and a note without a head.
fn is_blank(c: char) -> bool {
    matches!(
        c,
        '\u{2800}' | '\u{fffc}' | '\u{13441}' | '\u{13442}' | '\u{16fe4}' | '\u{1d159}'
    )
}

/// The hexadecimal digit of a number at a place, of which the last is 0.
fn digit_at(number: u32, place: u32) -> u8
    requires { place < 8 }
    ensures { is_inside result ≡ true }
{
    digit(((number >> (4 * place)) % 16) as u8)
}

/// A hexadecimal digit.
fn digit(value: u8) -> u8
    requires { value < 16 }
    ensures { is_inside result ≡ true }
{
    if value < 10 {
        b'0' + value
    } else {
        b'a' + (value - 10)
    }
}

impl fmt::Write for Line {
    fn write_str(&mut self, text: &str) -> fmt::Result {
        self.push_text(text)?;
        Ok(())
    }
}

/// A text of a manifest, as it is shown: between double quotes, with a `\` before each double quote and each `\` in it, and cut at
/// 64 bytes with `..` after it.
#[derive(Clone, Copy)]
pub struct Quoted<'a>(pub &'a str);

impl fmt::Display for Quoted<'_> {
    fn fmt<W: fmt::Write>(&self, f: &mut fmt::Formatter<W>) -> fmt::Result {
        let Quoted(text) = *self;
        let (front, cut) = shown(text);
        f.write_str("\"")?;
        write_escaped(f, front)?;
        write!(f, "\"{cut}")
    }
}

/// Writes a text with a `\` before each double quote and each `\`.
fn write_escaped<W: fmt::Write>(f: &mut fmt::Formatter<W>, text: &str) -> fmt::Result {
    for c in text.chars() {
        if c == '"' || c == '\\' {
            f.write_str("\\")?;
        }
        f.write_char(c)?;
    }
    Ok(())
}

/// The first bytes of a text, and `..` where it has more.
pub fn shown(text: &str) -> (&str, &'static str) {
    if text.len() <= MOST_SHOWN {
        return (text, "");
    }
    match text.get(..text.floor_char_boundary(MOST_SHOWN)) {
        Some(front) => (front, ".."),
        None => (text, ""),
    }
}
