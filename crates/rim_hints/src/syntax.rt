//! Where a text is no TOML document, and why.
use crate::hint::Header;
use crate::number::is_too_large;
use rim_spot::{Spot, spot_at};
use shown_text::{Quoted, Remark};
use std::fmt;
use std::fmt::Write;
use toml::de::Error;

/// Where an error is in a text, if that is known.
pub fn error_spot(text: &[u8], error: &Error) -> Option<Spot> {
    let span = error.span()?;
    Some(spot_at(text, span.start))
}

/// Adds why a text is no document.
pub fn write_message(remark: &mut Remark, text: &[u8], error: &Error) -> fmt::Result {
    let message = error.message();
    write!(remark.given, "{message}")?;
    let Some(span) = error.span() else {
        return Ok(());
    };
    let rest = first_line(text.get(span.start..).unwrap_or(&[]));
    if message == "duplicate key" {
        return write_key(remark, rest);
    }
    if is_too_large(first_word(rest)) {
        return write!(
            remark.help,
            "a number is at most 9223372036854775807; \
             pc and x take larger ones as a text \"0x..\""
        );
    }
    Ok(())
}

/// The first line of a text, which is no text where it is not UTF-8.
fn first_line(text: &[u8]) -> &str {
    let end = text.iter().position(|byte| *byte == b'\n');
    let line = text.get(..end.unwrap_or(text.len())).unwrap_or(text);
    std::str::from_utf8(line).unwrap_or("")
}

/// The letters, digits and signs of a number that a text begins with.
fn first_word(text: &str) -> &str {
    let end = text.find(|c: char| !c.is_ascii_alphanumeric()
        && !matches!(c, '_' | '.' | '+' | '-'));
    text.get(..end.unwrap_or(text.len())).unwrap_or(text)
}

/// Adds the key that a line begins with, if it is a plain one. The header of one table may be meant as that of one of several.
fn write_key(remark: &mut Remark, text: &str) -> fmt::Result {
    let Some(key) = key_in(text) else {
        return Ok(());
    };
    let quoted = Quoted(key);
    write!(remark.given, " {quoted}")?;
    let is_single = text.starts_with('[') && !text.starts_with("[[");
    match key.strip_prefix("launch.").unwrap_or(key) {
        "launch" | "file" | "item" | "rec" if is_single => {
            let header = Header(key);
            write!(remark.help, "write {header}")
        }
        _ => Ok(()),
    }
}

/// The key that a line begins with, without brackets and spaces. One between quotes is left out, since it may have any character.
fn key_in(text: &str) -> Option<&str> {
    let text = text.trim_start_matches('[');
    let end = text.find(is_end_of_key)?;
    let key = text.get(..end)?.trim();
    let is_plain = !key.is_empty() && !key.contains('"') && !key.contains('\'');
    if is_plain { Some(key) } else { None }
}

/// Whether a character ends a key that is not between quotes.
fn is_end_of_key(c: char) -> bool {
    c == '=' || c == ']'
}
