//! A writer to a terminal.
use crate::line::is_shown;
use std::io;
use std::io::Write;

/// How many bytes are looked at for one write, at most.
const CHUNK: usize = 65_536;

/// A writer to a terminal, for whole texts of UTF-8. JSON has the texts of others as they are. A character in it that a person cannot see,
/// or that changes how a terminal shows it, is given to the terminal as JSON's `\u` and its number, which means the same. The other
/// texts of the program have no such character but the line feed, which is given as it is.
#[derive(Drop)]
pub struct TerminalWriter<W: Write + Drop> {
    to: W,
}

impl<W: Write + Drop> TerminalWriter<W> {
    /// A writer that gives a terminal, which is this one, what it is given.
    pub fn new(to: W) -> TerminalWriter<W> {
        TerminalWriter { to }
    }

    /// Writes a character by its number, in one or two parts of 16 bits.
    fn write_number(&mut self, c: char) -> io::Result<()> {
        let mut parts = [0; 2];
        for part in c.encode_utf16(&mut parts) {
            let part = *part;
            write!(self.to, "\\u{part:04x}")?;
        }
        Ok(())
    }
}

impl<W: Write + Drop> Write for TerminalWriter<W> {
    fn write(&mut self, bytes: &[u8]) -> io::Result<usize> {
        let text = front(bytes);
        let shown = text.find(is_number).unwrap_or(text.len());
        match text.chars().next() {
            Some(c) if is_number(c) => {
                self.write_number(c)?;
                Ok(c.len_utf8().min(bytes.len()))
            }
            Some(_) => self.to.write(bytes.get(..shown).unwrap_or(bytes)),
            None => self.to.write(bytes),
        }
    }

    fn flush(&mut self) -> io::Result<()> {
        self.to.flush()
    }
}

/// Whether a character is given to a terminal by its number.
fn is_number(c: char) -> bool {
    c != '\n' && !is_shown(c)
}

/// The first characters of some bytes: no more than are looked at for one write, and none where they do not begin with one.
fn front(bytes: &[u8]) -> &str {
    let bytes = bytes.get(..CHUNK).unwrap_or(bytes);
    match std::str::from_utf8(bytes) {
        Ok(text) => text,
        Err(error) => {
            let whole = bytes.get(..error.valid_up_to()).unwrap_or(&[]);
            std::str::from_utf8(whole).unwrap_or("")
        }
    }
}
