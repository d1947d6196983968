//! Lines and columns.

/// The bytes that some editors put before a text. They are no character of it.
const BYTE_ORDER_MARK: &[u8] = b"\xef\xbb\xbf";

/// A place in a text: its line, and the number of the character there, both from 1.
#[derive(Clone, Copy, Debug, PartialEq, Eq)]
pub struct Spot {
    pub line: usize,
    pub column: usize,
}

impl Spot {
    /// Where a text begins.
    pub(crate) fn first() -> Spot {
        Spot { line: 1, column: 1 }
    }

    /// The place after these bytes.
    pub(crate) fn after(self, bytes: &[u8]) -> Spot {
        let mut spot = self;
        for byte in bytes {
            spot.pass(*byte);
        }
        spot
    }

    /// Goes on past a byte. A column counts characters, so the later bytes of one count for nothing.
    fn pass(&mut self, byte: u8) {
        if byte == b'\n' {
            self.line = self.line.saturating_add(1);
            self.column = 1;
        } else if is_first(byte) {
            self.column = self.column.saturating_add(1);
        }
    }
}

/// The place of the byte of this number, from 0.
pub fn spot_at(text: &[u8], number: usize) -> Spot {
    let front = text.get(..number).unwrap_or(text);
    Spot::first().after(without_mark(front))
}

/// A text without the mark that it may begin with.
pub(crate) fn without_mark(text: &[u8]) -> &[u8] {
    text.strip_prefix(BYTE_ORDER_MARK).unwrap_or(text)
}

/// Whether a byte is the first of a character, in UTF-8.
fn is_first(byte: u8) -> bool {
    byte & 0xc0 != 0x80
}
