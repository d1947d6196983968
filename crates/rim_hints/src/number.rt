//! Whole numbers of a manifest: how a fault shows them, and texts that spell one.
use std::fmt;

/// The first number that is shown in hexadecimal digits too.
const TWO_WAYS: i64 = 10;

/// A number in decimal digits. Where it may have been typed in hexadecimal ones, these follow.
#[derive(Clone, Copy)]
pub struct Number(pub i64);

impl fmt::Display for Number {
    fn fmt<W: fmt::Write>(&self, f: &mut fmt::Formatter<W>) -> fmt::Result {
        let Number(number) = *self;
        if number < TWO_WAYS {
            write!(f, "{number}")
        } else {
            write!(f, "{number} ({number:#x})")
        }
    }
}

/// A pair of numbers, likewise.
#[derive(Clone, Copy)]
pub struct NumberPair(pub i64, pub i64);

impl fmt::Display for NumberPair {
    fn fmt<W: fmt::Write>(&self, f: &mut fmt::Formatter<W>) -> fmt::Result {
        let NumberPair(first, second) = *self;
        write!(f, "[{first}, {second}]")?;
        let is_negative = first < 0 || second < 0;
        if is_negative || first < TWO_WAYS && second < TWO_WAYS {
            return Ok(());
        }
        write!(f, " ([{first:#x}, {second:#x}])")
    }
}

/// How digits are read.
#[derive(Clone, Copy)]
enum Radix {
    Decimal,
    Hexadecimal,
}

impl Radix {
    /// How many digits there are.
    fn count(self) -> i64 {
        match self {
            Radix::Decimal => 10,
            Radix::Hexadecimal => 16,
        }
    }

    /// The value of a digit.
    fn digit(self, c: char) -> Option<u32> {
        match self {
            Radix::Decimal => c.to_digit(10),
            Radix::Hexadecimal => c.to_digit(16),
        }
    }
}

/// A whole number of TOML.
#[derive(Clone, Copy)]
enum Magnitude {
    /// One from 0 to 2^63-1.
    Within,
    /// A larger one.
    TooLarge,
}

/// Whether a text reads as a number from 0 to 2^63-1, in decimal or hexadecimal digits.
pub fn is_number(text: &str) -> bool {
    matches!(numeral(text), Some(Magnitude::Within))
}

/// Whether a text reads as a number above 2^63-1.
pub fn is_too_large(text: &str) -> bool {
    matches!(numeral(text), Some(Magnitude::TooLarge))
}

/// The number that a text is by TOML's rules, if it is one without a sign.
fn numeral(text: &str) -> Option<Magnitude> {
    match text.strip_prefix("0x") {
        Some(digits) => spelled(Radix::Hexadecimal, digits),
        None if text.len() > 1 && text.starts_with('0') => None,
        None => spelled(Radix::Decimal, text),
    }
}

/// The number that digits spell. There may be one `_` between two of them.
fn spelled(radix: Radix, digits: &str) -> Option<Magnitude> {
    let mut number = Some(0);
    let mut is_after_digit = false;
    for c in digits.chars() {
        if c == '_' && is_after_digit {
            is_after_digit = false;
        } else {
            number = with_digit(radix, number, radix.digit(c)?);
            is_after_digit = true;
        }
    }
    match number {
        _ if !is_after_digit => None,
        Some(_) => Some(Magnitude::Within),
        None => Some(Magnitude::TooLarge),
    }
}

/// A number with one more digit; `None` where it is too large.
fn with_digit(radix: Radix, number: Option<i64>, digit: u32) -> Option<i64> {
    number?
        .checked_mul(radix.count())?
        .checked_add(i64::from(digit))
}

/// Whether a text is the digits of a word without the `0x` that a word begins with.
pub fn are_word_digits(text: &str) -> bool {
    1 <= text.len() && text.len() <= 16 && text.bytes().all(|byte| byte.is_ascii_hexdigit())
}
