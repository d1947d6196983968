//! How a value is to be written in place of what is given.
use crate::alike::is_alike;
use crate::expected::{algorithm_words, kind_words, rec_rule_words};
use crate::number::{are_word_digits, is_number};
use rim_launch::Role;
use rim_rules::form::Form;
use rim_rules::kind::kind_word;
use shown_text::{Line, Remark};
use std::fmt;
use std::fmt::Write;
use toml::Value;

/// Other words for kinds, and the kinds.
const KIND_ALIASES: [(&str, Role); 8] = [
    ("image", Role::Kernel),
    ("linux", Role::Kernel),
    ("ramdisk", Role::Initrd),
    ("initramfs", Role::Initrd),
    ("fdt", Role::Dtb),
    ("devicetree", Role::Dtb),
    ("device tree", Role::Dtb),
    ("binary", Role::Raw),
];

/// Units of sizes, as other programs take them, and how many bytes each is.
const UNITS: [(&str, i64); 9] = [
    ("K", 1 << 10),
    ("KB", 1 << 10),
    ("KiB", 1 << 10),
    ("M", 1 << 20),
    ("MB", 1 << 20),
    ("MiB", 1 << 20),
    ("G", 1 << 30),
    ("GB", 1 << 30),
    ("GiB", 1 << 30),
];

/// What helps to mend a value, beside what is expected.
#[derive(Clone, Copy)]
pub enum Hint<'a> {
    /// Nothing is known.
    Nothing,
    /// It is right but for its quotes. That is said of what is expected.
    Quotes,
    /// The word that is meant.
    Word(&'static str),
    /// It is a number of bytes that was written with a unit.
    Bytes(i64),
    /// It lacks the `0x` before its digits.
    WordDigits(&'a str),
    /// A character that may not be in it.
    Character(char),
    /// How many characters it has.
    Characters(usize),
    /// How many hexadecimal digits it has, and the first character that is none.
    Digits { count: usize, other: Option<char> },
    /// The second number of a region is its size.
    Size { base: i64, size: i64, end: i64 },
    /// A region is not in an array of regions.
    Region { base: i64, end: i64 },
    /// A table is not in an array of tables, which a key has.
    Tables(&'static str),
}

impl Hint<'_> {
    /// Adds it to a remark.
    pub fn write_to(&self, remark: &mut Remark) -> fmt::Result {
        match *self {
            Hint::Nothing => Ok(()),
            Hint::Quotes => write!(remark.expected, ", written without quotes"),
            Hint::Word(word) => write!(remark.help, "write \"{word}\""),
            Hint::Bytes(count) => write!(remark.help, "write {count:#x}"),
            Hint::WordDigits(digits) => {
                write!(remark.help, "in hexadecimal digits: \"0x{digits}\"")
            }
            Hint::Character(c) => write!(remark.help, "'{c}' is not allowed"),
            Hint::Characters(count) => write!(remark.help, "it has {count} characters"),
            Hint::Digits { count, other } => write_digits(&mut remark.help, count, other),
            Hint::Size { base, size, end } => write!(
                remark.help,
                "for {size:#x} bytes from {base:#x}: [{base:#x}, {end:#x}]"
            ),
            Hint::Region { base, end } => write!(remark.help, "write [[{base:#x}, {end:#x}]]"),
            Hint::Tables(key) => {
                let header = Header(key);
                write!(remark.help, "write {header}")
            }
        }
    }
}

fn write_digits(line: &mut Line, count: usize, other: Option<char>) -> fmt::Result {
    match other {
        Some(c) => write!(line, "it has {count}, and '{c}' is none"),
        None => write!(line, "it has {count}"),
    }
}

/// The header of a table in the array of tables at a key.
#[derive(Clone, Copy)]
pub struct Header<'a>(pub &'a str);

impl fmt::Display for Header<'_> {
    fn fmt<W: fmt::Write>(&self, f: &mut fmt::Formatter<W>) -> fmt::Result {
        let Header(key) = *self;
        match key {
            "item" | "rec" => write!(f, "[[launch.{key}]]"),
            _ => write!(f, "[[{key}]]"),
        }
    }
}

/// What helps to mend the value at a key of a form.
pub fn value_hint<'a>(key: &'static str, form: Form, value: &'a Value) -> Hint<'a> {
    match (form, value) {
        (_, Value::String(text)) => text_hint(form, text.as_str()),
        (Form::Regions { .. }, Value::Array(items)) => size_hint(items.as_slice()),
        (Form::Tables { .. }, Value::Table(_)) => Hint::Tables(key),
        _ => Hint::Nothing,
    }
}

/// What helps to mend a value of an array at a key of a form.
pub fn element_hint<'a>(
    key: &'static str,
    form: Form,
    array: &'a Value,
    element: &'a Value,
) -> Hint<'a> {
    match (form, array, element) {
        (Form::Regions { .. }, Value::Array(items), Value::Integer(_)) => {
            region_hint(items.as_slice())
        }
        (Form::Tables { .. }, _, _) => Hint::Nothing,
        _ => value_hint(key, form, element),
    }
}

fn text_hint(form: Form, text: &str) -> Hint<'_> {
    match form {
        Form::Version | Form::Number { .. } | Form::PoolBase if is_number(text) => Hint::Quotes,
        Form::Number { high: i64::MAX, .. } => bytes_hint(text),
        Form::Truth if text == "true" || text == "false" => Hint::Quotes,
        Form::Word | Form::Words { .. } if are_word_digits(text) => Hint::WordDigits(text),
        Form::Algorithm => word_hint(&algorithm_words(), text),
        Form::ItemKind => kind_hint(text),
        Form::RecRule => word_hint(&rec_rule_words(), text),
        Form::Name => name_hint(text),
        Form::Digits { .. } => digits_hint(text),
        _ => Hint::Nothing,
    }
}

/// The word that a text is but for its spelling.
fn word_hint<'a>(words: &[&'static str], text: &str) -> Hint<'a> {
    match words.iter().find(|word| is_alike(**word, text)) {
        Some(word) => Hint::Word(*word),
        None => Hint::Nothing,
    }
}

/// The kind that a text is but for its spelling, or is another word for.
fn kind_hint<'a>(text: &str) -> Hint<'a> {
    for (alias, kind) in KIND_ALIASES {
        if is_alike(alias, text) {
            return Hint::Word(kind_word(kind));
        }
    }
    word_hint(&kind_words(), text)
}

/// The number of bytes that a text writes with a unit, as `1MiB` and `512M`.
fn bytes_hint<'a>(text: &str) -> Hint<'a> {
    let unit = text.trim_start_matches(|c: char| c.is_ascii_digit());
    let Some(digits) = text.strip_suffix(unit) else {
        return Hint::Nothing;
    };
    let Ok(count) = digits.parse::<i64>() else {
        return Hint::Nothing;
    };
    let Some(size) = size_of_unit(unit.trim_start()) else {
        return Hint::Nothing;
    };
    match count.checked_mul(size) {
        Some(bytes) => Hint::Bytes(bytes),
        None => Hint::Nothing,
    }
}

/// How many bytes a unit is, as `K`, `MB` and `GiB`.
fn size_of_unit(unit: &str) -> Option<i64> {
    let letters = UNITS
        .iter()
        .find(|(unit_word, _)| is_alike(unit_word, unit));
    match letters {
        Some((_, size)) => Some(*size),
        None => None,
    }
}

/// Why a text is no name.
fn name_hint<'a>(text: &str) -> Hint<'a> {
    match text.chars().find(|c| !is_of_names(*c)) {
        Some(c) => Hint::Character(c),
        None => Hint::Characters(text.len()),
    }
}

/// Whether a name may have a character.
fn is_of_names(c: char) -> bool {
    c.is_ascii_alphanumeric() || matches!(c, '.' | '_' | '-')
}

fn digits_hint<'a>(text: &str) -> Hint<'a> {
    Hint::Digits {
        count: text.chars().filter(|c| c.is_ascii_hexdigit()).count(),
        other: text.chars().find(|c| !c.is_ascii_hexdigit()),
    }
}

/// Whether a pair is the base and the size of a region, or has a number between quotes.
fn size_hint<'a>(pair: &[Value]) -> Hint<'a> {
    match pair {
        [Value::Integer(base), Value::Integer(size)] => match base.checked_add(*size) {
            Some(end) if 0 <= *base && 0 < *size && *size <= *base => Hint::Size {
                base: *base,
                size: *size,
                end,
            },
            _ => Hint::Nothing,
        },
        _ if pair.iter().any(is_quoted) => Hint::Quotes,
        _ => Hint::Nothing,
    }
}

/// Whether a value is a number between quotes.
fn is_quoted(value: &Value) -> bool {
    match value {
        Value::String(text) => is_number(text.as_str()),
        _ => false,
    }
}

/// Whether an array has a region alone, and not in an array of its own.
fn region_hint<'a>(items: &[Value]) -> Hint<'a> {
    match items {
        [Value::Integer(base), Value::Integer(end)] if 0 <= *base && *base < *end => Hint::Region {
            base: *base,
            end: *end,
        },
        _ => Hint::Nothing,
    }
}
