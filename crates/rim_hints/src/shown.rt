//! A value of a manifest, as a fault shows it.
use crate::number::{Number, NumberPair};
use rim_manifest::ManifestFault;
use rim_rules::form::Form;
use rim_rules::word::is_word;
use shown_text::Quoted;
use std::fmt;
use toml::Value;

/// A value: a number or a text as it is, and of another one what it is. A number that may have been typed in hexadecimal digits
/// is shown in these too, so that whichever was typed is found again.
#[derive(Clone, Copy)]
pub struct Shown<'a>(pub &'a Value);

impl fmt::Display for Shown<'_> {
    fn fmt<W: fmt::Write>(&self, f: &mut fmt::Formatter<W>) -> fmt::Result {
        let Shown(value) = *self;
        match value {
            Value::String(text) => {
                let text = Quoted(text.as_str());
                write!(f, "{text}")
            }
            Value::Integer(number) => {
                let number = Number(*number);
                write!(f, "{number}")
            }
            Value::Boolean(truth) => write!(f, "{truth}"),
            Value::Float(_) => f.write_str("a number with a fraction"),
            Value::Datetime(_) => f.write_str("a date or a time"),
            Value::Table(_) => f.write_str("a table"),
            Value::Array(items) => write_array(f, items.as_slice()),
        }
    }
}

/// An array: its values, where they are two numbers, or how many they are.
fn write_array<W: fmt::Write>(f: &mut fmt::Formatter<W>, items: &[Value]) -> fmt::Result {
    if let [Value::Integer(base), Value::Integer(end)] = items {
        let pair = NumberPair(*base, *end);
        return write!(f, "{pair}");
    }
    let count = items.len();
    write!(f, "an array of {count}")
}

/// The first value of an array that is at fault, with its number; `None` where the fault is not one of a value in it.
pub fn bad_element(value: &Value, form: Form, fault: ManifestFault) -> Option<(usize, &Value)> {
    let Value::Array(items) = value else {
        return None;
    };
    items
        .iter()
        .enumerate()
        .find(|(_, item)| is_bad(item, form, fault))
}

/// Whether a value of an array of this form has this fault.
fn is_bad(item: &Value, form: Form, fault: ManifestFault) -> bool {
    match (form, fault) {
        (Form::Regions { .. }, ManifestFault::WrongKind) => bounds(item).is_none(),
        (Form::Regions { .. }, ManifestFault::Range) => {
            bounds(item).is_none_or(|(base, end)| base < 0 || end <= base)
        }
        (Form::Words { .. }, ManifestFault::WrongKind) => !item.is_integer() && !item.is_str(),
        (Form::Words { .. }, ManifestFault::Range) => !is_word(item),
        (Form::Texts, ManifestFault::WrongKind) => !item.is_str(),
        (Form::Tables { .. }, ManifestFault::WrongKind) => !item.is_table(),
        _ => false,
    }
}

/// The two numbers of a region.
fn bounds(item: &Value) -> Option<(i64, i64)> {
    match item {
        Value::Array(items) => match items.as_slice() {
            [Value::Integer(base), Value::Integer(end)] => Some((*base, *end)),
            _ => None,
        },
        _ => None,
    }
}
