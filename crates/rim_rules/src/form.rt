//! What a key may hold.
ghost use Rattle.std.specs.Prelude.{◌≡◌, ◌==◌, ◌&&◌, length, option_map};
ghost use Rattle.std.specs.List.{list_all};
ghost use Rattle.hex.specs.Hex.{is_hex_digit};
ghost use Rattle.toml.specs.View.{view};
ghost use Rattle.rim_launch.specs.Texts.{has_no_zero};
ghost use Rattle.rim_rules.specs.Words.{is_word};
ghost use Rattle.rim_rules.specs.Forms.{has_kind, is_algorithm, is_base, is_integer, is_name, is_name_byte, is_over, is_pair, is_range, is_range_pair, is_rec_rule, is_required, is_table, is_text, is_within, is_word_kind};

use crate::kind::kind_of_word;
use crate::word::is_word;
use rim_desc::{Algo, RecRule};
use rim_launch::has_no_zero;
use toml::Value;

/// The most characters of a name: 64. This project's choice.
pub const NAME_LIMIT: usize = 64;

/// What a key may hold.
#[derive(Clone, Copy, Debug)]
pub enum Form {
    /// The number of the format: 1 or 2.
    Version,
    /// A name: 1 to 64 characters out of ASCII letters, digits, `.`, `_` and `-`.
    Name,
    /// `sha256` or `sha512`.
    Algorithm,
    /// A whole number in a range, both ends counted.
    Number { low: i64, high: i64 },
    /// True or false.
    Truth,
    /// A text of this many hexadecimal digits.
    Digits { count: usize },
    /// An array of tables, at most this many.
    Tables { most: usize },
    /// The address of a pool: a multiple of 64 KiB below 2^48.
    PoolBase,
    /// An array of regions of RAM, at most this many, each a pair of a base and an end above it.
    Regions { most: usize },
    /// A word: a whole number, or a text `0x` and 1 to 16 hexadecimal digits.
    Word,
    /// An array of words, at most this many.
    Words { most: usize },
    /// A text of at least one byte.
    Text,
    /// Any text.
    AnyText,
    /// The word of an item's kind: `kernel`, `initrd`, `dtb`, `raw` or `unknown`.
    ItemKind,
    /// A command line: a text without a zero character.
    Bootargs,
    /// An array of texts.
    Texts,
    /// The word of a rule for RECs: `all` or `runnable`.
    RecRule,
}

/// Whether a key has to be given.
#[derive(Clone, Copy, Debug)]
pub enum Presence {
    Required,
    Optional,
}

/// A key of a table, what it may hold, and whether it has to be given.
pub type Rule = (&'static str, Form, Presence);

/// Whether a key has to be given.
pub fn is_required(presence: Presence) -> bool
    ensures { result ≡ is_required presence }
{
    match presence {
        Presence::Required => true,
        Presence::Optional => false,
    }
}

/// Whether a value is of a form's kind.
pub fn has_kind(form: Form, value: &Value) -> bool
    ensures { result ≡ has_kind form (view value.now) }
{
    match form {
        Form::Name | Form::Algorithm | Form::Digits { .. } => value.is_str(),
        Form::Text | Form::AnyText | Form::ItemKind | Form::Bootargs => value.is_str(),
        Form::RecRule => value.is_str(),
        Form::Version | Form::Number { .. } | Form::PoolBase => value.is_integer(),
        Form::Truth => value.is_bool(),
        Form::Tables { .. } => match value {
            Value::Array(items) => are_tables(items.as_slice()),
            _ => false,
        },
        Form::Regions { .. } => match value {
            Value::Array(items) => are_pairs(items.as_slice()),
            _ => false,
        },
        Form::Word => is_word_kind(value),
        Form::Words { .. } => match value {
            Value::Array(items) => are_word_kinds(items.as_slice()),
            _ => false,
        },
        Form::Texts => match value {
            Value::Array(items) => are_texts(items.as_slice()),
            _ => false,
        },
    }
}

/// Whether a value has more parts than its form allows.
pub fn is_over(form: Form, value: &Value) -> bool
    ensures { result ≡ is_over form (view value.now) }
{
    match (form, value) {
        (Form::Tables { most }, Value::Array(items)) => most < items.as_slice().len(),
        (Form::Regions { most }, Value::Array(items)) => most < items.as_slice().len(),
        (Form::Words { most }, Value::Array(items)) => most < items.as_slice().len(),
        _ => false,
    }
}

/// Whether a text is the word of an algorithm.
fn is_algorithm(text: &str) -> bool
    ensures { result ≡ is_algorithm text.now }
{
    text == Algo::Sha256.word() || text == Algo::Sha512.word()
}

/// Whether a text is the word of a rule for RECs.
fn is_rec_rule(text: &str) -> bool
    ensures { result ≡ is_rec_rule text.now }
{
    text == RecRule::All.word() || text == RecRule::Runnable.word()
}

/// Whether a value that is of a form's kind is in the form's range.
pub fn is_within(form: Form, value: &Value) -> bool
    ensures { result ≡ is_within form (view value.now) }
{
    match (form, value) {
        (Form::Name, Value::String(text)) => is_name(text.as_str()),
        (Form::Algorithm, Value::String(text)) => is_algorithm(text.as_str()),
        (Form::Digits { count }, Value::String(text)) => text.len() == count
            && are_digits(text.as_bytes()),
        (Form::Number { low, high }, Value::Integer(x)) => low <= *x && *x <= high,
        (Form::PoolBase, Value::Integer(x)) => is_pool_base(*x),
        (Form::Text, Value::String(text)) => 1 <= text.len(),
        (Form::ItemKind, Value::String(text)) => kind_of_word(text.as_str()).is_some(),
        (Form::Bootargs, Value::String(text)) => has_no_zero(text.as_bytes()),
        (Form::RecRule, Value::String(text)) => is_rec_rule(text.as_str()),
        (Form::Regions { .. }, Value::Array(items)) => are_ranges(items.as_slice()),
        (Form::Word, value) => is_word(value),
        (Form::Words { .. }, Value::Array(items)) => are_words(items.as_slice()),
        _ => true,
    }
}

fn is_name(text: &str) -> bool
    ensures { result ≡ is_name text.now }
{
    1 <= text.len() && text.len() <= NAME_LIMIT && are_name_bytes(text.as_bytes())
}

fn are_tables(items: &[Value]) -> bool
    ensures { result ≡ list_all (λ v. is_table (view v)) items.now }
{
    items.iter().all(|item| item.is_table())
}

fn are_integers(items: &[Value]) -> bool
    ensures { result ≡ list_all (λ v. is_integer (view v)) items.now }
{
    items.iter().all(|item| item.is_integer())
}

/// Whether a value is an array of two numbers.
fn is_pair(value: &Value) -> bool
    ensures { result ≡ is_pair (view value.now) }
{
    match value {
        Value::Array(items) => are_two(items.as_slice()),
        _ => false,
    }
}

fn are_two(items: &[Value]) -> bool
    ensures { result ≡ ((length items.now == 2) && list_all (λ v. is_integer (view v)) items.now) }
{
    items.len() == 2 && are_integers(items)
}

fn are_pairs(items: &[Value]) -> bool
    ensures { result ≡ list_all (λ v. is_pair (view v)) items.now }
{
    items.iter().all(|item| is_pair(item))
}

/// Whether a value is a number or a text.
fn is_word_kind(value: &Value) -> bool
    ensures { result ≡ is_word_kind (view value.now) }
{
    value.is_integer() || value.is_str()
}

fn are_word_kinds(items: &[Value]) -> bool
    ensures { result ≡ list_all (λ v. is_word_kind (view v)) items.now }
{
    items.iter().all(|item| is_word_kind(item))
}

fn are_texts(items: &[Value]) -> bool
    ensures { result ≡ list_all (λ v. is_text (view v)) items.now }
{
    items.iter().all(|item| item.is_str())
}

fn are_words(items: &[Value]) -> bool
    ensures { result ≡ list_all (λ v. is_word (view v)) items.now }
{
    items.iter().all(|item| is_word(item))
}

/// Whether a pair is a base and an end above it.
fn is_range_pair(value: &Value) -> bool
    ensures { result ≡ is_range_pair (view value.now) }
{
    is_range(value.get(0), value.get(1))
}

fn is_range(base: Option<&Value>, end: Option<&Value>) -> bool
    ensures { result
        ≡ is_range (option_map (λ v. view v.now) base.entry)
        (option_map (λ v. view v.now) end.entry) }
{
    match (base, end) {
        (Some(Value::Integer(base)), Some(Value::Integer(end))) => 0 <= *base && *base < *end,
        _ => false,
    }
}

fn are_ranges(items: &[Value]) -> bool
    ensures { result ≡ list_all (λ v. is_range_pair (view v)) items.now }
{
    items.iter().all(|item| is_range_pair(item))
}

/// Whether an address of a pool is a multiple of 64 KiB below 2^48.
pub fn is_pool_base(x: i64) -> bool
    ensures { result ≡ is_base x }
{
    0 <= x && x % 65536 == 0 && x < 0x1_0000_0000_0000
}

fn are_digits(text: &[u8]) -> bool
    ensures { result ≡ list_all is_hex_digit text.now }
{
    text.iter().all(|byte| byte.is_ascii_hexdigit())
}

fn are_name_bytes(text: &[u8]) -> bool
    ensures { result ≡ list_all is_name_byte text.now }
{
    text.iter().all(|byte| is_name_byte(*byte))
}

fn is_name_byte(byte: u8) -> bool
    ensures { result ≡ is_name_byte byte }
{
    byte.is_ascii_alphanumeric() || byte == b'.' || byte == b'_' || byte == b'-'
}
