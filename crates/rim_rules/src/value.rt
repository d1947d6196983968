//! The values at the keys of a table. They are read where no fault holds; a value that is of another kind or
//! out of its range reads as the default.
ghost use Rattle.std.specs.Prelude.{◌≡◌, map, option_map};
ghost use Rattle.toml.specs.Data.{get, get_member};
ghost use Rattle.toml.specs.View.{table_view, view};
ghost use Rattle.rim_rules.specs.Forms.{items_in, items_of};
ghost use Rattle.rim_rules.specs.Values.{algorithm_in, base_in, digits_in, is_from, number_in, text_in, truth_in};

use crate::form::is_pool_base;
use rim_desc::Algo;
use toml::{Table, Value};

/// The value at a key of a table that has a map of its own.
pub fn cell<'a>(table: &'a Table, key: &str) -> Option<&'a Value>
    ensures { get_member key.now (table_view table.now) ≡ option_map (λ v. view v.now) result }
{
    table.get(key)
}

/// The value at a key of a table.
pub fn field<'a>(table: &'a Value, key: &str) -> Option<&'a Value>
    ensures { get key.now (view table.now) ≡ option_map (λ v. view v.now) result }
{
    match table {
        Value::Table(table) => cell(table, key),
        _ => None,
    }
}

/// The values of the array at a key; none where it is not given.
pub fn array<'a>(table: &'a Value, key: &str) -> &'a [Value]
    ensures { map view result.now ≡ items_in (get key.now (view table.now)) }
{
    match field(table, key) {
        Some(value) => items(value),
        None => &[],
    }
}

/// The values of an array, and none of another value.
pub fn items(value: &Value) -> &[Value]
    ensures { map view result.now ≡ items_of (view value.now) }
{
    match value {
        Value::Array(items) => items.as_slice(),
        _ => &[],
    }
}

/// The text at a key, or no text.
pub fn text<'a>(table: &'a Value, key: &str) -> &'a str
    ensures { result.now ≡ text_in (get key.now (view table.now)) }
{
    match field(table, key) {
        Some(Value::String(text)) => text.as_str(),
        _ => "",
    }
}

/// The number of one byte at a key that is from `low` to `high`, or a default.
pub fn byte(table: &Value, key: &str, low: u8, high: u8, default: u8) -> u8
    ensures { result ≡ number_in low high default (get key.now (view table.now)) }
{
    number(table, key, low as u64, high as u64, default as u64) as u8
}

/// The number at a key that is from `low` to `high`, or a default.
pub fn number(table: &Value, key: &str, low: u64, high: u64, default: u64) -> u64
    ensures { result ≡ number_in low high default (get key.now (view table.now)) }
{
    match field(table, key) {
        Some(Value::Integer(x)) if is_from(*x, low, high) => *x as u64,
        _ => default,
    }
}

/// Whether a whole number is from `low` to `high`.
fn is_from(x: i64, low: u64, high: u64) -> bool
    ensures { result ≡ is_from low high x }
{
    0 <= x && low <= x as u64 && x as u64 <= high
}

/// The truth at a key, or a default.
pub fn truth(table: &Value, key: &str, default: bool) -> bool
    ensures { result ≡ truth_in default (get key.now (view table.now)) }
{
    match field(table, key) {
        Some(Value::Boolean(x)) => *x,
        _ => default,
    }
}

/// The address of a pool at a key, a multiple of 64 KiB below 2^48, or the default.
pub fn pool_base(table: &Value, key: &str) -> u64
    ensures { result ≡ base_in (get key.now (view table.now)) }
{
    match field(table, key) {
        Some(Value::Integer(x)) if is_pool_base(*x) => *x as u64,
        _ => 0x8_0000_0000,
    }
}

pub fn algorithm(table: &Value, key: &str) -> Algo
    ensures { result ≡ algorithm_in (get key.now (view table.now)) }
{
    match field(table, key) {
        Some(Value::String(text)) if text.as_str() == Algo::Sha512.word() => Algo::Sha512,
        _ => Algo::Sha256,
    }
}

#[tactic(auto, unfolding(rim_desc::specs::Page::zeros))]
pub fn digits(table: &Value, key: &str) -> [u8; 64]
    ensures { result ≡ digits_in (get key.now (view table.now)) }
{
    let mut bytes = [0; 64];
    match field(table, key) {
        Some(Value::String(text)) => match hex::decode_to_slice(text.as_str(), &mut bytes) {
            Ok(()) => bytes,
            Err(_) => [0; 64],
        },
        _ => bytes,
    }
}
