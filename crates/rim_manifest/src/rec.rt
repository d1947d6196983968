//! Reading RECs.
ghost use Rattle.std.specs.Prelude.{◌≡◌, IfOk, Some, map};
ghost use Rattle.toml.specs.Data.{get};
ghost use Rattle.toml.specs.View.{view};
ghost use Rattle.rim_manifest.specs.Launches.{rec_of};
ghost use Rattle.rim_rules.specs.Values.{word_at, word_in, words_in};

use rim_launch::Rec;
use rim_rules::value::{field, truth};
use rim_rules::word::word;
use std::alloc::{AllocError, Global};
use toml::Value;

/// Reads each REC from its table.
pub fn read_recs(alloc: Global, tables: &[Value]) -> Result<Vec<Rec>, AllocError>
    ensures { IfOk result (λ v. v.items ≡ map (λ t. rec_of (view t)) tables.now) }
{
    tables.iter().map(|table| rec(table)).collect(alloc)
}

fn rec(table: &Value) -> Rec
    ensures { result ≡ rec_of (view table.now) }
{
    Rec {
        pc: stated_word(table, "pc"),
        x: stated_words(table, "x"),
        runnable: truth(table, "runnable", true),
    }
}

/// The word at a key, if it is given.
fn stated_word(table: &Value, key: &str) -> Option<u64>
    ensures { result ≡ word_in (get key.now (view table.now)) }
{
    match field(table, key) {
        Some(value) => word(value),
        None => None,
    }
}

/// The eight words that the array at a key begins, if it is given; the rest are zero.
fn stated_words(table: &Value, key: &str) -> Option<[u64; 8]>
    ensures { result ≡ words_in (get key.now (view table.now)) }
{
    match field(table, key) {
        Some(value) => Some(eight_words(value)),
        None => None,
    }
}

fn eight_words(array: &Value) -> [u64; 8]
    ensures { Some result ≡ words_in (Some (view array.now)) }
{
    [
        word_at(array, 0),
        word_at(array, 1),
        word_at(array, 2),
        word_at(array, 3),
        word_at(array, 4),
        word_at(array, 5),
        word_at(array, 6),
        word_at(array, 7),
    ]
}

/// The word at a place of an array, or 0.
fn word_at(array: &Value, place: usize) -> u64
    ensures { result ≡ word_at (view array.now) place }
{
    match array.get(place) {
        Some(value) => word(value).unwrap_or(0),
        None => 0,
    }
}
