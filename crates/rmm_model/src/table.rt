//! Translation tables.
ghost use Rattle.std.specs.Prelude.{◌≡◌, ◌≤◌};
ghost use Rattle.rmm_model.specs.Blocks.{down, span};
ghost use Rattle.rmm_model.specs.Space.{ArePlaced, made, walk};

use crate::size::table_base;
use std::collections::BTreeSet;

/// A translation table below the start tables: its level, 1 to 3, and the first address that it covers.
#[derive(Clone, Copy, Debug, PartialEq, Eq, PartialOrd, Ord)]
pub struct Table {
    pub level: u8,
    /// An IPA, in bytes.
    pub base: u64,
}

/// The level at which the walk of an IPA ends, from start tables of a level: the deepest table that covers it decides.
pub fn walk_level(start: u8, tables: &BTreeSet<Table>, ipa: u64) -> u8
    requires { ArePlaced start tables.now.keys }
    ensures value { result ≡ walk start tables.now.keys ipa }
    ensures most { start ≤ 3 → result ≤ 3 }
{
    if is_made(tables, 3, ipa) {
        3
    } else if is_made(tables, 2, ipa) {
        2
    } else if is_made(tables, 1, ipa) {
        1
    } else {
        start
    }
}

/// Whether the table of a level that covers an IPA is made.
fn is_made(tables: &BTreeSet<Table>, level: u8, ipa: u64) -> bool
    ensures { result ≡ made tables.now.keys level (down (span level) ipa) }
{
    tables.contains(&Table {
        level,
        base: table_base(level, ipa),
    })
}
