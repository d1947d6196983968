//! The keys of a table that the format does not list for it.
use crate::alike::is_alike;
use crate::belongs::{form_in, is_anywhere, write_owners};
use crate::hint::Header;
use crate::nearest::Nearest;
use crate::place::text_at;
use rim_launch::Role;
use rim_manifest::{Document, Place};
use rim_rules::form::{Form, Rule};
use rim_rules::kind::{item_rules, kind_of_word, may_repeat};
use rim_rules::rules::{FILE_RULES, REC_RULES, TOP_RULES};
use shown_text::{Line, Quoted};
use std::alloc::{AllocError, Global};
use std::fmt;
use std::fmt::Write;
use toml::Table;

/// The most keys of a table that are listed.
const MOST_KEYS: usize = 8;

/// Words of other programs, and the keys that say the same.
const ALIASES: [(&str, &str); 23] = [
    ("append", "bootargs"),
    ("args", "bootargs"),
    ("cmdline", "bootargs"),
    ("command_line", "bootargs"),
    ("algorithm", "algo"),
    ("hash", "algo"),
    ("hash_algo", "algo"),
    ("hash_algorithm", "algo"),
    ("ipa", "s2sz"),
    ("ipa_bits", "s2sz"),
    ("ipa_width", "s2sz"),
    ("addr", "at"),
    ("address", "at"),
    ("base", "at"),
    ("load", "at"),
    ("bytes", "size"),
    ("length", "size"),
    ("len", "size"),
    ("type", "kind"),
    ("memory", "ram"),
    ("cpu", "rec"),
    ("cpus", "rec"),
    ("vcpus", "rec"),
];

/// What a key of a table is that the format does not list for it.
#[derive(Clone, Copy)]
enum OtherKey {
    /// Another word for a key of the table.
    Alias { key: &'static str, form: Form },
    /// The kind of an item, in a launch.
    Kind,
    /// A key of version 2.
    Later,
    /// A key of other tables.
    Elsewhere,
    /// Another word for a key of other tables.
    AliasElsewhere(&'static str),
    /// Perhaps a key of the table with a slip.
    Slip,
}

/// The keys that a table may have.
pub fn rules_of(document: &Document, place: Place, table: &Table) -> &'static [Rule] {
    match place {
        Place::Top => &TOP_RULES,
        Place::File { .. } => &FILE_RULES,
        Place::Launch { .. } => document.launch_rules(),
        Place::Item { .. } => {
            let kind = text_at(table, "kind").and_then(|word| kind_of_word(word));
            item_rules(kind.unwrap_or(Role::Raw))
        }
        Place::Rec { .. } => &REC_RULES,
    }
}

/// Adds the keys of a table that no rule has. More than a few are counted.
pub fn write_other_keys(
    alloc: Global,
    line: &mut Line,
    document: &Document,
    place: Place,
    table: &Table,
) -> fmt::Result {
    let rules = rules_of(document, place, table);
    let mut listed = 0;
    let mut more = 0usize;
    for key in table.keys() {
        if form_in(rules, key.as_str()).is_some() {
            continue;
        }
        if listed < MOST_KEYS {
            write!(line, "{}", if listed == 0 { "" } else { ", " })?;
            write_other_key(alloc, line, document, place, rules, key.as_str())?;
            listed += 1;
        } else {
            more = more.saturating_add(1);
        }
    }
    match more {
        0 => Ok(()),
        _ => write!(line, " and {more} more"),
    }
}

/// Adds a key that no rule has, and what helps to mend it.
fn write_other_key(
    alloc: Global,
    line: &mut Line,
    document: &Document,
    place: Place,
    rules: &[Rule],
    key: &str,
) -> fmt::Result {
    let quoted = Quoted(key);
    write!(line, "{quoted}")?;
    match other_key(document, place, rules, key) {
        OtherKey::Alias {
            key,
            form: Form::Tables { .. },
        } => {
            let header = Header(key);
            write!(line, " (write {header})")
        }
        OtherKey::Alias { key, .. } => write!(line, " (write {key})"),
        OtherKey::Kind => write!(line, " (write an item with kind = \"{key}\")"),
        OtherKey::Later => write!(line, " (belongs to version 2: write rim_manifest = 2)"),
        OtherKey::Elsewhere => write_owners(line, document, place, key, key),
        OtherKey::AliasElsewhere(meant) => write_owners(line, document, place, key, meant),
        OtherKey::Slip => write_nearest(alloc, line, rules, key),
    }
}

/// What a key is that no rule has.
fn other_key(document: &Document, place: Place, rules: &[Rule], key: &str) -> OtherKey {
    if let Some(alias) = alias_in(rules, key) {
        return alias;
    }
    let is_of_launch = matches!(place, Place::Launch { .. });
    if is_of_launch && kind_of_word(key).is_some_and(|kind| !may_repeat(kind)) {
        return OtherKey::Kind;
    }
    if is_of_launch && key == "rec_rule" {
        return OtherKey::Later;
    }
    if is_anywhere(document, key) {
        return OtherKey::Elsewhere;
    }
    match alias_anywhere(document, key) {
        Some(key) => OtherKey::AliasElsewhere(key),
        None => OtherKey::Slip,
    }
}

/// The key of some table that another word says.
fn alias_anywhere(document: &Document, word: &str) -> Option<&'static str> {
    for (alias, key) in ALIASES {
        if is_alike(alias, word) && is_anywhere(document, key) {
            return Some(key);
        }
    }
    None
}

/// The key of these rules that another word says.
fn alias_in(rules: &[Rule], word: &str) -> Option<OtherKey> {
    for (alias, key) in ALIASES {
        if is_alike(alias, word)
            && let Some(form) = form_in(rules, key)
        {
            return Some(OtherKey::Alias { key, form });
        }
    }
    None
}

/// Adds the key of these rules that is nearest to another one.
fn write_nearest(alloc: Global, line: &mut Line, rules: &[Rule], key: &str) -> fmt::Result {
    let nearest = nearest_in(alloc, rules, key)?;
    write!(line, "{nearest}")
}

/// The key of these rules that is nearest to another one.
fn nearest_in<'a>(
    alloc: Global,
    rules: &[Rule],
    key: &'a str,
) -> Result<Nearest<'a, 'static>, AllocError> {
    let mut nearest = Nearest::new(key);
    for rule in rules {
        nearest.add(alloc, rule.0)?;
    }
    Ok(nearest)
}

/// Whether a key of a table that no rule has is shown as one that is meant to be this key.
pub fn is_meant(
    alloc: Global,
    document: &Document,
    place: Place,
    table: &Table,
    key: &str,
) -> Result<bool, AllocError> {
    let rules = rules_of(document, place, table);
    let mut listed = 0;
    for other in table.keys() {
        if form_in(rules, other.as_str()).is_some() {
            continue;
        }
        if listed >= MOST_KEYS {
            return Ok(false);
        }
        listed += 1;
        if means(alloc, document, place, rules, other.as_str(), key)? {
            return Ok(true);
        }
    }
    Ok(false)
}

/// Whether a word in place of a key is another word for it, or nearest to it.
fn means(
    alloc: Global,
    document: &Document,
    place: Place,
    rules: &[Rule],
    word: &str,
    key: &str,
) -> Result<bool, AllocError> {
    match other_key(document, place, rules, word) {
        OtherKey::Alias { key: meant, .. } => Ok(meant == key),
        OtherKey::Slip => {
            let nearest = nearest_in(alloc, rules, word)?;
            Ok(nearest.found() == Some(key))
        }
        OtherKey::Kind | OtherKey::Later | OtherKey::Elsewhere | OtherKey::AliasElsewhere(_) => Ok(
            false,
        ),
    }
}
