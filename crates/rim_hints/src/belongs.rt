//! The tables of a manifest that a key belongs to.
use crate::hint::Header;
use rim_manifest::{Document, Place};
use rim_rules::form::{Form, Rule};
use rim_rules::rules::{DTB_RULES, FILE_RULES, ITEM_RULES, REC_RULES, TOP_RULES};
use shown_text::Line;
use std::fmt;
use std::fmt::Write;

/// A kind of table, which has keys of its own.
#[derive(Clone, Copy)]
enum Owner {
    Item,
    Dtb,
    Rec,
    Launch,
    File,
    Top,
}

/// All kinds, the innermost first.
const OWNERS: [Owner; 6] = [
    Owner::Item,
    Owner::Dtb,
    Owner::Rec,
    Owner::Launch,
    Owner::File,
    Owner::Top,
];

/// What a key of these rules may hold; `None` where it is no key of theirs.
pub fn form_in(rules: &[Rule], key: &str) -> Option<Form> {
    match rules.iter().find(|rule| rule.0 == key) {
        Some(rule) => Some(rule.1),
        None => None,
    }
}

/// What a key may hold in tables of a kind. A devicetree's own keys are those that other items have not.
fn form_of(document: &Document, owner: Owner, key: &str) -> Option<Form> {
    match owner {
        Owner::Item => form_in(&ITEM_RULES, key),
        Owner::Dtb if form_in(&ITEM_RULES, key).is_none() => form_in(&DTB_RULES, key),
        Owner::Dtb => None,
        Owner::Rec => form_in(&REC_RULES, key),
        Owner::Launch => form_in(document.launch_rules(), key),
        Owner::File => form_in(&FILE_RULES, key),
        Owner::Top => form_in(&TOP_RULES, key),
    }
}

/// Whether a key belongs to some table.
pub fn is_anywhere(document: &Document, key: &str) -> bool {
    OWNERS
        .iter()
        .any(|owner| form_of(document, *owner, key).is_some())
}

/// Adds the tables that a key belongs to, where a table that it does not belong to has it or another word for it.
pub fn write_owners(
    line: &mut Line,
    document: &Document,
    place: Place,
    word: &str,
    key: &str,
) -> fmt::Result {
    if word == key {
        write!(line, " (")?;
    } else {
        write!(line, " ({key} ")?;
    }
    write_tables(line, document, place, key)?;
    write!(line, ")")
}

/// Adds that a key belongs to these tables.
fn write_tables(line: &mut Line, document: &Document, place: Place, key: &str) -> fmt::Result {
    let mut link = "belongs to ";
    for owner in OWNERS {
        if let Some(form) = form_of(document, owner, key) {
            write!(line, "{link}")?;
            write_owner(line, place, owner, form, key)?;
            link = "; or to ";
        }
    }
    Ok(())
}

/// Adds a table that a key belongs to, and where the key is written then.
fn write_owner(line: &mut Line, place: Place, owner: Owner, form: Form, key: &str) -> fmt::Result {
    let is_in_launch = matches!(place, Place::Item { .. } | Place::Rec { .. });
    let header = Header(key);
    match (owner, form) {
        (Owner::Item, _) if matches!(place, Place::Item { .. }) => {
            write!(line, "an item of another kind")
        }
        (Owner::Item, _) => write!(line, "an item"),
        (Owner::Dtb, _) => write!(line, "an item of kind \"dtb\""),
        (Owner::Rec, _) => write!(line, "a REC"),
        (Owner::Launch, Form::Tables { .. }) if is_in_launch => {
            write!(line, "a launch, as {header} or above its items and RECs")
        }
        (Owner::Launch, Form::Tables { .. }) => write!(line, "a launch, as {header}"),
        (Owner::Launch, _) if is_in_launch => write!(line, "a launch, above its items and RECs"),
        (Owner::Launch, _) => write!(line, "a launch, below [[launch]]"),
        (Owner::File, _) => write!(line, "a file"),
        (Owner::Top, Form::Tables { .. }) => write!(line, "the top, as {header}"),
        (Owner::Top, _) => write!(line, "the top, above all tables"),
    }
}
