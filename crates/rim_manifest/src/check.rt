//! The faults of a table whose keys have rules.
ghost use Rattle.std.specs.Prelude.{◌≡◌, [], ◌∷◌, OnOk, if◌then◌else◌, map, option_map};
ghost use Rattle.std.specs.List.{flat_map};
ghost use Rattle.toml.specs.Data.{get_member};
ghost use Rattle.toml.specs.View.{table_view, view};
ghost use Rattle.rim_manifest.specs.Checks.{has_unknown_key, is_known, rule_faults, ruled_faults, table_faults, value_faults};
ghost use Rattle.rim_rules.specs.Forms.{has_kind};
ghost use Rattle.rim_rules.specs.Rules.{rule_of};
ghost use Rattle.rim_manifest.specs.inside.Findings.{kept};
ghost use Rattle.rim_manifest.specs.inside.Kept.{with_faults};

use crate::fault::ManifestFault;
use crate::finding::{Array, Finding, Findings, Place, Subject, note, note_if};
use refusal::NoMemory;
use rim_rules::form::{Form, Rule, has_kind, is_over, is_required, is_within};
use rim_rules::value::cell;
use toml::{Table, Value};

/// Adds the faults of a table whose keys have rules.
pub fn check_table(
    rules: &[Rule],
    place: Place,
    table: &Table,
    found: &mut Findings,
) -> Result<(), NoMemory>
    ensures { OnOk result (kept found.new
        ≡ with_faults (kept found.old)
        (table_faults (map rule_of rules.now) (table_view table.now))) }
{
    let other_keys = Finding {
        place,
        subject: Subject::OtherKeys,
        fault: ManifestFault::UnknownKey,
    };
    note_if(found, has_unknown_key(rules, table), other_keys)?;
    check_rules(rules, place, table, found)
}

fn check_rules(
    rules: &[Rule],
    place: Place,
    table: &Table,
    found: &mut Findings,
) -> Result<(), NoMemory>
    ensures { OnOk result (kept found.new
        ≡ with_faults (kept found.old)
        (flat_map (λ r. rule_faults (rule_of r) (table_view table.now)) rules.now)) }
{
    for rule in rules {
        check_rule(rule, place, table, found)?;
    }
    Ok(())
}

/// Adds the faults of each table of an array, whose keys have these rules.
pub fn check_tables(
    rules: &[Rule],
    array: Array,
    tables: &[Value],
    found: &mut Findings,
) -> Result<(), NoMemory>
    ensures { OnOk result (kept found.new
        ≡ with_faults (kept found.old)
        (flat_map (λ v. ruled_faults (map rule_of rules.now) (view v)) tables.now)) }
{
    for (number, table) in tables.iter().enumerate() {
        check_ruled(rules, array.at(number), table, found)?;
    }
    Ok(())
}

pub fn check_ruled(
    rules: &[Rule],
    place: Place,
    table: &Value,
    found: &mut Findings,
) -> Result<(), NoMemory>
    ensures { OnOk result (kept found.new
        ≡ with_faults (kept found.old)
        (ruled_faults (map rule_of rules.now) (view table.now))) }
{
    match table {
        Value::Table(table) => check_table(rules, place, table, found),
        _ => Ok(()),
    }
}

/// Adds the faults of the value at the key of a rule.
fn check_rule(
    rule: &Rule,
    place: Place,
    table: &Table,
    found: &mut Findings,
) -> Result<(), NoMemory>
    ensures { OnOk result (kept found.new
        ≡ with_faults (kept found.old)
        (rule_faults (rule_of rule.now) (table_view table.now))) }
{
    let (key, form, presence) = *rule;
    match cell(table, key) {
        Some(value) => check_value(key, form, place, value, found),
        None => note_if(
            found,
            is_required(presence),
            at_key(key, form, place, ManifestFault::MissingKey),
        ),
    }
}

fn check_value(
    key: &'static str,
    form: Form,
    place: Place,
    value: &Value,
    found: &mut Findings,
) -> Result<(), NoMemory>
    ensures { OnOk result (kept found.new
        ≡ with_faults (kept found.old) (if has_kind form (view value.now) then value_faults form
        (view value.now) else ManifestFault.WrongKind ∷ [])) }
{
    if !has_kind(form, value) {
        return note(found, at_key(key, form, place, ManifestFault::WrongKind));
    }
    let over = at_key(key, form, place, ManifestFault::Limit);
    note_if(found, is_over(form, value), over)?;
    let outside = at_key(key, form, place, ManifestFault::Range);
    note_if(found, !is_within(form, value), outside)
}

/// A fault of the value at a key, or that the key is not given.
pub fn at_key(key: &'static str, form: Form, place: Place, fault: ManifestFault) -> Finding
    ensures { result.fault ≡ fault }
{
    Finding {
        place,
        subject: Subject::Key { key, form },
        fault,
    }
}

/// Whether a table has a key without a rule.
fn has_unknown_key(rules: &[Rule], table: &Table) -> bool
    ensures { result ≡ has_unknown_key (map rule_of rules.now) (table_view table.now) }
{
    table.keys().any(|key| !is_known(rules, key.as_str()))
}

/// Whether a rule has the key.
fn is_known(rules: &[Rule], key: &str) -> bool
    ensures { result ≡ is_known (map rule_of rules.now) key.now }
{
    rules.iter().any(|rule| rule.0 == key)
}
