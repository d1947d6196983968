//! The versions of a manifest's format, and what parts them: in version 2 a launch may have a rule for its RECs, and has
//! to have one where a REC is not runnable.
ghost use Rattle.std.specs.Prelude.{◌≡◌, codes, map};
ghost use Rattle.std.specs.List.{list_any};
ghost use Rattle.toml.specs.Data.{get, get_member};
ghost use Rattle.toml.specs.View.{table_view, view};
ghost use Rattle.rim_rules.specs.Rules.{rule_of};
ghost use Rattle.rim_rules.specs.Versions.{has_version, is_not_runnable, lacks_rule, rule_for, rule_in, rule_of_word, launch_rules_in, version_at};

use crate::form::Rule;
use crate::rules::LAUNCH_RULES;
use crate::value::{array, cell, field, truth};
use rim_desc::RecRule;
use toml::{Table, Value};

/// A version of the format. This project's choice.
#[derive(Clone, Copy, Debug, PartialEq, Eq)]
pub enum FormatVersion {
    /// Version 1: no launch has a rule for its RECs.
    One,
    /// Version 2: a launch may have one.
    Two,
}

/// Whether the format's number is 1 or 2.
pub fn has_version(table: &Table) -> bool
    ensures { result ≡ has_version (get_member (codes "rim_manifest") (table_view table.now)) }
{
    matches!(cell(table, "rim_manifest"), Some(Value::Integer(x)) if *x == 1 || *x == 2)
}

/// The version of a manifest. Where the format's number is neither, which is a fault, it is looked at as version 1.
pub fn version(table: &Table) -> FormatVersion
    ensures { result ≡ version_at (table_view table.now) }
{
    match cell(table, "rim_manifest") {
        Some(Value::Integer(x)) if *x == 2 => FormatVersion::Two,
        _ => FormatVersion::One,
    }
}

/// The keys of a launch.
pub fn launch_rules(version: FormatVersion) -> &'static [Rule]
    ensures { map rule_of result.now ≡ launch_rules_in version }
{
    match version {
        FormatVersion::One => &LAUNCH_RULES[..LAUNCH_RULES.len() - 1],
        FormatVersion::Two => &LAUNCH_RULES,
    }
}

/// Whether a launch of version 2 has a REC that is not runnable, and no rule.
pub fn lacks_rule(version: FormatVersion, launch: &Value) -> bool
    ensures { result ≡ lacks_rule version (view launch.now) }
{
    match version {
        FormatVersion::One => false,
        FormatVersion::Two => {
            any_not_runnable(array(launch, "rec")) && field(launch, "rec_rule").is_none()
        }
    }
}

fn any_not_runnable(recs: &[Value]) -> bool
    ensures { result ≡ list_any (λ r. is_not_runnable (view r)) recs.now }
{
    recs.iter().any(|rec| !truth(rec, "runnable", true))
}

/// The rule of a launch: version 1 has none.
pub fn rec_rule(version: FormatVersion, launch: &Value) -> Option<RecRule>
    ensures { result ≡ rule_for version (get (codes "rec_rule") (view launch.now)) }
{
    match version {
        FormatVersion::One => None,
        FormatVersion::Two => rule_at(launch, "rec_rule"),
    }
}

/// The rule at a key, if any.
fn rule_at(table: &Value, key: &str) -> Option<RecRule>
    ensures { result ≡ rule_in (get key.now (view table.now)) }
{
    match field(table, key) {
        Some(Value::String(text)) => rule_of_word(text.as_str()),
        _ => None,
    }
}

fn rule_of_word(word: &str) -> Option<RecRule>
    ensures { result ≡ rule_of_word word.now }
{
    if word == RecRule::All.word() {
        Some(RecRule::All)
    } else if word == RecRule::Runnable.word() {
        Some(RecRule::Runnable)
    } else {
        None
    }
}
