//! Values that may be null.
ghost use Rattle.std.specs.Prelude.{◌≡◌, IfOk, option_map};
ghost use Rattle.serde_json.specs.View.{view};
ghost use Rattle.launch_json.specs.Items.{rule_json, text_json};

use rim_desc::RecRule;
use serde_json::{Value, json};
use std::alloc::{AllocError, Global};

/// A text, or null where there is none.
pub fn text_value(alloc: Global, text: Option<&str>) -> Result<Value, AllocError>
    ensures { IfOk result (λ v. view v ≡ text_json (option_map (λ text. text.now) text.entry)) }
{
    match text {
        Some(text) => json!(in alloc; text),
        None => Ok(Value::Null),
    }
}

/// The rule for RECs, or null where there is none.
pub fn rule_value(alloc: Global, rule: Option<RecRule>) -> Result<Value, AllocError>
    ensures { IfOk result (λ v. view v ≡ rule_json rule) }
{
    match rule {
        Some(rule) => json!(in alloc; rule.word()),
        None => Ok(Value::Null),
    }
}
