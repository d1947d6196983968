//! What a check finds, as JSON.
ghost use Rattle.std.specs.Prelude.{◌≡◌, ◌++◌, IfOk, codes, false};
ghost use Rattle.serde_json.specs.View.{view};
ghost use Rattle.serde_json.specs.Written.{compact_text, has_float};
ghost use Rattle.rim_check.specs.CheckJson.{check_data, check_json_of};

use refusal::NoMemory;
use serde_json::{Value, json};
use shown_text::{Remark, remark_values};
use std::alloc::{AllocError, Global};

/// The faults and the warnings that a check finds, as one JSON object without spaces, and a line feed. Its members are `faults`
/// and `warnings`, the lines of each as texts, `status`, the exit status that the check ends with, and `version`, which is 1.
pub fn check_json(
    alloc: Global,
    faults: &[Remark],
    warnings: &[Remark],
    status: u8,
) -> Result<Vec<u8>, NoMemory>
    ensures { IfOk result (λ text. text.items ≡ check_json_of faults.now warnings.now status) }
{
    let value = check_value(alloc, faults, warnings, status)?;
    text_of(alloc, &value)
}

/// A JSON value as a line.
fn text_of(alloc: Global, value: &Value) -> Result<Vec<u8>, NoMemory>
    ensures { IfOk result (λ text. has_float (view value.now) ≡ false
        → text.items ≡ compact_text (view value.now) ++ codes "\n") }
{
    let mut text = value.to_string(alloc)?.into_bytes();
    text.push(b'\n')?;
    Ok(text)
}

/// The same as a JSON value.
#[tactic(auto, unfolding(crate::specs::CheckJson::check_data))]
fn check_value(
    alloc: Global,
    faults: &[Remark],
    warnings: &[Remark],
    status: u8,
) -> Result<Value, AllocError>
    ensures { IfOk result (λ v. view v ≡ check_data faults.now warnings.now status) }
{
    let faults = remark_values(alloc, faults)?;
    let warnings = remark_values(alloc, warnings)?;
    let status = u64::from(status);
    json!(in alloc; {
        "faults": faults,
        "status": status,
        "version": 1u64,
        "warnings": warnings,
    })
}
