//! A JSON value as a line.
ghost use Rattle.std.specs.Prelude.{◌≡◌, ◌++◌, IfOk, codes, false};
ghost use Rattle.serde_json.specs.View.{view};
ghost use Rattle.serde_json.specs.Written.{compact_text, has_float};

use refusal::NoMemory;
use serde_json::Value;
use std::alloc::Global;

/// A JSON value without spaces, and a line feed.
pub fn json_text(alloc: Global, value: &Value) -> Result<Vec<u8>, NoMemory>
    ensures { IfOk result (λ text. has_float (view value.now) ≡ false
        → text.items ≡ compact_text (view value.now) ++ codes "\n") }
{
    let mut text = value.to_string(alloc)?.into_bytes();
    text.push(b'\n')?;
    Ok(text)
}
