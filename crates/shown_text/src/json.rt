//! Remarks as JSON: the line of each as a text.
ghost use Rattle.std.specs.Prelude.{◌≡◌, IfOk, map};
ghost use Rattle.serde_json.specs.View.{view};
ghost use Rattle.shown_text.specs.RemarkJson.{remark_json};

use crate::remark::Remark;
use serde_json::{Value, json};
use std::alloc::{AllocError, Global};

/// The lines of remarks as texts.
pub fn remark_values(alloc: Global, remarks: &[Remark]) -> Result<Vec<Value>, AllocError>
    ensures { IfOk result (λ values. map view values.items ≡ map remark_json remarks.now) }
{
    let mut values = Vec::with_capacity(alloc, remarks.len())?;
    for remark in remarks {
        values.push(remark_value(alloc, remark)?)?;
    }
    Ok(values)
}

/// The line of a remark as a text.
pub fn remark_value(alloc: Global, remark: &Remark) -> Result<Value, AllocError>
    ensures { IfOk result (λ v. view v ≡ remark_json remark.now) }
{
    let mut line = Vec::new(alloc);
    remark.push_to(&mut line)?;
    let text = String::from_utf8_lossy(alloc, &line)?;
    json!(in alloc; text.as_str())
}
