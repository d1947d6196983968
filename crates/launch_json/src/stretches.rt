//! Stretches of addresses as JSON.
ghost use Rattle.std.specs.Prelude.{◌≡◌, IfOk, map};
ghost use Rattle.serde_json.specs.View.{view};
ghost use Rattle.launch_json.specs.Items.{stretch_json};

use crate::members::put_count;
use map_rows::Stretch;
use serde_json::{Map, Value};
use std::alloc::{AllocError, Global};

/// Stretches of addresses.
pub fn stretch_values(alloc: Global, stretches: &[Stretch]) -> Result<Vec<Value>, AllocError>
    ensures { IfOk result (λ values. map view values.items ≡ map stretch_json stretches.now) }
{
    let mut values = Vec::with_capacity(alloc, stretches.len())?;
    for stretch in stretches {
        values.push(stretch_value(alloc, stretch)?)?;
    }
    Ok(values)
}

/// A stretch of addresses.
#[tactic(auto, unfolding(crate::specs::Items::stretch_json))]
fn stretch_value(alloc: Global, stretch: &Stretch) -> Result<Value, AllocError>
    ensures { IfOk result (λ v. view v ≡ stretch_json stretch.now) }
{
    let mut members = Map::new(alloc);
    put_count(alloc, &mut members, "base", stretch.base)?;
    put_count(alloc, &mut members, "end", stretch.end)?;
    Ok(Value::Object(members))
}
