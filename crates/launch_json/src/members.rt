//! Members of JSON objects, which are added one by one.
ghost use Rattle.std.specs.Prelude.{◌≡◌, OnOk, map};
ghost use Rattle.serde_json.specs.Data.{array, boolean, number, put as with_member, string, unsigned};
ghost use Rattle.serde_json.specs.View.{items_of, members_view, view};

use serde_json::{Map, Value, json, put};
use std::alloc::{AllocError, Global};

/// The members of an object.
pub type Members = Map<String, Value>;

/// Adds a number.
pub fn put_count(
    alloc: Global,
    members: &mut Members,
    name: &str,
    count: u64,
) -> Result<(), AllocError>
    ensures { OnOk result (members_view members.new.entries
        ≡ with_member name.now (number (unsigned count)) (members_view members.old.entries)) }
{
    put(members, alloc, name, Value::from(count))
}

/// Adds whether something is so.
pub fn put_flag(
    alloc: Global,
    members: &mut Members,
    name: &str,
    flag: bool,
) -> Result<(), AllocError>
    ensures { OnOk result (members_view members.new.entries
        ≡ with_member name.now (boolean flag) (members_view members.old.entries)) }
{
    put(members, alloc, name, Value::Bool(flag))
}

/// Adds a text.
pub fn put_text(
    alloc: Global,
    members: &mut Members,
    name: &str,
    text: &str,
) -> Result<(), AllocError>
    ensures { OnOk result (members_view members.new.entries
        ≡ with_member name.now (string text.now) (members_view members.old.entries)) }
{
    let text = json!(in alloc; text)?;
    put(members, alloc, name, text)
}

/// Adds an array.
pub fn put_values(
    alloc: Global,
    members: &mut Members,
    name: &str,
    values: Vec<Value>,
) -> Result<(), AllocError>
    ensures { OnOk result (members_view members.new.entries
        ≡ with_member name.now (array (items_of (map view values.items)))
        (members_view members.old.entries)) }
{
    put(members, alloc, name, Value::Array(values))
}
