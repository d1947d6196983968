//! The items of a launch as JSON values.
ghost use Rattle.std.specs.Prelude.{◌≡◌, IfOk, List, ℕ, OnOk, codes, map, option_and_then, option_map};
ghost use Rattle.std.specs.List.{slice_get};
ghost use Rattle.serde_json.specs.Data.{no_members, object, put as with_member};
ghost use Rattle.serde_json.specs.View.{members_view, view};
ghost use Rattle.rim_launch.specs.Kinds.{file_of};
ghost use Rattle.rim_manifest.specs.Launches.{item_name};
ghost use Rattle.launch_json.specs.Items.{digest_json, item_json, item_members, items_json, place_json, size_json, stated_item_json, stated_items_json, stated_json, text_json, with_digest};

use crate::members::{Members, put_count, put_flag, put_text};
use crate::optional::text_value;
use map_rows::{Row, Shown, path_of};
use rim_launch::Item;
use rim_rules::kind::kind_word;
use serde_json::{Map, Value, json, put};
use std::alloc::{AllocError, Global};

/// The SHA-256 digest of a file.
pub type FileDigest = [u8; 32];

/// The items of a launch at their places, in its order. Where the digests of the release's files are given, each has that of its file.
pub fn item_values(
    alloc: Global,
    shown: Shown<'_>,
    digests: Option<&[FileDigest]>,
    rows: &[Row],
) -> Result<Vec<Value>, AllocError>
    ensures { IfOk result (λ values. map view values.items
        ≡ items_json (option_map (λ ds. ds.now) digests.entry) (item_name shown.entry.launch.now)
        shown.entry.release.now.paths shown.entry.launch.now.launch.items rows.now) }
{
    let items = shown.launch.launch().items();
    let mut values = Vec::with_capacity(alloc, rows.len())?;
    for (item, row) in items.iter().zip(rows.iter()) {
        values.push(item_value(alloc, shown, digests, item, row)?)?;
    }
    Ok(values)
}

/// An item at its place.
#[tactic(auto, unfolding(crate::specs::Items::item_json))]
fn item_value(
    alloc: Global,
    shown: Shown<'_>,
    digests: Option<&[FileDigest]>,
    item: &Item,
    row: &Row,
) -> Result<Value, AllocError>
    ensures { IfOk result (λ v. view v ≡ item_json (option_map (λ ds. ds.now) digests.entry)
        (item_name shown.entry.launch.now) shown.entry.release.now.paths item.now row.now) }
{
    let mut members = Map::new(alloc);
    put_item(
        alloc,
        &mut members,
        shown,
        item,
        row.number,
        row.item.measured,
    )?;
    let place = place_value(alloc, row)?;
    put(&mut members, alloc, "place", place)?;
    put_digest(alloc, &mut members, digests, item)?;
    Ok(Value::Object(members))
}

/// Adds what is shown of the item of a number, but for its place.
fn put_item(
    alloc: Global,
    members: &mut Members,
    shown: Shown<'_>,
    item: &Item,
    number: usize,
    is_measured: bool,
) -> Result<(), AllocError>
    requires { members_view members.old.entries ≡ no_members }
    ensures { OnOk result (members_view members.new.entries
        ≡ item_members (item_name shown.entry.launch.now) shown.entry.release.now.paths number
        item.now is_measured) }
{
    put_flag(alloc, members, "edited", item.kind.has_edits())?;
    put_path(alloc, members, path_of(shown.release, item))?;
    put_text(alloc, members, "kind", kind_word(item.kind.role()))?;
    put_flag(alloc, members, "measured", is_measured)?;
    put_text(alloc, members, "name", shown.launch.item_name(number))
}

/// Adds the path of an item's file.
fn put_path(alloc: Global, members: &mut Members, path: Option<&str>) -> Result<(), AllocError>
    ensures { OnOk result (members_view members.new.entries ≡ with_member (codes "file")
        (text_json (option_map (λ path. path.now) path.entry)) (members_view members.old.entries)) }
{
    let file = text_value(alloc, path)?;
    put(members, alloc, "file", file)
}

/// Adds the digest of an item's file, where digests are shown.
fn put_digest(
    alloc: Global,
    members: &mut Members,
    digests: Option<&[FileDigest]>,
    item: &Item,
) -> Result<(), AllocError>
    ensures { OnOk result (members_view members.new.entries
        ≡ with_digest (option_map (λ ds. ds.now) digests.entry) item.now
        (members_view members.old.entries)) }
{
    match digests {
        Some(digests) => {
            let value = digest_value(alloc, digests, item)?;
            put(members, alloc, "sha256", value)
        }
        None => Ok(()),
    }
}

/// The digest of an item's file, or null where it has no file.
fn digest_value(alloc: Global, digests: &[FileDigest], item: &Item) -> Result<Value, AllocError>
    ensures { IfOk result (λ v. view v ≡ digest_json digests.now item.now) }
{
    match digest_of(digests, item) {
        Some(digest) => {
            let digits = hex::encode(alloc, digest)?;
            json!(in alloc; digits)
        }
        None => Ok(Value::Null),
    }
}

/// The digest of an item's file, if it has one.
fn digest_of<'a>(digests: &'a [FileDigest], item: &Item) -> Option<&'a FileDigest>
    ensures { option_map (λ d. d.now) result
        ≡ option_and_then (slice_get digests.entry.now) (file_of item.now.kind) }
{
    digests.get(item.kind.file()?)
}

/// Where an item is, and how large it is.
fn place_value(alloc: Global, row: &Row) -> Result<Value, AllocError>
    ensures { IfOk result (λ v. view v ≡ place_json row.now) }
{
    let mut members = Map::new(alloc);
    put_place(alloc, &mut members, row)?;
    Ok(Value::Object(members))
}

/// Adds the members of a place.
#[tactic(auto, unfolding(crate::specs::Items::place_json))]
fn put_place(alloc: Global, members: &mut Members, row: &Row) -> Result<(), AllocError>
    requires { members_view members.old.entries ≡ no_members }
    ensures { OnOk result (object (members_view members.new.entries) ≡ place_json row.now) }
{
    put_count(alloc, members, "address", row.item.address)?;
    put_count(alloc, members, "bytes", row.bytes)?;
    put_count(alloc, members, "end", row.end)?;
    put_count(alloc, members, "lead", row.item.lead)?;
    put_count(alloc, members, "pages", row.item.pages)
}

/// The items of a launch as the manifest states them, in its order. Where the digests of the release's files are given, each has that
/// of its file.
pub fn stated_values(
    alloc: Global,
    shown: Shown<'_>,
    digests: Option<&[FileDigest]>,
) -> Result<Vec<Value>, AllocError>
    ensures { IfOk result (λ values. map view values.items
        ≡ stated_items_json (option_map (λ ds. ds.now) digests.entry)
        (item_name shown.entry.launch.now) shown.entry.release.now.paths
        0 shown.entry.launch.now.launch.items) }
{
    let items = shown.launch.launch().items();
    let mut values = Vec::with_capacity(alloc, items.len())?;
    for item in items {
        values.push(stated_value(alloc, shown, digests, values.len(), item)?)?;
    }
    Ok(values)
}

/// The item of a number as the manifest states it.
#[tactic(auto, unfolding(crate::specs::Items::stated_item_json))]
fn stated_value(
    alloc: Global,
    shown: Shown<'_>,
    digests: Option<&[FileDigest]>,
    number: usize,
    item: &Item,
) -> Result<Value, AllocError>
    ensures { IfOk result (λ v. view v
        ≡ stated_item_json (option_map (λ ds. ds.now) digests.entry)
        (item_name shown.entry.launch.now) shown.entry.release.now.paths number item.now) }
{
    let mut members = Map::new(alloc);
    put_item(alloc, &mut members, shown, item, number, item.measured)?;
    let stated = stated_place(alloc, item)?;
    put(&mut members, alloc, "stated", stated)?;
    put_digest(alloc, &mut members, digests, item)?;
    Ok(Value::Object(members))
}

/// Where the manifest asks for an item, and how large it says that it is.
#[tactic(auto, unfolding(crate::specs::Items::stated_json))]
fn stated_place(alloc: Global, item: &Item) -> Result<Value, AllocError>
    ensures { IfOk result (λ v. view v ≡ stated_json item.now) }
{
    let mut members = Map::new(alloc);
    put_count(alloc, &mut members, "at", item.at)?;
    put(&mut members, alloc, "size", size_value(item.size))?;
    Ok(Value::Object(members))
}

/// A size, or null where none is stated.
fn size_value(size: Option<u64>) -> Value
    ensures { view result ≡ size_json size }
{
    match size {
        Some(size) => Value::from(size),
        None => Value::Null,
    }
}
