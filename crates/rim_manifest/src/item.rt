//! Reading items.
ghost use Rattle.std.specs.Prelude.{◌≡◌, IfOk, map};
ghost use Rattle.toml.specs.Data.{get};
ghost use Rattle.toml.specs.View.{view};
ghost use Rattle.rim_rules.specs.Items.{bootargs_in, edits_of, item_of, kind_of, measured_for, size_for, size_in};
ghost use Rattle.rim_rules.specs.Names.{role_at};

use rim_launch::{Bootargs, Edits, Item, ItemKind, Role};
use rim_rules::names::{file_number, role};
use rim_rules::value::{field, number, truth};
use std::alloc::{AllocError, Global};
use toml::Value;

/// The largest number.
const MOST_NUMBER: u64 = 0x7fff_ffff_ffff_ffff;

/// Reads each item from its table, where the files are these.
pub fn read_items(alloc: Global, files: &[Value], tables: &[Value]) -> Result<Vec<Item>, AllocError>
    ensures { IfOk result
        (λ v. v.items ≡ map (λ t. item_of (map view files.now) (view t)) tables.now) }
{
    let mut items = Vec::with_capacity(alloc, tables.len())?;
    for table in tables {
        items.push(read_item(alloc, files, table)?)?;
    }
    Ok(items)
}

#[tactic(auto, unfolding(rim_rules::specs::Items::item_of))]
fn read_item(alloc: Global, files: &[Value], table: &Value) -> Result<Item, AllocError>
    ensures { IfOk result (λ i. i ≡ item_of (map view files.now) (view table.now)) }
{
    let kind = read_kind(alloc, file_number(files, table), table)?;
    let purpose = role(table);
    Ok(Item {
        kind,
        at: number(table, "at", 0, MOST_NUMBER, 0),
        size: size_for(purpose, table, "size"),
        measured: measured_for(purpose, table, "measured"),
    })
}

fn read_kind(alloc: Global, file: usize, table: &Value) -> Result<ItemKind, AllocError>
    ensures { IfOk result (λ k. k ≡ kind_of (role_at (view table.now)) file (view table.now)) }
{
    Ok(match role(table) {
        Role::Kernel => ItemKind::Kernel { file },
        Role::Initrd => ItemKind::Initrd { file },
        Role::Dtb => ItemKind::Dtb {
            file,
            edits: read_edits(alloc, table)?,
        },
        Role::Raw => ItemKind::Raw { file },
        Role::Unknown => ItemKind::Unknown,
    })
}

fn read_edits(alloc: Global, table: &Value) -> Result<Edits, AllocError>
    ensures { IfOk result (λ e. e ≡ edits_of (view table.now)) }
{
    Ok(Edits {
        bootargs: bootargs(alloc, table, "bootargs")?,
        initrd: truth(table, "initrd", false),
        memory: truth(table, "memory", false),
    })
}

/// The command line at a key, if it is given.
fn bootargs(alloc: Global, table: &Value, key: &str) -> Result<Option<Bootargs>, AllocError>
    ensures { IfOk result (λ b. b ≡ bootargs_in (get key.now (view table.now))) }
{
    match field(table, key) {
        Some(Value::String(text)) => { Ok(Bootargs::new(String::from_str(alloc, text.as_str())?)) }
        _ => Ok(None),
    }
}

/// The size at a key, if it is given.
fn size(table: &Value, key: &str) -> Option<u64>
    ensures { result ≡ size_in (get key.now (view table.now)) }
{
    match field(table, key) {
        Some(_) => Some(number(table, key, 0, MOST_NUMBER, 0)),
        None => None,
    }
}

/// The size of an item for this at a key, if it is given; unknown content always has one.
fn size_for(role: Role, table: &Value, key: &str) -> Option<u64>
    ensures { result ≡ size_for role (get key.now (view table.now)) }
{
    match role {
        Role::Unknown => Some(number(table, key, 0, MOST_NUMBER, 0)),
        Role::Kernel | Role::Initrd | Role::Dtb | Role::Raw => size(table, key),
    }
}

/// Whether an item for this is measured: unknown content never is, and other content as a key says.
fn measured_for(role: Role, table: &Value, key: &str) -> bool
    ensures { result ≡ measured_for role (get key.now (view table.now)) }
{
    role != Role::Unknown && truth(table, key, true)
}
