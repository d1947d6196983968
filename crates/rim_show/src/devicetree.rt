//! The text that shows a devicetree.
ghost use Rattle.std.specs.Prelude.{◌≡◌, ◌++◌, IfErr, IfOk, OnOk, map};
ghost use Rattle.std.specs.List.{flat_map};
ghost use Rattle.fdt_tree.specs.NodeViews.{branch, property_data};
ghost use Rattle.fdt_tree.specs.Trees.{devicetree_of};
ghost use Rattle.rim_show.specs.ShownDevicetree.{IsDevicetreeFault, ShowsDevicetree, boot_line, devicetree_text, inner_text, node_line, path_below, property_line, reservation_line, value_text};

use crate::fault::ShowFault;
use fdt_tree::{Node, Property, Reservation, Tree};
use refusal::NoMemory;
use rim_desc::push_digits;
use std::alloc::Global;

/// A flattened devicetree, node by node: a line `boot_cpu N`; for each reservation its address and its
/// size, 16 hexadecimal digits each; then for each node, before its children, its path, and for each
/// property its name and the bytes of its value, two lower case hexadecimal digits each.
pub fn show_fdt(alloc: Global, bytes: &[u8]) -> Result<Vec<u8>, ShowFault>
    ensures shown { IfOk result (λ text. ShowsDevicetree bytes.now text.items) }
    ensures refused { IfErr result (IsDevicetreeFault bytes.now) }
{
    let tree = fdt_tree::read(alloc, bytes)?;
    let text = tree_text(alloc, &tree)?;
    Ok(text)
}

fn tree_text(alloc: Global, tree: &Tree) -> Result<Vec<u8>, NoMemory>
    ensures { IfOk result (λ text. text.items ≡ devicetree_text (devicetree_of tree.now)) }
{
    let mut text = Vec::new(alloc);
    push_boot(alloc, &mut text, tree.boot_cpu())?;
    push_reservations(&mut text, tree.reservations())?;
    push_path(&mut text, b"/")?;
    let mut path = Vec::new(alloc);
    push_inner(alloc, &mut text, &mut path, tree.strings(), tree.root())?;
    Ok(text)
}

fn push_boot(alloc: Global, text: &mut Vec<u8>, cpu: u32) -> Result<(), NoMemory>
    ensures { OnOk result (text.new.items ≡ text.old.items ++ boot_line cpu) }
{
    let number = format!(in alloc; "{cpu}")?;
    text.extend_from_slice(b"boot_cpu ")?;
    text.extend_from_slice(number.as_bytes())?;
    text.extend_from_slice(b"\n")?;
    Ok(())
}

fn push_reservations(text: &mut Vec<u8>, reservations: &[Reservation]) -> Result<(), NoMemory>
    ensures { OnOk result
        (text.new.items ≡ text.old.items ++ flat_map reservation_line reservations.now) }
{
    for reservation in reservations {
        push_reservation(text, reservation)?;
    }
    Ok(())
}

#[tactic(auto, unfolding(crate::specs::ShownDevicetree::reservation_line))]
fn push_reservation(text: &mut Vec<u8>, reservation: &Reservation) -> Result<(), NoMemory>
    ensures { OnOk result (text.new.items ≡ text.old.items ++ reservation_line reservation.now) }
{
    let reservation = *reservation;
    text.extend_from_slice(b"reserve ")?;
    push_digits(text, reservation.address)?;
    text.extend_from_slice(b" ")?;
    push_digits(text, reservation.size)?;
    text.extend_from_slice(b"\n")?;
    Ok(())
}

#[tactic(auto, unfolding(crate::specs::ShownDevicetree::node_line))]
fn push_path(text: &mut Vec<u8>, path: &[u8]) -> Result<(), NoMemory>
    ensures { OnOk result (text.new.items ≡ text.old.items ++ node_line path.now) }
{
    text.extend_from_slice(b"node ")?;
    text.extend_from_slice(path)?;
    text.extend_from_slice(b"\n")?;
    Ok(())
}

fn push_properties(
    alloc: Global,
    text: &mut Vec<u8>,
    strings: &[u8],
    properties: &[Property],
) -> Result<(), NoMemory>
    ensures { OnOk result (text.new.items
        ≡ text.old.items
        ++ flat_map property_line (map (property_data strings.now) properties.now)) }
{
    for property in properties {
        push_property(alloc, text, strings, property)?;
    }
    Ok(())
}

#[tactic(auto, unfolding(crate::specs::ShownDevicetree::property_line))]
fn push_property(
    alloc: Global,
    text: &mut Vec<u8>,
    strings: &[u8],
    property: &Property,
) -> Result<(), NoMemory>
    ensures { OnOk result (text.new.items
        ≡ text.old.items ++ property_line (property_data strings.now property.now)) }
{
    text.extend_from_slice(b"prop ")?;
    text.extend_from_slice(property.name.bytes(strings))?;
    push_value(alloc, text, property.value.as_slice())?;
    text.extend_from_slice(b"\n")?;
    Ok(())
}

fn push_value(alloc: Global, text: &mut Vec<u8>, value: &[u8]) -> Result<(), NoMemory>
    ensures { OnOk result (text.new.items ≡ text.old.items ++ value_text value.now) }
{
    if value.is_empty() {
        return Ok(());
    }
    let digits = hex::encode(alloc, value)?;
    text.extend_from_slice(b" ")?;
    text.extend_from_slice(digits.as_bytes())?;
    Ok(())
}

/// Adds what a node at a path holds: its properties, and its children with what they hold. The path is
/// the same afterwards.
fn push_inner(
    alloc: Global,
    text: &mut Vec<u8>,
    path: &mut Vec<u8>,
    strings: &[u8],
    node: &Node,
) -> Result<(), NoMemory>
    ensures text { OnOk result (text.new.items
        ≡ text.old.items ++ inner_text path.old.items (branch strings.now node.now)) }
    ensures path { OnOk result (path.new.items ≡ path.old.items) }
{
    push_properties(alloc, text, strings, &node.properties)?;
    let above = path.as_slice().len();
    for child in &node.children {
        push_step(path, child.name.as_slice())?;
        push_path(text, path.as_slice())?;
        push_inner(alloc, text, path, strings, child)?;
        path.truncate(above);
    }
    Ok(())
}

/// Makes a path that of a child.
fn push_step(path: &mut Vec<u8>, name: &[u8]) -> Result<(), NoMemory>
    ensures { OnOk result (path.new.items ≡ path_below path.old.items name.now) }
{
    path.extend_from_slice(b"/")?;
    path.extend_from_slice(name)?;
    Ok(())
}
