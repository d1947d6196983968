//! What tests ask of a tree. Each question is compared at one place, since each comparison is proved.
use fdt_tree::{Node, Reservation, Tree};
use std::process::Abort;

/// A path, a name, and the value of such a property where there is one.
pub type Value = (&'static [u8], &'static [u8], Option<&'static [u8]>);

pub fn check(rt: &impl Abort, holds: bool, name: &str) {
    assert!(rt; holds, "{name}");
}

/// What a row of a table says.
pub fn check_row(rt: &impl Abort, holds: bool, row: usize) {
    assert!(rt; holds, "row {row}");
}

/// A value is this.
fn check_value(rt: &impl Abort, tree: &Tree, row: &Value) {
    let (path, name, value) = row;
    assert!(rt; tree.get(path, name) == *value, "at {path:?}, {name:?}");
}

pub fn check_values(rt: &impl Abort, tree: &Tree, values: &[Value]) {
    for row in values {
        check_value(rt, tree, row);
    }
}

/// The root has no name. How many properties and how many children it has.
pub fn check_root(rt: &impl Abort, tree: &Tree, properties: usize, children: usize) {
    let root = tree.root();
    check(rt, root.name.is_empty(), "the root's name");
    let counts = (root.properties.len(), root.children.len());
    check(rt, counts == (properties, children), "how many are in it");
}

/// The processor that boots, and the reservations.
pub fn check_head(rt: &impl Abort, tree: &Tree, boot_cpu: u32, reservations: &[Reservation]) {
    check(rt, tree.boot_cpu() == boot_cpu, "the processor that boots");
    check(rt, tree.reservations() == reservations, "the reservations");
}

/// Whether the children have these names.
pub fn has_children(node: &Node, names: &[&[u8]]) -> bool {
    for (child, name) in node.children.iter().zip(names) {
        if child.name.as_slice() != *name {
            return false;
        }
    }
    node.children.len() == names.len()
}

/// Whether the properties have these names.
pub fn has_properties(tree: &Tree, node: &Node, names: &[&[u8]]) -> bool {
    for (property, name) in node.properties.iter().zip(names) {
        if property.name.bytes(tree.strings()) != *name {
            return false;
        }
    }
    node.properties.len() == names.len()
}

/// Whether the root has one child, whose properties have these names.
pub fn only_child_has(tree: &Tree, names: &[&[u8]]) -> bool {
    match tree.root().children.as_slice() {
        [child] => has_properties(tree, child, names),
        _ => false,
    }
}
