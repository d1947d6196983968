//! Looking up nodes and properties.

ghost use Rattle.std.specs.Prelude.{◌≡◌, ◌==◌, ◌<◌, ℕ, List, length, option_map, IfSome};
ghost use Rattle.std.specs.List.{position_from};
ghost use Rattle.fdt_tree.specs.NodeViews.{branch};
ghost use Rattle.fdt_tree.specs.Lookup.{between_slashes, first_named, node_below, first_value, node_at};

use crate::node::Node;

pub fn slash_in(path: &[u8]) -> Option<usize>
    ensures exact { result ≡ position_from (λ c. c == 47) 0 path.now }
    ensures within { IfSome result (λ i. i < length path.now) }
{
    path.iter().position(|byte| *byte == b'/')
}

/// The first child of this name.
fn child<'a>(node: &'a Node, name: &[u8]) -> Option<&'a Node>
    ensures { (strings : List ℕ) → option_map (λ n. branch strings n.now) result
        ≡ first_named name.now (branch strings node.entry.now).children }
{
    for child in &node.children {
        if child.name.as_slice() == name {
            return Some(child);
        }
    }
    None
}

/// The node below this one that the names, with slashes between them, lead to.
fn below<'a>(node: &'a Node, names: &[u8]) -> Option<&'a Node>
    ensures { (strings : List ℕ) → option_map (λ n. branch strings n.now) result
        ≡ node_below (between_slashes names.now) (branch strings node.entry.now) }
{
    match slash_in(names) {
        None => child(node, names),
        Some(at) => below(child(node, &names[..at])?, &names[at + 1..]),
    }
}

/// The node at a path.
pub fn node_at<'a>(root: &'a Node, path: &[u8]) -> Option<&'a Node>
    ensures { (strings : List ℕ) → option_map (λ n. branch strings n.now) result
        ≡ node_at path.now (branch strings root.entry.now) }
{
    match path {
        [b'/'] => Some(root),
        [b'/', names @ ..] => below(root, names),
        _ => None,
    }
}

/// The value of the first property of this name, given the strings of the tree.
pub fn value_of<'a>(strings: &[u8], node: &'a Node, name: &[u8]) -> Option<&'a [u8]>
    ensures { option_map (λ v. v.now) result
        ≡ first_value name.now (branch strings.now node.entry.now).properties }
{
    for property in &node.properties {
        if property.name.bytes(strings) == name {
            return Some(property.value.as_slice());
        }
    }
    None
}
