//! Setting the value of a property at a path.

ghost use Rattle.std.specs.Prelude.{◌≡◌, ◌<◌, ◌≤◌, ◌∷◌, length, map, Some, None, IfSome, if◌then◌else◌, OnOk, OnErr};
ghost use Rattle.std.specs.Str.{bytes_eq};
ghost use Rattle.std.specs.List.{position_from};
ghost use Rattle.fdt_tree.specs.declared.node.Node.TheViews.{out-Node};
ghost use Rattle.fdt_tree.specs.NodeViews.{name_of, property_data, branch};
ghost use Rattle.fdt_tree.specs.Lookup.{between_slashes, names_on};
ghost use Rattle.refusal.specs.Answer.{Matches};
ghost use Rattle.fdt_tree.specs.Edits.{with_value, value_put, edited_below, all_legal, path_names, check_names};
ghost use Rattle.fdt_tree.specs.inside.EditViews.{names_in, names_len};

pub mod memory;

use crate::lookup::slash_in;
use crate::node::{Name, Node, Property};
use crate::reading::lexing::{DEPTH_LIMIT, is_legal};
use crate::reading::structure::new_node;
use fdt_header::FdtFault;
use std::alloc::{AllocError, Global};

fn property_index(strings: &[u8], properties: &[Property], name: &[u8]) -> Option<usize>
    ensures exact { result
        ≡ position_from (λ p. bytes_eq (name_of strings.now p.name) name.now) 0 properties.now }
    ensures within { IfSome result (λ i. i < length properties.now) }
{
    properties
        .iter()
        .position(|property| property.name.bytes(strings) == name)
}

fn child_index(children: &[Node], name: &[u8]) -> Option<usize>
    ensures exact { result
        ≡ position_from (λ n. bytes_eq (out-Node n).name.items name.now) 0 children.now }
    ensures within { IfSome result (λ i. i < length children.now) }
{
    children
        .iter()
        .position(|child| child.name.as_slice() == name)
}

/// Sets the value of the first property of the name, or adds the property after the others.
fn put_value(
    alloc: Global,
    strings: &[u8],
    properties: &mut Vec<Property>,
    name: &[u8],
    value: &[u8],
) -> Result<(), AllocError>
    ensures done { OnOk result (map (property_data strings.now) properties.new.items
        ≡ with_value name.now value.now (map (property_data strings.now) properties.old.items)) }
    ensures unchanged { OnErr result (properties.new.items ≡ properties.old.items) }
{
    let value = Vec::from_slice(alloc, value)?;
    match property_index(strings, properties, name) {
        Some(at) => properties[at].value = value,
        None => {
            let name = Name::Own(Vec::from_slice(alloc, name)?);
            properties.push(Property { name, value })?;
        }
    }
    Ok(())
}

/// Splits names with slashes between them into the first and the rest.
fn split_names(names: &[u8]) -> (&[u8], Option<&[u8]>)
    ensures parts { between_slashes names.now ≡ result.0.now ∷ names_in result.1 }
    ensures shorter { names_len result.1 ≤ length names.now }
{
    match slash_in(names) {
        None => (names, None),
        Some(at) => (&names[..at], Some(&names[at + 1..])),
    }
}

/// Sets the value in the node that the names lead to from this one. Missing nodes are added as last
/// children. Each is complete before it is added, so an error leaves the node as it was.
pub fn put_below(
    alloc: Global,
    strings: &[u8],
    node: &mut Node,
    names: Option<&[u8]>,
    name: &[u8],
    value: &[u8],
) -> Result<(), AllocError>
    ensures done { OnOk result (branch strings.now node.new
        ≡ edited_below (names_in names.entry) (value_put name.now value.now)
        (branch strings.now node.old)) }
    ensures unchanged { OnErr result (branch strings.now node.new ≡ branch strings.now node.old) }
{
    let Some(names) = names else {
        return put_value(alloc, strings, &mut node.properties, name, value);
    };
    let (first, rest) = split_names(names);
    match child_index(&node.children, first) {
        Some(at) => put_below(alloc, strings, &mut node.children[at], rest, name, value),
        None => {
            let mut child = new_node(alloc, first)?;
            put_below(alloc, strings, &mut child, rest, name, value)?;
            node.children.push(child)?;
            Ok(())
        }
    }
}

/// The names of a path, with slashes between them; `None` for the root.
pub fn names_on(path: &[u8]) -> Result<Option<&[u8]>, FdtFault>
    ensures { Matches (λ w. names_in w) result (path_names (names_on path.now)) }
{
    match path {
        [b'/'] => Ok(None),
        [b'/', names @ ..] => Ok(Some(names)),
        _ => Err(FdtFault::BadName),
    }
}

/// The number of names, if each is legal.
fn count_names(names: Option<&[u8]>) -> Option<usize>
    ensures { result
        ≡ (if all_legal (names_in names.entry) then Some (length (names_in names.entry)) else
        None) }
{
    let mut count = 0;
    let mut left = names;
    while let Some(text) = left {
        let (first, rest) = split_names(text);
        if !is_legal(first) {
            return None;
        }
        count += 1;
        left = rest;
    }
    Some(count)
}

/// Checks the names of a path, and of a property that is set there.
pub fn check_names(names: Option<&[u8]>, name: &[u8]) -> Result<(), FdtFault>
    ensures { Matches (λ u. u) result (check_names (names_in names.entry) name.now) }
{
    let Some(count) = count_names(names) else {
        return Err(FdtFault::BadName);
    };
    if !is_legal(name) {
        return Err(FdtFault::BadName);
    }
    if count >= DEPTH_LIMIT {
        return Err(FdtFault::TooDeep);
    }
    Ok(())
}
