//! The processors that a devicetree has.
use crate::cells::value_in;
use fdt_tree::{Node, Tree};

/// How many processors a devicetree has: the children of `/cpus` that are processors by their name or their type.
pub(crate) fn processors(tree: &Tree) -> usize {
    let cpus = tree
        .root()
        .children
        .iter()
        .find(|node| node.name.as_slice() == b"cpus".as_slice());
    match cpus {
        Some(cpus) => cpus
            .children
            .iter()
            .filter(|node| is_processor(tree.strings(), node))
            .count(),
        None => 0,
    }
}

fn is_processor(strings: &[u8], node: &Node) -> bool {
    node.name.as_slice().starts_with(b"cpu@")
        || value_in(strings, node, b"device_type") == Some(b"cpu\0".as_slice())
}
