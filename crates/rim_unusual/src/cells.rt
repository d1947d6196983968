//! Numbers in a devicetree: of one cell, which is 4 bytes, or of two.
ghost use Rattle.std.specs.Prelude.{◌≤◌};

use fdt_tree::{Node, Tree};

/// How many cells a number has.
#[derive(Clone, Copy)]
pub enum Cells {
    One,
    Two,
}

impl Cells {
    /// How many bytes a number has.
    pub(crate) fn len(self) -> usize
        ensures some { 1 ≤ result }
        ensures few { result ≤ 8 }
    {
        match self {
            Cells::One => 4,
            Cells::Two => 8,
        }
    }

    /// The number in these bytes, where they are as many as it has.
    pub(crate) fn read(self, bytes: &[u8]) -> Option<u64> {
        match (self, bytes) {
            (Cells::One, [a, b, c, d]) => Some(u64::from(u32::from_be_bytes([*a, *b, *c, *d]))),
            (Cells::Two, [a, b, c, d, e, f, g, h]) => {
                Some(u64::from_be_bytes([*a, *b, *c, *d, *e, *f, *g, *h]))
            }
            _ => None,
        }
    }
}

/// How many cells a property of the root asks for, or these where it is not there. `None` where it is neither 1 nor 2.
pub(crate) fn root_cells(tree: &Tree, name: &[u8], default: Cells) -> Option<Cells> {
    match tree.get(b"/", name) {
        None => Some(default),
        Some([0, 0, 0, 1]) => Some(Cells::One),
        Some([0, 0, 0, 2]) => Some(Cells::Two),
        Some(_) => None,
    }
}

/// The value of the first property of this name in a node.
pub(crate) fn value_in<'a>(strings: &[u8], node: &'a Node, name: &[u8]) -> Option<&'a [u8]> {
    node.properties
        .iter()
        .find(|property| property.name.bytes(strings) == name)
        .map(|property| property.value.as_slice())
}
