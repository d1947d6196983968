//! The memory that a devicetree has, and the RAM of a launch, as ranges of addresses.
ghost use Rattle.std.specs.Prelude.{◌≤◌};

use crate::cells::{Cells, root_cells, value_in};
use fdt_tree::{Node, Tree};
use ipa_layout::IpaRange;
use refusal::NoMemory;
use rim_launch::Region;
use std::alloc::{AllocError, Global};

/// The regions as ranges, without one of them.
pub(crate) fn ram_ranges(
    alloc: Global,
    ram: &[Region],
    without: Option<Region>,
) -> Result<Vec<IpaRange>, AllocError> {
    ram.iter()
        .filter(|region| Some(**region) != without)
        .map(|region| IpaRange {
            base: u128::from(region.base),
            end: u128::from(region.end),
        })
        .collect(alloc)
}

/// The addresses of all memory nodes, or `None` where those of one of them cannot be read.
pub(crate) fn memory_ranges(alloc: Global, tree: &Tree) -> Result<Option<Vec<IpaRange>>, NoMemory> {
    let Some(form) = reg_form(tree) else {
        return Ok(None);
    };
    let mut ranges = Vec::new(alloc);
    for node in &tree.root().children {
        if is_memory(tree.strings(), node) && !push_node(&mut ranges, form, tree.strings(), node)? {
            return Ok(None);
        }
    }
    Ok(Some(ranges))
}

/// Whether a child of the root is a memory node, by its name or its type.
fn is_memory(strings: &[u8], node: &Node) -> bool {
    let name = node.name.as_slice();
    name == b"memory".as_slice()
        || name.starts_with(b"memory@")
        || value_in(strings, node, b"device_type") == Some(b"memory\0".as_slice())
}

/// Adds the addresses of a memory node; and whether they can be read.
fn push_node(
    ranges: &mut Vec<IpaRange>,
    form: RegForm,
    strings: &[u8],
    node: &Node,
) -> Result<bool, NoMemory> {
    let Some(reg) = value_in(strings, node, b"reg") else {
        return Ok(false);
    };
    for entry in reg.chunks(form.len()) {
        match form.range(entry) {
            Some(range) if range.base < range.end => ranges.push(range)?,
            Some(_) => {}
            None => return Ok(false),
        }
    }
    Ok(true)
}

/// How many cells an entry of `reg` has for an address and for a size.
#[derive(Clone, Copy)]
pub struct RegForm {
    address: Cells,
    size: Cells,
}

/// What the root asks for: two cells and one where it has no such property.
fn reg_form(tree: &Tree) -> Option<RegForm> {
    let address = root_cells(tree, b"#address-cells", Cells::Two)?;
    let size = root_cells(tree, b"#size-cells", Cells::One)?;
    Some(RegForm { address, size })
}

impl RegForm {
    /// How many bytes an entry has.
    fn len(self) -> usize
        ensures { 1 ≤ result }
    {
        self.address.len() + self.size.len()
    }

    /// The addresses of an entry, where it is whole.
    fn range(self, entry: &[u8]) -> Option<IpaRange> {
        let (address, size) = entry.split_at_checked(self.address.len())?;
        let base = u128::from(self.address.read(address)?);
        let end = base + u128::from(self.size.read(size)?);
        Some(IpaRange { base, end })
    }
}
