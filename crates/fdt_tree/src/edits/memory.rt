//! Setting where the memory is.

ghost use Rattle.std.specs.Prelude.{◌≡◌, ◌<◌, ◌++◌, length, option_map, IfSome, IfOk, OnOk, OnErr};
ghost use Rattle.std.specs.List.{position_from};
ghost use Rattle.fdt_tree.specs.declared.node.Node.TheViews.{out-Node};
ghost use Rattle.fdt_tree.specs.NodeViews.{branch};
ghost use Rattle.refusal.specs.Answer.{Matches};
ghost use Rattle.fdt_tree.specs.Memory.{cells_or, cells_said, in_cells, reg_value, names_memory, new_memory, memory_put};
ghost use Rattle.fdt_tree.specs.inside.MemoryViews.{cells_text};

use crate::edits::put_below;
use crate::lookup::value_of;
use crate::node::Node;
use crate::reading::structure::new_node;
use fdt_header::FdtFault;
use std::alloc::{AllocError, Global};

/// How many cells the value of a property asks for: one or two.
fn cells_said(value: &[u8]) -> Result<u32, FdtFault>
    ensures { Matches (λ n. n) result (cells_said value.now) }
{
    match value {
        [0, 0, 0, 1] => Ok(1),
        [0, 0, 0, 2] => Ok(2),
        _ => Err(FdtFault::BadCells),
    }
}

fn cells_or(presumed: u32, value: Option<&[u8]>) -> Result<u32, FdtFault>
    ensures { Matches (λ n. n) result (cells_or presumed (option_map (λ v. v.now) value.entry)) }
{
    match value {
        None => Ok(presumed),
        Some(value) => cells_said(value),
    }
}

/// A number in one cell (4 bytes) or in two.
#[derive(Clone, Copy)]
pub enum Cells {
    One(u32),
    Two(u64),
}

fn in_cells(cells: u32, number: u64) -> Result<Cells, FdtFault>
    ensures { Matches cells_text result (in_cells cells number) }
{
    if cells != 1 {
        return Ok(Cells::Two(number));
    }
    match u32::try_from(number) {
        Ok(word) => Ok(Cells::One(word)),
        Err(_) => Err(FdtFault::BadCells),
    }
}

/// The address and the size of the memory, in the cells that the root's properties ask for.
#[tactic(auto, unfolding(crate::specs::Memory::reg_value))]
pub fn reg_of(strings: &[u8], root: &Node, base: u64, size: u64) -> Result<(Cells, Cells), FdtFault>
    ensures { Matches (λ x. cells_text x.0 ++ cells_text x.1) result
        (reg_value base size (branch strings.now root.now).properties) }
{
    let address_cells = cells_or(2, value_of(strings, root, b"#address-cells"))?;
    let size_cells = cells_or(1, value_of(strings, root, b"#size-cells"))?;
    let address = in_cells(address_cells, base)?;
    let extent = in_cells(size_cells, size)?;
    Ok((address, extent))
}

fn put_cells(bytes: &mut Vec<u8>, cells: Cells) -> Result<(), AllocError>
    ensures { OnOk result (bytes.new.items ≡ bytes.old.items ++ cells_text cells) }
{
    match cells {
        Cells::One(word) => bytes.extend_from_slice(&word.to_be_bytes()),
        Cells::Two(words) => bytes.extend_from_slice(&words.to_be_bytes()),
    }
}

fn reg_bytes(alloc: Global, address: Cells, extent: Cells) -> Result<Vec<u8>, AllocError>
    ensures { IfOk result (λ v. v.items ≡ cells_text address ++ cells_text extent) }
{
    let mut bytes = Vec::new(alloc);
    put_cells(&mut bytes, address)?;
    put_cells(&mut bytes, extent)?;
    Ok(bytes)
}

fn is_memory(name: &[u8]) -> bool
    ensures { result ≡ names_memory name.now }
{
    name == b"memory".as_slice() || name.len() >= 7 && &name[..7] == b"memory@".as_slice()
}

fn memory_index(children: &[Node]) -> Option<usize>
    ensures exact { result
        ≡ position_from (λ n. names_memory (out-Node n).name.items) 0 children.now }
    ensures within { IfSome result (λ i. i < length children.now) }
{
    children.iter().position(|child| is_memory(&child.name))
}

fn memory_node(alloc: Global, strings: &[u8], base: u64, reg: &[u8]) -> Result<Node, AllocError>
    ensures { IfOk result (λ n. branch strings.now n ≡ new_memory base reg.now) }
{
    let name = format!(in alloc; "memory@{base:x}")?;
    let mut node = new_node(alloc, name.as_bytes())?;
    put_below(alloc, strings, &mut node, None, b"device_type", b"memory\0")?;
    put_below(alloc, strings, &mut node, None, b"reg", reg)?;
    Ok(node)
}

/// Sets `reg` of the first child that is a memory node, or adds such a node as the last child.
pub fn put_memory(
    alloc: Global,
    strings: &[u8],
    root: &mut Node,
    base: u64,
    reg: (Cells, Cells),
) -> Result<(), AllocError>
    ensures done { OnOk result (branch strings.now root.new
        ≡ memory_put base (cells_text reg.0 ++ cells_text reg.1) (branch strings.now root.old)) }
    ensures unchanged { OnErr result (branch strings.now root.new ≡ branch strings.now root.old) }
{
    let (address, extent) = reg;
    let value = reg_bytes(alloc, address, extent)?;
    match memory_index(&root.children) {
        Some(at) => put_below(alloc, strings, &mut root.children[at], None, b"reg", &value),
        None => {
            let node = memory_node(alloc, strings, base, &value)?;
            root.children.push(node)?;
            Ok(())
        }
    }
}
