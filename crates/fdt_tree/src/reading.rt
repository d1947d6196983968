//! Reading a whole file.

ghost use Rattle.std.specs.Prelude.{◌≡◌, [], Ok, IfOk, IfErr};
ghost use Rattle.fdt_tree.specs.Devicetree.{Devicetree};
ghost use Rattle.refusal.specs.Answer.{Answers};
ghost use Rattle.fdt_tree.specs.NodeViews.{branch};
ghost use Rattle.fdt_tree.specs.Wholeness.{tree_in};
ghost use Rattle.fdt_tree.specs.Trees.{devicetree_of};
ghost use Rattle.fdt_tree.specs.Reading.{Spells, parts_of, parts_at, refusal_of, IsRefusal};
ghost use Rattle.fdt_tree.specs.TreeAt.{tree_at};

pub mod lexing;
pub mod place;
pub mod reservations;
pub mod strings;
pub mod structure;

use crate::reading::reservations::reservations_in;
use crate::reading::strings::Strings;
use crate::reading::structure::root_in;
use crate::tree::{Contents, Tree};
use fdt_header::{FdtFault, header_in};
use std::alloc::Global;

#[tactic(auto, unfolding(crate::specs::Reading::parts_at))]
fn contents_of(alloc: Global, bytes: &[u8]) -> Result<Contents, FdtFault>
    ensures exact { Answers FdtFault.NoMemory (λ c. parts_of (tree_in c)) result
        (parts_at bytes.now) }
    ensures unnamed { IfOk result (λ c. (branch c.strings.items c.root).name ≡ []) }
{
    let header = header_in(bytes)?;
    let reservations = reservations_in(alloc, header.reserve_block(bytes))?;
    let strings = Strings::new(alloc, header.strings_block(bytes))?;
    let root = root_in(alloc, &strings, header.structure_block(bytes))?;
    Ok(Contents {
        reservations,
        boot_cpu: header.boot_cpuid_phys,
        strings: strings.bytes,
        root,
    })
}

/// The devicetree that the bytes spell in the flattened format, which may end before them.
///
/// Other bytes are refused with the first check that fails: of the header `Short`, `BadMagic`,
/// `BadVersion`, `TooLarge` and `BadBlock`; then `BadReserve`; then, of the structure block, the first
/// fault of the first token that has one, in this order: `BadToken`, for a node `BadName` and `TooDeep`,
/// for a property `LateProperty`, `BadString` and `BadName`. Where memory was refused, `NoMemory` may
/// come before any of them.
pub fn read(alloc: Global, bytes: &[u8]) -> Result<Tree, FdtFault>
    // Where a tree is returned, the bytes spell it.
    ensures found { IfOk result (λ t. Spells bytes.now (devicetree_of t)) }
    // What the bytes spell is returned, unless memory is refused.
    ensures only { (t : Devicetree) → Spells bytes.now t
        → Answers FdtFault.NoMemory devicetree_of result (Ok t) }
    // A refusal is the first check that fails; or `NoMemory`.
    ensures refused { IfErr result (λ e. IsRefusal e (refusal_of bytes.now)) }
    // The same as one equation, with the tree as a function of the bytes.
    ensures exact { Answers FdtFault.NoMemory devicetree_of result (tree_at bytes.now) }
{
    let contents = contents_of(alloc, bytes)?;
    Ok(Tree::of(contents))
}
