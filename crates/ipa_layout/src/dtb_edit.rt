//! The edits of a devicetree before it is placed: how its realm is booted.
ghost use Rattle.std.specs.Prelude.{option_map};
ghost use Rattle.std.specs.Int.{w64, to_be_bytes};
ghost use Rattle.refusal.specs.Answer.{Answers};
ghost use Rattle.fdt_tree.specs.Trees.{devicetree_of};
ghost use Rattle.ipa_layout.specs.DtbEdit.{chosen, edited, with_bootargs, with_edits, with_initrd, with_memory};
ghost use Rattle.ipa_layout.specs.inside.DtbEditViews.{edit_data};

use fdt_tree::{FdtFault, Tree};
use rim_launch::{Bootargs, Region};
use std::alloc::Global;

/// Puts a property into `/chosen`.
fn put_chosen(alloc: Global, tree: &mut Tree, name: &[u8], value: &[u8]) -> Result<(), FdtFault>
    ensures { Answers FdtFault.NoMemory (λ u. devicetree_of tree.new) result
        (chosen name.now value.now (devicetree_of tree.old)) }
{
    tree.set(alloc, b"/chosen", name, value)
}

/// Puts the command line, if one is given.
fn put_bootargs(alloc: Global, tree: &mut Tree, bootargs: Option<&Bootargs>) -> Result<(), FdtFault>
    ensures { Answers FdtFault.NoMemory (λ u. devicetree_of tree.new) result
        (with_bootargs (option_map (λ b. b.now) bootargs.entry) (devicetree_of tree.old)) }
{
    let Some(bootargs) = bootargs else {
        return Ok(());
    };
    let mut value = Vec::from_slice(alloc, bootargs.as_str().as_bytes())?;
    value.push(0)?;
    put_chosen(alloc, tree, b"bootargs", &value)
}

/// Puts an address into a property of `/chosen`, as 8 bytes.
fn put_address(alloc: Global, tree: &mut Tree, name: &[u8], address: u64) -> Result<(), FdtFault>
    ensures { Answers FdtFault.NoMemory (λ u. devicetree_of tree.new) result
        (chosen name.now (to_be_bytes w64 address) (devicetree_of tree.old)) }
{
    put_chosen(alloc, tree, name, &address.to_be_bytes())
}

/// Puts the addresses of the initrd's first byte and of the first byte after it, if they are given.
fn put_initrd(alloc: Global, tree: &mut Tree, initrd: Option<Span>) -> Result<(), FdtFault>
    ensures { Answers FdtFault.NoMemory (λ u. devicetree_of tree.new) result
        (with_initrd initrd (devicetree_of tree.old)) }
{
    let Some(span) = initrd else {
        return Ok(());
    };
    put_address(alloc, tree, b"linux,initrd-start", span.start)?;
    put_address(alloc, tree, b"linux,initrd-end", span.end)
}

/// Puts the first region of RAM, if it is wanted.
fn put_memory(alloc: Global, tree: &mut Tree, memory: Option<Region>) -> Result<(), FdtFault>
    ensures { Answers FdtFault.NoMemory (λ u. devicetree_of tree.new) result
        (with_memory memory (devicetree_of tree.old)) }
{
    let Some(region) = memory else {
        return Ok(());
    };
    tree.set_memory(alloc, region.base, region.end - region.base)
}

/// The addresses from `start` on and below `end`; none where they are equal.
#[derive(Clone, Copy, Debug, PartialEq, Eq)]
pub struct Span {
    pub start: u64,
    pub end: u64,
}

/// What a devicetree is to have, each if it is wanted: the command line, the addresses of the initrd's
/// bytes, and the first region of RAM.
#[derive(Clone, Copy)]
pub struct DtbEdits<'a> {
    pub bootargs: Option<&'a Bootargs>,
    pub initrd: Option<Span>,
    pub memory: Option<Region>,
}

/// Puts all three.
fn put_edits(alloc: Global, tree: &mut Tree, edits: DtbEdits) -> Result<(), FdtFault>
    ensures { Answers FdtFault.NoMemory (λ u. devicetree_of tree.new) result
        (with_edits (edit_data edits.entry) (devicetree_of tree.old)) }
{
    put_bootargs(alloc, tree, edits.bootargs)?;
    put_initrd(alloc, tree, edits.initrd)?;
    put_memory(alloc, tree, edits.memory)
}

/// The bytes of a devicetree with these edits.
#[tactic(auto, unfolding(crate::specs::DtbEdit::edited))]
pub fn edited(alloc: Global, bytes: &[u8], edits: DtbEdits) -> Result<Vec<u8>, FdtFault>
    ensures { Answers FdtFault.NoMemory (λ v. v.items) result
        (edited (edit_data edits.entry) bytes.now) }
{
    let mut tree = fdt_tree::read(alloc, bytes)?;
    put_edits(alloc, &mut tree, edits)?;
    tree.write(alloc)
}
