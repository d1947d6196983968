//! A devicetree in memory.

ghost use Rattle.std.specs.Prelude.{◌≡◌, []};
ghost use Rattle.fdt_tree.specs.NodeViews.{branch};
ghost use Rattle.fdt_tree.specs.Wholeness.{IsWhole, IsWhole-prop, tree_in};
ghost use Rattle.fdt_header.specs.declared.header.TheConstants.{SIZE_LIMIT};

use crate::edits::memory::{put_memory, reg_of};
use crate::edits::{check_names, names_on, put_below};
use crate::lookup::{node_at, value_of};
use crate::node::Node;
use crate::writing::written;
use fdt_header::FdtFault;
use std::alloc::Global;

/// A range of memory that the operating system leaves alone: its address and its size in bytes.
#[derive(Clone, Copy, Debug, PartialEq, Eq)]
pub struct Reservation {
    pub address: u64,
    pub size: u64,
}

/// What a tree holds. The names of properties are mostly ranges of the strings.
#[derive(Debug, Drop)]
pub struct Contents {
    pub reservations: Vec<Reservation>,
    pub boot_cpu: u32,
    pub strings: Vec<u8>,
    pub root: Node,
}

/// A devicetree: memory reservations, the processor that boots, and the root with its properties and
/// children. No reservation is a pair of zeros, the root's name is empty, other names are legal, and no
/// node is deeper than 64.
#[derive(Debug, Drop)]
pub struct Tree {
    contents: Contents,
    ghost whole: { IsWhole (tree_in contents) } by { IsWhole-prop (tree_in contents) },
    ghost unnamed: { (branch contents.strings.items contents.root).name ≡ [] },
}

impl Tree {
    ghost use Rattle.std.specs.Prelude.{option_map, ℕ, List, ◌++◌, IfOk, length, ◌≤◌};
    ghost use Rattle.refusal.specs.Answer.{Answers, Applies};
    ghost use Rattle.fdt_tree.specs.Reading.{Spells};
    ghost use Rattle.fdt_tree.specs.Writing.{file_of};
    ghost use Rattle.fdt_tree.specs.Memory.{set_memory_at};
    ghost use Rattle.fdt_tree.specs.Edits.{set_at};
    ghost use Rattle.fdt_tree.specs.Devicetree.{branch_of_root};
    ghost use Rattle.fdt_tree.specs.Trees.{devicetree_of, strings_of};
    ghost use Rattle.fdt_tree.specs.Lookup.{value_at};

    /// A tree of what it holds.
    pub(crate) fn of(contents: Contents) -> Tree
        requires whole { IsWhole (tree_in contents) }
        requires unnamed { (branch contents.strings.items contents.root).name ≡ [] }
        ensures { devicetree_of result ≡ tree_in contents }
    {
        Tree { contents }
    }

    /// The memory reservations, in the order of the file.
    pub fn reservations(&self) -> &[Reservation]
        ensures { result.now ≡ (devicetree_of self.now).reservations }
    {
        self.contents.reservations.as_slice()
    }

    /// The physical number of the processor that boots.
    pub fn boot_cpu(&self) -> u32
        ensures { result ≡ (devicetree_of self.now).boot_cpu }
    {
        self.contents.boot_cpu
    }

    /// The root, whose name is empty. The bytes of its properties' names are
    /// [`Name::bytes`](crate::Name::bytes) of [`Tree::strings`].
    pub fn root(&self) -> &Node
        ensures { branch (strings_of self.now) result.now
            ≡ branch_of_root (devicetree_of self.now).root }
    {
        &self.contents.root
    }

    /// The bytes that the names of properties are ranges of.
    pub fn strings(&self) -> &[u8]
        ensures { result.now ≡ strings_of self.now }
    {
        self.contents.strings.as_slice()
    }

    /// The value of a property, or `None` if no such node or property exists. A path is `/` for the
    /// root, else the names that lead to a node, each after a `/`. Of equal names the first is found.
    pub fn get(&self, path: &[u8], name: &[u8]) -> Option<&[u8]>
        ensures { option_map (λ v. v.now) result
            ≡ value_at path.now name.now (devicetree_of self.entry.now) }
    {
        let node = node_at(self.root(), path)?;
        value_of(self.strings(), node, name)
    }

    /// Sets the value of the first property of this name in the node at a path, as [`Tree::get`] finds it,
    /// or adds the property after the node's others. Missing nodes of the path are added as last children.
    ///
    /// `BadName`: the path is none, or a name is not legal. `TooDeep`: the path leads below a depth of 64.
    /// After these checks memory may be refused. The tree stays as it was after each error.
    pub fn set(
        &mut self,
        alloc: Global,
        path: &[u8],
        name: &[u8],
        value: &[u8],
    ) -> Result<(), FdtFault>
        ensures { Applies FdtFault.NoMemory (devicetree_of self.old) (devicetree_of self.new) result
            (set_at path.now name.now value.now (devicetree_of self.old)) }
    {
        let names = names_on(path)?;
        check_names(names, name)?;
        let Contents { strings, root, .. } = &mut self.contents;
        put_below(alloc, strings, root, names, name, value)?;
        Ok(())
    }

    /// Sets where the memory is, `size` bytes from `base` on: puts both into `reg` of the root's first
    /// child whose name is `memory` or begins with `memory@`. If no child has such a name, one named
    /// `memory@` and the base in hexadecimal is added as the last, with `device_type` and `reg`.
    ///
    /// `#address-cells` and `#size-cells` of the root (2 and 1 where they do not exist) are the numbers of
    /// cells, of 4 bytes each, for the base and for the size. `BadCells`: one of them is not the number 1
    /// or 2 in 4 bytes, or the base or the size does not fit in its cells. After these checks memory may
    /// be refused. The tree stays as it was after each error.
    pub fn set_memory(&mut self, alloc: Global, base: u64, size: u64) -> Result<(), FdtFault>
        ensures { Applies FdtFault.NoMemory (devicetree_of self.old) (devicetree_of self.new) result
            (set_memory_at base size (devicetree_of self.old)) }
    {
        let Contents { strings, root, .. } = &self.contents;
        let reg = reg_of(strings, root, base, size)?;
        let Contents { strings, root, .. } = &mut self.contents;
        put_memory(alloc, strings, root, base, reg)?;
        Ok(())
    }

    /// The flattened devicetree of this tree, version 17: the header, the reservations at 40, the
    /// structure block without any NOP, and the strings, each name once in the order of first use. Nothing
    /// is between or after them, and padding is zeros. [`read`](crate::read) returns this tree again, also
    /// where other bytes follow, up to the limit in all.
    ///
    /// `TooLarge`: the file would have more than 2,097,152 bytes. Else only memory may be refused.
    pub fn write(&self, alloc: Global) -> Result<Vec<u8>, FdtFault>
        ensures exact { Answers FdtFault.NoMemory (λ v. v.items) result
            (file_of (devicetree_of self.now)) }
        // The bytes spell this tree again, whatever follows them.
        ensures again { IfOk result (λ v. (z : List ℕ) → length (v.items ++ z) ≤ SIZE_LIMIT
            → Spells (v.items ++ z) (devicetree_of self.now)) }
        ensures within { IfOk result (λ v. length v.items ≤ SIZE_LIMIT) }
    {
        written(alloc, &self.contents)
    }
}
