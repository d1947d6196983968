//! What devicetrees say, found once for all launches whose devicetrees have the same form.
use crate::cells::{Cells, value_in};
use crate::chosen::{InitrdPlace, SEEDS};
use crate::devicetree::TreeFault;
use crate::memory::memory_ranges;
use crate::processors::processors;
use crate::ranges::merged;
use fdt_tree::{FdtFault, Node, Tree};
use ipa_layout::IpaRange;
use refusal::NoMemory;
use rim_launch::{REGION_LIMIT, Region};
use std::alloc::Global;

/// From how many bytes on those that a devicetree does not use are said: 64 KiB.
const LEAST_SLACK: usize = 65_536;

/// How many bytes a devicetree has that QEMU makes, whatever is in it: 1 MiB. So one of that size is meant to be placed whole.
const QEMU_SIZE: usize = 1_048_576;

/// How a GIC 2 names itself (Linux, arm,gic.yaml): QEMU's and kvmtool's, and the one of Arm's that came last.
const GIC_2: [&[u8]; 2] = [b"arm,cortex-a15-gic", b"arm,gic-400"];

/// A devicetree that was looked at.
#[derive(Drop)]
pub(crate) enum SeenTree {
    /// It cannot be read.
    Unreadable(FdtFault),
    Read(TreeFacts),
}

/// What a devicetree says that a launch is compared with, and what is rarely meant of it in whichever launch it is.
#[derive(Drop)]
pub(crate) struct TreeFacts {
    /// The addresses of its memory nodes, in rising order and joined where they touch: one range more than a launch may have at most, so
    /// that each difference is seen. `None` where they cannot be read.
    pub memory: Option<Vec<IpaRange>>,
    /// `None` where an edit writes the initrd's addresses: they are then those of the launch.
    pub initrd: Option<InitrdPlace>,
    pub processors: usize,
    pub own: Vec<TreeFault>,
}

/// The file of a devicetree, and how it is edited. Two devicetrees of the same form differ only in the command line and in the
/// initrd's addresses that an edit writes, and `TreeFacts` has neither.
#[derive(Clone, Copy, PartialEq, Eq)]
pub(crate) struct TreeForm {
    pub file: usize,
    pub is_edited: bool,
    /// Whether an edit writes the initrd's addresses.
    pub has_initrd: bool,
    /// The region that an edit writes into the memory node.
    pub memory: Option<Region>,
}

/// The devicetrees that were looked at. Launches whose devicetrees have the same form share them.
#[derive(Drop)]
pub struct SeenTrees {
    trees: Vec<(TreeForm, SeenTree)>,
}

impl SeenTrees {
    /// None.
    pub fn new(alloc: Global) -> SeenTrees {
        SeenTrees {
            trees: Vec::new(alloc),
        }
    }

    /// Returns what a devicetree of this form says. `bytes` are the bytes that are placed; they are read only where no earlier
    /// devicetree had the form.
    pub(crate) fn of_form(
        &mut self,
        alloc: Global,
        form: TreeForm,
        bytes: &[u8],
    ) -> Result<&SeenTree, NoMemory> {
        let at = match self.trees.iter().position(|(seen, _)| *seen == form) {
            Some(at) => at,
            None => {
                self.trees.push((form, look_at(alloc, form, bytes)?))?;
                self.trees.len() - 1
            }
        };
        Ok(&self.trees[at].1)
    }
}

/// Looks at a devicetree of this form, of which these are all bytes.
fn look_at(alloc: Global, form: TreeForm, bytes: &[u8]) -> Result<SeenTree, NoMemory> {
    match fdt_tree::read(alloc, bytes) {
        Ok(tree) => Ok(SeenTree::Read(facts_of(alloc, form, &tree, bytes.len())?)),
        Err(fault) => look_at_cut(alloc, form, bytes, fault.own_fault()?),
    }
}

/// Looks at a devicetree that cannot be read as it is. It can if it is cut off after its last block, as QEMU's is where only its used
/// pages are measured.
fn look_at_cut(
    alloc: Global,
    form: TreeForm,
    bytes: &[u8],
    fault: FdtFault,
) -> Result<SeenTree, NoMemory> {
    let Some(shorter) = with_own_size(alloc, bytes)? else {
        return Ok(SeenTree::Unreadable(fault));
    };
    match fdt_tree::read(alloc, &shorter) {
        Ok(tree) => Ok(SeenTree::Read(facts_of(alloc, form, &tree, bytes.len())?)),
        Err(other) => {
            other.own_fault()?;
            Ok(SeenTree::Unreadable(fault))
        }
    }
}

/// Returns the bytes of a devicetree with their number as its `totalsize`, or `None` where that is not lower.
fn with_own_size(alloc: Global, bytes: &[u8]) -> Result<Option<Vec<u8>>, NoMemory> {
    let (Some(magic), Some(total), Some(rest)) = (bytes.get(..4), bytes.get(4..8), bytes.get(8..))
    else {
        return Ok(None);
    };
    let Ok(size) = u32::try_from(bytes.len()) else {
        return Ok(None);
    };
    let is_cut = Cells::One
        .read(total)
        .is_some_and(|total| u64::from(size) < total);
    if !is_cut {
        return Ok(None);
    }
    let mut shorter = Vec::from_slice(alloc, magic)?;
    shorter.extend_from_slice(&size.to_be_bytes())?;
    shorter.extend_from_slice(rest)?;
    Ok(Some(shorter))
}

/// What a devicetree says that has this many bytes.
fn facts_of(
    alloc: Global,
    form: TreeForm,
    tree: &Tree,
    size: usize,
) -> Result<TreeFacts, NoMemory> {
    Ok(TreeFacts {
        memory: front_of_memory(alloc, tree)?,
        initrd: if form.has_initrd {
            None
        } else {
            Some(InitrdPlace::found(tree))
        },
        processors: processors(tree),
        own: own_faults(alloc, form, tree, size)?,
    })
}

/// The first addresses of its memory nodes, one range more than a launch may have.
fn front_of_memory(alloc: Global, tree: &Tree) -> Result<Option<Vec<IpaRange>>, NoMemory> {
    let Some(ranges) = memory_ranges(alloc, tree)? else {
        return Ok(None);
    };
    let ranges = merged(alloc, ranges)?;
    let front = ranges.iter().copied().take(REGION_LIMIT + 1);
    Ok(Some(front.collect(alloc)?))
}

/// What is rarely meant of a devicetree in whichever launch it is.
fn own_faults(
    alloc: Global,
    form: TreeForm,
    tree: &Tree,
    size: usize,
) -> Result<Vec<TreeFault>, NoMemory> {
    let mut own = Vec::new(alloc);
    // An edit writes no unused bytes.
    if !form.is_edited
        && let Some(slack) = slack_fault(alloc, tree, size)?
    {
        own.push(slack)?;
    }
    for seed in SEEDS.iter().filter(|seed| seed.is_in(tree)) {
        own.push(TreeFault::Seed(*seed))?;
    }
    if tree.get(b"/psci", b"method") == Some(b"hvc\0".as_slice()) {
        own.push(TreeFault::Hvc)?;
    }
    if has_gic_2(tree) {
        own.push(TreeFault::Gic2)?;
    }
    Ok(own)
}

/// Where more than half of its bytes, and 64 KiB or more, are not used, unless QEMU made it. `size` is how many it has.
fn slack_fault(alloc: Global, tree: &Tree, size: usize) -> Result<Option<TreeFault>, NoMemory> {
    if size < LEAST_SLACK || size == QEMU_SIZE {
        return Ok(None);
    }
    let needed = match tree.write(alloc) {
        Ok(bytes) => bytes.len(),
        Err(fault) => {
            fault.own_fault()?;
            return Ok(None);
        }
    };
    let slack = size.saturating_sub(needed);
    if slack >= LEAST_SLACK && slack > needed {
        Ok(Some(TreeFault::Slack { size, needed }))
    } else {
        Ok(None)
    }
}

/// Whether a child of the root is a GIC 2.
fn has_gic_2(tree: &Tree) -> bool {
    let strings = tree.strings();
    tree.root()
        .children
        .iter()
        .any(|node| is_gic_2(strings, node))
}

/// Whether one of the names by which a node says what it is compatible with is a GIC 2's.
fn is_gic_2(strings: &[u8], node: &Node) -> bool {
    let Some(names) = value_in(strings, node, b"compatible") else {
        return false;
    };
    names
        .split(|byte| *byte == 0)
        .any(|name| GIC_2.iter().any(|gic| name == *gic))
}
