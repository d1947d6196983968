//! A devicetree that does not go with its launch, or is none of a realm.
use crate::chosen::{InitrdPlace, Seed};
use crate::firmware::firmware_region;
use crate::items::{number_of, placed_bytes};
use crate::memory::ram_ranges;
use crate::ram::is_made_for_items;
use crate::ranges::{Difference, first_difference, is_within, merged};
use crate::seen::{SeenTree, SeenTrees, TreeFacts, TreeForm};
use crate::unusual::Unusual;
use fdt_tree::FdtFault;
use refusal::NoMemory;
use rim_accepted::AcceptedLaunch;
use rim_launch::{Launch, Role};
use rim_show::devicetree_kind;
use shown_text::{Joint, Quoted, Remark};
use std::alloc::Global;
use std::fmt;
use std::fmt::Write;

/// What is rarely meant of a launch's devicetree, with the name of its item.
#[derive(Clone, Copy)]
pub struct UnusualTree<'a> {
    item: &'a str,
    what: TreeFault,
}

/// What is rarely meant of a devicetree.
#[derive(Clone, Copy)]
pub enum TreeFault {
    /// It cannot be read.
    Unreadable(FdtFault),
    /// Its memory nodes have other addresses than the launch has RAM, but for a region that is there for firmware alone.
    Memory(Difference),
    /// It has another place of the initrd than the launch.
    Initrd {
        found: InitrdPlace,
        expected: InitrdPlace,
    },
    /// It has another number of processors than the launch has RECs.
    Processors {
        found: usize,
        expected: usize,
    },
    /// It has a seed.
    Seed(Seed),
    /// Most of its bytes are not used: the same devicetree can be written in `needed` bytes.
    Slack {
        size: usize,
        needed: usize,
    },
    /// Its PSCI calls are HVC (Linux, psci.yaml). Linux asks for a monitor only where they are SMC (arch/arm64/kernel/rsi.c).
    Hvc,
    /// Its interrupt controller is a GIC 2, and a realm's is a GIC 3 (DEN0137, "Realm interrupts and timers").
    Gic2,
}

impl UnusualTree<'_> {
    /// Adds it to its warning.
    pub(crate) fn write_to(&self, remark: &mut Remark) -> fmt::Result {
        let UnusualTree { item, what } = *self;
        let item = Quoted(item);
        write!(remark.given, "item {item}: ")?;
        what.write_to(remark)
    }
}

impl TreeFault {
    /// Adds it to its warning.
    fn write_to(&self, remark: &mut Remark) -> fmt::Result {
        match *self {
            TreeFault::Unreadable(fault) => {
                let kind = devicetree_kind(fault);
                write!(remark.given, "{kind}")?;
                write!(remark.expected, "a devicetree")
            }
            TreeFault::Memory(difference) => {
                write!(remark.given, "memory nodes differ from ram: ")?;
                difference.write_to(remark)
            }
            TreeFault::Initrd { found, expected } => {
                let InitrdPlace { start, end } = found;
                write!(
                    remark.given,
                    "linux,initrd-start is {start} and linux,initrd-end is {end}"
                )?;
                let InitrdPlace { start, end } = expected;
                write!(remark.expected, "{start} and {end}")
            }
            TreeFault::Processors { found, expected } => {
                write!(remark.given, "processors in /cpus: {found}")?;
                write!(remark.expected, "{expected}, one for each REC")
            }
            TreeFault::Seed(seed) => {
                write!(remark.given, "{seed}")?;
                write!(remark.expected, "none")?;
                because(remark, "no two starts measure the same")
            }
            TreeFault::Slack { size, needed } => {
                write!(remark.given, "{size} bytes")?;
                write!(remark.expected, "{needed} as it would have with an edit")?;
                because(remark, "the rest is not used")
            }
            TreeFault::Hvc => {
                write!(remark.given, "psci has the method \"hvc\"")?;
                write!(remark.expected, "\"smc\"")?;
                because(remark, "Linux looks for a monitor only then")
            }
            TreeFault::Gic2 => {
                write!(remark.given, "the interrupt controller is a GIC 2")?;
                write!(remark.expected, "a GIC 3, as each realm has")
            }
        }
    }
}

/// Adds why something is expected.
fn because(remark: &mut Remark, why: &str) -> fmt::Result {
    remark.joint = Joint::Colon;
    remark.help.write_str(why)
}

/// Adds what is rarely meant of the devicetree of a launch, if it has one.
pub(crate) fn find_in_tree<'a>(
    alloc: Global,
    found: &mut Vec<Unusual<'a>>,
    seen: &mut SeenTrees,
    accepted: &'a AcceptedLaunch<'_>,
) -> Result<(), NoMemory> {
    let Some(number) = number_of(accepted.launch(), Role::Dtb) else {
        return Ok(());
    };
    let Some(form) = form_of(accepted.launch(), number) else {
        return Ok(());
    };
    let item = accepted.named().item_name(number);
    let tree = seen.of_form(alloc, form, placed_bytes(accepted, number))?;
    push_faults(alloc, found, item, accepted, tree)
}

/// The form of the devicetree that is the item of this number.
fn form_of(launch: &Launch, number: usize) -> Option<TreeForm> {
    let kind = &launch.items().get(number)?.kind;
    Some(TreeForm {
        file: kind.file()?,
        is_edited: kind.has_edits(),
        has_initrd: kind.needs_initrd(),
        memory: launch
            .ram()
            .first()
            .copied()
            .filter(|_| kind.needs_memory()),
    })
}

/// Adds what is rarely meant of a devicetree that was looked at.
fn push_faults<'a>(
    alloc: Global,
    found: &mut Vec<Unusual<'a>>,
    item: &'a str,
    accepted: &AcceptedLaunch<'_>,
    tree: &SeenTree,
) -> Result<(), NoMemory> {
    match tree {
        SeenTree::Read(facts) => push_facts(alloc, found, item, accepted, facts),
        SeenTree::Unreadable(fault) => {
            let what = TreeFault::Unreadable(*fault);
            found.push(Unusual::Tree(UnusualTree { item, what }))?;
            Ok(())
        }
    }
}

/// Adds where a devicetree does not go with its launch, and then what is rarely meant of it in whichever launch it is.
fn push_facts<'a>(
    alloc: Global,
    found: &mut Vec<Unusual<'a>>,
    item: &'a str,
    accepted: &AcceptedLaunch<'_>,
    facts: &TreeFacts,
) -> Result<(), NoMemory> {
    let compared = [
        memory_fault(alloc, accepted, facts)?,
        facts.initrd.and_then(|found| initrd_fault(accepted, found)),
        processors_fault(accepted.launch(), facts.processors),
    ];
    for what in compared.iter().flatten().chain(facts.own.iter()) {
        found.push(Unusual::Tree(UnusualTree { item, what: *what }))?;
    }
    Ok(())
}

/// Where its memory nodes have other addresses than the launch has RAM. A region that is there for firmware alone does not count. Regions
/// that are made for items are only parts of the memory.
fn memory_fault(
    alloc: Global,
    accepted: &AcceptedLaunch<'_>,
    facts: &TreeFacts,
) -> Result<Option<TreeFault>, NoMemory> {
    let Some(found) = &facts.memory else {
        return Ok(None);
    };
    let apart = firmware_region(accepted);
    let expected = merged(alloc, ram_ranges(alloc, accepted.launch().ram(), apart)?)?;
    if is_made_for_items(accepted) && is_within(&expected, found) {
        return Ok(None);
    }
    Ok(first_difference(found, &expected).map(|difference| TreeFault::Memory(difference)))
}

/// Where it has another place of the initrd than the launch has.
fn initrd_fault(accepted: &AcceptedLaunch<'_>, found: InitrdPlace) -> Option<TreeFault> {
    let expected = initrd_place(accepted);
    if found == expected {
        None
    } else {
        Some(TreeFault::Initrd { found, expected })
    }
}

/// The place of a launch's initrd, as an edit writes it: its address, and the end of its file's bytes.
fn initrd_place(accepted: &AcceptedLaunch<'_>) -> InitrdPlace {
    let Some(number) = number_of(accepted.launch(), Role::Initrd) else {
        return InitrdPlace::NONE;
    };
    match accepted.placed().items().get(number) {
        Some(item) => {
            let count = placed_bytes(accepted, number).len() as u64;
            InitrdPlace::of(item.address, count)
        }
        None => InitrdPlace::NONE,
    }
}

/// Where it has another number of processors than the launch has RECs. A launch without RECs has a line of its own.
fn processors_fault(launch: &Launch, found: usize) -> Option<TreeFault> {
    let expected = launch.recs().len();
    if expected == 0 || found == expected {
        None
    } else {
        Some(TreeFault::Processors { found, expected })
    }
}
