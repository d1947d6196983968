//! What helps to mend a launch that is refused, beside the reason. That it is true of the launch is tested alone.

use file_front::{DevicetreeFront, KernelFront, front_of};
use ipa_layout::{Extent, IpaRange, ItemReason, LayoutReason};
use rim_accepted::LaunchReason;
use rim_desc::GRANULE_SIZE;
use rim_hints::Part;
use rim_launch::{Launch, Region};
use rmi_list::{ListReason, StepReason};
use rmm_model::{LEAST_WIDTH, MOST_WIDTH, is_width, protected_end};
use rtt_plan::PlanFault;
use shown_text::Joint;
use std::fmt;

/// How many regions of RAM are shown.
const MOST_REGIONS: usize = 3;

/// What helps to mend a launch. Nothing is printed where nothing is known.
#[derive(Clone, Copy)]
pub(crate) enum Mending<'a> {
    Nothing,
    /// What the file of its kernel is.
    Kernel(KernelFront),
    /// What the file of its devicetree is, or what is wrong with it.
    Devicetree(DevicetreeFront<'a>),
    /// Which RAM there is.
    Ram(&'a [Region]),
    /// The width of an IPA that is given, and the least one that holds all RAM, if one does.
    Width { given: u8, least: Option<u8> },
    /// How many granules of the pool it takes in all.
    Granules(u64),
    /// Two items share no byte, but this page, after which the next one begins here.
    SharedPage { page: u64, next: u64 },
    /// What a region begins and ends at a multiple of.
    WholePages,
    /// The number of the REC that comes next.
    NextRec(usize),
    /// The number of the region that comes later and has the item.
    LaterRam(usize),
}

impl Mending<'_> {
    /// How a line joins it to the reason: of a devicetree it says why that holds.
    pub(crate) fn joint(&self) -> Joint {
        match self {
            Mending::Devicetree(_) => Joint::Colon,
            _ => Joint::Semicolon,
        }
    }
}

impl fmt::Display for Mending<'_> {
    fn fmt<W: fmt::Write>(&self, f: &mut fmt::Formatter<W>) -> fmt::Result {
        match *self {
            Mending::Nothing => Ok(()),
            Mending::Kernel(front) => write!(f, "{front}"),
            Mending::Devicetree(front) => write!(f, "{front}"),
            Mending::Ram(regions) => write_ram(f, regions),
            Mending::Width {
                given,
                least: Some(least),
            } => write!(
                f,
                "s2sz is {given}, and {least} is the least that holds the RAM"
            ),
            Mending::Width { given, least: None } => write!(
                f,
                "s2sz is {given}, and none holds the RAM: the most is {MOST_WIDTH}"
            ),
            Mending::Granules(count) => write!(f, "the launch takes {count} in all"),
            Mending::SharedPage { page, next } => write!(
                f,
                "both have bytes in the page {page:#x}, and the next one begins at {next:#x}"
            ),
            Mending::WholePages => write!(
                f,
                "a region is from a multiple of {GRANULE_SIZE:#x} to another"
            ),
            Mending::NextRec(number) => {
                let next = Part::Rec(number);
                write!(f, "\"{next}\" comes next")
            }
            Mending::LaterRam(number) => {
                let later = Part::Ram(number);
                write!(f, "the step \"{later}\" has it, and comes later")
            }
        }
    }
}

/// Writes which RAM there is: some regions, and how many others.
fn write_ram<W: fmt::Write>(f: &mut fmt::Formatter<W>, regions: &[Region]) -> fmt::Result {
    if regions.is_empty() {
        return f.write_str("the launch has no ram");
    }
    f.write_str("ram is ")?;
    for (number, region) in regions.iter().take(MOST_REGIONS).enumerate() {
        let comma = if number == 0 { "" } else { ", " };
        let Region { base, end } = *region;
        write!(f, "{comma}{base:#x} to {end:#x}")?;
    }
    match regions.len().saturating_sub(MOST_REGIONS) {
        0 => Ok(()),
        1 => f.write_str(" and 1 other region"),
        others => write!(f, " and {others} other regions"),
    }
}

/// What helps to mend a launch that is refused for a reason.
pub(crate) fn mending_of<'a>(
    launch: &'a Launch,
    files: &'a [Vec<u8>],
    reason: &LaunchReason,
) -> Mending<'a> {
    match reason {
        LaunchReason::Layout(reason) => layout_mending(launch, files, reason),
        LaunchReason::List {
            granules: Some(count),
            ..
        } => Mending::Granules(*count),
        LaunchReason::List { reason, .. } => list_mending(launch, reason),
    }
}

/// What helps to mend a launch that cannot be laid out.
fn layout_mending<'a>(
    launch: &'a Launch,
    files: &'a [Vec<u8>],
    reason: &LayoutReason,
) -> Mending<'a> {
    match reason {
        LayoutReason::Item { item, reason } => item_mending(launch, files, *item, reason),
        LayoutReason::Overlap { first, second } => page_mending(first.extent, second.extent),
        LayoutReason::InitrdWindow { .. } => Mending::Nothing,
    }
}

/// What helps to mend a launch that has no list of commands, where the granules that it takes are not known.
fn list_mending<'a>(launch: &'a Launch, reason: &ListReason) -> Mending<'a> {
    match reason {
        ListReason::Step { reason, .. } => step_mending(launch, reason),
        ListReason::Opening | ListReason::TooManyRecs { .. } => Mending::Nothing,
    }
}

/// What helps to mend an item.
fn item_mending<'a>(
    launch: &'a Launch,
    files: &'a [Vec<u8>],
    item: usize,
    reason: &ItemReason,
) -> Mending<'a> {
    match reason {
        ItemReason::Kernel { .. } => match front_of(file_of(launch, files, item)) {
            Some(front) => Mending::Kernel(front),
            None => Mending::Nothing,
        },
        ItemReason::Edits(fault) => Mending::Devicetree(DevicetreeFront {
            bytes: file_of(launch, files, item),
            fault: *fault,
        }),
        ItemReason::OutsideRam { .. } => Mending::Ram(launch.ram()),
        _ => Mending::Nothing,
    }
}

/// What helps where two items overlap: the page that they share, if they have no byte in common.
fn page_mending<'a>(one: Extent, other: Extent) -> Mending<'a> {
    let (low, high) = if one.address <= other.address {
        (one, other)
    } else {
        (other, one)
    };
    if low.len > high.address - low.address {
        return Mending::Nothing;
    }
    let page = high.address - high.address % GRANULE_SIZE;
    match page.checked_add(GRANULE_SIZE) {
        Some(next) => Mending::SharedPage { page, next },
        None => Mending::Nothing,
    }
}

/// The bytes of the file of an item; none where it has no file.
fn file_of<'a>(launch: &Launch, files: &'a [Vec<u8>], item: usize) -> &'a [u8] {
    let number = launch.items().get(item).and_then(|item| item.kind.file());
    match number.and_then(|number| files.get(number)) {
        Some(bytes) => bytes.as_slice(),
        None => &[],
    }
}

/// What helps to mend a step.
fn step_mending<'a>(launch: &'a Launch, reason: &StepReason) -> Mending<'a> {
    match reason {
        StepReason::Plan {
            fault: PlanFault::OutsideProtected,
            ..
        } => Mending::Width {
            given: launch.config().s2sz,
            least: least_width(launch.ram()),
        },
        StepReason::Plan {
            fault: PlanFault::NotRam,
            range,
        } => ram_mending(launch.ram(), *range),
        StepReason::Plan {
            fault: PlanFault::Unaligned,
            ..
        } => Mending::WholePages,
        StepReason::RecOrder { listed } => Mending::NextRec(*listed),
        _ => Mending::Nothing,
    }
}

/// What helps where an item is not in RAM yet: the region that has it.
fn ram_mending<'a>(regions: &[Region], range: IpaRange) -> Mending<'a> {
    let own = regions.iter().position(|region| {
        u128::from(region.base) <= range.base && range.end <= u128::from(region.end)
    });
    match own {
        Some(number) => Mending::LaterRam(number),
        None => Mending::Nothing,
    }
}

/// The least width of an IPA whose protected half holds these regions.
fn least_width(regions: &[Region]) -> Option<u8> {
    let mut top = 0;
    for region in regions {
        top = region.end.max(top);
    }
    (LEAST_WIDTH..=MOST_WIDTH).find(|width| is_width(*width) && top <= protected_end(*width))
}
