//! RAM that is rarely meant: a region that is not of whole MiB, and an end where a size was meant.
use crate::firmware::firmware_region;
use crate::unusual::Unusual;
use ipa_layout::PlacedItem;
use refusal::NoMemory;
use rim_accepted::AcceptedLaunch;
use rim_launch::{Launch, Region, Role};
use rmm_model::protected_end;
use shown_text::Remark;
use std::fmt;
use std::fmt::Write;

const MIB: u64 = 1 << 20;

const GIB: u64 = 1 << 30;

/// Size of a page, in bytes.
const PAGE: u64 = 4096;

/// Size of the largest page of a host, in bytes.
const LARGEST_HOST_PAGE: u64 = 65_536;

/// The lowest end that is taken for a size: 2 GiB.
const LEAST_SIZE: u64 = 2 * GIB;

/// What is rarely meant of a region of RAM.
#[derive(Clone, Copy)]
pub enum UnusualRam {
    /// Its size is not a whole number of MiB, and it is not there for firmware alone.
    Uneven { number: usize, region: Region },
    /// The end of the first one is as a size would be, and from its base on that size ends at `expected`.
    SizeAsEnd { region: Region, expected: u64 },
}

impl UnusualRam {
    /// Adds it to its warning.
    pub(crate) fn write_to(&self, remark: &mut Remark) -> fmt::Result {
        match *self {
            UnusualRam::Uneven { number, region } => {
                let Region { base, end } = region;
                let size = size_of(&region);
                write!(
                    remark.given,
                    "ram {number} from {base:#x} to {end:#x} has {size:#x} bytes"
                )?;
                write!(remark.expected, "a whole number of MiB")
            }
            UnusualRam::SizeAsEnd { region, expected } => {
                let Region { base, end } = region;
                let size = Size(size_of(&region));
                let meant = Size(end);
                write!(remark.given, "ram 0 from {base:#x} to {end:#x} has {size}")?;
                write!(remark.expected, "the end {expected:#x} for {meant}")
            }
        }
    }
}

/// How many bytes there are, in GiB or in MiB where they are whole ones.
#[derive(Clone, Copy)]
struct Size(u64);

impl fmt::Display for Size {
    fn fmt<W: fmt::Write>(&self, f: &mut fmt::Formatter<W>) -> fmt::Result {
        let Size(bytes) = *self;
        let gib = bytes / GIB;
        let mib = bytes / MIB;
        if bytes % GIB == 0 {
            write!(f, "{gib} GiB")
        } else if bytes % MIB == 0 {
            write!(f, "{mib} MiB")
        } else {
            write!(f, "{bytes:#x} bytes")
        }
    }
}

/// Adds what is rarely meant of the regions of a launch. Regions that are made for items have the sizes of these.
pub(crate) fn find_in_ram<'a>(
    found: &mut Vec<Unusual<'a>>,
    accepted: &AcceptedLaunch<'_>,
) -> Result<(), NoMemory> {
    let apart = firmware_region(accepted);
    let of_items = is_made_for_items(accepted);
    for (number, region) in accepted.launch().ram().iter().copied().enumerate() {
        if size_of(&region) % MIB != 0 && apart != Some(region) && !of_items {
            found.push(Unusual::Ram(UnusualRam::Uneven { number, region }))?;
        }
    }
    if let Some(unusual) = size_as_end(accepted.launch()) {
        found.push(Unusual::Ram(unusual))?;
    }
    Ok(())
}

/// Returns whether there are several regions, each made for an item in whole pages of the host. A region at the end of another one is for
/// the zeros after a kernel.
pub(crate) fn is_made_for_items(accepted: &AcceptedLaunch<'_>) -> bool {
    let ram = accepted.launch().ram();
    ram.len() > 1
        && ram.iter().all(|region| {
            is_for_item(accepted, region) || ram.iter().any(|other| other.end == region.base)
        })
}

/// Returns whether a region is that of some item. That of a kernel may go on after its bytes.
fn is_for_item(accepted: &AcceptedLaunch<'_>, region: &Region) -> bool {
    accepted
        .launch()
        .items()
        .iter()
        .zip(accepted.placed().items().iter())
        .any(|(item, placed)| {
            is_near(region.base, placed.address)
                && (item.has_role(Role::Kernel) || is_near(end_of(placed), region.end))
        })
}

/// The end of an item's last page.
fn end_of(item: &PlacedItem) -> u64 {
    let start = item.address.saturating_sub(item.lead);
    start.saturating_add(item.pages.saturating_mul(PAGE))
}

/// Returns whether an address is another one or after it in a page of the host.
fn is_near(low: u64, high: u64) -> bool {
    low <= high && high.saturating_sub(low) < LARGEST_HOST_PAGE
}

/// How many bytes a region has.
fn size_of(region: &Region) -> u64 {
    region.end - region.base
}

/// The first region, where its end was probably meant as its size: the end is 2 GiB or a higher power of two, the base is
/// not 0, and the size is neither a power of two nor a whole number of GiB, such as the 3 GiB from 1 GiB on. Nothing is said
/// where another region begins at that end, or where a region of the size that was probably meant would end above the
/// protected half.
fn size_as_end(launch: &Launch) -> Option<UnusualRam> {
    let region = *launch.ram().first()?;
    let expected = region.base + region.end;
    let is_size = region.end >= LEAST_SIZE && region.end.is_power_of_two() && region.base != 0;
    let goes_on = launch.ram().iter().any(|other| other.base == region.end);
    let fits = expected <= protected_end(launch.config().s2sz);
    let size = size_of(&region);
    let is_usual = size.is_power_of_two() || size % GIB == 0;
    if is_size && !is_usual && !goes_on && fits {
        Some(UnusualRam::SizeAsEnd { region, expected })
    } else {
        None
    }
}
