//! A launch that begins with firmware: what it enters is no kernel, but raw bytes. Hypervisors copy firmware to where a plain guest has
//! flash, or to the start of RAM. What it boots is not measured by the launch.
use crate::items::{has_role, number_of};
use ipa_layout::PlacedItem;
use rim_accepted::AcceptedLaunch;
use rim_launch::{Region, Role};

/// How many bytes a page has.
const PAGE: u64 = 4096;

/// The firmware of a launch, as it is placed, if the launch has some: it has no kernel, and REC 0 enters measured bytes of a raw item.
pub(crate) fn firmware(accepted: &AcceptedLaunch<'_>) -> Option<PlacedItem> {
    if has_role(accepted.launch().items(), Role::Kernel) {
        return None;
    }
    let entry = accepted.placed().recs().first()?.pc;
    let (_, placed) = accepted
        .launch()
        .items()
        .iter()
        .zip(accepted.placed().items().iter())
        .find(|(item, placed)| item.has_role(Role::Raw)
            && placed.measured
            && holds(placed, entry))?;
    Some(*placed)
}

/// The region of RAM that a launch has for its firmware alone, if it has one: no devicetree is there. A plain guest has flash in its place,
/// so a devicetree has no memory node for it.
pub(crate) fn firmware_region(accepted: &AcceptedLaunch<'_>) -> Option<Region> {
    let firmware = firmware(accepted)?;
    let tree = placed_tree(accepted);
    accepted.launch().ram().iter().copied().find(|region| is_in(region, firmware.address)
        && !tree.is_some_and(|tree| is_in(region, tree)))
}

/// The address of a launch's devicetree, if it has one.
fn placed_tree(accepted: &AcceptedLaunch<'_>) -> Option<u64> {
    let number = number_of(accepted.launch(), Role::Dtb)?;
    Some(accepted.placed().items().get(number)?.address)
}

/// Whether an address is one of an item's, from its first byte to the end of its last page.
fn holds(item: &PlacedItem, address: u64) -> bool {
    let before = address.saturating_sub(item.address);
    address >= item.address && before.saturating_add(item.lead) < item.pages.saturating_mul(PAGE)
}

fn is_in(region: &Region, address: u64) -> bool {
    region.base <= address && address < region.end
}
