//! The items of a launch as they are placed, with the addresses of their bytes and of their pages.
ghost use Rattle.std.specs.Prelude.{◌≡◌, IfOk};
ghost use Rattle.ipa_layout.specs.Files.{bytes_of_files};
ghost use Rattle.map_rows.specs.Rows.{item_bytes, row_of, rows_of};

use crate::numbers::sum;
use ipa_layout::{Placed, PlacedItem, Source};
use refusal::NoMemory;
use rim_desc::GRANULE_SIZE;
use rim_launch::{Item, Launch};
use std::alloc::Global;

/// An item that has its place.
#[derive(Clone, Copy)]
pub struct Row {
    /// Its number in the launch.
    pub number: usize,
    pub item: PlacedItem,
    /// The address of its first page.
    pub base: u64,
    /// The first address after its last page.
    pub top: u64,
    /// How many bytes it has: as many as the launch states, or else those of its file or of the edited devicetree.
    pub bytes: u64,
    /// The first address after them.
    pub end: u64,
}

/// The items of a launch that has its place, in the launch's order.
pub fn item_rows(
    alloc: Global,
    launch: &Launch,
    files: &[Vec<u8>],
    placed: &Placed,
) -> Result<Vec<Row>, NoMemory>
    ensures { IfOk result
        (λ rows. rows.items ≡ rows_of launch.now (bytes_of_files files.now) placed.now) }
{
    let mut rows = Vec::with_capacity(alloc, launch.items().len())?;
    for (item, place) in launch.items().iter().zip(placed.items().iter()) {
        let row = place_item(files, placed, rows.len(), item, place)?;
        rows.push(row)?;
    }
    Ok(rows)
}

/// The item of a number at its place.
#[tactic(auto, unfolding(crate::specs::Rows::row_of))]
fn place_item(
    files: &[Vec<u8>],
    placed: &Placed,
    number: usize,
    item: &Item,
    place: &PlacedItem,
) -> Result<Row, NoMemory>
    ensures { IfOk result
        (λ row. row ≡ row_of (bytes_of_files files.now) placed.now number item.now place.now) }
{
    let base = place.address.saturating_sub(place.lead);
    let bytes = byte_count(files, placed, item, place.source);
    let pages = place.pages.checked_mul(GRANULE_SIZE).ok_or(NoMemory)?;
    Ok(Row {
        number,
        item: *place,
        base,
        top: sum(base, pages)?,
        bytes,
        end: sum(place.address, bytes)?,
    })
}

/// How many bytes an item has, whose bytes come from this source.
fn byte_count(files: &[Vec<u8>], placed: &Placed, item: &Item, source: Option<Source>) -> u64
    ensures { result ≡ item_bytes (bytes_of_files files.now) placed.now item.now source }
{
    match (item.size, source) {
        (Some(size), _) => size,
        (None, Some(source)) => placed.bytes(files, source).len() as u64,
        (None, None) => 0,
    }
}
