//! The address space of a launch in lines: its RAM, the items in it, and the addresses of none. What it says of the launch is tested alone.
use crate::columns::{Lines, Size, push_name, push_path, room_after, written};
use map_rows::{Row, Shown, Stretch, path_of};
use refusal::NoMemory;
use rim_launch::{Item, Launch, Region};
use rim_rules::kind::kind_word;
use shown_text::Line;
use std::alloc::{AllocError, Global};
use std::fmt;
use std::fmt::Write;

/// Adds the lines of a launch whose items have these places.
pub fn push_space(
    alloc: Global,
    text: &mut Lines,
    shown: Shown<'_>,
    rows: &[Row],
) -> Result<(), NoMemory> {
    let rising = rising_rows(alloc, rows)?;
    push_regions(alloc, text, shown, &rising)?;
    push_outside(alloc, text, shown, &rising)
}

/// Adds the lines of the RAM of a launch, rising, with the items in it.
fn push_regions(
    alloc: Global,
    text: &mut Lines,
    shown: Shown<'_>,
    rising: &[Row],
) -> Result<(), NoMemory> {
    let regions = rising_regions(alloc, shown.launch.launch())?;
    let mut before = None;
    for region in &regions {
        before = push_next(alloc, text, before, region)?;
        push_inside(alloc, text, shown, region, rising)?;
    }
    Ok(())
}

/// Adds the items that are in no region.
fn push_outside(
    alloc: Global,
    text: &mut Lines,
    shown: Shown<'_>,
    rising: &[Row],
) -> Result<(), NoMemory> {
    for row in rising {
        if !is_in_ram(shown.launch.launch(), row) {
            push_row(alloc, text, shown, row)?;
        }
    }
    Ok(())
}

/// Whether an item is in some region.
fn is_in_ram(launch: &Launch, row: &Row) -> bool {
    launch.ram().iter().any(|region| meets(region, row))
}

/// Adds the lines of the RAM of a launch, rising.
pub fn push_ram(alloc: Global, text: &mut Lines, launch: &Launch) -> Result<(), NoMemory> {
    let regions = rising_regions(alloc, launch)?;
    let mut before = None;
    for region in &regions {
        before = push_next(alloc, text, before, region)?;
    }
    Ok(())
}

/// Adds a region, after the addresses between it and those before it. It answers where all end.
fn push_next(
    alloc: Global,
    text: &mut Lines,
    before: Option<u64>,
    region: &Region,
) -> Result<Option<u64>, NoMemory> {
    let end = push_between(alloc, text, before, region)?;
    push_region(alloc, text, region)?;
    Ok(end)
}

/// The rows by the addresses of their pages.
fn rising_rows(alloc: Global, rows: &[Row]) -> Result<Vec<Row>, NoMemory> {
    let mut rising = Vec::from_slice(alloc, rows)?;
    rising.sort_by_key(|row| row.base)?;
    Ok(rising)
}

/// The regions by their addresses.
fn rising_regions(alloc: Global, launch: &Launch) -> Result<Vec<Region>, NoMemory> {
    let mut rising = Vec::from_slice(alloc, launch.ram())?;
    rising.sort_by_key(|region| region.base)?;
    Ok(rising)
}

/// Adds the addresses between a region and those before it, which end at an address, if there are any. It answers where all end.
fn push_between(
    alloc: Global,
    text: &mut Lines,
    before: Option<u64>,
    region: &Region,
) -> Result<Option<u64>, NoMemory> {
    let Some(end) = before else {
        return Ok(Some(region.end));
    };
    if end < region.base {
        let between = Stretch {
            base: end,
            end: region.base,
        };
        push_stretch(alloc, text, "no RAM", between)?;
    }
    Ok(Some(end.max(region.end)))
}

/// Adds the line of a region.
fn push_region(alloc: Global, text: &mut Lines, region: &Region) -> Result<(), NoMemory> {
    let Region { base, end } = *region;
    push_stretch(alloc, text, "RAM", Stretch { base, end })
}

/// Adds a line about a stretch of addresses.
fn push_stretch(
    alloc: Global,
    text: &mut Lines,
    what: &str,
    stretch: Stretch,
) -> Result<(), NoMemory> {
    let Stretch { base, end } = stretch;
    let size = Size(end.saturating_sub(base));
    let mut line = Line::new(alloc);
    written(write!(line, "{what} {base:#x} to {end:#x}: {size}"))?;
    text.push(&line)
}

/// Whether an item has pages in a region, or is there without pages.
fn meets(region: &Region, row: &Row) -> bool {
    let begins = row.base >= region.base && row.base < region.end;
    begins || (row.base < region.base && row.top > region.base)
}

/// Adds the items of a region, and the addresses of no item.
fn push_inside(
    alloc: Global,
    text: &mut Lines,
    shown: Shown<'_>,
    region: &Region,
    rising: &[Row],
) -> Result<(), NoMemory> {
    let mut at = region.base;
    for row in rising.iter().filter(|row| meets(region, row)) {
        push_no_item(alloc, text, at, row.base)?;
        push_part(alloc, text, shown, region, row)?;
        at = at.max(row.top);
    }
    push_no_item(alloc, text, at, region.end)
}

/// Adds an item that is in a region: its lines, or that its rest is here where it began in a region before.
fn push_part(
    alloc: Global,
    text: &mut Lines,
    shown: Shown<'_>,
    region: &Region,
    row: &Row,
) -> Result<(), NoMemory> {
    if row.base < region.base {
        push_rest(alloc, text, shown, row)
    } else {
        push_row(alloc, text, shown, row)
    }
}

/// Adds the addresses of no item from one on and below another, if there are any.
fn push_no_item(alloc: Global, text: &mut Lines, base: u64, end: u64) -> Result<(), NoMemory> {
    if base < end {
        push_stretch(alloc, text, "  no item", Stretch { base, end })?;
    }
    Ok(())
}

/// Adds the line of an item that began in a region before.
fn push_rest(alloc: Global, text: &mut Lines, shown: Shown<'_>, row: &Row) -> Result<(), NoMemory> {
    let top = row.top;
    let mut line = Line::new(alloc);
    written(write!(line, "  to {top:#x} the pages of "))?;
    push_named(alloc, text, &mut line, shown.launch.item_name(row.number))
}

/// Adds a line with a name at its end, as far as that has room.
fn push_named(
    alloc: Global,
    text: &mut Lines,
    line: &mut Line,
    name: &str,
) -> Result<(), NoMemory> {
    let room = room_after(line);
    push_name(alloc, line, name, room)?;
    text.push(line)
}

/// Adds the two lines of an item.
fn push_row(alloc: Global, text: &mut Lines, shown: Shown<'_>, row: &Row) -> Result<(), NoMemory> {
    let Some(item) = shown.launch.launch().items().get(row.number) else {
        return Ok(());
    };
    push_bytes(alloc, text, shown, item, row)?;
    push_numbers(alloc, text, shown, item, row)
}

/// Adds the line that says at which addresses the bytes of an item are.
fn push_bytes(
    alloc: Global,
    text: &mut Lines,
    shown: Shown<'_>,
    item: &Item,
    row: &Row,
) -> Result<(), NoMemory> {
    let kind = kind_word(item.kind.role());
    let address = row.item.address;
    let end = row.end;
    let mut line = Line::new(alloc);
    written(write!(line, "  {address:#x} to {end:#x} {kind} "))?;
    push_named(alloc, text, &mut line, shown.launch.item_name(row.number))
}

/// Adds the line that says how large an item is, and where its bytes come from.
fn push_numbers(
    alloc: Global,
    text: &mut Lines,
    shown: Shown<'_>,
    item: &Item,
    row: &Row,
) -> Result<(), NoMemory> {
    let mut rest = Line::new(alloc);
    written(write_numbers(&mut rest, item, row))?;
    push_source(alloc, text, shown, item, &rest)
}

/// How many bytes and pages an item has, and what is measured of it.
fn write_numbers(line: &mut Line, item: &Item, row: &Row) -> fmt::Result {
    let bytes = row.bytes;
    let pages = row.item.pages;
    let lead = row.item.lead;
    let byte_ending = ending_of(bytes);
    let page_ending = ending_of(pages);
    write!(line, "{bytes} byte{byte_ending}, {pages} page{page_ending}")?;
    if lead > 0 {
        write!(line, ", lead {lead}")?;
    }
    line.write_str(measured_words(item))
}

/// How a word ends that says of what there are this many.
fn ending_of(count: u64) -> &'static str {
    if count == 1 { "" } else { "s" }
}

/// What is measured of an item.
fn measured_words(item: &Item) -> &'static str {
    match (item.kind.file(), item.measured) {
        (None, _) => ", content unknown",
        (Some(_), true) => ", measured",
        (Some(_), false) => ", not measured",
    }
}

/// Adds the line that says where an item's bytes come from, and what else there is to say.
fn push_source(
    alloc: Global,
    text: &mut Lines,
    shown: Shown<'_>,
    item: &Item,
    rest: &Line,
) -> Result<(), NoMemory> {
    let mut line = Line::new(alloc);
    write_source(alloc, &mut line, shown, item, rest)?;
    text.push(&line)
}

fn write_source(
    alloc: Global,
    line: &mut Line,
    shown: Shown<'_>,
    item: &Item,
    rest: &Line,
) -> Result<(), AllocError> {
    line.push_text("    ")?;
    if let Some(path) = path_of(shown.release, item) {
        let words = if item.kind.has_edits() {
            ", edited: "
        } else {
            ": "
        };
        write_path(alloc, line, path, words, rest.as_slice().len())?;
    }
    line.append(rest)
}

/// Adds the path of an item and words after it, in a line with this many more bytes.
fn write_path(
    alloc: Global,
    line: &mut Line,
    path: &str,
    words: &str,
    more: usize,
) -> Result<(), AllocError> {
    let room = room_after(line)
        .saturating_sub(more)
        .saturating_sub(words.len());
    push_path(alloc, line, path, room)?;
    line.push_text(words)
}

/// Adds the items as the manifest states them, by their addresses there.
pub fn push_stated(alloc: Global, text: &mut Lines, shown: Shown<'_>) -> Result<(), NoMemory> {
    let rising = rising_stated(alloc, shown.launch.launch())?;
    for (_, number) in &rising {
        if let Some(item) = shown.launch.launch().items().get(*number) {
            push_item(alloc, text, shown, *number, item)?;
        }
    }
    Ok(())
}

/// The addresses and numbers of the items, by the addresses that the manifest states.
fn rising_stated(alloc: Global, launch: &Launch) -> Result<Vec<(u64, usize)>, NoMemory> {
    let mut rising = stated_places(alloc, launch)?;
    rising.sort_by_key(|place| place.0)?;
    Ok(rising)
}

/// The addresses and numbers of the items, in the launch's order.
fn stated_places(alloc: Global, launch: &Launch) -> Result<Vec<(u64, usize)>, AllocError> {
    let mut places = Vec::new(alloc);
    for (number, item) in launch.items().iter().enumerate() {
        places.push((item.at, number))?;
    }
    Ok(places)
}

/// Adds the two lines of an item as the manifest states it.
fn push_item(
    alloc: Global,
    text: &mut Lines,
    shown: Shown<'_>,
    number: usize,
    item: &Item,
) -> Result<(), NoMemory> {
    push_address(alloc, text, shown, number, item)?;
    push_size(alloc, text, shown, item)
}

/// Adds the line that says at which address an item is stated.
fn push_address(
    alloc: Global,
    text: &mut Lines,
    shown: Shown<'_>,
    number: usize,
    item: &Item,
) -> Result<(), NoMemory> {
    let kind = kind_word(item.kind.role());
    let at = item.at;
    let mut line = Line::new(alloc);
    written(write!(line, "  at {at:#x} {kind} "))?;
    push_named(alloc, text, &mut line, shown.launch.item_name(number))
}

/// Adds the line that says which size is stated of an item, and where its bytes come from.
fn push_size(
    alloc: Global,
    text: &mut Lines,
    shown: Shown<'_>,
    item: &Item,
) -> Result<(), NoMemory> {
    let mut rest = Line::new(alloc);
    written(write_size(&mut rest, item))?;
    push_source(alloc, text, shown, item, &rest)
}

/// How many bytes of an item are stated, and what is measured of it.
fn write_size(line: &mut Line, item: &Item) -> fmt::Result {
    match item.size {
        Some(size) => write!(line, "size {size}")?,
        None => line.write_str("all of its bytes")?,
    }
    line.write_str(measured_words(item))
}
