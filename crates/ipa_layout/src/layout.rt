//! Where the items of a launch are placed and with which bytes, or the first reason why they cannot be.
ghost use Rattle.std.specs.Prelude.{◌≡◌, ◌+◌, ◌<◌, ◌≤◌, length, true, None, Ok, IfOk, option_map};
ghost use Rattle.std.specs.List.{find, position_from};
ghost use Rattle.std.specs.Option.{option_and_then};
ghost use Rattle.refusal.specs.Answer.{Answers, Matches};
ghost use Rattle.rim_launch.specs.LaunchData.{has_files};
ghost use Rattle.rim_launch.specs.Kinds.{file_of, has_edits, has_role, is_below};
ghost use Rattle.ipa_layout.specs.inside.DtbEditViews.{edit_data};
ghost use Rattle.ipa_layout.specs.Layout.{address_of, bytes_of, checked_together, edited_dtb, edits_of, extent_after, extents_of, file_bytes, initrd_span, item_at, item_extent, items_at, laid_out, placed_at, places, recs_at, source_of};
ghost use Rattle.ipa_layout.specs.inside.LayoutViews.{seen};
ghost use Rattle.ipa_layout.specs.Files.{bytes_of_files};
ghost use Rattle.ipa_layout.specs.Extent.{page_count_of};
ghost use Rattle.ipa_layout.specs.declared.item_check.TheConstants.{PAGE_LIMIT};

use crate::dtb::Dtb;
use crate::dtb_edit::{DtbEdits, Span, edited};
use crate::extent::{Extent, lead};
use crate::fault::LayoutFault;
use crate::item_check::check_item;
use crate::overlap::check_all;
use crate::placed::{Placed, PlacedItem};
use crate::reason::{ItemExtent, ItemReason, LayoutReason};
use crate::rec::PlacedRec;
use refusal::NoMemory;
use rim_desc::Source;
use rim_launch::{Item, ItemKind, Launch, Rec, Region, Role};
use std::alloc::{AllocError, Global};

/// Where the items of a launch are and with which bytes, its RECs with their defaults filled in, and the
/// bytes of the edited devicetree; or the first reason why the launch cannot be laid out.
///
/// `files` are those of the release, with one for each file that the launch names
/// ([`Launch::has_files`]). A devicetree without edits is placed as its file and is not read, and
/// no file is copied. Item by item, in order, an item is refused for its kernel header or its devicetree,
/// then `Unaligned`, `KernelBase`, `Size` and `OutsideRam`; then all items together for `Overlap`, then for
/// `InitrdWindow`. `NoMemory` may come before any of them, where memory was refused.
pub fn place(alloc: Global, launch: &Launch, files: &[Vec<u8>]) -> Result<Placed, LayoutFault>
    requires { has_files launch.now (length files.now) ≡ true }
    ensures { Answers LayoutFault.NoMemory (λ p. p) result
        (places launch.now (bytes_of_files files.now)) }
{
    match place_with_reason(alloc, launch, files)? {
        Ok(placed) => Ok(placed),
        Err(reason) => Err(reason.fault()),
    }
}

/// The same, with the whole reason: which item is refused, or which two, and the numbers that the check looked at.
pub fn place_with_reason(
    alloc: Global,
    launch: &Launch,
    files: &[Vec<u8>],
) -> Result<Result<Placed, LayoutReason>, NoMemory>
    requires { has_files launch.now (length files.now) ≡ true }
    ensures { IfOk result (λ found. Matches (λ p. p) found
        (laid_out launch.now (bytes_of_files files.now))) }
{
    let dtb = prepare_dtb(alloc, launch, files)?;
    let extents = match extents_of(alloc, launch, files, &dtb)? {
        Ok(extents) => extents,
        Err(reason) => return Ok(Err(reason)),
    };
    match check_together(launch.items(), &extents) {
        Ok(()) => Ok(Ok(gather(alloc, launch, &extents, dtb.into_bytes())?)),
        Err(reason) => Ok(Err(reason)),
    }
}

/// A launch whose items have these extents.
fn gather(
    alloc: Global,
    launch: &Launch,
    extents: &[Extent],
    edited: Option<Vec<u8>>,
) -> Result<Placed, NoMemory>
    ensures { IfOk result (λ p. p
        ≡ placed_at launch.now (option_map (λ v. v.items) edited) extents.now) }
{
    let kernel = extent_at(extents, index_of(launch.items(), Role::Kernel));
    let dtb = extent_at(extents, index_of(launch.items(), Role::Dtb));
    let number = launch.number();
    let items = items_at(alloc, number, launch.items(), extents)?;
    let recs = recs_at(alloc, launch.recs(), address_of(kernel), address_of(dtb))?;
    Ok(Placed::new(number, items, recs, edited))
}

/// The bytes of an item's file; none where it has no file.
fn file_bytes<'a>(files: &'a [Vec<u8>], kind: &ItemKind) -> &'a [u8]
    requires { is_below (length files.now) (file_of kind.now) ≡ true }
    ensures { result.now ≡ file_bytes (bytes_of_files files.now) kind.now }
{
    match kind.file() {
        Some(file) => &files[file],
        None => &[],
    }
}

/// The item that is an initrd.
fn initrd_of(launch: &Launch) -> Option<&Item>
    ensures { option_map (λ i. i.now) result ≡ find (has_role Role.Initrd) launch.now.items }
{
    launch
        .items()
        .iter()
        .find(|item| item.has_role(Role::Initrd))
}

/// The addresses of an initrd's bytes.
fn initrd_span(files: &[Vec<u8>], item: &Item) -> Span
    requires { is_below (length files.now) (file_of item.now.kind) ≡ true }
    ensures { result ≡ initrd_span (bytes_of_files files.now) item.now }
{
    let len = file_bytes(files, &item.kind).len() as u64;
    Span {
        start: item.at,
        end: item.at + len,
    }
}

/// The addresses of the bytes of the launch's initrd, if it has one.
fn initrd_at(launch: &Launch, files: &[Vec<u8>]) -> Option<Span>
    requires { has_files launch.now (length files.now) ≡ true }
    ensures { result
        ≡ option_map (initrd_span (bytes_of_files files.now))
        (find (has_role Role.Initrd) launch.now.items) }
{
    let item = initrd_of(launch)?;
    Some(initrd_span(files, item))
}

/// The edits that a launch makes of its devicetree.
fn edits_of<'a>(launch: &Launch, files: &[Vec<u8>], kind: &'a ItemKind) -> DtbEdits<'a>
    requires { has_files launch.now (length files.now) ≡ true }
    ensures { edit_data result ≡ edits_of launch.now (bytes_of_files files.now) kind.now }
{
    let ItemKind::Dtb { edits, .. } = kind else {
        return DtbEdits {
            bootargs: None,
            initrd: None,
            memory: None,
        };
    };
    DtbEdits {
        bootargs: edits.bootargs.as_ref(),
        initrd: if edits.initrd {
            initrd_at(launch, files)
        } else {
            None
        },
        memory: if edits.memory {
            launch.ram().first().copied()
        } else {
            None
        },
    }
}

/// The devicetree that is to be edited, if the launch has one.
fn item_to_edit(launch: &Launch) -> Option<&Item>
    ensures { option_map (λ i. i.now) result ≡ find (λ i. has_edits i.kind) launch.now.items }
{
    launch.items().iter().find(|item| item.kind.has_edits())
}

/// What is placed of the launch's devicetree.
fn prepare_dtb(alloc: Global, launch: &Launch, files: &[Vec<u8>]) -> Result<Dtb, NoMemory>
    requires { has_files launch.now (length files.now) ≡ true }
    ensures exact { IfOk result (λ d. seen d ≡ edited_dtb launch.now (bytes_of_files files.now)) }
    // Where no devicetree is edited no memory is taken.
    ensures as_file { find (λ i. has_edits i.kind) launch.now.items ≡ None
        → result ≡ Ok Dtb.AsFile }
{
    let Some(item) = item_to_edit(launch) else {
        return Ok(Dtb::AsFile);
    };
    let edits = edits_of(launch, files, &item.kind);
    Dtb::of(edited(alloc, file_bytes(files, &item.kind), edits))
}

/// The bytes that are placed: those of an item's file, or the edited devicetree.
fn bytes_of<'a>(dtb: &'a Dtb, files: &'a [Vec<u8>], item: &Item) -> Result<&'a [u8], ItemReason>
    requires { is_below (length files.now) (file_of item.now.kind) ≡ true }
    ensures { Matches (λ b. b.now) result
        (bytes_of (seen dtb.now) (bytes_of_files files.now) item.now) }
{
    if !item.kind.has_edits() {
        return Ok(file_bytes(files, &item.kind));
    }
    match dtb {
        Dtb::Edited(bytes) => Ok(bytes.as_slice()),
        Dtb::AsFile => Ok(&[]),
        Dtb::Refused(fault) => Err(ItemReason::Edits(*fault)),
    }
}

/// The extent of an item of the launch, whose items before it have `pages_before` pages.
fn extent_after(
    ram: &[Region],
    dtb: &Dtb,
    files: &[Vec<u8>],
    pages_before: u64,
    item: &Item,
) -> Result<Extent, ItemReason>
    requires { is_below (length files.now) (file_of item.now.kind) ≡ true }
    ensures exact { result
        ≡ extent_after ram.now (seen dtb.now) (bytes_of_files files.now) pages_before item.now }
    ensures within { IfOk result (λ s. pages_before + page_count_of s.address s.size ≤ PAGE_LIMIT) }
{
    let bytes = bytes_of(dtb, files, item)?;
    check_item(ram, pages_before, item, bytes)
}

/// The extents of a launch's items, or the first item that is refused.
fn extents_of(
    alloc: Global,
    launch: &Launch,
    files: &[Vec<u8>],
    dtb: &Dtb,
) -> Result<Result<Vec<Extent>, LayoutReason>, NoMemory>
    requires { has_files launch.now (length files.now) ≡ true }
    ensures { IfOk result (λ found. Matches (λ v. v.items) found
        (extents_of launch.now.ram (seen dtb.now) (bytes_of_files files.now) 0 0
        launch.now.items)) }
{
    let mut extents = Vec::with_capacity(alloc, launch.items().len())?;
    let mut pages = 0;
    for (number, item) in launch.items().iter().enumerate() {
        let extent = match extent_after(launch.ram(), dtb, files, pages, item) {
            Ok(extent) => extent,
            Err(reason) => {
                return Ok(Err(LayoutReason::Item {
                    item: number,
                    reason,
                }));
            }
        };
        pages += extent.page_count();
        extents.push(extent)?;
    }
    Ok(Ok(extents))
}

/// The number of the first item with a role.
fn index_of(items: &[Item], role: Role) -> Option<usize>
    ensures { result ≡ position_from (has_role role) 0 items.now }
{
    items.iter().position(|item| item.has_role(role))
}

/// The item of this number with its extent, if a number is given.
fn extent_at(extents: &[Extent], index: Option<usize>) -> Option<ItemExtent>
    ensures { result ≡ option_and_then (item_extent extents.now) index }
{
    let item = index?;
    let extent = *extents.get(item)?;
    Some(ItemExtent { item, extent })
}

/// Refuses the items together.
fn check_together(items: &[Item], extents: &[Extent]) -> Result<(), LayoutReason>
    ensures { result ≡ checked_together items.now extents.now }
{
    check_all(
        extents,
        extent_at(extents, index_of(items, Role::Kernel)),
        extent_at(extents, index_of(items, Role::Initrd)),
    )
}

/// Where an item's bytes come from, if it has some.
fn source_of(launch: usize, kind: &ItemKind) -> Option<Source>
    ensures { result ≡ source_of launch kind.now }
{
    if kind.has_edits() {
        Some(Source::Edited(launch))
    } else {
        kind.file().map(|file| Source::File(file))
    }
}

/// The item at its extent.
#[tactic(auto, unfolding(crate::specs::Layout::item_at))]
fn item_at(launch: usize, item: &Item, extent: &Extent) -> PlacedItem
    ensures { result ≡ item_at launch item.now extent.now }
{
    PlacedItem {
        source: source_of(launch, &item.kind),
        address: extent.address,
        lead: lead(extent.address),
        pages: extent.page_count(),
        measured: item.measured,
    }
}

/// The items at their extents.
fn items_at(
    alloc: Global,
    launch: usize,
    items: &[Item],
    extents: &[Extent],
) -> Result<Vec<PlacedItem>, AllocError>
    ensures { IfOk result (λ v. v.items ≡ items_at launch items.now extents.now) }
{
    items
        .iter()
        .zip(extents.iter())
        .map(|(item, extent)| item_at(launch, item, extent))
        .collect(alloc)
}

/// Each REC with its defaults filled in.
fn recs_at(alloc: Global, recs: &[Rec], kernel: u64, dtb: u64) -> Result<Vec<PlacedRec>, AllocError>
    ensures { IfOk result (λ v. v.items ≡ recs_at kernel dtb recs.now) }
{
    recs.iter()
        .enumerate()
        .map(|(number, rec)| PlacedRec::filled(rec, number, kernel, dtb))
        .collect(alloc)
}

/// The address of an item, or 0 if the launch has none.
fn address_of(item: Option<ItemExtent>) -> u64
    ensures { result ≡ address_of item }
{
    item.map_or(0, |item| item.extent.address)
}
