//! Writing a tree in the flattened format.

ghost use Rattle.std.specs.Prelude.{◌≡◌, ◌+◌, ◌++◌, ◌∷◌, [], ◌≤◌, ℕ, List, length, IfOk, IfErr, OnOk, Ok, Err};
ghost use Rattle.std.specs.Int.{w32, w64, to_be_bytes};
ghost use Rattle.fdt_tree.specs.Devicetree.{property, begin_node, end_node};
ghost use Rattle.fdt_tree.specs.NodeViews.{property_data, branch};
ghost use Rattle.fdt_tree.specs.Reservations.{pair_text};
ghost use Rattle.fdt_tree.specs.Writing.{padding_after, begin_text, property_text, text_after, names_after, strings_text, reservations_text, places_text, versions_text, file_text, written};
ghost use Rattle.fdt_tree.specs.inside.NameTables.{HasNames, TooMuch};
ghost use Rattle.fdt_tree.specs.Wholeness.{IsWhole, tree_in};
ghost use Rattle.fdt_tree.specs.Reading.{Spells};
ghost use Rattle.fdt_tree.specs.inside.OutputViews.{AreLengths, HasTokens, size_of, tokens_of_properties, tokens_of_nodes};
ghost use Rattle.fdt_header.specs.declared.header.TheConstants.{HEADER_SIZE, SIZE_LIMIT};
ghost use Rattle.fdt_tree.specs.declared.reading.lexing.TheConstants.{FDT_END};

pub mod names;

use crate::node::{Node, Property};
use crate::reading::lexing::{FDT_BEGIN_NODE, FDT_END, FDT_END_NODE, FDT_PROP};
use crate::tree::{Contents, Reservation};
use crate::writing::names::NameTable;
use fdt_header::{FdtFault, HEADER_SIZE, LAST_COMP_VERSION, MAGIC, SIZE_LIMIT, VERSION};
use std::alloc::{AllocError, Global};

/// What is written so far: the structure block, and the names in it.
#[derive(Drop)]
pub struct Output {
    pub structure: Vec<u8>,
    pub names: NameTable,
}

fn put_word(out: &mut Vec<u8>, word: u32) -> Result<(), AllocError>
    ensures { OnOk result (out.new.items ≡ out.old.items ++ to_be_bytes w32 word) }
{
    out.extend_from_slice(&word.to_be_bytes())
}

/// Appends the zeros that pad `len` bytes to a multiple of 4.
fn put_padding(out: &mut Vec<u8>, len: usize) -> Result<(), AllocError>
    ensures { OnOk result (out.new.items ≡ out.old.items ++ padding_after len) }
{
    match len % 4 {
        0 => Ok(()),
        1 => out.extend_from_slice(&[0, 0, 0]),
        2 => out.extend_from_slice(&[0, 0]),
        _ => out.extend_from_slice(&[0]),
    }
}

fn put_begin(out: &mut Vec<u8>, name: &[u8]) -> Result<(), AllocError>
    ensures { OnOk result (out.new.items ≡ out.old.items ++ begin_text name.now) }
{
    put_word(out, FDT_BEGIN_NODE)?;
    out.extend_from_slice(name)?;
    out.push(0)?;
    put_padding(out, name.len() + 1)
}

fn put_text(out: &mut Vec<u8>, offset: u32, len: u32, value: &[u8]) -> Result<(), AllocError>
    requires { len ≡ length value.now }
    ensures { OnOk result (out.new.items ≡ out.old.items ++ property_text offset value.now) }
{
    put_word(out, FDT_PROP)?;
    put_word(out, len)?;
    put_word(out, offset)?;
    out.extend_from_slice(value)?;
    put_padding(out, value.len())
}

fn put_property(
    alloc: Global,
    out: &mut Output,
    strings: &[u8],
    pair: &Property,
) -> Result<(), FdtFault>
    ensures done { (names : List (List ℕ)) → HasNames strings.now out.old.names names
        → OnOk result (HasTokens strings.now out.old out.new names
        (property (property_data strings.now pair.now) ∷ [])) }
    ensures refused { (names : List (List ℕ)) → HasNames strings.now out.old.names names
        → IfErr result
        (λ e. TooMuch e (size_of names (property (property_data strings.now pair.now) ∷ []))) }
{
    let value = pair.value.as_slice();
    if value.len() > SIZE_LIMIT {
        return Err(FdtFault::TooLarge);
    }
    let offset = out.names.offset_of(alloc, strings, &pair.name)?;
    put_text(&mut out.structure, offset, value.len() as u32, value)?;
    Ok(())
}

fn put_node_begin(out: &mut Output, name: &[u8]) -> Result<(), AllocError>
    ensures { (strings : List ℕ) (names : List (List ℕ)) → HasNames strings out.old.names names
        → OnOk result (HasTokens strings out.old out.new names (begin_node name.now ∷ [])) }
{
    put_begin(&mut out.structure, name)
}

fn put_node_end(out: &mut Output) -> Result<(), AllocError>
    ensures { (strings : List ℕ) (names : List (List ℕ)) → HasNames strings out.old.names names
        → OnOk result (HasTokens strings out.old out.new names (end_node ∷ [])) }
{
    put_word(&mut out.structure, FDT_END_NODE)
}

/// Appends the token that begins a node, and its properties.
fn put_front(
    alloc: Global,
    out: &mut Output,
    strings: &[u8],
    name: &[u8],
    properties: &[Property],
) -> Result<(), FdtFault>
    ensures done { (names : List (List ℕ)) → HasNames strings.now out.old.names names
        → OnOk result (HasTokens strings.now out.old out.new names
        (begin_node name.now ∷ tokens_of_properties strings.now properties.now)) }
    ensures refused { (names : List (List ℕ)) → HasNames strings.now out.old.names names
        → IfErr result (λ e. TooMuch e (size_of names
        (begin_node name.now ∷ tokens_of_properties strings.now properties.now))) }
{
    put_node_begin(out, name)?;
    for pair in properties {
        put_property(alloc, out, strings, pair)?;
    }
    Ok(())
}

/// Appends a node with all that it holds.
fn put_node(alloc: Global, out: &mut Output, strings: &[u8], node: &Node) -> Result<(), FdtFault>
    ensures done { (names : List (List ℕ)) → HasNames strings.now out.old.names names
        → OnOk result (HasTokens strings.now out.old out.new names
        (tokens_of_nodes strings.now (node.now ∷ []))) }
    ensures refused { (names : List (List ℕ)) → HasNames strings.now out.old.names names
        → IfErr result
        (λ e. TooMuch e (size_of names (tokens_of_nodes strings.now (node.now ∷ [])))) }
{
    put_front(alloc, out, strings, &node.name, &node.properties)?;
    for child in &node.children {
        put_node(alloc, out, strings, child)?;
    }
    put_node_end(out)?;
    Ok(())
}

/// The structure block and the strings of a tree.
fn output_of(alloc: Global, strings: &[u8], root: &Node) -> Result<Output, FdtFault>
    ensures structure { IfOk result (λ o. o.structure.items
        ≡ text_after [] (tokens_of_nodes strings.now (root.now ∷ [])) ++ to_be_bytes w32 FDT_END) }
    ensures strings { IfOk result (λ o. o.names.strings.items
        ≡ strings_text (names_after [] (tokens_of_nodes strings.now (root.now ∷ [])))) }
    ensures refused { IfErr result (λ e.
        TooMuch e (size_of [] (tokens_of_nodes strings.now (root.now ∷ [])))) }
{
    let mut out = Output {
        structure: Vec::new(alloc),
        names: NameTable::new(alloc),
    };
    put_node(alloc, &mut out, strings, root)?;
    put_word(&mut out.structure, FDT_END)?;
    Ok(out)
}

fn put_double_word(out: &mut Vec<u8>, word: u64) -> Result<(), AllocError>
    ensures { OnOk result (out.new.items ≡ out.old.items ++ to_be_bytes w64 word) }
{
    out.extend_from_slice(&word.to_be_bytes())
}

fn put_pair(out: &mut Vec<u8>, pair: Reservation) -> Result<(), AllocError>
    ensures { OnOk result (out.new.items ≡ out.old.items ++ pair_text pair) }
{
    put_double_word(out, pair.address)?;
    put_double_word(out, pair.size)?;
    Ok(())
}

fn put_reservations(out: &mut Vec<u8>, reservations: &[Reservation]) -> Result<(), AllocError>
    ensures { OnOk result (out.new.items ≡ out.old.items ++ reservations_text reservations.now) }
{
    for pair in reservations {
        put_pair(out, *pair)?;
    }
    let end = Reservation {
        address: 0,
        size: 0,
    };
    put_pair(out, end)?;
    Ok(())
}

/// The length of each block, in bytes.
#[derive(Clone, Copy)]
pub struct Lengths {
    pub reserve: u32,
    pub structure: u32,
    pub strings: u32,
}

/// Appends the magic number, the whole length, and where the blocks begin.
fn put_places(out: &mut Vec<u8>, lengths: Lengths) -> Result<(), AllocError>
    requires { HEADER_SIZE + lengths.reserve + lengths.structure + lengths.strings ≤ SIZE_LIMIT }
    ensures { OnOk result (out.new.items ≡ out.old.items
        ++ places_text lengths.reserve lengths.structure lengths.strings) }
{
    let structure_at = HEADER_SIZE as u32 + lengths.reserve;
    let strings_at = structure_at + lengths.structure;
    put_word(out, MAGIC)?;
    put_word(out, strings_at + lengths.strings)?;
    put_word(out, structure_at)?;
    put_word(out, strings_at)?;
    put_word(out, HEADER_SIZE as u32)?;
    Ok(())
}

/// Appends the versions, the processor that boots, and the lengths of blocks.
fn put_versions(out: &mut Vec<u8>, lengths: Lengths, boot_cpu: u32) -> Result<(), AllocError>
    ensures { OnOk result (out.new.items ≡ out.old.items
        ++ versions_text lengths.structure lengths.strings boot_cpu) }
{
    put_word(out, VERSION)?;
    put_word(out, LAST_COMP_VERSION)?;
    put_word(out, boot_cpu)?;
    put_word(out, lengths.strings)?;
    put_word(out, lengths.structure)?;
    Ok(())
}

/// The length of each block, unless the file would be too long.
fn lengths_of(reservations: &[Reservation], out: &Output) -> Result<Lengths, FdtFault>
    ensures lengths { IfOk result (λ l. AreLengths l (length (reservations_text reservations.now))
        (length out.now.structure.items) (length out.now.names.strings.items)) }
    ensures refused { IfErr result (λ e. TooMuch e (HEADER_SIZE + length
        (reservations_text reservations.now) + length out.now.structure.items + length
        out.now.names.strings.items)) }
{
    let reserve = reservations.len().saturating_mul(16).saturating_add(16);
    let structure = out.structure.len();
    let strings = out.names.strings.len();
    let total = reserve
        .saturating_add(HEADER_SIZE)
        .saturating_add(structure)
        .saturating_add(strings);
    if total > SIZE_LIMIT {
        return Err(FdtFault::TooLarge);
    }
    Ok(Lengths {
        reserve: reserve as u32,
        structure: structure as u32,
        strings: strings as u32,
    })
}

/// The file of these blocks.
fn assembled(
    alloc: Global,
    boot_cpu: u32,
    reservations: &[Reservation],
    out: &Output,
) -> Result<Vec<u8>, FdtFault>
    ensures done { IfOk result (λ v. v.items
        ≡ file_text boot_cpu (reservations_text reservations.now) out.now.structure.items
        out.now.names.strings.items) }
    ensures within { IfOk result (λ v. length v.items ≤ SIZE_LIMIT) }
    ensures refused { IfErr result (λ e. TooMuch e (length (file_text boot_cpu
        (reservations_text reservations.now) out.now.structure.items
        out.now.names.strings.items))) }
{
    let lengths = lengths_of(reservations, out)?;
    let mut file = Vec::new(alloc);
    put_places(&mut file, lengths)?;
    put_versions(&mut file, lengths, boot_cpu)?;
    put_reservations(&mut file, reservations)?;
    file.extend_from_slice(&out.structure)?;
    file.extend_from_slice(&out.names.strings)?;
    Ok(file)
}

/// The file of what a tree holds.
pub fn written(alloc: Global, contents: &Contents) -> Result<Vec<u8>, FdtFault>
    requires whole { IsWhole (tree_in contents.now) }
    requires unnamed { (branch contents.now.strings.items contents.now.root).name ≡ [] }
    ensures done { IfOk result (λ v. v.items ≡ written (tree_in contents.now)) }
    ensures again { IfOk result (λ v. (z : List ℕ) → length (v.items ++ z) ≤ SIZE_LIMIT
        → Spells (v.items ++ z) (tree_in contents.now)) }
    ensures within { IfOk result (λ v. length v.items ≤ SIZE_LIMIT) }
    ensures refused { IfErr result (λ e. TooMuch e (length (written (tree_in contents.now)))) }
{
    let out = output_of(alloc, &contents.strings, &contents.root)?;
    assembled(alloc, contents.boot_cpu, &contents.reservations, &out)
}
