//! Reading one token of the structure block.

ghost use Rattle.std.specs.Prelude.{◌≡◌, ◌<◌, ◌≤◌, List, length, IfOk, IfSome};
ghost use Rattle.fdt_tree.specs.Devicetree.{begin_node};
ghost use Rattle.fdt_tree.specs.Names.{legal};
ghost use Rattle.refusal.specs.Answer.{Matches};
ghost use Rattle.fdt_tree.specs.inside.TokenViews.{as_token, FitsPlace};
ghost use Rattle.fdt_tree.specs.Scanning.{number_at, padded_at, string_at, until_zero, begin_at, property_at, kind_at, token_at};

use crate::reading::place::Place;
use crate::reading::strings::{Strings, is_name_character};
use fdt_header::FdtFault;

/// The most nodes from the root to a node, both counted: 64. This project's choice.
pub const DEPTH_LIMIT: usize = 64;

/// The number of a token that begins a node (Devicetree Specification 0.4, section 5.4.1, as are the next four).
pub const FDT_BEGIN_NODE: u32 = 1;

pub const FDT_END_NODE: u32 = 2;

pub const FDT_PROP: u32 = 3;

pub const FDT_NOP: u32 = 4;

pub const FDT_END: u32 = 9;

/// A token. A node's name and a value are borrowed from the block; a property's name is a range of the
/// strings.
#[derive(Drop)]
pub enum Token<'a> {
    Begin(&'a [u8]),
    Property {
        start: usize,
        len: usize,
        value: &'a [u8],
    },
    EndNode,
    Nop,
    Finish,
}

#[tactic(auto, unfolding(crate::specs::Scanning::number_at))]
fn number_of(bytes: &[u8]) -> Result<(u32, &[u8]), FdtFault>
    ensures exact { Matches (λ x. (x.0, x.1.now)) result (number_at bytes.now) }
    ensures within { IfOk result (λ x. length x.1.now ≤ length bytes.now) }
{
    if bytes.len() < 4 {
        return Err(FdtFault::BadToken);
    }
    let (front, rest) = bytes.split_at(4);
    Ok((
        u32::from_be_bytes([front[0], front[1], front[2], front[3]]),
        rest,
    ))
}

#[tactic(auto, using(std::proofs::lemmas::List::drop_min), unfolding(crate::specs::Scanning::padded_at))]
fn padded_of(len: usize, bytes: &[u8]) -> Result<(&[u8], &[u8]), FdtFault>
    ensures { Matches (λ x. (x.0.now, x.1.now)) result (padded_at len bytes.now) }
{
    if bytes.len() < len {
        return Err(FdtFault::BadToken);
    }
    let padding = (4 - len % 4) % 4;
    let whole = (len + padding).min(bytes.len());
    Ok((&bytes[..len], &bytes[whole..]))
}

/// The number of bytes before the first zero byte.
fn end_of(bytes: &[u8]) -> Option<usize>
    ensures exact { result ≡ until_zero bytes.now }
    ensures within { IfSome result (λ i. i < length bytes.now) }
{
    for (i, byte) in bytes.iter().enumerate() {
        if *byte == 0 {
            return Some(i);
        }
    }
    None
}

#[tactic(auto, unfolding(crate::specs::Scanning::string_at))]
fn string_of(fault: FdtFault, bytes: &[u8]) -> Result<&[u8], FdtFault>
    ensures exact { Matches (λ x. x.now) result (string_at fault bytes.now) }
    ensures within { IfOk result (λ x. length x.now < length bytes.now) }
{
    match end_of(bytes) {
        None => Err(fault),
        Some(end) => Ok(&bytes[..end]),
    }
}

pub fn is_legal(name: &[u8]) -> bool
    ensures { result ≡ legal name.now }
{
    for byte in name {
        if !is_name_character(*byte) {
            return false;
        }
    }
    !name.is_empty()
}

/// The name of a node that begins, and the bytes after it.
#[tactic(auto, unfolding(crate::specs::Scanning::begin_at))]
fn begin_of(place: Place, bytes: &[u8]) -> Result<(&[u8], &[u8]), FdtFault>
    ensures { Matches (λ x. (begin_node x.0.now, x.1.now)) result (begin_at place bytes.now) }
{
    let name = string_of(FdtFault::BadToken, bytes)?;
    let (_, rest) = padded_of(name.len() + 1, bytes)?;
    let legal = if place.depth == 0 {
        name.is_empty()
    } else {
        is_legal(name)
    };
    if !legal {
        return Err(FdtFault::BadName);
    }
    if place.depth >= DEPTH_LIMIT {
        return Err(FdtFault::TooDeep);
    }
    Ok((name, rest))
}

#[tactic(auto, unfolding(crate::specs::Scanning::property_at))]
fn property_of<'a>(
    strings: &Strings,
    place: Place,
    bytes: &'a [u8],
) -> Result<(Token<'a>, &'a [u8]), FdtFault>
    ensures exact { Matches (λ x. (as_token strings.now.bytes.items x.0, x.1.now)) result
        (property_at strings.now.bytes.items place bytes.now) }
    ensures fits { IfOk result (λ x. FitsPlace place x.0) }
{
    let (len, rest) = number_of(bytes)?;
    let (offset, rest) = number_of(rest)?;
    let (value, rest) = padded_of(len as usize, rest)?;
    if place.late {
        return Err(FdtFault::LateProperty);
    }
    let start = offset as usize;
    let len = strings.name_len(start)?;
    Ok((Token::Property { start, len, value }, rest))
}

#[tactic(auto, unfolding(crate::specs::Scanning::kind_at))]
fn kind_of<'a>(
    strings: &Strings,
    place: Place,
    kind: u32,
    rest: &'a [u8],
) -> Result<(Token<'a>, &'a [u8]), FdtFault>
    ensures exact { Matches (λ x. (as_token strings.now.bytes.items x.0, x.1.now)) result
        (kind_at strings.now.bytes.items place kind rest.now) }
    ensures fits { IfOk result (λ x. FitsPlace place x.0) }
{
    let over = place.depth == 0 && place.late;
    match kind {
        FDT_BEGIN_NODE if !over => {
            let (name, rest) = begin_of(place, rest)?;
            Ok((Token::Begin(name), rest))
        }
        FDT_END_NODE if place.depth > 0 => Ok((Token::EndNode, rest)),
        FDT_PROP if place.depth > 0 => property_of(strings, place, rest),
        FDT_NOP => Ok((Token::Nop, rest)),
        FDT_END if over => Ok((Token::Finish, rest)),
        _ => Err(FdtFault::BadToken),
    }
}

/// The first token, and the bytes after it.
#[tactic(auto, unfolding(crate::specs::Scanning::token_at))]
pub fn token_of<'a>(
    strings: &Strings,
    place: Place,
    bytes: &'a [u8],
) -> Result<(Token<'a>, &'a [u8]), FdtFault>
    ensures exact { Matches (λ x. (as_token strings.now.bytes.items x.0, x.1.now)) result
        (token_at strings.now.bytes.items place bytes.now) }
    ensures fits { IfOk result (λ x. FitsPlace place x.0) }
{
    let (kind, rest) = number_of(bytes)?;
    kind_of(strings, place, kind, rest)
}
