//! The first and the last line of a listing.
ghost use Rattle.std.specs.Prelude.{◌≡◌, ◌≤◌, ◌++◌, codes, length};
ghost use Rattle.rmi_line.specs.Ends.{digest_bytes};
ghost use Rattle.rmi_line.specs.Spelled.{ReadsFirst, ReadsLast};
ghost use Rattle.rmi_line.specs.Typed.{Are64Bytes};

use crate::reader::{Words, after};
use crate::typed::bytes_fit;
use rim_desc::{Algo, Measurement, RecRule};

/// The monitor's number of auxiliary granules, at most 16, and the rule of its RECs, if it has one, that the first line of
/// a listing spells, if it spells them. Without a rule the line is `rim-list 1 aux N`; with one it is
/// `rim-list 2 aux N rec all` or `rim-list 2 aux N rec runnable`.
pub fn read_first(line: &[u8]) -> Option<(u8, Option<RecRule>)>
    ensures { ReadsFirst line.now result }
{
    if let Some(rest) = after(line, b"rim-list 1 aux") {
        return without_rule(rest);
    }
    if let Some(rest) = after(line, b"rim-list 2 aux") {
        return with_rule(rest);
    }
    None
}

fn without_rule(rest: &[u8]) -> Option<(u8, Option<RecRule>)>
    ensures { ReadsFirst (codes "rim-list 1 aux" ++ rest.now) result }
{
    let mut words = Words::new(rest);
    let num_aux = words.count();
    if words.are_taken() {
        Some((num_aux as u8, None))
    } else {
        None
    }
}

fn with_rule(rest: &[u8]) -> Option<(u8, Option<RecRule>)>
    ensures { ReadsFirst (codes "rim-list 2 aux" ++ rest.now) result }
{
    let mut words = Words::new(rest);
    let num_aux = words.count();
    words.word(b"rec");
    let rule = words.rule();
    if words.are_taken() {
        Some((num_aux as u8, Some(rule)))
    } else {
        None
    }
}

/// The measurement that the last line of a listing spells, and its algorithm, if it spells one. The bytes after a digest
/// are zero.
pub fn read_last(line: &[u8]) -> Option<(Algo, Measurement)>
    ensures { ReadsLast line.now result }
{
    let mut words = Words::new(after(line, b"rim")?);
    let algo = words.algo();
    let bytes = words.digest(algo);
    bytes_fit(&bytes);
    if words.are_taken() {
        Some((algo, Measurement { bytes }))
    } else {
        None
    }
}

/// The bytes of a measurement that are a digest of its algorithm.
pub fn digest(algo: Algo, rim: &Measurement) -> &[u8]
    ensures bytes { Are64Bytes rim.now.bytes }
    ensures value { result.now ≡ digest_bytes algo rim.now.bytes }
    ensures size { length result.now ≤ 64 }
{
    bytes_fit(&rim.bytes);
    match algo {
        Algo::Sha256 => &rim.bytes[..32],
        Algo::Sha512 => &rim.bytes,
    }
}
