//! The memory reservation block.

ghost use Rattle.std.specs.Prelude.{◌≡◌, length};
ghost use Rattle.std.specs.Int.{w64, from_be_bytes};
ghost use Rattle.refusal.specs.Answer.{Answers, Matches};
ghost use Rattle.fdt_tree.specs.Reservations.{pair_at, is_end, reservations_at};

use crate::tree::Reservation;
use fdt_header::FdtFault;
use std::alloc::Global;

fn double_word(b: &[u8]) -> u64
    requires { length b.now ≡ 8 }
    ensures { result ≡ from_be_bytes w64 b.now }
{
    u64::from_be_bytes([b[0], b[1], b[2], b[3], b[4], b[5], b[6], b[7]])
}

#[tactic(auto, unfolding(crate::specs::Reservations::pair_at))]
fn pair_of(bytes: &[u8]) -> Result<(Reservation, &[u8]), FdtFault>
    ensures { Matches (λ x. (x.0, x.1.now)) result (pair_at bytes.now) }
{
    if bytes.len() < 16 {
        return Err(FdtFault::BadReserve);
    }
    let reservation = Reservation {
        address: double_word(&bytes[..8]),
        size: double_word(&bytes[8..][..8]),
    };
    Ok((reservation, &bytes[16..]))
}

fn is_end(pair: Reservation) -> bool
    ensures { result ≡ is_end pair }
{
    pair.address == 0 && pair.size == 0
}

/// The reservations at the start of a block, up to the pair of zeros.
pub fn reservations_in(alloc: Global, block: &[u8]) -> Result<Vec<Reservation>, FdtFault>
    ensures { Answers FdtFault.NoMemory (λ v. v.items) result (reservations_at block.now) }
{
    let mut reservations = Vec::new(alloc);
    let mut rest = block;
    for _ in 0..block.len() {
        let (pair, after) = pair_of(rest)?;
        if is_end(pair) {
            return Ok(reservations);
        }
        reservations.push(pair)?;
        rest = after;
    }
    Err(FdtFault::BadReserve)
}
