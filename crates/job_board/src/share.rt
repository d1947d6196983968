//! Shares: how many pages a worker has put, beside a part of the ledger.
ghost use Rattle.std.specs.Prelude.{◌≡◌, replicate, IfOk};

use refusal::NoMemory;
use std::alloc::Global;
use std::marker::Model;
use std::sync::ledger::{Ledger, Share as Part};

/// A number beside one part of the ledger, whose amount it is.
#[derive(Drop)]
pub struct Share<L: Ledger> {
    pub(crate) count: u64,
    pub(crate) part: Part<L>,
    is_started: bool,
}

impl<L: Ledger> Model for Share<L> {
    ghost use Rattle.std.specs.Prelude.{◌≡◌, ℕ};

    ghost Value = { ℕ };

    ghost view = { λ s. s.count };

    ghost invariant = { λ s. (s.part.parts ≡ 1) × (s.part.amount ≡ s.count) };
}

impl<L: Ledger> Share<L> {
    /// The number.
    pub fn count(&self) -> u64
        ensures { result ≡ self.now }
    {
        self.count
    }

    /// Notes that its worker was started.
    pub fn note_start(&mut self)
        ensures { self.new ≡ self.old }
    {
        self.is_started = true;
    }

    /// Whether its worker was started. No clause says so: tests show it.
    pub fn is_started(&self) -> bool {
        self.is_started
    }

    /// Its part of the ledger, whose amount is the number.
    pub(crate) fn into_part(self) -> Part<L>
        ensures { (result.parts ≡ 1) × (result.amount ≡ self) }
    {
        self.part
    }

    /// A share of one part, with nothing counted.
    fn of(part: Part<L>) -> Share<L>
        requires { (part.parts ≡ 1) × (part.amount ≡ 0) }
        ensures { result ≡ 0 }
    {
        Share {
            count: 0,
            part,
            is_started: false,
        }
    }
}

/// One share for each part, with nothing counted.
pub(crate) fn cut<L: Ledger>(
    alloc: Global,
    part: Part<L>,
    count: usize,
) -> Result<Vec<Share<L>>, NoMemory>
    requires { (part.parts ≡ count) × (part.amount ≡ 0) }
    ensures { IfOk result (λ shares. shares.items ≡ replicate count 0) }
{
    let mut rest = part;
    let mut shares = Vec::new(alloc);
    for _i in 0..count {
        shares.push(Share::of(rest.split_off(1, 0)))?;
    }
    Ok(shares)
}
