//! The parameters of a REC.
ghost use Rattle.std.specs.Prelude.{◌≡◌, ◌<◌, ◌≤◌, length};
ghost use Rattle.rim_desc.specs.Rec.{rec_mpidr_of, rec_page_of};
ghost use Rattle.rim_desc.specs.declared.rec.TheConstants.{AUX_LIMIT, REC_LIMIT};

use crate::page::{PAGE_SIZE, put, zero_page};
use std::marker::Model;

/// The most auxiliary granules that a REC may have: 16 (DEN0137, RmiRecParams).
pub const AUX_LIMIT: usize = 16;

/// The most RECs of a realm: 512. This project's choice.
pub const REC_LIMIT: usize = 512;

/// The parameters of a REC (DEN0137, RmiRecParams).
///
/// It has at most [`AUX_LIMIT`] auxiliary granules, and zeros in the places of those that it has not.
/// Measured are the flags, `pc` and x0 to x7.
#[derive(Clone, Copy, Debug, PartialEq, Eq)]
pub struct RecParams {
    flags: u64,
    mpidr: u64,
    pc: u64,
    gprs: [u64; 8],
    num_aux: u8,
    aux: [u64; AUX_LIMIT],
}

impl Model for RecParams {
    ghost use Rattle.std.specs.Prelude.{◌-◌, ◌++◌, length, take, replicate};
    ghost use Rattle.rim_desc.specs.Rec.{RecData};

    ghost Value = { RecData };

    ghost use Rattle.rim_desc.specs.declared.rec.TheConstants.{AUX_LIMIT};
    ghost use Rattle.rim_desc.specs.inside.Rec.{IsWellFormed, fields_again};

    ghost view = { λ r. record {
      flags = r.flags;
      mpidr = r.mpidr;
      pc = r.pc;
      gprs = r.gprs;
      aux = take r.num_aux r.aux;
    } };

    ghost invariant = { IsWellFormed };

    ghost inverse = { λ d. record {
      flags = d.flags;
      mpidr = d.mpidr;
      pc = d.pc;
      gprs = d.gprs;
      num_aux = length d.aux;
      aux = d.aux ++ replicate (AUX_LIMIT - length d.aux) 0;
    } };

    ghost inverse_ok = { fields_again };
}

impl RecParams {
    /// The parameters of a REC with these auxiliary granules, by address.
    pub fn new(flags: u64, mpidr: u64, pc: u64, gprs: [u64; 8], aux: &[u64]) -> RecParams
        requires { length aux.now ≤ AUX_LIMIT }
        ensures { result
            ≡ record { flags = flags; mpidr = mpidr; pc = pc; gprs = gprs; aux = aux.now } }
    {
        let mut places = [0; AUX_LIMIT];
        places[..aux.len()].copy_from_slice(aux);
        RecParams {
            flags,
            mpidr,
            pc,
            gprs,
            num_aux: aux.len() as u8,
            aux: places,
        }
    }

    /// The flags; bit 0 says that the REC is runnable.
    pub fn flags(&self) -> u64
        ensures { result ≡ self.now.flags }
    {
        self.flags
    }

    /// The MPIDR.
    pub fn mpidr(&self) -> u64
        ensures { result ≡ self.now.mpidr }
    {
        self.mpidr
    }

    /// The program counter at the first entry.
    pub fn pc(&self) -> u64
        ensures { result ≡ self.now.pc }
    {
        self.pc
    }

    /// x0 to x7 at the first entry.
    pub fn gprs(&self) -> &[u64; 8]
        ensures { result.now ≡ self.now.gprs }
    {
        &self.gprs
    }

    /// The number of auxiliary granules.
    pub fn num_aux(&self) -> u8
        ensures count { result ≡ length self.now.aux }
        ensures most { result ≤ AUX_LIMIT }
    {
        self.num_aux
    }

    /// The addresses of the auxiliary granules.
    pub fn aux(&self) -> &[u64]
        ensures { result.now ≡ self.now.aux }
    {
        &self.aux[..self.num_aux as usize]
    }
}

/// The measured page of a REC's parameters: its measured fields at their offsets, over zeros.
pub fn rec_page(params: &RecParams) -> [u8; PAGE_SIZE]
    ensures { result ≡ rec_page_of params.now }
{
    let mut page = zero_page();
    put(&mut page, 0x0, &params.flags().to_le_bytes());
    put(&mut page, 0x200, &params.pc().to_le_bytes());
    let gprs = params.gprs();
    put(&mut page, 0x300, &gprs[0].to_le_bytes());
    put(&mut page, 0x308, &gprs[1].to_le_bytes());
    put(&mut page, 0x310, &gprs[2].to_le_bytes());
    put(&mut page, 0x318, &gprs[3].to_le_bytes());
    put(&mut page, 0x320, &gprs[4].to_le_bytes());
    put(&mut page, 0x328, &gprs[5].to_le_bytes());
    put(&mut page, 0x330, &gprs[6].to_le_bytes());
    put(&mut page, 0x338, &gprs[7].to_le_bytes());
    page
}

/// The MPIDR of the REC with an index: Aff0 counts to 16, and Aff1 counts the sixteens.
pub fn rec_mpidr(index: usize) -> u64
    requires { index < REC_LIMIT }
    ensures { result ≡ rec_mpidr_of index }
{
    (index % 16 + 256 * (index / 16)) as u64
}
