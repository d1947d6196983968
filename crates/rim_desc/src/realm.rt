//! The parameters of a realm.
ghost use Rattle.std.specs.Prelude.{◌≡◌};
ghost use Rattle.rim_desc.specs.Realm.{realm_page_of};

use crate::measurement::Algo;
use crate::numbers::{RealmNumbers, put_numbers};
use crate::page::{PAGE_SIZE, put, zero_page};

/// The parameters of a realm (DEN0137, RmiRealmParams), without VMID.
///
/// Measured are `flags`, `s2sz`, `numbers` and `algo`.
#[derive(Clone, Copy, Debug, PartialEq, Eq)]
pub struct RealmParams {
    /// Bit 0 is LPA2, bit 1 SVE, bit 2 PMU.
    pub flags: u64,
    /// The width of an IPA in bits.
    pub s2sz: u8,
    /// The numbers that have a row each.
    pub numbers: RealmNumbers,
    /// The level of the start tables.
    pub rtt_level_start: u8,
    /// The number of start tables.
    pub rtt_num_start: u8,
    /// The hash algorithm of all of the realm's measurements.
    pub algo: Algo,
    /// The Realm Personalization Value.
    pub rpv: [u8; 64],
    /// The address of the first start table.
    pub rtt_base: u64,
}

/// The measured page of a realm's parameters: its measured fields at their offsets, over zeros.
pub fn realm_page(params: &RealmParams) -> [u8; PAGE_SIZE]
    ensures { result ≡ realm_page_of params.now }
{
    let mut page = zero_page();
    put(&mut page, 0x0, &params.flags.to_le_bytes());
    put(&mut page, 0x8, &[params.s2sz]);
    put_numbers(&mut page, &params.numbers);
    put(&mut page, 0x30, &[params.algo as u8]);
    page
}
