//! The numbers of a realm's parameters, in one row each.
ghost use Rattle.std.specs.Prelude.{◌≡◌, ◌<◌, map};
ghost use Rattle.std.specs.List.{All};
ghost use Rattle.rim_desc.specs.declared.page.TheConstants.{PAGE_SIZE};
ghost use Rattle.rim_desc.specs.Page.{with_fields};
ghost use Rattle.rim_desc.specs.Numbers.{in_order, number_fields, numbers_from, rmm_1_0};

use crate::page::{PAGE_SIZE, put};

/// A number of a realm's parameters. It has one byte, is measured, and is 0 where a launch does not give it.
#[derive(Clone, Copy, Debug)]
pub struct NumberRow {
    /// Its name, in a manifest too.
    pub name: &'static str,
    /// Its offset in the measured page.
    pub offset: usize,
    /// The highest value that a launch may give it.
    pub most: u8,
}

/// How many numbers the parameters of a realm have.
pub const NUMBER_COUNT: usize = 4;

/// The numbers that the Realm Management Monitor of DEN0137 1.0 has in RmiRealmParams, in the order of their offsets, which is that
/// of their words in a listing too. The same rows are in `specs/Numbers.antt`, where they are reviewed.
pub const RMM_1_0: [NumberRow; NUMBER_COUNT] = [
    NumberRow {
        name: "sve_vl",
        offset: 0x10,
        most: 255,
    },
    NumberRow {
        name: "num_bps",
        offset: 0x18,
        most: 255,
    },
    NumberRow {
        name: "num_wps",
        offset: 0x20,
        most: 255,
    },
    NumberRow {
        name: "pmu_num_ctrs",
        offset: 0x28,
        most: 255,
    },
];

/// The numbers of [`RMM_1_0`].
#[derive(Clone, Copy, Debug, PartialEq, Eq, PartialOrd, Ord)]
pub struct RealmNumbers {
    /// The SVE vector length, as the standard counts it.
    pub sve_vl: u8,
    /// The number of breakpoints.
    pub num_bps: u8,
    /// The number of watchpoints.
    pub num_wps: u8,
    /// The number of PMU counters.
    pub pmu_num_ctrs: u8,
}

/// Each number is 0.
pub const NO_NUMBERS: RealmNumbers = RealmNumbers {
    sve_vl: 0,
    num_bps: 0,
    num_wps: 0,
    pmu_num_ctrs: 0,
};

impl RealmNumbers {
    /// The rows of [`RMM_1_0`], which are those of the definitions.
    pub fn rows() -> [NumberRow; NUMBER_COUNT]
        ensures names { map (λ r. r.name.now) result ≡ map (λ r. r.name) rmm_1_0 }
        ensures offsets { map (λ r. r.offset) result ≡ map (λ r. r.offset) rmm_1_0 }
        ensures fit { All (λ r. r.offset < PAGE_SIZE) result }
        ensures most { map (λ r. r.most) result ≡ map (λ r. r.most) rmm_1_0 }
    {
        RMM_1_0
    }

    /// The numbers, in the order of their rows.
    pub fn in_order(&self) -> [u8; NUMBER_COUNT]
        ensures { result ≡ in_order self.now }
    {
        [self.sve_vl, self.num_bps, self.num_wps, self.pmu_num_ctrs]
    }

    /// The numbers that are these, in the order of their rows.
    pub fn from_order(numbers: [u8; NUMBER_COUNT]) -> RealmNumbers
        ensures value { result ≡ numbers_from numbers }
        ensures order { in_order result ≡ numbers }
    {
        let [sve_vl, num_bps, num_wps, pmu_num_ctrs] = numbers;
        RealmNumbers {
            sve_vl,
            num_bps,
            num_wps,
            pmu_num_ctrs,
        }
    }
}

/// Puts the number of each row at its offset of a page.
pub fn put_numbers(page: &mut [u8; PAGE_SIZE], numbers: &RealmNumbers)
    ensures { page.new ≡ with_fields page.old (number_fields numbers.now) }
{
    let rows = RealmNumbers::rows();
    let values = numbers.in_order();
    for at in 0..NUMBER_COUNT {
        put(page, rows[at].offset, &[values[at]]);
    }
}
