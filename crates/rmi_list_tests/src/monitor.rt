//! A monitor follows the lists of worked launches: it takes each command, and its Realm Initial Measurement is the fold
//! over parts that were written by hand.
use crate::launches::{CONFIG, NOTHING, Parts, WIDE, check, config, launch_of, list_of};
use rim_desc::{
    Algo, Measurement, data_descriptor, extend, hash, rec_descriptor, ripas_descriptor,
};
use rim_launch::{Config, Launch, Step};
use rmm_monitor::Monitor;
use std::alloc::Global;
use std::process::Abort;

const CONTENT: Measurement = Measurement { bytes: [0; 64] };

/// Parts of a measurement.
enum Measured {
    /// An address, and how many blocks of which size in bytes are side by side from there on.
    Blocks(u64, u64, u64),
    /// A page at an IPA, measured or not.
    Page(u64, bool),
    /// A runnable REC that begins at 0x40080000.
    Rec,
}

/// Blocks of a size in bytes, side by side from an address on.
fn add_blocks(algo: Algo, rim: Measurement, base: u64, count: u64, size: u64) -> Measurement {
    let mut rim = rim;
    for number in 0..count {
        let at = base.saturating_add(number.saturating_mul(size));
        rim = extend(algo, &ripas_descriptor(&rim, at, at.saturating_add(size)));
    }
    rim
}

/// The page of a runnable REC that begins at 0x40080000.
fn rec_page() -> [u8; 4096] {
    let mut page = [0; 4096];
    page[0] = 1;
    page[0x202] = 0x08;
    page[0x203] = 0x40;
    page
}

fn add(algo: Algo, rim: Measurement, part: &Measured) -> Measurement {
    match *part {
        Measured::Blocks(base, count, size) => add_blocks(algo, rim, base, count, size),
        Measured::Page(ipa, true) => extend(algo, &data_descriptor(&rim, ipa, Some(&CONTENT))),
        Measured::Page(ipa, false) => extend(algo, &data_descriptor(&rim, ipa, None)),
        Measured::Rec => extend(algo, &rec_descriptor(&rim, &hash(algo, &rec_page()))),
    }
}

/// The measurement of a realm of a width, and then of some parts.
fn rim_of(algo: Algo, s2sz: u8, parts: &[Measured]) -> Measurement {
    let mut page = [0; 4096];
    page[8] = s2sz;
    let mut rim = hash(algo, &page);
    for part in parts {
        rim = add(algo, rim, part);
    }
    rim
}

/// What a monitor holds after the commands of a launch.
fn followed(rt: &impl Abort, alloc: Global, launch: &Launch) -> Option<Measurement> {
    let plan = list_of(rt, alloc, launch).expect(rt, "a list");
    let mut monitor = Monitor::new(alloc, launch.config().num_aux, launch.config().rec_rule);
    for index in 0..plan.len() {
        let answer = monitor.apply(&plan.command(index, &CONTENT));
        check(rt, answer.is_ok(), "a command is taken");
    }
    monitor.rim()
}

fn check_row(rt: &impl Abort, alloc: Global, row: &Row) {
    let (name, config, parts, measured) = row;
    let launch = launch_of(rt, alloc, config, parts);
    let rim = followed(rt, alloc, &launch);
    let is_measured = rim == Some(rim_of(Algo::Sha256, config.s2sz, measured));
    check(rt, is_measured, name);
}

const GIB: u64 = 0x4000_0000;

const MIB_2: u64 = 0x20_0000;

type Row = (&'static str, Config, Parts, &'static [Measured]);

const ROWS: [Row; 10] = [
    (
        "one region that ends past 2 MiB",
        CONFIG,
        Parts {
            ram: &[(GIB, 0x4020_1000)],
            ..NOTHING
        },
        &[
            Measured::Blocks(GIB, 1, MIB_2),
            Measured::Blocks(0x4020_0000, 1, 4096),
        ],
    ),
    (
        "a region from 4 KiB on",
        CONFIG,
        Parts {
            ram: &[(0x4000_1000, 0x4040_0000)],
            ..NOTHING
        },
        &[
            Measured::Blocks(0x4000_1000, 511, 4096),
            Measured::Blocks(0x4020_0000, 1, MIB_2),
        ],
    ),
    (
        "blocks of 1 GiB",
        WIDE,
        Parts {
            ram: &[(GIB, 0xc000_0000)],
            ..NOTHING
        },
        &[Measured::Blocks(GIB, 2, GIB)],
    ),
    (
        "blocks of 2 MiB",
        config!(40, 2, 0, 16_777_216),
        Parts {
            ram: &[(GIB, 0xc000_0000)],
            ..NOTHING
        },
        &[Measured::Blocks(GIB, 1024, MIB_2)],
    ),
    (
        "a page of data that is not measured in a block of 1 GiB",
        WIDE,
        Parts {
            ram: &[(GIB, 0xc000_0000)],
            items: &[(GIB, 4096, false)],
            ..NOTHING
        },
        &[Measured::Blocks(GIB, 2, GIB), Measured::Page(GIB, false)],
    ),
    (
        "a second region by a later step",
        WIDE,
        Parts {
            ram: &[(GIB, 0xc000_0000), (0xc000_0000, 0xc020_0000)],
            items: &[(GIB, 8192, true)],
            steps: &[Step::Ram(0), Step::Item(0), Step::Ram(1)],
            ..NOTHING
        },
        &[
            Measured::Blocks(GIB, 2, GIB),
            Measured::Page(GIB, true),
            Measured::Page(0x4000_1000, true),
            Measured::Blocks(0xc000_0000, 1, MIB_2),
        ],
    ),
    (
        "IPAs of 32 bits, up to the end of the protected half",
        config!(32, 0, 0, 16_777_216),
        Parts {
            ram: &[(0x7fe0_0000, 0x8000_0000)],
            items: &[(0x7fff_f000, 4096, true)],
            ..NOTHING
        },
        &[
            Measured::Blocks(0x7fe0_0000, 1, MIB_2),
            Measured::Page(0x7fff_f000, true),
        ],
    ),
    (
        "IPAs of 48 bits, and a block of 512 GiB",
        config!(48, 0, 0, 16_777_216),
        Parts {
            ram: &[(0x7f80_0000_0000, 0x8000_0000_0000)],
            items: &[(0x7fff_ffff_f000, 4096, true)],
            ..NOTHING
        },
        &[
            Measured::Blocks(0x7f80_0000_0000, 1, 0x80_0000_0000),
            Measured::Page(0x7fff_ffff_f000, true),
        ],
    ),
    (
        "IPAs of 43 bits, and a region around blocks of 1 GiB",
        config!(43, 0, 0, 16_777_216),
        Parts {
            ram: &[(0x3fff_f000, 0xc000_1000)],
            ..NOTHING
        },
        &[
            Measured::Blocks(0x3fff_f000, 1, 4096),
            Measured::Blocks(GIB, 2, GIB),
            Measured::Blocks(0xc000_0000, 1, 4096),
        ],
    ),
    (
        "pages of RAM and a REC with sixteen auxiliary granules",
        config!(33, 3, 16, 16_777_216),
        Parts {
            ram: &[(GIB, 0x4000_2000)],
            recs: &[true],
            ..NOTHING
        },
        &[Measured::Blocks(GIB, 2, 4096), Measured::Rec],
    ),
];

#[test]
fn monitor_follows(rt: HostRuntime) {
    for row in &ROWS {
        check_row(&rt, rt.alloc(), row);
    }
}
