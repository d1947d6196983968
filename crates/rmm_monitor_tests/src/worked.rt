//! Whole lists of commands. The measurements are those of Python's hashlib over pages and descriptors
//! that were laid out by hand.
use crate::checks::Act::{Activate, Create, Data, Delegate, Ripas, Table};
use crate::checks::{
    Act, check_answer, check_owner, check_owner_count, check_rim, command_of, take_all,
};
use rim_desc::{Algo, Command, Measurement, NO_NUMBERS, RealmNumbers, RealmParams, RecParams};
use rmm_model::{Kind, Refused};
use rmm_monitor::Monitor;
use std::alloc::Global;
use std::process::Abort;

/// The worked realm after its creation: SHA-256 of its page.
const CREATED: [u8; 64] = [
    0x69, 0xc7, 0xb3, 0x74, 0x93, 0xbb, 0x27, 0x2a, 0x73, 0xb5, 0x54, 0x0b, 0x00, 0xde, 0x2d, 0xdd,
    0x1d, 0x89, 0x1a, 0x6e, 0x74, 0xf9, 0x27, 0xf9, 0x96, 0x9c, 0xe5, 0x98, 0x68, 0xb6, 0x7f, 0xd3,
    0x00, 0x00, 0x00, 0x00, 0x00, 0x00, 0x00, 0x00, 0x00, 0x00, 0x00, 0x00, 0x00, 0x00, 0x00, 0x00,
    0x00, 0x00, 0x00, 0x00, 0x00, 0x00, 0x00, 0x00, 0x00, 0x00, 0x00, 0x00, 0x00, 0x00, 0x00, 0x00,
];

/// The same after two RIPAS entries of 1 GiB at 0x40000000, and a page of data that is not measured.
const WORKED: [u8; 64] = [
    0x56, 0xcb, 0x6d, 0xa4, 0x39, 0x07, 0x8f, 0x82, 0xb3, 0x83, 0xf6, 0xea, 0x32, 0x1a, 0x27, 0x1d,
    0xc0, 0xba, 0x56, 0x13, 0x05, 0x90, 0xa6, 0xbe, 0x57, 0x29, 0xf4, 0x52, 0xd5, 0xc7, 0x63, 0x80,
    0x00, 0x00, 0x00, 0x00, 0x00, 0x00, 0x00, 0x00, 0x00, 0x00, 0x00, 0x00, 0x00, 0x00, 0x00, 0x00,
    0x00, 0x00, 0x00, 0x00, 0x00, 0x00, 0x00, 0x00, 0x00, 0x00, 0x00, 0x00, 0x00, 0x00, 0x00, 0x00,
];

/// SHA-512, with SVE and PMU: two RIPAS entries of 4 KiB, a measured page, and a REC.
const MIXED: [u8; 64] = [
    0x52, 0xfc, 0x1a, 0xb4, 0x04, 0x5b, 0xce, 0x48, 0xfa, 0xa3, 0x74, 0xc7, 0x0e, 0xda, 0xf7, 0xd2,
    0xbe, 0xc9, 0x1a, 0xfa, 0x07, 0xa2, 0x74, 0xb7, 0x66, 0x0a, 0x35, 0xc2, 0x5d, 0x81, 0x95, 0x70,
    0x7e, 0xd7, 0x55, 0xfe, 0x86, 0x3a, 0x59, 0xab, 0xe8, 0x0b, 0x7a, 0x72, 0x57, 0x47, 0x20, 0x80,
    0xa8, 0x1e, 0x41, 0xeb, 0x99, 0x12, 0xf1, 0xe4, 0xb5, 0xd9, 0xa6, 0x50, 0xe8, 0xf6, 0xcd, 0x5a,
];

pub const PARAMS: RealmParams = RealmParams {
    flags: 0,
    s2sz: 40,
    numbers: NO_NUMBERS,
    rtt_level_start: 1,
    rtt_num_start: 2,
    algo: Algo::Sha256,
    rpv: [0; 64],
    rtt_base: 0x8_0000_0000,
};

/// The commands of the worked list up to the realm's creation.
const CREATION: [Act; 4] = [
    Delegate(0x8_0000_0000),
    Delegate(0x8_0000_1000),
    Delegate(0x8_0000_2000),
    Create(0x8_0000_2000, PARAMS),
];

const TABLE_OF_LEVEL_3: Act = Table(0x8_0000_4000, 0x4000_0000, 3);

/// The commands after it: those before the table of level 2, up to the table of level 3, and after that.
const RAM: [Act; 2] = [Ripas(0x4000_0000, 0xc000_0000), Delegate(0x8_0000_3000)];

const TABLES: [Act; 3] = [
    Table(0x8_0000_3000, 0x4000_0000, 2),
    Delegate(0x8_0000_4000),
    TABLE_OF_LEVEL_3,
];

const PAGE: [Act; 3] = [
    Delegate(0x8_0000_5000),
    Data(0x8_0000_5000, 0x4000_0000),
    Activate,
];

/// Applies the commands after the realm's creation.
fn fill(rt: &impl Abort, monitor: &mut Monitor) {
    take_all(rt, monitor, &RAM);
    take_all(rt, monitor, &TABLES);
    take_all(rt, monitor, &PAGE);
}

/// The worked realm, created.
pub fn created(rt: &impl Abort, alloc: Global) -> Monitor {
    let mut monitor = Monitor::new(alloc, 2, None);
    take_all(rt, &mut monitor, &CREATION);
    monitor
}

/// The granules of the worked list, and their kinds.
const OWNERS: [(u64, Option<Kind>); 7] = [
    (0x8_0000_0000, Some(Kind::Rtt)),
    (0x8_0000_1000, Some(Kind::Rtt)),
    (0x8_0000_2000, Some(Kind::Rd)),
    (0x8_0000_3000, Some(Kind::Rtt)),
    (0x8_0000_4000, Some(Kind::Rtt)),
    (0x8_0000_5000, Some(Kind::DataPage)),
    (0x8_0000_6000, None),
];

fn check_owners(rt: &impl Abort, monitor: &Monitor, owners: &[(u64, Option<Kind>)]) {
    for (pa, owner) in owners {
        check_owner(rt, monitor, *pa, *owner);
    }
}

#[test]
fn worked_list_is_taken(rt: HostRuntime) {
    let mut monitor = Monitor::new(rt.alloc(), 0, None);
    check_rim(&rt, &monitor, None);
    take_all(&rt, &mut monitor, &CREATION);
    check_rim(&rt, &monitor, Some(Measurement { bytes: CREATED }));
    fill(&rt, &mut monitor);
    check_rim(&rt, &monitor, Some(Measurement { bytes: WORKED }));
    check_owner_count(&rt, &monitor, 6);
    check_owners(&rt, &monitor, &OWNERS);
}

#[test]
fn level_3_before_level_2(rt: HostRuntime) {
    let mut monitor = Monitor::new(rt.alloc(), 0, None);
    take_all(&rt, &mut monitor, &CREATION);
    take_all(&rt, &mut monitor, &RAM);
    let early = Err(Refused::WalkLevel);
    check_answer(&rt, &mut monitor, &command_of(&TABLE_OF_LEVEL_3), early);
    take_all(&rt, &mut monitor, &TABLES);
    take_all(&rt, &mut monitor, &PAGE);
    check_rim(&rt, &monitor, Some(Measurement { bytes: WORKED }));
}

/// The granule of the table of level 3, delegated again, and as data.
const AGAIN: Act = Delegate(0x8_0000_4000);

const IN_TABLE: Act = Data(0x8_0000_4000, 0x4000_0000);

#[test]
fn granules_have_one_owner(rt: HostRuntime) {
    let mut monitor = Monitor::new(rt.alloc(), 0, None);
    take_all(&rt, &mut monitor, &CREATION);
    take_all(&rt, &mut monitor, &RAM);
    take_all(&rt, &mut monitor, &TABLES);
    let (again, in_table) = (command_of(&AGAIN), command_of(&IN_TABLE));
    check_answer(&rt, &mut monitor, &again, Err(Refused::NotUndelegated));
    check_answer(&rt, &mut monitor, &in_table, Err(Refused::NotDelegated));
    check_owner(&rt, &monitor, 0x8_0000_4000, Some(Kind::Rtt));
    check_owner_count(&rt, &monitor, 5);
}

const MIXED_PARAMS: RealmParams = RealmParams {
    flags: 6,
    s2sz: 33,
    numbers: RealmNumbers {
        sve_vl: 1,
        num_bps: 2,
        num_wps: 3,
        pmu_num_ctrs: 4,
        ..NO_NUMBERS
    },
    rtt_level_start: 2,
    rtt_num_start: 8,
    algo: Algo::Sha512,
    rpv: [9; 64],
    rtt_base: 0x10_0000,
};

const CONTENT: [u8; 64] = [
    0x00, 0x01, 0x02, 0x03, 0x04, 0x05, 0x06, 0x07, 0x08, 0x09, 0x0a, 0x0b, 0x0c, 0x0d, 0x0e, 0x0f,
    0x10, 0x11, 0x12, 0x13, 0x14, 0x15, 0x16, 0x17, 0x18, 0x19, 0x1a, 0x1b, 0x1c, 0x1d, 0x1e, 0x1f,
    0x20, 0x21, 0x22, 0x23, 0x24, 0x25, 0x26, 0x27, 0x28, 0x29, 0x2a, 0x2b, 0x2c, 0x2d, 0x2e, 0x2f,
    0x30, 0x31, 0x32, 0x33, 0x34, 0x35, 0x36, 0x37, 0x38, 0x39, 0x3a, 0x3b, 0x3c, 0x3d, 0x3e, 0x3f,
];

const MIXED_REALM: [Act; 3] = [
    Create(0x10_8000, MIXED_PARAMS),
    Table(0x10_9000, 0x4000_0000, 3),
    Ripas(0x4000_0000, 0x4000_2000),
];

const MIXED_PAGE: Command = Command::DataCreate {
    granule: 0x10_a000,
    ipa: 0x4000_1000,
    content: Some(Measurement { bytes: CONTENT }),
};

/// Delegates granules side by side, from the first on.
pub fn delegate_all(rt: &impl Abort, monitor: &mut Monitor, first: u64, count: u64) {
    for index in 0..count {
        let granule = first.saturating_add(index.saturating_mul(4096));
        check_answer(rt, monitor, &Command::Delegate { granule }, Ok(()));
    }
}

/// The REC of the list.
fn mixed_rec() -> Command {
    Command::RecCreate {
        rec: 0x10_b000,
        params: RecParams::new(1, 0, 0x4008_0000, [1, 2, 3, 4, 5, 6, 7, 8], &[0x10_c000]),
    }
}

#[test]
fn sha512_with_data_and_rec(rt: HostRuntime) {
    let mut monitor = Monitor::new(rt.alloc(), 1, None);
    delegate_all(&rt, &mut monitor, 0x10_0000, 16);
    take_all(&rt, &mut monitor, &MIXED_REALM);
    check_answer(&rt, &mut monitor, &MIXED_PAGE, Ok(()));
    check_answer(&rt, &mut monitor, &mixed_rec(), Ok(()));
    check_answer(&rt, &mut monitor, &Command::Activate, Ok(()));
    check_rim(&rt, &monitor, Some(Measurement { bytes: MIXED }));
    check_owner(&rt, &monitor, 0x10_b000, Some(Kind::Rec));
    check_owner(&rt, &monitor, 0x10_c000, Some(Kind::RecAux));
}

/// Applies a command, which changes nothing where memory is refused, and is accepted at the next try.
fn retry(rt: &impl Abort, monitor: &mut Monitor, command: &Command) {
    let rim = monitor.rim();
    let owners = monitor.owner_count();
    if monitor.apply(command) == Err(Refused::NoMemory) {
        check_rim(rt, monitor, rim);
        check_owner_count(rt, monitor, owners);
        check_answer(rt, monitor, command, Ok(()));
    }
}

fn retry_all(rt: &impl Abort, monitor: &mut Monitor, acts: &[Act]) {
    for act in acts {
        retry(rt, monitor, &command_of(act));
    }
}

/// To be run with each allocation refused in turn, and without.
#[test]
fn refused_growth_changes_nothing(rt: HostRuntime) {
    let mut monitor = Monitor::new(rt.alloc(), 0, None);
    retry_all(&rt, &mut monitor, &CREATION);
    retry_all(&rt, &mut monitor, &RAM);
    retry_all(&rt, &mut monitor, &TABLES);
    retry_all(&rt, &mut monitor, &PAGE);
    check_rim(&rt, &monitor, Some(Measurement { bytes: WORKED }));
    check_owner_count(&rt, &monitor, 6);
}
