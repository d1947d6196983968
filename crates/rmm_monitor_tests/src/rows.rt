//! Each check of each command at its edge, with the next check holding too where both can.
use crate::checks::Act::{
    Activate, Create, Data, Delegate, Measured, Rec, Ripas, Table, WithOneAux,
};
use crate::checks::{Act, check_answer, check_owner_count, check_rim, command_of, take_all};
use crate::worked::{PARAMS, created, delegate_all};
use rim_desc::{Command, RealmParams};
use rmm_model::Refused;
use rmm_model::Refused::{
    Assigned, AuxCount, BadParams, NotDelegated, NotFresh, NotRam, NotUndelegated,
    OutsideProtected, RecIndex, State, Unaligned, WalkLevel,
};
use rmm_monitor::Monitor;
use std::alloc::Global;
use std::process::Abort;

/// The start tables of the worked realm.
const TABLES: u64 = 0x8_0000_0000;

const GIB: u64 = 0x4000_0000;

/// Of the worked realm.
const HALF: u64 = 1 << 39;

/// A granule that is not DELEGATED, and one that is no granule.
const FREE: u64 = 0x9_0000_0000;

const ODD: u64 = 0x9_0000_0800;

/// A command, and why it is refused; none where it is taken.
type Row = (Act, Option<Refused>);

/// Offers a command that is to be refused, and leaves the monitor as it was.
fn refuse(rt: &impl Abort, monitor: &mut Monitor, command: &Command, refused: Refused) {
    let owners = monitor.owner_count();
    let rim = monitor.rim();
    check_answer(rt, monitor, command, Err(refused));
    check_owner_count(rt, monitor, owners);
    check_rim(rt, monitor, rim);
}

fn offer(rt: &impl Abort, monitor: &mut Monitor, row: &Row) {
    let (act, refused) = row;
    let command = command_of(act);
    match refused {
        Some(refused) => refuse(rt, monitor, &command, *refused),
        None => check_answer(rt, monitor, &command, Ok(())),
    }
}

fn offer_all(rt: &impl Abort, monitor: &mut Monitor, rows: &[Row]) {
    for row in rows {
        offer(rt, monitor, row);
    }
}

const GRANULES: [Row; 5] = [
    (Delegate(0x800), Some(Unaligned)),
    (Delegate(u64::MAX), Some(Unaligned)),
    (Delegate(0), None),
    (Delegate(u64::MAX - 4095), None),
    (Delegate(u64::MAX - 4095), Some(NotUndelegated)),
];

/// The worked realm's parameters with another value of one of them.
macro_rules! with {
    ($name:ident: $value:expr) => {
        RealmParams {
            $name: $value,
            ..PARAMS
        }
    };
}

const REALM_PARAMETERS: [Row; 13] = [
    (Create(ODD, with!(flags: 1)), Some(BadParams)),
    (Create(ODD, with!(flags: 8)), Some(BadParams)),
    (Create(ODD, with!(s2sz: 31)), Some(BadParams)),
    (Create(ODD, with!(s2sz: 49)), Some(BadParams)),
    (Create(ODD, with!(s2sz: 0)), Some(BadParams)),
    (Create(ODD, with!(s2sz: 255)), Some(BadParams)),
    (Create(ODD, with!(s2sz: 44)), Some(BadParams)),
    (Create(ODD, with!(rtt_level_start: 2)), Some(BadParams)),
    (Create(ODD, with!(rtt_num_start: 1)), Some(BadParams)),
    (Create(ODD, with!(rtt_num_start: 0)), Some(BadParams)),
    (Create(ODD, with!(rtt_base: TABLES + 4096)), Some(BadParams)),
    (Create(ODD, with!(rtt_base: u64::MAX)), Some(BadParams)),
    (Create(ODD, PARAMS), Some(Unaligned)),
];

/// The last start tables that there can be.
const LAST: RealmParams = with!(rtt_base: u64::MAX - 8191);

const REALM_GRANULES: [Row; 10] = [
    (Create(FREE, PARAMS), Some(NotDelegated)),
    (Create(FREE, LAST), Some(NotDelegated)),
    (Delegate(TABLES), None),
    (Delegate(FREE), None),
    (Create(FREE, PARAMS), Some(NotDelegated)),
    (Delegate(TABLES + 4096), None),
    (Create(TABLES, PARAMS), Some(NotDelegated)),
    (Create(TABLES + 4096, PARAMS), Some(NotDelegated)),
    (Create(FREE, with!(flags: 6)), None),
    (Create(ODD, with!(flags: 1)), Some(State)),
];

const NO_REALM: [Row; 3] = [
    (Table(ODD, 1, 255), Some(State)),
    (Ripas(1, 0), Some(State)),
    (Data(ODD, 1), Some(State)),
];

const RTT_CREATE: [Row; 18] = [
    (Table(ODD, 1, 0), Some(BadParams)),
    (Table(ODD, 1, 1), Some(BadParams)),
    (Table(ODD, 1, 4), Some(BadParams)),
    (Table(ODD, 1, 255), Some(BadParams)),
    (Table(ODD, HALF, 2), Some(Unaligned)),
    (Table(FREE, HALF + 0x20_0000, 2), Some(Unaligned)),
    (Table(FREE, u64::MAX, 3), Some(Unaligned)),
    (Table(FREE, HALF, 3), Some(OutsideProtected)),
    (Table(FREE, u64::MAX - (GIB - 1), 2), Some(OutsideProtected)),
    (Table(FREE, HALF - GIB, 3), Some(WalkLevel)),
    (Table(FREE, HALF - GIB, 2), Some(NotDelegated)),
    (Delegate(FREE), None),
    (Table(FREE, HALF - GIB, 2), None),
    (Table(FREE, HALF - GIB, 2), Some(WalkLevel)),
    (Table(FREE, HALF - GIB, 3), Some(NotDelegated)),
    (Activate, None),
    (Delegate(FREE + 4096), None),
    (Table(FREE + 4096, HALF - 0x20_0000, 3), None),
];

const INIT_RIPAS: [Row; 22] = [
    (Ripas(1, 1), Some(BadParams)),
    (Ripas(u64::MAX, 0), Some(BadParams)),
    (Ripas(1, u64::MAX), Some(Unaligned)),
    (Ripas(0, HALF + 1), Some(Unaligned)),
    (Ripas(4096, HALF + 4096), Some(OutsideProtected)),
    (Ripas(4096, GIB), Some(WalkLevel)),
    (Ripas(0, 4096), Some(WalkLevel)),
    (Delegate(FREE), None),
    (Table(FREE, 2 * GIB, 2), None),
    (Ripas(HALF - GIB, HALF), None),
    (Ripas(2 * GIB, 4 * GIB), Some(WalkLevel)),
    (Ripas(GIB, 3 * GIB), Some(NotFresh)),
    (Ripas(HALF - GIB, HALF), Some(NotFresh)),
    (Ripas(3 * GIB, HALF), Some(NotFresh)),
    (Ripas(HALF - GIB + 4096, HALF), Some(WalkLevel)),
    (
        Ripas(HALF - GIB + 4096, HALF + 4096),
        Some(OutsideProtected),
    ),
    (Ripas(GIB, 2 * GIB), None),
    (Ripas(2 * GIB, 3 * GIB), None),
    (Ripas(0, 2 * GIB), Some(NotFresh)),
    (Ripas(0, GIB), None),
    (Activate, None),
    (Ripas(1, 0), Some(State)),
];

/// Four start tables of 512 GiB.
const FOUR_TABLES: RealmParams = RealmParams {
    s2sz: 42,
    rtt_num_start: 8,
    ..PARAMS
};

/// A run ends with its start table: here each of four covers 512 GiB.
const START_TABLES: [Row; 13] = [
    (Delegate(TABLES), None),
    (Delegate(TABLES + 0x1000), None),
    (Delegate(TABLES + 0x2000), None),
    (Delegate(TABLES + 0x3000), None),
    (Delegate(TABLES + 0x4000), None),
    (Delegate(TABLES + 0x5000), None),
    (Delegate(TABLES + 0x6000), None),
    (Delegate(TABLES + 0x7000), None),
    (Delegate(FREE), None),
    (Create(FREE, FOUR_TABLES), None),
    (Ripas(HALF - GIB, HALF + GIB), Some(WalkLevel)),
    (Ripas(HALF - GIB, HALF), None),
    (Ripas(HALF, HALF + GIB), None),
];

const DATA_PARAMETERS: [Row; 7] = [
    (Measured(ODD, 1, 32), Some(BadParams)),
    (Data(ODD, HALF), Some(Unaligned)),
    (Data(FREE, HALF + 1), Some(Unaligned)),
    (Data(FREE, HALF), Some(OutsideProtected)),
    (Data(FREE, HALF - 4096), Some(WalkLevel)),
    (Activate, None),
    (Measured(ODD, 1, 32), Some(State)),
];

const BASE: u64 = HALF - GIB;

const BESIDE: u64 = HALF - GIB + 0x20_0000;

const DATA_PAGES: [Row; 14] = [
    (Delegate(FREE), None),
    (Delegate(FREE + 4096), None),
    (Table(FREE, BASE, 2), None),
    (Ripas(BASE, BESIDE), None),
    (Table(FREE + 4096, BASE, 3), None),
    (Data(ODD - 0x800, BESIDE), Some(WalkLevel)),
    (Data(FREE, BASE), Some(NotDelegated)),
    (Delegate(FREE + 8192), None),
    (Data(FREE + 8192, BASE), None),
    (Delegate(FREE + 12288), None),
    (Table(FREE + 12288, BESIDE, 3), None),
    (Data(FREE, BASE), Some(Assigned)),
    (Data(FREE, BESIDE), Some(NotRam)),
    (Measured(FREE, BESIDE - 4096, 31), Some(NotDelegated)),
];

const NO_RECS: [Row; 2] = [
    (Rec(ODD, 0, 0, [ODD, ODD]), Some(State)),
    (Activate, Some(State)),
];

const REC_PARAMETERS: [Row; 9] = [
    (Rec(ODD, 0, 0, [ODD, ODD]), Some(BadParams)),
    (Rec(ODD, 2, 0, [ODD, ODD]), Some(BadParams)),
    (Rec(ODD, 3, 0, [ODD, ODD]), Some(BadParams)),
    (Rec(ODD, u64::MAX, 0, [ODD, ODD]), Some(BadParams)),
    (Rec(ODD, 1, 1 << 4, [ODD, ODD]), Some(BadParams)),
    (Rec(ODD, 1, 1 << 7, [ODD, ODD]), Some(BadParams)),
    (Rec(ODD, 1, 1 << 32, [ODD, ODD]), Some(BadParams)),
    (Rec(ODD, 1, 1 << 63, [ODD, ODD]), Some(BadParams)),
    (Rec(ODD, 1, u64::MAX, [ODD, ODD]), Some(BadParams)),
];

const REC_INDICES: [Row; 9] = [
    (Rec(ODD, 1, 1, [FREE, FREE]), Some(Unaligned)),
    (Rec(FREE, 1, 1, [FREE, ODD]), Some(Unaligned)),
    (Rec(FREE, 1, 1, [FREE, FREE]), Some(RecIndex)),
    (Rec(FREE, 1, 1 << 8, [FREE, FREE]), Some(RecIndex)),
    (Rec(FREE, 1, 1 << 16, [FREE, FREE]), Some(RecIndex)),
    (Rec(FREE, 1, 1 << 24, [FREE, FREE]), Some(RecIndex)),
    (Rec(FREE, 1, 0xffff_ff0f, [FREE, FREE]), Some(RecIndex)),
    (WithOneAux(FREE, 1), Some(RecIndex)),
    (WithOneAux(FREE, 0), Some(AuxCount)),
];

const SECOND: u64 = FREE + 4096;

const THIRD: u64 = FREE + 8192;

const REC_GRANULES: [Row; 10] = [
    (Delegate(FREE), None),
    (Delegate(SECOND), None),
    (Rec(FREE, 1, 0, [SECOND, THIRD]), Some(NotDelegated)),
    (Rec(THIRD, 1, 0, [FREE, SECOND]), Some(NotDelegated)),
    (Rec(FREE, 1, 0, [SECOND, SECOND]), Some(NotDelegated)),
    (Rec(FREE, 1, 0, [SECOND, FREE]), Some(NotDelegated)),
    (Delegate(THIRD), None),
    (Rec(FREE, 1, 0, [THIRD, SECOND]), None),
    (Rec(FREE, 1, 0, [THIRD, SECOND]), Some(RecIndex)),
    (Rec(FREE, 1, 1, [THIRD, SECOND]), Some(NotDelegated)),
];

/// Lists of commands for a monitor without a realm, each after the number of a REC's auxiliary granules.
const WITHOUT_A_REALM: [(u8, &[Row]); 6] = [
    (0, &GRANULES),
    (0, &REALM_PARAMETERS),
    (0, &REALM_GRANULES),
    (0, &NO_REALM),
    (0, &START_TABLES),
    (2, &NO_RECS),
];

/// Lists of commands for the worked realm.
const OF_A_REALM: [&[Row]; 7] = [
    &RTT_CREATE,
    &INIT_RIPAS,
    &DATA_PARAMETERS,
    &DATA_PAGES,
    &REC_PARAMETERS,
    &REC_INDICES,
    &REC_GRANULES,
];

fn check_new(rt: &impl Abort, alloc: Global, num_aux: u8, rows: &[Row]) {
    let mut monitor = Monitor::new(alloc, num_aux.min(16), None);
    offer_all(rt, &mut monitor, rows);
}

#[test]
fn without_a_realm(rt: HostRuntime) {
    for (num_aux, rows) in &WITHOUT_A_REALM {
        check_new(&rt, rt.alloc(), *num_aux, rows);
    }
}

fn check_created(rt: &impl Abort, alloc: Global, rows: &[Row]) {
    let mut monitor = created(rt, alloc);
    offer_all(rt, &mut monitor, rows);
}

#[test]
fn of_the_worked_realm(rt: HostRuntime) {
    for rows in &OF_A_REALM {
        check_created(&rt, rt.alloc(), rows);
    }
}

/// A REC of the next index, with granules of its own.
fn take_rec(rt: &impl Abort, monitor: &mut Monitor, index: u64) {
    let granule = FREE.saturating_add(index.saturating_mul(3 * 4096));
    let aux = [granule.saturating_add(4096), granule.saturating_add(8192)];
    delegate_all(rt, monitor, granule, 3);
    let mpidr = (index % 16).saturating_add((index / 16).saturating_mul(256));
    take_all(rt, monitor, &[Rec(granule, 1, mpidr, aux)]);
}

const AFTER_17: [Row; 2] = [
    (Rec(FREE, 1, 0x100, [FREE, FREE]), Some(RecIndex)),
    (Rec(FREE, 1, 0x101, [FREE, FREE]), Some(NotDelegated)),
];

/// The sixteenth REC is the last with Aff1 zero.
#[test]
fn recs_count_on(rt: HostRuntime) {
    let mut monitor = created(&rt, rt.alloc());
    for index in 0..17 {
        take_rec(&rt, &mut monitor, index);
    }
    offer_all(&rt, &mut monitor, &AFTER_17);
}

const ACTIVATED: [Row; 2] = [
    (Activate, Some(State)),
    (Rec(ODD, 0, 0, [ODD, ODD]), Some(State)),
];

#[test]
fn activation_keeps_the_measurement(rt: HostRuntime) {
    let mut monitor = created(&rt, rt.alloc());
    let rim = monitor.rim();
    check_answer(&rt, &mut monitor, &Command::Activate, Ok(()));
    check_rim(&rt, &monitor, rim);
    offer_all(&rt, &mut monitor, &ACTIVATED);
}
