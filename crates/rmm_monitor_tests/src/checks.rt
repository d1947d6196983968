//! What tests ask of a monitor. Each question is compared at one place, since each comparison is proved.
use rim_desc::{Command, Measurement, RealmParams, RecParams};
use rmm_model::{Kind, Refused};
use rmm_monitor::Monitor;
use std::process::Abort;

/// A command, in short.
#[derive(Clone, Copy)]
pub enum Act {
    Delegate(u64),
    Create(u64, RealmParams),
    /// The granule of a table, an IPA and a level.
    Table(u64, u64, u8),
    Ripas(u64, u64),
    /// A granule and an IPA.
    Data(u64, u64),
    /// A page of which this byte of the content is 1.
    Measured(u64, u64, usize),
    /// A granule, flags, an MPIDR and two auxiliary granules.
    Rec(u64, u64, u64, [u64; 2]),
    /// A granule and an MPIDR; the granule is its one auxiliary granule too.
    WithOneAux(u64, u64),
    Activate,
}

fn data_create(granule: u64, ipa: u64, content: Option<Measurement>) -> Command {
    Command::DataCreate {
        granule,
        ipa,
        content,
    }
}

fn rec_create(rec: u64, flags: u64, mpidr: u64, aux: [u64; 2]) -> Command {
    let params = RecParams::new(flags, mpidr, 0, [0; 8], &aux);
    Command::RecCreate { rec, params }
}

fn one_at(index: usize) -> Measurement {
    let mut bytes = [0; 64];
    bytes[index % 64] = 1;
    Measurement { bytes }
}

pub fn command_of(act: &Act) -> Command {
    match *act {
        Act::Delegate(granule) => Command::Delegate { granule },
        Act::Create(rd, params) => Command::RealmCreate { rd, params },
        Act::Table(rtt, ipa, level) => Command::RttCreate { rtt, ipa, level },
        Act::Ripas(base, top) => Command::InitRipas { base, top },
        Act::Data(granule, ipa) => data_create(granule, ipa, None),
        Act::Measured(granule, ipa, index) => data_create(granule, ipa, Some(one_at(index))),
        Act::Rec(rec, flags, mpidr, aux) => rec_create(rec, flags, mpidr, aux),
        Act::WithOneAux(rec, mpidr) => Command::RecCreate {
            rec,
            params: RecParams::new(1, mpidr, 0, [0; 8], &[rec]),
        },
        Act::Activate => Command::Activate,
    }
}

pub fn check(rt: &impl Abort, holds: bool, name: &str) {
    assert!(rt; holds, "{name}");
}

/// Offers a command, which is to be answered so.
pub fn check_answer(
    rt: &impl Abort,
    monitor: &mut Monitor,
    command: &Command,
    answer: Result<(), Refused>,
) {
    assert!(rt; monitor.apply(command) == answer, "{command:?}, {answer:?}");
}

pub fn check_rim(rt: &impl Abort, monitor: &Monitor, rim: Option<Measurement>) {
    check(rt, monitor.rim() == rim, "the measurement");
}

pub fn check_owner_count(rt: &impl Abort, monitor: &Monitor, count: usize) {
    check(rt, monitor.owner_count() == count, "how many owners");
}

pub fn check_owner(rt: &impl Abort, monitor: &Monitor, pa: u64, owner: Option<Kind>) {
    assert!(rt; monitor.owner(pa) == owner, "at {pa:x}");
}

/// Applies commands, all of which are to be taken.
pub fn take_all(rt: &impl Abort, monitor: &mut Monitor, acts: &[Act]) {
    for act in acts {
        check_answer(rt, monitor, &command_of(act), Ok(()));
    }
}
