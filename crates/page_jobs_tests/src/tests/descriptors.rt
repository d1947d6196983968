//! Values from outside: pages and descriptors laid out by hand in Python, their digests by its hashlib.
use super::check;
use rim_desc::{
    Algo, Measurement, NO_NUMBERS, RealmNumbers, RealmParams, RecParams, data_descriptor, extend,
    hash, push_digits, realm_page, rec_descriptor, rec_mpidr, rec_page, ripas_descriptor,
};
use std::process::Abort;
use std::test::Fail;

const SMALLEST: RealmParams = RealmParams {
    flags: 0,
    s2sz: 33,
    numbers: NO_NUMBERS,
    rtt_level_start: 2,
    rtt_num_start: 1,
    algo: Algo::Sha256,
    rpv: [7; 64],
    rtt_base: 0x8_0000_0000,
};

const SMALLEST_512: RealmParams = RealmParams {
    algo: Algo::Sha512,
    ..SMALLEST
};

const FULL: RealmParams = RealmParams {
    flags: 6,
    s2sz: 48,
    numbers: RealmNumbers {
        sve_vl: 3,
        num_bps: 5,
        num_wps: 9,
        pmu_num_ctrs: 31,
        ..NO_NUMBERS
    },
    rtt_level_start: 0,
    rtt_num_start: 1,
    algo: Algo::Sha512,
    rpv: [1; 64],
    rtt_base: 0,
};

/// The first eight bytes of a digest, which distinguish it from any other here.
fn front(measurement: &Measurement) -> u64 {
    let b = &measurement.bytes;
    u64::from_be_bytes([b[0], b[1], b[2], b[3], b[4], b[5], b[6], b[7]])
}

fn check_front(rt: &impl Abort, measurement: &Measurement, digest: u64) {
    assert!(rt; front(measurement) == digest, "{digest:x}");
}

/// The algorithm, the parameters, the first eight bytes of the digest, and others, each after its place.
type Realm = (Algo, RealmParams, u64, &'static [(usize, u8)]);

const REALMS: [Realm; 3] = [
    (
        Algo::Sha256,
        SMALLEST,
        0xbf97_de38_8b1a_bb45,
        &[(31, 0x8c), (32, 0), (63, 0)],
    ),
    (
        Algo::Sha512,
        SMALLEST_512,
        0x0636_0d4b_afb1_7ca3,
        &[(63, 0x3a)],
    ),
    (Algo::Sha256, FULL, 0x0cc6_9285_2a48_dc11, &[]),
];

fn has_bytes(measurement: &Measurement, bytes: &[(usize, u8)]) -> bool {
    for (place, byte) in bytes {
        if measurement.bytes.get(*place) != Some(byte) {
            return false;
        }
    }
    true
}

fn check_realm(rt: &impl Abort, row: &Realm) {
    let (algo, params, digest, bytes) = row;
    let found = hash(*algo, &realm_page(params));
    check_front(rt, &found, *digest);
    check(rt, has_bytes(&found, bytes), "other bytes");
}

#[test]
fn realms(rt: HostRuntime) {
    for row in &REALMS {
        check_realm(&rt, row);
    }
}

/// Numbers that follow one another.
const X: u64 = 0x1122_3344_5566_7788;

const GPRS: [u64; 8] = [X, X + 1, X + 2, X + 3, X + 4, X + 5, X + 6, X + 7];

fn check_aux(rt: &impl Abort, params: &RecParams, count: u8) {
    let holds = params.num_aux() == count && params.aux().len() == usize::from(count);
    check(rt, holds, "the auxiliary granules");
}

#[test]
fn recs(rt: HostRuntime) {
    let params = RecParams::new(1, 0x101, 0x4008_0000, GPRS, &[0x1000, 0x2000]);
    let page = hash(Algo::Sha256, &rec_page(&params));
    check_front(&rt, &page, 0x9b4b_d806_c48b_58b4);
    check_aux(&rt, &params, 2);
    check(&rt, params.mpidr() == 0x101, "the MPIDR");
    check_aux(&rt, &RecParams::new(0, 0, 0, [0; 8], &[9; 16]), 16);
}

#[test]
fn mpidrs(rt: HostRuntime) {
    check(&rt, rec_mpidr(17) == 0x101, "the MPIDR of REC 17");
    check(&rt, rec_mpidr(511) == 0x1f0f, "the MPIDR of the last REC");
}

const CONTENT: Measurement = Measurement {
    bytes: [
        0x00, 0x01, 0x02, 0x03, 0x04, 0x05, 0x06, 0x07, 0x08, 0x09, 0x0a, 0x0b, 0x0c, 0x0d, 0x0e,
        0x0f, 0x10, 0x11, 0x12, 0x13, 0x14, 0x15, 0x16, 0x17, 0x18, 0x19, 0x1a, 0x1b, 0x1c, 0x1d,
        0x1e, 0x1f, 0x20, 0x21, 0x22, 0x23, 0x24, 0x25, 0x26, 0x27, 0x28, 0x29, 0x2a, 0x2b, 0x2c,
        0x2d, 0x2e, 0x2f, 0x30, 0x31, 0x32, 0x33, 0x34, 0x35, 0x36, 0x37, 0x38, 0x39, 0x3a, 0x3b,
        0x3c, 0x3d, 0x3e, 0x3f,
    ],
};

fn check_descriptor(rt: &impl Abort, descriptor: &[u8; 256], digest: u64) {
    check_front(rt, &extend(Algo::Sha256, descriptor), digest);
}

#[test]
fn descriptors(rt: HostRuntime) {
    let rim = hash(Algo::Sha256, &realm_page(&SMALLEST));
    let ripas = ripas_descriptor(&rim, 0x4000_0000, 0x4020_0000);
    check_descriptor(&rt, &ripas, 0x0618_dc76_3958_9f42);
    let unmeasured = data_descriptor(&rim, 0x4000_0000, None);
    check_descriptor(&rt, &unmeasured, 0xbea7_df4f_d2a3_bb47);
    let measured = data_descriptor(&rim, 0x4000_0000, Some(&CONTENT));
    check_descriptor(&rt, &measured, 0x8139_fee5_e6d6_8998);
    let rec = rec_descriptor(&rim, &CONTENT);
    check_descriptor(&rt, &rec, 0x8ba6_0b3d_eaf3_98ca);
}

#[test]
fn sixteen_digits(rt: HostRuntime) -> Result<(), Fail> {
    let mut text = Vec::new(rt.alloc());
    push_digits(&mut text, 0x8_0000_2aBF)?;
    push_digits(&mut text, u64::MAX)?;
    let holds = text.as_slice() == b"0000000800002abfffffffffffffffff".as_slice();
    check(&rt, holds, "the digits");
    Ok(())
}
