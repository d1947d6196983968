use rim_desc::{Algo, Command, Measurement, NO_NUMBERS, RealmNumbers, RealmParams, RecParams};
use rmi_line::{print_line, read_line};
use std::alloc::Global;
use std::process::Abort;

const SMALL: RealmParams = RealmParams {
    flags: 0,
    s2sz: 40,
    numbers: NO_NUMBERS,
    rtt_level_start: 1,
    rtt_num_start: 2,
    algo: Algo::Sha256,
    rpv: [0; 64],
    rtt_base: 0x8_0000_0000,
};

// Each number has a value of its own.
const FULL: RealmParams = RealmParams {
    flags: 0xffff_ffff_ffff_fffe,
    s2sz: 48,
    numbers: RealmNumbers {
        sve_vl: 9,
        num_bps: 10,
        num_wps: 99,
        pmu_num_ctrs: 100,
        ..NO_NUMBERS
    },
    rtt_level_start: 0,
    rtt_num_start: 255,
    algo: Algo::Sha512,
    rpv: COUNTED,
    rtt_base: 0x0123_4567_89ab_cdef,
};

const COUNTED: [u8; 64] = [
    0x00, 0x01, 0x02, 0x03, 0x04, 0x05, 0x06, 0x07, 0x08, 0x09, 0x0a, 0x0b, 0x0c, 0x0d, 0x0e, 0x0f,
    0x10, 0x11, 0x12, 0x13, 0x14, 0x15, 0x16, 0x17, 0x18, 0x19, 0x1a, 0x1b, 0x1c, 0x1d, 0x1e, 0x1f,
    0x20, 0x21, 0x22, 0x23, 0x24, 0x25, 0x26, 0x27, 0x28, 0x29, 0x2a, 0x2b, 0x2c, 0x2d, 0x2e, 0x2f,
    0x30, 0x31, 0x32, 0x33, 0x34, 0x35, 0x36, 0x37, 0x38, 0x39, 0x3a, 0x3b, 0x3c, 0x3d, 0x3e, 0x3f,
];

const LINES: [(Command, &str); 13] = [
    (
        Command::Delegate {
            granule: 0x8_0000_0000,
        },
        "delegate 0000000800000000",
    ),
    (
        Command::Delegate { granule: 0 },
        "delegate 0000000000000000",
    ),
    (
        Command::Delegate { granule: u64::MAX },
        "delegate ffffffffffffffff",
    ),
    (
        Command::RealmCreate {
            rd: 0x8_0000_2000,
            params: SMALL,
        },
        "realm_create 0000000800002000 0000000800000000 1 2 40 sha256 0000000000000000 0 0 0 0 00000000000000000000000000000000000000000000000000000000000000000000000000000000000000000000000000000000000000000000000000000000",
    ),
    (
        Command::RealmCreate {
            rd: 0xfedc_ba98_7654_3210,
            params: FULL,
        },
        "realm_create fedcba9876543210 0123456789abcdef 0 255 48 sha512 fffffffffffffffe 9 10 99 100 000102030405060708090a0b0c0d0e0f101112131415161718191a1b1c1d1e1f202122232425262728292a2b2c2d2e2f303132333435363738393a3b3c3d3e3f",
    ),
    (
        Command::InitRipas {
            base: 0x4000_0000,
            top: 0xc000_0000,
        },
        "init_ripas 0000000040000000 00000000c0000000",
    ),
    (
        Command::RttCreate {
            rtt: 0x8_0000_3000,
            ipa: 0x4000_0000,
            level: 2,
        },
        "rtt_create 0000000800003000 0000000040000000 2",
    ),
    (
        Command::RttCreate {
            rtt: 1,
            ipa: u64::MAX,
            level: 255,
        },
        "rtt_create 0000000000000001 ffffffffffffffff 255",
    ),
    (
        Command::DataCreate {
            granule: 0x8_0000_5000,
            ipa: 0x4000_0000,
            content: None,
        },
        "data_create 0000000800005000 0000000040000000 unmeasured",
    ),
    (
        Command::DataCreate {
            granule: 0x8_0000_6000,
            ipa: 0x4000_1000,
            content: Some(Measurement { bytes: COUNTED }),
        },
        "data_create 0000000800006000 0000000040001000 measured 000102030405060708090a0b0c0d0e0f101112131415161718191a1b1c1d1e1f202122232425262728292a2b2c2d2e2f303132333435363738393a3b3c3d3e3f",
    ),
    (
        Command::DataCreate {
            granule: 0,
            ipa: 0,
            content: Some(Measurement { bytes: [255; 64] }),
        },
        "data_create 0000000000000000 0000000000000000 measured ffffffffffffffffffffffffffffffffffffffffffffffffffffffffffffffffffffffffffffffffffffffffffffffffffffffffffffffffffffffffffffffff",
    ),
    (
        Command::DataCreateUnknown {
            granule: 0x8_0000_6000,
            ipa: 0x4000_1000,
        },
        "data_unknown 0000000800006000 0000000040001000",
    ),
    (Command::Activate, "activate"),
];

fn check(rt: &impl Abort, alloc: Global, command: &Command, line: &str) {
    let printed = print_line(alloc, command).expect(rt, "memory");
    assert!(rt; printed.as_slice() == line.as_bytes(), "{line}");
    assert!(rt; read_line(line.as_bytes()) == Some(*command), "{line}");
    // Of no other line is a front a line: level 25 is a front of level 255.
    if !line.ends_with("255") {
        check_fronts(rt, line.as_bytes());
    }
}

fn check_fronts(rt: &impl Abort, line: &[u8]) {
    for end in 0..line.len() {
        check_refused(rt, &line[..end]);
    }
}

fn check_refused(rt: &impl Abort, line: &[u8]) {
    assert!(rt; read_line(line) == None, "{line:?}");
}

#[test]
fn commands_without_recs(rt: HostRuntime) {
    for (command, line) in &LINES {
        check(&rt, rt.alloc(), command, line);
    }
}

const X: [u64; 8] = [0x10, 0x11, 0x12, 0x13, 0x14, 0x15, 0x16, 0x17];

const AUX: [u64; 16] = [
    0x1000, 0x2000, 0x3000, 0x4000, 0x5000, 0x6000, 0x7000, 0x8000, 0x9000, 0xa000, 0xb000, 0xc000,
    0xd000, 0xe000, 0xf000, 0x1_0000,
];

// The auxiliary granules of a REC, and its line.
const RECS: [(&[u64], &str); 3] = [
    (
        &[],
        "rec_create 0000000800007000 0000000000000001 0000000000000101 0000000040080000 0000000000000010 0000000000000011 0000000000000012 0000000000000013 0000000000000014 0000000000000015 0000000000000016 0000000000000017 0",
    ),
    (
        &[0x8_0000_8000, 0x8_0000_9000],
        "rec_create 0000000800007000 0000000000000001 0000000000000101 0000000040080000 0000000000000010 0000000000000011 0000000000000012 0000000000000013 0000000000000014 0000000000000015 0000000000000016 0000000000000017 2 0000000800008000 0000000800009000",
    ),
    (
        &AUX,
        "rec_create 0000000800007000 0000000000000001 0000000000000101 0000000040080000 0000000000000010 0000000000000011 0000000000000012 0000000000000013 0000000000000014 0000000000000015 0000000000000016 0000000000000017 16 0000000000001000 0000000000002000 0000000000003000 0000000000004000 0000000000005000 0000000000006000 0000000000007000 0000000000008000 0000000000009000 000000000000a000 000000000000b000 000000000000c000 000000000000d000 000000000000e000 000000000000f000 0000000000010000",
    ),
];

fn check_rec(rt: &impl Abort, alloc: Global, aux: &[u64], line: &str) {
    if aux.len() > 16 {
        panic!(rt; "more than 16 auxiliary granules");
    }
    let params = RecParams::new(1, 0x101, 0x4008_0000, X, aux);
    let command = Command::RecCreate {
        rec: 0x8_0000_7000,
        params,
    };
    check(rt, alloc, &command, line);
}

#[test]
fn recs(rt: HostRuntime) {
    for (aux, line) in &RECS {
        check_rec(&rt, rt.alloc(), aux, line);
    }
}

// Lines that spell no command.
const REFUSED: [&str; 35] = [
    "",
    " ",
    "delegat 0000000800000000",
    "Delegate 0000000800000000",
    "undelegate 0000000800000000",
    "delegate0000000800000000",
    "delegate  0000000800000000",
    " delegate 0000000800000000",
    "delegate\t0000000800000000",
    "delegate 0000000800000000 ",
    "delegate 0000000800000000\r",
    "delegate 0000000800000000\n",
    "delegate 000000080000000",
    "delegate 00000000800000000",
    "delegate 00000008ABCDEF00",
    "delegate 00000008abcdeg00",
    "delegate 0x00000800000000",
    "delegate 0000000800000000 0000000800000000",
    "activate 0000000800000000",
    "init_ripas 0000000040000000",
    "rtt_create 0000000800003000 0000000040000000 02",
    "rtt_create 0000000800003000 0000000040000000 256",
    "rtt_create 0000000800003000 0000000040000000 1000",
    "rtt_create 0000000800003000 0000000040000000 -1",
    "rtt_create 0000000800003000 0000000040000000 f",
    "data_create 0000000800005000 0000000040000000 unmeasured 0",
    "data_create 0000000800005000 0000000040000000 measured 0000000000000000000000000000000000000000000000000000000000000000000000000000000000000000000000000000000000000000000000000000000",
    "data_create 0000000800005000 0000000040000000 measured 000000000000000000000000000000000000000000000000000000000000000000000000000000000000000000000000000000000000000000000000000000000",
    "data_create 0000000800005000 0000000040000000 measured 0000000000000000000000000000000000000000000000000000000000000000000000000000000000000000000000000000000000000000000000000000000F",
    "realm_create 0000000800002000 0000000800000000 1 2 40 sha384 0000000000000000 0 0 0 0 00000000000000000000000000000000000000000000000000000000000000000000000000000000000000000000000000000000000000000000000000000000",
    "rec_create 0000000800007000 0000000000000001 0000000000000101 0000000040080000 0000000000000010 0000000000000011 0000000000000012 0000000000000013 0000000000000014 0000000000000015 0000000000000016 0000000000000017 0 0000000800008000",
    "rec_create 0000000800007000 0000000000000001 0000000000000101 0000000040080000 0000000000000010 0000000000000011 0000000000000012 0000000000000013 0000000000000014 0000000000000015 0000000000000016 0000000000000017 2 0000000800008000",
    "rec_create 0000000800007000 0000000000000001 0000000000000101 0000000040080000 0000000000000010 0000000000000011 0000000000000012 0000000000000013 0000000000000014 0000000000000015 0000000000000016 0000000000000017 2 0000000800008000 0000000800008000 0000000800008000",
    "rec_create 0000000800007000 0000000000000001 0000000000000101 0000000040080000 0000000000000010 0000000000000011 0000000000000012 0000000000000013 0000000000000014 0000000000000015 0000000000000016 0000000000000017 17 0000000800008000 0000000800008000 0000000800008000 0000000800008000 0000000800008000 0000000800008000 0000000800008000 0000000800008000 0000000800008000 0000000800008000 0000000800008000 0000000800008000 0000000800008000 0000000800008000 0000000800008000 0000000800008000 0000000800008000",
    "rec_create 0000000800007000 0000000000000001 0000000000000101 0000000040080000 0000000000000010 0000000000000011 0000000000000012 0000000000000013 0000000000000014 0000000000000015 0000000000000016 0000000000000017 0000000800008000",
];

#[test]
fn refused(rt: HostRuntime) {
    for line in &REFUSED {
        check_refused(&rt, line.as_bytes());
    }
}
