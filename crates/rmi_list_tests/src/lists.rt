//! The commands of worked launches, line by line. The granules before the realm are left out but for one row.
use crate::launches::{CONFIG, NOTHING, Parts, WIDE, check, launch_of, list_of};
use rim_desc::{Command, Measurement};
use rim_launch::{Config, Step};
use rmi_line::print_line;
use rmi_list::Plan;
use std::alloc::Global;
use std::process::Abort;

/// The content that measured pages are given.
const CONTENT: Measurement = Measurement { bytes: [0xab; 64] };

/// Adds a command's line and a newline.
fn push_line(rt: &impl Abort, alloc: Global, text: &mut Vec<u8>, command: &Command) {
    let line = print_line(alloc, command).expect(rt, "memory");
    text.extend_from_slice(&line).expect(rt, "memory");
    text.push(b'\n').expect(rt, "memory");
}

/// The lines of a plan from a command on, each with a newline.
fn lines_of(rt: &impl Abort, alloc: Global, plan: &Plan, first: usize) -> Vec<u8> {
    let mut text = Vec::new(alloc);
    for index in first..plan.len() {
        push_line(rt, alloc, &mut text, &plan.command(index, &CONTENT));
    }
    text
}

fn check_list(rt: &impl Abort, alloc: Global, row: &Row) {
    let (name, config, parts, first, lines) = row;
    let launch = launch_of(rt, alloc, config, parts);
    let plan = list_of(rt, alloc, &launch).expect(rt, "a list");
    let text = lines_of(rt, alloc, &plan, *first);
    check(rt, text.as_slice() == lines.as_bytes(), name);
}

/// A configuration, the parts of a launch, the number of the first line that is compared, and the lines from it on.
type Row = (&'static str, Config, Parts, usize, &'static str);

const ROWS: [Row; 8] = [
    (
        "nothing but a realm",
        CONFIG,
        NOTHING,
        8,
        "delegate 0000000800008000\nrealm_create 0000000800008000 0000000800000000 2 8 33 sha256 0000000000000000 0 0 0 0 00000000000000000000000000000000000000000000000000000000000000000000000000000000000000000000000000000000000000000000000000000000\nactivate\n",
    ),
    (
        "one region that ends past 2 MiB",
        CONFIG,
        Parts {
            ram: &[(0x4000_0000, 0x4020_1000)],
            steps: &[Step::Ram(0)],
            ..NOTHING
        },
        10,
        "init_ripas 0000000040000000 0000000040200000\ndelegate 0000000800009000\nrtt_create 0000000800009000 0000000040200000 3\ninit_ripas 0000000040200000 0000000040201000\nactivate\n",
    ),
    (
        "a region from 4 KiB on",
        CONFIG,
        Parts {
            ram: &[(0x4000_1000, 0x4040_0000)],
            steps: &[Step::Ram(0)],
            ..NOTHING
        },
        10,
        "delegate 0000000800009000\nrtt_create 0000000800009000 0000000040000000 3\ninit_ripas 0000000040001000 0000000040200000\ninit_ripas 0000000040200000 0000000040400000\nactivate\n",
    ),
    (
        "blocks of 1 GiB",
        WIDE,
        Parts {
            ram: &[(0x4000_0000, 0xc000_0000)],
            steps: &[Step::Ram(0)],
            ..NOTHING
        },
        4,
        "init_ripas 0000000040000000 00000000c0000000\nactivate\n",
    ),
    (
        "a page of data that is not measured in a block of 1 GiB",
        WIDE,
        Parts {
            ram: &[(0x4000_0000, 0xc000_0000)],
            items: &[(0x4000_0000, 4096, false)],
            steps: &[Step::Ram(0), Step::Item(0)],
            ..NOTHING
        },
        0,
        "delegate 0000000800000000\ndelegate 0000000800001000\ndelegate 0000000800002000\nrealm_create 0000000800002000 0000000800000000 1 2 40 sha256 0000000000000000 0 0 0 0 00000000000000000000000000000000000000000000000000000000000000000000000000000000000000000000000000000000000000000000000000000000\ninit_ripas 0000000040000000 00000000c0000000\ndelegate 0000000800003000\nrtt_create 0000000800003000 0000000040000000 2\ndelegate 0000000800004000\nrtt_create 0000000800004000 0000000040000000 3\ndelegate 0000000800005000\ndata_create 0000000800005000 0000000040000000 unmeasured\nactivate\n",
    ),
    (
        "a second region by a later step",
        WIDE,
        Parts {
            ram: &[(0x4000_0000, 0xc000_0000), (0xc000_0000, 0xc020_0000)],
            items: &[(0x4000_0000, 4096, false)],
            steps: &[Step::Ram(0), Step::Item(0), Step::Ram(1)],
            ..NOTHING
        },
        11,
        "delegate 0000000800006000\nrtt_create 0000000800006000 00000000c0000000 2\ninit_ripas 00000000c0000000 00000000c0200000\nactivate\n",
    ),
    (
        "a measured item that begins inside a page, and one without pages",
        CONFIG,
        Parts {
            ram: &[(0x4000_0000, 0x4020_0000)],
            items: &[(0x4000_0004, 4096, true), (0x4010_0000, 0, true)],
            steps: &[Step::Ram(0), Step::Item(1), Step::Item(0)],
            ..NOTHING
        },
        11,
        "delegate 0000000800009000\nrtt_create 0000000800009000 0000000040000000 3\ndelegate 000000080000a000\ndata_create 000000080000a000 0000000040000000 measured abababababababababababababababababababababababababababababababababababababababababababababababababababababababababababababababab\ndelegate 000000080000b000\ndata_create 000000080000b000 0000000040001000 measured abababababababababababababababababababababababababababababababababababababababababababababababababababababababababababababababab\nactivate\n",
    ),
    (
        "two RECs",
        CONFIG,
        Parts {
            recs: &[true, true],
            steps: &[Step::Rec(0), Step::Rec(1)],
            ..NOTHING
        },
        10,
        "delegate 0000000800009000\nrec_create 0000000800009000 0000000000000001 0000000000000000 0000000040080000 0000000000000000 0000000000000000 0000000000000000 0000000000000000 0000000000000000 0000000000000000 0000000000000000 0000000000000000 0\ndelegate 000000080000a000\nrec_create 000000080000a000 0000000000000001 0000000000000001 0000000040080000 0000000000000000 0000000000000000 0000000000000000 0000000000000000 0000000000000000 0000000000000000 0000000000000000 0000000000000000 0\nactivate\n",
    ),
];

#[test]
fn worked_lists(rt: HostRuntime) {
    for row in &ROWS {
        check_list(&rt, rt.alloc(), row);
    }
}

/// Pages over two tables.
const OVER_TWO_TABLES: Parts = Parts {
    ram: &[(0x4000_0000, 0x4060_0000)],
    items: &[(0x4010_0000, 0x30_0000, true)],
    ..NOTHING
};

/// Numbers of commands of its list, and the commands.
const COMMANDS: [(usize, Command); 3] = [
    (
        10,
        Command::InitRipas {
            base: 0x4000_0000,
            top: 0x4060_0000,
        },
    ),
    (
        526,
        Command::RttCreate {
            rtt: 0x8_0010_a000,
            ipa: 0x4020_0000,
            level: 3,
        },
    ),
    (1551, Command::Activate),
];

/// Numbers of commands of its list, and the item and the page that they create.
const PAGES: [(usize, Option<(usize, u64)>); 3] = [
    (13, None),
    (14, Some((0, 0))),
    (1550, Some((0, 767))),
];

fn check_command(rt: &impl Abort, plan: &Plan, row: &(usize, Command)) {
    let (index, command) = row;
    if *index < plan.len() {
        check(rt, plan.command(*index, &CONTENT) == *command, "a command");
    }
}

fn check_commands(rt: &impl Abort, plan: &Plan) {
    for row in &COMMANDS {
        check_command(rt, plan, row);
    }
}

fn check_page(rt: &impl Abort, plan: &Plan, row: &(usize, Option<(usize, u64)>)) {
    let (index, page) = row;
    if *index < plan.len() {
        check(rt, plan.page_of(*index) == *page, "a page");
    }
}

fn check_pages(rt: &impl Abort, plan: &Plan) {
    for row in &PAGES {
        check_page(rt, plan, row);
    }
}

#[test]
fn pages_over_two_tables(rt: HostRuntime) {
    let launch = launch_of(&rt, rt.alloc(), &CONFIG, &OVER_TWO_TABLES);
    let plan = list_of(&rt, rt.alloc(), &launch).expect(&rt, "a list");
    check(&rt, plan.len() == 1552, "how many commands");
    check_commands(&rt, &plan);
    check_pages(&rt, &plan);
}
