//! The expected measurements are from a program in Python: descriptors laid out by hand, digests by its hashlib.
ghost use Rattle.launch_plan.specs.Rows.{IsFilled};

use super::{LEAD, check, filled_row, item, plan, put};
use page_jobs::{Blob, DigestRow, Table};
use rim_chain::{LaunchJob, LaunchPlan, chain};
use rim_desc::{Algo, Measurement, Source};
use std::alloc::Global;
use std::process::Abort;

/// The algorithm, the first eight bytes of the measurement, its byte 31 and its last byte.
type Chain = (Algo, u64, u8, u8);

const CHAINS: [Chain; 2] = [
    (Algo::Sha256, 0xe95b_2003_87e8_ef66, 0xfd, 0),
    (Algo::Sha512, 0x5256_7ff7_c2b7_b082, 0xf6, 0x06),
];

/// A slot is empty: nothing is filled.
fn check_unfilled(rt: &impl Abort, alloc: Global, plan: &LaunchPlan, table: &Table) {
    let mut row = DigestRow::reserve(alloc, plan.pages()).expect(rt, "memory");
    check(rt, !plan.fill_row(table, &mut row), "a slot is empty");
    check(rt, row.digests().len() == 0, "nothing is filled");
}

fn check_value(rt: &impl Abort, value: &Measurement, row: &Chain) {
    let (_, prefix, middle, last) = row;
    let b = &value.bytes;
    let begin = u64::from_be_bytes([b[0], b[1], b[2], b[3], b[4], b[5], b[6], b[7]]);
    let holds = begin == *prefix && b[31] == *middle && b[63] == *last;
    assert!(rt; holds, "{prefix:x}");
}

/// The value of a launch whose row is filled.
fn check_job(rt: &impl Abort, plan: &LaunchPlan, row: DigestRow, want: &Chain)
    requires { IsFilled plan.now row.digests }
{
    let value = chain(plan, &row);
    check_value(rt, &value, want);
    let rim = LaunchJob::new(5, plan, row).run();
    check(rt, rim.number() == 5, "the number");
    check(rt, rim.value() == value, "the value");
}

fn check_chain(rt: &impl Abort, alloc: Global, want: &Chain) {
    let plan = plan(rt, alloc, want.0);
    let bytes = item(rt, alloc);
    let blob = Blob::new(Source::File(0), LEAD, &bytes);
    let pages = [blob.page(want.0, 0), blob.page(want.0, 1)];
    let mut table = Table::reserve(alloc, pages.as_slice()).expect(rt, "memory");
    put(rt, &mut table, 0, pages[0]);
    check_unfilled(rt, alloc, &plan, &table);
    put(rt, &mut table, 1, pages[1]);
    let row = filled_row(rt, alloc, &plan, &table);
    check_job(rt, &plan, row, want);
}

#[test]
fn a_filled_row_is_chained(rt: HostRuntime) {
    for row in &CHAINS {
        check_chain(&rt, rt.alloc(), row);
    }
}
