//! Each fault of a devicetree, as a launch that changes it is refused for it.
use crate::placements::{Asked, Case, LARGE, What, check_case, files};
use fdt_tree::FdtFault;
use fdt_tree_tests::vectors::{CHOSEN, EMPTY, LATE};
use ipa_layout::LayoutFault;
use std::alloc::Global;
use std::process::Abort;

/// The begin of a node `a`.
const BEGIN_A: [u8; 8] = [0, 0, 0, 1, 0x61, 0, 0, 0];

/// A devicetree and its fault: a file, how many of its bytes are taken, which of them are changed to what,
/// how many times the begin of a node follows, and the fault.
type Row = (
    &'static [u8],
    usize,
    &'static [(usize, u8)],
    usize,
    FdtFault,
);

const ROWS: [Row; 12] = [
    (&EMPTY, 39, &[], 0, FdtFault::Short),
    (&EMPTY, 72, &[(0, 0)], 0, FdtFault::BadMagic),
    (&EMPTY, 72, &[(23, 16)], 0, FdtFault::BadVersion),
    (&EMPTY, 72, &[(7, 0x49)], 0, FdtFault::BadBlock),
    (&EMPTY, 72, &[(55, 1)], 0, FdtFault::BadReserve),
    (&EMPTY, 72, &[(71, 8)], 0, FdtFault::BadToken),
    (&EMPTY, 72, &[(60, 0x61)], 0, FdtFault::BadName),
    (&CHOSEN, 117, &[(87, 9)], 0, FdtFault::BadString),
    (&LATE, 100, &[], 0, FdtFault::LateProperty),
    // A root, and 64 nodes each in the one before it.
    (
        &EMPTY,
        64,
        &[(6, 2), (7, 0x40), (38, 2), (39, 8)],
        64,
        FdtFault::TooDeep,
    ),
    // The memory's size has one cell and more than 32 bits.
    (&EMPTY, 72, &[], 0, FdtFault::BadCells),
    // 2 MiB and 8 bytes.
    (&EMPTY, 72, &[], 262_136, FdtFault::TooLarge),
];

/// Sets bytes, each at its place.
fn change(bytes: &mut [u8], changes: &[(usize, u8)]) {
    for (place, changed) in changes {
        if let Some(byte) = bytes.get_mut(*place) {
            *byte = *changed;
        }
    }
}

/// The devicetree of a row.
fn devicetree(rt: &impl Abort, alloc: Global, row: &Row) -> Vec<u8> {
    let (file, taken, changes, times, _) = row;
    let mut bytes = file.to_vec(alloc).expect(rt, "memory");
    bytes.truncate(*taken);
    change(&mut bytes, changes);
    for _ in 0..*times {
        bytes.extend_from_slice(&BEGIN_A).expect(rt, "memory");
    }
    bytes
}

const ASKED: [Asked; 1] = [(What::Edited, 0x4000_0000, None)];

fn check_row(rt: &impl Abort, alloc: Global, row: &Row, number: usize) {
    let bytes = devicetree(rt, alloc, row);
    let files = files(rt, alloc, &[&[], &[], &bytes]);
    let case: Case = (&LARGE, &ASKED, Err(LayoutFault::Dtb(row.4)));
    check_case(rt, alloc, &files, &case, "a devicetree", number);
}

#[test]
fn each_fault_of_a_devicetree(rt: HostRuntime) {
    for number in 0..ROWS.len() {
        check_row(&rt, rt.alloc(), &ROWS[number], number);
    }
}
