//! Launches that are placed or refused, each a row.
use crate::placements::What::{Dtb, Edited, Initrd, Raw};
use crate::placements::{
    Asked, Case, Contents, ENDLESS_IMAGE, FAR_IMAGE, IMAGE, LARGE, LONG_IMAGE, SHORT, SMALL,
    Stretch, What, check_case, files,
};
use arm64_image::ImageFault;
use fdt_tree::FdtFault;
use fdt_tree_tests::vectors::EMPTY;
use ipa_layout::LayoutFault;
use ipa_layout::LayoutFault::{InitrdWindow, KernelBase, OutsideRam, Overlap, Size, Unaligned};
use std::alloc::Global;
use std::process::Abort;

/// A kernel at the start of RAM, and raw content of file 1 outside RAM and at the end of its first page.
const KERNEL: Asked = (What::Kernel, 0x4000_0000, None);

const OUTSIDE: Asked = (Raw(1), 0, None);

const END: Asked = (Raw(1), 0x4000_0ff8, None);

/// An item with the most pages, and one with a page.
const ALL: Asked = (Raw(0), 0x4000_0000, Some(0x1_0000_0000));

const ONE: Asked = (Raw(1), 0x2_0000_0000, None);

const TOGETHER: [Case; 5] = [
    (&LARGE, &[KERNEL, (Dtb, 0x4010_0000, None)], Err(Overlap)),
    (&LARGE, &[KERNEL, (Dtb, 0x4020_0004, None)], Err(Unaligned)),
    (
        &LARGE,
        &[(What::Kernel, 0x4010_0000, None)],
        Err(KernelBase),
    ),
    (&LARGE, &[KERNEL, (Initrd, 0x8_0000_0000, None)], Ok(1)),
    (
        &LARGE,
        &[KERNEL, (Initrd, 0x8_4000_0000, None)],
        Err(InitrdWindow),
    ),
];

const UNREAD: [Case; 2] = [
    (&SMALL, &[(Dtb, 0x4000_0000, None)], Ok(1)),
    (&SMALL, &[(Dtb, 0x4000_0004, None)], Err(Unaligned)),
];

const SIZES: [Case; 5] = [
    (&SMALL, &[(Raw(1), 0x4000_0000, Some(64))], Ok(1)),
    (&SMALL, &[(Raw(1), 0x4000_0000, Some(4097))], Ok(2)),
    (&SMALL, &[(Raw(1), 0x4000_0000, Some(63))], Err(Size)),
    (&SMALL, &[(Dtb, 0x4000_0000, Some(0x20_0000))], Ok(512)),
    (
        &LARGE,
        &[(Dtb, 0x4000_0000, Some(0x20_0001))],
        Err(LayoutFault::Dtb(FdtFault::TooLarge)),
    ),
];

const NO_KERNEL: [Case; 1] = [(
    &SMALL,
    &[(What::Kernel, 0x4010_0000, None)],
    Err(LayoutFault::Kernel(ImageFault::Short)),
)];

const FAR_KERNEL: [Case; 3] = [
    (
        &SMALL,
        &[(What::Kernel, 0x4010_0000, None)],
        Err(KernelBase),
    ),
    (&SMALL, &[KERNEL], Err(OutsideRam)),
    (&SMALL, &[(What::Kernel, 0x4000_0000, Some(63))], Err(Size)),
];

/// Of a kernel that is too long, and of one without an end.
const LONG_KERNEL: [Case; 1] = [(&SMALL, &[KERNEL], Err(OutsideRam))];

const FIRST: [Case; 5] = [
    (&SMALL, &[OUTSIDE, KERNEL], Err(OutsideRam)),
    (
        &SMALL,
        &[KERNEL, OUTSIDE],
        Err(LayoutFault::Kernel(ImageFault::BadMagic)),
    ),
    (
        &LARGE,
        &[OUTSIDE, (Edited, 0x4000_0000, None)],
        Err(OutsideRam),
    ),
    (&SMALL, &[END, (Raw(1), 0x4000_0000, None)], Err(Overlap)),
    (&SMALL, &[(Raw(1), 0x4000_1000, None), END], Ok(1)),
];

const MOST: [Case; 4] = [
    (&LARGE, &[ALL], Ok(0x10_0000)),
    (&LARGE, &[ALL, ONE], Err(Size)),
    (&LARGE, &[ONE, ALL], Err(Size)),
    (&LARGE, &[ALL, (Raw(0), 0x2_0000_0000, None)], Ok(0)),
];

const HIGH: Stretch = (0x3000, 0x6000);

const LOW: Stretch = (0x1000, 0x3000);

const SPLIT: Stretch = (0x1000, 0x2800);

const ADJACENT: [Case; 6] = [
    (&[HIGH, LOW], &[(Raw(0), 0x1000, None)], Ok(3)),
    (&[HIGH, LOW], &[(Raw(0), 0x2fff, None)], Ok(3)),
    (&[HIGH, LOW], &[(Raw(0), 0x3fff, None)], Ok(3)),
    (&[HIGH, LOW], &[(Raw(0), 0xfff, None)], Err(OutsideRam)),
    (&[HIGH, LOW], &[(Raw(0), 0x4000, None)], Err(OutsideRam)),
    (&[SPLIT, HIGH], &[(Raw(0), 0x2000, None)], Err(OutsideRam)),
];

/// A name, files, and cases.
type Group = (&'static str, Contents, &'static [Case]);

const GROUPS: [Group; 10] = [
    (
        "a kernel, a devicetree and an initrd",
        &[&IMAGE, &[1; 4096], &EMPTY],
        &TOGETHER,
    ),
    (
        "a devicetree that is not changed is not read",
        &[&[], &[], &SHORT],
        &UNREAD,
    ),
    ("sizes", &[&[], &[1; 64], &EMPTY], &SIZES),
    ("an empty kernel", &[&[]], &NO_KERNEL),
    ("a kernel far away", &[&FAR_IMAGE], &FAR_KERNEL),
    ("a long kernel", &[&LONG_IMAGE], &LONG_KERNEL),
    ("a kernel without an end", &[&ENDLESS_IMAGE], &LONG_KERNEL),
    (
        "the first item at fault",
        &[&[0; 64], &[1; 8], &EMPTY],
        &FIRST,
    ),
    ("the most pages", &[&[], &[1; 8], &[]], &MOST),
    ("adjacent regions", &[&[1; 8193]], &ADJACENT),
];

fn check_group(rt: &impl Abort, alloc: Global, group: &Group) {
    let (name, contents, cases) = group;
    let files = files(rt, alloc, contents);
    for number in 0..cases.len() {
        check_case(rt, alloc, &files, &cases[number], name, number);
    }
}

#[test]
fn launches(rt: HostRuntime) {
    for group in &GROUPS {
        check_group(&rt, rt.alloc(), group);
    }
}
