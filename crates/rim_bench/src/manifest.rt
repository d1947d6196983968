//! The manifest of a job's release, as a user writes it.
use crate::job::{Hashing, Shape};
use std::alloc::{AllocError, Global};

/// The manifest. Its files are the kernels, the initrds and, where there is one, the devicetree.
pub fn manifest(alloc: Global, shape: &Shape, has_devicetree: bool) -> Result<String, AllocError> {
    let mut text = String::from_str(alloc, "rim_manifest = 1\n")?;
    for n in 0..shape.kernels {
        write!(
            text,
            "[[file]]\nname = \"kernel-{n}\"\npath = \"kernel-{n}\"\n"
        )?;
    }
    for n in 0..shape.initrds {
        write!(
            text,
            "[[file]]\nname = \"initrd-{n}\"\npath = \"initrd-{n}\"\n"
        )?;
    }
    if has_devicetree {
        text.push_str("[[file]]\nname = \"devicetree\"\npath = \"devicetree\"\n")?;
    }
    for n in 0..shape.launches {
        push_launch(&mut text, shape, n, has_devicetree)?;
    }
    Ok(text)
}

/// Adds a launch.
fn push_launch(
    text: &mut String,
    shape: &Shape,
    n: u64,
    has_devicetree: bool,
) -> Result<(), AllocError> {
    let algorithm = match shape.hashing {
        Hashing::Sha256 => "sha256",
        Hashing::Sha512 => "sha512",
        Hashing::Both => { if n % 4 == 3 { "sha512" } else { "sha256" } }
    };
    let more = rest(n, shape.ram_sizes).saturating_mul(shape.ram_step);
    let end = 0x4000_0000u64
        .saturating_add(shape.ram)
        .saturating_add(more);
    let level = shape.block_level;
    write!(
        text,
        "[[launch]]\nname = \"launch-{n}\"\nalgo = \"{algorithm}\"\ns2sz = 41\n"
    )?;
    write!(
        text,
        "block_level = {level}\nram = [[0x40000000, 0x{end:x}]]\n"
    )?;
    push_items(text, shape, n, has_devicetree)?;
    push_recs(text, shape.recs)
}

/// Adds the items: every second initrd does not begin at a page, and each devicetree has a command line of its own.
fn push_items(
    text: &mut String,
    shape: &Shape,
    n: u64,
    has_devicetree: bool,
) -> Result<(), AllocError> {
    let kernel = rest(n, shape.kernels);
    let initrd = rest(n, shape.initrds);
    let at = if initrd % 2 == 0 {
        0x4400_0000
    } else {
        0x4400_0a10
    };
    text.push_str("item = [\n")?;
    write!(text, "{{ name = \"kernel\", kind = \"kernel\", ")?;
    write!(text, "file = \"kernel-{kernel}\", at = 0x40200000 }},\n")?;
    write!(text, "{{ name = \"initrd\", kind = \"initrd\", ")?;
    write!(text, "file = \"initrd-{initrd}\", at = 0x{at:x} }},\n")?;
    if has_devicetree {
        text.push_str(
            "{ name = \"dtb\", kind = \"dtb\", file = \"devicetree\", at = 0x43e00000, ",
        )?;
        write!(text, "bootargs = \"console=ttyAMA0 n={n}\", ")?;
        text.push_str("initrd = true, memory = true },\n")?;
    }
    text.push_str("]\n")
}

/// Adds this many RECs.
fn push_recs(text: &mut String, count: u64) -> Result<(), AllocError> {
    text.push_str("rec = [")?;
    for _ in 0..count {
        text.push_str("{}, ")?;
    }
    text.push_str("]\n")
}

/// A number in turn out of so many from 0 on.
fn rest(n: u64, count: u64) -> u64 {
    if count == 0 { 0 } else { n % count }
}
