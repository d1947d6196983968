//! What is said of a file that was to be shown as an arm64 Image or as a devicetree, and is none. That it is true is tested alone.
use crate::kernel::{KernelFront, front_of};
use arm64_image::ImageFault;
use fdt_tree::FdtFault;
use std::alloc::{AllocError, Global};
use std::fmt;

/// The first bytes of the source of a devicetree (Devicetree Specification, "Devicetree Source (DTS) Format").
const SOURCE: &[u8] = b"/dts-v1/";

/// Which bytes of an Image say that it is one, and what they are (Linux, Documentation/arch/arm64/booting.rst).
const MAGIC_AT: usize = 56;

const MAGIC: &[u8] = b"ARM\x64";

/// What a file is that is no arm64 Image, by its first bytes, or else why it is none.
pub fn image_front(alloc: Global, bytes: &[u8], fault: ImageFault) -> Result<String, AllocError> {
    if let Some(front) = front_of(bytes) {
        return format!(in alloc; "{front}");
    }
    match fault {
        ImageFault::Short => {
            let count = bytes.len();
            format!(in alloc; "it has {count} bytes, expected at least 64")
        }
        ImageFault::BadMagic => {
            format!(in alloc; "bytes 56 to 59 of it are not those of an arm64 Image")
        }
    }
}

/// What a file is that is no devicetree, by its first bytes, or else why it is none.
#[derive(Clone, Copy)]
pub struct DevicetreeFront<'a> {
    pub bytes: &'a [u8],
    pub fault: FdtFault,
}

impl DevicetreeFront<'_> {
    /// Whether the file is the source of a devicetree.
    fn is_source(&self) -> bool {
        self.bytes.starts_with(SOURCE)
    }

    /// Whether it has the magic number of an arm64 Image.
    fn is_image(&self) -> bool {
        let rest = self.bytes.get(MAGIC_AT..);
        rest.is_some_and(|rest| rest.starts_with(MAGIC))
    }
}

impl fmt::Display for DevicetreeFront<'_> {
    fn fmt<W: fmt::Write>(&self, f: &mut fmt::Formatter<W>) -> fmt::Result {
        if self.is_source() {
            return f.write_str(
                "it is the source of a devicetree: give what `dtc -O dtb` makes of it",
            );
        }
        if self.is_image() {
            return f.write_str("it is an arm64 Image and no devicetree");
        }
        match front_of(self.bytes) {
            Some(KernelFront::Packed(word)) => {
                write!(f, "it is packed by {word}: give the unpacked devicetree")
            }
            Some(KernelFront::Elf) => f.write_str("it is an ELF file and no devicetree"),
            Some(KernelFront::Efi | KernelFront::EfiZboot) => {
                f.write_str("it is an EFI program and no devicetree")
            }
            Some(KernelFront::UBoot) => {
                f.write_str("it is an image of U-Boot: give the devicetree that is in it")
            }
            Some(KernelFront::Devicetree) | None => f.write_str(devicetree_text(self.fault)),
        }
    }
}

/// What is wrong with a devicetree (Devicetree Specification, "Flattened Devicetree (DTB) Format").
fn devicetree_text(fault: FdtFault) -> &'static str {
    match fault {
        FdtFault::Short => "it has fewer than the 40 bytes of a header",
        FdtFault::BadMagic => "it does not begin with the bytes d0 0d fe ed",
        FdtFault::BadVersion => "its version is not 17, or not compatible with 17",
        FdtFault::BadBlock => "a block that its header names is not aligned or not within the file",
        FdtFault::BadReserve => "its memory reservations have no end",
        FdtFault::BadToken => "a token of its structure is cut off, unknown or out of place",
        FdtFault::BadName => "a name in it is empty or has a character that no name may have",
        FdtFault::BadString => "the name of a property is not within its strings",
        FdtFault::LateProperty => "a property comes after a child of its node",
        FdtFault::TooDeep => "a node is deeper than 64",
        FdtFault::BadCells => {
            "#address-cells or #size-cells of its root is not 1 or 2, or an address does not fit"
        }
        FdtFault::TooLarge => "it has, or would have, more than 2097152 bytes",
        FdtFault::NoMemory => "it takes more memory than there is",
    }
}
