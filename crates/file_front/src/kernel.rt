//! What the file of a kernel is that is no arm64 Image, by its first bytes (Linux, scripts/extract-vmlinux, and
//! drivers/firmware/efi/libstub/zboot-header.S).
use std::fmt;

/// A file that is given as a kernel now and then.
#[derive(Clone, Copy)]
pub enum KernelFront {
    /// One that is packed so.
    Packed(&'static str),
    /// An ELF file, as `vmlinux` is.
    Elf,
    /// An EFI program that unpacks an Image.
    EfiZboot,
    /// Another EFI program.
    Efi,
    /// An image of U-Boot.
    UBoot,
    Devicetree,
}

impl fmt::Display for KernelFront {
    fn fmt<W: fmt::Write>(&self, f: &mut fmt::Formatter<W>) -> fmt::Result {
        match *self {
            KernelFront::Packed(word) => {
                write!(f, "it is packed by {word}: give the unpacked Image")
            }
            KernelFront::Elf => f.write_str("it is an ELF file: give arch/arm64/boot/Image"),
            KernelFront::EfiZboot => {
                f.write_str("it is an EFI program that unpacks an Image: give the Image")
            }
            KernelFront::Efi => f.write_str("it is an EFI program and no Image"),
            KernelFront::UBoot => {
                f.write_str("it is an image of U-Boot: give the Image that is in it")
            }
            KernelFront::Devicetree => f.write_str("it is a devicetree"),
        }
    }
}

/// The first bytes of packed files.
const PACKED: [(&[u8], &str); 7] = [
    (&[0x1f, 0x8b], "gzip"),
    (&[0xfd, 0x37, 0x7a, 0x58, 0x5a, 0x00], "xz"),
    (&[0x28, 0xb5, 0x2f, 0xfd], "zstd"),
    (&[0x02, 0x21, 0x4c, 0x18], "lz4"),
    (&[0x5d, 0x00, 0x00], "lzma"),
    (&[0x89, 0x4c, 0x5a, 0x4f], "lzo"),
    (b"BZh", "bzip2"),
];

/// The first bytes of an ELF file, of an EFI program and of what U-Boot starts.
const ELF: &[u8] = b"\x7fELF";

const EFI: &[u8] = b"MZ";

const UBOOT: &[u8] = &[0x27, 0x05, 0x19, 0x56];

/// The first bytes of a devicetree, which an image of U-Boot may begin with too.
const DEVICETREE: &[u8] = &[0xd0, 0x0d, 0xfe, 0xed];

/// What a program that unpacks an Image has 4 bytes after its begin.
const ZBOOT: &[u8] = b"zimg";

/// What a file is, by its first bytes, where they are known.
pub fn front_of(bytes: &[u8]) -> Option<KernelFront> {
    if let Some((_, word)) = PACKED.iter().find(|(front, _)| bytes.starts_with(front)) {
        return Some(KernelFront::Packed(*word));
    }
    if bytes.starts_with(EFI) {
        let is_zboot = bytes.get(4..).is_some_and(|rest| rest.starts_with(ZBOOT));
        return Some(if is_zboot {
            KernelFront::EfiZboot
        } else {
            KernelFront::Efi
        });
    }
    if bytes.starts_with(ELF) {
        Some(KernelFront::Elf)
    } else if bytes.starts_with(UBOOT) {
        Some(KernelFront::UBoot)
    } else if bytes.starts_with(DEVICETREE) {
        Some(KernelFront::Devicetree)
    } else {
        None
    }
}
