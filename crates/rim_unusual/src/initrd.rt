//! How an initrd begins (Linux, lib/decompress.c and init/initramfs.c).
use std::fmt;

/// How many bytes are shown of what begins otherwise.
const MOST_SHOWN: usize = 6;

/// How many zero bytes may be in front: Linux skips them.
const MOST_ZEROS: usize = 512;

/// The first bytes of gzip (two), xz, zstd, lz4 (two), lzma, lzo, bzip2 and cpio (three texts and two orders of bytes).
const FRONTS: [&[u8]; 14] = [
    &[0x1f, 0x8b],
    &[0x1f, 0x9e],
    &[0xfd, 0x37, 0x7a, 0x58, 0x5a, 0x00],
    &[0x28, 0xb5, 0x2f, 0xfd],
    &[0x04, 0x22, 0x4d, 0x18],
    &[0x02, 0x21, 0x4c, 0x18],
    &[0x5d, 0x00, 0x00],
    &[0x89, 0x4c, 0x5a, 0x4f],
    b"BZh",
    b"070701",
    b"070702",
    b"070707",
    &[0xc7, 0x71],
    &[0x71, 0xc7],
];

/// Whether bytes begin as an initrd, after zero bytes that are no more than 512.
pub(crate) fn is_initrd(bytes: &[u8]) -> bool {
    let zeros = bytes
        .iter()
        .take(MOST_ZEROS)
        .take_while(|byte| **byte == 0)
        .count();
    match bytes.get(zeros..) {
        Some(rest) => FRONTS.iter().any(|front| rest.starts_with(front)),
        None => false,
    }
}

/// Bytes of which the first ones are shown, each as two hexadecimal digits, with spaces between them.
#[derive(Clone, Copy)]
pub struct Front<'a>(pub &'a [u8]);

impl fmt::Display for Front<'_> {
    fn fmt<W: fmt::Write>(&self, f: &mut fmt::Formatter<W>) -> fmt::Result {
        let Front(bytes) = *self;
        for (number, byte) in bytes.iter().take(MOST_SHOWN).enumerate() {
            let space = if number == 0 { "" } else { " " };
            write!(f, "{space}{byte:02x}")?;
        }
        Ok(())
    }
}
