//! The header of an Image as it is read, laid out by hand from booting.rst. `tests/rows/images.toml` has what `rim image` shows of
//! these and of others.
use arm64_image::{Header, read};

// A header as a distribution's kernel carries it: `MZ` and a branch, text_offset 0, image_size
// 0x029f0000, flags 0xa, three reserved numbers, the magic and the offset of the PE header.
const DISTRIBUTION: [u8; 64] = [
    0x4d, 0x5a, 0x40, 0xfa, 0xff, 0x7f, 0x47, 0x14, 0, 0, 0, 0, 0, 0, 0, 0, 0, 0, 0x9f, 0x02, 0, 0,
    0, 0, 0x0a, 0, 0, 0, 0, 0, 0, 0, 0, 0, 0, 0, 0, 0, 0, 0, 0, 0, 0, 0, 0, 0, 0, 0, 0, 0, 0, 0, 0,
    0, 0, 0, 0x41, 0x52, 0x4d, 0x64, 0x40, 0, 0, 0,
];

// A boot loader's header: text_offset 0x80000, image_size 0x0102030405060708, every reserved byte
// and the last number 0xff.
const BOOT_LOADER: [u8; 64] = [
    0x0a, 0, 0, 0x14, 0x1f, 0x20, 0x03, 0xd5, 0, 0, 0x08, 0, 0, 0, 0, 0, 0x08, 0x07, 0x06, 0x05,
    0x04, 0x03, 0x02, 0x01, 0xff, 0xff, 0xff, 0xff, 0xff, 0xff, 0xff, 0xff, 0xff, 0xff, 0xff, 0xff,
    0xff, 0xff, 0xff, 0xff, 0xff, 0xff, 0xff, 0xff, 0xff, 0xff, 0xff, 0xff, 0xff, 0xff, 0xff, 0xff,
    0xff, 0xff, 0xff, 0xff, 0x41, 0x52, 0x4d, 0x64, 0xff, 0xff, 0xff, 0xff,
];

/// Headers, and their two instructions, which `rim image` does not show.
const INSTRUCTIONS: [([u8; 64], u32, u32); 2] = [
    (DISTRIBUTION, 0xfa40_5a4d, 0x1447_7fff),
    (BOOT_LOADER, 335_544_330, 0xd503_201f),
];

#[test]
fn instructions(rt: HostRuntime) {
    for (bytes, code0, code1) in &INSTRUCTIONS {
        let found = read(bytes).map(|header| (header.code0, header.code1));
        assert_eq!(rt; found, Ok((*code0, *code1)));
    }
}

/// Files that are shorter than a header: text_offset, image_size, and by hand: load offset, extent.
const PLACES: [(u64, u64, u64, u64); 2] = [(0x0000_0800_0000_0000, 0, 524_288, 0), (1, 1, 1, 1)];

#[test]
fn places_and_extents(rt: HostRuntime) {
    for (text_offset, image_size, load_offset, extent) in &PLACES {
        let header = Header {
            code0: 0,
            code1: 0,
            text_offset: *text_offset,
            image_size: *image_size,
            flags: 0,
        };
        let found = (header.load_offset(), header.extent(0));
        assert_eq!(rt; found, (*load_offset, *extent));
    }
}
