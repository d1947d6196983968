//! The header in front of an arm64 kernel Image, which says where the Image has to be placed and
//! how much memory it takes there (Linux, Documentation/arch/arm64/booting.rst).
#![tactic(auto)]

ghost use Rattle.std.specs.Prelude.{◌≡◌, ◌+◌, ◌≤◌, length};
ghost use Rattle.arm64_image.specs.ImageHeader.{read_of, load_offset_of, extent_of, word_at, double_word_at};

use byteorder::{ByteOrder, LittleEndian};

/// How many bytes the header has.
const HEADER_LEN: usize = 64;

/// The bytes `ARM\x64`, read as a little endian number.
const MAGIC: u32 = 0x644d_5241;

/// What is assumed of an Image that doesn't say how large it is.
const OLD_LOAD_OFFSET: u64 = 0x8_0000;

/// The fields of a header, by the names that booting.rst gives them. The three reserved numbers and
/// the one that a PE header uses are not kept.
#[derive(Clone, Copy, Debug, PartialEq, Eq)]
pub struct Header {
    /// The first instruction.
    pub code0: u32,
    /// The second instruction.
    pub code1: u32,
    /// How many bytes after a 2 MiB boundary the Image is placed.
    pub text_offset: u64,
    /// How many bytes the Image takes in memory, or 0 where an old kernel does not say.
    pub image_size: u64,
    /// Byte order, page size and placement. They are kept, and decide nothing here.
    pub flags: u64,
}

/// Why bytes are no Image.
#[derive(Clone, Copy, Debug, PartialEq, Eq)]
pub enum ImageFault {
    /// There are fewer than 64 bytes.
    Short,
    /// The magic number is another.
    BadMagic,
}

fn word(bytes: &[u8], offset: usize) -> u32
    requires { offset + 4 ≤ length bytes.now }
    ensures { result ≡ word_at offset bytes.now }
{
    LittleEndian::read_u32(&bytes[offset..])
}

fn double_word(bytes: &[u8], offset: usize) -> u64
    requires { offset + 8 ≤ length bytes.now }
    ensures { result ≡ double_word_at offset bytes.now }
{
    LittleEndian::read_u64(&bytes[offset..])
}

/// The header at the front of a file. Fewer than 64 bytes are `Short`; any others with another magic
/// number are `BadMagic`.
pub fn read(bytes: &[u8]) -> Result<Header, ImageFault>
    ensures { result ≡ read_of bytes.now }
{
    if bytes.len() < HEADER_LEN {
        return Err(ImageFault::Short);
    }
    if word(bytes, 56) != MAGIC {
        return Err(ImageFault::BadMagic);
    }
    Ok(Header {
        code0: word(bytes, 0),
        code1: word(bytes, 4),
        text_offset: double_word(bytes, 8),
        image_size: double_word(bytes, 16),
        flags: double_word(bytes, 24),
    })
}

impl Header {
    /// How many bytes after a 2 MiB boundary the Image is placed: `text_offset`, or 0x80000 where
    /// `image_size` is 0.
    pub fn load_offset(&self) -> u64
        ensures { result ≡ load_offset_of self.now }
    {
        if self.image_size == 0 {
            OLD_LOAD_OFFSET
        } else {
            self.text_offset
        }
    }

    /// How many bytes the Image takes in memory, from where it is placed: `image_size`, or the file's
    /// length where that is greater.
    pub fn extent(&self, file_len: u64) -> u64
        ensures { result ≡ extent_of self.now file_len }
    {
        self.image_size.max(file_len)
    }
}
