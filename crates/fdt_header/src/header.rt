//! Reading the header of a flattened devicetree.

ghost use Rattle.std.specs.Prelude.{◌≡◌, ◌+◌, ◌≤◌, length, nat_le, IfOk};
ghost use Rattle.fdt_header.specs.Blocks.{BlocksFit, blocks_fit, header_at, header_of, is_known_version, reserve_block, strings_block, structure_block, word_at};
ghost use Rattle.fdt_header.specs.declared.header.TheConstants.{HEADER_SIZE};

use crate::fault::FdtFault;

/// The bytes of a header: 40 (Devicetree Specification 0.4, section 5.2).
pub const HEADER_SIZE: usize = 40;

/// The most bytes of a devicetree: 2 MiB, as Linux has it for arm64 (booting.rst, "Setup the device tree").
pub const SIZE_LIMIT: usize = 1 << 21;

/// The number that each devicetree begins with.
pub const MAGIC: u32 = 0xd00d_feed;

/// The version that is read.
pub const VERSION: u32 = 17;

/// The version that a written file is compatible with.
pub const LAST_COMP_VERSION: u32 = 16;

/// The fields of a header after the magic number, by the specification's names. Offsets and sizes are
/// in bytes.
#[derive(Clone, Copy)]
pub struct Header {
    pub totalsize: u32,
    pub off_dt_struct: u32,
    pub off_dt_strings: u32,
    pub off_mem_rsvmap: u32,
    pub version: u32,
    pub last_comp_version: u32,
    pub boot_cpuid_phys: u32,
    pub size_dt_strings: u32,
    pub size_dt_struct: u32,
}

fn word(bytes: &[u8], offset: usize) -> u32
    requires { offset + 4 ≤ length bytes.now }
    ensures { result ≡ word_at offset bytes.now }
{
    let b = &bytes[offset..][..4];
    u32::from_be_bytes([b[0], b[1], b[2], b[3]])
}

fn fields_of(bytes: &[u8]) -> Header
    requires { HEADER_SIZE ≤ length bytes.now }
    ensures { result ≡ header_of bytes.now }
{
    Header {
        totalsize: word(bytes, 4),
        off_dt_struct: word(bytes, 8),
        off_dt_strings: word(bytes, 12),
        off_mem_rsvmap: word(bytes, 16),
        version: word(bytes, 20),
        last_comp_version: word(bytes, 24),
        boot_cpuid_phys: word(bytes, 28),
        size_dt_strings: word(bytes, 32),
        size_dt_struct: word(bytes, 36),
    }
}

impl Header {
    fn is_known_version(&self) -> bool
        ensures { result ≡ is_known_version self.now }
    {
        self.version == VERSION && self.last_comp_version <= VERSION
    }

    /// Whether a block ends within `totalsize`.
    fn holds(&self, offset: u32, size: u32) -> bool
        ensures { result ≡ nat_le (offset + size) self.now.totalsize }
    {
        u64::from(offset) + u64::from(size) <= u64::from(self.totalsize)
    }

    fn blocks_fit(&self, len: usize) -> bool
        ensures { result ≡ blocks_fit self.now len }
    {
        self.totalsize as usize >= HEADER_SIZE
            && self.totalsize as usize <= len
            && self.off_dt_struct % 4 == 0
            && self.off_mem_rsvmap % 8 == 0
            && self.off_mem_rsvmap <= self.totalsize
            && self.holds(self.off_dt_struct, self.size_dt_struct)
            && self.holds(self.off_dt_strings, self.size_dt_strings)
    }

    /// The bytes from the memory reservation block on.
    pub fn reserve_block<'a>(&self, bytes: &'a [u8]) -> &'a [u8]
        requires { BlocksFit self.now (length bytes.now) }
        ensures { result.now ≡ reserve_block self.now bytes.now }
    {
        &bytes[..self.totalsize as usize][self.off_mem_rsvmap as usize..]
    }

    /// The structure block.
    pub fn structure_block<'a>(&self, bytes: &'a [u8]) -> &'a [u8]
        requires { BlocksFit self.now (length bytes.now) }
        ensures { result.now ≡ structure_block self.now bytes.now }
    {
        &bytes[self.off_dt_struct as usize..][..self.size_dt_struct as usize]
    }

    /// The strings block.
    pub fn strings_block<'a>(&self, bytes: &'a [u8]) -> &'a [u8]
        requires { BlocksFit self.now (length bytes.now) }
        ensures { result.now ≡ strings_block self.now bytes.now }
    {
        &bytes[self.off_dt_strings as usize..][..self.size_dt_strings as usize]
    }
}

/// The header, or the first check that fails.
#[tactic(auto, unfolding(crate::specs::Blocks::header_at))]
pub fn header_in(bytes: &[u8]) -> Result<Header, FdtFault>
    ensures exact { result ≡ header_at bytes.now }
    ensures fits { IfOk result (λ h. BlocksFit h (length bytes.now)) }
{
    if bytes.len() < HEADER_SIZE {
        return Err(FdtFault::Short);
    }
    if word(bytes, 0) != MAGIC {
        return Err(FdtFault::BadMagic);
    }
    let header = fields_of(bytes);
    if !header.is_known_version() {
        return Err(FdtFault::BadVersion);
    }
    if bytes.len() > SIZE_LIMIT {
        return Err(FdtFault::TooLarge);
    }
    if !header.blocks_fit(bytes.len()) {
        return Err(FdtFault::BadBlock);
    }
    Ok(header)
}
