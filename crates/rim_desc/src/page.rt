//! Fields at offsets of a page.
ghost use Rattle.std.specs.Prelude.{◌≡◌, ◌+◌, ◌≤◌, length};
ghost use Rattle.rim_desc.specs.Page.{with_part, zeros};
ghost use Rattle.rim_desc.specs.declared.page.TheConstants.{PAGE_SIZE};

/// The bytes of a granule, and of a page: 4096.
pub const PAGE_SIZE: usize = 4096;

/// The same, as addresses count them.
pub const GRANULE_SIZE: u64 = PAGE_SIZE as u64;

/// A page of zero bytes.
pub fn zero_page() -> [u8; PAGE_SIZE]
    ensures { result ≡ zeros PAGE_SIZE }
{
    [0; PAGE_SIZE]
}

/// Puts some bytes at an offset of a page or a descriptor.
pub fn put(page: &mut [u8], at: usize, part: &[u8])
    requires { at + length part.now ≤ length page.old }
    ensures { page.new ≡ with_part page.old at part.now }
{
    page[at..at + part.len()].copy_from_slice(part);
}
