//! What becomes of memory that is freed.
use std::alloc::Global;

/// A block that is taken and given back, in bytes: four times the largest devicetree.
const BLOCK_SIZE: usize = 8 * 1024 * 1024;

/// Has the C library keep what a launch frees, so that the next launch finds it. It gives free memory back to the system where that
/// is more than twice the largest block that was freed so far; the system then clears each page anew when it is used again, which
/// took half the time of a launch with a large devicetree. The block is not written to, so it takes no memory, and where it is
/// refused nothing is lost but time. Files are read before, since they would leave free memory that is kept too.
pub fn keep_freed_memory(alloc: Global) {
    let _block: Result<Vec<u8>, _> = Vec::with_capacity(alloc, BLOCK_SIZE);
}
