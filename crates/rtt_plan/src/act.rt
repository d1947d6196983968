//! The acts of a plan.

/// One act of a plan. Addresses are IPAs, in bytes.
#[derive(Clone, Copy, Debug, PartialEq, Eq)]
pub enum Act {
    /// The table of a level that covers the addresses from `base` on.
    Table { base: u64, level: u8 },
    /// Entries of one level in one table, from `base` up to `top`, become RAM.
    Run { base: u64, top: u64, level: u8 },
    /// `count` pages from `base` on get data.
    Pages { base: u64, count: u64 },
}
