//! Runs of entries.

/// Neighbouring entries of one level in one table, from `base` up to `top`, in bytes of IPA space.
#[derive(Clone, Copy, Debug, PartialEq, Eq)]
pub struct Run {
    pub base: u64,
    pub top: u64,
    pub level: u8,
}
