//! Where the bytes of an item come from.

/// Where the bytes of an item's contents come from. Files come before edited devicetrees, each in the
/// order of their numbers. This project's choice.
#[derive(Clone, Copy, Debug, PartialEq, Eq, PartialOrd, Ord)]
pub enum Source {
    /// The file of this number.
    File(usize),
    /// The devicetree that was edited for the launch of this number.
    Edited(usize),
}
