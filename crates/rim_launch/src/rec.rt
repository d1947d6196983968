//! The RECs of a launch.

/// A REC, as a launch asks for it.
#[derive(Clone, Copy, Debug, PartialEq, Eq)]
pub struct Rec {
    /// The program counter at the first entry, where it is stated.
    pub pc: Option<u64>,
    /// x0 to x7, where they are stated.
    pub x: Option<[u64; 8]>,
    /// Whether it may be run.
    pub runnable: bool,
}
