//! Which files the workers of a run hash.
ghost use Rattle.std.specs.Prelude.{[], List, ℕ};

use std::marker::Brand;

/// The bytes of the files of a run. A type names them, so that what is found under a lock is known to be of the same files, and
/// nothing is compared. Whoever begins a run picks them, with `Brand` for the type.
pub trait FilesOfRun {
    ghost files: { List (List ℕ) };
}

/// This list binds no run. A call that passes `Brand` picks its own in its place, in its proof: `measure_with_digests` picks the
/// files of its release (`ghosts-run`).
impl FilesOfRun for Brand {
    ghost files = { [] };
}
