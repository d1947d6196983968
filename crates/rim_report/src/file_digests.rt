//! The digests of a release's files, which the workers that measure the release make too.
//!
//! A worker hashes files when it begins, as long as one is left that no worker has taken, and only then comes to the jobs of its run. So
//! a run by many workers hashes many files at a time. One file is hashed by one worker, since SHA-256 is one chain over all of its bytes.
mod beside;
mod board;
mod files_of_run;
mod measuring;
mod order;
mod slots;
mod task;

pub use measuring::{Digested, digested_alone, measure_with_digests};

/// The SHA-256 digest of a file.
pub type FileDigest = [u8; 32];
