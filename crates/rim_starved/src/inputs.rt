//! What the calls are given.
ghost use Rattle.std.specs.Prelude.{◌≡◌, IfOk, length, vec_len};

use crate::trial::Fault;
use rim_release::{Files, Release};
use std::alloc::{AllocError, Global};

/// The files of a release. A path that is a number is a file of so many bytes, each 9; any other path is a file of what stands
/// after the manifest.
pub fn files_of(alloc: Global, release: &Release, rest: &[u8]) -> Result<Files, Fault>
    ensures { IfOk result (λ files. vec_len files ≡ length release.now.paths) }
{
    let mut files = Vec::new(alloc);
    for number in 0..release.file_count() {
        files.push(file_at(alloc, release.path(number), rest)?)?;
    }
    if files.len() != release.file_count() {
        return Err(Fault::Input);
    }
    Ok(files)
}

fn file_at(alloc: Global, path: &str, rest: &[u8]) -> Result<Vec<u8>, AllocError> {
    match path.parse::<usize>() {
        Ok(size) => vec![in alloc; 9; size],
        Err(_) => Vec::from_slice(alloc, rest),
    }
}

/// A manifest, and what stands after its first zero byte.
pub fn split(input: &[u8]) -> (&[u8], &[u8]) {
    match input.iter().position(|byte| *byte == 0) {
        Some(end) => {
            let (text, rest) = input.split_at(end.min(input.len()));
            match rest.split_first() {
                Some((_, rest)) => (text, rest),
                None => (text, rest),
            }
        }
        None => (input, b""),
    }
}
