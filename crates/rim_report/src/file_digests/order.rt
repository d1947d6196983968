//! In which order files are taken. No digest depends on it.

use refusal::NoMemory;
use std::alloc::Global;
use std::cmp::Ordering;

/// The numbers of files, those of larger files after those of smaller ones. Of files of one size the first comes last.
pub fn smallest_first(alloc: Global, files: &[Vec<u8>]) -> Result<Vec<usize>, NoMemory> {
    let mut numbers = Vec::with_capacity(alloc, files.len())?;
    for number in 0..files.len() {
        numbers.push(number)?;
    }
    numbers.sort_unstable_by(|a, b| compare(files, *a, *b));
    Ok(numbers)
}

/// The order of two files by their numbers.
fn compare(files: &[Vec<u8>], a: usize, b: usize) -> Ordering {
    match (files.get(a), files.get(b)) {
        (Some(own), Some(other)) => own.len().cmp(&other.len()).then(b.cmp(&a)),
        _ => b.cmp(&a),
    }
}
