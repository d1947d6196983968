//! The strings block, and the names in it.

ghost use Rattle.std.specs.Prelude.{◌≡◌, take, drop, IfOk};
ghost use Rattle.fdt_tree.specs.Names.{is_name_character};
ghost use Rattle.fdt_tree.specs.inside.NameRuns.{name_runs, zero_end};
ghost use Rattle.fdt_tree.specs.Scanning.{name_at};
ghost use Rattle.refusal.specs.Answer.{Matches};

use fdt_header::FdtFault;
use std::alloc::{AllocError, Global};

/// A copy of the strings block. Tens of thousands of properties may share its bytes, as the ends of one
/// long name. So the block is scanned once; then each name is found and checked in one step.
#[derive(Drop)]
pub struct Strings {
    pub bytes: Vec<u8>,
    // for each byte, the number of name characters from it on
    runs: Vec<usize>,
    // index just after the last zero byte; no name starts at or after it
    end: usize,
    ghost runs_known: { runs.items ≡ name_runs bytes.items },
    ghost end_known: { end ≡ zero_end bytes.items },
}

/// Whether a name may have this byte.
pub fn is_name_character(byte: u8) -> bool
    ensures { result ≡ is_name_character byte }
{
    byte > 32 && byte < 127 && byte != b'/'
}

fn runs_of(alloc: Global, bytes: &[u8]) -> Result<Vec<usize>, AllocError>
    ensures { IfOk result (λ v. v.items ≡ name_runs bytes.now) }
{
    let mut runs = vec![in alloc; 0; bytes.len()]?;
    let mut run = 0;
    for done in 0..bytes.len() {
        let at = bytes.len() - 1 - done;
        run = if is_name_character(bytes[at]) {
            run + 1
        } else {
            0
        };
        runs[at] = run;
    }
    Ok(runs)
}

fn end_of(bytes: &[u8]) -> usize
    ensures { result ≡ zero_end bytes.now }
{
    let mut end = 0;
    for (i, byte) in bytes.iter().enumerate() {
        if *byte == 0 {
            end = i + 1;
        }
    }
    end
}

impl Strings {
    /// A copy of the block.
    pub fn new(alloc: Global, block: &[u8]) -> Result<Strings, AllocError>
        ensures { IfOk result (λ s. s.bytes.items ≡ block.now) }
    {
        let runs = runs_of(alloc, block)?;
        let bytes = Vec::from_slice(alloc, block)?;
        let end = end_of(block);
        Ok(Strings { bytes, runs, end })
    }

    /// The length of the name at an offset.
    pub fn name_len(&self, offset: usize) -> Result<usize, FdtFault>
        ensures { Matches (λ n. take n (drop offset self.now.bytes.items)) result
            (name_at self.now.bytes.items offset) }
    {
        if offset >= self.end {
            return Err(FdtFault::BadString);
        }
        let len = self.runs[offset];
        if len == 0 || self.bytes[offset + len] != 0 {
            return Err(FdtFault::BadName);
        }
        Ok(len)
    }
}
