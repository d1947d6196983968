//! Stretches of addresses, and the gaps between them.
ghost use Rattle.std.specs.Prelude.{◌≡◌, ◌++◌, IfOk, OnOk, map};
ghost use Rattle.map_rows.specs.Stretches.{AreRising, IsBetween, gaps_of, last_end, piece, region_stretch, row_pages};

use crate::rows::Row;
use rim_launch::Region;
use std::alloc::{AllocError, Global};

/// The addresses from `base` on and below `end`, in bytes.
#[derive(Clone, Copy)]
pub struct Stretch {
    pub base: u64,
    pub end: u64,
}

/// The gaps that some stretches leave between two addresses, rising: each address there is in a stretch or in a gap, and none is in
/// both. The stretches rise by their bases.
pub fn gaps(
    alloc: Global,
    base: u64,
    end: u64,
    rising: &[Stretch],
) -> Result<Vec<Stretch>, AllocError>
    ensures { IfOk result (λ gaps. gaps.items ≡ gaps_of base end rising.now) }
{
    let mut gaps = Vec::new(alloc);
    let mut at = base;
    for stretch in rising {
        push_gap(&mut gaps, at, stretch.base.min(end))?;
        at = at.max(stretch.end);
    }
    push_gap(&mut gaps, at, end)?;
    Ok(gaps)
}

/// Adds the addresses from one on and below another, if there are any.
fn push_gap(gaps: &mut Vec<Stretch>, base: u64, end: u64) -> Result<(), AllocError>
    ensures { OnOk result (gaps.new.items ≡ gaps.old.items ++ piece base end) }
{
    if base < end {
        gaps.push(Stretch { base, end })?;
    }
    Ok(())
}

/// The pages that items take, rising.
pub fn taken(alloc: Global, rows: &[Row]) -> Result<Vec<Stretch>, AllocError>
    ensures { IfOk result (λ taken. AreRising (map row_pages rows.now) taken.items) }
{
    let mut taken = Vec::with_capacity(alloc, rows.len())?;
    for row in rows {
        taken.push(Stretch {
            base: row.base,
            end: row.top,
        })?;
    }
    taken.sort_unstable_by_key(|stretch| stretch.base);
    Ok(taken)
}

/// The addresses between regions of RAM, rising.
pub fn between(alloc: Global, ram: &[Region]) -> Result<Vec<Stretch>, AllocError>
    ensures { IfOk result (λ gaps. IsBetween ram.now gaps.items) }
{
    let regions = rising_regions(alloc, ram)?;
    match regions.first() {
        Some(first) => gaps(alloc, first.base, last_end(&regions), &regions),
        None => Ok(Vec::new(alloc)),
    }
}

/// The regions of RAM, rising.
fn rising_regions(alloc: Global, ram: &[Region]) -> Result<Vec<Stretch>, AllocError>
    ensures { IfOk result (λ rising. AreRising (map region_stretch ram.now) rising.items) }
{
    let mut regions = Vec::with_capacity(alloc, ram.len())?;
    for region in ram {
        regions.push(Stretch {
            base: region.base,
            end: region.end,
        })?;
    }
    regions.sort_unstable_by_key(|stretch| stretch.base);
    Ok(regions)
}

/// The last address at which one of some stretches ends.
fn last_end(stretches: &[Stretch]) -> u64
    ensures { result ≡ last_end stretches.now }
{
    let mut end = 0;
    for stretch in stretches {
        end = end.max(stretch.end);
    }
    end
}
