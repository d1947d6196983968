//! Which pages are in RAM.
ghost use Rattle.std.specs.Prelude.{◌≡◌, ◌-◌, ◌≤◌, ◌<◌, ◌^◌, find};
ghost use Rattle.ipa_layout.specs.Memory.{first_unheld, holds};

use rim_desc::GRANULE_SIZE;
use rim_launch::Region;

/// Whether a region holds a page wholly.
fn holds(page: u64, region: &Region) -> bool
    requires { page < 2 ^ 52 }
    ensures { result ≡ holds page region.now }
{
    region.base <= GRANULE_SIZE * page && GRANULE_SIZE * page + (GRANULE_SIZE - 1) < region.end
}

/// The first region that holds a page wholly.
fn holder(ram: &[Region], page: u64) -> Option<Region>
    requires { page < 2 ^ 52 }
    ensures { result ≡ find (holds page) ram.now }
{
    ram.iter().copied().find(|region| holds(page, region))
}

/// The first page from `first` on and below `end` that no region holds. Pages are not visited one by one: from a page
/// that a region holds the search goes on after that region.
pub fn first_unheld(ram: &[Region], first: u64, end: u64) -> Option<u64>
    requires { end ≤ 2 ^ 52 }
    ensures { result ≡ first_unheld ram.now first (end - first) }
{
    let mut page = first;
    while page < end {
        let Some(region) = holder(ram, page) else {
            return Some(page);
        };
        page = end.min(region.end / GRANULE_SIZE);
    }
    None
}
