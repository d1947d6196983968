//! Reading regions of RAM.
ghost use Rattle.std.specs.Prelude.{◌≡◌, IfOk, map};
ghost use Rattle.toml.specs.Data.{at};
ghost use Rattle.toml.specs.View.{view};
ghost use Rattle.rim_manifest.specs.Launches.{region_in, region_of};
ghost use Rattle.rim_rules.specs.Values.{whole_in};

use rim_launch::Region;
use std::alloc::{AllocError, Global};
use toml::Value;

/// Reads each region from a pair of addresses.
pub fn read_regions(alloc: Global, pairs: &[Value]) -> Result<Vec<Region>, AllocError>
    ensures { IfOk result (λ v. v.items ≡ map (λ p. region_in (view p)) pairs.now) }
{
    pairs.iter().map(|pair| region(pair)).collect(alloc)
}

/// The region from the first number of a pair to the second.
fn region(pair: &Value) -> Region
    ensures { result ≡ region_in (view pair.now) }
{
    region_of(whole(pair, 0), whole(pair, 1))
}

/// The number at a place of an array, or 0.
fn whole(array: &Value, place: usize) -> u64
    ensures { result ≡ whole_in (at place (view array.now)) }
{
    match array.get(place) {
        Some(Value::Integer(x)) if 0 <= *x => *x as u64,
        _ => 0,
    }
}

/// The region of these addresses. Of others it is the region of one byte at 0, which is not read: a fault
/// holds there.
#[tactic(auto, unfolding(crate::specs::Launches::region_of))]
fn region_of(base: u64, end: u64) -> Region
    ensures { result ≡ region_of base end }
{
    let Some(region) = Region::new(base, end) else {
        return Region { base: 0, end: 1 };
    };
    region
}
