//! Measuring on the way of a region that becomes RAM.
ghost use Rattle.std.specs.Prelude.{◌≡◌, ◌+◌, ◌*◌, ◌<◌, ◌^◌};
ghost use Rattle.rim_desc.specs.Part.{extended_by};
ghost use Rattle.rmm_model.specs.Blocks.{stretches};
ghost use Rattle.rmm_model.specs.Effects.{ripas_parts};

use rim_desc::{Algo, Measurement, extend, ripas_descriptor};

/// A measurement extended once for each of `count` stretches of `size` bytes, from `base` on, that
/// become RAM. It takes a hash for each.
pub fn extended_by_stretches(
    algo: Algo,
    rim: Measurement,
    base: u64,
    size: u64,
    count: u64,
) -> Measurement
    requires { base + count * size < 2 ^ 64 }
    ensures { result.bytes ≡ extended_by algo rim.bytes (ripas_parts (stretches count size base)) }
{
    let mut rim = rim;
    let mut from = base;
    for _ in 0..count {
        let top = from + size;
        rim = extend(algo, &ripas_descriptor(&rim, from, top));
        from = top;
    }
    rim
}
