//! The start tables of a realm.
ghost use Rattle.std.specs.Prelude.{◌≡◌};
ghost use Rattle.rmm_model.specs.Start.{start_of};

use rmm_model::{is_width, start_count, start_level};

/// The level and the number of the start tables of a realm with IPAs of `s2sz` bits; none where no
/// realm has such IPAs.
pub fn start_of(s2sz: u8) -> Option<(u8, u8)>
    ensures { result ≡ start_of s2sz }
{
    if is_width(s2sz) {
        Some((start_level(s2sz), start_count(s2sz) as u8))
    } else {
        None
    }
}
