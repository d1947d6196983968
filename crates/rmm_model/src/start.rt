//! The start tables of a realm, and the protected half of its IPA space.
ghost use Rattle.std.specs.Prelude.{◌≡◌, ◌<◌, ◌≤◌, ◌^◌, true};
ghost use Rattle.rmm_model.specs.Start.{is_width, protected_end, start_count, start_level};

/// The least width of an IPA that a realm may have, in bits: 32. This project's choice.
pub const LEAST_WIDTH: u8 = 32;

/// The most bits of an IPA that a realm may have: 48, since it has no LPA2 (DEN0137, RmiRealmFlags).
pub const MOST_WIDTH: u8 = 48;

/// Whether a realm may have IPAs of this many bits.
pub fn is_width(s2sz: u8) -> bool
    ensures { result ≡ is_width s2sz }
{
    LEAST_WIDTH <= s2sz && s2sz <= MOST_WIDTH
}

/// The level of the start tables.
pub fn start_level(s2sz: u8) -> u8
    ensures value { result ≡ start_level s2sz }
    ensures most { result ≤ 2 }
{
    if s2sz <= 34 {
        2
    } else if s2sz <= 43 {
        1
    } else {
        0
    }
}

/// The number of start tables.
pub fn start_count(s2sz: u8) -> u64
    requires { is_width s2sz ≡ true }
    ensures value { result ≡ start_count s2sz }
    ensures some { 0 < result }
    ensures most { result ≤ 16 }
{
    let covered = 12 + 9 * (4 - start_level(s2sz));
    two_to(s2sz.saturating_sub(covered))
}

/// The first address past the protected half.
pub fn protected_end(s2sz: u8) -> u64
    requires { is_width s2sz ≡ true }
    ensures value { result ≡ protected_end s2sz }
    ensures most { result ≤ 2 ^ 47 }
{
    two_to(s2sz - 1)
}

fn two_to(power: u8) -> u64
    requires { power < 64 }
    ensures { result ≡ 2 ^ power }
{
    1 << power
}
