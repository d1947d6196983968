//! Sizes of entries and tables.
ghost use Rattle.std.specs.Prelude.{◌≡◌, ◌<◌, ◌≤◌, ◌^◌};
ghost use Rattle.rmm_model.specs.Blocks.{down, size, span};

/// The entries of a table: 512 (DEN0137, "RTT levels", for granules of 4096 bytes).
pub const TABLE_ENTRIES: u64 = 512;

/// The bytes that an entry of a level covers.
pub fn size_of_level(level: u8) -> u64
    ensures value { result ≡ size level }
    ensures some { 0 < result }
    ensures most { result ≤ 2 ^ 39 }
{
    match level {
        0 => 1 << 39,
        1 => 1 << 30,
        2 => 1 << 21,
        _ => 1 << 12,
    }
}

/// The bytes that a table of a level covers.
pub fn span_of_level(level: u8) -> u64
    ensures value { result ≡ span level }
    ensures some { 0 < result }
    ensures most { result ≤ 2 ^ 48 }
{
    size_of_level(level) * TABLE_ENTRIES
}

/// The first address that a table of a level covers where it covers an IPA.
pub fn table_base(level: u8, ipa: u64) -> u64
    ensures value { result ≡ down (span level) ipa }
    ensures below { result ≤ ipa }
{
    let span = span_of_level(level);
    ipa / span * span
}
