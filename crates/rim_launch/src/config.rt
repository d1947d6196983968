//! The configuration of a launch.
ghost use Rattle.std.specs.Prelude.{◌≡◌, ◌%◌, ◌<◌, ◌≤◌, ◌^◌, true};
ghost use Rattle.rmm_model.specs.Start.{is_width};
ghost use Rattle.rim_desc.specs.declared.rec.TheConstants.{AUX_LIMIT};
ghost use Rattle.rim_launch.specs.declared.config.TheConstants.{POOL_LIMIT};

use rim_desc::{Algo, RealmNumbers, RecRule};

/// The most granules of a pool: 16,777,216. This project's choice.
pub const POOL_LIMIT: u64 = 16_777_216;

/// What a launch says of its realm, of the monitor that it is measured for and of the pool that its
/// granules are taken from. Each value is in its range. The ranges are this project's choice, but for the
/// width of an IPA, the levels of blocks and the number of auxiliary granules: DEN0137, RmiRealmParams,
/// "RTT levels" and RmiRecParams.
#[derive(Clone, Copy, Debug, PartialEq, Eq)]
pub struct Config {
    /// The hash algorithm of the realm's measurements.
    pub algo: Algo,
    /// The width of an IPA in bits, 32 to 48.
    pub s2sz: u8,
    /// Whether the realm has SVE.
    pub sve: bool,
    /// Whether the realm has a PMU.
    pub pmu: bool,
    /// The numbers of the realm's parameters that have a row each.
    pub numbers: RealmNumbers,
    /// The Realm Personalization Value, which is not measured.
    pub rpv: [u8; 64],
    /// The lowest level of a block of RAM, 0 to 3.
    pub block_level: u8,
    /// The number of auxiliary granules of a REC, at most [`rim_desc::AUX_LIMIT`].
    pub num_aux: u8,
    /// Which RECs extend the measurement; without a rule each REC is runnable.
    pub rec_rule: Option<RecRule>,
    /// The physical address of the pool's first granule, a multiple of 64 KiB below 2^48.
    pub pool_base: u64,
    /// How many granules the pool has, 1 to [`POOL_LIMIT`].
    pub pool_count: u64,
    pub ghost width: { is_width s2sz ≡ true },
    pub ghost level: { block_level ≤ 3 },
    pub ghost aux: { num_aux ≤ AUX_LIMIT },
    pub ghost pool_aligned: { pool_base % 65536 ≡ 0 },
    pub ghost pool_low: { pool_base < 2 ^ 48 },
    pub ghost pool_fits: { (1 ≤ pool_count) × (pool_count ≤ POOL_LIMIT) },
}
