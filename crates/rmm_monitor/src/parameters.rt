//! Tests of the parameters of commands.
ghost use Rattle.std.specs.Prelude.{◌≡◌, ◌+◌, ◌-◌, ◌*◌, ◌<◌, ◌≤◌, ◌^◌, ◌==◌, true, take};
ghost use Rattle.std.specs.Bool.{OnFalse};
ghost use Rattle.std.specs.List.{list_all};
ghost use Rattle.rmm_model.specs.Blocks.{granules, is_multiple};
ghost use Rattle.rmm_model.specs.Start.{is_width};
ghost use Rattle.rmm_model.specs.Checks.{has_bad_flags, has_other_flags, is_bad_content, is_bad_realm, is_bad_rec, is_cut, rec_index};
ghost use Rattle.rmm_model.specs.Effects.{is_runnable};
ghost use Rattle.rmm_model.specs.Owners.{repeats};
ghost use Rattle.rmm_model.specs.Space.{has};
ghost use Rattle.rim_desc.specs.declared.page.TheConstants.{PAGE_SIZE};

use rim_desc::{Algo, GRANULE_SIZE, Measurement, RealmParams, RecParams, RecRule};
use rmm_model::{is_width, size_of_level, span_of_level, start_count, start_level, table_base};

/// The most start tables that a realm may have.
pub const START_LIMIT: usize = 16;

/// Whether a realm's parameters are outside what a realm may have.
pub fn is_bad_realm(params: &RealmParams) -> bool
    ensures value { result ≡ is_bad_realm params.now }
    ensures width { OnFalse result (is_width params.now.s2sz ≡ true) }
    ensures start { OnFalse result (params.now.rtt_level_start ≤ 2) }
    ensures few { OnFalse result (params.now.rtt_num_start ≤ 16) }
    ensures fits { OnFalse result
        (params.now.rtt_base + params.now.rtt_num_start * PAGE_SIZE ≤ 2 ^ 64) }
{
    let is_unlike = has_other_flags(params.flags) || !is_width(params.s2sz);
    if is_unlike || params.rtt_level_start != start_level(params.s2sz) {
        return true;
    }
    let count = start_count(params.s2sz);
    if u64::from(params.rtt_num_start) != count {
        return true;
    }
    let bytes = count * GRANULE_SIZE;
    params.rtt_base % bytes != 0 || params.rtt_base > u64::MAX - (bytes - 1)
}

/// Whether flags other than SVE and PMU are set.
fn has_other_flags(flags: u64) -> bool
    ensures { result ≡ has_other_flags flags }
{
    flags % 2 != 0 || flags >= 8
}

/// The granules of some start tables, at most 16, and zeros after them.
pub fn start_tables(base: u64, count: u8) -> [u64; START_LIMIT]
    requires few { count ≤ 16 }
    requires fits { base + count * PAGE_SIZE ≤ 2 ^ 64 }
    ensures { take count result ≡ granules count base }
{
    let mut tables = [0; START_LIMIT];
    for index in 0..count {
        tables[index as usize] = base + u64::from(index) * GRANULE_SIZE;
    }
    tables
}

/// Whether a content is no measurement of the algorithm.
pub fn is_bad_content(algo: Algo, content: Option<Measurement>) -> bool
    ensures { result ≡ is_bad_content algo content }
{
    match algo {
        Algo::Sha256 => match content {
            Some(content) => !are_zero(&content.bytes[32..]),
            None => false,
        },
        Algo::Sha512 => false,
    }
}

/// Whether all these bytes are zero.
fn are_zero(bytes: &[u8]) -> bool
    ensures { result ≡ list_all (λ byte. byte == 0) bytes.now }
{
    bytes.iter().all(|byte| *byte == 0)
}

/// Whether a REC has flags that none has by the monitor's rule, or an MPIDR with bits that none has.
pub fn is_bad_rec(rule: Option<RecRule>, params: &RecParams) -> bool
    ensures { result ≡ is_bad_rec rule params.now }
{
    let mpidr = params.mpidr();
    has_bad_flags(rule, params.flags()) || mpidr / 16 % 16 != 0 || mpidr >= 1 << 32
}

/// Whether flags other than runnable are set; without a rule, also where that one is not.
fn has_bad_flags(rule: Option<RecRule>, flags: u64) -> bool
    ensures { result ≡ has_bad_flags rule flags }
{
    match rule {
        Some(_) => flags >= 2,
        None => flags != 1,
    }
}

/// Whether a REC of these flags is runnable.
pub fn is_runnable(flags: u64) -> bool
    ensures { result ≡ is_runnable flags }
{
    flags % 2 == 1
}

/// The index that an MPIDR names.
pub fn rec_index(mpidr: u64) -> u64
    ensures value { result ≡ rec_index mpidr }
    ensures most { result < 2 ^ 28 }
{
    let aff0 = mpidr % 16;
    let aff1 = mpidr / 256 % 256;
    let aff2 = mpidr / 65536 % 256;
    let aff3 = mpidr / 16777216 % 256;
    aff0 + 16 * aff1 + 4096 * aff2 + 1048576 * aff3
}

/// Whether a range is not made of whole entries of a level, or passes the table that holds `base`.
pub fn is_cut(level: u8, base: u64, top: u64) -> bool
    requires { base < top }
    ensures { result ≡ is_cut level base top }
{
    let size = size_of_level(level);
    base % size != 0 || top % size != 0 || top - table_base(level, base) > span_of_level(level)
}

/// Whether two of some granules are one.
pub fn repeats(granules: &[u64]) -> bool
    ensures { result ≡ repeats granules.now }
{
    for (index, granule) in granules.iter().enumerate() {
        if has(&granules[index + 1..], *granule) {
            return true;
        }
    }
    false
}

/// Whether a granule is among some.
pub fn has(granules: &[u64], granule: u64) -> bool
    ensures { result ≡ has granules.now granule }
{
    granules.contains(&granule)
}

/// Whether all these addresses are multiples of a granule's bytes.
pub fn all_aligned(granules: &[u64]) -> bool
    ensures { result ≡ list_all (is_multiple PAGE_SIZE) granules.now }
{
    granules.iter().all(|granule| *granule % GRANULE_SIZE == 0)
}
