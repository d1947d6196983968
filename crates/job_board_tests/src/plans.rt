//! What plans are made of, for tests of other crates too.
use page_jobs::PageKey;
use rim_chain::Link;
use rim_desc::{Algo, NO_NUMBERS, RealmParams, Source};

pub const REALM: RealmParams = RealmParams {
    flags: 0,
    s2sz: 33,
    numbers: NO_NUMBERS,
    rtt_level_start: 2,
    rtt_num_start: 1,
    algo: Algo::Sha256,
    rpv: [0; 64],
    rtt_base: 0,
};

/// The first pages of a file, at an IPA.
pub fn pages_link(ipa: u64, file: usize, count: u64) -> Link {
    let key = PageKey {
        algo: Algo::Sha256,
        source: Source::File(file),
        lead: 0,
        number: 0,
    };
    Link::Pages { ipa, key, count }
}
