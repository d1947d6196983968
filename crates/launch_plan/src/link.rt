//! Neighbouring measured parts of a launch.
use page_jobs::PageKey;
use rim_desc::Measurement;
use std::cmp::Ordering;

/// Neighbouring measured parts of a launch, after its realm. Addresses are of the realm, in bytes.
#[derive(Clone, Copy, Debug, PartialEq, Eq)]
pub enum Link {
    /// The blocks of a run of RAM: this many of `size` bytes each, from `base` on.
    Blocks { base: u64, size: u64, count: u64 },
    /// Pages of a measured item: this many from `ipa` on, of which the first has the key.
    Pages { ipa: u64, key: PageKey, count: u64 },
    /// Pages of an item that is not measured: this many from `ipa` on.
    Unmeasured { ipa: u64, count: u64 },
    /// A REC, by the measurement of its page.
    Rec { content: Measurement },
}

impl Link {
    /// The order of two links: by their kinds, then by what they hold.
    pub fn compare(&self, other: &Link) -> Ordering {
        match (*self, *other) {
            (
                Link::Blocks { base, size, count },
                Link::Blocks {
                    base: from,
                    size: other_size,
                    count: other_count,
                },
            ) => (base.cmp(&from))
                .then(size.cmp(&other_size))
                .then(count.cmp(&other_count)),
            (
                Link::Pages { ipa, key, count },
                Link::Pages {
                    ipa: from,
                    key: other_key,
                    count: other_count,
                },
            ) => (ipa.cmp(&from))
                .then(key.cmp(&other_key))
                .then(count.cmp(&other_count)),
            (
                Link::Unmeasured { ipa, count },
                Link::Unmeasured {
                    ipa: from,
                    count: other_count,
                },
            ) => ipa.cmp(&from).then(count.cmp(&other_count)),
            (Link::Rec { content }, Link::Rec { content: other }) => {
                content.bytes.cmp(&other.bytes)
            }
            _ => self.kind().cmp(&other.kind()),
        }
    }

    fn kind(&self) -> u8 {
        match self {
            Link::Blocks { .. } => 0,
            Link::Pages { .. } => 1,
            Link::Unmeasured { .. } => 2,
            Link::Rec { .. } => 3,
        }
    }
}
