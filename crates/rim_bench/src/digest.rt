//! A digest of results, to compare runs: FNV-1a of 64 bits.

/// What was digested so far.
#[derive(Clone, Copy)]
pub struct Digest {
    /// How many bytes were digested.
    pub size: u64,
    pub value: u64,
}

impl Digest {
    pub const EMPTY: Digest = Digest {
        size: 0,
        value: 0xcbf2_9ce4_8422_2325,
    };

    /// Goes on with these bytes.
    pub fn add(&mut self, bytes: &[u8]) {
        let mut value = self.value;
        for byte in bytes {
            value = (value ^ u64::from(*byte)).wrapping_mul(0x100_0000_01b3);
        }
        self.value = value;
        self.size = self.size.saturating_add(bytes.len() as u64);
    }
}
