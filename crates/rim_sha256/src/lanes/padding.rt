//! The last block of a message of whole blocks.
ghost use Rattle.std.specs.Prelude.{◌≡◌, ◌%◌};
ghost use Rattle.sha2.specs.Sha256.{padding};

/// The padding of a message of whole blocks: a bit 1, zeros, and the length in bits (5.1.1).
pub(crate) fn padding(len: usize) -> [u8; 64]
    requires { len % 64 ≡ 0 }
    ensures { result ≡ padding len }
{
    let bits = (len as u64).wrapping_mul(8).to_be_bytes();
    let [b0, b1, b2, b3, b4, b5, b6, b7] = bits;
    [
        0x80, 0, 0, 0, 0, 0, 0, 0, 0, 0, 0, 0, 0, 0, 0, 0, 0, 0, 0, 0, 0, 0, 0, 0, 0, 0, 0, 0, 0,
        0, 0, 0, 0, 0, 0, 0, 0, 0, 0, 0, 0, 0, 0, 0, 0, 0, 0, 0, 0, 0, 0, 0, 0, 0, 0, 0, b0, b1,
        b2, b3, b4, b5, b6, b7,
    ]
}
