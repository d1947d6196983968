//! Measurements.
ghost use Rattle.std.specs.Prelude.{◌≡◌, ◌++◌};
ghost use Rattle.rim_desc.specs.Measurement.{algo_word, measurement_of};
ghost use Rattle.rim_desc.specs.Page.{zeros};

use crate::descriptor::DESCRIPTOR_SIZE;
use rim_sha::{sha256_descriptor, sha512_descriptor};
use sha2::{Digest, Sha256, Sha512};

/// The hash algorithm of a realm (DEN0137, RmiHashAlgorithm).
#[derive(Clone, Copy, Debug, PartialEq, Eq, PartialOrd, Ord)]
pub enum Algo {
    /// SHA-256 of FIPS 180-4; its number is 0.
    Sha256,
    /// SHA-512 of FIPS 180-4; its number is 1.
    Sha512,
}

impl Algo {
    /// The word of the algorithm in manifests, reports and listings. This project's choice.
    pub fn word(self) -> &'static str
        ensures { result.now ≡ algo_word self }
    {
        match self {
            Algo::Sha256 => "sha256",
            Algo::Sha512 => "sha512",
        }
    }
}

/// A measurement: 64 bytes, of which a SHA-256 digest takes the first 32 and leaves zeros after it.
#[derive(Clone, Copy, Debug, PartialEq, Eq)]
pub struct Measurement {
    pub bytes: [u8; 64],
}

impl Measurement {
    /// A SHA-256 digest, filled with zero bytes to 64.
    pub fn of_sha256(digest: [u8; 32]) -> Measurement
        ensures { result.bytes ≡ digest ++ zeros 32 }
    {
        let mut bytes = [0; 64];
        bytes[..32].copy_from_slice(&digest);
        Measurement { bytes }
    }
}

/// The measurement of some bytes: their digest, filled with zero bytes to 64.
pub fn hash(algo: Algo, message: &[u8]) -> Measurement
    ensures { result.bytes ≡ measurement_of algo message.now }
{
    match algo {
        Algo::Sha256 => Measurement::of_sha256(Sha256::digest(message)),
        Algo::Sha512 => Measurement {
            bytes: Sha512::digest(message),
        },
    }
}

/// A Realm Initial Measurement extended by a descriptor, which holds the present one: the measurement
/// of the descriptor.
pub fn extend(algo: Algo, descriptor: &[u8; DESCRIPTOR_SIZE]) -> Measurement
    ensures { result.bytes ≡ measurement_of algo descriptor.now }
{
    match algo {
        Algo::Sha256 => Measurement::of_sha256(sha256_descriptor(descriptor)),
        Algo::Sha512 => Measurement {
            bytes: sha512_descriptor(descriptor),
        },
    }
}
