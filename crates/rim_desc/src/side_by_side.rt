//! Messages that are hashed side by side.
ghost use Rattle.std.specs.Prelude.{◌≡◌, ◌%◌, ◌<◌, ◌≤◌, ◌++◌, length, map};
ghost use Rattle.std.specs.List.{All};
ghost use Rattle.rim_desc.specs.Measurement.{measurement_of};
ghost use Rattle.rim_desc.specs.Page.{zeros};
ghost use Rattle.rim_desc.specs.declared.measurement.Algo.TheVariants as algo;
ghost use Rattle.rim_desc.specs.declared.side_by_side.TheConstants.{MOST_LANES};

use crate::descriptor::DESCRIPTOR_SIZE;
use crate::measurement::{Algo, Measurement, extend, hash};
use rim_sha::{
    sha256_eight, sha256_eight_descriptors, sha256_four, sha256_four_descriptors, sha512_four,
    sha512_four_descriptors,
};

/// No more messages than this go side by side.
pub const MOST_LANES: usize = 8;

/// How many words a vector of the processor has room for, of 32 bits each. No result depends on it.
#[derive(Clone, Copy, Debug, PartialEq, Eq)]
pub enum Lanes {
    /// Four, as every processor for x86-64 has.
    Four,
    /// Eight, as with AVX2.
    Eight,
}

impl Lanes {
    /// How many messages are best hashed side by side. The words of SHA-512 have 64 bits, and two at a time gain nothing.
    pub fn count(self, algo: Algo) -> usize
        ensures { (0 < result) × (result ≤ MOST_LANES) }
    {
        match (self, algo) {
            (Lanes::Four, Algo::Sha256) => 4,
            (Lanes::Four, Algo::Sha512) => 1,
            (Lanes::Eight, Algo::Sha256) => 8,
            (Lanes::Eight, Algo::Sha512) => 4,
        }
    }
}

/// The measurements of messages of one size in bytes, which is a whole number of blocks of 128. They go side by side where
/// there are four, or by SHA-256 eight.
pub fn hash_each(algo: Algo, messages: &[&[u8]], size: usize, digests: &mut [Measurement])
    requires size { All (λ m. length m.now ≡ size) messages.now }
    requires whole { size % 128 ≡ 0 }
    requires room { length digests.old ≡ length messages.now }
    ensures { map (λ m. m.bytes) digests.new
        ≡ map (λ m. measurement_of algo m.now) messages.now }
{
    match algo {
        Algo::Sha256 => hash_by_sha256(messages, size, digests),
        Algo::Sha512 => hash_by_sha512(messages, size, digests),
    }
}

fn hash_by_sha256(messages: &[&[u8]], size: usize, digests: &mut [Measurement])
    requires size { All (λ m. length m.now ≡ size) messages.now }
    requires whole { size % 128 ≡ 0 }
    requires room { length digests.old ≡ length messages.now }
    ensures { map (λ m. m.bytes) digests.new
        ≡ map (λ m. measurement_of algo.Sha256 m.now) messages.now }
{
    if let Ok(eight) = <&[&[u8]; 8]>::try_from(messages) {
        return put_sha256(digests, &sha256_eight(eight, size));
    }
    if let Ok(four) = <&[&[u8]; 4]>::try_from(messages) {
        return put_sha256(digests, &sha256_four(four, size));
    }
    hash_one_by_one(Algo::Sha256, messages, digests);
}

fn hash_by_sha512(messages: &[&[u8]], size: usize, digests: &mut [Measurement])
    requires size { All (λ m. length m.now ≡ size) messages.now }
    requires whole { size % 128 ≡ 0 }
    requires room { length digests.old ≡ length messages.now }
    ensures { map (λ m. m.bytes) digests.new
        ≡ map (λ m. measurement_of algo.Sha512 m.now) messages.now }
{
    if let Ok(four) = <&[&[u8]; 4]>::try_from(messages) {
        return put_sha512(digests, &sha512_four(four, size));
    }
    hash_one_by_one(Algo::Sha512, messages, digests);
}

fn hash_one_by_one(algo: Algo, messages: &[&[u8]], digests: &mut [Measurement])
    requires { length digests.old ≡ length messages.now }
    ensures { map (λ m. m.bytes) digests.new
        ≡ map (λ m. measurement_of algo m.now) messages.now }
{
    'each: for i in 0..messages.len() {
        digests[i] = hash(algo, messages[i]);
    }
}

/// Realm Initial Measurements, each extended by a descriptor, which holds the present one. They go side by side where there
/// are four, or by SHA-256 eight.
pub fn extend_each(algo: Algo, descriptors: &[[u8; DESCRIPTOR_SIZE]], rims: &mut [Measurement])
    requires { length rims.old ≡ length descriptors.now }
    ensures { map (λ m. m.bytes) rims.new ≡ map (measurement_of algo) descriptors.now }
{
    match algo {
        Algo::Sha256 => extend_by_sha256(descriptors, rims),
        Algo::Sha512 => extend_by_sha512(descriptors, rims),
    }
}

fn extend_by_sha256(descriptors: &[[u8; DESCRIPTOR_SIZE]], rims: &mut [Measurement])
    requires { length rims.old ≡ length descriptors.now }
    ensures { map (λ m. m.bytes) rims.new ≡ map (measurement_of algo.Sha256) descriptors.now }
{
    if let Ok(eight) = <&[[u8; DESCRIPTOR_SIZE]; 8]>::try_from(descriptors) {
        return put_sha256(rims, &sha256_eight_descriptors(eight));
    }
    if let Ok(four) = <&[[u8; DESCRIPTOR_SIZE]; 4]>::try_from(descriptors) {
        return put_sha256(rims, &sha256_four_descriptors(four));
    }
    extend_one_by_one(Algo::Sha256, descriptors, rims);
}

fn extend_by_sha512(descriptors: &[[u8; DESCRIPTOR_SIZE]], rims: &mut [Measurement])
    requires { length rims.old ≡ length descriptors.now }
    ensures { map (λ m. m.bytes) rims.new ≡ map (measurement_of algo.Sha512) descriptors.now }
{
    if let Ok(four) = <&[[u8; DESCRIPTOR_SIZE]; 4]>::try_from(descriptors) {
        return put_sha512(rims, &sha512_four_descriptors(four));
    }
    extend_one_by_one(Algo::Sha512, descriptors, rims);
}

fn extend_one_by_one(algo: Algo, descriptors: &[[u8; DESCRIPTOR_SIZE]], rims: &mut [Measurement])
    requires { length rims.old ≡ length descriptors.now }
    ensures { map (λ m. m.bytes) rims.new ≡ map (measurement_of algo) descriptors.now }
{
    'each: for i in 0..descriptors.len() {
        rims[i] = extend(algo, &descriptors[i]);
    }
}

/// Puts SHA-256 digests in the places of measurements.
fn put_sha256(rims: &mut [Measurement], digests: &[[u8; 32]])
    requires { length rims.old ≡ length digests.now }
    ensures { map (λ m. m.bytes) rims.new ≡ map (λ d. d ++ zeros 32) digests.now }
{
    'each: for i in 0..digests.len() {
        rims[i] = Measurement::of_sha256(digests[i]);
    }
}

/// Puts SHA-512 digests in the places of measurements.
fn put_sha512(rims: &mut [Measurement], digests: &[[u8; 64]])
    requires { length rims.old ≡ length digests.now }
    ensures { map (λ m. m.bytes) rims.new ≡ digests.now }
{
    'each: for i in 0..digests.len() {
        rims[i] = Measurement { bytes: digests[i] };
    }
}
