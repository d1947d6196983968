//! Lanes of vectors, for digests of messages that go side by side: each message has a lane. Here is what SHA-256 and SHA-512 have in
//! common (FIPS 180-4): what lane by lane means, its laws, and what messages side by side take of arrays. The kit proves an array's
//! literal where its elements are of a type parameter, and not where they are vectors of `N` words: `eight` and `repeated` take its place.
#![tactic(auto)]

ghost use Rattle.std.specs.Prelude.{◌≡◌, ◌<◌, [], ◌∷◌, length, replicate};
ghost use Rattle.sha_lanes.specs.inside.Lanes.{message};

/// An array of eight elements.
#[inline(always)]
pub fn eight<T>(a: T, b: T, c: T, d: T, e: T, f: T, g: T, h: T) -> [T; 8]
    ensures { result ≡ a ∷ b ∷ c ∷ d ∷ e ∷ f ∷ g ∷ h ∷ [] }
{
    [a, b, c, d, e, f, g, h]
}

/// An array of one element, again and again.
#[inline(always)]
pub fn repeated<T: Copy, const L: usize>(x: T) -> [T; L]
    ensures { result ≡ replicate L x }
{
    [x; L]
}

/// One of some messages.
#[inline(always)]
pub fn message<'a>(messages: &[&'a [u8]], j: usize) -> &'a [u8]
    requires { j < length messages.now }
    ensures { result.now ≡ message messages.now j }
{
    messages[j]
}
