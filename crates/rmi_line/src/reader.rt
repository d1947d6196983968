//! The words of a line, taken from its front.
ghost use Rattle.std.specs.Prelude.{◌≡◌, ◌≢◌, ◌↔◌, ℕ, ◌^◌, ◌<◌, ◌≤◌, true, false, List, [], ◌∷◌, ◌++◌, length, decimal, map, take, MatchOption, IsTrue, ⊤};
ghost use Rattle.std.specs.List.{All, flat_map};
ghost use Rattle.hex.specs.Hex.{encode_lower};
ghost use Rattle.rim_desc.specs.Measurement.{algo_word};
ghost use Rattle.rim_desc.specs.Number.{digits_of};
ghost use Rattle.rim_desc.specs.Numbers.{in_order};
ghost use Rattle.rim_desc.specs.Rule.{rule_word};
ghost use Rattle.rim_desc.specs.declared.command.Command.{Command};
ghost use Rattle.rim_desc.specs.declared.measurement.Algo.{Algo};
ghost use Rattle.rim_desc.specs.declared.measurement.Measurement.{Measurement};
ghost use Rattle.rim_desc.specs.declared.rec.TheConstants.{AUX_LIMIT};
ghost use Rattle.rmi_line.specs.Ends.{digest_bytes};
ghost use Rattle.rmi_line.specs.Line.{content_words};
ghost use Rattle.rmi_line.specs.Typed.{Are64Bytes, IsByte, IsContent, IsTyped, IsWord};
ghost use Rattle.rmi_line.specs.inside.Left.{AreLeft, Takes};
ghost use Rattle.rmi_line.specs.inside.Words.{spaced};

use crate::digits::{decode, front_number};
use crate::typed::typed;
use itoa::Buffer;
use rim_desc::{AUX_LIMIT, Algo, Command, Measurement, NUMBER_COUNT, RealmNumbers, RecRule};

/// What is left of a line: words, each with the space before it.
///
/// Once a word is not as it has to be, `whole` is false for good, and what is answered means nothing. So a command is
/// put together first, and [`Words::end`] asks once whether the line spelled it.
#[derive(Drop)]
pub struct Words<'a> {
    rest: &'a [u8],
    whole: bool,
}

impl<'a> Words<'a> {
    /// All of what is after a command's name.
    pub fn new(rest: &'a [u8]) -> Words<'a>
        ensures { (words : List (List ℕ))
            → (rest.now ≡ flat_map spaced words) ↔ AreLeft result words }
    {
        Words { rest, whole: true }
    }

    /// The next word, if it has this size in bytes, and what is after it.
    fn next(&self, size: usize) -> Option<(&'a [u8], &'a [u8])>
        ensures { MatchOption result
            ((word rest : List ℕ) → length word ≡ size → self.now.rest.now ≢ spaced word ++ rest)
            (λ x. (self.now.rest.now ≡ spaced x.0.now ++ x.1.now) × (length x.0.now ≡ size)) }
    {
        let spaced = after(self.rest, b" ")?;
        spaced.split_at_checked(size)
    }

    /// Takes a word if it is next, and says whether it was. Else all is left as it was.
    fn takes(&mut self, word: &[u8]) -> bool
        ensures whole { self.new.whole ≡ self.old.whole }
        ensures taken { result ≡ true → self.old.rest.now ≡ spaced word.now ++ self.new.rest.now }
        ensures kept { result ≡ false → self.new.rest.now ≡ self.old.rest.now }
        ensures other { result ≡ false
            → (rest : List ℕ) → self.old.rest.now ≢ spaced word.now ++ rest }
    {
        match self.next(word.len()) {
            Some((found, rest)) if found == word => {
                self.rest = rest;
                true
            }
            _ => false,
        }
    }

    /// Takes a word that has to be next.
    pub fn word(&mut self, word: &[u8])
        ensures { Takes (λ _. word.now ∷ []) (λ _. ⊤) self.old result self.new }
    {
        if !self.takes(word) {
            self.whole = false;
        }
    }

    /// Takes lower case hexadecimal digits, two for each byte that they spell.
    fn digits(&mut self, bytes: &mut [u8])
        ensures bytes { All IsByte bytes.new }
        ensures taken { Takes (λ ys. encode_lower ys ∷ [])
            (λ ys. (length ys ≡ length bytes.old) × All IsByte ys) self.old bytes.new self.new }
    {
        let Some((word, rest)) = self.next(2 * bytes.len()) else {
            self.whole = false;
            return;
        };
        if !decode(word, bytes) {
            self.whole = false;
            return;
        }
        self.rest = rest;
    }

    /// Takes an address, or another number of 64 bits.
    pub fn address(&mut self) -> u64
        ensures { Takes (λ n. digits_of n ∷ []) IsWord self.old result self.new }
    {
        let mut bytes = [0; 8];
        self.digits(&mut bytes);
        u64::from_be_bytes(bytes)
    }

    /// Takes an address for each place.
    pub fn addresses(&mut self, places: &mut [u64])
        ensures { Takes (λ ns. map digits_of ns)
            (λ ns. (length ns ≡ length places.old) × All IsWord ns) self.old places.new self.new }
    {
        for place in places.iter_mut() {
            *place = self.address();
        }
    }

    /// Takes a number of 8 bits.
    pub fn number(&mut self) -> u8
        ensures { Takes (λ n. decimal n ∷ []) IsByte self.old result self.new }
    {
        let number = front_number(self.rest);
        self.word(Buffer::new().format(number).as_bytes());
        number
    }

    /// Takes a number of 8 bits for each place.
    fn each_number(&mut self, places: &mut [u8])
        ensures { Takes (λ ns. map decimal ns)
            (λ ns. (length ns ≡ length places.old) × All IsByte ns) self.old places.new self.new }
    {
        for place in places.iter_mut() {
            *place = self.number();
        }
    }

    /// Takes the numbers of a realm's parameters.
    pub fn numbers(&mut self) -> RealmNumbers
        ensures { Takes (λ n. map decimal (in_order n)) (λ n. All IsByte (in_order n))
            self.old result self.new }
    {
        let mut numbers = [0; NUMBER_COUNT];
        self.each_number(&mut numbers);
        RealmNumbers::from_order(numbers)
    }

    /// Takes the number of a REC's auxiliary granules, of which it has at most [`AUX_LIMIT`].
    pub fn count(&mut self) -> usize
        ensures most { result ≤ AUX_LIMIT }
        ensures taken { Takes (λ n. decimal n ∷ []) (λ n. n ≤ AUX_LIMIT)
            self.old result self.new }
    {
        let count = self.number() as usize;
        if count > AUX_LIMIT {
            self.whole = false;
            return 0;
        }
        count
    }

    /// Takes the 64 bytes of a measurement, or of a personalization value.
    pub fn bytes(&mut self) -> [u8; 64]
        ensures { Takes (λ ys. encode_lower ys ∷ []) Are64Bytes self.old result self.new }
    {
        let mut bytes = [0; 64];
        self.digits(&mut bytes);
        bytes
    }

    /// Takes the word of a hash algorithm.
    pub fn algo(&mut self) -> Algo
        ensures { Takes (λ algo. algo_word algo ∷ []) (λ _. ⊤) self.old result self.new }
    {
        if self.takes(b"sha256") {
            return Algo::Sha256;
        }
        self.word(b"sha512");
        Algo::Sha512
    }

    /// Takes the word of a rule of RECs.
    pub fn rule(&mut self) -> RecRule
        ensures { Takes (λ rule. rule_word rule ∷ []) (λ _. ⊤) self.old result self.new }
    {
        if self.takes(b"all") {
            return RecRule::All;
        }
        self.word(b"runnable");
        RecRule::Runnable
    }

    /// Takes the measurement of a page's bytes, or that they are not measured.
    pub fn content(&mut self) -> Option<Measurement>
        ensures { Takes content_words IsContent self.old result self.new }
    {
        if self.takes(b"measured") {
            let bytes = self.bytes();
            return Some(Measurement { bytes });
        }
        self.word(b"unmeasured");
        None
    }

    /// Takes the digits of a digest of this algorithm. The bytes after the digest are zero.
    pub fn digest(&mut self, algo: Algo) -> [u8; 64]
        ensures { Takes (λ ys. encode_lower (digest_bytes algo ys) ∷ []) Are64Bytes
            self.old result self.new }
    {
        match algo {
            Algo::Sha256 => {
                let mut digest = [0; 32];
                self.digits(&mut digest);
                padded(&digest)
            }
            Algo::Sha512 => self.bytes(),
        }
    }

    /// Whether each word was as it had to be, and none is left.
    pub fn are_taken(&self) -> bool
        ensures { IsTrue result ↔ AreLeft self.now [] }
    {
        self.whole && self.rest.is_empty()
    }

    /// The command that was put together, if its words were all that was left.
    pub fn end(self, command: Command) -> Option<Command>
        ensures { MatchOption result (AreLeft self.entry [] → ⊥)
            (λ found. (found ≡ command) × IsTyped command × AreLeft self.entry []) }
    {
        typed(&command);
        if self.are_taken() {
            Some(command)
        } else {
            None
        }
    }
}

/// A digest of 32 bytes, and zeros after it.
fn padded(digest: &[u8; 32]) -> [u8; 64]
    ensures { take 32 result ≡ digest.now }
{
    let mut bytes = [0; 64];
    bytes[..32].copy_from_slice(digest);
    bytes
}

/// What is after a front of the bytes, if they begin with it.
pub fn after<'a>(bytes: &'a [u8], front: &[u8]) -> Option<&'a [u8]>
    ensures { MatchOption result ((rest : List ℕ) → bytes.now ≢ front.now ++ rest)
        (λ rest. bytes.now ≡ front.now ++ rest.now) }
{
    bytes.strip_prefix(front)
}
