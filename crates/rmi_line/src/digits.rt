//! Numbers, read from their digits.
ghost use Rattle.std.specs.Prelude.{◌≡◌, ℕ, ◌*◌, ◌^◌, ◌<◌, true, List, ◌∷◌, length, slice_index, decimal};
ghost use Rattle.std.specs.List.{All, flat_map};
ghost use Rattle.hex.specs.Hex.{encode_lower, lower_digits};
ghost use Rattle.rmi_line.specs.Typed.{IsByte};
ghost use Rattle.rmi_line.specs.inside.Digits.{decimal_value};
ghost use Rattle.rmi_line.specs.inside.Words.{spaced};

/// The value of a byte that is no digit.
const X: u8 = 255;

/// The value of each byte as a lower case hexadecimal digit: `0` to `9` are at 48 to 57, `a` to `f` at 97 to 102. A
/// table takes no jumps, which a processor would often guess wrong.
const VALUES: [u8; 256] = [
    X, X, X, X, X, X, X, X, X, X, X, X, X, X, X, X, X, X, X, X, X, X, X, X, X, X, X, X, X, X, X, X,
    X, X, X, X, X, X, X, X, X, X, X, X, X, X, X, X, 0, 1, 2, 3, 4, 5, 6, 7, 8, 9, X, X, X, X, X, X,
    X, X, X, X, X, X, X, X, X, X, X, X, X, X, X, X, X, X, X, X, X, X, X, X, X, X, X, X, X, X, X, X,
    X, 10, 11, 12, 13, 14, 15, X, X, X, X, X, X, X, X, X, X, X, X, X, X, X, X, X, X, X, X, X, X, X,
    X, X, X, X, X, X, X, X, X, X, X, X, X, X, X, X, X, X, X, X, X, X, X, X, X, X, X, X, X, X, X, X,
    X, X, X, X, X, X, X, X, X, X, X, X, X, X, X, X, X, X, X, X, X, X, X, X, X, X, X, X, X, X, X, X,
    X, X, X, X, X, X, X, X, X, X, X, X, X, X, X, X, X, X, X, X, X, X, X, X, X, X, X, X, X, X, X, X,
    X, X, X, X, X, X, X, X, X, X, X, X, X, X, X, X, X, X, X, X, X, X, X, X, X, X, X, X, X, X, X, X,
    X, X,
];

/// Writes the bytes that pairs of lower case hexadecimal digits spell, and says whether they spell bytes. If not,
/// what is written means nothing.
pub fn decode(digits: &[u8], bytes: &mut [u8]) -> bool
    requires { length digits.now ≡ 2 * length bytes.old }
    ensures found { result ≡ true → digits.now ≡ encode_lower bytes.new }
    ensures only { (spelled : List ℕ) → length spelled ≡ length bytes.old → All IsByte spelled
        → digits.now ≡ encode_lower spelled → result ≡ true }
{
    for (i, byte) in bytes.iter_mut().enumerate() {
        let high = hex_value(digits[2 * i]);
        let low = hex_value(digits[2 * i + 1]);
        if high > 15 || low > 15 {
            return false;
        }
        *byte = 16 * high + low;
    }
    true
}

/// The value of a lower case hexadecimal digit, or 255 for another byte.
fn hex_value(digit: u8) -> u8
    ensures found { result < 16 → digit ≡ slice_index lower_digits result }
    ensures only { (value : ℕ) → value < 16 → digit ≡ slice_index lower_digits value
        → result ≡ value }
{
    VALUES[digit as usize]
}

/// The number of 8 bits that the first word of a rest spells, where it spells one. Each word has a space before it.
pub fn front_number(rest: &[u8]) -> u8
    ensures { (number : ℕ) (others : List (List ℕ)) → number < 2 ^ 8
        → rest.now ≡ flat_map spaced (decimal number ∷ others) → result ≡ number }
{
    let first = value_at(rest, 1);
    let second = value_at(rest, 2);
    let third = value_at(rest, 3);
    let number = if second > 9 {
        first
    } else if third > 9 {
        10 * first + second
    } else {
        100 * first + 10 * second + third
    };
    number.min(255) as u8
}

/// The value of the decimal digit at a place, or 10 if there is none.
fn value_at(rest: &[u8], place: usize) -> u32
    ensures { result ≡ decimal_value (slice_index rest.now place) }
{
    match rest.get(place) {
        Some(digit) if digit.is_ascii_digit() => (*digit - b'0') as u32,
        _ => 10,
    }
}
