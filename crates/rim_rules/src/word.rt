//! Words: whole numbers, or texts of hexadecimal digits.
ghost use Rattle.std.specs.Prelude.{◌≡◌, ◌≤◌, codes, option_map, true};
ghost use Rattle.std.specs.Char.{digit_value, is_digit};
ghost use Rattle.std.specs.List.{list_all};
ghost use Rattle.std.specs.Str.Parse.{digits_value};
ghost use Rattle.toml.specs.View.{view};
ghost use Rattle.rim_rules.specs.Words.{after, are_digits, hex_number, is_word, word_of};

use toml::Value;

/// The most digits of a hexadecimal word.
const MOST_DIGITS: usize = 16;

/// The number that a value spells as a word, if it does.
pub fn word(value: &Value) -> Option<u64>
    ensures { result ≡ word_of (view value.now) }
{
    match value {
        Value::Integer(x) if 0 <= *x => Some(*x as u64),
        Value::String(text) => hex_word(text.as_bytes()),
        _ => None,
    }
}

/// Whether a value spells a word.
pub fn is_word(value: &Value) -> bool
    ensures { result ≡ is_word (view value.now) }
{
    word(value).is_some()
}

/// The number of a text `0x` and 1 to 16 hexadecimal digits.
fn hex_word(text: &[u8]) -> Option<u64>
    ensures { result ≡ hex_number (after (codes "0x") text.now) }
{
    match after(b"0x", text) {
        Some(digits) if are_digits(16, MOST_DIGITS, digits) => Some(spelled(16, digits)),
        _ => None,
    }
}

/// What follows these first bytes in a text that begins with them.
pub fn after<'a>(first: &[u8], text: &'a [u8]) -> Option<&'a [u8]>
    ensures { option_map (λ t. t.now) result ≡ after first.now text.now }
{
    text.strip_prefix(first)
}

/// Whether a text is 1 to `most` digits of a radix.
pub fn are_digits(radix: u32, most: usize, text: &[u8]) -> bool
    requires { (2 ≤ radix) × (radix ≤ 36) }
    ensures { result ≡ are_digits radix most text.now }
{
    1 <= text.len() && text.len() <= most && all_digits(radix, text)
}

fn all_digits(radix: u32, text: &[u8]) -> bool
    requires { (2 ≤ radix) × (radix ≤ 36) }
    ensures { result ≡ list_all (λ c. is_digit c radix) text.now }
{
    text.iter().all(|byte| digit(*byte) < radix)
}

/// The value of a digit, 0 to 35, in either case; 36 for any other byte.
fn digit(byte: u8) -> u32
    ensures { result ≡ digit_value byte }
{
    match byte {
        b'0'..=b'9' => byte as u32 - 48,
        b'A'..=b'Z' => byte as u32 - 55,
        b'a'..=b'z' => byte as u32 - 87,
        _ => 36,
    }
}

/// The number that 1 to 16 digits of a radix up to 16 spell.
pub fn spelled(radix: u32, digits: &[u8]) -> u64
    requires radix { (2 ≤ radix) × (radix ≤ 16) }
    requires digits { are_digits radix 16 digits.now ≡ true }
    ensures { result ≡ digits_value radix digits.now }
{
    let mut number = 0;
    for byte in digits {
        number = number * radix as u64 + digit(*byte) as u64;
    }
    number
}
