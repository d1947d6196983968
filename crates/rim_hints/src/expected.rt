//! What a key may hold, in words.
use rim_desc::{Algo, RecRule};
use rim_rules::form::Form;
use rim_rules::kind::{KINDS, kind_word};
use std::fmt;

/// The words of the hash algorithms.
pub fn algorithm_words() -> [&'static str; 2] {
    [Algo::Sha256.word(), Algo::Sha512.word()]
}

/// The words of the kinds of items.
pub fn kind_words() -> [&'static str; KINDS.len()] {
    KINDS.map(|kind| kind_word(kind))
}

/// The words of the rules for RECs.
pub fn rec_rule_words() -> [&'static str; 2] {
    [RecRule::All.word(), RecRule::Runnable.word()]
}

/// What a key of a form may hold.
#[derive(Clone, Copy)]
pub struct Expected(pub Form);

impl fmt::Display for Expected {
    fn fmt<W: fmt::Write>(&self, f: &mut fmt::Formatter<W>) -> fmt::Result {
        let Expected(form) = *self;
        match form {
            Form::Version => f.write_str("1 or 2"),
            Form::Name => f.write_str("a name of 1 to 64 letters, digits, '.', '_' and '-'"),
            Form::Algorithm => write_words(f, &algorithm_words()),
            Form::Number { low, high } => write!(f, "a whole number from {low} to {high}"),
            Form::Truth => f.write_str("true or false"),
            Form::Digits { count } => write!(f, "a text of {count} hexadecimal digits"),
            Form::Tables { most } => write!(f, "an array of at most {most} tables"),
            Form::PoolBase => f.write_str("a multiple of 0x10000 below 0x1000000000000"),
            Form::Regions { most } => write!(
                f,
                "an array of at most {most} pairs [base, end] with base below end"
            ),
            Form::Word => {
                f.write_str("a whole number or a text 0x and 1 to 16 hexadecimal digits")
            }
            Form::Words { most } => write!(
                f,
                "an array of at most {most} whole numbers or texts \
                 0x and 1 to 16 hexadecimal digits"
            ),
            Form::Text => f.write_str("a text that is not empty"),
            Form::AnyText => f.write_str("the name of a [[file]] table"),
            Form::ItemKind => write_words(f, &kind_words()),
            Form::Bootargs => f.write_str("a text without a zero character"),
            Form::Texts => f.write_str("an array of steps, each a text"),
            Form::RecRule => write_words(f, &rec_rule_words()),
        }
    }
}

/// Writes words, each between double quotes, with `or` before the last.
fn write_words<W: fmt::Write>(f: &mut fmt::Formatter<W>, words: &[&str]) -> fmt::Result {
    let last = words.len().saturating_sub(1);
    for (number, word) in words.iter().enumerate() {
        let link = match number {
            0 => "",
            _ if number == last => " or ",
            _ => ", ",
        };
        write!(f, "{link}\"{word}\"")?;
    }
    Ok(())
}
