//! The known word that is nearest to another one.
use crate::alike::is_alike;
use std::alloc::{AllocError, Global};
use std::fmt;
use strsim::levenshtein;

/// How many letters a word may differ by from the nearest one, and one more. It differs in fewer letters than either has.
const FAR: usize = 3;

/// The longest word that is compared, in bytes.
const LONGEST: usize = 64;

/// The nearest of some known words to a word, as far as they were added. Printed, it is ` (nearest: WORD)`, or nothing where
/// none is near.
#[derive(Clone, Copy)]
pub struct Nearest<'a, 'k> {
    word: &'a str,
    found: Option<&'k str>,
    distance: usize,
}

impl<'a, 'k> Nearest<'a, 'k> {
    /// No known word yet.
    pub fn new(word: &'a str) -> Nearest<'a, 'k> {
        Nearest {
            word,
            found: None,
            distance: FAR,
        }
    }

    /// The nearest one so far, if one is near.
    pub fn found(&self) -> Option<&'k str> {
        self.found
    }

    /// Takes a known word as the one that is meant.
    pub fn take(&mut self, known: &'k str) {
        self.distance = 0;
        self.found = Some(known);
    }

    /// Adds a known word. One that differs by case, `-` and `_` alone is as near as can be.
    pub fn add(&mut self, alloc: Global, known: &'k str) -> Result<(), AllocError> {
        if self.word.len() > LONGEST || known.len() > LONGEST {
            return Ok(());
        }
        if self.distance > 0 && is_alike(self.word, known) {
            self.take(known);
        }
        let distance = levenshtein(alloc, self.word, known)?;
        if distance < self.distance && distance < self.word.len() && distance < known.len() {
            self.distance = distance;
            self.found = Some(known);
        }
        Ok(())
    }
}

impl fmt::Display for Nearest<'_, '_> {
    fn fmt<W: fmt::Write>(&self, f: &mut fmt::Formatter<W>) -> fmt::Result {
        match self.found {
            Some(found) => write!(f, " (nearest: {found})"),
            None => Ok(()),
        }
    }
}
