//! The arrays of tables of a manifest, and how many tables of each have begun by their headers.
use rim_manifest::{Array, Place};

/// How many tables of each array have begun: of the last launch, where they are in one.
#[derive(Clone, Copy)]
pub(crate) struct Tables {
    files: usize,
    launches: usize,
    items: usize,
    recs: usize,
}

impl Tables {
    /// None has begun.
    pub(crate) fn new() -> Tables {
        Tables {
            files: 0,
            launches: 0,
            items: 0,
            recs: 0,
        }
    }

    /// Begins one more table of an array.
    pub(crate) fn begin(&mut self, array: Array) -> Place {
        let count = self.count(array);
        let number = *count;
        *count = number.saturating_add(1);
        if matches!(array, Array::Launches) {
            self.items = 0;
            self.recs = 0;
        }
        array.at(number)
    }

    /// The table of an array that began last, if there is one.
    pub(crate) fn last(&mut self, array: Array) -> Option<Place> {
        let number = self.count(array).checked_sub(1)?;
        Some(array.at(number))
    }

    fn count(&mut self, array: Array) -> &mut usize {
        match array {
            Array::Files => &mut self.files,
            Array::Launches => &mut self.launches,
            Array::Items { .. } => &mut self.items,
            Array::Recs { .. } => &mut self.recs,
        }
    }
}

/// The keys at which the format has an array.
const LISTS: [&str; 7] = ["file", "launch", "item", "rec", "ram", "steps", "x"];

/// A key at which the format has an array, if this is one.
pub(crate) fn list_key(key: &str) -> Option<&'static str> {
    LISTS.iter().find(|list| **list == key).copied()
}

/// The array of tables at a key of a table, if the format has one there.
pub(crate) fn array_at(place: Place, key: &str) -> Option<Array> {
    match (place, key) {
        (Place::Top, "file") => Some(Array::Files),
        (Place::Top, "launch") => Some(Array::Launches),
        (Place::Launch { launch }, "item") => Some(Array::Items { launch }),
        (Place::Launch { launch }, "rec") => Some(Array::Recs { launch }),
        _ => None,
    }
}
