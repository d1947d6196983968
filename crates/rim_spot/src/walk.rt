//! A walk through the text of a document, from one key or value to the next.
use crate::searches::{Begun, Searches, Sought};
use crate::spot::{Spot, without_mark};
use crate::tables::{Tables, array_at, list_key};
use refusal::NoMemory;
use rim_manifest::{Array, Place};
use std::alloc::Global;
use toml_parser::text::{skip_blank, skip_ws};
use toml_parser::{Key, ParseError, dotted_key, quoted, starts_string, unquoted};

/// Where each of these is in the text of a document; none where neither it nor its table is there.
pub fn find_spots(
    alloc: Global,
    text: &[u8],
    sought: &[(Place, Sought)],
) -> Result<Vec<Option<Spot>>, NoMemory> {
    let mut searches = Searches::new(alloc, sought)?;
    if let Ok(text) = std::str::from_utf8(without_mark(text)) {
        let mut walk = Walk::new(alloc, text, &mut searches);
        walk.note(Some(Place::Top), Begun::Table);
        // A turn that goes on has passed a byte or more.
        for _ in 0..=text.len() {
            if !walk.turn()? {
                break;
            }
        }
    }
    searches.spots(alloc, sought.len())
}

/// What an array is.
#[derive(Clone, Copy)]
struct List {
    /// The table and the key that have it, if the format has an array there.
    at: Option<(Place, &'static str)>,
    /// The tables that its members are, if they are tables of the format.
    tables: Option<Array>,
}

/// An array that the format does not have.
const OTHER_LIST: List = List {
    at: None,
    tables: None,
};

/// An array or an inline table that has begun and not ended.
#[derive(Clone, Copy)]
enum Open {
    /// A table, and its place, if it is one of the format.
    Table(Option<Place>),
    /// An array, and the number of its next member.
    Array(List, usize),
}

#[derive(Drop)]
struct Walk<'a, 'b> {
    alloc: Global,
    /// What follows the last place that was noted, and where that is.
    noted: &'a str,
    spot: Spot,
    rest: &'a str,
    tables: Tables,
    /// The table of the last header, if it is one of the format.
    place: Option<Place>,
    open: Vec<Open>,
    searches: &'b mut Searches,
}

impl<'a, 'b> Walk<'a, 'b> {
    fn new(alloc: Global, text: &'a str, searches: &'b mut Searches) -> Walk<'a, 'b> {
        Walk {
            alloc,
            noted: text,
            spot: Spot::first(),
            rest: text,
            tables: Tables::new(),
            place: Some(Place::Top),
            open: Vec::new(alloc),
            searches,
        }
    }

    /// Notes what begins here in a table, if something is looked for there.
    fn note(&mut self, place: Option<Place>, begun: Begun) {
        let Some(place) = place else {
            return;
        };
        if !self.searches.is_sought(place) {
            return;
        }
        let passed = self.noted.len().saturating_sub(self.rest.len());
        self.spot = self
            .spot
            .after(self.noted.as_bytes().get(..passed).unwrap_or(&[]));
        self.noted = self.rest;
        self.searches.note(place, begun, self.spot);
    }

    /// Goes on past the next header, pair, value or sign, if there is one.
    fn turn(&mut self) -> Result<bool, NoMemory> {
        self.rest = skip_blank(self.rest, true);
        match self.open.last().copied() {
            None => self.line(),
            Some(Open::Table(place)) => self.member_of_table(place),
            Some(Open::Array(list, number)) => self.member_of_array(list, number),
        }
    }

    /// A header or a pair outside of brackets and braces.
    fn line(&mut self) -> Result<bool, NoMemory> {
        if self.rest.is_empty() {
            return Ok(false);
        }
        if let Some(rest) = self.rest.strip_prefix("[[") {
            return self.header(rest, "]]");
        }
        if let Some(rest) = self.rest.strip_prefix('[') {
            return self.header(rest, "]");
        }
        self.pair(self.place)
    }

    /// The header of a table, from its first key on.
    fn header(&mut self, inner: &'a str, end: &str) -> Result<bool, NoMemory> {
        let (key, rest) = match dotted_key(self.alloc, skip_ws(inner)) {
            Ok(found) => found,
            Err(error) => return stop(error),
        };
        let Some(rest) = rest.strip_prefix(end) else {
            return Ok(false);
        };
        self.begin_table(&key, end.len() > 1);
        self.rest = rest;
        Ok(true)
    }

    /// Begins the table of a header.
    fn begin_table(&mut self, key: &Key, is_member: bool) {
        let mut place = Some(Place::Top);
        for part in &key.path {
            place = match self.array_in(place, part.as_str()) {
                Some(array) => self.tables.last(array),
                None => None,
            };
        }
        let array = self.array_in(place, key.last.as_str());
        self.place = match array {
            Some(array) if is_member => Some(self.tables.begin(array)),
            _ => None,
        };
        self.note(self.place, Begun::Table);
    }

    /// Notes a key of a table. It has this array of tables, if the format has one there.
    fn array_in(&mut self, place: Option<Place>, key: &str) -> Option<Array> {
        self.note(place, Begun::Key(key));
        array_at(place?, key)
    }

    /// A key and the beginning of its value.
    fn pair(&mut self, place: Option<Place>) -> Result<bool, NoMemory> {
        let (key, rest) = match dotted_key(self.alloc, self.rest) {
            Ok(found) => found,
            Err(error) => return stop(error),
        };
        let Some(rest) = rest.strip_prefix('=') else {
            return Ok(false);
        };
        let list = self.note_pair(place, &key);
        self.rest = skip_ws(rest);
        self.value(None, list)
    }

    /// Notes the key of a pair. Its value is this list, where it is an array.
    fn note_pair(&mut self, place: Option<Place>, key: &Key) -> List {
        if let Some(first) = key.path.first() {
            self.note(place, Begun::Key(first.as_str()));
            return OTHER_LIST;
        }
        let last = key.last.as_str();
        let tables = self.array_in(place, last);
        let at = match (place, list_key(last)) {
            (Some(place), Some(key)) => Some((place, key)),
            _ => None,
        };
        List { at, tables }
    }

    /// A member of an inline table, or what is between two, or its end.
    fn member_of_table(&mut self, place: Option<Place>) -> Result<bool, NoMemory> {
        if let Some(rest) = self.rest.strip_prefix('}') {
            return Ok(self.close(rest));
        }
        if let Some(rest) = self.rest.strip_prefix(',') {
            self.rest = rest;
            return Ok(true);
        }
        self.pair(place)
    }

    /// A member of an array, or what is between two, or its end.
    fn member_of_array(&mut self, list: List, number: usize) -> Result<bool, NoMemory> {
        if let Some(rest) = self.rest.strip_prefix(']') {
            return Ok(self.close(rest));
        }
        if let Some(rest) = self.rest.strip_prefix(',') {
            self.rest = rest;
            return Ok(true);
        }
        self.open.pop();
        self.open.push(Open::Array(list, number.saturating_add(1)))?;
        if let Some((place, key)) = list.at {
            self.note(Some(place), Begun::Member { key, number });
        }
        let table = match list.tables {
            Some(array) => Some(array.at(number)),
            None => None,
        };
        self.value(table, OTHER_LIST)
    }

    fn close(&mut self, rest: &'a str) -> bool {
        self.open.pop();
        self.rest = rest;
        true
    }

    /// A value that is no array and no table; or the beginning of one: of this list, or of the table at this place.
    fn value(&mut self, place: Option<Place>, list: List) -> Result<bool, NoMemory> {
        if let Some(rest) = self.rest.strip_prefix('[') {
            self.open.push(Open::Array(list, 0))?;
            self.rest = rest;
            return Ok(true);
        }
        if let Some(rest) = self.rest.strip_prefix('{') {
            self.note(place, Begun::Table);
            self.open.push(Open::Table(place))?;
            self.rest = rest;
            return Ok(true);
        }
        match scalar(self.alloc, self.rest) {
            Ok(rest) => {
                self.rest = rest;
                Ok(true)
            }
            Err(error) => stop(error),
        }
    }
}

/// What follows a value that is no array and no table.
fn scalar(alloc: Global, text: &str) -> Result<&str, ParseError> {
    if starts_string(text) {
        let (_, rest) = quoted(alloc, text)?;
        return Ok(rest);
    }
    let (_, rest) = unquoted(alloc, text)?;
    Ok(rest)
}

/// Ends a walk where the text is no document, as it is found to be nowhere else.
fn stop(error: ParseError) -> Result<bool, NoMemory> {
    match error {
        ParseError::OutOfMemory => Err(NoMemory),
        ParseError::At(..) => Ok(false),
    }
}
