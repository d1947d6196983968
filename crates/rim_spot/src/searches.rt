//! What is looked for in a manifest, and where it was found.
use crate::spot::Spot;
use refusal::NoMemory;
use rim_manifest::Place;
use rim_rules::form::Rule;
use std::alloc::Global;
use std::collections::BTreeMap;

/// What is looked for in a table of a manifest.
#[derive(Clone, Copy)]
pub enum Sought {
    /// The table itself: its header, or its brace.
    Table,
    /// A key. Where it is not given, the table.
    Key(&'static str),
    /// The first key that none of these rules has.
    OtherKey(&'static [Rule]),
    /// The member of this number of the array at a key. Where it is not there, the key.
    Member { key: &'static str, number: usize },
}

/// Something that is looked for, and the nearest place to it that was found so far.
#[derive(Clone, Copy)]
struct Search {
    /// Its number among all that is looked for.
    number: usize,
    sought: Sought,
    spot: Option<Spot>,
    /// Whether that is the place of what is looked for, and not of the table or the list that it should be in.
    is_found: bool,
}

impl Search {
    /// Notes where its table begins.
    fn note_table(&mut self, spot: Spot) {
        if self.spot.is_none() {
            self.spot = Some(spot);
        }
    }

    /// Notes where a key of its table is.
    fn note_key(&mut self, key: &str, spot: Spot) {
        if self.is_found {
            return;
        }
        match self.sought {
            Sought::Table => {}
            Sought::Key(sought) => self.find_where(sought == key, spot),
            Sought::OtherKey(rules) => {
                self.find_where(!rules.iter().any(|rule| rule.0 == key), spot);
            }
            Sought::Member { key: sought, .. } => {
                if sought == key {
                    self.spot = Some(spot);
                }
            }
        }
    }

    /// Notes where a member of the array at a key is.
    fn note_member(&mut self, array: &str, at: usize, spot: Spot) {
        if let Sought::Member { key, number } = self.sought {
            self.find_where(key == array && number == at && !self.is_found, spot);
        }
    }

    /// Takes a place where it is the one that is looked for.
    fn find_where(&mut self, is_it: bool, spot: Spot) {
        if is_it {
            self.spot = Some(spot);
            self.is_found = true;
        }
    }
}

/// A table, in an order of all tables.
#[derive(Clone, Copy, Debug, PartialEq, Eq, PartialOrd, Ord)]
struct TableKey {
    array: u8,
    outer: usize,
    inner: usize,
}

/// What is looked for, by its table.
#[derive(Drop)]
pub(crate) struct Searches {
    by_table: BTreeMap<TableKey, Vec<Search>>,
}

impl Searches {
    /// These are looked for, and none was found.
    pub(crate) fn new(alloc: Global, sought: &[(Place, Sought)]) -> Result<Searches, NoMemory> {
        let mut searches = Searches {
            by_table: BTreeMap::new(alloc),
        };
        for (number, (place, sought)) in sought.iter().enumerate() {
            searches.add(alloc, number, *place, *sought)?;
        }
        Ok(searches)
    }

    fn add(
        &mut self,
        alloc: Global,
        number: usize,
        place: Place,
        sought: Sought,
    ) -> Result<(), NoMemory> {
        let search = Search {
            number,
            sought,
            spot: None,
            is_found: false,
        };
        let key = table_key(place);
        if let Some(list) = self.by_table.get_mut(&key) {
            list.push(search)?;
            return Ok(());
        }
        let mut list = Vec::new(alloc);
        list.push(search)?;
        self.by_table.insert(key, list)?;
        Ok(())
    }

    /// What is looked for in a table.
    fn of_table(&mut self, place: Place) -> &mut [Search] {
        match self.by_table.get_mut(&table_key(place)) {
            Some(list) => list.as_mut_slice(),
            None => &mut [],
        }
    }

    /// Whether something is looked for in a table.
    pub(crate) fn is_sought(&self, place: Place) -> bool {
        self.by_table.get(&table_key(place)).is_some()
    }

    /// Notes what begins in a table at a place.
    pub(crate) fn note(&mut self, place: Place, begun: Begun, spot: Spot) {
        for search in self.of_table(place) {
            match begun {
                Begun::Table => search.note_table(spot),
                Begun::Key(key) => search.note_key(key, spot),
                Begun::Member { key, number } => search.note_member(key, number, spot),
            }
        }
    }

    /// Where each was found, in the order in which they were given, which are this many.
    pub(crate) fn spots(&self, alloc: Global, count: usize) -> Result<Vec<Option<Spot>>, NoMemory> {
        let mut spots = vec![in alloc; None; count]?;
        for list in self.by_table.values() {
            for search in list {
                if let Some(spot) = spots.get_mut(search.number) {
                    *spot = search.spot;
                }
            }
        }
        Ok(spots)
    }
}

/// What begins at a place of a text.
#[derive(Clone, Copy)]
pub(crate) enum Begun<'a> {
    Table,
    Key(&'a str),
    /// The member of this number of the array at a key.
    Member { key: &'a str, number: usize },
}

/// The place of a table in that order.
fn table_key(place: Place) -> TableKey {
    let (array, outer, inner) = match place {
        Place::Top => (0, 0, 0),
        Place::File { file } => (1, file, 0),
        Place::Launch { launch } => (2, launch, 0),
        Place::Item { launch, item } => (3, launch, item),
        Place::Rec { launch, rec } => (4, launch, rec),
    };
    TableKey {
        array,
        outer,
        inner,
    }
}
