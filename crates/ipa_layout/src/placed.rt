//! Where a launch's items are, as the layers above use it.
use crate::rec::PlacedRec;
use rim_desc::Source;
use std::marker::Model;

/// An item that has its place.
#[derive(Clone, Copy, Debug, PartialEq, Eq)]
pub struct PlacedItem {
    /// Where its bytes come from; none where the monitor does not know its content.
    pub source: Option<Source>,
    /// The address of its first byte.
    pub address: u64,
    /// How many bytes after the start of a page that is, below 4096.
    pub lead: u64,
    /// How many pages it has.
    pub pages: u64,
    /// Whether they are measured.
    pub measured: bool,
}

/// A launch that has its place in the realm's address space.
#[derive(Drop)]
pub struct Placed {
    number: usize,
    items: Vec<PlacedItem>,
    recs: Vec<PlacedRec>,
    edited: Option<Vec<u8>>,
}

impl Model for Placed {
    ghost use Rattle.std.specs.Prelude.{option_map};
    ghost use Rattle.ipa_layout.specs.Layout.{PlacedData};

    ghost Value = { PlacedData };

    ghost view = { λ p. record {
      number = p.number;
      items = p.items.items;
      recs = p.recs.items;
      edited = option_map (λ v. v.items) p.edited;
    } };
}

impl Placed {
    ghost use Rattle.std.specs.Prelude.{◌≡◌, option_map};
    ghost use Rattle.ipa_layout.specs.Files.{bytes_of_files};
    ghost use Rattle.ipa_layout.specs.Layout.{bytes_of_source};

    /// These parts.
    pub(crate) fn new(
        number: usize,
        items: Vec<PlacedItem>,
        recs: Vec<PlacedRec>,
        edited: Option<Vec<u8>>,
    ) -> Placed
        ensures { result
            ≡ record {
              number = number;
              items = items.items;
              recs = recs.items;
              edited = option_map (λ v. v.items) edited;
            } }
    {
        Placed {
            number,
            items,
            recs,
            edited,
        }
    }

    /// Its items, in the order of the launch.
    pub fn items(&self) -> &[PlacedItem]
        ensures { result.now ≡ self.now.items }
    {
        self.items.as_slice()
    }

    /// Its RECs with their defaults filled in, in the order of the launch.
    pub fn recs(&self) -> &[PlacedRec]
        ensures { result.now ≡ self.now.recs }
    {
        self.recs.as_slice()
    }

    /// The bytes of the devicetree that was edited before it was placed, if the launch has one.
    pub fn edited(&self) -> Option<&[u8]>
        ensures { option_map (λ b. b.now) result ≡ self.now.edited }
    {
        match &self.edited {
            Some(bytes) => Some(bytes.as_slice()),
            None => None,
        }
    }

    /// The bytes that come from a source: a file of the release, or the devicetree that this launch
    /// changed. A source of another launch has none here.
    pub fn bytes<'a>(&'a self, files: &'a [Vec<u8>], source: Source) -> &'a [u8]
        ensures { result.now ≡ bytes_of_source (bytes_of_files files.now) self.now source }
    {
        match source {
            Source::File(number) => match files.get(number) {
                Some(bytes) => bytes.as_slice(),
                None => &[],
            },
            Source::Edited(launch) if launch == self.number => self.edited().unwrap_or(&[]),
            Source::Edited(_) => &[],
        }
    }
}
