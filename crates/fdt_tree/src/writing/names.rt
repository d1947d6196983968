//! The names that are written: each once, and its offset in the strings block.

ghost use Rattle.std.specs.Prelude.{◌≡◌, ◌++◌, ◌∷◌, ℕ, List, [], length, take, drop, Some, None, IfSome, IfOk, IfErr, OnOk};
ghost use Rattle.fdt_tree.specs.Writing.{noted, strings_text, offset_in};
ghost use Rattle.fdt_tree.specs.NodeViews.{name_of};
ghost use Rattle.fdt_tree.specs.inside.NameTables.{HasNames, TooMuch, place_in};

use crate::node::{Name, range_of};
use fdt_header::{FdtFault, SIZE_LIMIT};
use std::alloc::{AllocError, Global};
use std::collections::BTreeMap;

/// The length of a range of the tree's strings, and the offset of its name in the output.
#[derive(Clone, Copy)]
pub struct KnownRange {
    pub len: usize,
    pub offset: u32,
}

/// The strings block so far (each name followed by a zero byte), and the offset of each name in it.
///
/// Many properties may share a range of the tree's strings as their name, and the range may be long. So
/// `ranges` caches, for the start of each range already looked up, the offset of its name in the output.
#[derive(Drop)]
pub struct NameTable {
    pub strings: Vec<u8>,
    pub offsets: BTreeMap<Vec<u8>, u32>,
    pub ranges: BTreeMap<usize, KnownRange>,
}

impl NameTable {
    pub fn new(alloc: Global) -> NameTable
        ensures { (source : List ℕ) → HasNames source result [] }
    {
        NameTable {
            strings: Vec::new(alloc),
            offsets: BTreeMap::new(alloc),
            ranges: BTreeMap::new(alloc),
        }
    }

    /// Adds a new name, and returns its offset.
    fn add(&mut self, alloc: Global, name: &[u8]) -> Result<u32, FdtFault>
        ensures offset { (source : List ℕ) (names : List (List ℕ)) → HasNames source self.old names
            → IfOk result (λ at. at ≡ length (strings_text names)) }
        ensures after { (source : List ℕ) (names : List (List ℕ)) → HasNames source self.old names
            → place_in names name.now ≡ None
            → OnOk result (HasNames source self.new (names ++ name.now ∷ [])) }
        ensures refused { (source : List ℕ) (names : List (List ℕ)) → HasNames source self.old names
            → IfErr result (λ e. TooMuch e (length (strings_text (names ++ name.now ∷ [])))) }
    {
        let at = self.strings.len();
        if SIZE_LIMIT.saturating_sub(at) <= name.len() {
            return Err(FdtFault::TooLarge);
        }
        let offset = at as u32;
        self.offsets.insert(Vec::from_slice(alloc, name)?, offset)?;
        self.strings.extend_from_slice(name)?;
        self.strings.push(0)?;
        Ok(offset)
    }

    /// The offset of the name of these bytes, which is added if it is new.
    fn offset_of_bytes(&mut self, alloc: Global, name: &[u8]) -> Result<u32, FdtFault>
        ensures offset { (source : List ℕ) (names : List (List ℕ)) → HasNames source self.old names
            → IfOk result (λ at. at ≡ offset_in (noted names name.now) name.now) }
        ensures after { (source : List ℕ) (names : List (List ℕ)) → HasNames source self.old names
            → OnOk result (HasNames source self.new (noted names name.now)) }
        ensures refused { (source : List ℕ) (names : List (List ℕ)) → HasNames source self.old names
            → IfErr result (λ e. TooMuch e (length (strings_text (noted names name.now)))) }
    {
        let known = self.offsets.get(name).copied();
        match known {
            Some(offset) => Ok(offset),
            None => self.add(alloc, name),
        }
    }

    /// The offset of the name of a range, if the range was looked up before.
    fn offset_known(&self, start: usize, len: usize) -> Option<u32>
        ensures { (source : List ℕ) (names : List (List ℕ)) → HasNames source self.now names
            → IfSome result (λ at. place_in names (take len (drop start source)) ≡ Some at) }
    {
        match self.ranges.get(&start).copied() {
            Some(range) if range.len == len => Some(range.offset),
            _ => None,
        }
    }

    /// Caches the offset of the name of a range.
    fn keep(&mut self, start: usize, len: usize, offset: u32) -> Result<(), AllocError>
        ensures { (source : List ℕ) (names : List (List ℕ)) → HasNames source self.old names
            → place_in names (take len (drop start source)) ≡ Some offset
            → OnOk result (HasNames source self.new names) }
    {
        self.ranges.insert(start, KnownRange { len, offset })?;
        Ok(())
    }

    /// The offset of the name of a range of the tree's strings, which is added if it is new.
    fn offset_of_range(
        &mut self,
        alloc: Global,
        source: &[u8],
        start: usize,
        len: usize,
    ) -> Result<u32, FdtFault>
        ensures offset { (names : List (List ℕ)) → HasNames source.now self.old names
            → IfOk result (λ at. at
            ≡ offset_in (noted names (take len (drop start source.now)))
            (take len (drop start source.now))) }
        ensures after { (names : List (List ℕ)) → HasNames source.now self.old names
            → OnOk result
            (HasNames source.now self.new (noted names (take len (drop start source.now)))) }
        ensures refused { (names : List (List ℕ)) → HasNames source.now self.old names
            → IfErr result (λ e. TooMuch e
            (length (strings_text (noted names (take len (drop start source.now)))))) }
    {
        if let Some(offset) = self.offset_known(start, len) {
            return Ok(offset);
        }
        let offset = self.offset_of_bytes(alloc, range_of(source, start, len))?;
        self.keep(start, len, offset)?;
        Ok(offset)
    }

    /// The offset of a name, given the strings of its tree. The name is added if it is new.
    pub fn offset_of(&mut self, alloc: Global, source: &[u8], name: &Name) -> Result<u32, FdtFault>
        ensures offset { (names : List (List ℕ)) → HasNames source.now self.old names
            → IfOk result (λ at. at
            ≡ offset_in (noted names (name_of source.now name.now))
            (name_of source.now name.now)) }
        ensures after { (names : List (List ℕ)) → HasNames source.now self.old names
            → OnOk result
            (HasNames source.now self.new (noted names (name_of source.now name.now))) }
        ensures refused { (names : List (List ℕ)) → HasNames source.now self.old names
            → IfErr result (λ e. TooMuch e
            (length (strings_text (noted names (name_of source.now name.now))))) }
    {
        match name {
            Name::Shared { start, len } => self.offset_of_range(alloc, source, *start, *len),
            Name::Own(bytes) => self.offset_of_bytes(alloc, bytes),
        }
    }
}
