//! The digests of pages of a release's files that an audit knows, since launches share files.
ghost use Rattle.std.specs.Prelude.{◌≡◌, ℕ, List, IfSome};
ghost use Rattle.std.specs.List.{All};
ghost use Rattle.ipa_layout.specs.Files.{bytes_of_files};
ghost use Rattle.rim_audit.specs.inside.Known.{IsKnownOf, page_digest};

use rim_desc::{Algo, GRANULE_SIZE, Measurement};
use std::alloc::Global;
use std::marker::Model;

/// How a file is read into pages: by which algorithm they are hashed, and how many bytes after the start of a page it begins.
#[derive(Clone, Copy, PartialEq, Eq)]
pub struct FileKey {
    pub algo: Algo,
    pub file: usize,
    pub lead: u64,
}

/// The digests of the first pages of a file.
#[derive(Drop)]
pub struct FileDigests {
    pub key: FileKey,
    pub digests: Vec<Measurement>,
}

/// Digests of pages of a release's files. Each is that of its own page, by its type.
#[derive(Drop)]
pub struct KnownPages<'a> {
    files: &'a [Vec<u8>],
    known: Vec<FileDigests>,
    /// Of how many more pages there may be digests.
    room: usize,
    alloc: Global,
}

impl<'a> Model for KnownPages<'a> {
    ghost use Rattle.std.specs.Prelude.{ℕ, List};
    ghost use Rattle.std.specs.List.{All};
    ghost use Rattle.ipa_layout.specs.Files.{bytes_of_files};
    ghost use Rattle.rim_audit.specs.inside.Known.{IsKnownOf};

    ghost Value = { List (List ℕ) };

    ghost view = { λ k. bytes_of_files k.files.now };

    ghost invariant = { λ k. All (IsKnownOf (bytes_of_files k.files.now)) k.known.items };
}

/// Digests are kept of no more files than this, each counted once for an algorithm and a lead. So a file is found at once. This
/// project's choice.
const MOST_FILES: usize = 256;

/// Digests are kept of this many pages, and of one more for each 2,048 bytes of files: the pages of all files by both algorithms,
/// in a thirty-second of the memory that these have. This project's choice.
const LEAST_ROOM: usize = 32_768;

impl<'a> KnownPages<'a> {
    /// No digest is known yet. They are kept of this many pages at most.
    pub fn new(alloc: Global, files: &'a [Vec<u8>], room: usize) -> KnownPages<'a>
        ensures { result ≡ bytes_of_files files.now }
    {
        KnownPages {
            files,
            known: Vec::new(alloc),
            room,
            alloc,
        }
    }

    /// The number under which a file's digests are kept; it is given one where there is memory for the digests of all its pages.
    pub fn number(&mut self, key: FileKey) -> Option<usize>
        ensures { self.new ≡ self.old }
    {
        match place_of(&self.known, key) {
            Some(number) => Some(number),
            None => self.add(key),
        }
    }

    /// Adds a file of whose pages none is known, where there is room for all.
    fn add(&mut self, key: FileKey) -> Option<usize>
        ensures { self.new ≡ self.old }
    {
        let pages = page_count(self.files, key);
        if self.known.len() >= MOST_FILES || pages > self.room {
            return None;
        }
        let Ok(digests) = Vec::with_capacity(self.alloc, pages) else {
            return None;
        };
        let number = self.known.len();
        let Ok(()) = self.known.push(FileDigests { key, digests }) else {
            return None;
        };
        self.room -= pages;
        Some(number)
    }

    /// The digest of a page of a file, where it is known and kept under this number.
    pub fn digest(&self, number: usize, key: FileKey, page: u64) -> Option<Measurement>
        ensures { IfSome result (λ m. m.bytes ≡ page_digest self.now key page) }
    {
        let of_file = self.known.get(number)?;
        if of_file.key != key {
            return None;
        }
        of_file.digests.get(page as usize).copied()
    }

    /// Keeps the digest of a page of a file under this number, where it is that of the first page that is not known.
    pub fn keep(&mut self, number: usize, key: FileKey, page: u64, digest: Measurement)
        requires { digest.bytes ≡ page_digest self.old key page }
        ensures { self.new ≡ self.old }
    {
        if let Some(of_file) = self.known.get_mut(number) {
            push_next(of_file, key, page, digest);
        }
    }
}

/// Adds a digest to those of a file, where it is the next and has room.
fn push_next(of_file: &mut FileDigests, key: FileKey, page: u64, digest: Measurement)
    ensures { (files : List (List ℕ)) → digest.bytes ≡ page_digest files key page
        → IsKnownOf files of_file.old → IsKnownOf files of_file.new }
{
    let FileDigests { key: own, digests } = of_file;
    if *own == key && digests.len() as u64 == page && digests.len() < digests.capacity() {
        let _ = digests.push(digest);
    }
}

/// Where a file's digests are.
fn place_of(known: &[FileDigests], key: FileKey) -> Option<usize> {
    known.iter().position(|of_file| of_file.key == key)
}

/// How many pages have a byte of a file.
fn page_count(files: &[Vec<u8>], key: FileKey) -> usize {
    let size = match files.get(key.file) {
        Some(bytes) => bytes.len() as u64,
        None => 0,
    };
    key.lead.saturating_add(size).div_ceil(GRANULE_SIZE) as usize
}

/// Of how many pages of these files an audit keeps digests.
pub fn room_for(files: &[Vec<u8>]) -> usize {
    let mut room = LEAST_ROOM;
    for file in files {
        room = room.saturating_add(file.len() / 2_048);
    }
    room
}
