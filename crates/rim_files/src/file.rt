//! Files, opened by their paths and read whole, or saved.
ghost use Rattle.std.specs.Prelude.{◌≡◌, ◌≢◌, ◌≤◌, ℕ, IfErr, IfNone, IfOk, IfSome, List, None, OnErr, OnOk, Option, Some, length, map, option_map, vec_len};
ghost use Rattle.rim_files.specs.Files.{AreRead, IfFile, IsFileFault, IsFirstFault, IsRead, Known, MayFail};
ghost use Rattle.rim_files.specs.declared.file.TheConstants.{FILE_LIMIT};

use crate::fault::Fault;
use rim_accepted::Files;
use rim_manifest::Release;
use std::alloc::Global;
use std::convert::AsSlice;
use std::io;
use std::io::{ErrorKind, Read};

/// The most bytes that a file may have: 256 MiB. This project's choice.
pub const FILE_LIMIT: u64 = 268_435_456;

/// A file that was opened and has not been read. If its bytes are known, reading it fails only if it is too large or memory is refused.
pub trait Opened: Read {
    /// The bytes of a file that was read.
    type Bytes: AsSlice<u8> + Drop;

    /// Returns all bytes of the file, or why they cannot be read.
    fn whole(self, alloc: Global) -> Result<Self::Bytes, Unread>
        ensures limit { IfOk result (λ bytes. length (Self.Bytes.items bytes) ≤ FILE_LIMIT) }
        ensures fault { IfErr result
            (λ u. IsFileFault (option_map Some (Self.remaining self)) u.fault) }
        ensures bytes { IfOk result
            (λ bytes. IfSome (Self.remaining self) (λ held. Self.Bytes.items bytes ≡ held)) };

    /// Returns a copy of these bytes.
    fn copied(self, alloc: Global) -> Result<Vec<u8>, Unread>
        ensures limit { IfOk result (λ bytes. length bytes.items ≤ FILE_LIMIT) }
        ensures fault { IfErr result
            (λ u. IsFileFault (option_map Some (Self.remaining self)) u.fault) }
        ensures bytes { IfOk result
            (λ bytes. IfSome (Self.remaining self) (λ held. bytes.items ≡ held)) };
}

impl<'a> Opened for &'a [u8] {
    type Bytes = &'a [u8];

    fn whole(self, _alloc: Global) -> Result<&'a [u8], Unread> {
        if self.len() as u64 > FILE_LIMIT {
            return Err(Unread::of(Fault::FileTooLarge));
        }
        Ok(self)
    }

    fn copied(self, alloc: Global) -> Result<Vec<u8>, Unread> {
        let bytes = self.whole(alloc)?;
        Vec::from_slice(alloc, bytes).map_err(|_| Unread::of(Fault::NoMemory))
    }
}

/// Opens and saves files by their paths.
pub trait Opener {
    // What is known of a path: that no file can be opened there, or the bytes of the file there, which can be read.
    ghost held: { Self → List ℕ → Known } = { λ _ _. None };

    type Reader: Opened + Send + Drop;

    /// Opens a file for reading. Returns `None` if no file can be opened at the path.
    fn open(&mut self, path: &str) -> Option<Self::Reader>
        ensures bytes { IfSome result (λ reader. IfFile (held self.old path.now)
            (λ bytes. Self.Reader.remaining reader ≡ Some bytes)) }
        ensures none { IfNone result (MayFail (held self.old path.now)) }
        ensures stays { held self.new ≡ held self.old };

    /// Saves these bytes as the whole file at a path, which may exist. No other file changes, and after an error no file at all.
    /// By default, saving fails.
    fn save(&mut self, path: &str, bytes: &[u8]) -> io::Result<()>
        ensures saved { OnOk result (IfFile (held self.new path.now) (λ file. file ≡ bytes.now)) }
        ensures others { (other : List ℕ) → other ≢ path.now
            → held self.new other ≡ held self.old other }
        ensures kept { OnErr result (held self.new ≡ held self.old) }
    {
        Err(io::Error::from(ErrorKind::Unsupported))
    }

    /// Returns the number of bytes of a file that was opened, if the system tells it. Nothing else is known of such a file.
    fn size(reader: &Self::Reader) -> Option<u64>
        ensures { IfSome result (λ _. Self.Reader.remaining reader.now ≡ None) }
    {
        let _ = reader;
        None
    }

    /// Why the last file could not be opened, where that is known. No clause speaks of it.
    fn failure(&self) -> Option<ErrorKind> {
        None
    }
}

/// Why a file is not read: the fault, and what the system says of it, where that is known.
#[derive(Clone, Copy, Debug)]
pub struct Unread {
    pub fault: Fault,
    pub failure: Option<ErrorKind>,
}

impl Unread {
    ghost use Rattle.std.specs.Prelude.{◌≡◌};

    /// A fault of which nothing else is known.
    pub(crate) fn of(fault: Fault) -> Unread
        ensures { result.fault ≡ fault }
    {
        Unread {
            fault,
            failure: None,
        }
    }
}

/// The bytes of each file of a release, in its order.
pub fn read_files<O: Opener>(
    alloc: Global,
    opener: &mut O,
    release: &Release,
) -> Result<Files, Fault>
    ensures count { IfOk result (λ files. vec_len files ≡ length release.now.paths) }
    ensures each { IfOk result (λ files. AreRead (O.held opener.old) release.now.paths
        (map (λ file. file.items) files.items)) }
    ensures fault { IfErr result (IsFirstFault (O.held opener.old) release.now.paths) }
    ensures stays { O.held opener.new ≡ O.held opener.old }
{
    let mut files = Vec::new(alloc);
    for i in 0..release.file_count() {
        let bytes = match copy_file(alloc, opener, release.path(i)) {
            Ok(bytes) => bytes,
            Err(unread) => return Err(unread.fault),
        };
        if files.push(bytes).is_err() {
            return Err(Fault::NoMemory);
        }
    }
    Ok(files)
}

/// Returns the bytes of the file at a path.
pub fn read_file<O: Opener>(
    alloc: Global,
    opener: &mut O,
    path: &str,
) -> Result<<O::Reader as Opened>::Bytes, Fault>
    ensures read { IfOk result
        (λ bytes. IsRead (O.held opener.old path.now) (O.Reader.Bytes.items bytes)) }
    ensures fault { IfErr result (IsFileFault (O.held opener.old path.now)) }
    ensures stays { O.held opener.new ≡ O.held opener.old }
{
    match read_or_why(alloc, opener, path) {
        Ok(bytes) => Ok(bytes),
        Err(unread) => Err(unread.fault),
    }
}

/// Returns the bytes of the file at a path, or what the system says of a file that cannot be read.
pub fn read_or_why<O: Opener>(
    alloc: Global,
    opener: &mut O,
    path: &str,
) -> Result<<O::Reader as Opened>::Bytes, Unread>
    ensures read { IfOk result
        (λ bytes. IsRead (O.held opener.old path.now) (O.Reader.Bytes.items bytes)) }
    ensures fault { IfErr result (λ u. IsFileFault (O.held opener.old path.now) u.fault) }
    ensures stays { O.held opener.new ≡ O.held opener.old }
{
    match opener.open(path) {
        Some(file) => file.whole(alloc),
        None => Err(unopened(opener)),
    }
}

/// Returns a copy of the bytes of the file at a path, or what the system says of a file that cannot be read.
pub fn copy_file<O: Opener>(alloc: Global, opener: &mut O, path: &str) -> Result<Vec<u8>, Unread>
    ensures read { IfOk result (λ bytes. IsRead (O.held opener.old path.now) bytes.items) }
    ensures fault { IfErr result (λ u. IsFileFault (O.held opener.old path.now) u.fault) }
    ensures stays { O.held opener.new ≡ O.held opener.old }
{
    match opener.open(path) {
        Some(file) => file.copied(alloc),
        None => Err(unopened(opener)),
    }
}

/// Returns why the last file was not opened.
fn unopened<O: Opener>(opener: &O) -> Unread
    ensures { result.fault ≡ Fault.FileUnreadable }
{
    Unread {
        fault: Fault::FileUnreadable,
        failure: opener.failure(),
    }
}
