//! A file of a run that is to be hashed, and one that was. Their types say that they are of their own run: so nothing is compared
//! when a digest is put.
ghost use Rattle.std.specs.Prelude.{◌≡◌, ◌<◌, ◌↔◌, IfSome, IsSome, Some, length, slice_get};
ghost use Rattle.ipa_layout.specs.Files.{bytes_of_files};
ghost use Rattle.rim_report.specs.inside.Slots.{IsDigestOf};

use super::FileDigest;
use super::files_of_run::FilesOfRun;
use sha2::{Digest, Sha256};
use std::marker::PhantomData;

/// A file of a run that is to be hashed, by its number.
#[derive(Drop)]
pub struct FileTask<'a, L: FilesOfRun> {
    pub number: usize,
    pub bytes: &'a [u8],
    run: PhantomData<L>,
    pub ghost own: { slice_get L.files number ≡ Some bytes.now },
}

/// The digest of a file of a run, by the file's number.
#[derive(Drop)]
pub struct HashedFile<L: FilesOfRun> {
    pub number: usize,
    pub digest: FileDigest,
    run: PhantomData<L>,
    pub ghost own: { IsDigestOf L.files number digest },
}

impl<'a, L: FilesOfRun> FileTask<'a, L> {
    /// The file of a number, if one of the run's files, which are these, has it.
    pub fn new(files: &'a [Vec<u8>], number: usize) -> Option<FileTask<'a, L>>
        requires { bytes_of_files files.now ≡ L.files }
        ensures there { IsSome result ↔ (number < length files.now) }
        ensures number { IfSome result (λ task. task.number ≡ number) }
    {
        let file = files.get(number)?;
        Some(FileTask {
            number,
            bytes: file.as_slice(),
            run: PhantomData,
        })
    }

    /// Hashes all bytes of the file (SHA-256, FIPS 180-4).
    pub fn hash(self) -> HashedFile<L>
        ensures { result.number ≡ self.entry.number }
    {
        HashedFile {
            number: self.number,
            digest: Sha256::digest(self.bytes),
            run: PhantomData,
        }
    }
}
