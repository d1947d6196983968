//! What lies under a board's lock: a slot for the digest of each file, and which files are left to be taken.
ghost use Rattle.std.specs.Prelude.{◌≡◌, ◌<◌, ◌≤◌, [], List, ℕ, IfOk, None, Some, length, map, replicate, slice_set, vec_capacity};
ghost use Rattle.sha2.specs.Sha256.{sha256};
ghost use Rattle.ipa_layout.specs.Files.{bytes_of_files};
ghost use Rattle.rim_report.specs.inside.Slots.{AreSlotsOf, IsDigestOf};

use super::FileDigest;
use super::files_of_run::FilesOfRun;
use super::order::smallest_first;
use super::task::{FileTask, HashedFile};
use refusal::NoMemory;
use sha2::{Digest, Sha256};
use std::alloc::Global;
use std::marker::{Model, PhantomData};

/// The files of a run, a slot for the digest of each, and the numbers of the files that are left to be taken. Its type says that a slot
/// that is filled has the digest of its own file, and that there is room for all digests.
#[derive(Drop)]
pub struct FileSlots<'a, L: FilesOfRun> {
    files: &'a [Vec<u8>],
    slots: Vec<Option<FileDigest>>,
    /// The last one is taken next.
    left: Vec<usize>,
    /// Room for the digests of all files. It is empty.
    digests: Vec<FileDigest>,
    run: PhantomData<L>,
}

impl<'a, L: FilesOfRun> Model for FileSlots<'a, L> {
    ghost use Rattle.std.specs.Prelude.{◌≡◌, ◌≤◌, [], List, ℕ, Option, length, vec_capacity};
    ghost use Rattle.ipa_layout.specs.Files.{bytes_of_files};
    ghost use Rattle.rim_report.specs.inside.Slots.{AreSlotsOf};

    ghost Value = { List (Option (List ℕ)) };

    ghost view = { λ s. s.slots.items };

    ghost invariant = { λ s. (bytes_of_files s.files.now ≡ L.files)
        × AreSlotsOf L.files s.slots.items
        × (s.digests.items ≡ [])
        × (length s.files.now ≤ vec_capacity s.digests) };
}

impl<'a, L: FilesOfRun> FileSlots<'a, L> {
    /// Slots that are all empty, and all files are left. It takes all memory that its calls need.
    pub fn new(alloc: Global, files: &'a [Vec<u8>]) -> Result<FileSlots<'a, L>, NoMemory>
        requires { bytes_of_files files.now ≡ L.files }
        ensures { IfOk result (λ slots. slots ≡ replicate (length files.now) None) }
    {
        let left = smallest_first(alloc, files)?;
        let slots = vec![in alloc; None; files.len()]?;
        let digests = Vec::with_capacity(alloc, files.len())?;
        Ok(FileSlots {
            files,
            slots,
            left,
            digests,
            run: PhantomData,
        })
    }

    /// Takes the largest of the files that are left, so that what takes longest is begun first.
    pub fn take(&mut self) -> Option<FileTask<'a, L>>
        ensures { self.new ≡ self.old }
    {
        let number = self.left.pop()?;
        FileTask::new(self.files, number)
    }

    /// Puts a digest into the slot of its file.
    pub fn put(&mut self, hashed: HashedFile<L>)
        ensures { self.new ≡ slice_set self.old hashed.number (Some hashed.digest) }
    {
        self.slots[hashed.number] = Some(hashed.digest);
    }

    /// The digest of each file, in the files' order. A file whose slot is empty is hashed now. It takes no memory.
    pub fn into_digests(self) -> Vec<FileDigest>
        ensures { result.items ≡ map sha256 L.files }
    {
        let FileSlots {
            files,
            slots,
            digests,
            ..
        } = self;
        all_digests(files, &slots, digests)
    }
}

/// The digest of each file, in the files' order, made now.
pub fn digests_alone(alloc: Global, files: &[Vec<u8>]) -> Result<Vec<FileDigest>, NoMemory>
    ensures { IfOk result
        (λ digests. digests.items ≡ map sha256 (bytes_of_files files.now)) }
{
    let slots = vec![in alloc; None; files.len()]?;
    let digests = Vec::with_capacity(alloc, files.len())?;
    Ok(all_digests(files, &slots, digests))
}

/// Pushes the digest of each file: the one in its slot, or where that is empty, one that is made now.
fn all_digests(
    files: &[Vec<u8>],
    slots: &[Option<FileDigest>],
    digests: Vec<FileDigest>,
) -> Vec<FileDigest>
    requires own { AreSlotsOf (bytes_of_files files.now) slots.now }
    requires empty { digests.items ≡ [] }
    requires room { length files.now ≤ vec_capacity digests }
    ensures { result.items ≡ map sha256 (bytes_of_files files.now) }
{
    let mut digests = digests;
    for number in 0..files.len() {
        digests.push_reserved(digest_at(files, slots, number));
    }
    digests
}

/// The digest in a slot, or where that is empty the one of the slot's file, which is made now.
fn digest_at(files: &[Vec<u8>], slots: &[Option<FileDigest>], number: usize) -> FileDigest
    requires own { AreSlotsOf (bytes_of_files files.now) slots.now }
    requires number { number < length files.now }
    ensures { IsDigestOf (bytes_of_files files.now) number result }
{
    match slots[number] {
        Some(digest) => digest,
        None => Sha256::digest(files[number].as_slice()),
    }
}
