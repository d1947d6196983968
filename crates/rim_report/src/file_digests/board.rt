//! The board of a run's files: their slots under a lock, for workers in threads of their own.
ghost use Rattle.std.specs.Prelude.{◌≡◌, map};
ghost use Rattle.sha2.specs.Sha256.{sha256};
ghost use Rattle.ipa_layout.specs.Files.{bytes_of_files};

use super::FileDigest;
use super::files_of_run::FilesOfRun;
use super::slots::FileSlots;
use super::task::{FileTask, HashedFile};
use refusal::NoMemory;
use std::alloc::Global;
use std::sync::{Mutex, Wait};

/// The slots of a run's files under their lock.
#[derive(Drop)]
pub struct FileBoard<'a, L: FilesOfRun> {
    slots: Mutex<FileSlots<'a, L>>,
}

impl<'a, L: FilesOfRun> FileBoard<'a, L> {
    /// A board whose slots are all empty. It takes all memory that its calls need.
    pub fn new(alloc: Global, files: &'a [Vec<u8>]) -> Result<FileBoard<'a, L>, NoMemory>
        requires { bytes_of_files files.now ≡ L.files }
    {
        let slots = FileSlots::new(alloc, files)?;
        Ok(FileBoard {
            slots: Mutex::new(slots),
        })
    }

    /// Takes files, hashes each with no lock held and puts its digest, until none is left.
    pub fn hash_files(&self, rt: &impl Wait) {
        for _ in rt.forever() {
            let Some(task) = self.take(rt) else {
                break;
            };
            self.put(rt, task.hash());
        }
    }

    /// The digest of each file, in the files' order. A file whose digest no worker has put is hashed now. It takes no memory.
    pub fn into_digests(self) -> Vec<FileDigest>
        ensures { result.items ≡ map sha256 L.files }
    {
        self.slots.into_inner().into_digests()
    }

    fn take(&self, rt: &impl Wait) -> Option<FileTask<'a, L>> {
        self.slots.lock(rt).take()
    }

    fn put(&self, rt: &impl Wait, hashed: HashedFile<L>) {
        self.slots.lock(rt).put(hashed);
    }
}
