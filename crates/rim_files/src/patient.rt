//! A reader that gives up on interruptions without end.
ghost use Rattle.std.specs.Prelude.{◌≡◌, ◌≤◌, IfErr, IfOk, None, length};
ghost use Rattle.rim_files.specs.Files.{IsFileFault};
ghost use Rattle.rim_files.specs.declared.file.TheConstants.{FILE_LIMIT};

use crate::fault::Fault;
use crate::file::{FILE_LIMIT, Opened, Unread};
use std::alloc::Global;
use std::io;
use std::io::{ErrorKind, Read};

/// How many reads in a row may be interrupted.
pub const MOST_INTERRUPTIONS: u16 = 1024;

/// A reader whose reads are those of another one, but fail for good once 1,024 in a row were interrupted. Nothing is known of its bytes,
/// since a read may fail.
#[derive(Drop)]
pub struct Patient<R: Drop> {
    pub reader: R,
    interruptions: u16,
}

impl<R: Read + Drop> Patient<R> {
    pub fn new(reader: R) -> Self
        ensures { result.reader ≡ reader }
    {
        Patient {
            reader,
            interruptions: 0,
        }
    }
}

impl<R: Read + Drop> Read for Patient<R> {
    fn read(&mut self, buf: &mut [u8]) -> io::Result<usize> {
        match self.reader.read(buf) {
            Err(error) if error.kind() == ErrorKind::Interrupted => {
                self.interruptions = self.interruptions.saturating_add(1);
                if self.interruptions >= MOST_INTERRUPTIONS {
                    return Err(io::Error::from(ErrorKind::TimedOut));
                }
                Err(error)
            }
            answer => {
                self.interruptions = 0;
                answer
            }
        }
    }
}

impl<R: Read + Drop> Opened for Patient<R> {
    type Bytes = Vec<u8>;

    fn whole(self, alloc: Global) -> Result<Vec<u8>, Unread> {
        read_whole(alloc, self)
    }

    fn copied(self, alloc: Global) -> Result<Vec<u8>, Unread> {
        read_whole(alloc, self)
    }
}

/// Returns all bytes of a reader of which nothing is known. Reads at most one byte past the limit.
pub(crate) fn read_whole<R: Read + Drop>(alloc: Global, reader: R) -> Result<Vec<u8>, Unread>
    ensures limit { IfOk result (λ bytes. length bytes.items ≤ FILE_LIMIT) }
    ensures fault { IfErr result (λ u. IsFileFault None u.fault) }
{
    let mut bytes = Vec::new(alloc);
    let read = reader.take(FILE_LIMIT + 1).read_to_end(&mut bytes);
    let count = bytes.as_slice().len() as u64;
    match read {
        Ok(_) if count <= FILE_LIMIT => Ok(bytes),
        Ok(_) => Err(Unread::of(Fault::FileTooLarge)),
        Err(error) if error.kind() == ErrorKind::OutOfMemory => Err(Unread::of(Fault::NoMemory)),
        Err(error) => Err(Unread {
            fault: Fault::FileUnreadable,
            failure: Some(error.kind()),
        }),
    }
}
