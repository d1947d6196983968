//! Large files, read at once.
ghost use Rattle.std.specs.Prelude.{◌≡◌, ◌≤◌, ℕ, All, List, IfErr, IfOk, OnOk, is_some, length, map, true, vec_len};
ghost use Rattle.rim_files.specs.Files.{AreRead, IsFirstFault, Known};
ghost use Rattle.rim_files.specs.AtOnce.{AreFollowedBy, IsOutcome, IsUnknown};

use crate::fault::Fault;
use crate::file::{FILE_LIMIT, Opened, Opener};
use crate::patient::read_whole;
use rim_accepted::Files;
use rim_manifest::Release;
use std::alloc::{AllocError, Global};
use std::io::Read;
use std::thread;
use std::thread::Threads;

/// Size from which a file is read at once with others, in bytes: 1 MiB, which takes about a millisecond. This project's choice.
const LEAST_AT_ONCE: u64 = 1 << 20;

/// Returns the bytes of each file of a release, in its order. Up to `at_once` files that follow one another are read at once, in threads of
/// their own, if the opener tells of each that it is large and within the limit. Files are opened in the order of the release, and any other
/// file is read before the next one is opened.
pub fn read_files_at_once<O: Opener, R: Threads + Sync>(
    rt: &R,
    alloc: Global,
    opener: &mut O,
    release: &Release,
    at_once: usize,
) -> Result<Files, Fault>
    ensures count { IfOk result (λ files. vec_len files ≡ length release.now.paths) }
    ensures each { IfOk result (λ files. AreRead (O.held opener.old) release.now.paths
        (map (λ file. file.items) files.items)) }
    ensures fault { IfErr result (IsFirstFault (O.held opener.old) release.now.paths) }
    ensures stays { O.held opener.new ≡ O.held opener.old }
{
    let mut files = Vec::new(alloc);
    let mut opened = Vec::new(alloc);
    for i in 0..release.file_count() {
        let Some(reader) = opener.open(release.path(i)) else {
            read_opened(rt, alloc, opened, &mut files)?;
            return Err(Fault::FileUnreadable);
        };
        let is_large = is_large(O::size(&reader));
        if is_large {
            if opened.push(reader).is_err() {
                return Err(Fault::NoMemory);
            }
            if opened.len() >= at_once {
                read_opened(rt, alloc, opened, &mut files)?;
                opened = Vec::new(alloc);
            }
        } else {
            read_opened(rt, alloc, opened, &mut files)?;
            opened = Vec::new(alloc);
            let bytes = match reader.copied(alloc) {
                Ok(bytes) => bytes,
                Err(unread) => return Err(unread.fault),
            };
            if files.push(bytes).is_err() {
                return Err(Fault::NoMemory);
            }
        }
    }
    read_opened(rt, alloc, opened, &mut files)?;
    Ok(files)
}

/// Returns whether a file of this size is read at once with others.
fn is_large(size: Option<u64>) -> bool
    ensures { result ≡ true → is_some size ≡ true }
{
    size.is_some_and(|size| (LEAST_AT_ONCE..=FILE_LIMIT).contains(&size))
}

/// Reads files at once that were opened, of which nothing is known, and adds their bytes to those of the files before them.
fn read_opened<T: Read + Send + Drop, R: Threads + Sync>(
    rt: &R,
    alloc: Global,
    opened: Vec<T>,
    files: &mut Files,
) -> Result<(), Fault>
    ensures read { OnOk result ((held : List ℕ → Known) (paths : List (List ℕ))
        → AreFollowedBy IsUnknown held paths (map (λ file. file.items) files.old.items) opened.items
        → AreRead held paths (map (λ file. file.items) files.new.items)) }
    ensures fault { IfErr result (λ fault. (held : List ℕ → Known) (paths : List (List ℕ))
        → AreFollowedBy IsUnknown held paths (map (λ file. file.items) files.old.items) opened.items
        → IsFirstFault held paths fault) }
{
    if opened.is_empty() {
        return Ok(());
    }
    let Ok(outcomes) = read_each(rt, alloc, opened) else {
        return Err(Fault::NoMemory);
    };
    for outcome in outcomes {
        match outcome {
            Ok(bytes) => {
                if files.push(bytes).is_err() {
                    return Err(Fault::NoMemory);
                }
            }
            Err(fault) => return Err(fault),
        }
    }
    Ok(())
}

/// Reads files at once, and returns the bytes of each, or why it cannot be read.
fn read_each<T: Read + Send + Drop, R: Threads + Sync>(
    rt: &R,
    alloc: Global,
    opened: Vec<T>,
) -> Result<Vec<Result<Vec<u8>, Fault>>, AllocError>
    ensures count { IfOk result (λ outcomes. vec_len outcomes ≡ vec_len opened) }
    ensures each { IfOk result (λ outcomes. All (IsOutcome (λ file. file.items)) outcomes.items) }
{
    thread::map_vec(rt, opened, &|reader| all_bytes(alloc, reader))
}

/// Returns all bytes of a file, or why they cannot be read.
fn all_bytes<T: Read + Drop>(alloc: Global, reader: T) -> Result<Vec<u8>, Fault>
    ensures { IsOutcome (λ file. file.items) result }
{
    match read_whole(alloc, reader) {
        Ok(bytes) => Ok(bytes),
        Err(unread) => Err(unread.fault),
    }
}
