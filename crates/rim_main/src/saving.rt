//! A file is saved whole: its bytes are written beside its place, and the new file then gets its name.
use std::alloc::Global;
use std::fs::{File, OpenOptions, Permissions};
use std::io::{ErrorKind, Write};
use std::path::{Path, PathBuf};
use std::{fs, io};

/// How many names are tried for the new file.
const MOST_NAMES: u8 = 100;

/// Makes a file at a path with these bytes. A file that is there is replaced, and keeps its permissions; one that may not be written to is left
/// as it is. Where a link leads to a file, that one is replaced, and one that is not there yet is made. What is no file, as a terminal or a
/// pipe, gets the bytes.
///
/// At an error the file is as it was, and the new one is removed.
pub fn save(rt: &HostRuntime, alloc: Global, path: &str, bytes: &[u8]) -> io::Result<()> {
    match fs::metadata(rt, path) {
        Ok(found) if found.is_file() => {
            drop(OpenOptions::new().write(true).open(rt, path)?);
            let place = place_of(rt, alloc, path)?;
            replace(rt, alloc, place.as_path(), bytes, Some(found.permissions()))
        }
        Ok(_) => write(OpenOptions::new().write(true).open(rt, path)?, bytes),
        Err(error) if error.kind() == ErrorKind::NotFound => {
            if is_link(rt, path) {
                save_through(rt, alloc, path, bytes)
            } else {
                replace(rt, alloc, Path::new(path), bytes, None)
            }
        }
        Err(error) => Err(error),
    }
}

/// Makes the file to which a link leads. Only what opens it follows the link, so an empty file is made first.
fn save_through(rt: &HostRuntime, alloc: Global, path: &str, bytes: &[u8]) -> io::Result<()> {
    drop(OpenOptions::new().write(true).create(true).open(rt, path)?);
    let place = fs::canonicalize(rt, path)?;
    let done = replace(rt, alloc, place.as_path(), bytes, None);
    if done.is_err() {
        let _ = fs::remove_file(rt, place.as_path());
    }
    done
}

/// Whether a link is at a path, wherever it leads.
fn is_link(rt: &HostRuntime, path: &str) -> bool {
    match fs::symlink_metadata(rt, path) {
        Ok(found) => found.is_symlink(),
        Err(_) => false,
    }
}

/// The path of a file that is there, or of the one to which a link leads.
fn place_of(rt: &HostRuntime, alloc: Global, path: &str) -> io::Result<PathBuf> {
    if is_link(rt, path) {
        fs::canonicalize(rt, path)
    } else {
        Ok(PathBuf::from_str(alloc, path)?)
    }
}

/// Writes the bytes to a new file beside a path, which then gets that name.
fn replace(
    rt: &HostRuntime,
    alloc: Global,
    path: Path<'_>,
    bytes: &[u8],
    permissions: Option<Permissions>,
) -> io::Result<()> {
    let (beside, file) = create_beside(rt, alloc, path)?;
    let done = fill(rt, file, &beside, bytes, permissions).and_then(|()| fs::rename(
        rt,
        beside.as_path(),
        path,
    ));
    if done.is_err() {
        let _ = fs::remove_file(rt, beside.as_path());
    }
    done
}

/// Creates a file in the folder of a path, by a name that no file there has.
fn create_beside(rt: &HostRuntime, alloc: Global, path: Path<'_>) -> io::Result<(PathBuf, File)> {
    for number in 0..MOST_NAMES {
        let name = format!(in alloc; ".rim-{number}.part")?;
        let beside = path.with_file_name(alloc, name.as_str())?;
        match File::create_new(rt, beside.as_path()) {
            Err(error) if error.kind() == ErrorKind::AlreadyExists => {}
            Err(error) => return Err(error),
            Ok(file) => return Ok((beside, file)),
        }
    }
    Err(io::Error::from(ErrorKind::AlreadyExists))
}

/// Writes the bytes to the new file, and gives it the permissions of the one that it replaces.
fn fill(
    rt: &HostRuntime,
    file: File,
    beside: &PathBuf,
    bytes: &[u8],
    permissions: Option<Permissions>,
) -> io::Result<()> {
    write(file, bytes)?;
    match permissions {
        Some(permissions) => fs::set_permissions(rt, beside.as_path(), permissions),
        None => Ok(()),
    }
}

/// Writes all bytes.
fn write(file: File, bytes: &[u8]) -> io::Result<()> {
    let mut file = file;
    file.write_all(bytes)?;
    file.flush()
}
