ghost use Rattle.std.specs.Prelude.{IsOk, OnOk};
ghost use Rattle.std.specs.Fs.{IsFile, file_type};

use std::alloc::Global;
use std::fs::File;
use std::io::{ErrorKind, Write};
use std::rt::Files;
use std::{fs, io};

/// How many names are tried for a new file.
const NAMES: u64 = 64;

/// Where a link at a path leads to in the end, and else the path: a file or nothing stands there.
fn place_of<R: AllocGlobal + Files>(rt: &R, alloc: Global, path: &str) -> io::Result<String> {
    let metadata = match fs::symlink_metadata(rt, path) {
        Ok(metadata) => metadata,
        Err(fault) if fault.kind() == ErrorKind::NotFound => {
            return Ok(String::from_str(alloc, path)?);
        }
        Err(fault) => return Err(fault),
    };
    if !metadata.is_symlink() {
        check_file(&metadata)?;
        return Ok(String::from_str(alloc, path)?);
    }
    check_file(&fs::metadata(rt, path)?)?;
    let place = fs::canonicalize(rt, path)?;
    Ok(String::from_str(alloc, place.as_str())?)
}

/// What has this metadata is a file.
fn check_file(metadata: &fs::Metadata) -> io::Result<()>
    ensures file { OnOk result (IsFile (file_type metadata.now)) }
    ensures taken { IsFile (file_type metadata.now) → IsOk result }
{
    if metadata.is_dir() {
        return Err(io::Error::from(ErrorKind::IsADirectory));
    }
    if metadata.is_file() {
        return Ok(());
    }
    Err(io::Error::new(ErrorKind::InvalidInput, "not a file"))
}

/// A new file beside a place, and its path. What stands there already is left alone.
fn create_beside<R: Files>(rt: &R, alloc: Global, place: &str) -> io::Result<(String, R::File)> {
    for number in 0..NAMES {
        let fresh = format!(in alloc; "{place}.new{number}")?;
        match File::create_new(rt, fresh.as_str()) {
            Ok(file) => return Ok((fresh, file)),
            Err(fault) if fault.kind() == ErrorKind::AlreadyExists => {}
            Err(fault) => return Err(fault),
        }
    }
    Err(io::Error::from(ErrorKind::AlreadyExists))
}

/// Writes the bytes to a new file, which then takes the place.
fn fill<R: Files>(
    rt: &R,
    mut file: R::File,
    fresh: &str,
    place: &str,
    bytes: &[u8],
) -> io::Result<()> {
    file.write_all(bytes)?;
    fs::rename(rt, fresh, place)
}

/// A file can be put at the path: a file or nothing stands there, where links are followed, and its
/// folder takes a new file. That is made and removed.
pub(crate) fn check_replaceable<R: AllocGlobal + Files>(
    rt: &R,
    alloc: Global,
    path: &str,
) -> io::Result<()> {
    let place = place_of(rt, alloc, path)?;
    let (fresh, _file) = create_beside(rt, alloc, place.as_str())?;
    fs::remove_file(rt, fresh.as_str())
}

/// Puts a file of these bytes at the path, whole or not at all. A link there is followed and stays,
/// and so does what is no file. No new file stays behind.
pub(crate) fn replace_file<R: AllocGlobal + Files>(
    rt: &R,
    alloc: Global,
    path: &str,
    bytes: &[u8],
) -> io::Result<()> {
    let place = place_of(rt, alloc, path)?;
    let (fresh, file) = create_beside(rt, alloc, place.as_str())?;
    let written = fill(rt, file, fresh.as_str(), place.as_str(), bytes);
    if written.is_err() {
        let _ = fs::remove_file(rt, fresh.as_str());
    }
    written
}
