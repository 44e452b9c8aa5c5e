ghost use Rattle.std.specs.Prelude.{◌≡◌, ◌⊎◌, ◌<◌, ◌≤◌, ℕ, List, length, vec_len, Ok, Err, OnOk};
ghost use Rattle.std.specs.Prelude.{◌≢◌, IfErr, IfOk, IfSome, IsErrAnd, IsOk};
ghost use Rattle.std.specs.declared.string.String.{String};
ghost use Rattle.std.specs.IoError.{error_kind};
ghost use Rattle.remote.specs.Files.{IsUnread, IsWholeFile};
ghost use Rattle.remote.specs.Folder.{IsErrorOf, IsNotThere, ComesOfSystem, IsReadable, TellsFault};
ghost use Rattle.remote.specs.Folder.{TellsOpenFault, TellsUnreadable};

use blob_digest::GREATEST_BLOB;
use std::alloc::{AllocError, Allocator};
use std::io::{ErrorKind, Read};
use std::rt::Files;
use std::{fs, io};
use thiserror::Error;

/// The most bytes that a file has.
const GREATEST_FILE: u64 = GREATEST_BLOB as u64;

/// Why a file can't be read.
#[derive(Drop, Error)]
#[derive_where(Debug)]
pub enum FileError<A: Allocator> {
    #[error("{path:?}: {fault}")]
    Io { path: String<A>, fault: io::Error },
    #[error("{path:?}: not a file")]
    NotAFile { path: String<A> },
    #[error("{path:?}: a file of more than 16777216 bytes")]
    TooLarge { path: String<A> },
    #[error("out of memory")]
    Memory,
}

impl<A: Allocator> From<AllocError> for FileError<A> {
    ghost use Rattle.std.specs.Prelude.{◌≡◌};
    ghost use Rattle.remote.specs.declared.files.FileError.TheVariants as errors;

    ghost from_gives = { λ _ e. e ≡ errors.Memory };

    fn from(_e: AllocError) -> FileError<A> {
        FileError::Memory
    }
}

/// What reads files.
pub trait FileReader<A: Allocator> {
    ghost use Rattle.remote.specs.declared.files.FileError.{FileError};

    /// The file at the path was read, and had these bytes.
    ghost reads: { Self → List ℕ → List ℕ → Type 0 };

    /// The file at the path couldn't be read, for this.
    ghost fails: { Self → List ℕ → FileError A → Type 0 };

    /// The bytes of the file there.
    fn read_at(&self, alloc: A, path: &str) -> Result<Vec<u8, A>, FileError<A>>
        ensures read { IfOk result (λ bytes. reads self.now path.now bytes.items) }
        ensures error { IfErr result (IsErrorOf path.now) }
        ensures fault { IfErr result (fails self.now path.now) };
}

/// What finds files by their paths, and opens them. Links are followed.
pub trait FileOpener {
    ghost use Rattle.std.specs.declared.fs.Metadata.{Metadata};
    ghost use Rattle.std.specs.declared.io.Error.{Error};

    type File: Read + Drop;

    /// What stands at the path has this metadata.
    ghost looked: { Self → List ℕ → Metadata → Type 0 };

    /// The file at the path was opened, and stood so as it was.
    ghost opened: { Self → List ℕ → Self.File → Type 0 };

    /// What stands at the path couldn't be looked at or opened, for this.
    ghost failed: { Self → List ℕ → Error → Type 0 };

    /// The metadata of what stands there.
    fn look(&self, path: &str) -> io::Result<fs::Metadata>
        ensures looked { IfOk result (looked self.now path.now) }
        ensures fault { IfErr result (failed self.now path.now) };

    /// The file there, to be read from its start.
    fn open(&self, path: &str) -> io::Result<Self::File>
        ensures opened { IfOk result (opened self.now path.now) }
        ensures fault { IfErr result (failed self.now path.now) };
}

/// The files of the system, of which nothing is known.
#[derive(Drop)]
pub struct SystemFiles<'r, R>(pub &'r R);

impl<R: Files> FileOpener for SystemFiles<'_, R> {
    type File = R::File;

    ghost looked = { λ _ _ _. Unit {0} };

    ghost opened = { λ _ _ _. Unit {0} };

    ghost failed = { λ _ _ _. Unit {0} };

    fn look(&self, path: &str) -> io::Result<fs::Metadata> {
        fs::metadata(self.0, path)
    }

    fn open(&self, path: &str) -> io::Result<R::File> {
        fs::open(self.0, path)
    }
}

impl<R: Files, A: Allocator + Copy> FileReader<A> for SystemFiles<'_, R> {
    ghost reads = { λ _ _ _. Unit {0} };

    ghost fails = { λ _ _ _. Unit {0} };

    fn read_at(&self, alloc: A, path: &str) -> Result<Vec<u8, A>, FileError<A>> {
        read_file(alloc, self, path)
    }
}

/// The bytes of the file there, to its end. What is no file isn't opened.
pub fn read_file<O: FileOpener, A: Allocator + Copy>(
    alloc: A,
    files: &O,
    path: &str,
) -> Result<Vec<u8, A>, FileError<A>>
    ensures read { IfOk result (λ bytes. IsWholeFile O.File.remaining
        (O.looked files.now path.now) (O.opened files.now path.now) bytes.items) }
    ensures few { IfOk result (λ bytes. vec_len bytes ≤ GREATEST_FILE) }
    ensures fault { IfErr result (IsUnread O.File.remaining (O.looked files.now path.now)
        (O.opened files.now path.now) (O.failed files.now path.now) path.now) }
{
    let metadata = answered(alloc, path, files.look(path))?;
    check_metadata(alloc, path, &metadata)?;
    let file = answered(alloc, path, files.open(path))?;
    read_whole(alloc, path, file, &metadata)
}

/// The bytes of an open file that just had this metadata: with room for all of them at once, and
/// one byte more, the read that finds its end needs no other. Of one that has grown past the limit
/// no more is read than shows that.
fn read_whole<F: Read + Drop, A: Allocator + Copy>(
    alloc: A,
    path: &str,
    file: F,
    metadata: &fs::Metadata,
) -> Result<Vec<u8, A>, FileError<A>>
    requires { IsReadable metadata.now }
    ensures whole { IfOk result (λ bytes. IfSome (F.remaining file) (λ all. bytes.items ≡ all)) }
    ensures few { IfOk result (λ bytes. vec_len bytes ≤ GREATEST_FILE) }
    ensures large { (p : String A) → result ≡ Err (FileError.TooLarge p)
        → IfSome (F.remaining file) (λ all. GREATEST_FILE < length all) }
    ensures file { (p : String A) → result ≡ Err (FileError.NotAFile p) → ⊥ }
    ensures error { IfErr result (IsErrorOf path.now) }
    ensures there { IfErr result (λ e. IsNotThere e → ⊥) }
{
    let mut bytes = Vec::with_capacity(alloc, metadata.len() as usize + 1)?;
    let mut front = file.take(GREATEST_FILE + 1);
    checked_read(alloc, path, front.read_to_end(&mut bytes))?;
    if bytes.len() as u64 > GREATEST_FILE {
        let path = String::from_str(alloc, path)?;
        return Err(FileError::TooLarge { path });
    }
    Ok(bytes)
}

/// Whether what stands at a path is a file that is read, by its metadata.
fn check_metadata<A: Allocator>(
    alloc: A,
    path: &str,
    metadata: &fs::Metadata,
) -> Result<(), FileError<A>>
    ensures readable { OnOk result (IsReadable metadata.now) }
    ensures taken { IsReadable metadata.now → IsOk result }
    ensures error { IfErr result (TellsUnreadable path.now metadata.now) }
{
    if !metadata.is_file() {
        let path = String::from_str(alloc, path)?;
        return Err(FileError::NotAFile { path });
    }
    if metadata.len() > GREATEST_FILE {
        let path = String::from_str(alloc, path)?;
        return Err(FileError::TooLarge { path });
    }
    Ok(())
}

/// What the system answered of the file at a path, or why it didn't.
fn answered<A: Allocator, T: Drop>(
    alloc: A,
    path: &str,
    call: io::Result<T>,
) -> Result<T, FileError<A>>
    ensures same { IfOk result (λ value. call ≡ Ok value) }
    ensures fault { IfErr result (λ e. IsErrAnd call (λ fault.
        (e ≡ FileError.Memory) ⊎ TellsFault path.now fault e)) }
{
    match call {
        Ok(value) => Ok(value),
        Err(fault) => Err(io_error(alloc, path, fault)?),
    }
}

/// The error of a file.
fn io_error<A: Allocator>(
    alloc: A,
    path: &str,
    fault: io::Error,
) -> Result<FileError<A>, FileError<A>>
    ensures told { IfOk result (TellsFault path.now fault) }
    ensures memory { IfErr result (λ e. e ≡ FileError.Memory) }
    ensures there { error_kind fault ≢ ErrorKind.NotFound
        → IfOk result (λ e. IsNotThere e → ⊥) }
    ensures plain { IfOk result ComesOfSystem }
{
    if fault.kind() == ErrorKind::OutOfMemory {
        return Ok(FileError::Memory);
    }
    let path = String::from_str(alloc, path)?;
    Ok(FileError::Io { path, fault })
}

/// What a read of an open file came to, or its fault: never that no file is there.
fn checked_read<A: Allocator>(
    alloc: A,
    path: &str,
    read: io::Result<usize>,
) -> Result<usize, FileError<A>>
    ensures same { IfOk result (λ count. read ≡ Ok count) }
    ensures error { IfErr result (IsErrorOf path.now) }
    ensures there { IfErr result (λ e. IsNotThere e → ⊥) }
    ensures plain { IfErr result ComesOfSystem }
    ensures fault { IfErr result (λ e. IsErrAnd read (TellsOpenFault path.now e)) }
{
    match read {
        Ok(count) => Ok(count),
        Err(fault) => Err(io_error(alloc, path, of_open_file(fault))?),
    }
}

/// The fault of a file that was opened.
fn of_open_file(fault: io::Error) -> io::Error
    ensures there { error_kind result ≢ ErrorKind.NotFound }
    ensures same { error_kind fault ≢ ErrorKind.NotFound → result ≡ fault }
{
    if fault.kind() == ErrorKind::NotFound {
        return io::Error::from(ErrorKind::Other);
    }
    fault
}
