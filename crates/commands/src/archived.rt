ghost use Rattle.std.specs.Prelude.{◌≡◌, ◌≢◌, ◌++◌, ℕ, List, IfSome, None};
ghost use Rattle.commands.specs.Evidence.{IsNothingThere, IsSameFault};
ghost use Rattle.remote.specs.Folder.{IsErrorOf};

use crate::connecting::ServerOptions;
use crate::files::unread;
use crate::world::{Found, Inputs, World};
use archive::{Archive, Blocks};
use remote::{FileError, FileReader};
use std::alloc::Global;
use std::io;
use std::io::ErrorKind;

/// A world in which an archive stands as a folder at its path: of files it has those below that.
#[derive(Drop)]
pub(crate) struct Archived<'e, W, B> {
    pub outside: &'e W,
    /// Its path, and a slash behind it.
    pub folder: &'e str,
    pub archive: Archive<'e, B, Global>,
}

impl<W, B> Archived<'_, W, B> {
    /// The name in the archive of what is below its path.
    fn name_of<'n>(&self, path: &'n str) -> Option<&'n str>
        ensures found { IfSome result (λ name. path.now ≡ self.now.folder.now ++ name.now) }
        ensures none { result ≡ None → (name : List ℕ) → path.now ≢ self.now.folder.now ++ name }
    {
        path.strip_prefix(self.folder)
    }
}

/// The error of a file of an archive, told of the file's whole path.
fn at_path(alloc: Global, path: &str, error: FileError<Global>) -> FileError<Global>
    ensures error { IsErrorOf path.now result }
    ensures same { IsSameFault error result }
{
    match (error, String::from_str(alloc, path)) {
        (FileError::Io { fault, .. }, Ok(path)) => FileError::Io { path, fault },
        (FileError::NotAFile { .. }, Ok(path)) => FileError::NotAFile { path },
        (FileError::TooLarge { .. }, Ok(path)) => FileError::TooLarge { path },
        _ => FileError::Memory,
    }
}

/// The error of a path at which nothing is.
fn nothing_there(alloc: Global, path: &str) -> FileError<Global>
    ensures error { IsErrorOf path.now result }
    ensures fault { IsNothingThere result }
{
    unread(alloc, path, io::Error::from(ErrorKind::NotFound))
}

impl<W: World, B: Blocks> World for Archived<'_, W, B> {
    ghost use Rattle.archive.specs.Archive.{blocks_of, files_of};
    ghost use Rattle.commands.specs.Evidence.{sees_archive};

    ghost sees = { λ a. sees_archive (W.sees a.outside.now) a.folder.now
        (B.contents (blocks_of a.archive)) (files_of a.archive) };
}

impl<W: Inputs, B: Blocks> Inputs for Archived<'_, W, B> {
    type Link = W::Link;

    fn read(&self, alloc: Global, path: &str) -> Result<Vec<u8>, FileError<Global>> {
        let Some(name) = self.name_of(path) else {
            return Err(nothing_there(alloc, path));
        };
        match self.archive.read_at(alloc, name) {
            Ok(bytes) => Ok(bytes),
            Err(error) => Err(at_path(alloc, path, error)),
        }
    }

    fn list(&self, alloc: Global, path: &str) -> Result<Vec<String>, FileError<Global>> {
        Err(nothing_there(alloc, path))
    }

    fn look(&self, alloc: Global, path: &str) -> Result<Found, FileError<Global>> {
        let Some(name) = self.name_of(path) else {
            return Err(nothing_there(alloc, path));
        };
        match self.archive.find(name) {
            Some(_) => Ok(Found::File { executable: false }),
            None => Err(nothing_there(alloc, path)),
        }
    }

    fn is_folder(&self, _alloc: Global, _path: &str) -> Result<bool, FileError<Global>> {
        Ok(true)
    }

    fn connect(&self, alloc: Global, server: &ServerOptions) -> io::Result<W::Link> {
        self.outside.connect(alloc, server)
    }
}
