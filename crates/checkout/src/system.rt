ghost use Rattle.std.specs.Prelude.{◌≡◌, true, false, Ok, Err, MatchOption, MatchResult};

use crate::writer::FolderWriter;
use std::fs::OpenOptions;
use std::io::{ErrorKind, Write};
use std::os::unix::fs::{OpenOptionsExt, symlink};
use std::rt::Files;
use std::{fs, io};

/// The permission bits of a file that is a program, before the process's mask.
const PROGRAM: u32 = 0o777;

/// The permission bits of another file.
const PLAIN: u32 = 0o666;

/// Folders of the system, as the program's handle reaches them.
#[derive(Drop)]
pub struct SystemWriter<'r, R>(pub &'r R);

/// A folder of the system that was empty.
#[derive(Drop)]
pub struct SystemFolder;

/// Whether a folder has no entry, by the first that is told of it.
fn is_empty<T: Drop>(first: Option<io::Result<T>>) -> io::Result<bool>
    ensures { MatchOption first (result ≡ Ok true) (λ told. MatchResult told
        (λ _. result ≡ Ok false) (λ fault. result ≡ Err fault)) }
{
    match first {
        None => Ok(true),
        Some(Ok(_entry)) => Ok(false),
        Some(Err(fault)) => Err(fault),
    }
}

impl<'r, R: Files + Alloc> FolderWriter for SystemWriter<'r, R> {
    type Folder = SystemFolder;

    ghost has = { λ _ _. Unit {0} };

    ghost refuses = { λ _ _ _. Unit {0} };

    ghost tried = { λ _ _. Unit {0} };

    fn take(&mut self, path: &str) -> io::Result<SystemFolder> {
        match fs::create_dir(self.0, path) {
            Ok(()) => Ok(SystemFolder),
            Err(fault) if fault.kind() == ErrorKind::AlreadyExists => {
                if is_empty(fs::read_dir(&self.0, path)?.next())? {
                    return Ok(SystemFolder);
                }
                Err(io::Error::from(ErrorKind::DirectoryNotEmpty))
            }
            Err(fault) => Err(fault),
        }
    }

    fn make_folder(&mut self, _folder: &mut SystemFolder, path: &str) -> io::Result<()> {
        fs::create_dir(self.0, path)
    }

    fn write_file(
        &mut self,
        _folder: &mut SystemFolder,
        path: &str,
        bytes: &[u8],
        executable: bool,
    ) -> io::Result<()> {
        let mut options = OpenOptions::new();
        options.write(true).create_new(true);
        options.mode(if executable { PROGRAM } else { PLAIN });
        let mut file = options.open(self.0, path)?;
        file.write_all(bytes)
    }

    fn make_link(
        &mut self,
        _folder: &mut SystemFolder,
        path: &str,
        target: &str,
    ) -> io::Result<()> {
        symlink(self.0, target, path)
    }
}
