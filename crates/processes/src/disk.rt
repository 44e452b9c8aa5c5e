ghost use Rattle.std.specs.Prelude.{◌≡◌, ℤ, IfSome, Some};
ghost use Rattle.std.specs.Fs.{IsDir, IsFile, file_type};
ghost use Rattle.std.specs.Process.{exit_code, exit_signal};
ghost use Rattle.processes.specs.Running.{errors_of};

use crate::launching::process_of;
use crate::workshop::{Exit, Standing, Workshop};
use actions::Command;
use blob_digest::GREATEST_BLOB;
use std::alloc::Allocator;
use std::fs::File;
use std::io::{ErrorKind, Read, Write};
use std::os::unix::process::ExitStatusExt;
use std::process::{Child, ExitStatus, Stdio};
use std::rt::{Files, Processes};
use std::{fs, io};

/// What becomes of what a process writes to its standard error.
#[derive(Clone, Copy, Debug, PartialEq, Eq)]
pub enum ChildErrors {
    /// It is thrown away.
    Discarded,
    /// It goes to this process's standard error.
    Shown,
}

impl ChildErrors {
    /// The standard error of a process.
    pub(crate) fn stream(self) -> Stdio {
        match self {
            ChildErrors::Discarded => Stdio::null(),
            ChildErrors::Shown => Stdio::inherit(),
        }
    }
}

/// The folders, files and processes of the system, as the program's handle reaches them.
#[derive(Drop)]
pub struct Disk<'r, R> {
    rt: &'r R,
    errors: ChildErrors,
}

impl<'r, R> Disk<'r, R> {
    /// The system that a handle reaches, and what becomes of the errors of its processes.
    pub fn new(rt: &'r R, errors: ChildErrors) -> Disk<'r, R>
        ensures { errors_of result ≡ errors }
    {
        Disk { rt, errors }
    }
}

/// A folder that was made new.
#[derive(Drop)]
pub struct NewFolder;

/// That a process has ended.
#[derive(Drop)]
pub struct HasEnded;

/// What stands at a path with this metadata.
fn standing_of(metadata: &fs::Metadata) -> Standing
    ensures folder { IsDir (file_type metadata.now) → result ≡ Standing.Folder }
    ensures file { IsFile (file_type metadata.now) → result ≡ Standing.File }
    ensures other { ¬ IsDir (file_type metadata.now) → ¬ IsFile (file_type metadata.now)
        → result ≡ Standing.Other }
{
    if metadata.is_dir() {
        Standing::Folder
    } else if metadata.is_file() {
        Standing::File
    } else {
        Standing::Other
    }
}

/// How a process ended, as its exit status tells.
fn exit_of(status: &ExitStatus) -> Exit
    ensures code { IfSome (exit_code status.now) (λ code. result ≡ Exit.Code code) }
    ensures signal { IfSome (exit_signal status.now) (λ number. result ≡ Exit.Signal number) }
    // No other code is told.
    ensures only { (code : ℤ) → result ≡ Exit.Code code → exit_code status.now ≡ Some code }
{
    match status.code() {
        Some(code) => Exit::Code(code),
        None => Exit::Signal(status.signal().unwrap_or(0)),
    }
}

impl<'r, R: Files + Processes + Alloc + Clone + Drop> Workshop for Disk<'r, R> {
    type Room = NewFolder;

    type Child = Child<R::Started>;

    type Ended = HasEnded;

    ghost use Rattle.processes.specs.Workshop.{unknown_works};

    ghost works = { unknown_works };

    ghost unstarted = { λ _ _. Unit {0} };

    fn make_new(&self, path: &str) -> io::Result<NewFolder> {
        fs::create_dir(self.rt, path)?;
        Ok(NewFolder)
    }

    fn make_all(&self, _room: &mut NewFolder, path: &str) -> io::Result<()> {
        fs::create_dir_all(self.rt, path)
    }

    fn write(&self, _room: &mut NewFolder, path: &str, bytes: &[u8]) -> io::Result<()> {
        let mut file = File::create(self.rt, path)?;
        file.write_all(bytes)
    }

    fn spawn<A: Allocator + Copy>(
        &self,
        alloc: A,
        _room: NewFolder,
        command: &Command<A>,
        folder: &str,
    ) -> io::Result<Child<R::Started>> {
        process_of(alloc, command, folder, self.errors)?.spawn(self.rt)
    }

    fn wait(&self, child: Child<R::Started>) -> io::Result<(HasEnded, Exit)> {
        let mut child = child;
        let status = child.wait()?;
        Ok((HasEnded, exit_of(&status)))
    }

    fn look(&self, _ended: &HasEnded, path: &str) -> io::Result<Standing> {
        match fs::metadata(self.rt, path) {
            Ok(metadata) => Ok(standing_of(&metadata)),
            Err(e) => match e.kind() {
                ErrorKind::NotFound | ErrorKind::NotADirectory => Ok(Standing::Nothing),
                ErrorKind::FilesystemLoop => Ok(Standing::Other),
                _ => Err(e),
            },
        }
    }

    fn list<A: Allocator + Copy>(
        &self,
        alloc: A,
        _ended: &HasEnded,
        path: &str,
    ) -> io::Result<Option<Vec<String<A>, A>>> {
        let mut names = Vec::new(alloc);
        for entry in fs::read_dir(self.rt, path)? {
            match entry {
                Ok(entry) => names.push(String::from_str(alloc, entry.file_name())?)?,
                Err(e) if e.kind() == ErrorKind::InvalidFilename => return Ok(None),
                Err(e) => return Err(e),
            }
        }
        Ok(Some(names))
    }

    fn read<A: Allocator>(
        &self,
        alloc: A,
        _ended: &HasEnded,
        path: &str,
    ) -> io::Result<Option<Vec<u8, A>>> {
        if fs::metadata(self.rt, path)?.len() > GREATEST_BLOB as u64 {
            return Ok(None);
        }
        let mut bytes = Vec::new(alloc);
        let mut file = File::open(self.rt, path)?;
        file.read_to_end(&mut bytes)?;
        // The file may have grown since.
        if bytes.len() > GREATEST_BLOB {
            return Ok(None);
        }
        Ok(Some(bytes))
    }
}
