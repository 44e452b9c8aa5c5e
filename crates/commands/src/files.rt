ghost use Rattle.std.specs.Prelude.{◌≡◌, ◌≢◌};
ghost use Rattle.std.specs.IoError.{error_kind};
ghost use Rattle.remote.specs.Folder.{IsErrorOf, TellsFault};

use crate::error::CommandError;
use remote::FileError;
use std::alloc::Global;
use std::io;
use std::io::ErrorKind;

impl From<FileError<Global>> for CommandError {
    ghost use Rattle.std.specs.Prelude.{◌≡◌};
    ghost use Rattle.commands.specs.Faults.{error_of_file};

    ghost from_gives = { λ error e. e ≡ error_of_file error };

    fn from(error: FileError<Global>) -> CommandError {
        match error {
            FileError::Io { path, fault } => CommandError::File { path, fault },
            FileError::NotAFile { path } => CommandError::NotAFile { path },
            FileError::TooLarge { path } => CommandError::TooLarge { path },
            FileError::Memory => CommandError::Memory,
        }
    }
}

/// The fault of an entry of a folder that is read. Of its name the system says nothing more.
pub(crate) fn of_entry(fault: io::Error) -> io::Error
    ensures { error_kind result ≡ error_kind fault }
{
    if fault.kind() == ErrorKind::InvalidFilename {
        return io::Error::new(ErrorKind::InvalidFilename, "a name in it is no UTF-8");
    }
    fault
}

/// The error of what can't be read.
pub(crate) fn unread(alloc: Global, path: &str, fault: io::Error) -> FileError<Global>
    ensures error { IsErrorOf path.now result }
    ensures fault { result ≢ FileError.Memory → TellsFault path.now fault result }
    ensures memory { error_kind fault ≡ ErrorKind.OutOfMemory → result ≡ FileError.Memory }
{
    if matches!(fault.kind(), ErrorKind::OutOfMemory) {
        return FileError::Memory;
    }
    match String::from_str(alloc, path) {
        Ok(path) => FileError::Io { path, fault },
        Err(_) => FileError::Memory,
    }
}
