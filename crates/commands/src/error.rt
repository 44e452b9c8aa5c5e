ghost use Rattle.std.specs.Prelude.{◌≡◌, IfOk, string_bytes};
ghost use Rattle.commands.specs.Faults.{IsBadBlob, TellsOfEntry, OrMemory};
ghost use Rattle.commands.specs.Status.{exit_status};

use crate::connecting::ServerOptions;
use crate::failure::Failure;
use crate::hint::Hint;
use crate::process_fault::ProcessFault;
use crate::stages::StagesFault;
use archive::Refusal;
use blob_digest::{Digest, DigestError};
use plan::PlanError;
use service::NotAccepted;
use std::alloc::{AllocError, AllocFailed, Global};
use std::io;

/// Why a command ends without its answer. Each is told in one line (`tell`).
#[derive(Debug, Drop)]
pub enum CommandError {
    /// The command line is invalid, as this says.
    Usage(String),
    /// The text of an option is no digest.
    Digest {
        option: &'static str,
        text: String,
        fault: DigestError,
    },
    /// The text of an option is no number of at most `greatest`.
    Number {
        option: &'static str,
        greatest: u64,
        text: String,
    },
    /// The line of a file is no digest.
    DigestFile {
        path: String,
        fault: DigestError,
    },
    /// A file is no archive that is read: the first header at fault, and how.
    Archive {
        path: String,
        at: u64,
        refusal: Refusal,
    },
    /// A list of stages is at fault.
    Stages {
        path: String,
        fault: StagesFault,
    },
    /// A line of a plan or of a record is at fault.
    Text {
        path: String,
        fault: PlanError,
        hint: Option<Hint>,
    },
    /// The system refused a file or a folder.
    File {
        path: String,
        fault: io::Error,
    },
    /// What stands at the path is no file.
    NotAFile {
        path: String,
    },
    /// The file has more than 16,777,216 bytes.
    TooLarge {
        path: String,
    },
    /// The text of an option isn't what is expected.
    InvalidValue {
        option: &'static str,
        expected: &'static str,
        text: String,
    },
    /// What stands at the path can't be put or be part of a tree.
    Entry {
        path: String,
        fault: &'static str,
    },
    /// No connection to the server could be opened.
    Connection {
        server: String,
        fault: io::Error,
    },
    /// A request to the server failed.
    Server {
        server: String,
        failure: Failure,
    },
    /// What the server sent for the digest can't be taken.
    Blob {
        server: String,
        digest: Digest,
        fault: &'static str,
    },
    /// No socket could be bound at the address.
    Address {
        address: String,
        fault: io::Error,
    },
    /// No more connections are served.
    Accept(NotAccepted),
    /// A process of a step came to nothing.
    Process(ProcessFault),
    /// The system gave no random bytes.
    Random(io::Error),
    /// Standard output takes no more.
    Output(io::Error),
    /// Memory ran out.
    Memory,
}

impl CommandError {
    /// 2 where the command line or a text that it names is invalid, and else 3.
    pub fn status(&self) -> u8
        ensures { result ≡ exit_status self.now }
    {
        match self {
            CommandError::Usage(_)
            | CommandError::Digest { .. }
            | CommandError::Number { .. }
            | CommandError::InvalidValue { .. }
            | CommandError::DigestFile { .. }
            | CommandError::Archive { .. }
            | CommandError::Stages { .. }
            | CommandError::Text { .. } => 2,
            CommandError::File { .. }
            | CommandError::NotAFile { .. }
            | CommandError::TooLarge { .. }
            | CommandError::Entry { .. }
            | CommandError::Connection { .. }
            | CommandError::Server { .. }
            | CommandError::Blob { .. }
            | CommandError::Address { .. }
            | CommandError::Accept(_)
            | CommandError::Process(_)
            | CommandError::Random(_)
            | CommandError::Output(_)
            | CommandError::Memory => 3,
        }
    }
}

impl From<AllocError> for CommandError {
    ghost use Rattle.std.specs.Prelude.{◌≡◌};
    ghost use Rattle.commands.specs.declared.error.CommandError.TheVariants as errors;

    ghost from_gives = { λ _ e. e ≡ errors.Memory };

    fn from(_e: AllocError) -> CommandError {
        CommandError::Memory
    }
}

impl<T: Drop> From<AllocFailed<T>> for CommandError {
    ghost use Rattle.std.specs.Prelude.{◌≡◌};
    ghost use Rattle.commands.specs.declared.error.CommandError.TheVariants as errors;

    ghost from_gives = { λ _ e. e ≡ errors.Memory };

    fn from(_e: AllocFailed<T>) -> CommandError {
        CommandError::Memory
    }
}

/// The error of what stands at a place and can't be put.
pub(crate) fn entry_error(alloc: Global, place: &str, fault: &'static str) -> CommandError
    ensures { OrMemory (TellsOfEntry place.now fault.now) result }
{
    match String::from_str(alloc, place) {
        Ok(path) => CommandError::Entry { path, fault },
        Err(_) => CommandError::Memory,
    }
}

/// What is said of bytes that haven't the digest for which they came.
pub(crate) const OTHER_BYTES: &str = "the server sent other bytes";

/// The error of what a server sent for a digest and can't be taken.
pub(crate) fn blob_error(
    alloc: Global,
    server: &ServerOptions,
    digest: &Digest,
    fault: &'static str,
) -> Result<CommandError, AllocError>
    ensures { IfOk result (IsBadBlob (string_bytes server.now.address) digest.now fault.now) }
{
    Ok(CommandError::Blob {
        server: String::from_str(alloc, server.address.as_str())?,
        digest: *digest,
        fault,
    })
}
