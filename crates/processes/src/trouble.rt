ghost use Rattle.std.specs.Prelude.{◌≡◌, ℕ, List};
ghost use Rattle.std.specs.declared.io.Error.{Error};
ghost use Rattle.processes.specs.Walking.{IsFailedBy, IsOfAdding, IsOfMessage, IsOfSystem};
ghost use Rattle.processes.specs.declared.trouble.Trouble.TheVariants as troubles;
ghost use Rattle.worker.specs.Counted.{IsFailure};
ghost use Rattle.worker.specs.declared.failure.FailureCause.TheVariants.{Unread};

use messages::{MessageError, Path};
use std::alloc::{AllocError, AllocFailed, Allocator};
use std::io;
use std::io::ErrorKind;
use tree::AddError;
use worker::{FailureCause, RunError};

/// Why nothing is collected at a place, before it is counted.
#[derive(Drop)]
pub(crate) enum Trouble {
    /// What stands there couldn't be read.
    Unread(io::Error),
    /// What stands there is no output.
    NoOutput,
    /// No memory was left.
    Memory,
}

impl From<io::Error> for Trouble {
    ghost from_gives = { IsOfSystem };

    fn from(error: io::Error) -> Trouble {
        match error.kind() {
            ErrorKind::OutOfMemory => Trouble::Memory,
            _ => Trouble::Unread(error),
        }
    }
}

impl From<AllocError> for Trouble {
    ghost from_gives = { λ _ e. e ≡ troubles.Memory };

    fn from(_e: AllocError) -> Trouble {
        Trouble::Memory
    }
}

impl<T: Drop> From<AllocFailed<T>> for Trouble {
    ghost from_gives = { λ _ e. e ≡ troubles.Memory };

    fn from(_e: AllocFailed<T>) -> Trouble {
        Trouble::Memory
    }
}

impl From<MessageError> for Trouble {
    ghost from_gives = { IsOfMessage };

    fn from(error: MessageError) -> Trouble {
        match error {
            MessageError::Memory => Trouble::Memory,
            _ => Trouble::NoOutput,
        }
    }
}

/// The output paths of a command are apart, and a folder has a name once: else the system failed.
impl<A: Allocator> From<AddError<A>> for Trouble {
    ghost from_gives = { IsOfAdding };

    fn from(error: AddError<A>) -> Trouble {
        match error {
            AddError::Memory => Trouble::Memory,
            AddError::Overlap(_) => Trouble::Unread(io::Error::from(ErrorKind::InvalidData)),
        }
    }
}

impl Trouble {
    /// The refusal of what concerns an output path of a program's command.
    pub(crate) fn at<A: Allocator>(
        self,
        alloc: A,
        program: String<A>,
        path: &Path<A>,
    ) -> RunError<A>
        ensures absolute { result ≡ RunError.NotAbsolute → ⊥ }
        ensures bad { (bad : List (List ℕ)) → result ≡ RunError.BadOutput bad
            → (bad ≡ path.now) × (self ≡ Trouble.NoOutput) }
        ensures failed { IsFailure result → (error : Error) × (self ≡ Trouble.Unread error)
            × (result ≡ RunError.Device program (Unread error)) }
    {
        match self {
            Trouble::Unread(error) => RunError::Device {
                program,
                cause: FailureCause::Unread(error),
            },
            Trouble::Memory => RunError::Memory,
            Trouble::NoOutput => match Path::copy_of(alloc, path) {
                Ok(path) => RunError::BadOutput(path),
                Err(_e) => RunError::Memory,
            },
        }
    }
}

/// The refusal of a program that failed by this cause, which is a system's error. Lack of memory
/// isn't told as a failure.
pub(crate) fn failed_by<A: Allocator>(
    program: String<A>,
    error: io::Error,
    cause: FailureCause,
) -> RunError<A>
    ensures { IsFailedBy program error cause result }
{
    match error.kind() {
        ErrorKind::OutOfMemory => RunError::Memory,
        _ => RunError::Device { program, cause },
    }
}
