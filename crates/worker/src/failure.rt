ghost use Rattle.std.specs.Prelude.{◌≡◌, IfOk, string_bytes};
ghost use Rattle.worker.specs.Values.{program_of};

use actions::Command;
use std::alloc::{AllocError, Allocator};
use std::io;

/// Why a process came to nothing, as the system told it.
#[derive(Clone, Copy, Debug)]
pub enum FailureCause {
    /// The process couldn't be started.
    Unstarted(io::Error),
    /// The process couldn't be waited for.
    Unwaited(io::Error),
    /// What the process left at its output paths couldn't be read.
    Unread(io::Error),
    /// The signal with this number ended the process.
    Signal(i32),
}

/// The program that a command names: its first word.
pub fn program_of<A: Allocator, B: Allocator>(
    alloc: A,
    command: &Command<B>,
) -> Result<String<A>, AllocError>
    ensures { IfOk result (λ program. string_bytes program ≡ program_of command.now) }
{
    match command.arguments() {
        [program, ..] => String::from_str(alloc, program.as_str()),
        [] => Ok(String::new(alloc)),
    }
}
