ghost use Rattle.service.specs.Member.{GoesAfter};

use cache_server::ConnError;
use std::io;
use std::io::ErrorKind;

/// What a member can do, after a turn.
#[derive(Clone, Copy)]
pub(crate) enum Turn {
    /// It has more to do.
    Again,
    /// The system has nothing for it.
    Waits,
    /// It may not answer a request, or read more of one, before less is held.
    Held,
    /// It has ended.
    Ends(Result<(), ConnError>),
}

/// What comes of a call that failed: without memory, where the system has nothing for it, where it
/// was interrupted, and otherwise.
pub(crate) fn after_fault(fault: &io::Error, other: ConnError) -> Turn
    ensures { GoesAfter fault.now other result }
{
    match fault.kind() {
        ErrorKind::OutOfMemory => Turn::Ends(Err(ConnError::Memory)),
        ErrorKind::WouldBlock => Turn::Waits,
        ErrorKind::Interrupted => Turn::Again,
        _ => Turn::Ends(Err(other)),
    }
}
