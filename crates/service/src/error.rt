ghost use Rattle.std.specs.Prelude.{◌≡◌, ◌↔◌, IsTrue};
ghost use Rattle.std.specs.IoError.{error_kind};
ghost use Rattle.std.specs.declared.io.ErrorKind.TheVariants.{WouldBlock};

use std::io;
use std::io::ErrorKind;
use thiserror::Error;

/// No more connections are served: none can be accepted, a wait failed, or memory is wanting.
#[derive(Debug, Drop, Error)]
#[error("no more connections are served after {accepted}: {fault}")]
pub struct NotAccepted {
    /// How many were accepted before. Each has ended.
    pub accepted: u64,
    /// The last fault.
    pub fault: io::Error,
}

/// Whether the fault says that the system has nothing yet.
pub(crate) fn finds_none(fault: &io::Error) -> bool
    ensures { IsTrue result ↔ (error_kind fault.now ≡ WouldBlock) }
{
    matches!(fault.kind(), ErrorKind::WouldBlock)
}
