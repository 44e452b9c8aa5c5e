ghost use Rattle.std.specs.Prelude.{◌≡◌};
ghost use Rattle.std.specs.IoError.{error_kind};
ghost use Rattle.std.specs.declared.io.ErrorKind.TheVariants.{OutOfMemory};

use cache_server::ConnError;
use std::io;
use std::io::ErrorKind;
use std::net::SocketAddr;

/// A connection that was accepted, by its peer: what there is of it, or why it has ended already.
#[derive(Drop)]
pub struct Accepted<T> {
    pub peer: SocketAddr,
    pub opened: Result<T, ConnError>,
}

/// What is read of a connection, and what is written to it.
#[derive(Drop)]
pub struct Streams<I, O> {
    pub reader: I,
    pub writer: O,
}

/// Why a connection has ended for which a call failed so as it was accepted.
pub(crate) fn lost_by(fault: &io::Error) -> ConnError
    ensures memory { error_kind fault.now ≡ OutOfMemory → result ≡ ConnError.Memory }
    ensures other { (error_kind fault.now ≡ OutOfMemory → ⊥) → result ≡ ConnError.ReadFault }
{
    match fault.kind() {
        ErrorKind::OutOfMemory => ConnError::Memory,
        _ => ConnError::ReadFault,
    }
}
