use std::alloc::AllocError;
use std::error::Error;
use std::fmt;

/// Why a server gave no answer.
#[derive(Clone, Copy, Debug, PartialEq, Eq)]
pub enum Fault {
    /// The stream ended or failed within a request or a reply, or couldn't be opened anew.
    Io,
    /// What came isn't a reply that a client here reads: one of HTTP/1.1 with one `Content-Length`.
    BadReply,
    /// The reply has another status than those that answer.
    Status(u16),
    /// An earlier call was refused, or a reply closed a stream that isn't opened anew.
    Broken,
}

impl fmt::Display for Fault {
    ghost use Rattle.std.specs.Prelude.{Some};
    ghost use Rattle.remote.specs.Fault.{fault_text};

    ghost output = { λ fault. Some (fault_text fault) };

    fn fmt<W: fmt::Write>(&self, f: &mut fmt::Formatter<W>) -> fmt::Result {
        match self {
            Fault::Io => write!(f, "the connection failed, ended, or was silent too long"),
            Fault::BadReply => write!(
                f,
                "the server's reply isn't of HTTP/1.1 with one Content-Length of at most 16777216"
            ),
            Fault::Status(status) => write!(f, "the server answered with status {status}"),
            Fault::Broken => write!(f, "the connection is closed"),
        }
    }
}

impl Error for Fault {}

/// Why no reply came.
#[derive(Clone, Copy, Debug, PartialEq, Eq)]
pub(crate) enum Refusal {
    /// The stream ended or failed.
    Io,
    /// What came isn't a reply that is read here.
    BadReply,
    /// No memory was left.
    Memory,
}

impl From<AllocError> for Refusal {
    ghost use Rattle.std.specs.Prelude.{◌≡◌};
    ghost use Rattle.remote.specs.declared.fault.Refusal.TheVariants.{Memory};

    ghost from_gives = { λ _ e. e ≡ Memory };

    fn from(_e: AllocError) -> Refusal {
        Refusal::Memory
    }
}
