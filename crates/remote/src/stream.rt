ghost use Rattle.std.specs.Prelude.{◌≡◌, ◌↔◌, [], false, IfSome, IsTrue, MatchResult, OnErr, OnOk};
ghost use Rattle.std.specs.Prelude.{Some};
ghost use Rattle.std.specs.Io.{ReadsAtMost, WritesAtMost};
ghost use Rattle.std.specs.Io.KnownBytes.{ReadConsumes, WriteAppends};
ghost use Rattle.std.specs.IoError.{error_kind};
ghost use Rattle.remote.specs.Flow.{Flow, IsOpenedAnew, IsSameStream, StaysClosed, TellsStop};
ghost use Rattle.remote.specs.Flow.{unknown_flow};

use std::io;
use std::io::{ErrorKind, Read, Write};
use std::net::TcpStream;

/// What gives and takes bytes, each direction apart from the other.
pub trait Stream {
    /// The bytes that are to come, also once it is opened anew, those sent, whether it is open and
    /// can be opened anew, how often it was and couldn't be, and whether it has stopped, where that
    /// is known.
    ghost flow: { Self → Flow };

    /// Reads some bytes, none only at the end or with no room.
    fn receive(&mut self, buf: &mut [u8]) -> io::Result<usize>
        ensures bound { ReadsAtMost result buf.new }
        ensures bytes { ReadConsumes (flow self.old).coming (flow self.new).coming result buf.new }
        ensures kept { (flow self.new).sent ≡ (flow self.old).sent }
        ensures stop { TellsStop result (flow self.new) }
        ensures same { IsSameStream (flow self.old) (flow self.new) };

    /// Writes some of the bytes.
    fn send(&mut self, buf: &[u8]) -> io::Result<usize>
        ensures bound { WritesAtMost result buf.now }
        ensures bytes { WriteAppends (flow self.old).sent (flow self.new).sent result buf.now }
        ensures kept { (flow self.new).coming ≡ (flow self.old).coming }
        ensures stop { TellsStop result (flow self.new) }
        ensures same { IsSameStream (flow self.old) (flow self.new) };

    /// Whether the other side hasn't closed it, so far as that can be told.
    fn is_open(&self) -> bool
        ensures { IfSome (flow self.now).is_open (λ is. result ≡ is) };

    /// Whether it can be opened anew at all.
    fn is_renewable(&self) -> bool
        ensures { IfSome (flow self.now).is_renewable (λ is. result ≡ is) };

    /// Opens it anew to the same peer. Nothing is sent by that.
    fn renew(&mut self) -> io::Result<()>
        ensures sent { (flow self.new).sent ≡ (flow self.old).sent }
        ensures opened { OnOk result (IsOpenedAnew (flow self.old) (flow self.new)) }
        ensures err { OnErr result (StaysClosed (flow self.old) (flow self.new)) };
}

/// A socket, of whose bytes nothing is known. It isn't opened anew.
impl Stream for TcpStream {
    ghost flow = { λ _. record unknown_flow { later = Some []; is_renewable = Some false } };

    fn receive(&mut self, buf: &mut [u8]) -> io::Result<usize> {
        self.read(buf)
    }

    fn send(&mut self, buf: &[u8]) -> io::Result<usize> {
        self.write(buf)
    }

    // Nothing is to come before a request: what does come is no part of its reply.
    fn is_open(&self) -> bool {
        if self.set_nonblocking(true).is_err() {
            return false;
        }
        let came = self.peek(&mut [0]);
        let waits = self.set_nonblocking(false);
        waits.is_ok() && would_wait(came)
    }

    fn is_renewable(&self) -> bool {
        false
    }

    fn renew(&mut self) -> io::Result<()> {
        Err(io::Error::from(ErrorKind::Unsupported))
    }
}

/// Whether a read that doesn't wait found nothing so far.
fn would_wait(came: io::Result<usize>) -> bool
    ensures { MatchResult came (λ _. result ≡ false)
        (λ fault. IsTrue result ↔ (error_kind fault ≡ ErrorKind.WouldBlock)) }
{
    match came {
        Ok(_) => false,
        Err(fault) => fault.kind() == ErrorKind::WouldBlock,
    }
}
