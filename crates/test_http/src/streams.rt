//! Streams of a client in memory, of which one may be opened after the other.
use http_core::FailStream;
use remote::Stream;
use std::alloc::{AllocError, Global};
use std::io::ErrorKind;
use std::{io, mem};

/// What there is after the first stream.
#[derive(Drop)]
pub enum Next {
    /// The stream can't be opened anew.
    Never,
    /// The stream can be opened anew, but that fails.
    Refused,
    /// A stream that gives these bytes.
    Gives(Vec<u8>),
}

/// A stream, and the one that is opened after it, each of which gives and takes at most so many
/// bytes at once; and whether the first is open. The call that fails is counted over both.
#[derive(Drop)]
pub struct Streams {
    heap: Global,
    now: FailStream<Global>,
    next: Next,
    most: usize,
    open: bool,
}

impl Streams {
    /// A first stream that gives these bytes, and the next.
    pub fn new(
        heap: Global,
        bytes: &[u8],
        next: Next,
        most: usize,
        number: u64,
        open: bool,
    ) -> Result<Streams, AllocError> {
        let most = most.max(1);
        Ok(Streams {
            heap,
            now: FailStream::new(heap, Vec::from_slice(heap, bytes)?, most, number),
            next,
            most,
            open,
        })
    }

    /// What was sent over the stream that there is now.
    pub fn sent(&self) -> &[u8] {
        self.now.sent()
    }

    /// The call from here on that fails; 0 where none will.
    pub fn until_failure(&self) -> u64 {
        self.now.until_failure()
    }
}

impl Stream for Streams {
    ghost use Rattle.remote.specs.Flow.{unknown_flow};

    ghost flow = { λ _. unknown_flow };

    fn receive(&mut self, buf: &mut [u8]) -> io::Result<usize> {
        self.now.receive(buf)
    }

    fn send(&mut self, buf: &[u8]) -> io::Result<usize> {
        self.now.send(buf)
    }

    fn is_open(&self) -> bool {
        self.open
    }

    fn is_renewable(&self) -> bool {
        !matches!(self.next, Next::Never)
    }

    fn renew(&mut self) -> io::Result<()> {
        let next = mem::replace(&mut self.next, Next::Refused);
        let Next::Gives(bytes) = next else {
            return Err(io::Error::from(ErrorKind::ConnectionRefused));
        };
        let most = self.most.max(1);
        self.now = FailStream::new(self.heap, bytes, most, self.now.until_failure());
        self.open = true;
        Ok(())
    }
}
