ghost use Rattle.std.specs.Prelude.{◌≡◌};

use crate::streams::Incoming;
use std::io;
use std::io::{ErrorKind, Read};

/// A reader of which only so many reads are made, 2^64 - 1 at most: each one after these fails. Of
/// the reader's own faults nothing is known.
#[derive(Drop)]
pub struct Counted<R> {
    pub reader: R,
    left: u64,
}

impl<R: Read> Counted<R> {
    pub fn new(reader: R) -> Counted<R>
        ensures reader { result.reader ≡ reader }
        ensures left { ⟦<Counted<R> as Incoming>⟧.left result ≡ u64.MAX }
    {
        Counted {
            reader,
            left: u64::MAX,
        }
    }
}

impl<R: Read> Incoming for Counted<R> {
    ghost remaining = { λ it. R.remaining it.reader };

    ghost broken = { λ _. Unit {0} };

    ghost left = { λ it. it.left };

    fn read(&mut self, buffer: &mut [u8]) -> io::Result<usize> {
        if self.left == 0 {
            return Err(io::Error::from(ErrorKind::TimedOut));
        }
        self.left -= 1;
        self.reader.read(buffer)
    }
}
