use std::cell::Cell;
use std::io;
use std::io::{Read, Write};

/// Gives one piece at each read, and notes how many bytes of answers were flushed before it.
#[derive(Drop)]
pub struct TurnReader<'a> {
    pub pieces: &'a [&'a [u8]],
    pub flushed: &'a Cell<usize>,
    pub noted: Vec<usize>,
}

impl Read for TurnReader<'_> {
    fn read(&mut self, buf: &mut [u8]) -> io::Result<usize> {
        let number = self.noted.len();
        self.noted.push(self.flushed.get())?;
        match self.pieces.get(number) {
            Some(piece) => {
                let mut bytes = *piece;
                bytes.read(buf)
            }
            None => Ok(0),
        }
    }
}

/// Takes all that it is offered, and keeps it. It notes the most bytes that it was offered at once,
/// and how many it had when it was last flushed.
#[derive(Drop)]
pub struct NotingWriter<'a> {
    pub taken: Vec<u8>,
    pub longest: usize,
    pub flushed: &'a Cell<usize>,
}

impl<'a> NotingWriter<'a> {
    /// Nothing was written yet.
    pub fn new(taken: Vec<u8>, flushed: &'a Cell<usize>) -> NotingWriter<'a> {
        NotingWriter {
            taken,
            longest: 0,
            flushed,
        }
    }
}

impl Write for NotingWriter<'_> {
    fn write(&mut self, buf: &[u8]) -> io::Result<usize> {
        self.longest = self.longest.max(buf.len());
        self.taken.write(buf)
    }

    fn flush(&mut self) -> io::Result<()> {
        self.flushed.set(self.taken.len());
        Ok(())
    }
}
