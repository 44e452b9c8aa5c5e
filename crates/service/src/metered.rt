ghost use Rattle.std.specs.Prelude.{◌≡◌, ◌↔◌, IfErr, IsTrue};
ghost use Rattle.std.specs.Io.{ReadsAtMost, WritesAtMost};
ghost use Rattle.std.specs.IoError.{error_kind};
ghost use Rattle.std.specs.declared.io.ErrorKind.TheVariants.{Interrupted};

use std::io;
use std::io::{ErrorKind, Read, Write};
use std::net::TcpStream;

/// One way of a stream, and how many bytes have passed there.
#[derive(Drop)]
pub struct Metered {
    pub(crate) stream: TcpStream,
    pub(crate) bytes: u64,
}

impl Metered {
    pub(crate) fn new(stream: TcpStream) -> Metered {
        Metered { stream, bytes: 0 }
    }
}

impl Read for Metered {
    fn read(&mut self, buf: &mut [u8]) -> io::Result<usize> {
        let count = read_on(&mut self.stream, buf)?;
        self.bytes = self.bytes.saturating_add(count as u64);
        Ok(count)
    }
}

impl Write for Metered {
    fn write(&mut self, buf: &[u8]) -> io::Result<usize> {
        let count = write_on(&mut self.stream, buf)?;
        self.bytes = self.bytes.saturating_add(count as u64);
        Ok(count)
    }

    fn flush(&mut self) -> io::Result<()> {
        self.stream.flush()
    }
}

/// Reads some bytes, also where that is interrupted: the process was stopped, and goes on.
fn read_on<R: Read>(stream: &mut R, buf: &mut [u8]) -> io::Result<usize>
    ensures bound { ReadsAtMost result buf.new }
    ensures on { IfErr result (λ e. error_kind e ≡ Interrupted → ⊥) }
{
    for _ in 0..u64::MAX {
        match stream.read(buf) {
            Err(fault) if was_interrupted(&fault) => (),
            read => return read,
        }
    }
    Err(io::Error::from(ErrorKind::TimedOut))
}

/// Writes some of the bytes, also where that is interrupted.
fn write_on<W: Write>(stream: &mut W, buf: &[u8]) -> io::Result<usize>
    ensures bound { WritesAtMost result buf.now }
    ensures on { IfErr result (λ e. error_kind e ≡ Interrupted → ⊥) }
{
    for _ in 0..u64::MAX {
        match stream.write(buf) {
            Err(fault) if was_interrupted(&fault) => (),
            written => return written,
        }
    }
    Err(io::Error::from(ErrorKind::TimedOut))
}

/// Whether the call did nothing, and is to be made again.
fn was_interrupted(fault: &io::Error) -> bool
    ensures { IsTrue result ↔ (error_kind fault.now ≡ Interrupted) }
{
    matches!(fault.kind(), ErrorKind::Interrupted)
}
