ghost use Rattle.std.specs.Io.{ReadsAtMost, WritesAtMost};
ghost use Rattle.std.specs.Io.KnownBytes.{ReadConsumes, WriteAppends};

use std::io;
use std::io::{ErrorKind, Read, Write};

/// How often a system call that a signal interrupted is made again.
const BROKEN_OFF: u32 = 1000;

/// Reads, and reads again where a signal interrupted that: nothing was read then. (A process that
/// was stopped and goes on sees that, since the socket has a limit on silence.)
pub(crate) fn read_again<T: Read>(reader: &mut T, buf: &mut [u8]) -> io::Result<usize>
    ensures bound { ReadsAtMost result buf.new }
    ensures bytes { ReadConsumes (T.remaining reader.old) (T.remaining reader.new) result buf.new }
{
    for _ in 0..BROKEN_OFF {
        match reader.read(buf) {
            Err(fault) if fault.kind() == ErrorKind::Interrupted => {}
            done => return done,
        }
    }
    Err(io::Error::from(ErrorKind::Interrupted))
}

/// Writes, and writes again where a signal interrupted that.
pub(crate) fn write_again<T: Write>(writer: &mut T, buf: &[u8]) -> io::Result<usize>
    ensures bound { WritesAtMost result buf.now }
    ensures bytes { WriteAppends (T.contents writer.old) (T.contents writer.new) result buf.now }
{
    for _ in 0..BROKEN_OFF {
        match writer.write(buf) {
            Err(fault) if fault.kind() == ErrorKind::Interrupted => {}
            done => return done,
        }
    }
    Err(io::Error::from(ErrorKind::Interrupted))
}
