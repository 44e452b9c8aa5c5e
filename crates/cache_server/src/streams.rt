ghost use Rattle.std.specs.Prelude.{◌≡◌, ◌<◌, ◌≤◌, ℕ, List, Option, IfOk, OnErr, OnOk, length};
ghost use Rattle.std.specs.Io.{ReadsAtMost, WritesAtMost};
ghost use Rattle.std.specs.Io.KnownBytes.{Keeps, ReadConsumes, WriteAppends};

use std::io;
use std::io::Write;

/// Where the bytes of a connection come from.
pub trait Incoming {
    /// The bytes that reads will give from here on, where they are known.
    ghost remaining: { Self → Option (List ℕ) };

    /// That a read has failed. Only that read says so.
    ghost broken: { Self → Type 0 };

    /// How many reads may bring something yet: one that does leaves fewer.
    ghost left: { Self → ℕ };

    /// Reads some bytes into the buffer, none only at the end or with no room.
    fn read(&mut self, buffer: &mut [u8]) -> io::Result<usize>
        ensures bound { ReadsAtMost result buffer.new }
        ensures bytes { ReadConsumes (remaining self.old) (remaining self.new) result buffer.new }
        ensures fewer { IfOk result (λ count. 0 < count → left self.new < left self.old) }
        ensures broken { OnErr result (broken self.new) };
}

/// Where the answers of a connection go.
pub trait Outgoing {
    /// The bytes that were written, where they are known.
    ghost contents: { Self → Option (List ℕ) };

    /// That a write or a flush has failed, or a write took nothing. Only that call says so.
    ghost broken: { Self → Type 0 };

    /// That nothing is held back. Only a flush says so.
    ghost flushed: { Self → Type 0 };

    /// That no write had more than 65,536 bytes. Only the calls keep it so.
    ghost in_pieces: { Self → Type 0 };

    /// Writes some of the bytes.
    fn write(&mut self, bytes: &[u8]) -> io::Result<usize>
        ensures bound { WritesAtMost result bytes.now }
        ensures bytes { WriteAppends (contents self.old) (contents self.new) result bytes.now }
        ensures broken { OnErr result (broken self.new) }
        ensures none { IfOk result (λ count. count ≡ 0 → 0 < length bytes.now → broken self.new) }
        ensures pieces { length bytes.now ≤ 65536 → in_pieces self.old → in_pieces self.new };

    /// Sends on what is held back.
    fn flush(&mut self) -> io::Result<()>
        ensures bytes { Keeps (contents self.old) (contents self.new) }
        ensures broken { OnErr result (broken self.new) }
        ensures flushed { OnOk result (flushed self.new) }
        ensures pieces { in_pieces self.old → in_pieces self.new };
}

/// A writer, of whose faults and writes nothing is known.
impl<W: Write> Outgoing for W {
    ghost contents = { W.Write.contents };

    ghost broken = { λ _. Unit {0} };

    ghost flushed = { λ _. Unit {0} };

    ghost in_pieces = { λ _. Unit {0} };

    fn write(&mut self, bytes: &[u8]) -> io::Result<usize> {
        Write::write(self, bytes)
    }

    fn flush(&mut self) -> io::Result<()> {
        Write::flush(self)
    }
}
