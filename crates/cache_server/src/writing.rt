ghost use Rattle.std.specs.Prelude.{◌≡◌, OnErr, OnOk, IfErr};
ghost use Rattle.std.specs.Io.KnownBytes.{Appends};
ghost use Rattle.cache_server.specs.Answer.{text_of};
ghost use Rattle.cache_server.specs.Writing.{WritesSome};

use crate::answer::Answer;
use crate::error::ConnError;
use crate::streams::Outgoing;
use std::alloc::Allocator;

/// The most bytes that are written at once.
const PIECE: usize = 65536;

/// Writes the bytes, piece after piece. A write that takes none is a fault.
fn write_out<W: Outgoing>(writer: &mut W, bytes: &[u8]) -> Result<(), ConnError>
    ensures ok { OnOk result
        (Appends (W.contents writer.old) (W.contents writer.new) bytes.now) }
    ensures err { OnErr result
        (WritesSome (W.contents writer.old) (W.contents writer.new) bytes.now) }
    ensures fault { IfErr result (λ e. e ≡ ConnError.WriteFault) }
    ensures broken { OnErr result (W.broken writer.new) }
    ensures pieces { W.in_pieces writer.old → W.in_pieces writer.new }
{
    let mut rest = bytes;
    while !rest.is_empty() {
        let (piece, _) = rest.split_at(rest.len().min(PIECE));
        let Ok(count) = writer.write(piece) else {
            return Err(ConnError::WriteFault);
        };
        if count == 0 {
            return Err(ConnError::WriteFault);
        }
        let (_, more) = rest.split_at(count);
        rest = more;
    }
    Ok(())
}

/// Writes an answer: its head and then its body, which isn't copied.
pub(crate) fn write_answer<A: Allocator, W: Outgoing>(
    writer: &mut W,
    answer: &Answer<A>,
) -> Result<(), ConnError>
    ensures ok { OnOk result
        (Appends (W.contents writer.old) (W.contents writer.new) (text_of answer.now)) }
    ensures err { OnErr result
        (WritesSome (W.contents writer.old) (W.contents writer.new) (text_of answer.now)) }
    ensures fault { IfErr result (λ e. e ≡ ConnError.WriteFault) }
    ensures broken { OnErr result (W.broken writer.new) }
    ensures pieces { W.in_pieces writer.old → W.in_pieces writer.new }
{
    write_out(writer, answer.head())?;
    write_out(writer, answer.body())
}
