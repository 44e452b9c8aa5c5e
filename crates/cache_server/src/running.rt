ghost use Rattle.std.specs.Prelude.{◌≡◌, ◌<◌, ◌≤◌, ◌⊎◌, length, take, IfOk, IfErr, OnErr, OnOk};
ghost use Rattle.std.specs.Io.KnownBytes.{Consumes, IsAtEnd, Keeps};
ghost use Rattle.cache_server.specs.Connection.{BreaksOff, IsFoundBy, Runs};

use crate::answering::answer_and_flush;
use crate::cache::Cache;
use crate::error::ConnError;
use crate::streams::{Incoming, Outgoing};
use http_core::{Prefix, Session};
use std::alloc::Allocator;

/// The most bytes that are read at once.
const PIECE: usize = 65536;

/// Answers the requests that the reader gives, until it ends or one of them closes. The answers to
/// a piece are written, and flushed, before the next piece is read. `ReadFault` or `WriteFault`
/// where the reader or the writer failed, and `Memory`: the cache is as the requests up to then
/// left it.
pub fn run<A: Allocator + Copy, R: Incoming, W: Outgoing>(
    alloc: A,
    reader: &mut R,
    writer: &mut W,
    cache: &mut Cache<A>,
    prefix: &Prefix<A>,
) -> Result<(), ConnError>
    ensures ok { OnOk result (Runs prefix.now cache.old
        (R.remaining reader.old) (R.remaining reader.new)
        (W.contents writer.old) (W.contents writer.new) cache.new) }
    ensures err { IfErr result (BreaksOff prefix.now cache.old
        (R.remaining reader.old) (R.remaining reader.new)
        (W.contents writer.old) (W.contents writer.new) cache.new) }
    ensures faults { IfErr result (IsFoundBy (R.broken reader.new) (W.broken writer.new)) }
    // Nothing is held back, if nothing was before; after a fault so it is unless the writer failed.
    ensures flushed { OnOk result (W.flushed writer.old → W.flushed writer.new) }
    ensures sent_on { OnErr result
        (W.broken writer.new ⊎ (W.flushed writer.old → W.flushed writer.new)) }
    ensures pieces { W.in_pieces writer.old → W.in_pieces writer.new }
{
    let mut session = Session::new(alloc, prefix)?;
    let mut buffer = [0; PIECE];
    loop {
        let count = read_some(reader, &mut buffer)?;
        let (piece, _) = buffer.split_at(count);
        if count == 0 {
            return Ok(());
        }
        let events = session.feed(alloc, piece)?;
        answer_and_flush(alloc, cache, events, writer)?;
        if !session.is_open() {
            return Ok(());
        }
    }
}

/// Reads bytes into the buffer, and gives how many they are: none at the end of the input. What
/// fails here is the reader.
fn read_some<R: Incoming>(reader: &mut R, buffer: &mut [u8]) -> Result<usize, ConnError>
    ensures ok { IfOk result (λ count. Consumes (R.remaining reader.old) (R.remaining reader.new)
        (take count buffer.new)) }
    ensures end { IfOk result (λ count. count ≡ 0 → 0 < length buffer.old
        → IsAtEnd (R.remaining reader.new)) }
    ensures within { IfOk result (λ count. count ≤ length buffer.old) }
    ensures fewer { IfOk result (λ count. 0 < count → R.left reader.new < R.left reader.old) }
    ensures buffer { length buffer.new ≡ length buffer.old }
    ensures err { OnErr result (Keeps (R.remaining reader.old) (R.remaining reader.new)) }
    ensures fault { IfErr result (λ e. e ≡ ConnError.ReadFault) }
    ensures broken { OnErr result (R.broken reader.new) }
{
    match reader.read(buffer) {
        Ok(count) => Ok(count),
        Err(_) => Err(ConnError::ReadFault),
    }
}
