ghost use Rattle.std.specs.Prelude.{◌≡◌, ℕ, ◌<◌, ◌≤◌, List, length, IfOk, IfErr, OnOk};
ghost use Rattle.http_core.specs.Block.{IsBlock};
ghost use Rattle.remote.specs.Flow.{Sends, Receives};
ghost use Rattle.remote.specs.Reply.{RoundTrip, NextReply, reply_value};
ghost use Rattle.remote.specs.Steps.{Adds, ComesNone, Interrupts, InterruptsBody, ReadsNone};
ghost use Rattle.remote.specs.Steps.{SendsNoMore};

use crate::block::wanting;
use crate::fault::Refusal;
use crate::stream::Stream;
use http_core::{MAX_BLOCK, read_reply_head};
use std::alloc::Allocator;

/// As many bytes as a block's end has.
const END: usize = 4;

/// The greatest length of a piece that is read at once.
const PIECE: usize = 16384;

/// What a server answered.
#[derive(Drop)]
pub(crate) struct Reply<A: Allocator> {
    pub(crate) status: u16,
    pub(crate) body: Vec<u8, A>,
    pub(crate) close: bool,
}

/// Sends a request, and reads its reply.
pub(crate) fn exchange<S: Stream, A: Allocator + Copy>(
    alloc: A,
    stream: &mut S,
    request: &[u8],
) -> Result<Reply<A>, Refusal>
    ensures ok { IfOk result (λ reply. RoundTrip (S.flow stream.old) (S.flow stream.new)
        request.now (reply_value reply)) }
    ensures err { IfErr result (ComesNone (S.flow stream.old) (S.flow stream.new) request.now) }
{
    send_all(stream, request)?;
    read_reply(alloc, stream)
}

/// Sends the bytes. A stream that takes none has failed.
fn send_all<S: Stream>(stream: &mut S, bytes: &[u8]) -> Result<(), Refusal>
    ensures ok { OnOk result (Sends (S.flow stream.old) (S.flow stream.new) bytes.now) }
    ensures err { IfErr result (SendsNoMore (S.flow stream.old) (S.flow stream.new) bytes.now) }
{
    let mut rest = bytes;
    while !rest.is_empty() {
        let Ok(count) = stream.send(rest) else {
            return Err(Refusal::Io);
        };
        if count == 0 {
            return Err(Refusal::Io);
        }
        let (_, behind) = rest.split_at(count);
        rest = behind;
    }
    Ok(())
}

/// Reads the next reply.
fn read_reply<S: Stream, A: Allocator + Copy>(alloc: A, stream: &mut S) -> Result<Reply<A>, Refusal>
    ensures ok { IfOk result (λ reply. NextReply (S.flow stream.old) (S.flow stream.new)
        (reply_value reply)) }
    ensures err { IfErr result (ReadsNone (S.flow stream.old) (S.flow stream.new)) }
{
    let block = read_block(alloc, stream)?;
    let Some(head) = read_reply_head(&block) else {
        return Err(Refusal::BadReply);
    };
    let body = read_body(alloc, stream, head.length as usize)?;
    Ok(Reply {
        status: head.status,
        body,
        close: head.close,
    })
}

/// Reads the next block. What follows it isn't to be read with it, so at most as many bytes are
/// read at once as are missing in any case.
fn read_block<S: Stream, A: Allocator + Copy>(
    alloc: A,
    stream: &mut S,
) -> Result<Vec<u8, A>, Refusal>
    ensures block { IfOk result (λ block. IsBlock block.items) }
    ensures fits { IfOk result (λ block. length block.items ≤ 16384) }
    ensures read { IfOk result (λ block. Receives (S.flow stream.old)
        (S.flow stream.new) block.items) }
    ensures err { IfErr result (ReadsNone (S.flow stream.old) (S.flow stream.new)) }
{
    let mut buffer = [0; END];
    let mut block = Vec::new(alloc);
    let mut missing = wanting(&block);
    while missing > 0 {
        let room = MAX_BLOCK - block.len();
        if room == 0 {
            return Err(Refusal::BadReply);
        }
        receive_piece(stream, &mut block, missing.min(room), &mut buffer)?;
        missing = wanting(&block);
    }
    Ok(block)
}

/// Reads a body of this length.
fn read_body<S: Stream, A: Allocator + Copy>(
    alloc: A,
    stream: &mut S,
    size: usize,
) -> Result<Vec<u8, A>, Refusal>
    ensures body { IfOk result (λ body. length body.items ≡ size) }
    ensures read { IfOk result (λ body. Receives (S.flow stream.old)
        (S.flow stream.new) body.items) }
    ensures err { IfErr result (InterruptsBody (S.flow stream.old) (S.flow stream.new) size) }
{
    let mut buffer = [0; PIECE];
    let mut body = Vec::new(alloc);
    while body.len() < size {
        let missing = size - body.len();
        receive_piece(stream, &mut body, missing, &mut buffer)?;
    }
    Ok(body)
}

/// Adds some bytes that are read, at most `most`, to those at hand. They go through the buffer.
fn receive_piece<S: Stream, A: Allocator + Copy>(
    stream: &mut S,
    bytes: &mut Vec<u8, A>,
    most: usize,
    buffer: &mut [u8],
) -> Result<(), Refusal>
    requires some { 0 < most }
    requires room { 0 < length buffer.old }
    ensures ok { OnOk result (Adds (S.flow stream.old)
        (S.flow stream.new) most bytes.old.items bytes.new.items) }
    ensures err { IfErr result (Interrupts (S.flow stream.old) (S.flow stream.new)) }
    ensures buffer { length buffer.new ≡ length buffer.old }
{
    let (room, _) = buffer.split_at_mut(most.min(buffer.len()));
    let Ok(count) = stream.receive(room) else {
        return Err(Refusal::Io);
    };
    if count == 0 {
        return Err(Refusal::Io);
    }
    let (came, _) = room.split_at(count);
    bytes.extend_from_slice(came)?;
    Ok(())
}
