//! What is flushed before each read of a connection.
ghost use Rattle.std.specs.Prelude.{◌≤◌, length};

use crate::noting::{NotingWriter, TurnReader};
use crate::rows::Row;
use crate::servers::{cache_of, prefix_of};
use blob_digest::Digest;
use cache_server::{ConnError, Counted, run};
use std::alloc::{AllocError, Allocator};
use std::cell::Cell;

/// `turns ..`: how many bytes of answers were flushed before each read. A read gives one request of
/// the first stream, and the last read all of the second. Whatever came of the run, nothing that is
/// written may be held back at its end.
pub fn turns<A: Allocator + Copy>(
    alloc: A,
    row: &Row<'_>,
    text: &mut String,
) -> Result<(), AllocError> {
    let pieces = pieces_of(row)?;
    let flushed = Cell::new(0);
    let mut reader = Counted::new(TurnReader {
        pieces: &pieces,
        flushed: &flushed,
        noted: Vec::new(row.heap),
    });
    let mut writer = NotingWriter::new(Vec::new(row.heap), &flushed);
    let end = run_turns(alloc, row, &mut reader, &mut writer);
    tell_reads(&reader.reader.noted, text)?;
    if writer.taken.len() != flushed.get() {
        text.push_str("not flushed at the end\n")?;
    }
    match end {
        Ok(()) => text.push_str("done\n"),
        Err(ConnError::Memory) => Err(AllocError),
        Err(_) => text.push_str("a fault\n"),
    }
}

/// `digest ..`: the digest of what a run over the stream in its pieces answers, and the most bytes
/// that are written at once.
pub fn digest<A: Allocator + Copy>(
    alloc: A,
    row: &Row<'_>,
    text: &mut String,
) -> Result<(), AllocError> {
    let pieces = row.pieces()?;
    let flushed = Cell::new(0);
    let mut reader = Counted::new(TurnReader {
        pieces: &pieces,
        flushed: &flushed,
        noted: Vec::new(row.heap),
    });
    let mut writer = NotingWriter::new(Vec::new(row.heap), &flushed);
    if run_turns(alloc, row, &mut reader, &mut writer).is_err() {
        return Err(AllocError);
    }
    let digest = Digest::of(&writer.taken).write_text(row.heap)?;
    writeln!(text, "{digest} in at most {} bytes at once", writer.longest)
}

fn run_turns<A: Allocator + Copy>(
    alloc: A,
    row: &Row<'_>,
    reader: &mut Counted<TurnReader<'_>>,
    writer: &mut NotingWriter<'_>,
) -> Result<(), ConnError> {
    let mut cache = cache_of(alloc, row)?;
    let prefix = prefix_of(alloc, row)?;
    run(alloc, reader, writer, &mut cache, &prefix)
}

fn tell_reads(noted: &[usize], text: &mut String) -> Result<(), AllocError> {
    for (at, length) in noted.iter().enumerate() {
        let number = at.saturating_add(1);
        writeln!(text, "read {number}: {length} bytes flushed before")?;
    }
    Ok(())
}

/// The requests of the first stream, and all of the second.
fn pieces_of<'a>(row: &Row<'a>) -> Result<Vec<&'a [u8]>, AllocError> {
    let mut requests = Vec::new(row.heap);
    let mut rest = row.stream;
    for _ in 0..row.stream.len() {
        let (request, later) = rest.split_at(first_length(rest));
        rest = later;
        if !request.is_empty() {
            requests.push(request)?;
        }
    }
    requests.push(row.next)?;
    Ok(requests)
}

/// The length of the first request, up to where another begins.
pub fn first_length(stream: &[u8]) -> usize
    ensures { result ≤ length stream.now }
{
    for at in 1..stream.len() {
        let (_, rest) = stream.split_at(at);
        if rest.starts_with(b"PUT /") || rest.starts_with(b"GET /") {
            return at;
        }
    }
    stream.len()
}
