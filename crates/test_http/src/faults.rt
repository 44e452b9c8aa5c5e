//! A server of which a read or a write fails, or to which memory is refused.
use crate::rows::Row;
use crate::servers::{cache_of, prefix_of};
use crate::turns::first_length;
use cache_server::{ConnError, Counted, run};
use http_core::FailStream;
use std::alloc::{AllocError, Allocator};
use test_support::Refusing;

/// What came of a run over a stream: how it ended, its answers, and what the second stream is
/// answered after it, over the same cache.
#[derive(Drop)]
struct Ran {
    end: Result<(), ConnError>,
    answers: Vec<u8>,
    after: Vec<u8>,
}

impl Ran {
    /// Whether the other came to the same answers and the same cache.
    fn is_like(&self, other: &Ran) -> bool {
        self.answers == other.answers && self.after == other.after
    }
}

/// `fail_bytes ..` and `fail_pieces ..`: how many reads and writes a run over the stream has where
/// each gives or takes one byte, or 50,000 at most. Each fails in turn, and one beyond the last.
/// Tells where a run ends otherwise than with that fault, answers more or less than what was read
/// or a beginning, or leaves the cache otherwise than the requests up to then do. How many failed.
pub fn fail_each_byte(row: &Row<'_>, text: &mut String) -> Result<u64, AllocError> {
    fail_each_call(row, 1, text)
}

pub fn fail_each_piece(row: &Row<'_>, text: &mut String) -> Result<u64, AllocError> {
    fail_each_call(row, 50_000, text)
}

fn fail_each_call(row: &Row<'_>, most: usize, text: &mut String) -> Result<u64, AllocError> {
    let whole = run_over(row.heap, row, row.stream, most, (0, 0))?;
    let reads = fail_reads(row, most, &whole, text)?;
    let writes = fail_writes(row, most, &whole, text)?;
    writeln!(text, "{reads} reads and {writes} writes failed")?;
    Ok(reads.saturating_add(writes))
}

/// A run over the beginning of the stream whose read and write of these numbers fail.
fn run_over<A: Allocator + Copy>(
    alloc: A,
    row: &Row<'_>,
    stream: &[u8],
    most: usize,
    (read, write): (u64, u64),
) -> Result<Ran, AllocError> {
    let heap = row.heap;
    let mut cache = cache_of(alloc, row)?;
    let prefix = prefix_of(alloc, row)?;
    let most = most.max(1);
    let bytes = Vec::from_slice(heap, stream)?;
    let mut reader = Counted::new(FailStream::new(heap, bytes, most, read));
    let mut writer = FailStream::new(heap, Vec::new(heap), most, write);
    let end = run(alloc, &mut reader, &mut writer, &mut cache, &prefix);
    let mut later = Counted::new(row.next);
    let mut after = Vec::new(heap);
    if run(alloc, &mut later, &mut after, &mut cache, &prefix).is_err() {
        return Err(AllocError);
    }
    let answers = Vec::from_slice(heap, writer.sent())?;
    Ok(Ran {
        end,
        answers,
        after,
    })
}

/// After a read that fails, all is as a run over what was read before leaves it.
fn fail_reads(
    row: &Row<'_>,
    most: usize,
    whole: &Ran,
    text: &mut String,
) -> Result<u64, AllocError> {
    let mut came = 0usize;
    for number in 1..10_000u64 {
        let ran = run_over(row.heap, row, row.stream, most, (number, 0))?;
        if ran.end == Ok(()) && ran.is_like(whole) {
            return Ok(number - 1);
        }
        let (front, _) = row.stream.split_at(came.min(row.stream.len()));
        let expected = run_over(row.heap, row, front, most, (0, 0))?;
        if !(ran.end == Err(ConnError::ReadFault) && ran.is_like(&expected)) {
            writeln!(text, "otherwise where read {number} fails")?;
            return Ok(number);
        }
        came = came.saturating_add(most);
    }
    Ok(0)
}

/// After a write that fails, a beginning was answered, and the cache is as the requests up to the
/// first whose answer isn't written whole leave it.
fn fail_writes(
    row: &Row<'_>,
    most: usize,
    whole: &Ran,
    text: &mut String,
) -> Result<u64, AllocError> {
    for number in 1..10_000u64 {
        let ran = run_over(row.heap, row, row.stream, most, (0, number))?;
        if ran.end == Ok(()) && ran.is_like(whole) {
            return Ok(number - 1);
        }
        let expected = run_to(row, most, ran.answers.len().saturating_add(1))?;
        let begins = whole.answers.starts_with(&ran.answers) && ran.after == expected.after;
        if !(ran.end == Err(ConnError::WriteFault) && begins) {
            writeln!(text, "otherwise where write {number} fails")?;
            return Ok(number);
        }
    }
    Ok(0)
}

/// A run over the first requests, as few as are answered by so many bytes.
fn run_to(row: &Row<'_>, most: usize, least: usize) -> Result<Ran, AllocError> {
    let mut length = 0usize;
    for _ in 0..row.stream.len() {
        let (front, rest) = row.stream.split_at(length.min(row.stream.len()));
        let ran = run_over(row.heap, row, front, most, (0, 0))?;
        if ran.answers.len() >= least {
            return Ok(ran);
        }
        length = length.saturating_add(first_length(rest));
    }
    run_over(row.heap, row, row.stream, most, (0, 0))
}

/// `refuse_runs ..`: each request for memory of a run over the stream is refused in turn. Tells
/// where such a run ends otherwise than for lack of memory, answers more or less than the requests
/// before, or leaves the cache otherwise than these do. How many were refused and told as such.
pub fn refuse_runs(row: &Row<'_>, text: &mut String) -> Result<u64, AllocError> {
    let mut refused = 0u64;
    for number in 1..10_000u64 {
        let alloc = Refusing::new(row.heap, number);
        let ran = run_over(&alloc, row, row.stream, 1000, (0, 0));
        if !alloc.has_refused() {
            return Ok(refused);
        }
        if let Ok(ran) = ran {
            let expected = run_to(row, 1000, ran.answers.len())?;
            let is_told = matches!(ran.end, Ok(()) | Err(ConnError::Memory));
            if !(is_told && ran.is_like(&expected)) {
                writeln!(text, "otherwise where request {number} is refused")?;
            }
            refused = refused.saturating_add(ran.end.is_err() as u64);
        }
    }
    Ok(refused)
}
