//! A client over a stream in memory.
use crate::rows::Row;
use crate::streams::{Next, Streams};
use crate::text::show;
use crate::texts::{host_of, prefix_of};
use blob_digest::Digest;
use blob_source::{BlobSink, BlobSource, FetchError};
use remote::*;
use std::alloc::{AllocError, Allocator, Global};

/// `ask CALL, CALL ..`: what each call comes to over the stream, and over the next where that is
/// opened anew. `ask closed: ..`: where the first isn't open. `ask refused: ..`: where opening it
/// anew fails.
pub fn ask<A: Allocator + Copy>(
    alloc: A,
    row: &Row<'_>,
    text: &mut String,
) -> Result<(), AllocError> {
    let mut remote = client(alloc, row, 0)?;
    call_all(alloc, row, &mut remote, text)
}

/// `sent CALL, CALL ..`: what these calls send, over the next stream where that is opened.
pub fn sent<A: Allocator + Copy>(
    alloc: A,
    row: &Row<'_>,
    text: &mut String,
) -> Result<(), AllocError> {
    let mut remote = client(alloc, row, 0)?;
    let mut told = String::new(row.heap);
    let end = call_all(alloc, row, &mut remote, &mut told);
    if end.is_ok() || row.next.is_empty() {
        show(row.heap, remote.stream().sent(), text)?;
    }
    end
}

/// `fail_each CALL, CALL ..`: how many calls of the stream there are where each gives or takes one
/// byte, of which each fails in turn, and one beyond the last. Tells where the client's calls don't
/// end with the stream's fault, after which all are refused. How many failed.
pub fn fail_each(row: &Row<'_>, text: &mut String) -> Result<u64, AllocError> {
    let mut expected = String::new(row.heap);
    ask(row.heap, row, &mut expected)?;
    let whole = fail_each_call(row, expected.as_str(), text)?;
    let lengths = [1, 1, 1];
    let bytes = fail_each_call(&Row { lengths, ..*row }, expected.as_str(), text)?;
    writeln!(text, "{bytes} calls failed")?;
    Ok(whole.saturating_add(bytes))
}

fn fail_each_call(row: &Row<'_>, expected: &str, text: &mut String) -> Result<u64, AllocError> {
    for number in 1..10_000u64 {
        let mut remote = client(row.heap, row, number)?;
        let mut told = String::new(row.heap);
        let faulty = call_till_fault(row.heap, row, &mut remote, &mut told)?;
        let reached = remote.stream().until_failure() == 0;
        if !reached && !faulty && told.as_str() == expected {
            return Ok(number - 1);
        }
        let fault = remote.last_fault();
        let is_told = reached && faulty && fault == Some(Fault::Io);
        if !(is_told && expected.starts_with(told.as_str()) && is_over(row.heap, &mut remote)) {
            write!(text, "otherwise where call {number} fails\n{told}")?;
            return Ok(number);
        }
    }
    Ok(0)
}

/// What a row says of its streams before its calls, and the calls.
fn calls_of<'a>(row: &Row<'a>) -> (&'a str, &'a str) {
    row.words.split_once(": ").unwrap_or(("", row.words))
}

/// A client of `h:80` with the prefix `/p`, of whose stream the call of this number fails.
fn client<A: Allocator + Copy>(
    alloc: A,
    row: &Row<'_>,
    number: u64,
) -> Result<Remote<Streams, A>, AllocError> {
    let stream = stream_of(row, number)?;
    let host = host_of(alloc, "h:80")?;
    let prefix = prefix_of(alloc, "/p")?;
    Remote::new(alloc, stream, &host, &prefix)
}

fn stream_of(row: &Row<'_>, number: u64) -> Result<Streams, AllocError> {
    let (state, _) = calls_of(row);
    let next = if state == "refused" {
        Next::Refused
    } else if row.next.is_empty() {
        Next::Never
    } else {
        Next::Gives(Vec::from_slice(row.heap, row.next)?)
    };
    let most = row.lengths[0];
    Streams::new(row.heap, row.stream, next, most, number, state != "closed")
}

/// Adds what each call comes to, up to a refusal of memory, after which nothing may come.
fn call_all<A: Allocator + Copy>(
    alloc: A,
    row: &Row<'_>,
    remote: &mut Remote<Streams, A>,
    text: &mut String,
) -> Result<(), AllocError> {
    let (_, calls) = calls_of(row);
    for call in calls.split(", ") {
        match answer(alloc, remote, call) {
            Ok(length) => tell_answer(call, length, text)?,
            Err(FetchError::Failed) => tell_fault(call, remote.last_fault(), text)?,
            Err(FetchError::Memory) => {
                if remote.last_fault().is_some() || !is_over(alloc, remote) {
                    text.push_str("goes on after a refusal of memory\n")?;
                }
                return Err(AllocError);
            }
        }
    }
    Ok(())
}

fn tell_fault(call: &str, fault: Option<Fault>, text: &mut String) -> Result<(), AllocError> {
    let fault = fault.unwrap_or(Fault::Status(0));
    writeln!(text, "{call}: {fault:?}")
}

/// Adds what each call comes to, up to a fault. Whether there was one.
fn call_till_fault<A: Allocator + Copy>(
    alloc: A,
    row: &Row<'_>,
    remote: &mut Remote<Streams, A>,
    text: &mut String,
) -> Result<bool, AllocError> {
    let (_, calls) = calls_of(row);
    for call in calls.split(", ") {
        match answer(alloc, remote, call) {
            Ok(length) => tell_answer(call, length, text)?,
            Err(_) => return Ok(true),
        }
    }
    Ok(false)
}

/// Adds how many bytes a call answered.
fn tell_answer(call: &str, length: Option<usize>, text: &mut String) -> Result<(), AllocError> {
    match length {
        Some(_) if call.starts_with("put") => writeln!(text, "{call}: done"),
        Some(length) => writeln!(text, "{call}: {length} bytes"),
        None => writeln!(text, "{call}: none"),
    }
}

/// How many bytes a call answers: `fetch TEXT` and `put TEXT` are about the blob TEXT,
/// `result TEXT` and `put_result TEXT` about the result of the action of its digest.
fn answer<A: Allocator + Copy>(
    alloc: A,
    remote: &mut Remote<Streams, A>,
    call: &str,
) -> Result<Option<usize>, FetchError> {
    let (verb, blob) = call.split_once(' ').unwrap_or((call, ""));
    let blob = blob.as_bytes();
    let digest = Digest::of(blob);
    match verb {
        "fetch" => length(remote.fetch(alloc, &digest)),
        "result" => length(remote.result(alloc, &digest)),
        "put" => remote.put_blob(alloc, blob).map(|_| Some(0)),
        _ => remote
            .put_result(alloc, &digest, b"result")
            .map(|_| Some(0)),
    }
}

fn length<A: Allocator>(
    answer: Result<Option<Vec<u8, A>>, FetchError>,
) -> Result<Option<usize>, FetchError> {
    Ok(answer?.map(|bytes| bytes.len()))
}

/// Whether every further request is refused since an earlier one was.
fn is_over<A: Allocator + Copy>(alloc: A, remote: &mut Remote<Streams, A>) -> bool {
    for call in [
        "fetch other",
        "result other",
        "put other",
        "put_result other",
    ] {
        let refused = matches!(answer(alloc, remote, call), Err(FetchError::Failed));
        if !refused || remote.last_fault() != Some(Fault::Broken) {
            return false;
        }
    }
    true
}
