//! What a row tells by its verb, in whatever pieces its streams come and whatever request for
//! memory is refused.
use crate::clients::{ask, fail_each, sent};
use crate::faults::{fail_each_byte, fail_each_piece, refuse_runs};
use crate::rows::Row;
use crate::servers::{count, look_up, refuse_first, refuse_within, serve, serve_two};
use crate::sessions::session;
use crate::texts::{answer, head, host, prefix, request};
use crate::turns::{digest, turns};
use std::alloc::{AllocError, Allocator};
use test_support::Refusing;

/// Adds what the row tells, and what it tells otherwise in other pieces or where memory is refused.
/// How many requests for memory were refused.
pub fn run_row(verb: &str, row: &Row<'_>, text: &mut String) -> Result<u64, AllocError> {
    match verb {
        "beginnings" => tell_beginnings(row, text),
        "fail_bytes" => fail_each_byte(row, text),
        "fail_pieces" => fail_each_piece(row, text),
        "refuse_first" => refuse_first(row, text),
        "refuse_runs" => refuse_runs(row, text),
        "refuse_within" => refuse_within(row, text),
        "fail_each" => fail_each(row, text),
        _ => tell_in_each_way(verb, row, text),
    }
}

/// Adds what the row tells.
fn tell<A: Allocator + Copy>(
    alloc: A,
    verb: &str,
    row: &Row<'_>,
    text: &mut String,
) -> Result<(), AllocError> {
    match verb {
        "session" => session(alloc, row, text),
        "prefix" => prefix(alloc, row, text),
        "host" => host(alloc, row, text),
        "answer" => answer(alloc, row, text),
        "request" => request(alloc, row, text),
        "head" => head(row, text),
        "serve" => serve(alloc, row, text),
        "serve_two" => serve_two(alloc, row, text),
        "count" => count(alloc, row, text),
        "turns" => turns(alloc, row, text),
        "digest" => digest(alloc, row, text),
        "look_up" => look_up(alloc, row, text),
        "ask" => ask(alloc, row, text),
        "sent" => sent(alloc, row, text),
        _ => text.push_str("no such verb\n"),
    }
}

/// What the row tells where no memory is refused.
fn told(verb: &str, row: &Row<'_>) -> Result<String, AllocError> {
    let mut text = String::new(row.heap);
    tell(row.heap, verb, row, &mut text)?;
    Ok(text)
}

/// Adds what a row of the verb in its words tells of each beginning of the stream, where it differs
/// from that of the one before. Each request for memory is refused in turn.
fn tell_beginnings(row: &Row<'_>, text: &mut String) -> Result<u64, AllocError> {
    let (verb, words) = row.words.split_once(' ').unwrap_or((row.words, ""));
    let mut last = String::new(row.heap);
    let mut refused = 0u64;
    for length in 0..=row.stream.len() {
        let (stream, _) = row.stream.split_at(length);
        let beginning = Row {
            words,
            stream,
            ..*row
        };
        let next = told(verb, &beginning)?;
        if length == 0 || next != last {
            write!(text, "{length} bytes\n{next}")?;
        }
        refused = refused.saturating_add(refuse_each(verb, &beginning, next.as_str(), text)?);
        last = next;
    }
    Ok(refused)
}

/// The lengths of pieces, in turn.
static WAYS: [[usize; 3]; 7] = [
    [1, 1, 1],
    [2, 2, 2],
    [3, 3, 3],
    [7, 7, 7],
    [64, 64, 64],
    [100, 100, 100],
    [1, 4_095, 65_536],
];

fn tell_in_each_way(verb: &str, row: &Row<'_>, text: &mut String) -> Result<u64, AllocError> {
    let expected = told(verb, row)?;
    text.push_str(expected.as_str())?;
    for lengths in &WAYS {
        let lengths = *lengths;
        let other = told(verb, &Row { lengths, ..*row })?;
        if other != expected {
            write!(text, "in pieces of {lengths:?}\n{other}")?;
        }
    }
    refuse_each(verb, row, expected.as_str(), text)
}

/// Refuses each request for memory in turn, and counts them. Where one isn't told as such, after a
/// beginning of what is expected, adds that. (A table that isn't shrunk serves as well.)
fn refuse_each(
    verb: &str,
    row: &Row<'_>,
    expected: &str,
    text: &mut String,
) -> Result<u64, AllocError> {
    let serves = matches!(verb, "serve" | "serve_two" | "count" | "turns" | "digest");
    let mut refused = 0u64;
    for number in 1..100_000u64 {
        let alloc = Refusing::new(row.heap, number);
        let mut other = String::new(row.heap);
        let end = tell(&alloc, verb, row, &mut other);
        let is_whole = end.is_ok() && other.as_str() == expected;
        if is_whole && !alloc.has_refused() {
            return Ok(refused);
        }
        let is_told = end.is_err() && expected.starts_with(other.as_str());
        if !(is_told || is_whole && serves) {
            write!(text, "where request {number} is refused\n{other}")?;
            return Ok(refused);
        }
        refused = refused.saturating_add(1);
    }
    Ok(refused)
}
