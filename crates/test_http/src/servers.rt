//! A server: what its connections are answered, and what its cache holds.
use crate::rows::Row;
use crate::text::show;
use crate::turns::first_length;
use blob_digest::{Body, Digest};
use cache_server::*;
use http_core::{Area, Ask, Prefix};
use std::alloc::{AllocError, Allocator};
use test_support::Refusing;

/// The limits on blobs and on results, and the prefix, which a row's words are.
#[derive(Clone, Copy)]
struct Setting<'a> {
    limit: u64,
    result_limit: u64,
    prefix: &'a str,
}

impl<'a> Setting<'a> {
    fn of(words: &'a str) -> Setting<'a> {
        let mut words = words.splitn(3, ' ');
        let limit = words.next().unwrap_or("").parse::<u64>().unwrap_or(0);
        let result_limit = words.next().unwrap_or("").parse::<u64>().unwrap_or(0);
        Setting {
            limit,
            result_limit,
            prefix: words.next().unwrap_or(""),
        }
    }
}

/// A cache with the row's limits.
pub fn cache_of<A: Allocator + Copy>(alloc: A, row: &Row<'_>) -> Result<Cache<A>, AllocError> {
    let setting = Setting::of(row.words);
    let limit = setting.limit.min(1_000_000);
    let result_limit = setting.result_limit.min(1_000_000);
    Cache::new(alloc, row.state, limit, result_limit)
}

/// The row's prefix.
pub fn prefix_of<A: Allocator + Copy>(alloc: A, row: &Row<'_>) -> Result<Prefix<A>, AllocError> {
    let prefix = Setting::of(row.words).prefix;
    Prefix::read(alloc, prefix.as_bytes())?.ok_or(AllocError)
}

fn server_of<A: Allocator + Copy>(alloc: A, row: &Row<'_>) -> Result<Server<A>, AllocError> {
    let cache = cache_of(alloc, row)?;
    Ok(Server::new(alloc, cache, prefix_of(alloc, row)?))
}

/// `serve LIMIT RESULT_LIMIT PREFIX`: what the stream is answered, and how many bytes of blobs the
/// cache holds then.
pub fn serve<A: Allocator + Copy>(
    alloc: A,
    row: &Row<'_>,
    text: &mut String,
) -> Result<(), AllocError> {
    let mut answers = Vec::new(row.heap);
    let held = run_over(alloc, row, &mut answers);
    show(row.heap, &answers, text)?;
    let held = held?;
    writeln!(text, "held {held}")?;
    tell_otherwise(alloc, row, &answers, text)
}

/// Adds where a server answers otherwise than so.
fn tell_otherwise<A: Allocator + Copy>(
    alloc: A,
    row: &Row<'_>,
    answers: &[u8],
    text: &mut String,
) -> Result<(), AllocError> {
    if answered(alloc, row)?.as_slice() != answers {
        text.push_str("otherwise in pieces\n")?;
    }
    if answered_singly(alloc, row)?.as_slice() != answers {
        text.push_str("otherwise one request at a time\n")?;
    }
    Ok(())
}

/// Adds what a run over the stream answers, and gives how many bytes of blobs are held then.
fn run_over<A: Allocator + Copy>(
    alloc: A,
    row: &Row<'_>,
    answers: &mut Vec<u8>,
) -> Result<u64, AllocError> {
    let mut cache = cache_of(alloc, row)?;
    let prefix = prefix_of(alloc, row)?;
    let mut reader = Counted::new(row.stream);
    if run(alloc, &mut reader, answers, &mut cache, &prefix).is_err() {
        return Err(AllocError);
    }
    Ok(cache.held_bytes())
}

/// What a server answers to the stream in its pieces.
fn answered<A: Allocator + Copy>(alloc: A, row: &Row<'_>) -> Result<Vec<u8>, AllocError> {
    let mut server = server_of(alloc, row)?;
    let mut answers = Vec::new(row.heap);
    for piece in row.pieces()? {
        answers.extend_from_slice(&server.event(alloc, 1, piece)?)?;
    }
    Ok(answers)
}

/// What a server answers to the stream in its pieces, one request at a time.
fn answered_singly<A: Allocator + Copy>(alloc: A, row: &Row<'_>) -> Result<Vec<u8>, AllocError> {
    let mut server = server_of(alloc, row)?;
    let mut answers = Vec::new(row.heap);
    for piece in row.pieces()? {
        push_each(alloc, &mut server, 1, piece, &mut answers)?;
    }
    Ok(answers)
}

/// Adds the answers to the next piece on a connection, of which each call takes one request.
fn push_each<A: Allocator + Copy>(
    alloc: A,
    server: &mut Server<A>,
    connection: u64,
    piece: &[u8],
    answers: &mut Vec<u8>,
) -> Result<(), AllocError> {
    let mut rest = piece;
    for _ in 0..piece.len() {
        if rest.is_empty() {
            return Ok(());
        }
        let (taken, answer) = server.next(alloc, connection, rest)?;
        let (_, more) = rest.split_at(taken.min(rest.len()));
        rest = more;
        if let Some(answer) = answer {
            answers.extend_from_slice(answer.head())?;
            answers.extend_from_slice(answer.body())?;
        }
    }
    Ok(())
}

/// `refuse_within ..`: what a second connection is answered to the last request of the second
/// stream, where the first wanted memory within a body that this request ends. The first may get no
/// answer to it. How often it wanted memory there.
pub fn refuse_within(row: &Row<'_>, text: &mut String) -> Result<u64, AllocError> {
    let mut refused = 0u64;
    for number in 1..1000u64 {
        let alloc = Refusing::new(row.heap, number);
        let mut first = Vec::new(row.heap);
        let mut second = Vec::new(row.heap);
        let end = answer_within(&alloc, row, &mut first, &mut second);
        if !alloc.has_refused() {
            break;
        }
        if end == Ok(true) {
            if !first.is_empty() {
                writeln!(text, "answered where request {number} is refused")?;
            }
            if refused == 0 {
                show(row.heap, &second, text)?;
            }
            refused = refused.saturating_add(1);
        }
    }
    Ok(refused)
}

/// Hands the first stream and the front of the second to one connection, and then the rest of it to
/// that and to another. Whether memory was wanting in that front.
fn answer_within<A: Allocator + Copy>(
    alloc: A,
    row: &Row<'_>,
    first: &mut Vec<u8>,
    second: &mut Vec<u8>,
) -> Result<bool, AllocError> {
    let mut server = server_of(alloc, row)?;
    push_answers(alloc, &mut server, 1, row.stream, first)?;
    let (front, request) = row.next.split_at(first_length(row.next));
    let is_refused = push_each(alloc, &mut server, 1, front, first).is_err();
    push_each(alloc, &mut server, 1, request, first)?;
    push_answers(alloc, &mut server, 1, request, first)?;
    push_each(alloc, &mut server, 2, request, second)?;
    Ok(is_refused)
}

/// `serve_two ..`: what two connections are answered to whom the pieces of the stream come in turn,
/// and the whole stream to the second once more, whose stream had ended before its last piece.
pub fn serve_two<A: Allocator + Copy>(
    alloc: A,
    row: &Row<'_>,
    text: &mut String,
) -> Result<(), AllocError> {
    let mut first = Vec::new(row.heap);
    let mut second = Vec::new(row.heap);
    answer_in_turn(alloc, row, &mut first, &mut second)?;
    text.push_str("first\n")?;
    show(row.heap, &first, text)?;
    text.push_str("second\n")?;
    show(row.heap, &second, text)
}

fn answer_in_turn<A: Allocator + Copy>(
    alloc: A,
    row: &Row<'_>,
    first: &mut Vec<u8>,
    second: &mut Vec<u8>,
) -> Result<(), AllocError> {
    let mut server = server_of(alloc, row)?;
    let (front, last) = row.stream.split_at(row.stream.len().saturating_sub(1));
    for piece in front.chunks(1) {
        push_answers(alloc, &mut server, 1, piece, first)?;
        push_answers(alloc, &mut server, 2, piece, second)?;
    }
    push_answers(alloc, &mut server, 1, last, first)?;
    server.end(2);
    push_answers(alloc, &mut server, 2, row.stream, second)
}

/// Adds the answers to the next piece on a connection.
fn push_answers<A: Allocator + Copy>(
    alloc: A,
    server: &mut Server<A>,
    connection: u64,
    piece: &[u8],
    answers: &mut Vec<u8>,
) -> Result<(), AllocError> {
    let text = server.event(alloc, connection, piece)?;
    answers.extend_from_slice(&text)
}

/// `count ..`: how many requests the stream has, and how many of them find what they look up.
pub fn count<A: Allocator + Copy>(
    alloc: A,
    row: &Row<'_>,
    text: &mut String,
) -> Result<(), AllocError> {
    let Counts {
        requests,
        hits,
        misses,
    } = counted(alloc, row)?;
    writeln!(text, "requests {requests}, hits {hits}, misses {misses}")
}

fn counted<A: Allocator + Copy>(alloc: A, row: &Row<'_>) -> Result<Counts, AllocError> {
    let mut cache = cache_of(alloc, row)?;
    let prefix = prefix_of(alloc, row)?;
    let mut reader = Counted::new(row.stream);
    let mut answers = Vec::new(row.heap);
    if run(alloc, &mut reader, &mut answers, &mut cache, &prefix).is_ok() {
        Ok(cache.counts())
    } else {
        Err(AllocError)
    }
}

/// `look_up ..`: the status of a put of the blob `123456789`, the status of its look-up and how
/// many bytes it finds, and the status of a look-up that finds nothing.
pub fn look_up<A: Allocator + Copy>(
    alloc: A,
    row: &Row<'_>,
    text: &mut String,
) -> Result<(), AllocError> {
    let mut cache = cache_of(alloc, row)?;
    let hash = Digest::of(b"123456789").hash();
    let mut body: Body<A> = Body::new(alloc);
    body.push(b"123456789")?;
    let ask = Ask::Put(Area::Cas, hash, body.seal());
    tell_reply(alloc, row, &mut cache, ask, text)?;
    tell_reply(alloc, row, &mut cache, Ask::Get(Area::Cas, hash), text)?;
    tell_reply(alloc, row, &mut cache, Ask::Get(Area::Ac, hash), text)
}

/// Adds the status of the reply and how many bytes it has.
fn tell_reply<A: Allocator + Copy>(
    alloc: A,
    row: &Row<'_>,
    cache: &mut Cache<A>,
    ask: Ask<A>,
    text: &mut String,
) -> Result<(), AllocError> {
    let reply = cache.apply(alloc, ask)?;
    writeln!(
        text,
        "{}, {} bytes",
        reply.status,
        reply.body.as_slice().len()
    )
}

/// `refuse_first ..`: what a second connection is answered to the stream where the first wanted
/// memory for it, whichever request was refused. How many were.
pub fn refuse_first(row: &Row<'_>, text: &mut String) -> Result<u64, AllocError> {
    let expected = answered(row.heap, row)?;
    show(row.heap, &expected, text)?;
    let mut refused = 0u64;
    for number in 1..1000u64 {
        let alloc = Refusing::new(row.heap, number);
        let mut answers = Vec::new(row.heap);
        let end = answer_two(&alloc, row, &mut answers);
        if !alloc.has_refused() {
            break;
        }
        if end == Ok(false) {
            if answers != expected {
                writeln!(text, "otherwise where request {number} is refused")?;
            }
            refused = refused.saturating_add(1);
        }
    }
    Ok(refused)
}

/// Hands the stream to two connections, and adds what the second is answered. Whether the first
/// wanted no memory.
fn answer_two<A: Allocator + Copy>(
    alloc: A,
    row: &Row<'_>,
    answers: &mut Vec<u8>,
) -> Result<bool, AllocError> {
    let mut server = server_of(alloc, row)?;
    let first = server.event(alloc, 1, row.stream).is_ok();
    let text = server.event(alloc, 2, row.stream)?;
    answers.extend_from_slice(&text)?;
    Ok(first)
}
