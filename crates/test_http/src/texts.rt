//! Texts of requests and answers, and what their parts may be.
use crate::rows::Row;
use crate::text::show;
use blob_digest::Digest;
use http_core::*;
use std::alloc::{AllocError, Allocator};
use std::str;
use test_support::unescaped;

/// `prefix TEXT`: whether the text is one.
pub fn prefix<A: Allocator + Copy>(
    alloc: A,
    row: &Row<'_>,
    text: &mut String,
) -> Result<(), AllocError> {
    let prefix = Prefix::read(alloc, &unescaped(row.heap, row.words)?)?;
    text.push_str(if prefix.is_some() { "yes\n" } else { "no\n" })
}

/// `host TEXT`: whether a `Host` field may hold the text.
pub fn host<A: Allocator + Copy>(
    alloc: A,
    row: &Row<'_>,
    text: &mut String,
) -> Result<(), AllocError> {
    let words = unescaped(row.heap, row.words)?;
    let Ok(words) = str::from_utf8(&words) else {
        return text.push_str("not UTF-8\n");
    };
    let host = Host::read(alloc, words)?;
    text.push_str(if host.is_some() { "yes\n" } else { "no\n" })
}

/// `answer STATUS` and `answer STATUS close`: the text of an answer with the stream as its body.
pub fn answer<A: Allocator + Copy>(
    alloc: A,
    row: &Row<'_>,
    text: &mut String,
) -> Result<(), AllocError> {
    let (status, close) = match row.words.split_once(' ') {
        Some((status, _)) => (status, true),
        None => (row.words, false),
    };
    let status = status.parse::<u16>().unwrap_or(0);
    let body = Content::Own(Vec::from_slice(alloc, row.stream)?);
    let answer = write_reply(alloc, &Reply { status, body }, close)?;
    show(row.heap, &answer, text)
}

/// `request get AREA HOST PREFIX` and `request put ..`: the text of a request for the hash of the
/// blob `123456789`, with the stream as its body where it is a put.
pub fn request<A: Allocator + Copy>(
    alloc: A,
    row: &Row<'_>,
    text: &mut String,
) -> Result<(), AllocError> {
    let mut words = row.words.splitn(4, ' ');
    let puts = words.next() == Some("put");
    let area = area_of(words.next().unwrap_or(""));
    let host = host_of(alloc, words.next().unwrap_or(""))?;
    let prefix = prefix_of(alloc, words.next().unwrap_or(""))?;
    let hash = Digest::of(b"123456789").hash();
    let body = puts.then_some(row.stream);
    let request = write_request(alloc, area, &hash, body, host.as_str(), &prefix)?;
    show(row.heap, &request, text)
}

/// A copy of the host of this text.
pub fn host_of<A: Allocator + Copy>(alloc: A, text: &str) -> Result<Host<A>, AllocError> {
    let host = Host::read(alloc, text)?.ok_or(AllocError)?;
    Ok(host.copied(alloc)?)
}

/// A copy of the prefix of this text.
pub fn prefix_of<A: Allocator + Copy>(alloc: A, text: &str) -> Result<Prefix<A>, AllocError> {
    let prefix = Prefix::read(alloc, text.as_bytes())?.ok_or(AllocError)?;
    Ok(prefix.copied(alloc)?)
}

fn area_of(name: &str) -> Area {
    match name {
        "ac" => Area::Ac,
        "pin" => Area::Pin,
        "unpin" => Area::Unpin,
        _ => Area::Cas,
    }
}

/// `head`: what the head of a reply says whose block is the stream.
pub fn head(row: &Row<'_>, text: &mut String) -> Result<(), AllocError> {
    let Some(head) = read_reply_head(row.stream) else {
        return text.push_str("no head\n");
    };
    let close = if head.close { ", close" } else { "" };
    writeln!(text, "{}, {} bytes{close}", head.status, head.length)
}
