//! Sessions: the events of a stream.
use crate::rows::Row;
use blob_digest::Digest;
use http_core::*;
use std::alloc::{AllocError, Allocator, Global};

/// Adds the events that a session tells of the stream, up to a refusal of memory, after which
/// nothing may come. The words are its prefix.
pub fn session<A: Allocator + Copy>(
    alloc: A,
    row: &Row<'_>,
    text: &mut String,
) -> Result<(), AllocError> {
    let Some(prefix) = Prefix::read(alloc, row.words.as_bytes())? else {
        return text.push_str("no prefix\n");
    };
    let mut session = Session::new(alloc, &prefix)?;
    let mut refused = false;
    for piece in row.pieces()? {
        match session.feed(alloc, piece) {
            Ok(events) => tell_all(row.heap, events, text)?,
            Err(_) => refused = true,
        }
        if refused && session.is_open() {
            text.push_str("open after a refusal of memory\n")?;
        }
    }
    if refused { Err(AllocError) } else { Ok(()) }
}

fn tell_all<A: Allocator>(
    heap: Global,
    events: Vec<Event<A>, A>,
    text: &mut String,
) -> Result<(), AllocError> {
    for event in events {
        tell(heap, &event, text)?;
    }
    Ok(())
}

/// Adds what is asked, under which hash, and the digest of what is put; or the status. Whether the
/// session closes.
fn tell<A: Allocator>(heap: Global, event: &Event<A>, text: &mut String) -> Result<(), AllocError> {
    match event {
        Event::Refuse(status, close) => writeln!(text, "{status}{}", closing(*close)),
        Event::Ask(ask, close) => {
            tell_ask(heap, ask, text)?;
            writeln!(text, "{}", closing(*close))
        }
    }
}

fn tell_ask<A: Allocator>(heap: Global, ask: &Ask<A>, text: &mut String) -> Result<(), AllocError> {
    match ask {
        Ask::Get(area, hash) => {
            let hash = hash_text(heap, *hash)?;
            write!(text, "get {} {hash}", name_of(*area))
        }
        Ask::Put(area, hash, body) => {
            let hash = hash_text(heap, *hash)?;
            let digest = body.digest().write_text(heap)?;
            write!(text, "put {} {hash} {digest}", name_of(*area))
        }
    }
}

fn closing(close: bool) -> &'static str {
    if close { " close" } else { "" }
}

fn name_of(area: Area) -> &'static str {
    match area {
        Area::Ac => "ac",
        Area::Cas => "cas",
        Area::Pin => "pin",
        Area::Unpin => "unpin",
    }
}

fn hash_text(heap: Global, hash: [u8; 32]) -> Result<String, AllocError> {
    String::from_utf8_lossy(heap, &Digest::new(hash, 0).hash_text())
}
