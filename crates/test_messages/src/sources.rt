//! Rows of a source in memory, and of what is fetched from it.
use crate::answers::{Answer, Broken, digest_text, number, push_digest, said, word};
use crate::nodes::{phrase, with_digest};
use blob_digest::Digest;
use blob_source::{
    BlobSink, BlobSource, Fetched, MemorySource, MessageFetchError, fetch_blob, fetch_message,
};
use messages::Directory;
use std::alloc::{Allocator, Global};

pub fn answer<A: Allocator + Copy>(
    global: Global,
    alloc: A,
    source: &mut MemorySource<A>,
    fields: &[Vec<u8>],
) -> Answer {
    match fields {
        [kind, _] => of_all(global, source, word(kind)),
        [kind, bytes, _] if word(kind) == "put" => {
            digest_text(global, &source.put_blob(alloc, bytes)?)
        }
        [kind, given, _] => of_one(
            global,
            alloc,
            source,
            word(kind),
            &Digest::read_text(given)?,
        ),
        [kind, digest, bytes, _] => held(global, alloc, source, word(kind), digest, bytes),
        _ => Err(Broken::NoRow),
    }
}

fn of_all<A: Allocator + Copy>(global: Global, source: &MemorySource<A>, kind: &str) -> Answer {
    match kind {
        "calls" => called(global, source.calls()),
        "puts" => puts(global, source),
        _ => Err(Broken::NoRow),
    }
}

fn of_one<A: Allocator + Copy>(
    global: Global,
    alloc: A,
    source: &mut MemorySource<A>,
    kind: &str,
    digest: &Digest,
) -> Answer {
    match kind {
        "blob" => blob(global, alloc, source, digest),
        "result" => result(global, alloc, source, digest),
        "directory" => directory(global, alloc, source, digest),
        _ => Err(Broken::NoRow),
    }
}

/// How often a source was called.
fn called(global: Global, calls: u64) -> Answer {
    Ok(format!(in global; "called by {calls}")?.into_bytes())
}

/// Holds or puts bytes under a digest.
fn held<A: Allocator + Copy>(
    global: Global,
    alloc: A,
    source: &mut MemorySource<A>,
    kind: &str,
    digest: &[u8],
    bytes: &[u8],
) -> Answer {
    let digest = Digest::read_text(digest)?;
    match kind {
        "hold" => source.hold_blob(digest, Vec::from_slice(alloc, bytes)?)?,
        "hold result" => source.hold_result(digest, Vec::from_slice(alloc, bytes)?)?,
        "put result" => source.put_result(alloc, &digest, bytes)?,
        _ => return Err(Broken::NoRow),
    }
    said(global, "done")
}

/// The digests of what was put.
fn puts<A: Allocator + Copy>(global: Global, source: &MemorySource<A>) -> Answer {
    let mut told = Vec::new(global);
    for digest in source.puts() {
        push_digest(global, &mut told, digest)?;
    }
    Ok(told)
}

fn blob<A: Allocator + Copy>(
    global: Global,
    alloc: A,
    source: &mut MemorySource<A>,
    digest: &Digest,
) -> Answer {
    match fetch_blob(alloc, source, digest)? {
        Fetched::Missing => said(global, "missing"),
        Fetched::Wrong => said(global, "wrong"),
        Fetched::Right(bytes) => phrase(global, "right", &bytes),
    }
}

fn result<A: Allocator + Copy>(
    global: Global,
    alloc: A,
    source: &mut MemorySource<A>,
    digest: &Digest,
) -> Answer {
    match source.result(alloc, digest)? {
        Some(bytes) => phrase(global, "result", &bytes),
        None => said(global, "none"),
    }
}

fn files<A: Allocator + Copy>(
    alloc: A,
    source: &mut MemorySource<A>,
    digest: &Digest,
) -> Result<usize, MessageFetchError> {
    let directory: Directory<A> = fetch_message(alloc, source, digest)?;
    Ok(directory.files().len())
}

/// How many files the Directory with the digest has.
fn directory<A: Allocator + Copy>(
    global: Global,
    alloc: A,
    source: &mut MemorySource<A>,
    digest: &Digest,
) -> Answer {
    match files(alloc, source, digest) {
        Ok(files) => number(global, files as u64),
        Err(error) => refusal_told(global, error),
    }
}

fn refusal_told(global: Global, error: MessageFetchError) -> Answer {
    let (word, digest) = match error {
        MessageFetchError::Missing(digest) => ("missing", digest),
        MessageFetchError::Wrong(digest) => ("wrong", digest),
        MessageFetchError::Malformed(digest) => ("malformed", digest),
        MessageFetchError::Memory => return Err(Broken::Memory),
        MessageFetchError::Failed => return Err(Broken::NoRow),
    };
    with_digest(global, word, &digest)
}
