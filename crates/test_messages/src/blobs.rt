//! Rows of stores of blobs. A blob is told by its bytes.
use crate::answers::{Answer, Broken, limit_in, number, number_in, said, word, yes_or_no};
use blob_digest::{Body, Digest, Sealed};
use blob_store::{BlobError, BlobStore};
use std::alloc::{AllocError, Allocator, Global};
use std::hash::RandomState;

/// A store by its limit.
pub fn store_of<A: Allocator + Copy>(
    alloc: A,
    state: RandomState,
    fields: &[Vec<u8>],
) -> Result<BlobStore<A>, Broken> {
    match fields {
        [_, limit] => Ok(BlobStore::new(alloc, state, limit_in(limit)?)?),
        _ => Err(Broken::NoRow),
    }
}

pub fn answer<A: Allocator + Copy>(
    global: Global,
    alloc: A,
    store: &mut BlobStore<A>,
    fields: &[Vec<u8>],
) -> Answer {
    match fields {
        [kind, bytes, _] => of_one(global, alloc, store, word(kind), bytes),
        [kind, first, second, _] => of_two(global, alloc, store, word(kind), first, second),
        _ => Err(Broken::NoRow),
    }
}

/// What the store answers of a blob, or how many bytes it holds after what was done.
fn of_one<A: Allocator + Copy>(
    global: Global,
    alloc: A,
    store: &mut BlobStore<A>,
    kind: &str,
    bytes: &[u8],
) -> Answer {
    let hash = Digest::of(bytes).hash();
    match kind {
        "get" => return found(global, store.get(&hash), bytes),
        "peek" => return found(global, store.peek(&hash), bytes),
        "touch" => return yes_or_no(global, store.touch(&hash)),
        "pins" => return number(global, store.pins(&hash)),
        "put" => put(store, alloc, bytes, bytes)?,
        "put in pieces" => put_in_pieces(store, alloc, bytes)?,
        "put zeros" => put_zeros(store, alloc, number_in(bytes)?)?,
        "unpin" => unpin(store, alloc, Digest::of(bytes))?,
        _ => return Err(Broken::NoRow),
    }
    number(global, store.held_bytes())
}

/// What a row of two blobs, or of a blob and a size, comes to.
fn of_two<A: Allocator + Copy>(
    global: Global,
    alloc: A,
    store: &mut BlobStore<A>,
    kind: &str,
    first: &[u8],
    second: &[u8],
) -> Answer {
    match kind {
        "contains" => return yes_or_no(global, store.contains(&sized(first, second)?)),
        "put as" => put(store, alloc, first, second)?,
        "pin" => pin(store, alloc, sized(first, second)?)?,
        _ => return Err(Broken::NoRow),
    }
    number(global, store.held_bytes())
}

/// Puts the bytes under the hash of the first.
fn put<A: Allocator + Copy>(
    store: &mut BlobStore<A>,
    alloc: A,
    name: &[u8],
    bytes: &[u8],
) -> Result<(), BlobError> {
    store.put(Digest::of(name).hash(), Vec::from_slice(alloc, bytes)?)
}

/// Puts this many zeros under their hash.
fn put_zeros<A: Allocator + Copy>(
    store: &mut BlobStore<A>,
    alloc: A,
    count: u64,
) -> Result<(), Broken> {
    let mut bytes = Vec::new(alloc);
    for _ in 0..count {
        bytes.push(0)?;
    }
    Ok(store.put(Digest::of(&bytes).hash(), bytes)?)
}

fn put_in_pieces<A: Allocator + Copy>(
    store: &mut BlobStore<A>,
    alloc: A,
    bytes: &[u8],
) -> Result<(), BlobError> {
    store.put_sealed(Digest::of(bytes).hash(), sealed(alloc, bytes)?)
}

/// The bytes, at most 2,000, as they come in two pieces.
fn sealed<A: Allocator + Copy>(alloc: A, bytes: &[u8]) -> Result<Sealed<A>, AllocError> {
    let (front, back) = bytes.split_at(bytes.len() / 2);
    let mut body = Body::new(alloc);
    if front.len() <= 1_000 {
        body.push(front)?;
    }
    if body.len() <= 1_000 && back.len() <= 1_000 {
        body.push(back)?;
    }
    Ok(body.seal())
}

/// The digest of the hash of the bytes, and this size.
fn sized(bytes: &[u8], size: &[u8]) -> Result<Digest, Broken> {
    match u32::try_from(number_in(size)?) {
        Ok(size) => Ok(Digest::new(Digest::of(bytes).hash(), size as u64)),
        Err(_) => Err(Broken::NoRow),
    }
}

/// Pins one blob, unless its count is at its greatest.
fn pin<A: Allocator + Copy>(
    store: &mut BlobStore<A>,
    alloc: A,
    digest: Digest,
) -> Result<(), BlobError> {
    if store.pins(&digest.hash()) == u64::MAX {
        return Err(BlobError::Full);
    }
    store.pin_all(alloc, &[digest])
}

/// Unpins one blob.
fn unpin<A: Allocator + Copy>(
    store: &mut BlobStore<A>,
    alloc: A,
    digest: Digest,
) -> Result<(), BlobError> {
    store.unpin(alloc, &[digest])
}

/// Whether the bytes are found.
pub fn found(global: Global, found: Option<&[u8]>, bytes: &[u8]) -> Answer {
    match found {
        Some(found) => said(global, if found == bytes { "found" } else { "others" }),
        None => said(global, "none"),
    }
}
