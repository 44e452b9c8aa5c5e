//! Rows of caches of blobs and results. A blob is told by its bytes, a result by the number that
//! each byte of its hash has.
use crate::answers::{Answer, Broken, limit_in, number, number_in, said, word};
use crate::blobs::found;
use action_cache::{ActionCache, CacheError};
use blob_digest::{Digest, Sealed};
use std::alloc::{Allocator, Global};
use std::hash::RandomState;

/// A cache by the limits of bytes of blobs and of results.
pub fn cache_of<A: Allocator + Copy>(
    alloc: A,
    state: RandomState,
    fields: &[Vec<u8>],
) -> Result<ActionCache<A>, Broken> {
    match fields {
        [_, blobs, results] => {
            let (blobs, results) = (limit_in(blobs)?, limit_in(results)?);
            Ok(ActionCache::new(alloc, state, blobs, results)?)
        }
        _ => Err(Broken::NoRow),
    }
}

pub fn answer<A: Allocator + Copy>(
    global: Global,
    alloc: A,
    cache: &mut ActionCache<A>,
    fields: &[Vec<u8>],
) -> Answer {
    match fields {
        [kind, given, _] => of_one(global, alloc, cache, word(kind), given),
        [kind, name, bytes, _] => of_two(global, alloc, cache, word(kind), name, bytes),
        _ => Err(Broken::NoRow),
    }
}

/// What the cache answers of a blob or a result, or how many bytes of blobs it holds after what was
/// done.
fn of_one<A: Allocator + Copy>(
    global: Global,
    alloc: A,
    cache: &mut ActionCache<A>,
    kind: &str,
    given: &[u8],
) -> Answer {
    match kind {
        "get" => return found(global, cache.get_blob(&Digest::of(given).hash()), given),
        "put" => put(cache, alloc, given, given)?,
        "pin" => cache.pin(alloc, &key_in(given)?)?,
        "unpin" => cache.unpin(alloc, &key_in(given)?)?,
        _ => return Err(Broken::NoRow),
    }
    number(global, cache.held_bytes())
}

/// What a row of bytes under a name comes to.
fn of_two<A: Allocator + Copy>(
    global: Global,
    alloc: A,
    cache: &mut ActionCache<A>,
    kind: &str,
    name: &[u8],
    bytes: &[u8],
) -> Answer {
    match kind {
        "get result" => return result(global, alloc, cache, name, bytes),
        "put as" => put(cache, alloc, name, bytes)?,
        "put sealed as" => put_sealed(cache, alloc, name, bytes)?,
        "put result" => cache.put_result(alloc, key_in(name)?, Vec::from_slice(alloc, bytes)?)?,
        _ => return Err(Broken::NoRow),
    }
    number(global, cache.held_bytes())
}

/// The hash of a result.
fn key_in(field: &[u8]) -> Result<[u8; 32], Broken> {
    match u8::try_from(number_in(field)?) {
        Ok(byte) => Ok([byte; 32]),
        Err(_) => Err(Broken::NoRow),
    }
}

/// Puts the bytes under the hash of the first.
fn put<A: Allocator + Copy>(
    cache: &mut ActionCache<A>,
    alloc: A,
    name: &[u8],
    bytes: &[u8],
) -> Result<(), CacheError> {
    cache.put_blob(Digest::of(name).hash(), Vec::from_slice(alloc, bytes)?)
}

fn put_sealed<A: Allocator + Copy>(
    cache: &mut ActionCache<A>,
    alloc: A,
    name: &[u8],
    bytes: &[u8],
) -> Result<(), CacheError> {
    let sealed = Sealed::of(Vec::from_slice(alloc, bytes)?);
    cache.put_sealed(Digest::of(name).hash(), sealed)
}

/// Whether the result is answered.
fn result<A: Allocator + Copy>(
    global: Global,
    alloc: A,
    cache: &mut ActionCache<A>,
    name: &[u8],
    bytes: &[u8],
) -> Answer {
    match cache.get_result(alloc, &key_in(name)?)? {
        Some(result) => found(global, Some(result.as_slice()), bytes),
        None => said(global, "none"),
    }
}
