//! Rows of bounded stores of numbered entries.
use crate::answers::{Answer, Broken, limit_in, number, number_in, word};
use eviction::{Bounded, BoundedError};
use std::alloc::{AllocError, Allocator, Global};
use std::hash::RandomState;

/// A store by its limit and by what each entry costs beside its bytes.
pub fn store_of<A: Allocator + Copy>(
    alloc: A,
    state: RandomState,
    fields: &[Vec<u8>],
) -> Result<Bounded<u64, A>, Broken> {
    match fields {
        [_, limit, cost] => {
            let (limit, cost) = (limit_in(limit)?, number_in(cost)?);
            Ok(Bounded::new(alloc, state, limit, cost)?)
        }
        _ => Err(Broken::NoRow),
    }
}

pub fn answer<A: Allocator + Copy>(
    global: Global,
    alloc: A,
    store: &mut Bounded<u64, A>,
    fields: &[Vec<u8>],
) -> Answer {
    match fields {
        [kind, key, _] => number(global, asked(store, word(kind), number_in(key)?)?),
        [kind, first, second, _] => {
            put(
                alloc,
                store,
                word(kind),
                number_in(first)?,
                number_in(second)?,
            )?;
            number(global, store.held_bytes())
        }
        _ => Err(Broken::NoRow),
    }
}

/// A value of so many bytes.
fn bytes<A: Allocator + Copy>(alloc: A, count: u64) -> Result<Vec<u8, A>, AllocError> {
    let mut bytes = Vec::new(alloc);
    for _ in 0..count {
        bytes.push(7)?;
    }
    Ok(bytes)
}

/// Puts an entry of this many bytes; or this many entries of one byte, numbered from the first.
fn put<A: Allocator + Copy>(
    alloc: A,
    store: &mut Bounded<u64, A>,
    kind: &str,
    first: u64,
    second: u64,
) -> Result<(), Broken> {
    match kind {
        "put" => Ok(store.put(first, bytes(alloc, second)?)?),
        "put each" => {
            for key in first..second {
                store.put(key, bytes(alloc, 1)?)?;
            }
            Ok(())
        }
        _ => Err(Broken::NoRow),
    }
}

/// Pins one key, unless its count is at its greatest.
fn pin<A: Allocator + Copy>(store: &mut Bounded<u64, A>, key: u64) -> Result<(), BoundedError> {
    if store.pins(&key) == u64::MAX {
        return Err(BoundedError::Full);
    }
    store.pin_all(&[key])
}

/// Unpins one key.
fn unpin<A: Allocator + Copy>(store: &mut Bounded<u64, A>, key: u64) -> Result<(), BoundedError> {
    store.unpin(&[key])
}

/// How many bytes are found: none where nothing is.
fn length(found: Option<&[u8]>) -> u64 {
    match found {
        Some(bytes) => bytes.len() as u64,
        None => 0,
    }
}

/// What the store answers, or how many bytes are held afterwards.
fn asked<A: Allocator + Copy>(
    store: &mut Bounded<u64, A>,
    kind: &str,
    key: u64,
) -> Result<u64, Broken> {
    match kind {
        "pin" => pin(store, key)?,
        "unpin" => unpin(store, key)?,
        "get" => return Ok(length(store.get(&key))),
        "peek" => return Ok(length(store.peek(&key))),
        "touch" => return Ok(store.touch(&key) as u64),
        "contains" => return Ok(store.contains(&key) as u64),
        "pins" => return Ok(store.pins(&key)),
        _ => return Err(Broken::NoRow),
    }
    Ok(store.held_bytes())
}
