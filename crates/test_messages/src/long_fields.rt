//! Rows of messages with a repeated field of 10,000 elements. No length is told as out of memory.
use crate::answers::{Answer, Broken, said};
use crate::written::written;
use std::alloc::{AllocError, Allocator, Global};

/// The places of a number's digits.
static PLACES: [u32; 4] = [1000, 100, 10, 1];

/// Adds an element: what stands before its number, the number's four digits, and what stands after.
fn push_element<A: Allocator>(
    out: &mut Vec<u8, A>,
    number: u32,
    before: &[u8],
    after: &[u8],
) -> Result<(), AllocError> {
    out.extend_from_slice(before)?;
    for &place in &PLACES {
        out.push(b'0' + number.checked_div(place).unwrap_or(0).rem_euclid(10) as u8)?;
    }
    Ok(out.extend_from_slice(after)?)
}

/// A message that begins so, and has so 10,000 elements.
fn message_of<A: Allocator>(
    alloc: A,
    front: &[u8],
    before: &[u8],
    after: &[u8],
) -> Result<Vec<u8, A>, AllocError> {
    let mut out = Vec::from_slice(alloc, front)?;
    for number in 0..10_000u32 {
        push_element(&mut out, number, before, after)?;
    }
    Ok(out)
}

/// A message that begins so, and has this element 10,000 times.
fn message_of_one<A: Allocator>(
    alloc: A,
    front: &[u8],
    element: &[u8],
) -> Result<Vec<u8, A>, AllocError> {
    let mut out = Vec::from_slice(alloc, front)?;
    for _ in 0..10_000u32 {
        out.extend_from_slice(element)?;
    }
    Ok(out)
}

pub fn answer<A: Allocator + Copy>(global: Global, alloc: A, fields: &[Vec<u8>]) -> Answer {
    let (kind, bytes) = match fields {
        [kind, front, before, after, _] => (kind, message_of(alloc, front, before, after)?),
        [kind, front, element, _] => (kind, message_of_one(alloc, front, element)?),
        _ => return Err(Broken::NoRow),
    };
    let is_same = written(alloc, kind, &bytes)?.as_slice() == bytes.as_slice();
    said(global, if is_same { "same" } else { "other" })
}
