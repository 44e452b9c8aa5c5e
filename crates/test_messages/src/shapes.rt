//! Rows of canonical messages by a shape with a field of each kind.
ghost use Rattle.wire.specs.Record.{IsFieldNumber};

use crate::answers::{Answer, Broken, number_in, said, word, yes_or_no};
use canonical::*;
use messages::{repeated, single};
use std::alloc::{AllocError, Allocator, Global};
use wire::{Field, MAX_NUMBER};

pub fn answer<A: Allocator + Copy>(global: Global, alloc: A, fields: &[Vec<u8>]) -> Answer {
    match fields {
        [kind, given, _] => of_one(global, alloc, word(kind), given),
        [_, first, second, _] => shape(global, number_in(first)?, number_in(second)?),
        _ => Err(Broken::NoRow),
    }
}

fn of_one<A: Allocator + Copy>(global: Global, alloc: A, kind: &str, given: &[u8]) -> Answer {
    match kind {
        "message" => message(global, alloc, given),
        "nothing" => nothing(global, alloc, given),
        "elements" => elements(global, alloc, number_in(given)?),
        _ => Err(Broken::NoRow),
    }
}

const fn entry(number: u32, kind: Kind, repeated: bool) -> Entry {
    Entry {
        number,
        kind,
        repeated,
    }
}

/// Whether two entries of these numbers are a shape.
fn shape(global: Global, first: u64, second: u64) -> Answer {
    match (u32::try_from(first), u32::try_from(second)) {
        (Ok(first), Ok(second)) => {
            let entries = [
                entry(first, Kind::Bool, false),
                entry(second, Kind::Bool, false),
            ];
            yes_or_no(global, is_shape(&entries))
        }
        _ => Err(Broken::NoRow),
    }
}

/// A field of each kind, and two that are repeated.
fn every_kind() -> Shape<'static> {
    Shape::new(&[
        single!(1, String),
        single!(2, Int32),
        single!(3, Bool),
        single!(4, Message),
        single!(5, Bytes),
        repeated!(6, String),
        single!(7, Int64),
        repeated!(536_870_911, Message),
    ])
}

/// Writes the first five fields again.
fn write_first<A: Allocator>(out: &mut Vec<u8, A>, fields: &[Field<'_>]) -> Result<(), CanonError> {
    write_string(out, 1, read_string(fields, 1)?)?;
    write_int32(out, 2, read_int32(fields, 2))?;
    write_bool(out, 3, read_bool(fields, 3))?;
    write_message(out, 4, read_message(fields, 4))?;
    Ok(write_bytes(out, 5, read_bytes(fields, 5))?)
}

fn write_list<A: Allocator + Copy>(
    alloc: A,
    out: &mut Vec<u8, A>,
    fields: &[Field<'_>],
    number: u32,
) -> Result<(), CanonError>
    requires number { IsFieldNumber number }
{
    for element in &read_elements(alloc, fields, number)? {
        write_element(out, number, element)?;
    }
    Ok(())
}

/// The message, written again from what its fields say.
fn rewritten<A: Allocator + Copy>(
    alloc: A,
    fields: &[Field<'_>],
) -> Result<Vec<u8, A>, CanonError> {
    let mut out = Vec::new(alloc);
    write_first(&mut out, fields)?;
    write_list(alloc, &mut out, fields, 6)?;
    write_int64(&mut out, 7, read_int64(fields, 7))?;
    write_list(alloc, &mut out, fields, MAX_NUMBER)?;
    Ok(out)
}

/// What the fields of the message and the bytes say.
fn bytes_shown(global: Global, fields: &[Field<'_>]) -> Result<Vec<u8>, AllocError> {
    let message = match read_message(fields, 4) {
        Some(message) => message,
        None => b"none".as_slice(),
    };
    let mut told = Vec::from_slice(global, message)?;
    told.push(b';')?;
    told.extend_from_slice(read_bytes(fields, 5))?;
    Ok(told)
}

/// What the fields say: a text, a number, a bool and a greater number, then the message and the
/// bytes.
fn shown(global: Global, fields: &[Field<'_>]) -> Answer {
    let text = read_string(fields, 1)?;
    let number = read_int32(fields, 2);
    let truth = read_bool(fields, 3);
    let greater = read_int64(fields, 7);
    let mut told = format!(in global; "{text};{number};{truth};{greater};")?.into_bytes();
    told.extend_from_slice(&bytes_shown(global, fields)?)?;
    Ok(told)
}

/// What the fields of the message say, if it is written so again.
fn message<A: Allocator + Copy>(global: Global, alloc: A, bytes: &[u8]) -> Answer {
    let fields = check(alloc, &every_kind(), bytes)?;
    if rewritten(alloc, &fields)?.as_slice() == bytes {
        shown(global, &fields)
    } else {
        said(global, "written otherwise")
    }
}

/// What a shape without fields says of the bytes.
fn nothing<A: Allocator + Copy>(global: Global, alloc: A, bytes: &[u8]) -> Answer {
    check(alloc, &Shape::new(&[]), bytes)?;
    said(global, "nothing")
}

/// Whether a message of this many elements is read.
fn elements<A: Allocator + Copy>(global: Global, alloc: A, count: u64) -> Answer {
    let mut bytes = Vec::new(alloc);
    for _ in 0..count {
        write_element(&mut bytes, 6, b"element")?;
    }
    let fields = check(alloc, &every_kind(), &bytes)?;
    yes_or_no(
        global,
        read_elements(alloc, &fields, 6)?.len() as u64 == count,
    )
}
