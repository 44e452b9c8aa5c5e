//! Rows of protobuf's wire: varints, and the records of a message.
use crate::answers::{Answer, Broken, number, said, word};
use std::alloc::{AllocError, Allocator, Global};
use wire::{Field, Fields, MAX_NUMBER, Payload, read_varint, write_field, write_varint};

pub fn answer<A: Allocator + Copy>(global: Global, alloc: A, fields: &[Vec<u8>]) -> Answer {
    let [kind, given, _] = fields else {
        return Err(Broken::NoRow);
    };
    match word(kind) {
        "varint" => varint(global, alloc, given),
        "records" => records(global, alloc, given),
        _ => Err(Broken::NoRow),
    }
}

/// The number that the bytes spell, if they are written for it, and what follows isn't read.
fn varint<A: Allocator + Copy>(global: Global, alloc: A, bytes: &[u8]) -> Answer {
    let (value, length) = read_varint(bytes)?;
    let mut text = Vec::new(alloc);
    write_varint(&mut text, value)?;
    let is_written = text.as_slice() == bytes;
    text.push(0x80)?;
    if is_written && length == bytes.len() && read_varint(&text) == Ok((value, length)) {
        number(global, value)
    } else {
        said(global, "written otherwise")
    }
}

/// The records that the bytes spell, if they are written so.
fn records<A: Allocator + Copy>(global: Global, alloc: A, bytes: &[u8]) -> Answer {
    let mut told = Vec::new(global);
    let mut text = Vec::new(alloc);
    let mut fields = Fields::new(bytes);
    while let Some(field) = fields.next() {
        match field {
            Ok(field) => {
                write_again(&mut text, field.number, field.payload)?;
                tell(global, &mut told, field)?;
            }
            Err(_) if fields.next().is_some() => return said(global, "something after a fault"),
            Err(fault) => return Err(Broken::from(fault)),
        }
    }
    if text.as_slice() == bytes {
        Ok(told)
    } else {
        said(global, "written otherwise")
    }
}

/// Writes a record, if it is valid.
fn write_again<A: Allocator>(
    text: &mut Vec<u8, A>,
    number: u32,
    payload: Payload<'_>,
) -> Result<(), AllocError> {
    if number < 1 || number > MAX_NUMBER {
        return Ok(());
    }
    match payload {
        Payload::Varint(value) => write_field(text, number, Payload::Varint(value)),
        Payload::Bytes(bytes) => write_field(text, number, Payload::Bytes(bytes)),
        Payload::Eight(bytes) if bytes.len() == 8 => {
            write_field(text, number, Payload::Eight(bytes))
        }
        Payload::Four(bytes) if bytes.len() == 4 => {
            write_field(text, number, Payload::Four(bytes))
        }
        _ => Ok(()),
    }
}

/// Adds a record: its number, the kind of its payload, and this.
fn tell(global: Global, told: &mut Vec<u8>, field: Field<'_>) -> Result<(), AllocError> {
    let number = field.number;
    let (kind, bytes) = match field.payload {
        Payload::Varint(value) => {
            let text = format!(in global; "{number} varint {value};")?;
            return Ok(told.extend_from_slice(text.as_bytes())?);
        }
        Payload::Eight(bytes) => ("eight", bytes),
        Payload::Bytes(bytes) => ("bytes", bytes),
        Payload::Four(bytes) => ("four", bytes),
    };
    let text = format!(in global; "{number} {kind} ")?;
    told.extend_from_slice(text.as_bytes())?;
    told.extend_from_slice(bytes)?;
    Ok(told.push(b';')?)
}
