ghost use Rattle.std.specs.Prelude.{◌≡◌, List, [], ℕ, None, Result, IsOk, Ok};
ghost use Rattle.wire.specs.Record.{records_of};
ghost use Rattle.canonical.specs.Fields.{elements_at};
ghost use Rattle.canonical.specs.Told.{each};
ghost use Rattle.canonical.specs.View.{slices};
ghost use Rattle.messages.specs.declared.error.MessageError.{MessageError};
ghost use Rattle.messages.specs.Gives.{GivesUnlessMemory};
ghost use Rattle.messages.specs.Tolerant.{known_checked, in_occurrences, alone};

use crate::error::MessageError;
use canonical::{Shape, check_any, read_elements};
use std::alloc::Allocator;
use wire::Field;

/// What is read by protobuf's tolerant rules, from one text or more: the payloads of all records
/// of its field, read one after another as if they were one message.
pub trait Tolerant<A: Allocator>: Drop {
    /// What the texts say, or the first refusal.
    ghost says: { List (List ℕ) → Result Self MessageError };

    /// Reads a value from the texts.
    fn read_any(alloc: A, texts: &[&[u8]]) -> Result<Self, MessageError>
        ensures { GivesUnlessMemory (λ m. m) result (says (slices texts.now)) };
}

/// The fields of a message of the shape, from the texts one after another. Fields with a skipped
/// number aren't looked at.
pub fn read_any_fields<'a, A: Allocator>(
    alloc: A,
    shape: &Shape<'_>,
    skipped: &[u32],
    texts: &[&'a [u8]],
) -> Result<Vec<Field<'a>, A>, MessageError>
    ensures { GivesUnlessMemory (λ v. records_of v.items) result
        (known_checked shape.now skipped.now (slices texts.now)) }
{
    Ok(check_any(alloc, shape, skipped, texts)?)
}

fn read_any_all<A: Allocator + Copy, M: Tolerant<A>>(
    alloc: A,
    elements: &[&[u8]],
) -> Result<Vec<M, A>, MessageError>
    ensures exact { GivesUnlessMemory (λ v. v.items) result
        (each (alone M.says) (slices elements.now)) }
    ensures none { slices elements.now ≡ [] → IsOk result }
{
    let mut messages = Vec::new(alloc);
    for bytes in elements {
        messages.push(M::read_any(alloc, &[*bytes])?)?;
    }
    Ok(messages)
}

/// The messages of the repeated field of this number, in order, each from its own text.
pub fn read_any_each<A: Allocator + Copy, M: Tolerant<A>>(
    alloc: A,
    fields: &[Field<'_>],
    number: u32,
) -> Result<Vec<M, A>, MessageError>
    ensures exact { GivesUnlessMemory (λ v. v.items) result
        (each (alone M.says) (elements_at number (records_of fields.now))) }
    // Without an element it takes no memory.
    ensures none { elements_at number (records_of fields.now) ≡ [] → IsOk result }
{
    read_any_all(alloc, &read_elements(alloc, fields, number)?)
}

/// The message of the single field of this number, from all its occurrences, if there is one.
pub fn read_any_optional<A: Allocator + Copy, M: Tolerant<A>>(
    alloc: A,
    fields: &[Field<'_>],
    number: u32,
) -> Result<Option<M>, MessageError>
    ensures exact { GivesUnlessMemory (λ m. m) result
        (in_occurrences M.says (elements_at number (records_of fields.now))) }
    ensures absent { elements_at number (records_of fields.now) ≡ [] → result ≡ Ok None }
{
    let texts = read_elements(alloc, fields, number)?;
    if texts.is_empty() {
        return Ok(None);
    }
    Ok(Some(M::read_any(alloc, &texts)?))
}
