ghost use Rattle.std.specs.Prelude.{◌≡◌, ◌++◌, List, ℕ, Result, IfOk, OnOk, OnErr, option_map};
ghost use Rattle.std.specs.Prelude.{map, take, length, None, IsOk, []};
ghost use Rattle.wire.specs.Spelling.{spelling};
ghost use Rattle.canonical.specs.Fields.{element_fields, elements_at};
ghost use Rattle.wire.specs.Bytes.{AreBytes};
ghost use Rattle.wire.specs.Record.{IsFieldNumber, records_of};
ghost use Rattle.canonical.specs.View.{slices};
ghost use Rattle.messages.specs.declared.error.MessageError.{MessageError};
ghost use Rattle.messages.specs.Gives.{GivesUnlessMemory};
ghost use Rattle.canonical.specs.Codec.{IsCodec};
ghost use Rattle.canonical.specs.Told.{each, in_option};
ghost use Rattle.messages.specs.Told.{shape_checked};

use crate::error::MessageError;
use canonical::{Shape, check, read_elements, write_element};
use std::alloc::{AllocError, Allocator};
use wire::Field;

/// What is written as bytes.
pub trait Encode<A: Allocator>: Drop {
    /// The bytes that are written.
    ghost spells: { Self → List ℕ };

    /// Writes the value, alone.
    fn write(&self, alloc: A) -> Result<Vec<u8, A>, AllocError>
        ensures { IfOk result (λ v. v.items ≡ spells self.now) };
}

/// What is read from the bytes that it is written as, and from no others.
pub trait Message<A: Allocator>: Encode<A> {
    /// What the bytes say, or the first refusal.
    ghost reads: { List ℕ → Result Self MessageError };

    /// The rules of values.
    ghost keeps: { Self → Type 0 };

    /// Reads a value, from all of the bytes.
    fn read(alloc: A, bytes: &[u8]) -> Result<Self, MessageError>
        ensures { GivesUnlessMemory (λ m. m) result (reads bytes.now) };

    /// What is read is what is spelled, and nothing else. It does nothing.
    fn is_exact()
        ensures { IsCodec reads Self.spells keeps };
}

/// The fields of a message of the shape.
pub fn read_fields<'a, A: Allocator>(
    alloc: A,
    shape: &Shape<'_>,
    bytes: &'a [u8],
) -> Result<Vec<Field<'a>, A>, MessageError>
    ensures { GivesUnlessMemory (λ v. records_of v.items) result
        (shape_checked shape.now bytes.now) }
{
    Ok(check(alloc, shape, bytes)?)
}

fn read_all<A: Allocator + Copy, M: Message<A>>(
    alloc: A,
    elements: &[&[u8]],
) -> Result<Vec<M, A>, MessageError>
    ensures exact { GivesUnlessMemory (λ v. v.items) result
        (each M.reads (slices elements.now)) }
    ensures none { slices elements.now ≡ [] → IsOk result }
{
    let mut messages = Vec::new(alloc);
    for bytes in elements {
        messages.push(M::read(alloc, bytes)?)?;
    }
    Ok(messages)
}

/// The messages of the repeated field of this number, in order.
pub fn read_each<A: Allocator + Copy, M: Message<A>>(
    alloc: A,
    fields: &[Field<'_>],
    number: u32,
) -> Result<Vec<M, A>, MessageError>
    ensures exact { GivesUnlessMemory (λ v. v.items) result
        (each M.reads (elements_at number (records_of fields.now))) }
    // Without an element it takes no memory.
    ensures none { elements_at number (records_of fields.now) ≡ [] → IsOk result }
{
    read_all(alloc, &read_elements(alloc, fields, number)?)
}

/// The message of a single field, if the field is there.
pub fn read_optional<A: Allocator + Copy, M: Message<A>>(
    alloc: A,
    bytes: Option<&[u8]>,
) -> Result<Option<M>, MessageError>
    ensures exact { GivesUnlessMemory (λ m. m) result
        (in_option M.reads (option_map (λ x. x.now) bytes.entry)) }
    ensures absent { bytes.entry ≡ None → result ≡ Ok None }
{
    match bytes {
        Some(bytes) => Ok(Some(M::read(alloc, bytes)?)),
        None => Ok(None),
    }
}

/// Writes the messages as the elements of a field, in order, after what stands in the buffer.
/// Where memory runs out, the buffer is as it was.
pub fn write_each<A: Allocator + Copy, M: Encode<A>>(
    alloc: A,
    out: &mut Vec<u8, A>,
    number: u32,
    messages: &[M],
) -> Result<(), AllocError>
    requires number { IsFieldNumber number }
    ensures appended { OnOk result (out.new.items ≡ out.old.items
        ++ spelling (element_fields number (map M.spells messages.now))) }
    ensures kept { OnErr result (out.new.items ≡ out.old.items) }
    // Without a message it takes no memory.
    ensures none { messages.now ≡ [] → IsOk result }
{
    let len = out.len();
    let written = append_each(alloc, out, number, messages);
    if written.is_err() {
        out.truncate(len);
    }
    written
}

/// Writes them, of which some may stand there where memory runs out.
fn append_each<A: Allocator + Copy, M: Encode<A>>(
    alloc: A,
    out: &mut Vec<u8, A>,
    number: u32,
    messages: &[M],
) -> Result<(), AllocError>
    requires number { IsFieldNumber number }
    ensures appended { OnOk result (out.new.items ≡ out.old.items
        ++ spelling (element_fields number (map M.spells messages.now))) }
    ensures front { OnErr result (take (length out.old.items) out.new.items ≡ out.old.items) }
    ensures none { messages.now ≡ [] → IsOk result }
{
    for message in messages {
        write_element(out, number, &message.write(alloc)?)?;
    }
    Ok(())
}

/// The message whose canonical encoding the bytes are.
pub fn decode<A: Allocator + Copy, M: Message<A>>(alloc: A, bytes: &[u8]) -> Result<M, MessageError>
    // The bytes are the canonical encoding of what is answered.
    ensures found { IfOk result (λ m. M.keeps m × (bytes.now ≡ M.spells m)) }
    // What the bytes are the canonical encoding of is answered, unless memory runs out.
    ensures only { (m : M) → M.keeps m → bytes.now ≡ M.spells m
        → GivesUnlessMemory (λ x. x) result (Ok m) }
    // Which refusal comes first.
    ensures exact { GivesUnlessMemory (λ m. m) result (M.reads bytes.now) }
{
    M::is_exact();
    M::read(alloc, bytes)
}

ghost use Rattle.std.specs.Prelude.{Ok};

/// No bytes are the canonical encoding of two values. (That no value has two is said by the
/// encoding's being a function.) It does nothing.
pub fn encodes_one_value<A: Allocator, M: Message<A>>()
    ensures { (bytes : List ℕ) (a b : M) → AreBytes bytes → M.keeps a → M.keeps b
        → bytes ≡ M.spells a → bytes ≡ M.spells b → a ≡ b }
{
    <M as Message<A>>::is_exact();
}
