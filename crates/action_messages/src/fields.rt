ghost use Rattle.std.specs.Prelude.{◌≡◌, ◌++◌, [], IsOk, OnOk, map};
ghost use Rattle.std.specs.String.{string_bytes};
ghost use Rattle.wire.specs.Spelling.{spelling};
ghost use Rattle.wire.specs.Record.{IsFieldNumber, records_of};
ghost use Rattle.canonical.specs.Fields.{element_fields, elements_at};
ghost use Rattle.canonical.specs.Told.{each};
ghost use Rattle.canonical.specs.View.{slices};
ghost use Rattle.messages.specs.Gives.{GivesUnlessMemory, RefusesBeforeMemory};
ghost use Rattle.messages.specs.Path.{path_of};
ghost use Rattle.action_messages.specs.Fields.{string_of};
ghost use Rattle.action_messages.specs.Overlaps.{texts_of};

use canonical::{CanonError, read_elements, write_element};
use messages::{MessageError, Path};
use std::alloc::{AllocError, Allocator};
use wire::Field;

fn copy_text<A: Allocator>(alloc: A, bytes: &[u8]) -> Result<String<A>, MessageError>
    ensures exact { GivesUnlessMemory (λ t. string_bytes t) result (string_of bytes.now) }
    ensures refused { RefusesBeforeMemory result (string_of bytes.now) }
{
    match str::from_utf8(bytes) {
        Ok(text) => Ok(String::from_str(alloc, text)?),
        Err(_) => Err(MessageError::Wire(CanonError::BadUtf8)),
    }
}

fn strings_of<A: Allocator + Copy>(
    alloc: A,
    elements: &[&[u8]],
) -> Result<Vec<String<A>, A>, MessageError>
    ensures exact { GivesUnlessMemory (λ v. map string_bytes v.items) result
        (each string_of (slices elements.now)) }
    ensures none { slices elements.now ≡ [] → IsOk result }
{
    let mut strings = Vec::new(alloc);
    for bytes in elements {
        strings.push(copy_text(alloc, bytes)?)?;
    }
    Ok(strings)
}

/// The strings of the repeated field of this number, in order.
pub(crate) fn read_strings<A: Allocator + Copy>(
    alloc: A,
    fields: &[Field<'_>],
    number: u32,
) -> Result<Vec<String<A>, A>, MessageError>
    ensures exact { GivesUnlessMemory (λ v. map string_bytes v.items) result
        (each string_of (elements_at number (records_of fields.now))) }
    ensures none { elements_at number (records_of fields.now) ≡ [] → IsOk result }
{
    strings_of(alloc, &read_elements(alloc, fields, number)?)
}

fn paths_of<A: Allocator + Copy>(
    alloc: A,
    elements: &[&[u8]],
) -> Result<Vec<Path<A>, A>, MessageError>
    ensures exact { GivesUnlessMemory (λ v. v.items) result (each path_of (slices elements.now)) }
    ensures none { slices elements.now ≡ [] → IsOk result }
{
    let mut paths = Vec::new(alloc);
    for bytes in elements {
        paths.push(Path::new(alloc, bytes)?)?;
    }
    Ok(paths)
}

/// The paths of the repeated field of this number, in order.
pub(crate) fn read_paths<A: Allocator + Copy>(
    alloc: A,
    fields: &[Field<'_>],
    number: u32,
) -> Result<Vec<Path<A>, A>, MessageError>
    ensures exact { GivesUnlessMemory (λ v. v.items) result
        (each path_of (elements_at number (records_of fields.now))) }
    ensures none { elements_at number (records_of fields.now) ≡ [] → IsOk result }
{
    paths_of(alloc, &read_elements(alloc, fields, number)?)
}

/// Writes the strings as the elements of a field, in order.
pub(crate) fn write_strings<A: Allocator>(
    out: &mut Vec<u8, A>,
    number: u32,
    strings: &[String<A>],
) -> Result<(), AllocError>
    requires number { IsFieldNumber number }
    ensures { OnOk result
        (out.new.items
        ≡ out.old.items ++ spelling (element_fields number (map string_bytes strings.now))) }
{
    for string in strings {
        write_element(out, number, string.as_bytes())?;
    }
    Ok(())
}

/// Writes the texts of the paths as the elements of a field, in order.
pub(crate) fn write_paths<A: Allocator>(
    out: &mut Vec<u8, A>,
    number: u32,
    paths: &[Path<A>],
) -> Result<(), AllocError>
    requires number { IsFieldNumber number }
    ensures { OnOk result
        (out.new.items
        ≡ out.old.items ++ spelling (element_fields number (texts_of paths.now))) }
{
    for path in paths {
        write_element(out, number, path.as_bytes())?;
    }
    Ok(())
}
