ghost use Rattle.std.specs.Prelude.{◌≡◌, ◌<◌, ℕ, List, [], length, IfOk, IsOk, Ok, Err};
ghost use Rattle.std.specs.List.{AllByRecursion};
ghost use Rattle.wire.specs.declared.error.WireError.{WireError};
ghost use Rattle.wire.specs.Bytes.{IsBytes};
ghost use Rattle.wire.specs.Reading.{any_record_at};
ghost use Rattle.wire.specs.Record.{Record, record_of, records_of};
ghost use Rattle.wire.specs.Steps.{Gives};
ghost use Rattle.canonical.specs.declared.error.CanonError.{CanonError};
ghost use Rattle.canonical.specs.Checking.{ChecksUnlessMemory};
ghost use Rattle.canonical.specs.Known.{AreRead, GoesOn, any_field_kept, any_fields_checked};
ghost use Rattle.canonical.specs.View.{slices};

use crate::checking::{fits_wire_type, is_text};
use crate::error::CanonError;
use crate::shape::Shape;
use std::alloc::Allocator;
use wire::{Field, Fields, WireError};

/// The fields of a message that is read tolerantly, as they come: those of the texts one after
/// another, each cut by itself. Or the first refusal: that of the first faulty record, and in it of
/// the first rule that it breaks. Fields with a skipped number aren't looked at. Takes memory for
/// the list.
pub fn check_any<'a, A: Allocator>(
    alloc: A,
    shape: &Shape<'_>,
    skipped: &[u32],
    texts: &[&'a [u8]],
) -> Result<Vec<Field<'a>, A>, CanonError>
    // What is accepted is spelled by records that are known, and what such records spell is
    // accepted.
    ensures found { AllByRecursion IsBytes (slices texts.now)
        → IfOk result (λ v. AreRead shape.now skipped.now (slices texts.now) (records_of v.items)) }
    ensures only { (rs : List Record) → AllByRecursion IsBytes (slices texts.now)
        → AreRead shape.now skipped.now (slices texts.now) rs
        → ChecksUnlessMemory (λ v. records_of v.items) result (Ok rs) }

    // After known records, the record that can't be read or breaks a rule decides.
    ensures unread { (rest : List ℕ) (e : WireError) → AllByRecursion IsBytes (slices texts.now)
        → GoesOn shape.now skipped.now (slices texts.now) rest
        → 0 < length rest → any_record_at rest ≡ Err e
        → ChecksUnlessMemory (λ v. records_of v.items) result (Err (CanonError.Wire e)) }
    ensures broken { (rest others : List ℕ) (r : Record) (e : CanonError)
        → AllByRecursion IsBytes (slices texts.now)
        → GoesOn shape.now skipped.now (slices texts.now) rest
        → any_record_at rest ≡ Ok (r, others) → any_field_kept shape.now skipped.now r ≡ Err e
        → ChecksUnlessMemory (λ v. records_of v.items) result (Err e) }

    // The same in one equation.
    ensures exact { ChecksUnlessMemory (λ v. records_of v.items) result
        (any_fields_checked shape.now skipped.now (slices texts.now)) }
    // Without a field it takes no memory.
    ensures none { any_fields_checked shape.now skipped.now (slices texts.now) ≡ Ok []
        → IsOk result }
{
    any_checked(alloc, shape, skipped, texts)
}

fn any_checked<'a, A: Allocator>(
    alloc: A,
    shape: &Shape<'_>,
    skipped: &[u32],
    texts: &[&'a [u8]],
) -> Result<Vec<Field<'a>, A>, CanonError>
    ensures exact { ChecksUnlessMemory (λ v. records_of v.items) result
        (any_fields_checked shape.now skipped.now (slices texts.now)) }
    ensures none { any_fields_checked shape.now skipped.now (slices texts.now) ≡ Ok []
        → IsOk result }
{
    let mut fields = Vec::new(alloc);
    for text in texts {
        for field in Fields::any(text) {
            let field = field?;
            check_any_field(shape, skipped, &field)?;
            fields.push(field)?;
        }
    }
    Ok(fields)
}

/// The first rule of the shape that the field breaks, unless it is skipped.
#[tactic(auto, unfolding(crate::specs::Known::any_entry_kept, crate::specs::Known::any_field_kept))]
fn check_any_field(shape: &Shape<'_>, skipped: &[u32], field: &Field<'_>) -> Result<(), CanonError>
    ensures { Gives (λ x. x) result (any_field_kept shape.now skipped.now (record_of field.now)) }
{
    if skipped.contains(&field.number) {
        return Ok(());
    }
    let Some(entry) = shape.find(field.number) else {
        return Err(CanonError::UnknownField(field.number));
    };
    if !fits_wire_type(entry.kind, &field.payload) {
        return Err(CanonError::Wire(WireError::BadWireType));
    }
    if !is_text(entry.kind, &field.payload) {
        return Err(CanonError::BadUtf8);
    }
    Ok(())
}
