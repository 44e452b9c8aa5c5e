ghost use Rattle.std.specs.Prelude.{◌≡◌, ◌⊎◌, ℕ, ◌<◌, IfOk, IfErr, IsOk, IsTrue, OnOk, Ok};
ghost use Rattle.wire.specs.Record.{record_of, records_of, value_of};
ghost use Rattle.messages.specs.Gives.{GivesUnlessMemory};
ghost use Rattle.messages.specs.declared.error.MessageError.TheVariants.{Memory};
ghost use Rattle.action_messages.specs.Unordered.{any_stream_at, unordered_in, unordered};
ghost use Rattle.action_messages.specs.Refused.{element_checked, digest_checked, begun_at};
ghost use Rattle.action_messages.specs.Refused.{NoneRefused, IsFirstRefused, IsUnreadResult};

use crate::output::{OutputDirectory, OutputFile, OutputSymlink};
use crate::shapes::{
    action_result_shape, output_directory_shape, output_file_shape, output_symlink_shape,
};
use crate::stream::Stream;
use blob_digest::Digest;
use canonical::{read_bool, read_bytes, read_int32};
use messages::{
    MessageError, Path, Target, Tolerant, read_any_each, read_any_fields, read_any_optional,
};
use std::alloc::Allocator;
use std::marker::Model;
use wire::{Field, Payload};

#[tactic(auto, unfolding(crate::specs::Unordered::any_output_file))]
impl<A: Allocator + Copy> Tolerant<A> for OutputFile<A> {
    ghost use Rattle.action_messages.specs.Unordered.{any_output_file};

    ghost says = { any_output_file };

    fn read_any(alloc: A, texts: &[&[u8]]) -> Result<OutputFile<A>, MessageError> {
        let fields = read_any_fields(alloc, &output_file_shape(), &[], texts)?;
        let digest: Option<Digest> = read_any_optional(alloc, &fields, 2)?;
        let digest = digest.ok_or(MessageError::MissingField(2))?;
        let path = Path::new(alloc, read_bytes(&fields, 1))?;
        Ok(OutputFile {
            path,
            digest,
            executable: read_bool(&fields, 4),
        })
    }
}

#[tactic(auto, unfolding(crate::specs::Unordered::any_output_directory))]
impl<A: Allocator + Copy> Tolerant<A> for OutputDirectory<A> {
    ghost use Rattle.action_messages.specs.Unordered.{any_output_directory};

    ghost says = { any_output_directory };

    fn read_any(alloc: A, texts: &[&[u8]]) -> Result<OutputDirectory<A>, MessageError> {
        let fields = read_any_fields(alloc, &output_directory_shape(), &[4], texts)?;
        let tree_digest: Option<Digest> = read_any_optional(alloc, &fields, 3)?;
        let tree_digest = tree_digest.ok_or(MessageError::MissingField(3))?;
        let path = Path::new(alloc, read_bytes(&fields, 1))?;
        Ok(OutputDirectory { path, tree_digest })
    }
}

#[tactic(auto, unfolding(crate::specs::Unordered::any_output_symlink))]
impl<A: Allocator + Copy> Tolerant<A> for OutputSymlink<A> {
    ghost use Rattle.action_messages.specs.Unordered.{any_output_symlink};

    ghost says = { any_output_symlink };

    fn read_any(alloc: A, texts: &[&[u8]]) -> Result<OutputSymlink<A>, MessageError> {
        let fields = read_any_fields(alloc, &output_symlink_shape(), &[], texts)?;
        let path = Path::new(alloc, read_bytes(&fields, 1))?;
        let target = Target::new(alloc, read_bytes(&fields, 2))?;
        Ok(OutputSymlink { path, target })
    }
}

/// The bytes of the field of this number, and the digest of the next.
#[tactic(auto, unfolding(crate::specs::Unordered::any_stream_at))]
fn read_any_stream<A: Allocator + Copy>(
    alloc: A,
    fields: &[Field<'_>],
    number: u32,
) -> Result<Stream<A>, MessageError>
    requires { number < 536870911 }
    ensures { GivesUnlessMemory (λ s. s) result (any_stream_at number (records_of fields.now)) }
{
    let digest = read_any_optional(alloc, fields, number + 1)?;
    let raw = Vec::from_slice(alloc, read_bytes(fields, number))?;
    Ok(Stream::new(raw, digest))
}

/// The first refusal of the message in a field, if it is one.
fn check_element<A: Allocator + Copy, M: Tolerant<A>>(
    alloc: A,
    payload: &Payload<'_>,
) -> Result<(), MessageError>
    ensures { GivesUnlessMemory (λ x. x) result
        (element_checked M.says (value_of payload.now)) }
{
    if let Payload::Bytes(bytes) = payload {
        let _read: M = M::read_any(alloc, &[*bytes])?;
    }
    Ok(())
}

/// The first refusal of the digest of a single field, unless one of its fields came before.
fn check_digest<A: Allocator + Copy>(
    alloc: A,
    came: bool,
    number: u32,
    fields: &[Field<'_>],
) -> Result<(), MessageError>
    ensures exact { GivesUnlessMemory (λ x. x) result
        (digest_checked came number (records_of fields.now)) }
    ensures came { IsTrue came → IsOk result }
{
    if !came {
        let _read: Option<Digest> = read_any_optional(alloc, fields, number)?;
    }
    Ok(())
}

/// The first refusal of the output or digest that begins with the field, among all fields, where
/// it is told whether fields of stdout's and stderr's digests came before.
#[tactic(auto, unfolding(crate::specs::Refused::begun_at))]
fn check_begun<A: Allocator + Copy>(
    alloc: A,
    fields: &[Field<'_>],
    stdout_came: bool,
    stderr_came: bool,
    field: &Field<'_>,
) -> Result<(), MessageError>
    ensures { GivesUnlessMemory (λ x. x) result
        (begun_at (records_of fields.now) stdout_came stderr_came (record_of field.now)) }
{
    match field.number {
        2 => check_element::<A, OutputFile<A>>(alloc, &field.payload),
        3 => check_element::<A, OutputDirectory<A>>(alloc, &field.payload),
        6 => check_digest(alloc, stdout_came, 6, fields),
        8 => check_digest(alloc, stderr_came, 8, fields),
        12 => check_element::<A, OutputSymlink<A>>(alloc, &field.payload),
        _ => Ok(()),
    }
}

/// The first refusal of an output or a digest, in the order of their first fields.
fn check_nested<A: Allocator + Copy>(alloc: A, fields: &[Field<'_>]) -> Result<(), MessageError>
    ensures refused { IfErr result (λ e. (e ≡ Memory) ⊎ IsFirstRefused e (records_of fields.now)) }
    ensures none { OnOk result (NoneRefused (records_of fields.now) (records_of fields.now)) }
{
    let mut stdout_came = false;
    let mut stderr_came = false;
    for field in fields {
        check_begun(alloc, fields, stdout_came, stderr_came, field)?;
        stdout_came |= field.number == 6;
        stderr_came |= field.number == 8;
    }
    Ok(())
}

/// What a result's fields say, its outputs in the order of the bytes.
#[derive(Drop)]
pub(crate) struct Unordered<A: Allocator> {
    pub(crate) files: Vec<OutputFile<A>, A>,
    pub(crate) directories: Vec<OutputDirectory<A>, A>,
    pub(crate) symlinks: Vec<OutputSymlink<A>, A>,
    pub(crate) exit_code: i32,
    pub(crate) stdout: Stream<A>,
    pub(crate) stderr: Stream<A>,
}

impl<A: Allocator> Model for Unordered<A> {
    ghost use Rattle.action_messages.specs.ActionResult.{ActionResultValue};

    ghost Value = { ActionResultValue };

    ghost view = { λ a. record {
      files = a.files.items;
      directories = a.directories.items;
      symlinks = a.symlinks.items;
      exit_code = a.exit_code;
      stdout = a.stdout;
      stderr = a.stderr;
    } };
}

#[tactic(auto, unfolding(crate::specs::Unordered::unordered_in))]
fn read_unordered_in<A: Allocator + Copy>(
    alloc: A,
    fields: &[Field<'_>],
) -> Result<Unordered<A>, MessageError>
    ensures { GivesUnlessMemory (λ u. u) result (unordered_in (records_of fields.now)) }
{
    let files = read_any_each(alloc, fields, 2)?;
    let directories = read_any_each(alloc, fields, 3)?;
    let stdout = read_any_stream(alloc, fields, 5)?;
    let stderr = read_any_stream(alloc, fields, 7)?;
    let symlinks = read_any_each(alloc, fields, 12)?;
    let exit_code = read_int32(fields, 4);
    Ok(Unordered {
        files,
        directories,
        symlinks,
        exit_code,
        stdout,
        stderr,
    })
}

/// What the bytes of a result say, its outputs in their order. The first refusal is looked for only
/// where there is one.
#[tactic(auto, unfolding(crate::specs::Unordered::unordered))]
pub(crate) fn read_unordered<A: Allocator + Copy>(
    alloc: A,
    bytes: &[u8],
) -> Result<Unordered<A>, MessageError>
    ensures read { IfOk result (λ u. unordered bytes.now ≡ Ok u) }
    ensures refused { IfErr result (λ e. (e ≡ Memory) ⊎ IsUnreadResult e bytes.now) }
{
    let fields = read_any_fields(alloc, &action_result_shape(), &[9], &[bytes])?;
    match read_unordered_in(alloc, &fields) {
        Ok(unordered) => Ok(unordered),
        Err(error) => {
            check_nested(alloc, &fields)?;
            Err(error)
        }
    }
}
