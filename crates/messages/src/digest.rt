ghost use Rattle.std.specs.Prelude.{◌≡◌, List, ℕ, IfOk, Ok};
ghost use Rattle.blob_digest.specs.DigestValue.{DigestValue, IsDigest};
ghost use Rattle.messages.specs.Gives.{GivesUnlessMemory};
ghost use Rattle.messages.specs.DigestMessage.{hash_of, digest_bytes, digest_in, decoded_digest};
ghost use Rattle.wire.specs.Record.{records_of};
ghost use Rattle.wire.specs.Steps.{Gives};

use crate::error::MessageError;
use crate::message::{Encode, Message, decode, read_fields};
use crate::shapes::digest_shape;
use crate::tolerant::{Tolerant, read_any_fields};
use blob_digest::{Digest, DigestError, read_hash};
use canonical::{read_bytes, read_int64, write_bytes, write_int64};
use std::alloc::{AllocError, Allocator};
use wire::Field;

/// The hash that 64 lower-case hex digits spell.
fn checked_hash(text: &[u8]) -> Result<[u8; 32], MessageError>
    ensures { Gives (λ h. h) result (hash_of text.now) }
{
    match read_hash(text) {
        Some(hash) => Ok(hash),
        None => Err(MessageError::BadDigest(DigestError::BadHex)),
    }
}

/// What the fields of a digest say.
fn digest_in(fields: &[Field<'_>]) -> Result<Digest, MessageError>
    ensures { Gives (λ d. d) result (digest_in (records_of fields.now)) }
{
    let hash = checked_hash(read_bytes(fields, 1))?;
    let size = read_int64(fields, 2);
    if size < 0 {
        return Err(MessageError::BadDigest(DigestError::BadSize));
    }
    Ok(Digest::new(hash, size as u64))
}

/// `Digest`: field 1 is the hash in hex, field 2 the size in bytes.
#[tactic(auto, using(crate::proofs::Spellings::spelled_parts))]
impl<A: Allocator + Copy> Encode<A> for Digest {
    ghost use Rattle.messages.specs.DigestMessage.{digest_bytes};

    ghost spells = { digest_bytes };

    fn write(&self, alloc: A) -> Result<Vec<u8, A>, AllocError> {
        let mut out = Vec::new(alloc);
        write_bytes(&mut out, 1, &self.hash_text())?;
        write_int64(&mut out, 2, self.size() as i64)?;
        Ok(out)
    }
}

#[tactic(auto, unfolding(crate::specs::DigestMessage::decoded_digest))]
impl<A: Allocator + Copy> Message<A> for Digest {
    ghost use Rattle.blob_digest.specs.DigestValue.{IsDigest};
    ghost use Rattle.messages.specs.DigestMessage.{decoded_digest};

    ghost reads = { decoded_digest };

    ghost keeps = { IsDigest };

    fn is_exact() {}

    fn read(alloc: A, bytes: &[u8]) -> Result<Digest, MessageError> {
        let fields = read_fields(alloc, &digest_shape(), bytes)?;
        digest_in(&fields)
    }
}

#[tactic(auto, unfolding(crate::specs::Tolerant::any_digest))]
impl<A: Allocator + Copy> Tolerant<A> for Digest {
    ghost use Rattle.messages.specs.Tolerant.{any_digest};

    ghost says = { any_digest };

    fn read_any(alloc: A, texts: &[&[u8]]) -> Result<Digest, MessageError> {
        let fields = read_any_fields(alloc, &digest_shape(), &[], texts)?;
        digest_in(&fields)
    }
}

/// The digest whose canonical encoding the bytes are. Refusals: `Wire` and `Unsupported`, then
/// `BadDigest`.
pub fn decode_digest<A: Allocator + Copy>(alloc: A, bytes: &[u8]) -> Result<Digest, MessageError>
    ensures found { IfOk result (λ digest. IsDigest digest × (bytes.now ≡ digest_bytes digest)) }
    ensures only { (digest : DigestValue) → IsDigest digest → bytes.now ≡ digest_bytes digest
        → GivesUnlessMemory (λ d. d) result (Ok digest) }
    // Which refusal comes first.
    ensures exact { GivesUnlessMemory (λ d. d) result (decoded_digest bytes.now) }
{
    decode(alloc, bytes)
}

/// The canonical encoding of a digest.
pub fn encode_digest<A: Allocator + Copy>(
    alloc: A,
    digest: &Digest,
) -> Result<Vec<u8, A>, AllocError>
    ensures bytes { IfOk result (λ bytes. bytes.items ≡ digest_bytes digest.now) }
    ensures valid { IsDigest digest.now }
{
    let _ = digest.size();
    digest.write(alloc)
}
