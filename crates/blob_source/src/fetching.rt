ghost use Rattle.std.specs.Prelude.{◌≡◌, ◌≢◌, IfOk, IfErr, IsErrOf, IsOk};
ghost use Rattle.blob_digest.specs.Digest.{empty_digest};
ghost use Rattle.blob_source.specs.Source.{Asks, AsksBlob, GrowsAt};
ghost use Rattle.blob_source.specs.Called.{Calls};
ghost use Rattle.blob_source.specs.Fetched.{Fetches};
ghost use Rattle.blob_source.specs.Told.{IsTold, IsFault};
ghost use Rattle.blob_source.specs.MessageFetchError.{ExplainsFetch, of_call};

use crate::source::{BlobSource, FetchError};
use blob_digest::Digest;
use messages::{Message, MessageError, decode};
use std::alloc::Allocator;
use thiserror::Error;

/// What a source has under a digest, hashed.
#[derive(Drop)]
pub enum Fetched<A: Allocator> {
    /// Nothing.
    Missing,
    /// Bytes with another hash or length.
    Wrong,
    /// The blob.
    Right(Vec<u8, A>),
}

/// Why no message with a digest is answered.
#[derive(Clone, Copy, Debug, PartialEq, Eq, Error)]
pub enum MessageFetchError {
    /// The source has no blob with the digest.
    #[error("the source has no blob with the digest")]
    Missing(Digest),
    /// What the source has under the digest has another hash or length.
    #[error("what the source has under the digest has another hash or length")]
    Wrong(Digest),
    /// The blob with the digest is no message of the kind that was asked for.
    #[error("the blob with the digest is no message of the kind")]
    Malformed(Digest),
    /// The source failed, and counted that.
    #[error("the blob source failed")]
    Failed,
    /// No memory was left.
    #[error("out of memory")]
    Memory,
}

impl From<FetchError> for MessageFetchError {
    ghost from_gives = { λ error e. e ≡ of_call error };

    fn from(error: FetchError) -> MessageFetchError {
        match error {
            FetchError::Failed => MessageFetchError::Failed,
            FetchError::Memory => MessageFetchError::Memory,
        }
    }
}

/// Fetches a blob and hashes it. The empty blob is always there, and isn't asked for.
#[tactic(auto, using(crate::proofs::Calling::calls_blob, crate::proofs::Calling::calls_none, crate::proofs::Asking::grows_none))]
pub fn fetch_blob<A: Allocator + Copy, S: BlobSource<A>>(
    alloc: A,
    source: &mut S,
    digest: &Digest,
) -> Result<Fetched<A>, FetchError>
    ensures told { IfOk result (Fetches (S.tells source.new).blobs digest.now) }
    ensures called { Calls (Asks 1) (S.tells source.old) (S.tells source.new)
        (IsErrOf result FetchError.Failed) }
    ensures only { GrowsAt digest.now (S.tells source.old).blobs (S.tells source.new).blobs }
    ensures unasked { digest.now ≡ empty_digest → S.tells source.new ≡ S.tells source.old }
    ensures empty { digest.now ≡ empty_digest → IsOk result }
    ensures once { digest.now ≢ empty_digest
        → AsksBlob digest.now (S.tells source.old) (S.tells source.new) }
{
    if *digest == Digest::empty() {
        return Ok(Fetched::Right(Vec::new(alloc)));
    }
    match source.fetch(alloc, digest)? {
        None => Ok(Fetched::Missing),
        Some(bytes) => {
            if Digest::of(&bytes) == *digest {
                Ok(Fetched::Right(bytes))
            } else {
                Ok(Fetched::Wrong)
            }
        }
    }
}

/// Fetches the message with a digest. Refusals: `Missing`, `Wrong` and `Malformed`.
pub fn fetch_message<A: Allocator + Copy, S: BlobSource<A>, M: Message<A>>(
    alloc: A,
    source: &mut S,
    digest: &Digest,
) -> Result<M, MessageFetchError>
    ensures told { IfOk result
        (IsTold M.keeps M.spells (S.tells source.new).blobs digest.now) }
    ensures faulty { IfErr result (ExplainsFetch
        (IsFault M.keeps M.spells (S.tells source.new).blobs digest.now)) }
    ensures called { Calls (Asks 1) (S.tells source.old) (S.tells source.new)
        (IsErrOf result MessageFetchError.Failed) }
    ensures only { GrowsAt digest.now (S.tells source.old).blobs (S.tells source.new).blobs }
    ensures unasked { digest.now ≡ empty_digest → S.tells source.new ≡ S.tells source.old }
    ensures once { digest.now ≢ empty_digest
        → AsksBlob digest.now (S.tells source.old) (S.tells source.new) }
{
    match fetch_blob(alloc, source, digest)? {
        Fetched::Missing => Err(MessageFetchError::Missing(*digest)),
        Fetched::Wrong => Err(MessageFetchError::Wrong(*digest)),
        Fetched::Right(bytes) => match decode(alloc, &bytes) {
            Ok(message) => Ok(message),
            Err(MessageError::Memory) => Err(MessageFetchError::Memory),
            Err(_) => Err(MessageFetchError::Malformed(*digest)),
        },
    }
}
