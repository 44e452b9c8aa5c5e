ghost use Rattle.std.specs.Prelude.{◌≡◌, IfOk, IfErr, IsErrOf, IsOk};
ghost use Rattle.blob_digest.specs.Digest.{empty_digest};
ghost use Rattle.blob_source.specs.Source.{Asks, IsBlobUnder};
ghost use Rattle.blob_source.specs.Called.{Calls};
ghost use Rattle.blob_source.specs.Told.{IsTold, IsFault};
ghost use Rattle.tree.specs.Memo.{AsksNoOther, LooksAtBlob};
ghost use Rattle.tree.specs.TreeError.{Explains, FailsBlob};

use crate::error::TreeError;
use blob_digest::Digest;
use blob_source::{BlobSource, Fetched, fetch_blob};
use messages::Message;
use std::alloc::Allocator;

/// Fetches the message with a digest. This is the call of `blob_source` with its refusals among
/// those of trees, for calls that tell both.
#[tactic(auto, using(crate::proofs::Memos::others_at))]
pub fn fetch_message<A: Allocator + Copy, S: BlobSource<A>, M: Message<A>>(
    alloc: A,
    source: &mut S,
    digest: &Digest,
) -> Result<M, TreeError<A>>
    ensures told { IfOk result
        (IsTold M.keeps M.spells (S.tells source.new).blobs digest.now) }
    ensures faulty { IfErr result (Explains
        (IsFault M.keeps M.spells (S.tells source.new).blobs digest.now)) }
    ensures called { Calls (Asks 1) (S.tells source.old) (S.tells source.new)
        (IsErrOf result TreeError.Fetch) }
    ensures only { AsksNoOther (LooksAtBlob digest.now)
        (S.tells source.old) (S.tells source.new) }
    ensures unasked { digest.now ≡ empty_digest → S.tells source.new ≡ S.tells source.old }
{
    Ok(blob_source::fetch_message(alloc, source, digest)?)
}

/// Fetches the content of a file by its digest. Refusals: `BlobMissing` and `BlobWrong`.
#[tactic(auto, using(crate::proofs::Memos::others_at))]
pub fn fetch_content<A: Allocator + Copy, S: BlobSource<A>>(
    alloc: A,
    source: &mut S,
    digest: &Digest,
) -> Result<Vec<u8, A>, TreeError<A>>
    ensures told { IfOk result
        (λ content. IsBlobUnder (S.tells source.new).blobs digest.now content.items) }
    ensures faulty { IfErr result
        (Explains (FailsBlob (S.tells source.new).blobs digest.now)) }
    ensures called { Calls (Asks 1) (S.tells source.old) (S.tells source.new)
        (IsErrOf result TreeError.Fetch) }
    ensures only { AsksNoOther (LooksAtBlob digest.now)
        (S.tells source.old) (S.tells source.new) }
    ensures unasked { digest.now ≡ empty_digest → S.tells source.new ≡ S.tells source.old }
    ensures empty { digest.now ≡ empty_digest → IsOk result }
{
    match fetch_blob(alloc, source, digest)? {
        Fetched::Missing => Err(TreeError::BlobMissing(*digest)),
        Fetched::Wrong => Err(TreeError::BlobWrong(*digest)),
        Fetched::Right(content) => Ok(content),
    }
}
