ghost use Rattle.std.specs.Prelude.{IsErrOf};
ghost use Rattle.blob_source.specs.Called.{Called};
ghost use Rattle.tree.specs.Memo.{IsKnownOf, WasRefused, Learns, LooksAtBlob, known_by};
ghost use Rattle.verifier.specs.Stage.{Answers};
ghost use Rattle.verifier.specs.StepChecks.{message};

use crate::fault::{Fault, fault_of};
use blob_digest::Digest;
use messages::Message;
use std::alloc::Allocator;
use tree::{BlobSource, Memo};

/// The message with a digest, or the cause that none is told.
pub(crate) fn told<A: Allocator + Copy, S: BlobSource<A>, M: Message<A>>(
    alloc: A,
    digest: &Digest,
    memo: &mut Memo<A>,
    source: &mut S,
) -> Result<M, Fault<A>>
    requires { IsKnownOf (known_by memo.old) (S.tells source.old) }
    ensures checked { Answers (message M.keeps M.spells (S.tells source.new).blobs digest.now)
        result }
    ensures called { Called (S.tells source.old) (S.tells source.new) (IsErrOf result Fault.Fetch) }
    ensures learned { Learns (LooksAtBlob digest.now) (WasRefused result)
        (known_by memo.old) (known_by memo.new) (S.tells source.old) (S.tells source.new) }
{
    match memo.message(alloc, source, digest) {
        Ok(message) => Ok(message),
        Err(error) => Err(fault_of(error)),
    }
}
