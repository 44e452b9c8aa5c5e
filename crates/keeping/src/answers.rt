ghost use Rattle.std.specs.Prelude.{◌≡◌, IfOk, None, OnErr, OnOk};
ghost use Rattle.blob_digest.specs.Digest.{DigestValue};
ghost use Rattle.blob_source.specs.Source.{bytes_of};
ghost use Rattle.keeping.specs.Answers.{IsSame, Keeps, answer_at};

use blob_digest::Digest;
use std::alloc::{AllocError, Allocator};
use std::collections::BTreeMap;

/// Answers by digests, each of which has bytes or none.
#[derive(Drop)]
pub(crate) struct Answers<A: Allocator> {
    pub(crate) answers: BTreeMap<Digest, Option<Vec<u8, A>>, A>,
}

/// A copy of an answer.
fn copied<A: Allocator>(
    alloc: A,
    answer: &Option<Vec<u8, A>>,
) -> Result<Option<Vec<u8, A>>, AllocError>
    ensures { IfOk result (λ copy. bytes_of copy ≡ bytes_of answer.now) }
{
    match answer {
        None => Ok(None),
        Some(bytes) => Ok(Some(Vec::from_slice(alloc, bytes)?)),
    }
}

impl<A: Allocator + Copy> Answers<A> {
    /// No answers.
    pub(crate) fn new(alloc: A) -> Answers<A>
        ensures { (d : DigestValue) → answer_at result d ≡ None }
    {
        Answers {
            answers: BTreeMap::new(alloc),
        }
    }

    /// Keeps a copy of an answer, in place of another under the digest.
    pub(crate) fn keep(
        &mut self,
        alloc: A,
        digest: &Digest,
        answer: &Option<Vec<u8, A>>,
    ) -> Result<(), AllocError>
        ensures ok { OnOk result (Keeps self.old self.new digest.now (bytes_of answer.now)) }
        ensures err { OnErr result (IsSame self.old self.new) }
    {
        let copy = copied(alloc, answer)?;
        self.answers.insert(*digest, copy)?;
        Ok(())
    }
}
