ghost use Rattle.std.specs.Prelude.{◌≡◌, ◌↔◌, IsTrue, IfOk, None, Ok, OnOk, OnErr};
ghost use Rattle.blob_source.specs.Sink.{HasRight};
ghost use Rattle.blob_source.specs.Source.{bytes_of};
ghost use Rattle.blob_digest.specs.Digest.{DigestValue};
ghost use Rattle.remote.specs.Table.{HasAnswer, KeepsAnswers, KeepsNone, told_by};
ghost use Rattle.remote.specs.Steps.{KeepsAnswer};

use blob_digest::Digest;
use std::alloc::{AllocError, Allocator};
use std::collections::BTreeMap;

/// Answers by digests, each of which has bytes or none.
#[derive(Drop)]
pub(crate) struct Table<A: Allocator> {
    answers: BTreeMap<Digest, Option<Vec<u8, A>>, A>,
}

impl<A: Allocator + Copy> Table<A> {
    /// A table without answers.
    pub(crate) fn new(alloc: A) -> Table<A>
        ensures { (digest : DigestValue) → HasAnswer result digest → ⊥ }
    {
        Table {
            answers: BTreeMap::new(alloc),
        }
    }

    /// Whether there is an answer under the digest.
    pub(crate) fn has(&self, digest: &Digest) -> bool
        ensures { IsTrue result ↔ HasAnswer self.now digest.now }
    {
        self.answers.contains_key(digest)
    }

    /// Whether it is kept that nothing is there under the digest.
    pub(crate) fn has_none(&self, digest: &Digest) -> bool
        ensures { IsTrue result ↔ KeepsNone self.now digest.now }
    {
        matches!(self.answers.get(digest), Some(None))
    }

    /// Whether bytes with the digest stand under it.
    pub(crate) fn has_right(&self, digest: &Digest) -> bool
        ensures { IsTrue result ↔ HasRight (told_by self.now) digest.now }
    {
        match self.answers.get(digest) {
            Some(Some(bytes)) => Digest::of(bytes) == *digest,
            _ => false,
        }
    }

    /// A copy of the bytes under the digest.
    pub(crate) fn copied(&self, alloc: A, digest: &Digest) -> Result<Option<Vec<u8, A>>, AllocError>
        ensures told { IfOk result (λ answer. bytes_of answer ≡ told_by self.now digest.now) }
        ensures absent { told_by self.now digest.now ≡ None → result ≡ Ok None }
    {
        match self.answers.get(digest) {
            Some(Some(bytes)) => Ok(Some(Vec::from_slice(alloc, bytes)?)),
            _ => Ok(None),
        }
    }

    /// Keeps an answer under the digest, in place of another.
    pub(crate) fn keep(
        &mut self,
        digest: &Digest,
        answer: Option<Vec<u8, A>>,
    ) -> Result<(), AllocError>
        ensures ok { OnOk result (KeepsAnswer self.old self.new digest.now (bytes_of answer)) }
        ensures err { OnErr result (KeepsAnswers self.old self.new) }
    {
        self.answers.insert(*digest, answer)?;
        Ok(())
    }
}
