ghost use Rattle.std.specs.Prelude.{◌≡◌, IfOk, IsErrOf, OnErr, OnOk};
ghost use Rattle.blob_source.specs.Called.{Calls};
ghost use Rattle.blob_source.specs.Source.{AsksBlob, AsksResult, bytes_of};
ghost use Rattle.keeping.specs.Kept.{IsSameKept, KeepsBlob, KeepsResult};

use crate::kept::Kept;
use blob_digest::Digest;
use blob_source::{BlobSource, FetchError};
use std::alloc::Allocator;

/// A source that keeps what it was asked for and told. It tells what the source below it tells.
#[derive(Drop)]
pub struct Keeping<S, A: Allocator> {
    source: S,
    kept: Kept<A>,
}

impl<S: BlobSource<A> + Drop, A: Allocator + Copy> Keeping<S, A> {
    ghost use Rattle.keeping.specs.Keeping.{kept_of, source_of};

    /// A source over another one, which goes on keeping.
    pub fn new(source: S, kept: Kept<A>) -> Keeping<S, A>
        ensures source { source_of result ≡ source }
        ensures kept { kept_of result ≡ kept }
    {
        Keeping { source, kept }
    }

    /// The source below it, and what was kept.
    pub fn into_parts(self) -> (S, Kept<A>)
        ensures source { result.0 ≡ source_of self }
        ensures kept { result.1 ≡ kept_of self }
    {
        (self.source, self.kept)
    }
}

impl<S: BlobSource<A> + Drop, A: Allocator + Copy> BlobSource<A> for Keeping<S, A> {
    ghost use Rattle.keeping.specs.Keeping.{kept_of};

    ghost tells = { λ s. S.tells s.source };

    fn fetch(&mut self, alloc: A, digest: &Digest) -> Result<Option<Vec<u8, A>>, FetchError>
        ensures told { IfOk result
            (λ answer. bytes_of answer ≡ (S.tells self.new.source).blobs digest.now) }
        ensures called { Calls (AsksBlob digest.now) (S.tells self.old.source)
            (S.tells self.new.source) (IsErrOf result FetchError.Failed) }
        ensures kept { IfOk result
            (λ answer. KeepsBlob (kept_of self.old) (kept_of self.new) digest.now
            (bytes_of answer)) }
        ensures failed { OnErr result (IsSameKept (kept_of self.old) (kept_of self.new)) }
    {
        let answer = self.source.fetch(alloc, digest)?;
        self.kept.keep_blob(alloc, digest, &answer)?;
        Ok(answer)
    }

    fn result(&mut self, alloc: A, digest: &Digest) -> Result<Option<Vec<u8, A>>, FetchError>
        ensures told { IfOk result
            (λ answer. bytes_of answer ≡ (S.tells self.new.source).results digest.now) }
        ensures called { Calls (AsksResult digest.now) (S.tells self.old.source)
            (S.tells self.new.source) (IsErrOf result FetchError.Failed) }
        ensures kept { IfOk result
            (λ answer. KeepsResult (kept_of self.old) (kept_of self.new) digest.now
            (bytes_of answer)) }
        ensures failed { OnErr result (IsSameKept (kept_of self.old) (kept_of self.new)) }
    {
        let answer = self.source.result(alloc, digest)?;
        self.kept.keep_result(alloc, digest, &answer)?;
        Ok(answer)
    }
}
