ghost use Rattle.std.specs.Prelude.{◌≡◌, ◌↔◌, ◌++◌, ◌∷◌, [], None, Ok, Some, IfOk, IsErrOf, IsOk};
ghost use Rattle.std.specs.Prelude.{IsTrue, OnErr, OnOk};
ghost use Rattle.blob_digest.specs.Digest.{DigestValue, digest_of};
ghost use Rattle.blob_source.specs.Called.{Calls};
ghost use Rattle.blob_source.specs.Memory.{telling_of, told_by};
ghost use Rattle.blob_source.specs.Memory.{HoldsBlob, ResultIsHeld, IsUnchanged, TellsNothing};
ghost use Rattle.blob_source.specs.Sink.{HasRight, IsPut, PutsBlob, PutsResult};
ghost use Rattle.blob_source.specs.Source.{AsksBlob, AsksResult, bytes_of};

use crate::source::{BlobSink, BlobSource, FetchError};
use blob_digest::Digest;
use std::alloc::{AllocError, Allocator};
use std::collections::BTreeMap;

/// A source over two tables in memory, which its owner fills, with right bytes or wrong ones.
/// It never fails.
#[derive(Drop)]
pub struct MemorySource<A: Allocator> {
    blobs: BTreeMap<Digest, Vec<u8, A>, A>,
    results: BTreeMap<Digest, Vec<u8, A>, A>,
    calls: u64,
    puts: Vec<Digest, A>,
}

impl<A: Allocator + Copy> MemorySource<A> {
    /// A source that has nothing.
    pub fn new(alloc: A) -> MemorySource<A>
        ensures { TellsNothing (telling_of result) }
    {
        MemorySource {
            blobs: BTreeMap::new(alloc),
            results: BTreeMap::new(alloc),
            calls: 0,
            puts: Vec::new(alloc),
        }
    }

    /// Holds these bytes as the blob under the digest, in place of others. They aren't hashed.
    pub fn hold_blob(&mut self, digest: Digest, bytes: Vec<u8, A>) -> Result<(), AllocError>
        ensures ok { OnOk result
            (HoldsBlob (telling_of self.old) (telling_of self.new) digest bytes.items) }
        ensures err { OnErr result (IsUnchanged (telling_of self.old) (telling_of self.new)) }
    {
        self.blobs.insert(digest, bytes)?;
        Ok(())
    }

    /// Holds these bytes as the result of the action with the digest, in place of others.
    pub fn hold_result(&mut self, digest: Digest, bytes: Vec<u8, A>) -> Result<(), AllocError>
        ensures ok { OnOk result
            (ResultIsHeld (telling_of self.old) (telling_of self.new) digest bytes.items) }
        ensures err { OnErr result (IsUnchanged (telling_of self.old) (telling_of self.new)) }
    {
        self.results.insert(digest, bytes)?;
        Ok(())
    }

    /// How often it was called.
    pub fn calls(&self) -> u64
        ensures { result ≡ (telling_of self.now).calls }
    {
        self.calls
    }

    /// The digests under which results were put, the latest last.
    pub fn puts(&self) -> &[Digest]
        ensures { result.now ≡ (telling_of self.now).puts }
    {
        &self.puts
    }

    /// Whether bytes with the digest stand under it.
    fn has_blob(&self, digest: &Digest) -> bool
        ensures { IsTrue result ↔ HasRight (told_by self.now.blobs) digest.now }
    {
        let Some(bytes) = self.blobs.get(digest) else {
            return false;
        };
        Digest::of(bytes) == *digest
    }
}

impl<A: Allocator + Copy> BlobSource<A> for MemorySource<A> {
    ghost use Rattle.blob_source.specs.Memory.{telling_of};

    ghost tells = { telling_of };

    // Where nothing stands under the digest, no memory is needed to say so.
    fn fetch(&mut self, alloc: A, digest: &Digest) -> Result<Option<Vec<u8, A>>, FetchError>
        ensures told { IfOk result
            (λ answer. bytes_of answer ≡ (telling_of self.new).blobs digest.now) }
        ensures called { Calls (AsksBlob digest.now) (telling_of self.old) (telling_of self.new)
            (IsErrOf result FetchError.Failed) }
        ensures absent { (telling_of self.old).blobs digest.now ≡ None → result ≡ Ok None }
    {
        self.calls = self.calls.saturating_add(1);
        match self.blobs.get(digest) {
            None => Ok(None),
            Some(bytes) => Ok(Some(Vec::from_slice(alloc, bytes)?)),
        }
    }

    fn result(&mut self, alloc: A, digest: &Digest) -> Result<Option<Vec<u8, A>>, FetchError>
        ensures told { IfOk result
            (λ answer. bytes_of answer ≡ (telling_of self.new).results digest.now) }
        ensures called { Calls (AsksResult digest.now) (telling_of self.old) (telling_of self.new)
            (IsErrOf result FetchError.Failed) }
        ensures absent { (telling_of self.old).results digest.now ≡ None → result ≡ Ok None }
    {
        self.calls = self.calls.saturating_add(1);
        match self.results.get(digest) {
            None => Ok(None),
            Some(bytes) => Ok(Some(Vec::from_slice(alloc, bytes)?)),
        }
    }
}

impl<A: Allocator + Copy> BlobSink<A> for MemorySource<A> {
    // A put that is refused leaves what is told.
    fn put_blob(&mut self, alloc: A, bytes: &[u8]) -> Result<Digest, FetchError>
        ensures named { IfOk result (λ digest. digest ≡ digest_of bytes.now) }
        ensures held { OnOk result (IsPut bytes.now
            (telling_of self.old).blobs (telling_of self.new).blobs) }
        ensures called { Calls (PutsBlob bytes.now) (telling_of self.old) (telling_of self.new)
            (IsErrOf result FetchError.Failed) }
        ensures refused { OnErr result ((e : DigestValue)
            → (telling_of self.new).blobs e ≡ (telling_of self.old).blobs e) }
        ensures there { HasRight (telling_of self.old).blobs (digest_of bytes.now) → IsOk result }
    {
        self.calls = self.calls.saturating_add(1);
        let digest = Digest::of(bytes);
        if self.has_blob(&digest) {
            return Ok(digest);
        }
        self.blobs.insert(digest, Vec::from_slice(alloc, bytes)?)?;
        Ok(digest)
    }

    fn put_result(&mut self, alloc: A, digest: &Digest, bytes: &[u8]) -> Result<(), FetchError>
        ensures held { OnOk result ((telling_of self.new).results digest.now ≡ Some bytes.now) }
        ensures listed { OnOk result ((telling_of self.new).puts
            ≡ (telling_of self.old).puts ++ digest.now ∷ []) }
        ensures unlisted { OnErr result ((telling_of self.new).puts ≡ (telling_of self.old).puts) }
        ensures called { Calls (PutsResult digest.now bytes.now)
            (telling_of self.old) (telling_of self.new) (IsErrOf result FetchError.Failed) }
        ensures refused { OnErr result ((e : DigestValue)
            → (telling_of self.new).results e ≡ (telling_of self.old).results e) }
    {
        self.calls = self.calls.saturating_add(1);
        self.puts.reserve(1)?;
        self.results
            .insert(*digest, Vec::from_slice(alloc, bytes)?)?;
        self.puts.push(*digest).unwrap();
        Ok(())
    }
}
