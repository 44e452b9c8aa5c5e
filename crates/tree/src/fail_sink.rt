ghost use Rattle.std.specs.Prelude.{◌≡◌, ◌<◌, ◌++◌, ◌∷◌, [], Ok, Some, IfOk};
ghost use Rattle.std.specs.Prelude.{◌↔◌, IsErr, IsErrOf, IsTrue, OnErr, OnOk};
ghost use Rattle.blob_digest.specs.Digest.{digest_of};
ghost use Rattle.blob_source.specs.Called.{Calls};
ghost use Rattle.blob_source.specs.Sink.{IsPut, PutsBlob, PutsResult};
ghost use Rattle.blob_source.specs.Source.{AsksBlob, AsksResult, bytes_of, greatest_count};
ghost use Rattle.tree.specs.FailSink.{BeginsCall, CountsFailure, FailsOnce, IsFreshSink};
ghost use Rattle.tree.specs.FailSink.{IsSameSink, failures_of, inner_of, telling_of};
ghost use Rattle.tree.specs.FailSink.{until_failure_of};

use blob_digest::Digest;
use blob_source::{BlobSink, BlobSource, FetchError};
use std::alloc::Allocator;

/// A sink that hands each call on to another but for one, which fails and doesn't reach the other.
/// Its counts of calls and of failures are its own.
#[derive(Drop)]
pub struct FailSink<S> {
    inner: S,
    until_failure: u64,
    calls: u64,
    failures: u64,
}

impl<S> FailSink<S> {
    /// A sink over this one, of whose calls the one of this number fails: 1 is the first, and with
    /// 0 none does.
    pub fn new(inner: S, number: u64) -> FailSink<S>
        ensures { IsFreshSink inner number result }
    {
        FailSink {
            inner,
            until_failure: number,
            calls: 0,
            failures: 0,
        }
    }

    /// The sink that gets the other calls.
    pub fn inner(&self) -> &S
        ensures { result.now ≡ inner_of self.now }
    {
        &self.inner
    }

    /// The call from here on that fails, 1 being the next; 0 where none will.
    pub fn until_failure(&self) -> u64
        ensures { result ≡ until_failure_of self.now }
    {
        self.until_failure
    }

    /// How often it failed, be it by itself or since the other did.
    pub fn failures(&self) -> u64
        ensures { result ≡ failures_of self.now }
    {
        self.failures
    }

    /// Counts a failure. One whose count is full is lack of memory instead.
    fn fail<T>(&mut self) -> Result<T, FetchError>
        ensures err { IsErr result }
        ensures failed { failures_of self.old < greatest_count → IsErrOf result FetchError.Failed }
        ensures counted { CountsFailure (failures_of self.old) (failures_of self.new) result }
        ensures same { IsSameSink self.old self.new }
    {
        let count = &mut self.failures;
        let Some(failures) = count.checked_add(1) else {
            return Err(FetchError::Memory);
        };
        *count = failures;
        Err(FetchError::Failed)
    }

    /// Counts a call, and tells whether it is the one that fails.
    fn is_due(&mut self) -> bool
        ensures due { IsTrue result ↔ (until_failure_of self.old ≡ 1) }
        ensures begun { BeginsCall self.old self.new }
    {
        self.calls = self.calls.saturating_add(1);
        let number = &mut self.until_failure;
        let is_due = *number == 1;
        *number = number.saturating_sub(1);
        is_due
    }

    /// The answer of the other sink, whose failure is counted.
    fn pass_on<T>(&mut self, answer: Result<T, FetchError>) -> Result<T, FetchError>
        ensures ok { IfOk result (λ value. answer ≡ Ok value) }
        ensures err { OnErr result (IsErr answer) }
        ensures passed { failures_of self.old < greatest_count → result ≡ answer }
        ensures counted { CountsFailure (failures_of self.old) (failures_of self.new) result }
        ensures same { IsSameSink self.old self.new }
    {
        let _count = self.failures;
        match answer {
            Err(FetchError::Failed) => self.fail(),
            answer => answer,
        }
    }
}

impl<A: Allocator, S: BlobSource<A>> BlobSource<A> for FailSink<S> {
    ghost tells = { telling_of S.tells };

    fn fetch(&mut self, alloc: A, digest: &Digest) -> Result<Option<Vec<u8, A>>, FetchError>
        ensures told { IfOk result
            (λ answer. bytes_of answer ≡ (S.tells (inner_of self.new)).blobs digest.now) }
        ensures called { Calls (AsksBlob digest.now) (telling_of S.tells self.old)
            (telling_of S.tells self.new) (IsErrOf result FetchError.Failed) }
        ensures fails_once { FailsOnce S.tells (AsksBlob digest.now) self.old self.new result }
    {
        if self.is_due() {
            return self.fail();
        }
        let answer = self.inner.fetch(alloc, digest);
        self.pass_on(answer)
    }

    fn result(&mut self, alloc: A, digest: &Digest) -> Result<Option<Vec<u8, A>>, FetchError>
        ensures told { IfOk result
            (λ answer. bytes_of answer ≡ (S.tells (inner_of self.new)).results digest.now) }
        ensures called { Calls (AsksResult digest.now) (telling_of S.tells self.old)
            (telling_of S.tells self.new) (IsErrOf result FetchError.Failed) }
        ensures fails_once { FailsOnce S.tells (AsksResult digest.now) self.old self.new result }
    {
        if self.is_due() {
            return self.fail();
        }
        let answer = self.inner.result(alloc, digest);
        self.pass_on(answer)
    }
}

impl<A: Allocator, S: BlobSink<A>> BlobSink<A> for FailSink<S> {
    fn put_blob(&mut self, alloc: A, bytes: &[u8]) -> Result<Digest, FetchError>
        ensures named { IfOk result (λ digest. digest ≡ digest_of bytes.now) }
        ensures held { OnOk result (IsPut bytes.now (S.tells (inner_of self.old)).blobs
            (S.tells (inner_of self.new)).blobs) }
        ensures called { Calls (PutsBlob bytes.now) (telling_of S.tells self.old)
            (telling_of S.tells self.new) (IsErrOf result FetchError.Failed) }
        ensures fails_once { FailsOnce S.tells (PutsBlob bytes.now) self.old self.new result }
    {
        if self.is_due() {
            return self.fail();
        }
        let answer = self.inner.put_blob(alloc, bytes);
        self.pass_on(answer)
    }

    fn put_result(&mut self, alloc: A, digest: &Digest, bytes: &[u8]) -> Result<(), FetchError>
        ensures held { OnOk result
            ((S.tells (inner_of self.new)).results digest.now ≡ Some bytes.now) }
        ensures listed { OnOk result ((S.tells (inner_of self.new)).puts
            ≡ (S.tells (inner_of self.old)).puts ++ digest.now ∷ []) }
        ensures unlisted { OnErr result
            ((S.tells (inner_of self.new)).puts ≡ (S.tells (inner_of self.old)).puts) }
        ensures called { Calls (PutsResult digest.now bytes.now) (telling_of S.tells self.old)
            (telling_of S.tells self.new) (IsErrOf result FetchError.Failed) }
        ensures fails_once { FailsOnce S.tells (PutsResult digest.now bytes.now)
            self.old self.new result }
    {
        if self.is_due() {
            return self.fail();
        }
        let answer = self.inner.put_result(alloc, digest, bytes);
        self.pass_on(answer)
    }
}
