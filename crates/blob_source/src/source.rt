ghost use Rattle.std.specs.Prelude.{◌≡◌, ◌++◌, ◌∷◌, [], IfOk, OnOk, OnErr, IsErrOf, Some};
ghost use Rattle.blob_digest.specs.Digest.{digest_of};
ghost use Rattle.blob_source.specs.Source.{Telling, AsksBlob, AsksResult, bytes_of};
ghost use Rattle.blob_source.specs.Sink.{PutsBlob, PutsResult, IsPut};
ghost use Rattle.blob_source.specs.Called.{Calls};
ghost use Rattle.blob_source.specs.declared.source.FetchError.TheVariants as errors;

use blob_digest::Digest;
use std::alloc::{AllocError, AllocFailed, Allocator};
use thiserror::Error;

/// Why a source doesn't answer.
#[derive(Clone, Copy, Debug, PartialEq, Eq, Error)]
pub enum FetchError {
    /// The source failed, and counted that. One whose count is full answers `Memory` instead.
    #[error("the blob source failed")]
    Failed,
    /// No memory was left, or the count of failures is full.
    #[error("out of memory")]
    Memory,
}

impl From<AllocError> for FetchError {
    ghost from_gives = { λ _ e. e ≡ errors.Memory };

    fn from(_e: AllocError) -> FetchError {
        FetchError::Memory
    }
}

impl<T: Drop> From<AllocFailed<T>> for FetchError {
    ghost from_gives = { λ _ e. e ≡ errors.Memory };

    fn from(_e: AllocFailed<T>) -> FetchError {
        FetchError::Memory
    }
}

/// Where blobs and results come from: a table of each by digest, of which each call may tell more.
/// What was told stays told. What a source tells is never believed.
pub trait BlobSource<A: Allocator> {
    /// What it tells, how often it was called and failed, and which results were put into it.
    ghost tells: { Self → Telling };

    /// The bytes that it has under a digest.
    fn fetch(&mut self, alloc: A, digest: &Digest) -> Result<Option<Vec<u8, A>>, FetchError>
        ensures told { IfOk result (λ answer. bytes_of answer ≡ (tells self.new).blobs digest.now) }
        ensures called { Calls (AsksBlob digest.now) (tells self.old) (tells self.new)
            (IsErrOf result FetchError.Failed) };

    /// The result that it has for the action with a digest.
    fn result(&mut self, alloc: A, digest: &Digest) -> Result<Option<Vec<u8, A>>, FetchError>
        ensures told { IfOk result (λ answer.
            bytes_of answer ≡ (tells self.new).results digest.now) }
        ensures called { Calls (AsksResult digest.now) (tells self.old) (tells self.new)
            (IsErrOf result FetchError.Failed) };
}

/// A source into which blobs and results are put. What it told may give way to what is put under
/// the same digest, and nothing else does.
pub trait BlobSink<A: Allocator>: BlobSource<A> {
    /// Puts a blob under its digest, and answers that. Right bytes that it has there stay.
    fn put_blob(&mut self, alloc: A, bytes: &[u8]) -> Result<Digest, FetchError>
        ensures named { IfOk result (λ digest. digest ≡ digest_of bytes.now) }
        ensures held { OnOk result (IsPut bytes.now
            (Self.tells self.old).blobs (Self.tells self.new).blobs) }
        ensures called { Calls (PutsBlob bytes.now) (Self.tells self.old) (Self.tells self.new)
            (IsErrOf result FetchError.Failed) };

    /// Puts these bytes as the result of the action with a digest, in place of others.
    fn put_result(&mut self, alloc: A, digest: &Digest, bytes: &[u8]) -> Result<(), FetchError>
        ensures held { OnOk result ((Self.tells self.new).results digest.now ≡ Some bytes.now) }
        ensures listed { OnOk result ((Self.tells self.new).puts
            ≡ (Self.tells self.old).puts ++ digest.now ∷ []) }
        ensures unlisted { OnErr result ((Self.tells self.new).puts ≡ (Self.tells self.old).puts) }
        ensures called { Calls (PutsResult digest.now bytes.now)
            (Self.tells self.old) (Self.tells self.new) (IsErrOf result FetchError.Failed) };
}
