ghost use Rattle.std.specs.Prelude.{◌≡◌, ◌≤◌, ◌+◌, IfNone, IfOk, IfSome, IsErrOf, IsTrue, Ok};
ghost use Rattle.std.specs.Prelude.{string_bytes};
ghost use Rattle.blob_source.specs.Called.{Calls};
ghost use Rattle.blob_source.specs.Source.{AsksBlob, bytes_of, greatest_count};
ghost use Rattle.commands.specs.Client.{remote_of};
ghost use Rattle.commands.specs.Faults.{OrMemory, error_of_file};
ghost use Rattle.commands.specs.Places.{FailsOfParts, LacksOfParts, LacksOver, gets_blobs};
ghost use Rattle.http_core.specs.declared.event.Area.TheVariants.{Cas};
ghost use Rattle.remote.specs.Folder.{error_of};
ghost use Rattle.remote.specs.Remote.{telling_of};

use crate::client::{Client, GetsBlobs, Opened};
use crate::connecting::ServerOptions;
use crate::error::CommandError;
use crate::folder_store::{FolderMark, FolderStore};
use crate::world::Inputs;
use blob_digest::Digest;
use blob_source::{BlobSource, FetchError};
use remote::Stream;
use std::alloc::{AllocError, Global};
use text_verifier::Lack;

/// Blobs over the marked connection, and results of the marked folder.
#[derive(Drop)]
pub(crate) struct BlobsAndResults<'w, S: Stream + Drop, K: Opened, W: Inputs, F: FolderMark> {
    blobs: Client<S, K, GetsBlobs>,
    results: FolderStore<'w, W, F>,
    calls: u64,
    failures: u64,
    ghost few: { (telling_of (remote_of blobs)).calls ≤ calls },
}

/// Counts a call that failed. Where no more can be counted it lacks memory.
fn count_failure<T>(failures: &mut u64, answer: Result<T, FetchError>) -> Result<T, FetchError>
    ensures answered { IfOk result (λ found. answer ≡ Ok found) }
    ensures failed { IsErrOf result FetchError.Failed → failures.new ≡ failures.old + 1 }
    ensures unfailed { (IsErrOf result FetchError.Failed → ⊥) → failures.new ≡ failures.old }
    ensures risen { failures.old ≤ failures.new }
    ensures bounded { failures.new ≤ greatest_count }
{
    let _count = *failures;
    match answer {
        Ok(found) => Ok(found),
        Err(FetchError::Failed) if *failures < u64::MAX => {
            *failures += 1;
            Err(FetchError::Failed)
        }
        Err(_) => Err(FetchError::Memory),
    }
}

impl<'w, S: Stream + Drop, K: Opened, W: Inputs, F: FolderMark> BlobsAndResults<'w, S, K, W, F> {
    /// Those of a client that wasn't called yet, and of a store.
    pub(crate) fn new(
        blobs: Client<S, K, GetsBlobs>,
        results: FolderStore<'w, W, F>,
    ) -> BlobsAndResults<'w, S, K, W, F>
        requires uncalled { (telling_of (remote_of blobs)).calls ≡ 0 }
        ensures uncalled { result.calls ≡ 0 }
    {
        BlobsAndResults {
            blobs,
            results,
            calls: 0,
            failures: 0,
        }
    }

    /// Whether it is lacked: a blob that was answered is answered again, without a request.
    fn lacks(&mut self, alloc: Global, lack: &Lack) -> bool
        ensures { IsTrue result → ∥ LacksOfParts K.start F.sees F.folder lack.now ∥₁ }
    {
        match lack {
            Lack::Blob(digest) => matches!(self.fetch(alloc, digest), Ok(None)),
            Lack::ActionResult(_) => self.results.lacks(lack),
        }
    }

    /// Whether nothing is told as missing, or it is lacked.
    pub(crate) fn confirms(&mut self, alloc: Global, lack: &Option<Lack>) -> bool
        ensures { IsTrue result
            → IfSome lack.now (λ lack. ∥ LacksOfParts K.start F.sees F.folder lack ∥₁) }
    {
        match lack {
            Some(lack) => self.lacks(alloc, lack),
            None => true,
        }
    }

    /// The error of a call that failed.
    pub(crate) fn into_error(
        self,
        alloc: Global,
        server: &ServerOptions,
    ) -> Result<CommandError, AllocError>
        ensures fault { IfOk result (OrMemory (λ e.
            ∥ FailsOfParts K.start F.sees F.folder (string_bytes server.now.address) e ∥₁)) }
        // What is told of a fault of the folder is that.
        ensures kept { IfOk result (λ e. IfSome (error_of self.entry.results.store)
            (λ error. e ≡ error_of_file error)) }
    {
        match self.results.into_fault() {
            Some(fault) => Ok(fault),
            None => self.blobs.error(alloc, server, FetchError::Failed),
        }
    }
}

impl<S: Stream + Drop, K: Opened, W: Inputs, F: FolderMark> BlobSource<Global>
    for BlobsAndResults<'_, S, K, W, F> {
    ghost use Rattle.commands.specs.Client.{remote_of};
    ghost use Rattle.commands.specs.Places.{told_by_parts};
    ghost use Rattle.remote.specs.Folder as folders;
    ghost use Rattle.remote.specs.Remote.{telling_of};

    ghost tells = { λ s. told_by_parts (telling_of (remote_of s.blobs))
        (folders.telling_of s.results.store) s.calls s.failures };

    fn fetch(&mut self, alloc: Global, digest: &Digest) -> Result<Option<Vec<u8>>, FetchError>
        ensures told { IfOk result
            (λ answer. bytes_of answer ≡ (telling_of (remote_of self.new.blobs)).blobs digest.now) }
        ensures called { Calls (AsksBlob digest.now)
            (told_by_parts (telling_of (remote_of self.old.blobs))
            (folders.telling_of self.old.results.store) self.old.calls self.old.failures)
            (told_by_parts (telling_of (remote_of self.new.blobs))
            (folders.telling_of self.new.results.store) self.new.calls self.new.failures)
            (IsErrOf result FetchError.Failed) }
        // Where there is none, the server has replied so.
        ensures lacked { IfOk result
            (λ answer. IfNone answer (∥ LacksOver gets_blobs K.start Cas digest.now.hash ∥₁)) }
    {
        self.calls = self.calls.saturating_add(1);
        let found = self.blobs.get_blob(alloc, digest);
        count_failure(&mut self.failures, found)
    }

    fn result(&mut self, alloc: Global, digest: &Digest) -> Result<Option<Vec<u8>>, FetchError> {
        self.calls = self.calls.saturating_add(1);
        let found = self.results.result(alloc, digest);
        count_failure(&mut self.failures, found)
    }
}
