ghost use Rattle.std.specs.Prelude.{◌≡◌, ◌++◌, ◌∷◌, [], Some, IfOk, OnErr, OnOk, IsErrOf};
ghost use Rattle.blob_digest.specs.Digest.{digest_of};
ghost use Rattle.blob_source.specs.Called.{Calls};
ghost use Rattle.blob_source.specs.Sink.{PutsBlob, PutsResult, IsPut};
ghost use Rattle.blob_source.specs.Source.{AsksBlob, AsksResult, bytes_of};
ghost use Rattle.remote.specs.Remote.{IsFreshRemote, LooksUp, SendsBlob, Stores};
ghost use Rattle.remote.specs.Remote.{blobs_of, connection_of, results_of, telling_of};

use crate::asking::{keep_bytes, look_up};
use crate::fault::Fault;
use crate::line::Line;
use crate::stream::Stream;
use crate::table::Table;
use blob_digest::Digest;
use blob_source::{BlobSink, BlobSource, FetchError};
use http_core::{Area, Host, Prefix};
use std::alloc::{AllocError, Allocator};

/// The blobs and results of a server, over an open stream. What was answered or put is kept, and
/// isn't asked for again. What the server answers isn't believed: who asks hashes it.
#[derive(Drop)]
pub struct Remote<S: Drop, A: Allocator> {
    line: Line<S, A>,
    blobs: Table<A>,
    results: Table<A>,
    puts: Vec<Digest, A>,
    calls: u64,
}

impl<S: Stream + Drop, A: Allocator + Copy> Remote<S, A> {
    /// A remote over this stream, for requests with this host and prefix.
    pub fn new(
        alloc: A,
        stream: S,
        host: &Host<A>,
        prefix: &Prefix<A>,
    ) -> Result<Remote<S, A>, AllocError>
        ensures { IfOk result (IsFreshRemote S.flow stream host.now prefix.now) }
    {
        Ok(Remote {
            line: Line {
                stream,
                host: host.copied(alloc)?,
                prefix: prefix.copied(alloc)?,
                broken: false,
                shut: false,
                failures: 0,
                fault: None,
            },
            blobs: Table::new(alloc),
            results: Table::new(alloc),
            puts: Vec::new(alloc),
            calls: 0,
        })
    }

    /// The stream.
    pub fn stream(&self) -> &S
        ensures { S.flow result.now ≡ (connection_of S.flow self.now).flow }
    {
        &self.line.stream
    }

    /// Puts a blob under its digest, and answers that. Nothing of it is kept: it is for what isn't
    /// asked for again.
    pub fn send_blob(&mut self, alloc: A, bytes: &[u8]) -> Result<Digest, FetchError>
        ensures named { IfOk result (λ digest. digest ≡ digest_of bytes.now) }
        ensures sent { SendsBlob S.flow bytes.now self.old self.new result }
    {
        let _count = self.line.failures;
        self.calls = self.calls.saturating_add(1);
        let digest = Digest::of(bytes);
        self.line.put(alloc, Area::Cas, &digest, bytes)?;
        Ok(digest)
    }

    /// The fault of the last failure.
    pub fn last_fault(&self) -> Option<Fault>
        ensures { result ≡ (connection_of S.flow self.now).fault }
    {
        self.line.fault
    }
}

impl<S: Stream + Drop, A: Allocator + Copy> BlobSource<A> for Remote<S, A> {
    ghost tells = { telling_of };

    fn fetch(&mut self, alloc: A, digest: &Digest) -> Result<Option<Vec<u8, A>>, FetchError>
        ensures told { IfOk result
            (λ answer. bytes_of answer ≡ (telling_of self.new).blobs digest.now) }
        ensures called { Calls (AsksBlob digest.now) (telling_of self.old) (telling_of self.new)
            (IsErrOf result FetchError.Failed) }
        ensures asked { LooksUp Area.Cas digest.now
            (connection_of S.flow self.old) (connection_of S.flow self.new)
            (blobs_of self.old) (blobs_of self.new) result }
        ensures untouched { results_of self.new ≡ results_of self.old }
    {
        self.calls = self.calls.saturating_add(1);
        look_up(alloc, &mut self.line, &mut self.blobs, Area::Cas, digest)
    }

    fn result(&mut self, alloc: A, digest: &Digest) -> Result<Option<Vec<u8, A>>, FetchError>
        ensures told { IfOk result
            (λ answer. bytes_of answer ≡ (telling_of self.new).results digest.now) }
        ensures called { Calls (AsksResult digest.now) (telling_of self.old) (telling_of self.new)
            (IsErrOf result FetchError.Failed) }
        ensures asked { LooksUp Area.Ac digest.now
            (connection_of S.flow self.old) (connection_of S.flow self.new)
            (results_of self.old) (results_of self.new) result }
        ensures untouched { blobs_of self.new ≡ blobs_of self.old }
    {
        self.calls = self.calls.saturating_add(1);
        look_up(alloc, &mut self.line, &mut self.results, Area::Ac, digest)
    }
}

impl<S: Stream + Drop, A: Allocator + Copy> BlobSink<A> for Remote<S, A> {
    fn put_blob(&mut self, alloc: A, bytes: &[u8]) -> Result<Digest, FetchError>
        ensures named { IfOk result (λ digest. digest ≡ digest_of bytes.now) }
        ensures held { OnOk result (IsPut bytes.now
            (telling_of self.old).blobs (telling_of self.new).blobs) }
        ensures called { Calls (PutsBlob bytes.now) (telling_of self.old) (telling_of self.new)
            (IsErrOf result FetchError.Failed) }
        ensures stored { Stores Area.Cas (digest_of bytes.now) bytes.now
            (connection_of S.flow self.old) (connection_of S.flow self.new)
            (blobs_of self.old) (blobs_of self.new) result }
        ensures untouched { results_of self.new ≡ results_of self.old }
    {
        let digest = self.send_blob(alloc, bytes)?;
        if self.blobs.has_right(&digest) {
            return Ok(digest);
        }
        keep_bytes(alloc, &mut self.line, &mut self.blobs, &digest, bytes)?;
        Ok(digest)
    }

    fn put_result(&mut self, alloc: A, digest: &Digest, bytes: &[u8]) -> Result<(), FetchError>
        ensures held { OnOk result ((telling_of self.new).results digest.now ≡ Some bytes.now) }
        ensures listed { OnOk result
            ((telling_of self.new).puts ≡ (telling_of self.old).puts ++ digest.now ∷ []) }
        ensures unlisted { OnErr result ((telling_of self.new).puts ≡ (telling_of self.old).puts) }
        ensures called { Calls (PutsResult digest.now bytes.now)
            (telling_of self.old) (telling_of self.new) (IsErrOf result FetchError.Failed) }
        ensures stored { Stores Area.Ac digest.now bytes.now
            (connection_of S.flow self.old) (connection_of S.flow self.new)
            (results_of self.old) (results_of self.new) result }
        ensures untouched { blobs_of self.new ≡ blobs_of self.old }
    {
        let _count = self.line.failures;
        self.calls = self.calls.saturating_add(1);
        self.line.put(alloc, Area::Ac, digest, bytes)?;
        let Ok(()) = self.puts.reserve(1) else {
            return Err(self.line.starve());
        };
        keep_bytes(alloc, &mut self.line, &mut self.results, digest, bytes)?;
        self.puts.push(*digest).unwrap();
        Ok(())
    }
}
