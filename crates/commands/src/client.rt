ghost use Rattle.std.specs.Prelude.{◌≡◌, IfErr, IfNone, IfOk, IsErrOf, OnOk, string_bytes};
ghost use Rattle.blob_digest.specs.Digest.{digest_of};
ghost use Rattle.blob_source.specs.Called.{Calls};
ghost use Rattle.blob_source.specs.Sink.{IsPut, PutsBlob};
ghost use Rattle.blob_source.specs.Source.{AsksBlob, AsksResult, bytes_of};
ghost use Rattle.commands.specs.Faults.{OrMemory, TellsFailure, kept_failure};
ghost use Rattle.commands.specs.Places.{AreLacked, FailsOver, FailsToConnect, IsClientOver};
ghost use Rattle.commands.specs.Places.{IsConnected, IsFresh, KeepsRefused, LacksIt, LacksOver};
ghost use Rattle.commands.specs.Places.{MaySend, TakesBlob, puts_too};
ghost use Rattle.commands.specs.Put.{PutsNext};
ghost use Rattle.commands.specs.PutRefused.{RefusesPut};
ghost use Rattle.commands.specs.Status.{exit_status};
ghost use Rattle.http_core.specs.declared.event.Area.TheVariants.{Ac, Cas};
ghost use Rattle.remote.specs.Line.{get};
ghost use Rattle.remote.specs.Remote.{LooksUp, blobs_of, connection_of, results_of, telling_of};

use crate::connecting::ServerOptions;
use crate::error::CommandError;
use crate::failure::{Failure, Method, keep_failure};
use crate::world::Inputs;
use blob_digest::Digest;
use blob_source::{BlobSink, BlobSource, FetchError};
use remote::{Remote, Stream};
use std::alloc::{AllocError, Global};
use std::io::ErrorKind;
use std::marker::{Brand, PhantomData};
use text_verifier::Lack;

/// Marks a client by its connection, as that stood when it was opened.
pub trait Opened {
    ghost use Rattle.remote.specs.Line.{ConnectionValue};

    ghost start: { ConnectionValue };
}

impl Opened for Brand {
    ghost use Rattle.commands.specs.Places.{no_connection};

    ghost start = { no_connection };
}

/// Marks a client by what it may send.
pub trait Permit {
    ghost use Rattle.commands.specs.Places.{Access};

    ghost access: { Access };
}

/// Marks a client that may ask for results too.
pub trait AsksResults: Permit {
    ghost use Rattle.std.specs.Prelude.{ℕ, List};
    ghost use Rattle.commands.specs.Places.{MaySend};
    ghost use Rattle.http_core.specs.declared.event.Area.TheVariants.{Ac};
    ghost use Rattle.remote.specs.Line.{get};

    ghost asks: { (hash : List ℕ) → MaySend Self.access (get Ac hash) };
}

/// Marks a client that sends GETs of blobs alone, so that no result that is told is the server's.
pub(crate) struct GetsBlobs;

impl Permit for GetsBlobs {
    ghost use Rattle.commands.specs.Places.{gets_blobs};

    ghost access = { gets_blobs };
}

/// Marks a client that sends GETs alone, so that what it tells is what the server answered.
pub struct GetsAlone;

impl Permit for GetsAlone {
    ghost use Rattle.commands.specs.Places.{gets_alone};

    ghost access = { gets_alone };
}

impl AsksResults for GetsAlone {
    ghost use Rattle.std.specs.Prelude.{refl};

    ghost asks = { λ hash. refl };
}

/// Marks a client that puts blobs too, each under its own hash, and no results.
pub(crate) struct PutsBlobs;

impl Permit for PutsBlobs {
    ghost use Rattle.commands.specs.Places.{puts_blobs};

    ghost access = { puts_blobs };
}

/// Marks a client that puts blobs and results too.
pub struct PutsToo;

impl Permit for PutsToo {
    ghost use Rattle.commands.specs.Places.{puts_too};

    ghost access = { puts_too };
}

impl AsksResults for PutsToo {
    ghost asks = { λ hash. tt };
}

/// A remote over the marked connection, that knows which request failed last.
#[derive(Drop)]
pub struct Client<S: Stream + Drop, K: Opened, U: Permit> {
    remote: Remote<S, Global>,
    failure: Option<Failure>,
    of: PhantomData<K>,
    may: PhantomData<U>,
    ghost over: { ∥ IsClientOver U.access K.start (connection_of S.flow remote)
        (telling_of remote) ∥₁ },
    ghost lacked: { ∥ AreLacked (LacksIt U.access K.start) (blobs_of remote)
        (results_of remote) ∥₁ },
    ghost refused: { ∥ KeepsRefused U.access K.start (connection_of S.flow remote) failure ∥₁ },
}

impl<S: Stream + Drop, K: Opened> Client<S, K, PutsBlobs> {
    ghost use Rattle.commands.specs.Client.{connection};

    /// Puts a blob that isn't asked for again.
    pub(crate) fn put(
        &mut self,
        alloc: Global,
        server: &ServerOptions,
        bytes: &[u8],
    ) -> Result<Digest, CommandError>
        ensures named { IfOk result (λ digest. digest ≡ digest_of bytes.now) }
        ensures taken { OnOk result
            (PutsNext (connection self.old) (connection self.new) bytes.now) }
        ensures refused { IfErr result (OrMemory
            (RefusesPut (connection self.old) (string_bytes server.now.address) bytes.now)) }
    {
        let put = self.remote.send_blob(alloc, bytes);
        let digest = digest_put(&put, bytes);
        let fault = self.remote.last_fault();
        keep_failure(&mut self.failure, Method::PutBlob, &digest, &put, fault);
        match put {
            Ok(digest) => Ok(digest),
            Err(refusal) => Err(self.error(alloc, server, refusal)?),
        }
    }
}

impl<S: Stream + Drop, K: Opened, U: Permit> Client<S, K, U> {
    ghost use Rattle.commands.specs.Client.{failed_request, remote_of};

    /// A client over this connection.
    pub fn new(remote: Remote<S, Global>) -> Client<S, K, U>
        requires start { K.start ≡ connection_of S.flow remote }
        requires fresh { IsFresh remote }
        ensures remote { remote_of result ≡ remote }
        ensures unfailed { failed_request result ≡ None }
    {
        Client {
            remote,
            failure: None,
            of: PhantomData,
            may: PhantomData,
        }
    }

    /// The blob that the server has under a digest.
    pub(crate) fn get_blob(
        &mut self,
        alloc: Global,
        digest: &Digest,
    ) -> Result<Option<Vec<u8>>, FetchError>
        ensures told { IfOk result
            (λ answer. bytes_of answer ≡ (telling_of (remote_of self.new)).blobs digest.now) }
        ensures called { Calls (AsksBlob digest.now) (telling_of (remote_of self.old))
            (telling_of (remote_of self.new)) (IsErrOf result FetchError.Failed) }
        ensures asked { LooksUp Cas digest.now (connection_of S.flow (remote_of self.old))
            (connection_of S.flow (remote_of self.new)) (blobs_of (remote_of self.old))
            (blobs_of (remote_of self.new)) result }
        ensures kept { failed_request self.new ≡ kept_failure (failed_request self.old)
            Method.GetBlob digest.now result (connection_of S.flow (remote_of self.new)).fault }
        // Where there is none, the server has replied so.
        ensures lacked { IfOk result
            (λ answer. IfNone answer (∥ LacksOver U.access K.start Cas digest.now.hash ∥₁)) }
    {
        let found = self.remote.fetch(alloc, digest);
        let fault = self.remote.last_fault();
        keep_failure(&mut self.failure, Method::GetBlob, digest, &found, fault);
        found
    }

    /// The result that the server has for the action with a digest.
    pub(crate) fn get_result(
        &mut self,
        alloc: Global,
        digest: &Digest,
    ) -> Result<Option<Vec<u8>>, FetchError>
        requires asks { MaySend U.access (get Ac digest.now.hash) }
        ensures told { IfOk result
            (λ answer. bytes_of answer ≡ (telling_of (remote_of self.new)).results digest.now) }
        ensures called { Calls (AsksResult digest.now) (telling_of (remote_of self.old))
            (telling_of (remote_of self.new)) (IsErrOf result FetchError.Failed) }
        ensures lacked { IfOk result
            (λ answer. IfNone answer (∥ LacksOver U.access K.start Ac digest.now.hash ∥₁)) }
    {
        let found = self.remote.result(alloc, digest);
        let fault = self.remote.last_fault();
        keep_failure(&mut self.failure, Method::GetResult, digest, &found, fault);
        found
    }

    /// The error of a call that was refused: of the request that failed last, where it failed.
    pub fn error(
        &self,
        alloc: Global,
        server: &ServerOptions,
        refusal: FetchError,
    ) -> Result<CommandError, AllocError>
        ensures over { IfOk result (OrMemory
            (λ e. ∥ FailsOver U.access K.start (string_bytes server.now.address) e ∥₁)) }
        ensures status { IfOk result (λ e. exit_status e ≡ 3) }
        ensures error { IfOk result
            (TellsFailure (string_bytes server.now.address) (failed_request self.now) refusal) }
        // Where a call failed, that memory is wanting isn't told in its place.
        ensures failed { IfOk result (λ e. refusal ≡ FetchError.Failed → e ≡ CommandError.Memory
            → ∥ (telling_of (remote_of self.now)).failures ≡ K.start.failures ∥₁) }
    {
        match self.failure {
            Some(failure) if refusal == FetchError::Failed => Ok(CommandError::Server {
                server: String::from_str(alloc, server.address.as_str())?,
                failure,
            }),
            _ => Ok(CommandError::Memory),
        }
    }
}

impl<S: Stream + Drop, K: Opened, U: AsksResults> Client<S, K, U> {
    /// Looks again for what was told as missing.
    fn look_again(&mut self, alloc: Global, lack: &Lack) -> Result<Option<Vec<u8>>, FetchError>
        ensures lacked { IfOk result
            (λ found. IfNone found (∥ LacksIt U.access K.start lack.now ∥₁)) }
    {
        match lack {
            Lack::Blob(digest) => self.fetch(alloc, digest),
            Lack::ActionResult(digest) => self.result(alloc, digest),
        }
    }

    /// Confirms that the server lacks what was told as missing: what was answered is answered
    /// again, without a request.
    pub(crate) fn confirm(
        &mut self,
        alloc: Global,
        server: &ServerOptions,
        lack: &Lack,
    ) -> Result<(), CommandError>
        ensures lacked { OnOk result (∥ LacksIt U.access K.start lack.now ∥₁) }
        ensures fault { IfErr result (OrMemory
            (λ e. ∥ FailsOver U.access K.start (string_bytes server.now.address) e ∥₁)) }
    {
        let refusal = match self.look_again(alloc, lack) {
            Ok(None) => return Ok(()),
            Ok(Some(_)) => FetchError::Failed,
            Err(refusal) => refusal,
        };
        Err(self.error(alloc, server, refusal)?)
    }
}

impl<S: Stream + Drop, K: Opened, U: AsksResults> BlobSource<Global> for Client<S, K, U> {
    ghost use Rattle.commands.specs.Client.{failed_request, remote_of};
    ghost use Rattle.remote.specs.Remote.{telling_of};

    ghost tells = { λ c. telling_of (remote_of c) };

    fn fetch(&mut self, alloc: Global, digest: &Digest) -> Result<Option<Vec<u8>>, FetchError>
        ensures told { IfOk result
            (λ answer. bytes_of answer ≡ (telling_of (remote_of self.new)).blobs digest.now) }
        ensures called { Calls (AsksBlob digest.now) (telling_of (remote_of self.old))
            (telling_of (remote_of self.new)) (IsErrOf result FetchError.Failed) }
        ensures asked { LooksUp Cas digest.now (connection_of S.flow (remote_of self.old))
            (connection_of S.flow (remote_of self.new)) (blobs_of (remote_of self.old))
            (blobs_of (remote_of self.new)) result }
        ensures kept { failed_request self.new ≡ kept_failure (failed_request self.old)
            Method.GetBlob digest.now result (connection_of S.flow (remote_of self.new)).fault }
        // Where there is none, the server has replied so.
        ensures lacked { IfOk result
            (λ answer. IfNone answer (∥ LacksOver U.access K.start Cas digest.now.hash ∥₁)) }
    {
        self.get_blob(alloc, digest)
    }

    fn result(&mut self, alloc: Global, digest: &Digest) -> Result<Option<Vec<u8>>, FetchError>
        ensures told { IfOk result
            (λ answer. bytes_of answer ≡ (telling_of (remote_of self.new)).results digest.now) }
        ensures called { Calls (AsksResult digest.now) (telling_of (remote_of self.old))
            (telling_of (remote_of self.new)) (IsErrOf result FetchError.Failed) }
        ensures lacked { IfOk result
            (λ answer. IfNone answer (∥ LacksOver U.access K.start Ac digest.now.hash ∥₁)) }
    {
        self.get_result(alloc, digest)
    }
}

impl<S: Stream + Drop, K: Opened> BlobSink<Global> for Client<S, K, PutsToo> {
    ghost use Rattle.commands.specs.Client.{remote_of};

    fn put_blob(&mut self, alloc: Global, bytes: &[u8]) -> Result<Digest, FetchError>
        ensures named { IfOk result (λ digest. digest ≡ digest_of bytes.now) }
        ensures held { OnOk result (IsPut bytes.now
            (telling_of (remote_of self.old)).blobs (telling_of (remote_of self.new)).blobs) }
        ensures called { Calls (PutsBlob bytes.now) (telling_of (remote_of self.old))
            (telling_of (remote_of self.new)) (IsErrOf result FetchError.Failed) }
        ensures taken { OnOk result (∥ TakesBlob puts_too K.start bytes.now ∥₁) }
    {
        let put = self.remote.put_blob(alloc, bytes);
        let digest = digest_put(&put, bytes);
        let fault = self.remote.last_fault();
        keep_failure(&mut self.failure, Method::PutBlob, &digest, &put, fault);
        put
    }

    fn put_result(
        &mut self,
        alloc: Global,
        digest: &Digest,
        bytes: &[u8],
    ) -> Result<(), FetchError> {
        let put = self.remote.put_result(alloc, digest, bytes);
        let fault = self.remote.last_fault();
        keep_failure(&mut self.failure, Method::PutResult, digest, &put, fault);
        put
    }
}

/// The digest of bytes that were put, or weren't.
fn digest_put(put: &Result<Digest, FetchError>, bytes: &[u8]) -> Digest
    requires { IfOk put.now (λ digest. digest ≡ digest_of bytes.now) }
    ensures { result ≡ digest_of bytes.now }
{
    match put {
        Ok(digest) => *digest,
        Err(_) => Digest::of(bytes),
    }
}

/// A remote over a connection to the server, that was asked nothing.
pub fn open<W: Inputs>(
    alloc: Global,
    world: &W,
    server: &ServerOptions,
) -> Result<Remote<W::Link, Global>, CommandError>
    ensures opened { IfOk result
        (λ remote. IsConnected (W.sees world.now) server.now (connection_of W.Link.flow remote)) }
    ensures fresh { IfOk result (λ remote. IsFresh remote) }
    ensures fault { IfErr result
        (OrMemory (FailsToConnect (W.sees world.now) (string_bytes server.now.address))) }
{
    match world.connect(alloc, server) {
        Ok(link) => Ok(Remote::new(alloc, link, &server.host, &server.prefix)?),
        Err(fault) if fault.kind() == ErrorKind::OutOfMemory => Err(CommandError::Memory),
        Err(fault) => Err(CommandError::Connection {
            server: String::from_str(alloc, server.address.as_str())?,
            fault,
        }),
    }
}
