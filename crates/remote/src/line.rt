ghost use Rattle.std.specs.Prelude.{◌≡◌, IfOk, IfErr, OnOk, option_map};
ghost use Rattle.blob_source.specs.Source.{bytes_of};
ghost use Rattle.remote.specs.Line.{ExplainsMemory, IsReplied, Gets, Puts, RefusesRequest, get};
ghost use Rattle.remote.specs.Line.{is_taken, line_value, put, request};
ghost use Rattle.remote.specs.Reply.{reply_value};
ghost use Rattle.remote.specs.Steps.{CantOpen, CountsFault, Opens, Starves};

use crate::fault::{Fault, Refusal};
use crate::reply::{Reply, exchange};
use crate::stream::Stream;
use blob_digest::Digest;
use blob_source::FetchError;
use http_core::{Area, Host, Prefix, write_request};
use std::alloc::Allocator;

/// A stream to a server. After a refusal it is broken: every further request is refused. After a
/// reply that closes it, it is shut, and opened anew for the next request.
#[derive(Drop)]
pub(crate) struct Line<S: Drop, A: Allocator> {
    pub(crate) stream: S,
    pub(crate) host: Host<A>,
    pub(crate) prefix: Prefix<A>,
    pub(crate) broken: bool,
    pub(crate) shut: bool,
    pub(crate) failures: u64,
    pub(crate) fault: Option<Fault>,
}

impl<S: Stream + Drop, A: Allocator + Copy> Line<S, A> {
    /// Counts a failure. One whose count is full is lack of memory instead.
    fn fail(&mut self, fault: Fault) -> FetchError
        ensures { CountsFault (line_value S.flow self.old) (line_value S.flow self.new)
            fault result }
    {
        self.broken = true;
        let _count = self.failures;
        if self.failures == u64::MAX {
            return FetchError::Memory;
        }
        self.failures += 1;
        self.fault = Some(fault);
        FetchError::Failed
    }

    /// Lack of memory.
    pub(crate) fn starve(&mut self) -> FetchError
        ensures { Starves (line_value S.flow self.old) (line_value S.flow self.new) result }
    {
        self.broken = true;
        let _count = self.failures;
        FetchError::Memory
    }

    /// Opens the stream anew where the server has closed it. `Broken` where a reply has and it
    /// can't be opened anew, and `Io` where that failed.
    fn open(&mut self) -> Result<(), Fault>
        ensures opened { OnOk result
            (Opens (line_value S.flow self.old) (line_value S.flow self.new)) }
        ensures unopened { IfErr result
            (CantOpen (line_value S.flow self.old) (line_value S.flow self.new)) }
    {
        if !self.shut && self.stream.is_open() {
            return Ok(());
        }
        if self.shut && !self.stream.is_renewable() {
            return Err(Fault::Broken);
        }
        if self.stream.renew().is_err() {
            return Err(Fault::Io);
        }
        self.shut = false;
        Ok(())
    }

    /// Sends a request, and reads its reply.
    fn ask(
        &mut self,
        alloc: A,
        area: Area,
        digest: &Digest,
        body: Option<&[u8]>,
    ) -> Result<Reply<A>, FetchError>
        ensures asked { IfOk result (λ reply. IsReplied (line_value S.flow self.old)
            (line_value S.flow self.new) (request area digest.now.hash
            (option_map (λ b. b.now) body.entry)) (reply_value reply)) }
        ensures refused { IfErr result (RefusesRequest (line_value S.flow self.old)
            (line_value S.flow self.new) (request area digest.now.hash
            (option_map (λ b. b.now) body.entry))) }
        ensures starved { IfErr result (ExplainsMemory (line_value S.flow self.old)
            (line_value S.flow self.new) (request area digest.now.hash
            (option_map (λ b. b.now) body.entry))) }
    {
        if self.broken {
            return Err(self.fail(Fault::Broken));
        }
        if let Err(fault) = self.open() {
            return Err(self.fail(fault));
        }
        let hash = digest.hash();
        let request = write_request(alloc, area, &hash, body, self.host.as_str(), &self.prefix);
        let Ok(request) = request else {
            return Err(self.starve());
        };
        match exchange(alloc, &mut self.stream, &request) {
            Ok(reply) => {
                self.shut = reply.close;
                Ok(reply)
            }
            Err(Refusal::Io) => Err(self.fail(Fault::Io)),
            Err(Refusal::BadReply) => Err(self.fail(Fault::BadReply)),
            Err(Refusal::Memory) => Err(self.starve()),
        }
    }

    /// Asks for what the server has under a digest.
    pub(crate) fn get(
        &mut self,
        alloc: A,
        area: Area,
        digest: &Digest,
    ) -> Result<Option<Vec<u8, A>>, FetchError>
        ensures asked { IfOk result (λ answer. Gets (line_value S.flow self.old)
            (line_value S.flow self.new) area digest.now.hash (bytes_of answer)) }
        ensures refused { IfErr result (RefusesRequest (line_value S.flow self.old)
            (line_value S.flow self.new) (get area digest.now.hash)) }
        ensures starved { IfErr result (ExplainsMemory (line_value S.flow self.old)
            (line_value S.flow self.new) (get area digest.now.hash)) }
    {
        let reply = self.ask(alloc, area, digest, None)?;
        if reply.status == 200 {
            return Ok(Some(reply.body));
        }
        if reply.status == 404 {
            return Ok(None);
        }
        Err(self.fail(Fault::Status(reply.status)))
    }

    /// Puts these bytes under a digest.
    pub(crate) fn put(
        &mut self,
        alloc: A,
        area: Area,
        digest: &Digest,
        bytes: &[u8],
    ) -> Result<(), FetchError>
        ensures asked { OnOk result (Puts (line_value S.flow self.old)
            (line_value S.flow self.new) area digest.now.hash bytes.now) }
        ensures refused { IfErr result (RefusesRequest (line_value S.flow self.old)
            (line_value S.flow self.new) (put area digest.now.hash bytes.now)) }
        ensures starved { IfErr result (ExplainsMemory (line_value S.flow self.old)
            (line_value S.flow self.new) (put area digest.now.hash bytes.now)) }
    {
        let reply = self.ask(alloc, area, digest, Some(bytes))?;
        if is_taken(reply.status) {
            return Ok(());
        }
        Err(self.fail(Fault::Status(reply.status)))
    }
}

/// Whether a PUT with this status was done.
fn is_taken(status: u16) -> bool
    ensures { result ≡ is_taken status }
{
    status == 200 || status == 201 || status == 202 || status == 204
}
