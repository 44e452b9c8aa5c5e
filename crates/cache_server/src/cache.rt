ghost use Rattle.std.specs.Prelude.{◌≡◌, ◌<◌, ◌^◌, length, IfErr, IfOk, OnErr, OnOk};
ghost use Rattle.std.specs.Prelude.{option_map};
ghost use Rattle.eviction.specs.Kept.{total};
ghost use Rattle.http_core.specs.Event.{Asked, Get, Put, Refused, ask_of, event_of};
ghost use Rattle.http_core.specs.Reply.{bare, content_bytes};
ghost use Rattle.http_core.specs.declared.event.Area.TheVariants.{Ac, Cas};
ghost use Rattle.cache_server.specs.Answer.{text_of};
ghost use Rattle.cache_server.specs.Answering.{MayWantFor, answered};
ghost use Rattle.cache_server.specs.Cache.{MayWant, applied, unused_cache, found_reply, step};
ghost use Rattle.cache_server.specs.Connection.{IsFoundBy};
ghost use Rattle.cache_server.specs.Status.{IsStatusOf, WantsMemory};
ghost use Rattle.cache_server.specs.Writing.{IsTold, IsToldInPart};
ghost use Rattle.cache_server.specs.declared.error.ConnError.{ConnError};

use crate::answer::Answer;
use crate::counts::Counts;
use crate::error::ConnError;
use crate::streams::Outgoing;
use crate::writing::write_answer;
use action_cache::{ActionCache, CacheError};
use blob_digest::Sealed;
use http_core::{Area, Ask, Content, Event, Reply};
use std::alloc::{AllocError, Allocator};
use std::hash::RandomState;
use std::marker::Model;

/// A cache as its requests see it, and counts of what it answered. Clauses see the machine of
/// `action_cache`.
#[derive(Drop)]
pub struct Cache<A: Allocator> {
    store: ActionCache<A>,
    counts: Counts,
}

impl<A: Allocator> Model for Cache<A> {
    ghost use Rattle.cache_server.specs.Cache.{CacheValue};

    ghost Value = { CacheValue };

    ghost view = { λ c. record { state = c.store; counts = c.counts } };
}

/// The status of a change that was made or refused.
fn status_of(changed: Result<(), CacheError>) -> Result<u16, AllocError>
    ensures ok { IfOk result (λ status. IsStatusOf changed status) }
    ensures err { OnErr result (WantsMemory changed) }
{
    match changed {
        Ok(()) => Ok(200),
        Err(CacheError::TooLarge) => Ok(413),
        Err(CacheError::HashDiffers) => Ok(400),
        Err(CacheError::BadResult(_)) => Ok(400),
        Err(CacheError::PinnedDiffers) => Ok(409),
        Err(CacheError::Full) => Ok(507),
        Err(CacheError::NotHeld) => Ok(404),
        Err(CacheError::NotPinned) => Ok(404),
        Err(CacheError::Incomplete(_)) => Ok(404),
        Err(CacheError::Memory) => Err(AllocError),
    }
}

/// The reply to a look-up, with what was found.
fn reply_with<A: Allocator + Copy>(alloc: A, found: Option<Content<A>>) -> Reply<A>
    ensures { result ≡ found_reply (option_map content_bytes found) }
{
    match found {
        Some(body) => Reply { status: 200, body },
        None => Reply::bare(alloc, 404),
    }
}

/// The blob under the hash, which the store holds too, or 404.
fn get_blob<A: Allocator + Copy>(
    alloc: A,
    store: &mut ActionCache<A>,
    hash: &[u8; 32],
) -> Result<Reply<A>, AllocError>
    ensures ok { IfOk result
        (λ reply. step store.old (Get Cas hash.now) ≡ (reply, store.new)) }
    ensures err { OnErr result (store.new ≡ store.old) }
    ensures memory { OnErr result (MayWant store.old (Get Cas hash.now)) }
{
    match store.get_shared(alloc, hash)? {
        Some(bytes) => Ok(reply_with(alloc, Some(Content::Shared(bytes.into_rc())))),
        None => Ok(reply_with(alloc, None)),
    }
}

/// The result under the hash, or 404.
fn get_result<A: Allocator + Copy>(
    alloc: A,
    store: &mut ActionCache<A>,
    hash: &[u8; 32],
) -> Result<Reply<A>, AllocError>
    ensures ok { IfOk result
        (λ reply. step store.old (Get Ac hash.now) ≡ (reply, store.new)) }
    ensures err { OnErr result (store.new ≡ store.old) }
    ensures memory { OnErr result (MayWant store.old (Get Ac hash.now)) }
{
    match store.get_result(alloc, hash)? {
        Some(bytes) => Ok(reply_with(alloc, Some(Content::Own(bytes)))),
        None => Ok(reply_with(alloc, None)),
    }
}

/// The reply to a look-up.
fn look_up<A: Allocator + Copy>(
    alloc: A,
    store: &mut ActionCache<A>,
    area: Area,
    hash: &[u8; 32],
) -> Result<Reply<A>, AllocError>
    ensures ok { IfOk result
        (λ reply. step store.old (Get area hash.now) ≡ (reply, store.new)) }
    ensures err { OnErr result (store.new ≡ store.old) }
    ensures memory { OnErr result (MayWant store.old (Get area hash.now)) }
{
    match area {
        Area::Cas => get_blob(alloc, store, hash),
        Area::Ac => get_result(alloc, store, hash),
        Area::Pin | Area::Unpin => Ok(Reply::bare(alloc, 404)),
    }
}

/// Puts, pins or unpins, and gives the status of the reply, which has no body.
fn put<A: Allocator + Copy>(
    alloc: A,
    store: &mut ActionCache<A>,
    area: Area,
    hash: [u8; 32],
    body: Sealed<A>,
) -> Result<u16, AllocError>
    ensures ok { IfOk result
        (λ status. step store.old (Put area hash body) ≡ (bare status, store.new)) }
    ensures err { OnErr result (store.new ≡ store.old) }
    ensures memory { OnErr result (MayWant store.old (Put area hash body)) }
{
    match area {
        Area::Cas => status_of(store.put_sealed(hash, body)),
        Area::Ac => status_of(store.put_result(alloc, hash, body.into_bytes())),
        Area::Pin => {
            if !body.as_slice().is_empty() {
                return Ok(400);
            }
            status_of(store.pin(alloc, &hash))
        }
        Area::Unpin => {
            if !body.as_slice().is_empty() {
                return Ok(400);
            }
            status_of(store.unpin(alloc, &hash))
        }
    }
}

impl<A: Allocator + Copy> Cache<A> {
    /// A cache that holds nothing, with a limit on the bytes of its blobs and one on its results,
    /// each of which costs 64 bytes more than it has. Hashes are hashed with the state's secret.
    pub fn new(
        alloc: A,
        state: RandomState,
        limit: u64,
        result_limit: u64,
    ) -> Result<Cache<A>, AllocError>
        requires blobs { limit < 2 ^ 63 }
        requires results { result_limit < 2 ^ 63 }
        ensures { IfOk result (λ c. c ≡ unused_cache limit result_limit) }
    {
        Ok(Cache {
            store: ActionCache::new(alloc, state, limit, result_limit)?,
            counts: Counts::none(),
        })
    }

    /// How many bytes the blobs have together.
    pub fn held_bytes(&self) -> u64
        ensures { result ≡ total (λ b. length b.1) self.now.state.blobs }
    {
        self.store.held_bytes()
    }

    /// What was answered since the cache was new.
    pub fn counts(&self) -> Counts
        ensures { result ≡ self.now.counts }
    {
        self.counts
    }

    /// Does what is asked, and gives the reply. A blob isn't copied. An `Err` changes nothing, and
    /// comes only where memory may be wanting: a blob that is held, or for which there is no room,
    /// is answered without any.
    pub fn apply(&mut self, alloc: A, ask: Ask<A>) -> Result<Reply<A>, AllocError>
        ensures ok { IfOk result (λ reply. applied self.old (ask_of ask) ≡ (reply, self.new)) }
        ensures err { OnErr result (self.new ≡ self.old) }
        ensures memory { OnErr result (MayWant self.old.state (ask_of ask)) }
    {
        match ask {
            Ask::Get(area, hash) => {
                let reply = look_up(alloc, &mut self.store, area, &hash)?;
                self.counts.count_look_up(reply.status == 200);
                Ok(reply)
            }
            Ask::Put(area, hash, body) => {
                let status = put(alloc, &mut self.store, area, hash, body)?;
                self.counts.count_other();
                Ok(Reply::bare(alloc, status))
            }
        }
    }

    /// Does what is asked, and writes the answer, after which the session closes or stays open. A
    /// blob isn't copied. `Memory` comes before anything is done, and only where memory may be
    /// wanting; after `WriteFault` it is done, and a beginning of the answer is written.
    pub fn answer<W: Outgoing>(
        &mut self,
        alloc: A,
        ask: Ask<A>,
        close: bool,
        writer: &mut W,
    ) -> Result<(), ConnError>
        ensures ok { OnOk result (IsTold self.old (Asked (ask_of ask) close)
            (W.contents writer.old) (W.contents writer.new) self.new) }
        ensures err { IfErr result (IsToldInPart self.old (Asked (ask_of ask) close)
            (W.contents writer.old) (W.contents writer.new) self.new) }
        ensures memory { IfErr result (λ e. e ≡ ConnError.Memory
            → MayWant self.old.state (ask_of ask)) }
        ensures fault { IfErr result (IsFoundBy ⊥ (W.broken writer.new)) }
        ensures pieces { W.in_pieces writer.old → W.in_pieces writer.new }
    {
        let answer = self.answer_to(alloc, Event::Ask(ask, close))?;
        write_answer(writer, &answer)
    }

    /// The answer to the event. An `Err` changes nothing.
    pub(crate) fn answer_to(&mut self, alloc: A, event: Event<A>) -> Result<Answer<A>, AllocError>
        ensures ok { IfOk result
            (λ answer. answered self.old (event_of event) ≡ (text_of answer, self.new)) }
        ensures err { OnErr result (self.new ≡ self.old) }
        ensures memory { OnErr result (MayWantFor self.old (event_of event)) }
    {
        match event {
            Event::Ask(ask, close) => {
                let reply = self.apply(alloc, ask)?;
                Ok(Answer::new(reply, close))
            }
            Event::Refuse(status, close) => Ok(self.refuse(alloc, status, close)),
        }
    }

    /// The answer to a refused request, which is counted.
    pub(crate) fn refuse(&mut self, alloc: A, status: u16, close: bool) -> Answer<A>
        ensures { answered self.old (Refused status close) ≡ (text_of result, self.new) }
    {
        self.counts.count_other();
        Answer::new(Reply::bare(alloc, status), close)
    }
}
