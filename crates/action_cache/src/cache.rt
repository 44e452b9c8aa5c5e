ghost use Rattle.std.specs.Prelude.{◌≡◌, ℕ, ◌+◌, ◌<◌, ◌≤◌, ◌^◌, List, [], length, IfOk, IfErr};
ghost use Rattle.std.specs.Prelude.{OnOk, OnErr, Err, IsSome, IsSomeAnd, is_some, true, false};
ghost use Rattle.std.specs.Prelude.{option_map, option_copied, bytes_eq};
ghost use Rattle.std.specs.Borrow.{sem};
ghost use Rattle.std.specs.Map.{lookup};
ghost use Rattle.eviction.specs.Kept.{total};
ghost use Rattle.blob_store.specs.Blobs.{HasHash};
ghost use Rattle.blob_store.specs.Storing.{used};
ghost use Rattle.messages.specs.declared.error.MessageError.{MessageError};
ghost use Rattle.action_messages.specs.Refused.{IsRefusedResult as IsRefusedAs};
ghost use Rattle.action_cache.specs.State.{touched_each, answer_of, bytes_given};
ghost use Rattle.action_cache.specs.Reading.{by_messages, references_in};
ghost use Rattle.action_cache.specs.Survey.{IsSurveyUnder};
ghost use Rattle.action_cache.specs.Machine.{CacheState, empty_cache, done, nothing, under};
ghost use Rattle.action_cache.specs.Machine.{differs_pinned};
ghost use Rattle.action_cache.specs.Machine.{put_blob as blob_put};
ghost use Rattle.action_cache.specs.Machine.{get_blob as blob_got, unpin as take_off};
ghost use Rattle.action_cache.specs.Machine.{pin as put_on, get_result as result_got};
ghost use Rattle.action_cache.specs.Machine.{put_result as result_put};
ghost use Rattle.action_cache.specs.CacheError.{IsRefused};

use crate::error::CacheError;
use crate::reference::read_result;
use crate::survey::{Survey, walk};
use blob_digest::{Digest, GREATEST_BLOB, Sealed};
use blob_store::BlobStore;
use eviction::{Bounded, Shared};
use std::alloc::{AllocError, Allocator};
use std::hash::RandomState;
use std::marker::Model;

/// What a result costs beyond its bytes.
const RESULT_OVERHEAD: u64 = 64;

/// Blobs under their hashes, and results under those of their actions, each most recently used
/// first. Clauses see them without counts of pins: a result has a mark, and a blob is pinned where
/// a marked result refers to it.
#[derive(Drop)]
pub struct ActionCache<A: Allocator> {
    blobs: BlobStore<A>,
    results: Bounded<[u8; 32], A>,
}

impl<A: Allocator> Model for ActionCache<A> {
    ghost use Rattle.std.specs.Prelude.{◌≡◌};
    ghost use Rattle.action_cache.specs.Machine.{CacheState};
    ghost use Rattle.action_cache.specs.Reading.{by_messages};
    ghost use Rattle.action_cache.specs.State.{state_of};
    ghost use Rattle.action_cache.specs.Tied.{IsTied};

    ghost Value = { CacheState };

    ghost view = { λ c.
        state_of c.blobs.limit c.results.limit c.blobs.entries c.results.entries };

    ghost invariant = { λ c. IsTied by_messages c.blobs.entries c.results.entries
        × (c.blobs.overhead ≡ 0)
        × (c.results.overhead ≡ 64) };
}

/// What the result under the hash refers to; `None` where none is held, or its bytes are no result.
fn survey_of<A: Allocator + Copy>(
    alloc: A,
    blobs: &BlobStore<A>,
    results: &Bounded<[u8; 32], A>,
    hash: &[u8; 32],
) -> Result<Option<Survey<A>>, AllocError>
    ensures ok { IfOk result (IsSurveyUnder blobs.now.entries results.now.entries hash.now) }
    ensures err { OnErr result (IsSome (lookup (bytes_eq hash.now) results.now.entries)) }
{
    match results.peek(hash) {
        Some(bytes) => walk(alloc, blobs, bytes),
        None => Ok(None),
    }
}

/// Moves the blobs of the digests to the front, one after another.
fn touch_each<A: Allocator + Copy>(blobs: &mut BlobStore<A>, digests: &[Digest])
    ensures { blobs.new ≡ touched_each blobs.old digests.now }
{
    for digest in digests {
        let _held = blobs.touch(&digest.hash());
    }
}

/// Moves the blob under the hash to the front, unless it is that of no bytes.
fn use_blob<A: Allocator + Copy>(blobs: &mut BlobStore<A>, hash: &[u8; 32])
    ensures { blobs.new ≡ used blobs.old hash.now }
{
    let _lent = blobs.get(hash);
}

impl<A: Allocator + Copy> ActionCache<A> {
    ghost use Rattle.action_cache.specs.Lending.{Ends};

    /// A cache that holds nothing. Hashes are hashed with the state's secret.
    pub fn new(
        alloc: A,
        state: RandomState,
        limit: u64,
        result_limit: u64,
    ) -> Result<Self, AllocError>
        requires blobs { limit < 2 ^ 63 }
        requires results { result_limit < 2 ^ 63 }
        ensures { IfOk result (λ c. c ≡ empty_cache limit result_limit) }
    {
        let blobs = BlobStore::new(alloc, state, limit)?;
        let results = Bounded::new(alloc, state, result_limit, RESULT_OVERHEAD)?;
        Ok(ActionCache { blobs, results })
    }

    /// How many bytes the blobs have together.
    pub fn held_bytes(&self) -> u64
        ensures { result ≡ total (λ b. length b.1) self.now.blobs }
    {
        self.blobs.held_bytes()
    }

    /// Puts a blob under its hash. What is held already stays, and moves to the front. Refusals,
    /// the first of these: `TooLarge`, `HashDiffers`, and `Full` where it doesn't fit beside the
    /// pinned blobs.
    pub fn put_blob(&mut self, hash: [u8; 32], bytes: Vec<u8, A>) -> Result<(), CacheError>
        ensures ok { OnOk result (blob_put by_messages self.old hash bytes.items
            ≡ (done, self.new)) }
        ensures refused { IfErr result
            (IsRefused self.old (blob_put by_messages self.old hash bytes.items)) }
        // Lack of memory hides no refusal, and what is held wants none.
        ensures memory { result ≡ Err CacheError.Memory
            → (blob_put by_messages self.old hash bytes.items).0 ≡ done }
        ensures held { result ≡ Err CacheError.Memory
            → (blob_got by_messages self.old hash).0 ≡ nothing }
        ensures err { OnErr result (self.new ≡ self.old) }
    {
        if bytes.len() > GREATEST_BLOB {
            return Err(CacheError::TooLarge);
        }
        self.put_sealed(hash, Sealed::of(bytes))
    }

    /// Puts a blob whose digest is known already, as `put_blob` does. It hashes nothing again.
    pub fn put_sealed(&mut self, hash: [u8; 32], sealed: Sealed<A>) -> Result<(), CacheError>
        ensures ok { OnOk result (blob_put by_messages self.old hash sealed ≡ (done, self.new)) }
        ensures refused { IfErr result
            (IsRefused self.old (blob_put by_messages self.old hash sealed)) }
        ensures memory { result ≡ Err CacheError.Memory
            → (blob_put by_messages self.old hash sealed).0 ≡ done }
        ensures held { result ≡ Err CacheError.Memory
            → (blob_got by_messages self.old hash).0 ≡ nothing }
        ensures err { OnErr result (self.new ≡ self.old) }
    {
        let _held = self.blobs.held_bytes();
        self.blobs.put_sealed(hash, sealed)?;
        Ok(())
    }

    /// The blob under the hash, if it is held. It moves to the front, unless it has no bytes.
    pub fn get_blob(&mut self, hash: &[u8; 32]) -> Option<&[u8]>
        ensures* moves { sem 𝓛 (Ends A.row A.Allocator self.entry
            (λ s. s ≡ (blob_got by_messages self.old hash.now).1)) }
        ensures value { option_copied result
            ≡ bytes_given (blob_got by_messages self.old hash.now).0 }
        ensures hash { HasHash (option_copied result) hash.now }
    {
        use_blob(&mut self.blobs, hash);
        let bytes = self.blobs.peek(hash)?;
        Some(bytes)
    }

    /// The blob under the hash, if it is held, for one holder more: it stays in memory where the
    /// cache gives it up. It moves to the front, unless it has no bytes. Nothing is copied.
    pub fn get_shared(&mut self, alloc: A, hash: &[u8; 32]) -> Result<Option<Shared<A>>, AllocError>
        ensures ok { IfOk result (λ found. blob_got by_messages self.old hash.now
            ≡ (answer_of found, self.new)) }
        ensures hash { IfOk result (λ found. HasHash found hash.now) }
        ensures memory { OnErr result
            (IsSome (bytes_given (blob_got by_messages self.old hash.now).0)) }
        ensures err { OnErr result (self.new ≡ self.old) }
    {
        let found = self.blobs.get_shared(alloc, hash)?;
        Ok(found)
    }

    /// Puts a result under the hash of its action. Refusals, the first of these: `BadResult`,
    /// `PinnedDiffers` where a pinned one has other bytes, and `Full` where it doesn't fit beside
    /// the pinned results. The bytes are read first, which takes memory, so want of it may come
    /// before any refusal.
    pub fn put_result(
        &mut self,
        alloc: A,
        hash: [u8; 32],
        bytes: Vec<u8, A>,
    ) -> Result<(), CacheError>
        ensures ok { OnOk result (result_put by_messages self.old hash bytes.items
            ≡ (done, self.new)) }
        ensures refused { IfErr result
            (IsRefused self.old (result_put by_messages self.old hash bytes.items)) }
        ensures bad { (e : MessageError) → result ≡ Err (CacheError.BadResult e)
            → IsRefusedAs e bytes.items }
        ensures err { OnErr result (self.new ≡ self.old) }
    {
        let _held = self.results.held_bytes();
        read_result(alloc, &bytes)?;
        self.put_read(hash, bytes)
    }

    /// Whether the result under the hash is pinned, and has other bytes.
    fn differs(&self, hash: &[u8; 32], bytes: &[u8]) -> bool
        ensures { result ≡ differs_pinned by_messages self.now bytes.now
            (under hash.now self.now.results) }
    {
        match self.results.peek(hash) {
            Some(held) => self.results.pins(hash) > 0 && held != bytes,
            None => false,
        }
    }

    /// Puts bytes that are read as a result. Only where they are put is memory wanting.
    fn put_read(&mut self, hash: [u8; 32], bytes: Vec<u8, A>) -> Result<(), CacheError>
        requires { is_some (references_in bytes.items) ≡ true }
        ensures ok { OnOk result (result_put by_messages self.old hash bytes.items
            ≡ (done, self.new)) }
        ensures refused { IfErr result
            (IsRefused self.old (result_put by_messages self.old hash bytes.items)) }
        ensures memory { result ≡ Err CacheError.Memory
            → (result_put by_messages self.old hash bytes.items).0 ≡ done }
        ensures not_bad { (e : MessageError) → result ≡ Err (CacheError.BadResult e) → ⊥ }
        ensures err { OnErr result (self.new ≡ self.old) }
    {
        let _held = self.results.held_bytes();
        if self.differs(&hash, &bytes) {
            return Err(CacheError::PinnedDiffers);
        }
        self.results.put(hash, bytes)?;
        Ok(())
    }

    /// A result that is held and complete. It moves to the front, and then each blob to which it
    /// refers, in order. Where there is none nothing moves. It reads the result, decodes each Tree
    /// once and looks up each reference: n log n steps for n references.
    pub fn get_result(
        &mut self,
        alloc: A,
        hash: &[u8; 32],
    ) -> Result<Option<Vec<u8, A>>, AllocError>
        ensures ok { IfOk result (λ found. result_got by_messages self.old hash.now
            ≡ (answer_of (option_map (λ v. v.items) found), self.new)) }
        ensures memory { OnErr result (IsSome (under hash.now self.old.results)) }
        ensures err { OnErr result (self.new ≡ self.old) }
    {
        let Some(survey) = survey_of(alloc, &self.blobs, &self.results, hash)? else {
            return Ok(None);
        };
        if survey.fault.is_some() {
            return Ok(None);
        }
        let copy = match self.results.peek(hash) {
            Some(bytes) => Vec::from_slice(alloc, bytes)?,
            None => return Ok(None),
        };
        let _held = self.results.touch(hash);
        touch_each(&mut self.blobs, &survey.references);
        Ok(Some(copy))
    }

    /// Pins a result that is held and complete, and once more each blob to which it refers. One
    /// that is pinned already isn't pinned again. Refusals: `NotHeld` and `Incomplete`.
    pub fn pin(&mut self, alloc: A, hash: &[u8; 32]) -> Result<(), CacheError>
        ensures ok { OnOk result (put_on by_messages self.old hash.now ≡ (done, self.new)) }
        ensures refused { IfErr result
            (IsRefused self.old (put_on by_messages self.old hash.now)) }
        // What a result refers to is read, if it is held and not pinned: that takes memory.
        ensures memory { result ≡ Err CacheError.Memory
            → IsSomeAnd (under hash.now self.old.results) (λ r. r.pinned ≡ false) }
        ensures err { OnErr result (self.new ≡ self.old) }
    {
        let _held = self.results.held_bytes();
        if self.results.pins(hash) > 0 {
            return Ok(());
        }
        let Some(survey) = survey_of(alloc, &self.blobs, &self.results, hash)? else {
            return Err(CacheError::NotHeld);
        };
        if let Some(digest) = survey.fault {
            return Err(CacheError::Incomplete(digest));
        }
        self.blobs.pin_all(alloc, &survey.once)?;
        // It isn't refused: the result is held.
        let _pinned = self.results.pin_all(&[*hash]);
        Ok(())
    }

    /// Takes the pin off a result. Each blob to which it refers is pinned once less, and stays
    /// pinned where another pinned result refers to it. Refusal `NotPinned`.
    pub fn unpin(&mut self, alloc: A, hash: &[u8; 32]) -> Result<(), CacheError>
        ensures ok { OnOk result (take_off by_messages self.old hash.now ≡ (done, self.new)) }
        ensures refused { IfErr result
            (IsRefused self.old (take_off by_messages self.old hash.now)) }
        ensures memory { result ≡ Err CacheError.Memory
            → (take_off by_messages self.old hash.now).0 ≡ done }
        ensures err { OnErr result (self.new ≡ self.old) }
    {
        let _held = self.results.held_bytes();
        if self.results.pins(hash) == 0 {
            return Err(CacheError::NotPinned);
        }
        let Some(survey) = survey_of(alloc, &self.blobs, &self.results, hash)? else {
            return Err(CacheError::NotPinned);
        };
        self.blobs.unpin(alloc, &survey.once)?;
        // It isn't refused: the result is pinned.
        let _unpinned = self.results.unpin(&[*hash]);
        Ok(())
    }
}
