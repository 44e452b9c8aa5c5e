ghost use Rattle.std.specs.Prelude.{◌≡◌, ◌↔◌, ◌⊎◌, ◌<◌, ◌^◌, [], Some, Err, true, false, IfOk};
ghost use Rattle.std.specs.Prelude.{IsSome, IfErr, OnOk, OnErr, option_copied};
ghost use Rattle.std.specs.Borrow.{sem};
ghost use Rattle.std.specs.List.{IsDistinct};
ghost use Rattle.eviction.specs.Kept.{IsWellKept, total_cost, touched, bytes_under};
ghost use Rattle.eviction.specs.Entering.{entered, can_enter};
ghost use Rattle.eviction.specs.Pinning.{CanPinMore, pins_of, is_stored, all_stored, all_pinned};
ghost use Rattle.eviction.specs.Pinning.{pinned_all, unpinned_all};

use crate::entry::{Entry, part_of_pinned, standing_under};
use crate::error::BoundedError;
use crate::evicting::{choose, put_first, take_out};
use crate::pinning::{count_under, holds_all, pin_each, pins_all, unpin_each};
use crate::shared::Shared;
use lru::LruCache;
use std::alloc::{AllocError, Allocator};
use std::hash::{Hash, RandomState};
use std::marker::Model;
use std::num::NonZeroUsize;

/// Bytes under keys, whose costs together are at most a limit. Each costs its length and the
/// overhead. Pinned entries are never evicted.
#[derive(Drop)]
pub struct Bounded<K: Copy + Eq + Hash, A: Allocator> {
    cache: LruCache<K, Entry<A>, RandomState, A>,
    limit: u64,
    overhead: u64,
    held: u64,
    pinned: u64,
}

impl<K: Copy + Eq + Hash, A: Allocator> Model for Bounded<K, A> {
    ghost use Rattle.eviction.specs.Kept.{Kept, IsTallied};

    ghost Value = { Kept K };

    ghost use Rattle.eviction.specs.View.{held_all};

    ghost view = { λ b. record {
      entries = held_all b.cache.entries;
      limit = b.limit;
      overhead = b.overhead;
    } };

    ghost invariant = { λ b.
        IsTallied (held_all b.cache.entries) b.limit b.overhead b.held b.pinned };
}

impl<K: Copy + Eq + Hash, A: Allocator + Copy> Bounded<K, A> {
    ghost use Rattle.eviction.specs.Lending.{Ends};

    /// A store without entries. Its keys are hashed with the state's secret, so that nobody who
    /// doesn't know it can choose keys that collide.
    pub fn new(alloc: A, state: RandomState, limit: u64, overhead: u64) -> Result<Self, AllocError>
        requires { limit < 2 ^ 63 }
        ensures { IfOk result
            (λ s. s ≡ record { entries = []; limit = limit; overhead = overhead }) }
    {
        let cache = LruCache::with_hasher(alloc, NonZeroUsize::MIN, state)?;
        Ok(Bounded {
            cache,
            limit,
            overhead,
            held: 0,
            pinned: 0,
        })
    }

    /// The sum of the entries' costs. It is never above the limit, and no two keys are equal.
    pub fn held_bytes(&self) -> u64
        ensures value { result ≡ total_cost self.now.overhead self.now.entries }
        ensures valid { IsWellKept K.eq self.now }
    {
        let _distinct = self.cache.len();
        self.held
    }

    /// Puts the bytes under the key, first, in place of what stood there. Where they fit beside the
    /// pinned others, the least recent unpinned others are evicted until all costs fit; else they
    /// are refused as `Full`.
    ///
    /// It looks once at each entry that it evicts, and at each pinned one that is less recent than
    /// the last of these. Where nothing needs to go it costs a look-up, and now and then a doubling
    /// of the table.
    pub fn put(&mut self, key: K, bytes: Vec<u8, A>) -> Result<(), BoundedError>
        ensures ok { OnOk result (entered K.eq self.old key bytes.items ≡ Some self.new) }
        ensures full { (result ≡ Err BoundedError.Full)
            ↔ (can_enter K.eq self.old key bytes.items ≡ false) }
        ensures errors { IfErr result
            (λ e. (e ≡ BoundedError.Full) ⊎ (e ≡ BoundedError.Memory)) }
        ensures err { OnErr result (self.new ≡ self.old) }
    {
        let overhead = self.overhead;
        let cost = (bytes.len() as u64).saturating_add(overhead);
        let old = standing_under(&self.cache, &key, overhead);
        let pins = old.pins;
        let pinned_others = self.pinned - part_of_pinned(pins, old.cost);
        if cost > self.limit - pinned_others {
            return Err(BoundedError::Full);
        }
        let whole = self.held - old.cost + cost;
        let excess = whole.saturating_sub(self.limit);
        let chosen = choose(*self.cache.allocator(), &self.cache, &key, overhead, excess)?;
        put_first(&mut self.cache, key, bytes, pins)?;
        let freed = take_out(&mut self.cache, &chosen, overhead);
        self.held = whole - freed;
        self.pinned = pinned_others + part_of_pinned(pins, cost);
        Ok(())
    }

    /// Moves the entry under the key to the front, and answers whether there is one. It costs a
    /// look-up.
    pub fn touch(&mut self, key: &K) -> bool
        ensures held { result ≡ is_stored K.eq self.old.entries key.now }
        ensures moves { self.new ≡ touched K.eq self.old key.now }
    {
        let _count = self.cache.len();
        self.cache.promote(key)
    }

    /// The bytes under the key, if it is held. The entry moves to the front. It costs two look-ups.
    pub fn get(&mut self, key: &K) -> Option<&[u8]>
        ensures* moves { sem 𝓛 (Ends K.row A.row K.Hash A.Allocator self.entry
            (λ s. s ≡ touched K.eq self.old key.now)) }
        ensures value { option_copied result ≡ bytes_under K.eq self.old.entries key.now }
    {
        let _count = self.cache.len();
        let _found = self.cache.promote(key);
        let first = self.cache.peek(key)?;
        Some(first.bytes.as_slice())
    }

    /// The bytes under the key, if it is held. Nothing moves. It costs a look-up.
    #[tactic(auto, using(crate::proofs::Looks::lookup_held))]
    pub fn peek(&self, key: &K) -> Option<&[u8]>
        ensures { option_copied result ≡ bytes_under K.eq self.now.entries key.now }
    {
        let entry = self.cache.peek(key)?;
        Some(entry.bytes.as_slice())
    }

    /// The bytes under the key, if it is held, for one holder more: they stay in memory where the
    /// store gives them up. Nothing is copied, and nothing moves. It costs a look-up.
    #[tactic(auto, using(crate::proofs::Looks::lookup_held))]
    pub fn share(&self, key: &K) -> Result<Option<Shared<A>>, AllocError>
        ensures value { IfOk result
            (λ found. found ≡ bytes_under K.eq self.now.entries key.now) }
        ensures err { OnErr result (IsSome (bytes_under K.eq self.now.entries key.now)) }
    {
        match self.cache.peek(key) {
            Some(entry) => Ok(Some(entry.bytes.share()?)),
            None => Ok(None),
        }
    }

    /// Whether the key is held. Nothing moves. It costs a look-up.
    #[tactic(auto, using(crate::proofs::Looks::is_stored_held))]
    pub fn contains(&self, key: &K) -> bool
        ensures { result ≡ is_stored K.eq self.now.entries key.now }
    {
        self.cache.contains(key)
    }

    /// How often the key is pinned: 0 where it isn't held. It costs a look-up.
    pub fn pins(&self, key: &K) -> u64
        ensures { result ≡ pins_of K.eq self.now.entries key.now }
    {
        count_under(&self.cache, key)
    }

    /// Pins each of the keys once more; they are distinct, and no count is at its greatest. Refusal
    /// `NotHeld` where one isn't held. It costs three look-ups a key.
    pub fn pin_all(&mut self, keys: &[K]) -> Result<(), BoundedError>
        requires distinct { IsDistinct K.eq keys.now }
        requires counts { CanPinMore K.eq self.old.entries keys.now }
        ensures ok { OnOk result (self.new ≡ pinned_all K.eq self.old keys.now) }
        ensures held { OnOk result (all_stored K.eq self.old.entries keys.now ≡ true) }
        ensures err { OnErr result (self.new ≡ self.old) }
        ensures not_held { OnErr result (all_stored K.eq self.old.entries keys.now ≡ false) }
        ensures error { IfErr result (λ e. e ≡ BoundedError.NotHeld) }
    {
        if !holds_all(&self.cache, keys) {
            return Err(BoundedError::NotHeld);
        }
        let added = pin_each(&mut self.cache, keys, self.overhead);
        self.pinned += added;
        Ok(())
    }

    /// Pins each of the keys, which are distinct, once less. Refusal `NotPinned` where one isn't
    /// pinned. It costs three look-ups a key.
    pub fn unpin(&mut self, keys: &[K]) -> Result<(), BoundedError>
        requires { IsDistinct K.eq keys.now }
        ensures ok { OnOk result (self.new ≡ unpinned_all K.eq self.old keys.now) }
        ensures pinned { OnOk result (all_pinned K.eq self.old.entries keys.now ≡ true) }
        ensures err { OnErr result (self.new ≡ self.old) }
        ensures not_pinned { OnErr result (all_pinned K.eq self.old.entries keys.now ≡ false) }
        ensures error { IfErr result (λ e. e ≡ BoundedError.NotPinned) }
    {
        if !pins_all(&self.cache, keys) {
            return Err(BoundedError::NotPinned);
        }
        let taken = unpin_each(&mut self.cache, keys, self.overhead);
        self.pinned -= taken;
        Ok(())
    }
}
