ghost use Rattle.std.specs.Prelude.{◌≡◌, ◌<◌, ◌^◌};
ghost use Rattle.std.specs.Map.{keys_of};
ghost use Rattle.std.specs.List.{IsDistinct};
ghost use Rattle.eviction.specs.Kept.{total_cost};
ghost use Rattle.eviction.specs.Victims.{IsStanding, part_if_pinned};
ghost use Rattle.eviction.specs.View.{held_all};

use crate::shared::Shared;
use lru::LruCache;
use std::alloc::Allocator;
use std::hash::{Hash, RandomState};

/// What stands under a key.
#[derive(Drop)]
pub(crate) struct Entry<A: Allocator> {
    pub(crate) bytes: Shared<A>,
    pub(crate) pins: u64,
}

/// The entries by key, most recently used first.
pub(crate) type Entries<K, A> = LruCache<K, Entry<A>, RandomState, A>;

/// What an entry costs, 0 where there is none, and how often it is pinned.
#[derive(Clone, Copy)]
pub(crate) struct Standing {
    pub(crate) cost: u64,
    pub(crate) pins: u64,
}

/// What stands under a key.
pub(crate) fn standing_under<K: Copy + Eq + Hash, A: Allocator>(
    cache: &Entries<K, A>,
    key: &K,
    overhead: u64,
) -> Standing
    requires { total_cost overhead (held_all cache.now.entries) < 2 ^ 63 }
    ensures stands { IsStanding K.eq key.now overhead (held_all cache.now.entries)
        result.cost result.pins }
    ensures distinct { IsDistinct K.eq (keys_of (held_all cache.now.entries)) }
{
    let _count = cache.len();
    match cache.peek(key) {
        Some(entry) => Standing {
            cost: entry.bytes.len() as u64 + overhead,
            pins: entry.pins,
        },
        None => Standing { cost: 0, pins: 0 },
    }
}

/// What an entry adds to the costs of the pinned entries.
pub(crate) fn part_of_pinned(pins: u64, cost: u64) -> u64
    ensures { result ≡ part_if_pinned pins cost }
{
    if pins > 0 { cost } else { 0 }
}
