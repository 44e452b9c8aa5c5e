ghost use Rattle.std.specs.Prelude.{◌≡◌, ◌+◌, ◌-◌, ◌<◌, ◌^◌, is_some, nat_lt, if◌then◌else◌};
ghost use Rattle.std.specs.Map.{lookup};
ghost use Rattle.std.specs.List.{IsDistinct, list_all};
ghost use Rattle.std.specs.Option.{option_map_or};
ghost use Rattle.eviction.specs.Kept.{total_cost, pinned_cost};
ghost use Rattle.eviction.specs.Pinning.{CanPinMore, pins_of, repinned, one_more, one_less};
ghost use Rattle.eviction.specs.View.{held_all, count_in};

use crate::entry::{Entries, part_of_pinned};
use std::alloc::Allocator;
use std::hash::Hash;

/// Whether all keys are held.
pub(crate) fn holds_all<K: Copy + Eq + Hash, A: Allocator>(
    cache: &Entries<K, A>,
    keys: &[K],
) -> bool
    ensures { result ≡ list_all (λ k. is_some (lookup (K.eq k) cache.now.entries)) keys.now }
{
    keys.iter().all(|key| cache.contains(key))
}

/// How often the entry under a key is pinned; 0 where there is none.
pub(crate) fn count_under<K: Copy + Eq + Hash, A: Allocator>(cache: &Entries<K, A>, key: &K) -> u64
    ensures { result ≡ count_in K.eq cache.now.entries key.now }
{
    match cache.peek(key) {
        Some(entry) => entry.pins,
        None => 0,
    }
}

/// Whether all keys are pinned.
pub(crate) fn pins_all<K: Copy + Eq + Hash, A: Allocator>(cache: &Entries<K, A>, keys: &[K]) -> bool
    ensures { result ≡ list_all (λ k. nat_lt 0 (count_in K.eq cache.now.entries k)) keys.now }
{
    keys.iter().all(|key| count_under(cache, key) > 0)
}

/// Pins the entry under a key once more, if there is one, and answers what that adds to the costs
/// of the pinned entries.
fn pin_one<K: Copy + Eq + Hash, A: Allocator>(
    cache: &mut Entries<K, A>,
    key: &K,
    overhead: u64,
) -> u64
    requires costs { total_cost overhead (held_all cache.old.entries) < 2 ^ 64 }
    requires count { pins_of K.eq (held_all cache.old.entries) key.now + 1 < 2 ^ 64 }
    ensures entries { held_all cache.new.entries
        ≡ repinned (λ k n. if K.eq key.now k then n + 1 else n) (held_all cache.old.entries) }
    ensures costs { result + pinned_cost overhead (held_all cache.old.entries)
        ≡ pinned_cost overhead (held_all cache.new.entries) }
{
    let _count = cache.len();
    match cache.peek_mut(key) {
        Some(entry) => {
            let cost = entry.bytes.len() as u64 + overhead;
            let before = part_of_pinned(entry.pins, cost);
            entry.pins += 1;
            part_of_pinned(entry.pins, cost) - before
        }
        None => 0,
    }
}

/// Pins the entries under the keys once more, and answers what that adds to the costs of the
/// pinned entries.
pub(crate) fn pin_each<K: Copy + Eq + Hash, A: Allocator>(
    cache: &mut Entries<K, A>,
    keys: &[K],
    overhead: u64,
) -> u64
    requires costs { total_cost overhead (held_all cache.old.entries) < 2 ^ 64 }
    requires distinct { IsDistinct K.eq keys.now }
    requires counts { CanPinMore K.eq (held_all cache.old.entries) keys.now }
    ensures entries { held_all cache.new.entries
        ≡ repinned (one_more K.eq keys.now) (held_all cache.old.entries) }
    ensures costs { result + pinned_cost overhead (held_all cache.old.entries)
        ≡ pinned_cost overhead (held_all cache.new.entries) }
{
    let mut added = 0;
    for key in keys {
        added += pin_one(cache, key, overhead);
    }
    added
}

/// Pins the entry under a key once less, if there is one, and answers what that takes from the
/// costs of the pinned entries.
fn unpin_one<K: Copy + Eq + Hash, A: Allocator>(
    cache: &mut Entries<K, A>,
    key: &K,
    overhead: u64,
) -> u64
    requires costs { total_cost overhead (held_all cache.old.entries) < 2 ^ 64 }
    ensures entries { held_all cache.new.entries
        ≡ repinned (λ k n. if K.eq key.now k then n - 1 else n) (held_all cache.old.entries) }
    ensures costs { result + pinned_cost overhead (held_all cache.new.entries)
        ≡ pinned_cost overhead (held_all cache.old.entries) }
{
    let _count = cache.len();
    match cache.peek_mut(key) {
        Some(entry) => {
            let cost = entry.bytes.len() as u64 + overhead;
            let before = part_of_pinned(entry.pins, cost);
            entry.pins = entry.pins.saturating_sub(1);
            before - part_of_pinned(entry.pins, cost)
        }
        None => 0,
    }
}

/// Pins the entries under the keys once less, and answers what that takes from the costs of the
/// pinned entries.
pub(crate) fn unpin_each<K: Copy + Eq + Hash, A: Allocator>(
    cache: &mut Entries<K, A>,
    keys: &[K],
    overhead: u64,
) -> u64
    requires costs { total_cost overhead (held_all cache.old.entries) < 2 ^ 64 }
    requires distinct { IsDistinct K.eq keys.now }
    ensures entries { held_all cache.new.entries
        ≡ repinned (one_less K.eq keys.now) (held_all cache.old.entries) }
    ensures costs { result + pinned_cost overhead (held_all cache.new.entries)
        ≡ pinned_cost overhead (held_all cache.old.entries) }
{
    let mut taken = 0;
    for key in keys {
        taken += unpin_one(cache, key, overhead);
    }
    taken
}
