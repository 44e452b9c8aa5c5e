ghost use Rattle.std.specs.Prelude.{◌≡◌, ◌⊎◌, ◌+◌, ◌*◌, ◌<◌, ◌≤◌, ◌^◌, ◌∷◌, length, reverse, IfOk};
ghost use Rattle.std.specs.Prelude.{IfErr, OnOk, OnErr};
ghost use Rattle.std.specs.Map.{keys_of};
ghost use Rattle.std.specs.List.{IsDistinct};
ghost use Rattle.eviction.specs.Kept.{total_cost, others};
ghost use Rattle.eviction.specs.Victims.{victims, without_keys, placed_first};
ghost use Rattle.eviction.specs.View.{held_all};

use crate::entry::{Entries, Entry};
use crate::error::BoundedError;
use crate::shared::Shared;
use std::alloc::{AllocError, Allocator};
use std::hash::Hash;
use std::num::NonZeroUsize;

/// The keys of the least recent unpinned entries under other keys than this one that together cost
/// at least the excess. It passes over each entry at most once.
pub(crate) fn choose<K: Copy + Eq + Hash, A: Allocator + Copy>(
    alloc: A,
    cache: &Entries<K, A>,
    key: &K,
    overhead: u64,
    excess: u64,
) -> Result<Vec<K, A>, AllocError>
    ensures { IfOk result (λ chosen. chosen.items
        ≡ victims K.eq key.now overhead excess (held_all (reverse cache.now.entries))) }
{
    let mut chosen = Vec::new(alloc);
    let mut excess = excess;
    for (candidate, entry) in cache.iter().rev() {
        if excess == 0 {
            break;
        }
        if key == candidate || entry.pins > 0 {
            continue;
        }
        chosen.push(*candidate)?;
        excess = excess
            .saturating_sub(entry.bytes.len() as u64)
            .saturating_sub(overhead);
    }
    Ok(chosen)
}

/// Raises the capacity where it is reached, so that the next put drops nothing. It doubles, so that
/// this is seldom.
fn make_room<K: Copy + Eq + Hash, A: Allocator + Copy>(cache: &mut Entries<K, A>)
    ensures entries { cache.new.entries ≡ cache.old.entries }
    ensures room { length cache.new.entries < cache.new.cap }
    ensures doubled { (cache.new.cap ≡ cache.old.cap)
        ⊎ (2 * length cache.new.entries ≤ cache.new.cap) }
    ensures distinct { IsDistinct K.eq (keys_of cache.new.entries) }
{
    let count = cache.len();
    if count == cache.cap().get() {
        cache.resize(NonZeroUsize::new(count * 2).unwrap_or(NonZeroUsize::MAX));
    }
}

/// Puts the bytes first, pinned so often, in place of those under an equal key.
pub(crate) fn put_first<K: Copy + Eq + Hash, A: Allocator + Copy>(
    cache: &mut Entries<K, A>,
    key: K,
    bytes: Vec<u8, A>,
    pins: u64,
) -> Result<(), BoundedError>
    ensures ok { OnOk result (held_all cache.new.entries
        ≡ placed_first K.eq key (record { bytes = bytes.items; pins = pins })
        (held_all cache.old.entries)) }
    ensures err { OnErr result (cache.new.entries ≡ cache.old.entries) }
    ensures memory { IfErr result (λ e. e ≡ BoundedError.Memory) }
{
    let bytes = Shared::new(*cache.allocator(), bytes)?;
    make_room(cache);
    cache.put(key, Entry { bytes, pins })?;
    Ok(())
}

/// Takes the entry under a key out, if there is one, and answers what it costs.
fn take_one<K: Copy + Eq + Hash, A: Allocator>(
    cache: &mut Entries<K, A>,
    key: &K,
    overhead: u64,
) -> u64
    requires { total_cost overhead (held_all cache.old.entries) < 2 ^ 64 }
    ensures entries { held_all cache.new.entries
        ≡ others K.eq key.now (held_all cache.old.entries) }
    ensures cost { result + total_cost overhead (held_all cache.new.entries)
        ≡ total_cost overhead (held_all cache.old.entries) }
{
    let _count = cache.len();
    match cache.pop(key) {
        Some(entry) => entry.bytes.len() as u64 + overhead,
        None => 0,
    }
}

/// Takes the entries under the keys out, and answers what they cost.
pub(crate) fn take_out<K: Copy + Eq + Hash, A: Allocator>(
    cache: &mut Entries<K, A>,
    keys: &[K],
    overhead: u64,
) -> u64
    requires { total_cost overhead (held_all cache.old.entries) < 2 ^ 64 }
    ensures entries { held_all cache.new.entries
        ≡ without_keys K.eq keys.now (held_all cache.old.entries) }
    ensures cost { result + total_cost overhead (held_all cache.new.entries)
        ≡ total_cost overhead (held_all cache.old.entries) }
{
    let mut freed = 0;
    for key in keys {
        freed += take_one(cache, key, overhead);
    }
    freed
}
