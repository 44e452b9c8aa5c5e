//! What the rows of a group ask and change, one after another.
use crate::answers::{Answer, Broken};
use crate::{Subject, blobs, caches, entries, flat_trees, outcomes, sources, trees};
use action_cache::ActionCache;
use actions::Outcome;
use blob_store::BlobStore;
use eviction::Bounded;
use std::alloc::{Allocator, Global};
use std::hash::RandomState;
use test_support::Row;
use tree::{FlatTree, MemorySource};

/// A source, a tree, an outcome or a store; or nothing, where each row stands by itself.
#[derive(Drop)]
pub enum Held<A: Allocator> {
    Nothing(Subject),
    Source(MemorySource<A>),
    Trees(MemorySource<A>),
    FlatTree(FlatTree<A>),
    Outcome(MemorySource<A>, Outcome<A>),
    Entries(Bounded<u64, A>),
    Blobs(BlobStore<A>),
    Cache(ActionCache<A>),
}

/// What the rows of a group are asked of, and these. A store is made by the first row.
pub fn held_by<'a, A: Allocator + Copy>(
    subject: Subject,
    alloc: A,
    state: RandomState,
    group: &'a [Row],
) -> Result<(Held<A>, &'a [Row]), Broken> {
    let held = match subject {
        Subject::Sources => Held::Source(MemorySource::new(alloc)),
        Subject::Trees => Held::Trees(MemorySource::new(alloc)),
        Subject::FlatTrees => Held::FlatTree(FlatTree::new(alloc)),
        Subject::Outcomes => Held::Outcome(MemorySource::new(alloc), Outcome::new(alloc, 0)),
        Subject::Entries | Subject::Blobs | Subject::Caches => {
            return match group.split_first() {
                Some((first, rows)) => Ok((store_of(subject, alloc, state, &first.fields)?, rows)),
                None => Ok((Held::Nothing(subject), group)),
            };
        }
        _ => Held::Nothing(subject),
    };
    Ok((held, group))
}

/// The store that a row makes.
fn store_of<A: Allocator + Copy>(
    subject: Subject,
    alloc: A,
    state: RandomState,
    fields: &[Vec<u8>],
) -> Result<Held<A>, Broken> {
    Ok(match subject {
        Subject::Entries => Held::Entries(entries::store_of(alloc, state, fields)?),
        Subject::Blobs => Held::Blobs(blobs::store_of(alloc, state, fields)?),
        _ => Held::Cache(caches::cache_of(alloc, state, fields)?),
    })
}

/// What a row comes to.
pub fn answer<A: Allocator + Copy>(
    global: Global,
    alloc: A,
    held: &mut Held<A>,
    fields: &[Vec<u8>],
) -> Answer {
    match held {
        Held::Nothing(subject) => crate::answer(*subject, global, alloc, fields),
        Held::Source(source) => sources::answer(global, alloc, source, fields),
        Held::Trees(source) => trees::answer(global, alloc, source, fields),
        Held::FlatTree(tree) => flat_trees::answer(global, alloc, tree, fields),
        Held::Outcome(source, outcome) => {
            outcomes::answer(global, alloc, source, outcome, fields)
        }
        Held::Entries(store) => entries::answer(global, alloc, store, fields),
        Held::Blobs(store) => blobs::answer(global, alloc, store, fields),
        Held::Cache(cache) => caches::answer(global, alloc, cache, fields),
    }
}
