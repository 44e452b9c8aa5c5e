use blob_digest::Digest;
use std::alloc::Allocator;
use std::collections::BTreeSet;
use tree::Memo;

/// What a build remembers of its store: the Directories of the sources that were fetched, and the
/// digests of the inputs' Directories that were put. A start does neither again.
#[derive(Drop)]
pub(crate) struct Remembered<A: Allocator> {
    pub(crate) memo: Memo<A>,
    pub(crate) put: BTreeSet<Digest, A>,
}
