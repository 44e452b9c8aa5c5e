use blob_digest::Sealed;
use std::alloc::Allocator;

/// The table that a request is about, or what it does to a result.
#[derive(Clone, Copy, Debug, PartialEq, Eq)]
pub enum Area {
    Ac,
    Cas,
    Pin,
    Unpin,
}

/// What a request asks of the cache: the area and the hash in its target, and the body of a PUT,
/// which was hashed as it came.
#[derive(Drop)]
pub enum Ask<A: Allocator> {
    Get(Area, [u8; 32]),
    Put(Area, [u8; 32], Sealed<A>),
}

/// A whole request, or the status that refuses it; and whether the session closes after its
/// answer.
#[derive(Drop)]
pub enum Event<A: Allocator> {
    Ask(Ask<A>, bool),
    Refuse(u16, bool),
}
