use blob_digest::Digest;
use std::alloc::Allocator;
use verifier::{Cause, Place};

/// What is said of a build in stages.
#[derive(Drop)]
#[derive_where(Debug)]
pub enum StagesVerdict<A: Allocator> {
    /// Each stage has a yes, and the last ends in this root. (The sum of the stages' steps, be they
    /// as many as there can be, has 128 bits.)
    Yes {
        root: Digest,
        stages: u64,
        steps: u128,
    },
    /// The first stage that has a no, and where that stands.
    No {
        stage: u32,
        place: Place<A>,
        cause: Cause<A>,
    },
}
