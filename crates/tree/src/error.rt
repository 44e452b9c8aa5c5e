ghost use Rattle.std.specs.Prelude.{◌≡◌};
ghost use Rattle.tree.specs.declared.error.AddError.TheVariants as adding;
ghost use Rattle.tree.specs.declared.error.TreeError.TheVariants as errors;
ghost use Rattle.tree.specs.TreeError.{of_fetch, of_message};

use blob_digest::Digest;
use blob_source::{FetchError, MessageFetchError};
use messages::Path;
use std::alloc::{AllocError, AllocFailed, Allocator};
use thiserror::Error;

/// Why a tree can't be read.
#[derive(Drop, Error)]
#[derive_where(Debug)]
pub enum TreeError<A: Allocator> {
    /// Nothing stands at the path.
    #[error("nothing stands at the path")]
    Absent(Path<A>),
    /// The source has no blob with the digest.
    #[error("the source has no blob with the digest")]
    BlobMissing(Digest),
    /// What the source has under the digest has another hash or length.
    #[error("what the source has under the digest has another hash or length")]
    BlobWrong(Digest),
    /// The blob with the digest is no message of the kind that was asked for.
    #[error("the blob with the digest is no message of the kind")]
    BlobMalformed(Digest),
    /// At the path, of 64 names, stands a directory that isn't empty.
    #[error("a directory at a path of 64 names isn't empty")]
    TooDeep(Path<A>),
    /// At the path lines give nodes that don't merge.
    #[error("lines give nodes at the path that don't merge")]
    Conflict(Path<A>),
    /// The source failed.
    #[error("the blob source failed")]
    Fetch,
    /// No memory was left.
    #[error("out of memory")]
    Memory,
}

impl<A: Allocator> From<FetchError> for TreeError<A> {
    ghost from_gives = { λ error e. e ≡ of_fetch error };

    fn from(error: FetchError) -> TreeError<A> {
        match error {
            FetchError::Failed => TreeError::Fetch,
            FetchError::Memory => TreeError::Memory,
        }
    }
}

impl<A: Allocator> From<MessageFetchError> for TreeError<A> {
    ghost from_gives = { λ error e. e ≡ of_message error };

    fn from(error: MessageFetchError) -> TreeError<A> {
        match error {
            MessageFetchError::Missing(digest) => TreeError::BlobMissing(digest),
            MessageFetchError::Wrong(digest) => TreeError::BlobWrong(digest),
            MessageFetchError::Malformed(digest) => TreeError::BlobMalformed(digest),
            MessageFetchError::Failed => TreeError::Fetch,
            MessageFetchError::Memory => TreeError::Memory,
        }
    }
}

impl<A: Allocator> From<AllocError> for TreeError<A> {
    ghost from_gives = { λ _ e. e ≡ errors.Memory };

    fn from(_e: AllocError) -> TreeError<A> {
        TreeError::Memory
    }
}

impl<A: Allocator, T: Drop> From<AllocFailed<T>> for TreeError<A> {
    ghost from_gives = { λ _ e. e ≡ errors.Memory };

    fn from(_e: AllocFailed<T>) -> TreeError<A> {
        TreeError::Memory
    }
}

/// Why nothing can be added at a path.
#[derive(Drop, Error)]
#[derive_where(Debug)]
pub enum AddError<A: Allocator> {
    /// What is there already leaves no room for this path.
    #[error("what is there leaves no room for the path")]
    Overlap(Path<A>),
    /// No memory was left.
    #[error("out of memory")]
    Memory,
}

impl<A: Allocator> From<AllocError> for AddError<A> {
    ghost from_gives = { λ _ e. e ≡ adding.Memory };

    fn from(_e: AllocError) -> AddError<A> {
        AddError::Memory
    }
}

impl<A: Allocator, T: Drop> From<AllocFailed<T>> for AddError<A> {
    ghost from_gives = { λ _ e. e ≡ adding.Memory };

    fn from(_e: AllocFailed<T>) -> AddError<A> {
        AddError::Memory
    }
}
