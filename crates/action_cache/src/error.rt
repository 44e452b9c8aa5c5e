ghost use Rattle.std.specs.Prelude.{◌≡◌};
ghost use Rattle.action_cache.specs.declared.error.CacheError.TheVariants as errors;
ghost use Rattle.action_cache.specs.CacheError.{of_message, of_blob, of_bounded};

use blob_digest::Digest;
use blob_store::BlobError;
use eviction::BoundedError;
use messages::MessageError;
use std::alloc::AllocError;
use thiserror::Error;

/// Why the cache can't do what is asked. It is as it was before.
#[derive(Clone, Copy, Debug, PartialEq, Eq, Error)]
pub enum CacheError {
    /// The bytes have another hash.
    #[error("the bytes have another hash")]
    HashDiffers,
    /// The blob has more than 16777216 bytes.
    #[error("the blob has more than 16777216 bytes")]
    TooLarge,
    /// What is new and the pinned others exceed the limit.
    #[error("what is new and the pinned others exceed the limit")]
    Full,
    /// The result isn't held.
    #[error("the result isn't held")]
    NotHeld,
    /// The result isn't pinned.
    #[error("the result isn't pinned")]
    NotPinned,
    /// The bytes are no result, and why.
    #[error("the bytes are no result: {0}")]
    BadResult(MessageError),
    /// The result is pinned, and has other bytes.
    #[error("the result is pinned, and has other bytes")]
    PinnedDiffers,
    /// The digest isn't held, or is of a Tree that doesn't decode.
    #[error("a blob to which the result refers isn't held, or is a Tree that doesn't decode")]
    Incomplete(Digest),
    /// No memory was left.
    #[error("out of memory")]
    Memory,
}

impl From<AllocError> for CacheError {
    ghost from_gives = { λ _ e. e ≡ errors.Memory };

    fn from(_e: AllocError) -> CacheError {
        CacheError::Memory
    }
}

impl From<MessageError> for CacheError {
    ghost from_gives = { λ error e. e ≡ of_message error };

    fn from(error: MessageError) -> CacheError {
        match error {
            MessageError::Memory => CacheError::Memory,
            error => CacheError::BadResult(error),
        }
    }
}

impl From<BlobError> for CacheError {
    ghost from_gives = { λ error e. e ≡ of_blob error };

    fn from(error: BlobError) -> CacheError {
        match error {
            BlobError::HashDiffers => CacheError::HashDiffers,
            BlobError::TooLarge => CacheError::TooLarge,
            BlobError::Full => CacheError::Full,
            BlobError::NotHeld => CacheError::NotHeld,
            BlobError::NotPinned => CacheError::NotPinned,
            BlobError::Memory => CacheError::Memory,
        }
    }
}

impl From<BoundedError> for CacheError {
    ghost from_gives = { λ error e. e ≡ of_bounded error };

    fn from(error: BoundedError) -> CacheError {
        match error {
            BoundedError::Full => CacheError::Full,
            BoundedError::NotHeld => CacheError::NotHeld,
            BoundedError::NotPinned => CacheError::NotPinned,
            BoundedError::Memory => CacheError::Memory,
        }
    }
}
