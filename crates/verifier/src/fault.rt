ghost use Rattle.std.specs.Prelude.{◌≡◌};
ghost use Rattle.verifier.specs.declared.fault.Fault.TheVariants as faults;
ghost use Rattle.verifier.specs.Answers.{IsTooDeep, IsFaultOf};

use crate::verdict::Cause;
use std::alloc::{AllocError, AllocFailed, Allocator};
use tree::{FetchError, TreeError};

/// Why a check doesn't go on.
#[derive(Drop)]
pub(crate) enum Fault<A: Allocator> {
    /// What was recorded has a fault.
    Cause(Cause<A>),
    /// The source failed, and counted that.
    Fetch,
    /// No memory was left.
    Memory,
}

impl<A: Allocator> From<AllocError> for Fault<A> {
    ghost from_gives = { λ _ e. e ≡ faults.Memory };

    fn from(_e: AllocError) -> Fault<A> {
        Fault::Memory
    }
}

impl<A: Allocator, T: Drop> From<AllocFailed<T>> for Fault<A> {
    ghost from_gives = { λ _ e. e ≡ faults.Memory };

    fn from(_e: AllocFailed<T>) -> Fault<A> {
        Fault::Memory
    }
}

impl<A: Allocator> From<FetchError> for Fault<A> {
    ghost use Rattle.blob_source.specs.declared.source.FetchError.TheVariants as fetching;
    ghost use Rattle.verifier.specs.Answers.{fault_of_fetch};

    ghost from_gives = { λ error e. e ≡ fault_of_fetch error };

    fn from(error: FetchError) -> Fault<A> {
        match error {
            FetchError::Failed => Fault::Fetch,
            FetchError::Memory => Fault::Memory,
        }
    }
}

/// The fault that an error of a call on trees is.
pub(crate) fn fault_of<A: Allocator>(error: TreeError<A>) -> Fault<A>
    requires { IsTooDeep error → ⊥ }
    ensures { IsFaultOf error result }
{
    match error {
        TreeError::Absent(path) => Fault::Cause(Cause::OriginMissing(path)),
        TreeError::BlobMissing(digest) => Fault::Cause(Cause::BlobMissing(digest)),
        TreeError::BlobWrong(digest) => Fault::Cause(Cause::BlobWrong(digest)),
        TreeError::BlobMalformed(digest) => Fault::Cause(Cause::BlobMalformed(digest)),
        TreeError::TooDeep(_) => unreachable!(),
        TreeError::Conflict(path) => Fault::Cause(Cause::InputConflict(path)),
        TreeError::Fetch => Fault::Fetch,
        TreeError::Memory => Fault::Memory,
    }
}
