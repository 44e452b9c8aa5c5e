ghost use Rattle.std.specs.Prelude.{◌≡◌};
ghost use Rattle.verifier.specs.declared.error.VerifyError.TheVariants as errors;

use std::alloc::{AllocError, AllocFailed};
use thiserror::Error;
use tree::FetchError;

/// Why there is no verdict.
#[derive(Clone, Copy, Debug, PartialEq, Eq, Error)]
pub enum VerifyError {
    /// The source failed, and counted that.
    #[error("the blob source failed")]
    Fetch,
    /// No memory was left.
    #[error("out of memory")]
    Memory,
}

impl From<AllocError> for VerifyError {
    ghost from_gives = { λ _ e. e ≡ errors.Memory };

    fn from(_e: AllocError) -> VerifyError {
        VerifyError::Memory
    }
}

impl<T: Drop> From<AllocFailed<T>> for VerifyError {
    ghost from_gives = { λ _ e. e ≡ errors.Memory };

    fn from(_e: AllocFailed<T>) -> VerifyError {
        VerifyError::Memory
    }
}

impl From<FetchError> for VerifyError {
    ghost use Rattle.verifier.specs.Answers.{error_of_fetch};

    ghost from_gives = { λ error e. e ≡ error_of_fetch error };

    fn from(error: FetchError) -> VerifyError {
        match error {
            FetchError::Failed => VerifyError::Fetch,
            FetchError::Memory => VerifyError::Memory,
        }
    }
}
