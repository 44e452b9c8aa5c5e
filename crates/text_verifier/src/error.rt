ghost use Rattle.std.specs.Prelude.{◌≡◌};
ghost use Rattle.text_verifier.specs.declared.error.TextError.TheVariants as errors;

use plan::PlanError;
use std::alloc::AllocError;
use thiserror::Error;
use verifier::VerifyError;

/// Why texts have no answer. The faults of the texts come in this order, and before the source is
/// asked.
#[derive(Clone, Copy, Debug, PartialEq, Eq, Error)]
pub enum TextError {
    /// The plan's text is no plan.
    #[error("plan: {0}")]
    Plan(PlanError),
    /// The record's text is no record of the plan.
    #[error("record: {0}")]
    Record(PlanError),
    /// The source failed, and counted that.
    #[error("the blob source failed")]
    Fetch,
    /// No memory was left.
    #[error("out of memory")]
    Memory,
}

impl From<AllocError> for TextError {
    ghost from_gives = { λ _ e. e ≡ errors.Memory };

    fn from(_e: AllocError) -> TextError {
        TextError::Memory
    }
}

impl From<VerifyError> for TextError {
    ghost use Rattle.text_verifier.specs.Refused.{of_verify};

    ghost from_gives = { λ error e. e ≡ of_verify error };

    fn from(error: VerifyError) -> TextError {
        match error {
            VerifyError::Fetch => TextError::Fetch,
            VerifyError::Memory => TextError::Memory,
        }
    }
}
