ghost use Rattle.std.specs.Prelude.{◌≡◌};
ghost use Rattle.messages.specs.declared.error.MessageError.TheVariants as errors;
ghost use Rattle.messages.specs.Told.{told};

use blob_digest::DigestError;
use canonical::CanonError;
use std::alloc::{AllocError, AllocFailed};
use thiserror::Error;

/// Why bytes or values are no message.
#[derive(Clone, Copy, Debug, PartialEq, Eq, Error)]
pub enum MessageError {
    /// The fields of the message break a rule of the encoding in which they are read.
    #[error("{0}")]
    Wire(CanonError),
    /// A name is absent or invalid.
    #[error("a name has 1 to 255 bytes of UTF-8 without / and NUL, and is neither . nor ..")]
    BadName,
    /// A list is out of order.
    #[error("a list is out of order")]
    Unsorted,
    /// Two names are one, or a path equals or lies under another.
    #[error("a name or path comes twice, or lies under another")]
    SameName,
    /// A path or a target is absent or invalid.
    #[error("a path has 1 to 64 names joined by /, a target 1 to 4096 bytes without NUL")]
    BadPath,
    /// The message has no field of this number that is supported.
    #[error("field {0} is not supported")]
    Unsupported(u32),
    /// The field of this number has to be there.
    #[error("field {0} is missing")]
    MissingField(u32),
    /// The children of a tree are not those that its directories name.
    #[error("the children of a tree are not those that its directories name")]
    BadTree,
    /// A digest's hash or size is invalid.
    #[error("{0}")]
    BadDigest(DigestError),
    /// A text of the field of this number is invalid.
    #[error("a text of field {0} is invalid")]
    BadText(u32),
    /// No memory was left.
    #[error("out of memory")]
    Memory,
}

impl From<CanonError> for MessageError {
    ghost from_gives = { λ error e. e ≡ told error };

    fn from(error: CanonError) -> MessageError {
        match error {
            CanonError::UnknownField(number) => MessageError::Unsupported(number),
            CanonError::Memory => MessageError::Memory,
            error => MessageError::Wire(error),
        }
    }
}

impl From<AllocError> for MessageError {
    ghost from_gives = { λ _ e. e ≡ errors.Memory };

    fn from(_e: AllocError) -> MessageError {
        MessageError::Memory
    }
}

impl<T: Drop> From<AllocFailed<T>> for MessageError {
    ghost from_gives = { λ _ e. e ≡ errors.Memory };

    fn from(_e: AllocFailed<T>) -> MessageError {
        MessageError::Memory
    }
}
