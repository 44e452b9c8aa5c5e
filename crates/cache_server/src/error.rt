use std::alloc::AllocError;
use thiserror::Error;

/// Why a connection is given up.
#[derive(Clone, Copy, Debug, PartialEq, Eq, Error)]
pub enum ConnError {
    /// The reader failed.
    #[error("the reader failed")]
    ReadFault,
    /// The writer failed.
    #[error("the writer failed")]
    WriteFault,
    /// No memory was left.
    #[error("out of memory")]
    Memory,
}

impl From<AllocError> for ConnError {
    ghost use Rattle.std.specs.Prelude.{◌≡◌};
    ghost use Rattle.cache_server.specs.declared.error.ConnError.TheVariants.{Memory};

    ghost from_gives = { λ _ e. e ≡ Memory };

    fn from(_: AllocError) -> ConnError {
        ConnError::Memory
    }
}
