use thiserror::Error;

/// Why a text is no digest.
#[derive(Clone, Copy, Debug, PartialEq, Eq, Error)]
pub enum DigestError {
    /// The text doesn't begin with 64 lower-case hex digits and a slash.
    #[error("a digest begins with 64 lower-case hex digits and a slash")]
    BadHex,
    /// What follows is no decimal in range, or it has a leading zero.
    #[error("a digest ends with its size, a decimal of at most 9223372036854775807 without leading zeros")]
    BadSize,
}
