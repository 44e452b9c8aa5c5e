ghost use Rattle.std.specs.Prelude.{◌≡◌};
ghost use Rattle.checkout.specs.declared.error.CheckoutError.TheVariants as errors;

use blob_digest::Digest;
use messages::Path;
use std::alloc::{AllocError, Allocator};
use std::io;
use thiserror::Error;

/// Why a tree isn't written, or not whole.
#[derive(Drop, Error)]
#[derive_where(Debug)]
pub enum CheckoutError<A: Allocator> {
    /// A Directory of the tree or a file's content isn't there.
    #[error("a Directory or a file's content isn't there")]
    Missing(Digest),
    /// Other bytes stand under the digest of a Directory or of a file's content.
    #[error("a Directory or a file's content has another digest")]
    Wrong(Digest),
    /// What should be a Directory isn't one.
    #[error("not a Directory")]
    Malformed(Digest),
    /// A directory with entries stands at a path of 64 names.
    #[error("a path of more than 64 names")]
    TooDeep(Path<A>),
    /// The source failed.
    #[error("a fetch failed")]
    Fetch,
    /// The folder can't be taken, or what belongs at a path in it can't be written.
    #[error("{path}: {fault}")]
    Place { path: String<A>, fault: io::Error },
    /// No memory was left.
    #[error("out of memory")]
    Memory,
}

impl<A: Allocator> From<AllocError> for CheckoutError<A> {
    ghost from_gives = { λ _ e. e ≡ errors.Memory };

    fn from(_e: AllocError) -> CheckoutError<A> {
        CheckoutError::Memory
    }
}
