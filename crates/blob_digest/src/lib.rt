//! Digests of blobs: SHA-256 (FIPS 180-4) and a length, as in the Remote Execution API.
//! A blob is hashed whole or in pieces, and a digest has exactly one text, `HASH/SIZE`.
#![tactic(auto)]

mod body;
mod digest;
mod error;
mod hasher;
mod laws;
mod text;

pub use body::{Body, GREATEST_BLOB, Sealed};
pub use digest::{Digest, GREATEST_SIZE};
pub use error::DigestError;
pub use hasher::Hasher;
pub use laws::digests_compare_by_hash_then_size;
pub use text::read_hash;
