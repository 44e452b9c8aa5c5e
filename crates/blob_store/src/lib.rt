//! Blobs under their hashes, in a bounded store. What is held has the hash under which it stands;
//! the blob without bytes is always held, and never stored.
#![tactic(auto)]

mod error;
mod store;

pub use blob_digest::GREATEST_BLOB;
pub use error::BlobError;
pub use store::BlobStore;
