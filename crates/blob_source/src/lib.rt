//! Where blobs and results come from, and where they are put. A source is what it tells, and it may
//! lie: every blob that is fetched is hashed, and the empty blob is never asked for.
#![tactic(auto)]

mod fetching;
mod memory;
mod source;

pub use fetching::{Fetched, MessageFetchError, fetch_blob, fetch_message};
pub use memory::MemorySource;
pub use source::{BlobSink, BlobSource, FetchError};
