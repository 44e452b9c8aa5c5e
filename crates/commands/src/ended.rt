use blob_digest::Digest;
use std::alloc::Global;
use tree::Mismatch;

/// What a command that wasn't refused came to.
#[derive(Drop)]
pub enum Ended {
    /// What the words ask for is done, or the answer is yes.
    Done,
    /// The answer is no. The note says what that doesn't, where there is something to say.
    No(Option<Note>),
}

/// What a no doesn't say by itself.
#[derive(Drop)]
pub enum Note {
    /// The server has no blob of the digest.
    NoBlob { server: String, digest: Digest },
    /// No folder is at the path.
    NoStore { path: String },
    /// Where a folder isn't what builds make: these have what is here, and it what is there.
    Differs(Mismatch<Global>),
    /// Why a build was refused.
    Refused(String),
}
