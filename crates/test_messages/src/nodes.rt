//! Nodes, paths and refusals of trees as rows spell them.
use crate::answers::{Answer, Broken, digest_text, said, word};
use blob_digest::Digest;
use messages::{Node, Path, Target};
use std::alloc::{Allocator, Global};
use tree::TreeError;

/// Two words, one after the other.
pub fn phrase(global: Global, word: &str, rest: &[u8]) -> Answer {
    let mut told = Vec::from_slice(global, word.as_bytes())?;
    told.push(b' ')?;
    told.extend_from_slice(rest)?;
    Ok(told)
}

/// A word and a digest.
pub fn with_digest(global: Global, word: &str, digest: &Digest) -> Answer {
    phrase(global, word, &digest_text(global, digest)?)
}

/// A node as it is told.
pub fn node_told<A: Allocator>(global: Global, node: &Node<A>) -> Answer {
    match node {
        Node::File { digest, executable } => file_told(global, digest, *executable),
        Node::Link { target } => phrase(global, "link", target.as_bytes()),
        Node::Dir(digest) => with_digest(global, "directory", digest),
    }
}

pub fn file_told(global: Global, digest: &Digest, executable: bool) -> Answer {
    let word = if executable { "executable" } else { "file" };
    with_digest(global, word, digest)
}

/// The node that is told so.
pub fn node_of<A: Allocator + Copy>(alloc: A, kind: &[u8], rest: &[u8]) -> Result<Node<A>, Broken> {
    match word(kind) {
        "link" => Ok(Node::Link {
            target: Target::new(alloc, rest)?,
        }),
        "directory" => Ok(Node::Dir(Digest::read_text(rest)?)),
        kind => file_of(kind, rest),
    }
}

/// The node of a file that is told so.
fn file_of<A: Allocator>(kind: &str, rest: &[u8]) -> Result<Node<A>, Broken> {
    let executable = kind == "executable";
    if !executable && kind != "file" {
        return Err(Broken::NoRow);
    }
    let digest = Digest::read_text(rest)?;
    Ok(Node::File { digest, executable })
}

/// A refusal as it is told.
pub fn refusal_told<A: Allocator>(global: Global, error: TreeError<A>) -> Answer {
    match &error {
        TreeError::Absent(_) => said(global, "absent"),
        TreeError::BlobMissing(digest) => with_digest(global, "missing", digest),
        TreeError::BlobWrong(digest) => with_digest(global, "wrong", digest),
        TreeError::BlobMalformed(digest) => with_digest(global, "malformed", digest),
        TreeError::TooDeep(path) => phrase(global, "too deep", path.as_bytes()),
        TreeError::Conflict(path) => phrase(global, "conflict", path.as_bytes()),
        TreeError::Memory => Err(Broken::Memory),
        TreeError::Fetch => Err(Broken::NoRow),
    }
}
