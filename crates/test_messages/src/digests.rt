//! Rows of digests: blobs and their digests' texts, which `sha256sum` prints, and texts.
use crate::answers::{Answer, Broken, digest_text, number, said, word};
use blob_digest::{Body, Digest, Hasher, Sealed, read_hash};
use std::alloc::{AllocError, Allocator, Global};
use test_support::Refusing;

pub fn answer<A: Allocator + Copy>(global: Global, alloc: A, fields: &[Vec<u8>]) -> Answer {
    let [kind, given, _] = fields else {
        return Err(Broken::NoRow);
    };
    match word(kind) {
        "blob" => blob(global, alloc, given),
        "text" => number(global, Digest::read_text(given)?.size()),
        "hash" => hash(global, given),
        "refused" => after_refusal(global, given),
        _ => Err(Broken::NoRow),
    }
}

/// The text of the blob's digest, if it is that of the blob in two pieces, wherever it is cut.
fn blob<A: Allocator + Copy>(global: Global, alloc: A, blob: &[u8]) -> Answer {
    let digest = Digest::of(blob);
    for cut in 0..blob.len() {
        let (front, back) = blob.split_at(cut);
        if hashed(front, back) != Some(digest) || sealed(alloc, front, back)? != digest {
            return said(global, "other in pieces");
        }
    }
    let whole = Sealed::of(Vec::from_slice(alloc, blob)?);
    if whole.digest() != digest || whole.as_slice() != blob {
        return said(global, "other when sealed");
    }
    if !is_spelled(alloc, &digest)? || (blob.is_empty() && digest != Digest::empty()) {
        return said(global, "other as text");
    }
    digest_text(global, &digest)
}

/// The digest of two pieces of at most 1,000 bytes.
fn hashed(front: &[u8], back: &[u8]) -> Option<Digest> {
    if front.len() > 1_000 || back.len() > 1_000 {
        return None;
    }
    let mut hasher = Hasher::new();
    hasher.update(front);
    if hasher.taken() != front.len() as u64 {
        return None;
    }
    hasher.update(back);
    Some(hasher.finish())
}

/// The digest of a body of two pieces of at most 1,000 bytes.
fn sealed<A: Allocator + Copy>(alloc: A, front: &[u8], back: &[u8]) -> Result<Digest, AllocError> {
    let mut body = Body::new(alloc);
    if front.len() <= 1_000 {
        body.push(front)?;
    }
    if body.len() <= 1_000 && back.len() <= 1_000 {
        body.push(back)?;
    }
    Ok(body.seal().digest())
}

/// Whether the digest is read from what is written of it, in whole and in parts.
fn is_spelled<A: Allocator + Copy>(alloc: A, digest: &Digest) -> Result<bool, AllocError> {
    let text = digest.write_text(alloc)?;
    let bytes = text.as_bytes();
    Ok(
        Digest::read_text(bytes) == Ok(*digest)
            && bytes.starts_with(&digest.hash_text())
            && Digest::new(digest.hash(), digest.size()) == *digest,
    )
}

/// The digest of the hash of this text, with the size 9.
fn hash(global: Global, text: &[u8]) -> Answer {
    match read_hash(text) {
        Some(hash) => digest_text(global, &Digest::new(hash, 9)),
        None => said(global, "none"),
    }
}

/// The digest of a body whose first push was refused memory, and that was sealed without any.
fn after_refusal(global: Global, blob: &[u8]) -> Answer {
    if blob.len() > 1_000 {
        return Err(Broken::NoRow);
    }
    let heap = Refusing::new(global, 1);
    let mut body = Body::new(&heap);
    if body.push(blob) != Err(AllocError) || !body.is_empty() {
        return said(global, "pushed without memory");
    }
    body.push(blob)?;
    heap.refuse(1);
    if body.len() != blob.len() {
        return said(global, "another length");
    }
    let digest = body.seal().digest();
    if heap.has_refused() {
        return said(global, "sealed with memory");
    }
    digest_text(global, &digest)
}
