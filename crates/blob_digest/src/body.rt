ghost use Rattle.std.specs.Prelude.{◌≡◌, ◌==◌, ◌≤◌, ◌+◌, ◌++◌, [], length, OnOk, OnErr};
ghost use Rattle.blob_digest.specs.Digest.{digest_of};
ghost use Rattle.blob_digest.specs.Body.{greatest_blob};

use crate::digest::Digest;
use crate::hasher::Hasher;
use std::alloc::{AllocError, Allocator};
use std::marker::Model;

/// The most bytes that a [`Body`] takes.
pub const GREATEST_BLOB: usize = 16_777_216;

/// A blob that comes in pieces. Each piece is hashed once, as it is pushed.
#[derive(Drop)]
pub struct Body<A: Allocator> {
    bytes: Vec<u8, A>,
    hasher: Hasher,
}

impl<A: Allocator> Model for Body<A> {
    ghost use Rattle.std.specs.Prelude.{ℕ, List};
    ghost use Rattle.blob_digest.specs.Hashing.{HasTaken};

    ghost Value = { List ℕ };

    ghost view = { λ b. b.bytes.items };

    ghost invariant = { λ b. HasTaken b.hasher b.bytes.items };
}

/// A whole blob and its digest. Whoever has one needs to hash nothing again.
#[derive(Drop)]
pub struct Sealed<A: Allocator> {
    bytes: Vec<u8, A>,
    digest: Digest,
}

impl<A: Allocator> Model for Sealed<A> {
    ghost use Rattle.std.specs.Prelude.{◌≡◌, ℕ, List};
    ghost use Rattle.blob_digest.specs.Digest.{digest_of};

    ghost Value = { List ℕ };

    ghost view = { λ s. s.bytes.items };

    ghost invariant = { λ s. s.digest ≡ digest_of s.bytes.items };
}

impl<A: Allocator> Body<A> {
    /// No bytes yet.
    pub fn new(alloc: A) -> Body<A>
        ensures { result ≡ [] }
    {
        Body {
            bytes: Vec::new(alloc),
            hasher: Hasher::new(),
        }
    }

    /// Takes the next piece. Without memory for it nothing changes.
    pub fn push(&mut self, piece: &[u8]) -> Result<(), AllocError>
        requires { length self.old + length piece.now ≤ greatest_blob }
        ensures ok { OnOk result (self.new ≡ self.old ++ piece.now) }
        ensures err { OnErr result (self.new ≡ self.old) }
    {
        self.bytes.extend_from_slice(piece)?;
        self.hasher.update(piece);
        Ok(())
    }

    /// How many bytes have come.
    pub fn len(&self) -> usize
        ensures { result ≡ length self.now }
    {
        self.bytes.len()
    }

    /// Whether none have come.
    pub fn is_empty(&self) -> bool
        ensures { result ≡ (length self.now == 0) }
    {
        self.bytes.is_empty()
    }

    /// The bytes with their digest. It hashes none of them again, and takes no memory.
    pub fn seal(self) -> Sealed<A>
        ensures { result ≡ self }
    {
        Sealed {
            bytes: self.bytes,
            digest: self.hasher.finish(),
        }
    }
}

impl<A: Allocator> Sealed<A> {
    /// The given bytes, hashed. There may be more of them than a [`Body`] takes.
    pub fn of(bytes: Vec<u8, A>) -> Sealed<A>
        ensures { result ≡ bytes.items }
    {
        let digest = Digest::of(&bytes);
        Sealed { bytes, digest }
    }

    /// The digest of the bytes.
    pub fn digest(&self) -> Digest
        ensures { result ≡ digest_of self.now }
    {
        self.digest
    }

    /// The bytes.
    pub fn as_slice(&self) -> &[u8]
        ensures { result.now ≡ self.now }
    {
        &self.bytes
    }

    /// The bytes, given away.
    pub fn into_bytes(self) -> Vec<u8, A>
        ensures { result.items ≡ self }
    {
        let Sealed { bytes, digest: _ } = self;
        bytes
    }
}
