ghost use Rattle.std.specs.Prelude.{◌≡◌, ◌≤◌};
ghost use Rattle.blob_digest.specs.Digest.{digest_of, empty_digest, greatest_size};

use sha2::{Digest as _, Sha256};
use std::marker::Model;

/// The greatest size that a digest has, in bytes: the greatest `int64`.
pub const GREATEST_SIZE: u64 = 9_223_372_036_854_775_807;

/// What names a blob: the SHA-256 hash of its bytes (FIPS 180-4), and their length in bytes.
/// It is ordered by hash, then by size.
#[derive(Clone, Copy, Debug, PartialEq, Eq, PartialOrd, Ord, Hash)]
pub struct Digest {
    hash: [u8; 32],
    size: u64,
}

impl Model for Digest {
    ghost use Rattle.blob_digest.specs.DigestValue.{DigestValue, IsDigest};

    ghost Value = { DigestValue };

    ghost view = { λ d. record { hash = d.hash; size = d.size } };

    ghost inverse = { λ d. record { hash = d.hash; size = d.size } };

    ghost invariant = { λ d. IsDigest (record { hash = d.hash; size = d.size }) };
}

impl Digest {
    ghost use Rattle.blob_digest.specs.DigestValue.{IsDigest};

    /// The digest of a blob. (A slice never has more than `GREATEST_SIZE` bytes.)
    #[tactic(auto, unfolding(crate::specs::Digest::digest_of))]
    pub fn of(bytes: &[u8]) -> Digest
        ensures { result ≡ digest_of bytes.now }
    {
        let hash = Sha256::digest(bytes);
        let size = bytes.len() as u64;
        Digest { hash, size }
    }

    /// The digest of no bytes.
    pub fn empty() -> Digest
        ensures { result ≡ empty_digest }
    {
        Digest::of(&[])
    }

    /// The digest with this hash and this size in bytes.
    pub fn new(hash: [u8; 32], size: u64) -> Digest
        requires { size ≤ greatest_size }
        ensures { result ≡ record { hash = hash; size = size } }
    {
        Digest { hash, size }
    }

    /// The 32 bytes of the hash.
    pub fn hash(&self) -> [u8; 32]
        ensures value { result ≡ self.now.hash }
        ensures valid { IsDigest self.now }
    {
        self.hash
    }

    /// The size in bytes.
    pub fn size(&self) -> u64
        ensures value { result ≡ self.now.size }
        ensures valid { IsDigest self.now }
    {
        self.size
    }
}
