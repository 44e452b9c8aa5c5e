ghost use Rattle.std.specs.Prelude.{◌≡◌, ◌+◌, ◌<◌, ◌^◌, ℕ, List, [], ◌++◌, length};
ghost use Rattle.blob_digest.specs.Digest.{digest_of};
ghost use Rattle.blob_digest.specs.Hashing.{HasTaken, taken_len};

use crate::digest::{Digest, GREATEST_SIZE};
use sha2::{Digest as _, Sha256};

/// Hashes a blob that comes in pieces. It keeps no piece, and takes no memory.
#[derive(Drop)]
pub struct Hasher {
    inner: Sha256,
    total: u64,
}

impl Hasher {
    /// A hasher that has taken nothing.
    pub fn new() -> Hasher
        ensures { HasTaken result [] }
    {
        Hasher {
            inner: Sha256::new(),
            total: 0,
        }
    }

    /// How many bytes it has taken.
    pub fn taken(&self) -> u64
        ensures { result ≡ taken_len self.now }
    {
        self.total
    }

    /// Takes the next piece. All pieces together have fewer than 2^61 bytes.
    pub fn update(&mut self, piece: &[u8])
        requires { taken_len self.old + length piece.now < 2 ^ 61 }
        ensures { (blob : List ℕ) → HasTaken self.old blob → HasTaken self.new (blob ++ piece.now) }
    {
        self.inner.update(piece);
        self.total += piece.len() as u64;
    }

    /// The digest of the pieces, joined.
    #[tactic(auto, unfolding(crate::specs::Digest::digest_of))]
    pub fn finish(self) -> Digest
        ensures { (blob : List ℕ) → HasTaken self blob → result ≡ digest_of blob }
    {
        let total = self.total;
        Digest::new(self.inner.finalize(), total.min(GREATEST_SIZE))
    }
}
