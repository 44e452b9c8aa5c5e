ghost use Rattle.std.specs.Prelude.{◌≡◌, ◌↔◌, IsTrue};
ghost use Rattle.blob_digest.specs.Digest.{DigestValue, digest_cmp};

use crate::digest::Digest;

/// Digests compare by hash, and then by size; two are equal where both are. A law: it does nothing.
pub fn digests_compare_by_hash_then_size()
    ensures order { (d e : DigestValue) → ⟦<Digest as Ord>⟧.cmp d e ≡ digest_cmp d e }
    ensures equality { (d e : DigestValue) → IsTrue (⟦<Digest as PartialEq>⟧.eq d e) ↔ d ≡ e }
{}
