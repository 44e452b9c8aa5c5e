ghost use Rattle.std.specs.Prelude.{◌≡◌, ◌≢◌, ◌↔◌, ◌⊎◌, ◌<◌, ◌^◌, [], map, true, false, bytes_eq};
ghost use Rattle.std.specs.Prelude.{Err};
ghost use Rattle.std.specs.Prelude.{IsSome, IfOk, IfErr, OnOk, OnErr, Some, None, option_copied};
ghost use Rattle.std.specs.Borrow.{sem};
ghost use Rattle.std.specs.List.{IsDistinct, list_all};
ghost use Rattle.eviction.specs.Kept.{IsWellKept, total_cost, touched};
ghost use Rattle.eviction.specs.Pinning.{CanPinMore, pins_of, is_stored, all_pinned};
ghost use Rattle.eviction.specs.Pinning.{pinned_all, unpinned_all};
ghost use Rattle.blob_store.specs.Blobs.{is_empty, is_held, all_held, held_under, hashes_of};
ghost use Rattle.blob_store.specs.Blobs.{found_in, can_unpin, AreBlobs, HasHash};
ghost use Rattle.blob_store.specs.Storing.{blob_put, used, refused_put, IsRefusal};
ghost use Rattle.sha2.specs.Sha256.{sha256};

use crate::error::BlobError;
use blob_digest::{Digest, GREATEST_BLOB, Sealed};
use eviction::{Bounded, Shared};
use std::alloc::{AllocError, Allocator};
use std::hash::RandomState;
use std::marker::Model;

/// Blobs under their SHA-256 hashes, of at most a limit of bytes together.
#[derive(Drop)]
pub struct BlobStore<A: Allocator> {
    blobs: Bounded<[u8; 32], A>,
    no_bytes: [u8; 32],
}

impl<A: Allocator> Model for BlobStore<A> {
    ghost use Rattle.std.specs.Prelude.{◌≡◌, ℕ, List, []};
    ghost use Rattle.sha2.specs.Sha256.{sha256};
    ghost use Rattle.eviction.specs.Kept.{Kept};
    ghost use Rattle.blob_store.specs.Blobs.{AreBlobs};

    ghost Value = { Kept (List ℕ) };

    ghost view = { λ s. s.blobs };

    ghost invariant = { λ s. AreBlobs s.blobs.entries
        × (s.blobs.overhead ≡ 0)
        × (s.no_bytes ≡ sha256 []) };
}

/// Whether it is the digest of no bytes, whose hash is given.
fn is_empty(digest: &Digest, no_bytes: &[u8; 32]) -> bool
    requires { no_bytes.now ≡ sha256 [] }
    ensures { result ≡ is_empty digest.now }
{
    digest.size() == 0 && digest.hash() == *no_bytes
}

/// Whether the bytes have the hash.
fn has_hash<A: Allocator>(sealed: &Sealed<A>, hash: &[u8; 32]) -> bool
    ensures { result ≡ bytes_eq (sha256 sealed.now) hash.now }
{
    sealed.digest().hash() == *hash
}

/// The bytes that are held under a hash. That of no bytes is given.
#[tactic(auto, using(crate::proofs::BlobLemmas::found_is))]
fn held_under<'a, A: Allocator + Copy>(
    blobs: &'a Bounded<[u8; 32], A>,
    no_bytes: &[u8; 32],
    hash: &[u8; 32],
) -> Option<&'a [u8]>
    requires { no_bytes.now ≡ sha256 [] }
    ensures { option_copied result ≡ held_under (found_in blobs.now.entries) hash.now }
{
    if no_bytes == hash {
        return Some(&[]);
    }
    blobs.peek(hash)
}

/// Moves what is stored under the hash to the front, unless it is that of no bytes.
fn use_blob<A: Allocator + Copy>(
    blobs: &mut Bounded<[u8; 32], A>,
    no_bytes: &[u8; 32],
    hash: &[u8; 32],
)
    requires { no_bytes.now ≡ sha256 [] }
    ensures { blobs.new ≡ used blobs.old hash.now }
{
    if no_bytes != hash {
        let _stored = blobs.touch(hash);
    }
}

/// The hashes of the digests, without that of no bytes. Where there are none it takes no memory.
fn hashes_of<A: Allocator + Copy>(
    alloc: A,
    digests: &[Digest],
    no_bytes: &[u8; 32],
) -> Result<Vec<[u8; 32], A>, AllocError>
    requires { no_bytes.now ≡ sha256 [] }
    ensures ok { IfOk result (λ hashes. hashes.items ≡ hashes_of digests.now) }
    ensures memory { OnErr result (hashes_of digests.now ≢ []) }
{
    let mut hashes = Vec::new(alloc);
    for digest in digests {
        if !is_empty(digest, no_bytes) {
            hashes.push(digest.hash())?;
        }
    }
    Ok(hashes)
}

impl<A: Allocator + Copy> BlobStore<A> {
    ghost use Rattle.blob_store.specs.Lending.{Ends};

    /// A store without blobs. Hashes are hashed with the state's secret.
    pub fn new(alloc: A, state: RandomState, limit: u64) -> Result<Self, AllocError>
        requires { limit < 2 ^ 63 }
        ensures { IfOk result (λ s. s ≡ record { entries = []; limit = limit; overhead = 0 }) }
    {
        let blobs = Bounded::new(alloc, state, limit, 0)?;
        let no_bytes = Digest::empty().hash();
        Ok(BlobStore { blobs, no_bytes })
    }

    /// How many bytes the blobs have together. Each stands under its hash.
    pub fn held_bytes(&self) -> u64
        ensures value { result ≡ total_cost 0 self.now.entries }
        ensures valid { IsWellKept bytes_eq self.now }
        ensures hashes { AreBlobs self.now.entries }
    {
        self.blobs.held_bytes()
    }

    /// Puts a blob under its hash. What is held already stays, and moves to the front; the empty
    /// blob is held without being stored. A blob is refused, in this order, where it is too large,
    /// has another hash, or doesn't fit beside the pinned ones. What is held wants no memory.
    pub fn put(&mut self, hash: [u8; 32], bytes: Vec<u8, A>) -> Result<(), BlobError>
        ensures ok { OnOk result (blob_put self.old hash bytes.items ≡ Some self.new) }
        ensures passed { OnOk result (refused_put self.old hash bytes.items ≡ None) }
        ensures refused { IfErr result (IsRefusal (refused_put self.old hash bytes.items)) }
        ensures memory { result ≡ Err BlobError.Memory
            → held_under (found_in self.old.entries) hash ≡ None }
        ensures err { OnErr result (self.new ≡ self.old) }
    {
        if bytes.len() > GREATEST_BLOB {
            return Err(BlobError::TooLarge);
        }
        self.put_sealed(hash, Sealed::of(bytes))
    }

    /// Puts a blob whose digest is known already, as `put` does. It hashes nothing again.
    pub fn put_sealed(&mut self, hash: [u8; 32], sealed: Sealed<A>) -> Result<(), BlobError>
        ensures ok { OnOk result (blob_put self.old hash sealed ≡ Some self.new) }
        ensures passed { OnOk result (refused_put self.old hash sealed ≡ None) }
        ensures refused { IfErr result (IsRefusal (refused_put self.old hash sealed)) }
        ensures memory { result ≡ Err BlobError.Memory
            → held_under (found_in self.old.entries) hash ≡ None }
        ensures err { OnErr result (self.new ≡ self.old) }
    {
        if sealed.as_slice().len() > GREATEST_BLOB {
            return Err(BlobError::TooLarge);
        }
        if !has_hash(&sealed, &hash) {
            return Err(BlobError::HashDiffers);
        }
        if self.no_bytes == hash {
            return Ok(());
        }
        if self.blobs.contains(&hash) {
            let _held = self.blobs.touch(&hash);
            return Ok(());
        }
        self.blobs.put(hash, sealed.into_bytes())?;
        Ok(())
    }

    /// The blob under the hash, if it is held. It moves to the front, unless it has no bytes.
    pub fn get(&mut self, hash: &[u8; 32]) -> Option<&[u8]>
        ensures* moves { sem 𝓛 (Ends A.row A.Allocator self.entry
            (λ s. s ≡ used self.old hash.now)) }
        ensures value { option_copied result ≡ held_under (found_in self.old.entries) hash.now }
        ensures hash { HasHash (option_copied result) hash.now }
    {
        let no_bytes = self.no_bytes;
        use_blob(&mut self.blobs, &no_bytes, hash);
        let bytes = held_under(&self.blobs, &no_bytes, hash)?;
        Some(bytes)
    }

    /// The blob under the hash, if it is held. Nothing moves.
    pub fn peek(&self, hash: &[u8; 32]) -> Option<&[u8]>
        ensures value { option_copied result ≡ held_under (found_in self.now.entries) hash.now }
        ensures hash { HasHash (option_copied result) hash.now }
    {
        held_under(&self.blobs, &self.no_bytes, hash)
    }

    /// The blob under the hash, if it is held, for one holder more: it stays in memory where the
    /// store gives it up. It moves to the front, unless it has no bytes. Nothing is copied.
    pub fn get_shared(&mut self, alloc: A, hash: &[u8; 32]) -> Result<Option<Shared<A>>, AllocError>
        ensures value { IfOk result
            (λ found. found ≡ held_under (found_in self.old.entries) hash.now) }
        ensures hash { IfOk result (λ found. HasHash found hash.now) }
        ensures moves { OnOk result (self.new ≡ used self.old hash.now) }
        ensures err { OnErr result (self.new ≡ self.old) }
        ensures memory { OnErr result (IsSome (held_under (found_in self.old.entries) hash.now)) }
    {
        if self.no_bytes == *hash {
            return Ok(Some(Shared::new(alloc, Vec::new(alloc))?));
        }
        let found = self.blobs.share(hash)?;
        let _held = self.blobs.touch(hash);
        Ok(found)
    }

    /// Moves the blob under the hash to the front, and answers whether it is stored.
    pub fn touch(&mut self, hash: &[u8; 32]) -> bool
        ensures stored { result ≡ is_stored bytes_eq self.old.entries hash.now }
        ensures moves { self.new ≡ touched bytes_eq self.old hash.now }
    {
        self.blobs.touch(hash)
    }

    /// Whether the blob with the digest is held: under its hash, with its length. The empty blob is
    /// always held. Nothing moves.
    pub fn contains(&self, digest: &Digest) -> bool
        ensures { result ≡ is_held (found_in self.now.entries) digest.now }
    {
        match self.peek(&digest.hash()) {
            Some(bytes) => bytes.len() as u64 == digest.size(),
            None => false,
        }
    }

    /// How often the blob under the hash is pinned.
    pub fn pins(&self, hash: &[u8; 32]) -> u64
        ensures { result ≡ pins_of bytes_eq self.now.entries hash.now }
    {
        self.blobs.pins(hash)
    }

    /// Whether the blobs with the digests are all held.
    fn contains_all(&self, digests: &[Digest]) -> bool
        ensures { result ≡ all_held (found_in self.now.entries) digests.now }
    {
        digests.iter().all(|digest| self.contains(digest))
    }

    /// Pins each of the blobs once more; their hashes are distinct, and no count is at its
    /// greatest. The digest of no bytes is left out. Refusal `NotHeld` where one isn't held. Where
    /// all are left out it takes no memory.
    pub fn pin_all(&mut self, alloc: A, digests: &[Digest]) -> Result<(), BlobError>
        requires distinct { IsDistinct bytes_eq (hashes_of digests.now) }
        requires counts { CanPinMore bytes_eq self.old.entries (hashes_of digests.now) }
        ensures ok { OnOk result (self.new ≡ pinned_all bytes_eq self.old (hashes_of digests.now)) }
        ensures err { OnErr result (self.new ≡ self.old) }
        ensures not_held { (result ≡ Err BlobError.NotHeld)
            ↔ (all_held (found_in self.old.entries) digests.now ≡ false) }
        ensures errors { IfErr result (λ e. (e ≡ BlobError.NotHeld) ⊎ (e ≡ BlobError.Memory)) }
        ensures memory { result ≡ Err BlobError.Memory → hashes_of digests.now ≢ [] }
    {
        if !self.contains_all(digests) {
            return Err(BlobError::NotHeld);
        }
        let hashes = hashes_of(alloc, digests, &self.no_bytes)?;
        self.blobs.pin_all(&hashes)?;
        Ok(())
    }

    /// Whether the blob with the digest is pinned, or has no bytes.
    #[tactic(auto, unfolding(crate::specs::Blobs::can_unpin))]
    fn can_unpin(&self, digest: &Digest) -> bool
        ensures { result ≡ can_unpin self.now.entries digest.now }
    {
        is_empty(digest, &self.no_bytes) || self.pins(&digest.hash()) > 0
    }

    /// Whether the blobs with the digests are all pinned. The digest of no bytes is left out.
    fn pins_all(&self, digests: &[Digest]) -> bool
        ensures { result ≡ list_all (can_unpin self.now.entries) digests.now }
    {
        digests.iter().all(|digest| self.can_unpin(digest))
    }

    /// Pins each of the blobs, whose hashes are distinct, once less. The digest of no bytes is left
    /// out. Refusal `NotPinned` where one isn't pinned. Where all are left out it takes no memory.
    pub fn unpin(&mut self, alloc: A, digests: &[Digest]) -> Result<(), BlobError>
        requires { IsDistinct bytes_eq (hashes_of digests.now) }
        ensures ok { OnOk result
            (self.new ≡ unpinned_all bytes_eq self.old (hashes_of digests.now)) }
        ensures err { OnErr result (self.new ≡ self.old) }
        ensures not_pinned { (result ≡ Err BlobError.NotPinned)
            ↔ (all_pinned bytes_eq self.old.entries (hashes_of digests.now) ≡ false) }
        ensures errors { IfErr result
            (λ e. (e ≡ BlobError.NotPinned) ⊎ (e ≡ BlobError.Memory)) }
        ensures memory { result ≡ Err BlobError.Memory → hashes_of digests.now ≢ [] }
    {
        if !self.pins_all(digests) {
            return Err(BlobError::NotPinned);
        }
        let hashes = hashes_of(alloc, digests, &self.no_bytes)?;
        self.blobs.unpin(&hashes)?;
        Ok(())
    }
}
