ghost use Rattle.std.specs.Prelude.{◌≡◌, ◌⊎◌, List, ℕ, Some, None, Option, IfOk, IfErr, OnOk};
ghost use Rattle.std.specs.Prelude.{OnErr};
ghost use Rattle.std.specs.Prelude.{IsErrOf, IfSome, IsNone, IsTrue, length, option_map};
ghost use Rattle.std.specs.BTreeMap.{get};
ghost use Rattle.blob_digest.specs.Digest.{empty_digest, digest_cmp};
ghost use Rattle.messages.specs.DirectoryRules.{DirectoryValue, IsDirectory};
ghost use Rattle.messages.specs.Node.{child};
ghost use Rattle.blob_source.specs.Source.{Asks, Blobs, IsBlobUnder, Telling, bytes_of};
ghost use Rattle.blob_source.specs.Called.{Calls};
ghost use Rattle.blob_source.specs.Told.{IsTold, IsFault, TellsDirectory, FailsDirectory};
ghost use Rattle.tree.specs.Memo.{AsksNoOther, IsKnownOf, IsSame, IsWithout, KnowsNothing};
ghost use Rattle.tree.specs.Memo.{KnowsToo, Learns, LooksAtBlob, LooksAtResult, WasRefused};
ghost use Rattle.tree.specs.Memo.{blob, kept_bytes, known_by};
ghost use Rattle.tree.specs.TreeError.{Explains};

mod looking_up;

use crate::error::TreeError;
use crate::fetching::fetch_message;
use blob_digest::Digest;
use blob_source::{BlobSource, FetchError, Fetched, fetch_blob};
use messages::{Directory, Message, MessageError, Name, Node, decode};
use std::alloc::{AllocError, Allocator};
use std::collections::BTreeMap;

/// What is kept of a blob: its bytes, or the Directory that it was read as.
#[derive(Drop)]
enum Kept<A: Allocator> {
    Bytes(Vec<u8, A>),
    Directory(Directory<A>),
}

impl<A: Allocator + Copy> Kept<A> {
    /// The message that the blob is.
    fn read<M: Message<A>>(&self, alloc: A, digest: &Digest) -> Result<M, TreeError<A>>
        ensures told { (B : Blobs) → IsBlobUnder B digest.now (kept_bytes self.now)
            → IfOk result (IsTold M.keeps M.spells B digest.now) }
        ensures faulty { (B : Blobs) → IsBlobUnder B digest.now (kept_bytes self.now)
            → IfErr result (Explains (IsFault M.keeps M.spells B digest.now)) }
        ensures fetch { IsErrOf result TreeError.Fetch → ⊥ }
    {
        match self {
            Kept::Bytes(bytes) => read_message(alloc, digest, bytes),
            Kept::Directory(directory) => read_message(alloc, digest, &directory.encode(alloc)?),
        }
    }
}

/// What a source told, by digest, so that it isn't asked again. A blob that was looked up in is
/// kept as the Directory that it is, and its bytes aren't kept beside. Results are kept apart.
#[derive(Drop)]
pub struct Memo<A: Allocator> {
    blobs: BTreeMap<Digest, Kept<A>, A>,
    results: BTreeMap<Digest, Vec<u8, A>, A>,
}

/// The message that the blob with a digest is.
fn read_message<A: Allocator + Copy, M: Message<A>>(
    alloc: A,
    digest: &Digest,
    bytes: &[u8],
) -> Result<M, TreeError<A>>
    ensures told { (B : Blobs) → IsBlobUnder B digest.now bytes.now
        → IfOk result (IsTold M.keeps M.spells B digest.now) }
    ensures faulty { (B : Blobs) → IsBlobUnder B digest.now bytes.now
        → IfErr result (Explains (IsFault M.keeps M.spells B digest.now)) }
    ensures same { IfOk result (λ m. bytes.now ≡ M.spells m) }
    ensures fetch { IsErrOf result TreeError.Fetch → ⊥ }
{
    match decode(alloc, bytes) {
        Ok(message) => Ok(message),
        Err(MessageError::Memory) => Err(TreeError::Memory),
        Err(_) => Err(TreeError::BlobMalformed(*digest)),
    }
}

/// Fetches the message with a digest, and its bytes.
#[tactic(auto, using(crate::proofs::Memos::others_at))]
fn fetch_new<A: Allocator + Copy, S: BlobSource<A>, M: Message<A>>(
    alloc: A,
    source: &mut S,
    digest: &Digest,
) -> Result<(M, Vec<u8, A>), TreeError<A>>
    ensures told { IfOk result (λ x.
        IsTold M.keeps M.spells (S.tells source.new).blobs digest.now x.0) }
    ensures bytes { IfOk result (λ x. x.1.items ≡ M.spells x.0) }
    ensures faulty { IfErr result (Explains
        (IsFault M.keeps M.spells (S.tells source.new).blobs digest.now)) }
    ensures called { Calls (Asks 1) (S.tells source.old) (S.tells source.new)
        (IsErrOf result TreeError.Fetch) }
    ensures only { AsksNoOther (LooksAtBlob digest.now)
        (S.tells source.old) (S.tells source.new) }
    ensures unasked { digest.now ≡ empty_digest → S.tells source.new ≡ S.tells source.old }
{
    match fetch_blob(alloc, source, digest)? {
        Fetched::Missing => Err(TreeError::BlobMissing(*digest)),
        Fetched::Wrong => Err(TreeError::BlobWrong(*digest)),
        Fetched::Right(bytes) => {
            let message = read_message(alloc, digest, &bytes)?;
            Ok((message, bytes))
        }
    }
}

impl<A: Allocator + Copy> Memo<A> {
    /// A memo of nothing.
    pub fn new(alloc: A) -> Memo<A>
        ensures { KnowsNothing (known_by result) }
    {
        Memo {
            blobs: BTreeMap::new(alloc),
            results: BTreeMap::new(alloc),
        }
    }

    /// The message that is kept under the digest, if there is a blob.
    fn kept<M: Message<A>>(&self, alloc: A, digest: &Digest) -> Result<Option<M>, TreeError<A>>
        ensures told { (t : Telling) → IsKnownOf (known_by self.now) t
            → IfOk result (λ o. IfSome o (IsTold M.keeps M.spells t.blobs digest.now)) }
        ensures faulty { (t : Telling) → IsKnownOf (known_by self.now) t
            → IfErr result (Explains (IsFault M.keeps M.spells t.blobs digest.now)) }
        ensures none { IfOk result (λ o. IsNone o → known_by self.now (blob digest.now) ≡ None) }
        ensures fetch { IsErrOf result TreeError.Fetch → ⊥ }
    {
        match self.blobs.get(digest) {
            None => Ok(None),
            Some(kept) => Ok(Some(kept.read(alloc, digest)?)),
        }
    }

    /// Keeps this of the blob with the digest, in place of what was kept of it.
    fn keep(&mut self, digest: &Digest, kept: Kept<A>) -> Result<(), AllocError>
        ensures ok { OnOk result
            (KnowsToo (blob digest.now) (kept_bytes kept) (known_by self.old) (known_by self.new)) }
        ensures there { OnOk result (get digest_cmp self.new.blobs digest.now ≡ Some kept) }
        ensures err { OnErr result (IsSame (known_by self.old) (known_by self.new)) }
    {
        self.blobs.insert(*digest, kept)?;
        Ok(())
    }

    /// The message with a digest, fetched unless it is kept, and kept. Refusals: `BlobMissing`,
    /// `BlobWrong` and `BlobMalformed`, after which what is kept is as it was.
    pub fn message<S: BlobSource<A>, M: Message<A>>(
        &mut self,
        alloc: A,
        source: &mut S,
        digest: &Digest,
    ) -> Result<M, TreeError<A>>
        requires { IsKnownOf (known_by self.old) (S.tells source.old) }
        ensures told { IfOk result
            (IsTold M.keeps M.spells (S.tells source.new).blobs digest.now) }
        ensures faulty { IfErr result (Explains
            (IsFault M.keeps M.spells (S.tells source.new).blobs digest.now)) }
        ensures called { Calls (Asks 1) (S.tells source.old) (S.tells source.new)
            (IsErrOf result TreeError.Fetch) }
        ensures unasked { digest.now ≡ empty_digest → S.tells source.new ≡ S.tells source.old }
        ensures learned { Learns (LooksAtBlob digest.now) (WasRefused result)
            (known_by self.old) (known_by self.new) (S.tells source.old) (S.tells source.new) }
        ensures unchanged { OnErr result (IsSame (known_by self.old) (known_by self.new)) }
    {
        if let Some(message) = self.kept(alloc, digest)? {
            return Ok(message);
        }
        let (message, bytes) = fetch_new(alloc, source, digest)?;
        self.keep(digest, Kept::Bytes(bytes))?;
        Ok(message)
    }

    /// Whether the digest is kept as a Directory.
    fn has_directory(&self, digest: &Digest) -> bool
        ensures { IsTrue result → (m : DirectoryValue) × IsDirectory m
            × (get digest_cmp self.now.blobs digest.now ≡ Some (Kept.Directory m)) }
    {
        match self.blobs.get(digest) {
            Some(Kept::Directory(directory)) => {
                let _ = directory.files();
                true
            }
            Some(Kept::Bytes(_)) | None => false,
        }
    }

    /// The Directory with a digest, fetched unless it is kept.
    fn directory<S: BlobSource<A>>(
        &self,
        alloc: A,
        source: &mut S,
        digest: &Digest,
    ) -> Result<Directory<A>, TreeError<A>>
        requires { IsKnownOf (known_by self.now) (S.tells source.old) }
        ensures told { IfOk result (TellsDirectory (S.tells source.new).blobs digest.now) }
        ensures faulty { IfErr result (Explains
            (FailsDirectory (S.tells source.new).blobs digest.now)) }
        ensures called { Calls (Asks 1) (S.tells source.old) (S.tells source.new)
            (IsErrOf result TreeError.Fetch) }
        ensures only { AsksNoOther (LooksAtBlob digest.now)
            (S.tells source.old) (S.tells source.new) }
        ensures asked { (known_by self.now (blob digest.now) ≡ None)
            ⊎ (S.tells source.new ≡ S.tells source.old) }
        ensures unasked { digest.now ≡ empty_digest → S.tells source.new ≡ S.tells source.old }
    {
        match self.kept(alloc, digest)? {
            Some(directory) => Ok(directory),
            None => fetch_message(alloc, source, digest),
        }
    }

    /// Keeps the Directory with a digest as such.
    fn learn_directory<S: BlobSource<A>>(
        &mut self,
        alloc: A,
        source: &mut S,
        digest: &Digest,
    ) -> Result<(), TreeError<A>>
        requires { IsKnownOf (known_by self.old) (S.tells source.old) }
        ensures told { OnOk result ((m : DirectoryValue)
            × TellsDirectory (S.tells source.new).blobs digest.now m
            × (get digest_cmp self.new.blobs digest.now ≡ Some (Kept.Directory m))) }
        ensures faulty { IfErr result (Explains
            (FailsDirectory (S.tells source.new).blobs digest.now)) }
        ensures called { Calls (Asks 1) (S.tells source.old) (S.tells source.new)
            (IsErrOf result TreeError.Fetch) }
        ensures unasked { digest.now ≡ empty_digest → S.tells source.new ≡ S.tells source.old }
        ensures learned { Learns (LooksAtBlob digest.now) (WasRefused result)
            (known_by self.old) (known_by self.new) (S.tells source.old) (S.tells source.new) }
        ensures unchanged { OnErr result (IsSame (known_by self.old) (known_by self.new)) }
    {
        if self.has_directory(digest) {
            return Ok(());
        }
        let directory = self.directory(alloc, source, digest)?;
        self.keep(digest, Kept::Directory(directory))?;
        Ok(())
    }

    /// The child of a name in the Directory with a digest, which is kept as such.
    pub(crate) fn child<S: BlobSource<A>>(
        &mut self,
        alloc: A,
        source: &mut S,
        digest: &Digest,
        name: &Name<A>,
    ) -> Result<Option<Node<A>>, TreeError<A>>
        requires { IsKnownOf (known_by self.old) (S.tells source.old) }
        ensures told { IfOk result (λ o. (m : DirectoryValue)
            × TellsDirectory (S.tells source.new).blobs digest.now m × (o ≡ child name.now m)) }
        ensures faulty { IfErr result (Explains
            (FailsDirectory (S.tells source.new).blobs digest.now)) }
        ensures called { Calls (Asks 1) (S.tells source.old) (S.tells source.new)
            (IsErrOf result TreeError.Fetch) }
        ensures unasked { digest.now ≡ empty_digest → S.tells source.new ≡ S.tells source.old }
        ensures learned { Learns (LooksAtBlob digest.now) (WasRefused result)
            (known_by self.old) (known_by self.new) (S.tells source.old) (S.tells source.new) }
    {
        self.learn_directory(alloc, source, digest)?;
        match self.blobs.get(digest) {
            Some(Kept::Directory(directory)) => Ok(directory.child(alloc, name.as_bytes())?),
            Some(Kept::Bytes(_)) | None => unreachable!(),
        }
    }

    /// The result of the action with a digest, asked for unless it is kept, and kept. That there
    /// is none isn't kept, since it may be told later.
    pub fn result<S: BlobSource<A>>(
        &mut self,
        alloc: A,
        source: &mut S,
        digest: &Digest,
    ) -> Result<Option<Vec<u8, A>>, FetchError>
        requires { IsKnownOf (known_by self.old) (S.tells source.old) }
        ensures told { IfOk result (λ answer.
            bytes_of answer ≡ (S.tells source.new).results digest.now) }
        ensures called { Calls (Asks 1) (S.tells source.old) (S.tells source.new)
            (IsErrOf result FetchError.Failed) }
        ensures blobs { (S.tells source.new).blobs ≡ (S.tells source.old).blobs }
        ensures learned { Learns (LooksAtResult digest.now) (IsWithout result)
            (known_by self.old) (known_by self.new) (S.tells source.old) (S.tells source.new) }
        ensures unchanged { OnErr result (IsSame (known_by self.old) (known_by self.new)) }
    {
        if let Some(bytes) = self.results.get(digest) {
            return Ok(Some(Vec::from_slice(alloc, bytes)?));
        }
        let Some(bytes) = source.result(alloc, digest)? else {
            return Ok(None);
        };
        let copy = Vec::from_slice(alloc, &bytes)?;
        self.results.insert(*digest, bytes)?;
        Ok(Some(copy))
    }
}
