ghost use Rattle.std.specs.Prelude.{◌≡◌, ◌↔◌, ◌⊎◌, ◌+◌, ◌≤◌, [], ◌∷◌, IfErr, IfOk, IsErrOf};
ghost use Rattle.std.specs.Prelude.{OnErr, OnOk, string_bytes};
ghost use Rattle.blob_digest.specs.Digest.{DigestValue, empty_digest};
ghost use Rattle.blob_source.specs.Called.{Called, Calls};
ghost use Rattle.blob_source.specs.Source.{Asks, Blobs, IsBlobUnder};
ghost use Rattle.tree.specs.FlatTree.{entry_value, path_values};
ghost use Rattle.tree.specs.LooksAt.{UnfoldLooksAt};
ghost use Rattle.tree.specs.Memo.{AsksNoOther, LooksAtBlob};
ghost use Rattle.tree.specs.TreeError.{Explains, FailsBlob};
ghost use Rattle.tree.specs.Unfolded.{AsksDirectories, ExplainsUnfold, IsUnfolded};
ghost use Rattle.tree.specs.Unfolded.{directories_in};
ghost use Rattle.checkout.specs.Folder.{IsHad, Tries};
ghost use Rattle.checkout.specs.Written.{HoldsTree, IsGained, MakesEntry, MakesEntries, TriesTree};
ghost use Rattle.checkout.specs.Written.{AsksContents, AsksEachOnce, AsksUpTo, CheckoutLooksAt};
ghost use Rattle.checkout.specs.Written.{EntryLooksAt, IsToldTree, contents_at};
ghost use Rattle.checkout.specs.Written.{place_below, places_of};
ghost use Rattle.checkout.specs.Refused.{FailsCheckout, FailsContent, FailsEntries, FailsOneEntry};
ghost use Rattle.checkout.specs.Refused.{FailsPlace, FailsTree, StopsUnfold};

use crate::error::CheckoutError;
use crate::writer::FolderWriter;
use blob_digest::Digest;
use messages::Path;
use std::alloc::{AllocError, Allocator};
use std::io;
use std::io::ErrorKind;
use tree::{BlobSource, FlatEntry, FlatTree, TreeError, fetch_content, unfold};

/// What was made at a place, or why nothing was.
fn made_at<A: Allocator, T: Drop>(
    place: String<A>,
    made: io::Result<T>,
) -> Result<T, CheckoutError<A>>
    ensures same { IfOk result (λ value. made ≡ Ok value) }
    ensures refused { IfErr result (FailsPlace (λ _ fault. made ≡ Err fault) (string_bytes place)) }
{
    match made {
        Ok(value) => Ok(value),
        Err(fault) if fault.kind() == ErrorKind::OutOfMemory => Err(CheckoutError::Memory),
        Err(fault) => Err(CheckoutError::Place { path: place, fault }),
    }
}

/// The content with a digest. Refusals: `Missing` and `Wrong`.
fn read_content<A: Allocator + Copy, S: BlobSource<A>>(
    alloc: A,
    digest: &Digest,
    source: &mut S,
) -> Result<Vec<u8, A>, CheckoutError<A>>
    ensures told { IfOk result
        (λ content. IsBlobUnder (S.tells source.new).blobs digest.now content.items) }
    ensures refused { IfErr result (FailsContent (S.tells source.new).blobs digest.now) }
    ensures called { Calls (Asks 1) (S.tells source.old) (S.tells source.new)
        (IsErrOf result CheckoutError.Fetch) }
    ensures unasked { digest.now ≡ empty_digest → S.tells source.new ≡ S.tells source.old }
    ensures only { AsksNoOther (LooksAtBlob digest.now)
        (S.tells source.old) (S.tells source.new) }
{
    match fetch_content(alloc, source, digest) {
        Ok(content) => Ok(content),
        Err(error) => Err(error_of(error)),
    }
}

/// The error that one of unfolding a tree, or of fetching a content, is.
fn error_of<A: Allocator>(error: TreeError<A>) -> CheckoutError<A>
    requires { StopsUnfold error }
    ensures fails { (B : Blobs) (d : DigestValue)
        → ExplainsUnfold B d [] error → FailsTree B d result }
    ensures lacks { (B : Blobs) (d : DigestValue)
        → Explains (FailsBlob B d) error → FailsContent B d result }
    ensures fetch { (result ≡ CheckoutError.Fetch) ↔ (error ≡ TreeError.Fetch) }
    ensures memory { (result ≡ CheckoutError.Memory) ↔ (error ≡ TreeError.Memory) }
{
    match error {
        TreeError::BlobMissing(digest) => CheckoutError::Missing(digest),
        TreeError::BlobWrong(digest) => CheckoutError::Wrong(digest),
        TreeError::BlobMalformed(digest) => CheckoutError::Malformed(digest),
        TreeError::TooDeep(path) => CheckoutError::TooDeep(path),
        TreeError::Fetch => CheckoutError::Fetch,
        TreeError::Memory => CheckoutError::Memory,
        TreeError::Absent(_) | TreeError::Conflict(_) => unreachable!(),
    }
}

/// The tree with a digest. Refusals: `Missing`, `Wrong`, `Malformed` and `TooDeep`.
fn read_tree<A: Allocator + Copy, S: BlobSource<A>>(
    alloc: A,
    root: &Digest,
    source: &mut S,
) -> Result<FlatTree<A>, CheckoutError<A>>
    ensures told { IfOk result (IsUnfolded (S.tells source.new).blobs root.now) }
    ensures few { IfOk result (λ tree.
        (S.tells source.new).calls ≤ (S.tells source.old).calls + 1 + directories_in tree) }
    ensures once { AsksDirectories (S.tells source.new).blobs root.now
        (S.tells source.old) (S.tells source.new) }
    ensures refused { IfErr result (FailsTree (S.tells source.new).blobs root.now) }
    ensures called { Called (S.tells source.old) (S.tells source.new)
        (IsErrOf result CheckoutError.Fetch) }
    ensures only { AsksNoOther (UnfoldLooksAt (S.tells source.new).blobs root.now)
        (S.tells source.old) (S.tells source.new) }
{
    match unfold(alloc, root, source) {
        Ok(tree) => Ok(tree),
        Err(error) => Err(error_of(error)),
    }
}

/// The place of a path below a folder.
fn place_below<A: Allocator>(alloc: A, folder: &str, path: &str) -> Result<String<A>, AllocError>
    ensures { IfOk result (λ place. string_bytes place ≡ place_below folder.now path.now) }
{
    format!(in alloc; "{folder}/{path}")
}

/// Writes what stands at a path of a tree.
fn write_entry<A: Allocator + Copy, S: BlobSource<A>, W: FolderWriter>(
    alloc: A,
    writer: &mut W,
    folder: &mut W::Folder,
    place: String<A>,
    entry: &FlatEntry<A>,
    source: &mut S,
) -> Result<(), CheckoutError<A>>
    ensures made { OnOk result (MakesEntry W.has (S.tells source.new).blobs folder.old
        folder.new (string_bytes place) (entry_value entry.now)) }
    ensures tried { OnOk result
        (Tries W.tried writer.old writer.new (string_bytes place ∷ [])) }
    ensures few { (S.tells source.new).calls
        ≤ (S.tells source.old).calls + contents_at (entry_value entry.now) }
    ensures refused { IfErr result (FailsOneEntry (W.refuses writer.new)
        (Tries W.tried writer.old writer.new) (S.tells source.new).blobs
        (string_bytes place) (entry_value entry.now)) }
    ensures called { Called (S.tells source.old) (S.tells source.new)
        (IsErrOf result CheckoutError.Fetch) }
    ensures only { AsksNoOther (EntryLooksAt (entry_value entry.now))
        (S.tells source.old) (S.tells source.new) }
{
    match entry {
        FlatEntry::Dir => {
            let made = writer.make_folder(folder, place.as_str());
            made_at(place, made)
        }
        FlatEntry::Link { target } => {
            let made = writer.make_link(folder, place.as_str(), target.as_str());
            made_at(place, made)
        }
        FlatEntry::File { digest, executable } => {
            let content = read_content(alloc, digest, source)?;
            let made = writer.write_file(folder, place.as_str(), &content, *executable);
            made_at(place, made)
        }
    }
}

/// Writes the entries of a tree below a folder, each directory before what is in it.
fn write_entries<A: Allocator + Copy, S: BlobSource<A>, W: FolderWriter>(
    alloc: A,
    writer: &mut W,
    folder: &mut W::Folder,
    path: &str,
    entries: Vec<(Path<A>, FlatEntry<A>), A>,
    source: &mut S,
) -> Result<(), CheckoutError<A>>
    ensures made { OnOk result (MakesEntries W.has (S.tells source.new).blobs folder.old
        folder.new path.now (path_values entries.items)) }
    ensures tried { OnOk result (Tries W.tried writer.old writer.new
        (places_of path.now (path_values entries.items))) }
    ensures asked { OnOk result (AsksContents (S.tells source.old) (S.tells source.new)
        (path_values entries.items)) }
    ensures refused { IfErr result (FailsEntries (IsGained W.has folder.old) (W.refuses writer.new)
        (Tries W.tried writer.old writer.new)
        (AsksContents (S.tells source.old) (S.tells source.new))
        (S.tells source.new).blobs path.now (path_values entries.items)) }
    ensures called { Called (S.tells source.old) (S.tells source.new)
        (IsErrOf result CheckoutError.Fetch) }
{
    for (below, entry) in entries {
        let place = place_below(alloc, path, below.as_str())?;
        write_entry(alloc, writer, folder, place, &entry, source)?;
    }
    Ok(())
}

/// Writes the tree with a digest into a folder that isn't there or is empty: each directory, each
/// file with its content and whether it is a program, each symbolic link, and nothing else. A
/// file's content is fetched when its turn comes: what was written before a refusal stays.
/// Refusals, the first of these: `Missing`, `Wrong`, `Malformed` and `TooDeep` of the tree, `Place`
/// where the folder can't be taken, and in the order of the paths `Missing` and `Wrong` of a file's
/// content and `Place` where something can't be written.
pub fn check_out<A: Allocator + Copy, S: BlobSource<A>, W: FolderWriter>(
    alloc: A,
    writer: &mut W,
    path: &str,
    root: &Digest,
    source: &mut S,
) -> Result<W::Folder, CheckoutError<A>>
    ensures written { IfOk result (λ folder.
        HoldsTree (W.has folder) (S.tells source.new).blobs root.now path.now) }
    ensures tried { OnOk result (TriesTree (Tries W.tried writer.old writer.new)
        (S.tells source.new).blobs root.now path.now) }
    // Until the tree is told no folder is taken: the writer is as it was.
    ensures unwritten { OnErr result
        (IsToldTree (S.tells source.new).blobs root.now ⊎ (writer.new ≡ writer.old)) }
    ensures few { AsksEachOnce root.now (S.tells source.old) (S.tells source.new) }
    // Once something isn't told, taken or written, nothing more is tried, and nothing behind it is
    // asked for.
    ensures refused { IfErr result (FailsCheckout (IsHad W.has) (W.refuses writer.new)
        (Tries W.tried writer.old writer.new)
        (AsksUpTo root.now (S.tells source.old) (S.tells source.new))
        (S.tells source.new).blobs root.now path.now) }
    ensures called { Called (S.tells source.old) (S.tells source.new)
        (IsErrOf result CheckoutError.Fetch) }
    // No blob is asked for but the tree's Directories and its files' contents.
    ensures only { AsksNoOther (CheckoutLooksAt (S.tells source.new).blobs root.now)
        (S.tells source.old) (S.tells source.new) }
{
    let tree = read_tree(alloc, root, source)?;
    let entries = tree.into_entries(alloc)?;
    let place = String::from_str(alloc, path)?;
    let mut folder = made_at(place, writer.take(path))?;
    write_entries(alloc, writer, &mut folder, path, entries, source)?;
    Ok(folder)
}
