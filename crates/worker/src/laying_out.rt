ghost use Rattle.std.specs.Prelude.{◌≡◌, ◌+◌, ◌≤◌, [], ◌∷◌, IfOk, IfErr, IsErrOf, OnOk};
ghost use Rattle.std.specs.Prelude.{IsPermutation, length};
ghost use Rattle.action_messages.specs.Ascending.{IsSortedByText};
ghost use Rattle.blob_source.specs.Called.{Called};
ghost use Rattle.tree.specs.FlatTree.{entry_value, path_values};
ghost use Rattle.worker.specs.Gathering.{AreGathered, IsGathered};
ghost use Rattle.worker.specs.Layout.{IsLayoutOf};
ghost use Rattle.worker.specs.Refusals.{StopsLayout, IsLayoutFault};
ghost use Rattle.worker.specs.Values.{contents_of};

use crate::laid::{Layout, LayoutError};
use blob_digest::Digest;
use messages::Path;
use std::alloc::Allocator;
use tree::{BlobSource, FlatEntry, TreeError, fetch_content, unfold};

/// Takes an entry of a tree: a directory as a folder, and a file with its content.
fn take_entry<A: Allocator + Copy, S: BlobSource<A>>(
    alloc: A,
    path: Path<A>,
    entry: FlatEntry<A>,
    source: &mut S,
    folders: &mut Vec<Path<A>, A>,
    files: &mut Vec<(Path<A>, Vec<u8, A>), A>,
) -> Result<(), LayoutError<A>>
    ensures taken { OnOk result (IsGathered (S.tells source.new).blobs path (entry_value entry)
        folders.old.items folders.new.items
        (contents_of files.old.items) (contents_of files.new.items)) }
    ensures refused { IfErr result
        (StopsLayout (S.tells source.new).blobs ((path, entry_value entry) ∷ [])) }
    ensures called { Called (S.tells source.old) (S.tells source.new)
        (IsErrOf result (LayoutError.Source TreeError.Fetch)) }
    // The source is asked for a file's content alone, and once.
    ensures few { OnOk result ((S.tells source.new).calls + length files.old.items
        ≤ (S.tells source.old).calls + length files.new.items) }
{
    let digest = match entry {
        FlatEntry::File { digest, .. } => digest,
        FlatEntry::Link { .. } => return Err(LayoutError::LinkInput(path)),
        FlatEntry::Dir => {
            folders.push(path)?;
            return Ok(());
        }
    };
    let content = fetch_content(alloc, source, &digest)?;
    files.push((path, content))?;
    Ok(())
}

/// The directories and the files among the entries, in their order.
fn gather<A: Allocator + Copy, S: BlobSource<A>>(
    alloc: A,
    entries: Vec<(Path<A>, FlatEntry<A>), A>,
    source: &mut S,
) -> Result<Layout<A>, LayoutError<A>>
    ensures gathered { IfOk result (λ layout. AreGathered (S.tells source.new).blobs
        (path_values entries.items) layout.folders layout.files) }
    ensures refused { IfErr result
        (StopsLayout (S.tells source.new).blobs (path_values entries.items)) }
    ensures called { Called (S.tells source.old) (S.tells source.new)
        (IsErrOf result (LayoutError.Source TreeError.Fetch)) }
    ensures few { IfOk result (λ layout.
        (S.tells source.new).calls ≤ (S.tells source.old).calls + length layout.files) }
{
    let mut folders = Vec::new(alloc);
    let mut files = Vec::new(alloc);
    for (path, entry) in entries {
        take_entry(alloc, path, entry, source, &mut folders, &mut files)?;
    }
    Ok(Layout { folders, files })
}

/// The layout's folders and files, in the order of the texts of their paths.
fn sort<A: Allocator>(layout: Layout<A>) -> Layout<A>
    ensures folders { IsPermutation layout.folders result.folders }
    ensures files { IsPermutation layout.files result.files }
    ensures folders_sorted { IsSortedByText (λ p. p) result.folders }
    ensures files_sorted { IsSortedByText (λ f. f.0) result.files }
{
    let Layout {
        mut folders,
        mut files,
    } = layout;
    folders.sort_unstable_by(|one, other| one.compare_text(other));
    files.sort_unstable_by(|one, other| one.0.compare_text(&other.0));
    Layout { folders, files }
}

/// The directories and files of the tree with a digest, each file with its content. Refusals:
/// `Source` where one isn't told, and `LinkInput` where there is a symbolic link. Whether a file is
/// executable isn't laid out.
pub fn layout<A: Allocator + Copy, S: BlobSource<A>>(
    alloc: A,
    root: &Digest,
    source: &mut S,
) -> Result<Layout<A>, LayoutError<A>>
    ensures told { IfOk result (IsLayoutOf (S.tells source.new).blobs root.now) }
    ensures refused { IfErr result (IsLayoutFault (S.tells source.new).blobs root.now) }
    ensures called { Called (S.tells source.old) (S.tells source.new)
        (IsErrOf result (LayoutError.Source TreeError.Fetch)) }
    // The source is asked at most once for the tree's top, for each folder and for each file.
    ensures few { IfOk result (λ layout. (S.tells source.new).calls
        ≤ (S.tells source.old).calls + 1 + length layout.folders + length layout.files) }
{
    let tree = unfold(alloc, root, source)?;
    let gathered = gather(alloc, tree.into_entries(alloc)?, source)?;
    Ok(sort(gathered))
}
