ghost use Rattle.std.specs.Prelude.{◌≡◌, ◌+◌, ◌≤◌, [], ◌∷◌, ◌++◌, IfOk, IfErr, IsErrOf, OnOk};
ghost use Rattle.std.specs.Prelude.{option_copied};
ghost use Rattle.std.specs.List.{AllByRecursion};
ghost use Rattle.messages.specs.DirectoryRules.{directory_with};
ghost use Rattle.messages.specs.DirectoryRules.{file_names, directory_names, symlink_names};
ghost use Rattle.messages.specs.Order.{IsAscending, ShareNone};
ghost use Rattle.messages.specs.Path.{IsPath};
ghost use Rattle.blob_source.specs.Called.{Called};
ghost use Rattle.tree.specs.FlatTree.{IsFlatTree, flat_value};
ghost use Rattle.tree.specs.Lookup.{names_in};
ghost use Rattle.tree.specs.LooksAt.{UnfoldLooksAt};
ghost use Rattle.tree.specs.Memo.{AsksNoOther};
ghost use Rattle.tree.specs.Unfolded.{AsksDirectories, ExplainsUnfold, IsUnfolded};
ghost use Rattle.tree.specs.Unfolded.{directories_in};
ghost use Rattle.tree.specs.Unfolding.{child_values, made, AreChildren, ExplainsChild, Appends};

use crate::error::TreeError;
use crate::fetching::fetch_message;
use crate::flat_tree::{EntryMap, FlatEntry, FlatTree};
use blob_digest::Digest;
use blob_source::BlobSource;
use messages::{
    Directory, DirectoryNode, FileNode, MessageError, Name, Node, Path, SymlinkNode, Target,
};
use std::alloc::{AllocError, Allocator};
use std::collections::BTreeMap;

/// Children of a directory, in the order of their names.
type ChildMap<A> = BTreeMap<Name<A>, Node<A>, A>;

/// Entries, one after another.
type Entries<A> = Vec<(Vec<Name<A>, A>, FlatEntry<A>), A>;

/// Inserts the symbolic links, where nothing is yet.
fn insert_symlinks<A: Allocator + Copy>(
    alloc: A,
    children: &mut ChildMap<A>,
    symlinks: &[SymlinkNode<A>],
) -> Result<(), AllocError>
    requires none { made children.old.entries ≡ directory_with [] [] [] }
    requires ascend { IsAscending (symlink_names symlinks.now) }
    ensures { OnOk result (made children.new.entries ≡ directory_with [] [] symlinks.now) }
{
    for symlink in symlinks {
        let target = Target::copy_of(alloc, &symlink.target)?;
        children.insert(Name::copy_of(alloc, &symlink.name)?, Node::Link { target })?;
    }
    Ok(())
}

/// Inserts the directories beside the symbolic links.
fn insert_directories<A: Allocator + Copy>(
    alloc: A,
    children: &mut ChildMap<A>,
    directories: &[DirectoryNode<A>],
) -> Result<(), AllocError>
    requires none { made children.old.entries
        ≡ directory_with [] [] (made children.old.entries).symlinks }
    requires ascend { IsAscending (directory_names directories.now) }
    requires apart { ShareNone (directory_names directories.now)
        (symlink_names (made children.old.entries).symlinks) }
    ensures { OnOk result (made children.new.entries
        ≡ directory_with [] directories.now (made children.old.entries).symlinks) }
{
    for directory in directories {
        children.insert(
            Name::copy_of(alloc, &directory.name)?,
            Node::Dir(directory.digest),
        )?;
    }
    Ok(())
}

/// Inserts the files beside all others.
fn insert_files<A: Allocator + Copy>(
    alloc: A,
    children: &mut ChildMap<A>,
    files: &[FileNode<A>],
) -> Result<(), AllocError>
    requires none { (made children.old.entries).files ≡ [] }
    requires ascend { IsAscending (file_names files.now) }
    requires directories { ShareNone (file_names files.now)
        (directory_names (made children.old.entries).directories) }
    requires symlinks { ShareNone (file_names files.now)
        (symlink_names (made children.old.entries).symlinks) }
    ensures { OnOk result (made children.new.entries ≡ directory_with files.now
        (made children.old.entries).directories (made children.old.entries).symlinks) }
{
    for file in files {
        let node = Node::File {
            digest: file.digest,
            executable: file.executable,
        };
        children.insert(Name::copy_of(alloc, &file.name)?, node)?;
    }
    Ok(())
}

/// The children of a directory, in the order of their names.
pub(crate) fn children_by_name<A: Allocator + Copy>(
    alloc: A,
    directory: &Directory<A>,
) -> Result<ChildMap<A>, AllocError>
    ensures { IfOk result (λ children. AreChildren (child_values children.entries) directory.now) }
{
    let mut children = BTreeMap::new(alloc);
    insert_symlinks(alloc, &mut children, directory.symlinks())?;
    insert_directories(alloc, &mut children, directory.directories())?;
    insert_files(alloc, &mut children, directory.files())?;
    let _ = children.len();
    Ok(children)
}

/// The path of a child. `TooDeep` where the path of its directory has 64 names.
pub(crate) fn child_path<A: Allocator + Copy>(
    alloc: A,
    above: Option<&Path<A>>,
    name: &Name<A>,
) -> Result<Path<A>, TreeError<A>>
    ensures path { IfOk result (λ p.
        p ≡ names_in (option_copied above.entry) ++ name.now ∷ []) }
    ensures refused { IfErr result (λ e. ExplainsChild (option_copied above.entry) e) }
{
    let Some(above) = above else {
        return Ok(Path::of_name(alloc, name)?);
    };
    match Path::below(alloc, above, name) {
        Ok(path) => Ok(path),
        Err(MessageError::Memory) => Err(TreeError::Memory),
        Err(_) => Err(TreeError::TooDeep(Path::copy_of(alloc, above)?)),
    }
}

/// Appends the entries of the tree that is told under a digest, below a path.
fn unfold_below<A: Allocator + Copy, S: BlobSource<A>>(
    alloc: A,
    digest: &Digest,
    above: &Option<Path<A>>,
    source: &mut S,
    entries: &mut Entries<A>,
) -> Result<(), TreeError<A>>
    ensures told { OnOk result (Appends (S.tells source.new).blobs digest.now (names_in above.now)
        (flat_value entries.old.items) (flat_value entries.new.items)) }
    ensures refused { IfErr result
        (ExplainsUnfold (S.tells source.new).blobs digest.now (names_in above.now)) }
    ensures called { Called (S.tells source.old) (S.tells source.new)
        (IsErrOf result TreeError.Fetch) }
    ensures only { AsksNoOther (UnfoldLooksAt (S.tells source.new).blobs digest.now)
        (S.tells source.old) (S.tells source.new) }
    ensures once { AsksDirectories (S.tells source.new).blobs digest.now
        (S.tells source.old) (S.tells source.new) }
    ensures few { OnOk result
        ((S.tells source.new).calls + directories_in (flat_value entries.old.items)
        ≤ (S.tells source.old).calls + 1 + directories_in (flat_value entries.new.items)) }
{
    let directory: Directory<A> = fetch_message(alloc, source, digest)?;
    for (name, node) in children_by_name(alloc, &directory)? {
        let path = child_path(alloc, above.as_ref(), &name)?;
        let names = path.to_names(alloc)?;
        match node {
            Node::File { digest, executable } => {
                entries.push((names, FlatEntry::File { digest, executable }))?;
            }
            Node::Link { target } => entries.push((names, FlatEntry::Link { target }))?,
            Node::Dir(digest) => {
                entries.push((names, FlatEntry::Dir))?;
                unfold_below(alloc, &digest, &Some(path), source, entries)?;
            }
        }
    }
    Ok(())
}

/// The entries by their paths.
fn by_path<A: Allocator + Copy>(alloc: A, entries: Entries<A>) -> Result<EntryMap<A>, AllocError>
    requires { IsFlatTree (flat_value entries.items) }
    ensures { IfOk result (λ map. flat_value map.entries ≡ flat_value entries.items) }
{
    let mut map = BTreeMap::new(alloc);
    for (names, entry) in entries {
        map.insert(names, entry)?;
    }
    Ok(map)
}

/// The tree with a digest, Directory by Directory: each is fetched where it stands. Refusals:
/// `BlobMissing`, `BlobWrong`, `BlobMalformed`, and `TooDeep` where a directory with an entry
/// stands at a path of 64 names.
pub fn unfold<A: Allocator + Copy, S: BlobSource<A>>(
    alloc: A,
    root: &Digest,
    source: &mut S,
) -> Result<FlatTree<A>, TreeError<A>>
    ensures told { IfOk result (IsUnfolded (S.tells source.new).blobs root.now) }
    ensures refused { IfErr result (ExplainsUnfold (S.tells source.new).blobs root.now []) }
    ensures called { Called (S.tells source.old) (S.tells source.new)
        (IsErrOf result TreeError.Fetch) }
    // Nothing is asked for but the Directories of the tree.
    ensures only { AsksNoOther (UnfoldLooksAt (S.tells source.new).blobs root.now)
        (S.tells source.old) (S.tells source.new) }
    // At most one call for each path at which one of them stands, as far as they are told.
    ensures once { AsksDirectories (S.tells source.new).blobs root.now
        (S.tells source.old) (S.tells source.new) }
    // Where all are, that is the root's and one for each directory in the tree.
    ensures few { IfOk result (λ tree.
        (S.tells source.new).calls ≤ (S.tells source.old).calls + 1 + directories_in tree) }
{
    let mut entries = Vec::new(alloc);
    unfold_below(alloc, root, &None, source, &mut entries)?;
    Ok(FlatTree {
        entries: by_path(alloc, entries)?,
    })
}
