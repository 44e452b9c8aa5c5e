ghost use Rattle.std.specs.Prelude.{◌≡◌, [], IfOk};
ghost use Rattle.tree.specs.FlatTree.{IsListOf, IsFoldOfList};
ghost use Rattle.tree.specs.Folded.{items_of, unseen};
ghost use Rattle.tree.specs.Form.{NodeValue};
ghost use Rattle.tree.specs.Tree.{Tree};
ghost use Rattle.tree.specs.Visiting.{line_entries, IsVisitOf};

use crate::flat_tree::{FlatEntry, FlatTree};
use crate::visiting::{Children, Line, Visited, lines_under};
use blob_digest::Digest;
use indexmap::IndexSet;
use messages::Name;
use std::alloc::{AllocError, Allocator};
use std::hash::{BuildHasherDefault, FoldHasher};

/// The Directories of a tree, as they are stored.
#[derive(Drop)]
pub struct Folded<A: Allocator> {
    /// The digest of the Directory at the root.
    pub root: Digest,
    /// The encodings of all Directories, each distinct one once, in the order of their first
    /// visits: the root first, a directory before what is below it, names in order.
    pub directories: Vec<Vec<u8, A>, A>,
}

/// Encodings in the order in which they were first inserted.
type EncodingSet<A> = IndexSet<Vec<u8, A>, BuildHasherDefault<FoldHasher>, A>;

/// The set of the encodings, in the order in which each first stands.
fn distinct<A: Allocator + Copy>(
    alloc: A,
    encodings: Vec<Vec<u8, A>, A>,
) -> Result<EncodingSet<A>, AllocError>
    ensures { IfOk result (λ set. items_of set.keys ≡ unseen [] (items_of encodings.items)) }
{
    let mut set = IndexSet::new(alloc);
    for encoding in encodings {
        set.insert_full(encoding)?;
    }
    Ok(set)
}

/// The list of the encodings, each once, where it first stands.
pub(crate) fn each_once<A: Allocator + Copy>(
    alloc: A,
    encodings: Vec<Vec<u8, A>, A>,
) -> Result<Vec<Vec<u8, A>, A>, AllocError>
    ensures { IfOk result (λ v. items_of v.items ≡ unseen [] (items_of encodings.items)) }
{
    let mut directories = Vec::new(alloc);
    for encoding in distinct(alloc, encodings)? {
        directories.push(encoding)?;
    }
    Ok(directories)
}

/// The Directories of the tree whose list the entries are.
fn visit_entries<A: Allocator + Copy>(
    alloc: A,
    entries: &[Line<'_, A, FlatEntry<A>>],
) -> Result<Visited<A>, AllocError>
    requires { (t : Tree NodeValue) × IsListOf (line_entries entries.now) t }
    ensures { IfOk result
        (λ v. (t : Tree NodeValue) → IsListOf (line_entries entries.now) t → IsVisitOf t v) }
{
    let mut children = Children::new(alloc);
    let mut start = 0;
    while start < entries.len() {
        let line = &entries[start];
        start += 1;
        if let Some((name, _)) = line.names.split_first() {
            let copy = Name::copy_of(alloc, name)?;
            match line.item {
                FlatEntry::File { digest, executable } => {
                    children.push_file(copy, *digest, *executable)?;
                }
                FlatEntry::Link { target } => children.push_symlink(alloc, copy, target)?,
                FlatEntry::Dir => {
                    let under = lines_under(alloc, name, &entries[start..])?;
                    let below = visit_entries(alloc, &under)?;
                    children.push_folder(copy, below)?;
                    start += under.len();
                }
            }
        }
    }
    children.close(alloc)
}

/// The digest of a tree's root, and all its Directories. Linear in the entries times the names of
/// their paths; each Directory is hashed once where it stands.
pub fn fold<A: Allocator + Copy>(alloc: A, tree: &FlatTree<A>) -> Result<Folded<A>, AllocError>
    ensures { IfOk result (λ folded. IsFoldOfList tree.now folded) }
{
    let mut lines = Vec::new(alloc);
    for (names, item) in tree.entries.iter() {
        lines.push(Line { names, item })?;
    }
    let visited = visit_entries(alloc, &lines)?;
    Ok(Folded {
        root: visited.root,
        directories: each_once(alloc, visited.encodings)?,
    })
}
