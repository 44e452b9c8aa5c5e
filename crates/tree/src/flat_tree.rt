ghost use Rattle.std.specs.Prelude.{◌≡◌, ◌↔◌, ◌⊎◌, ◌==◌, ◌-◌, ℕ, IsTrue, ◌<◌, ◌≤◌, [], IfOk, IfErr};
ghost use Rattle.std.specs.Prelude.{IfNone, IfSome, OnOk, OnErr, IsErr, length, take};
ghost use Rattle.std.specs.Prelude.{option_copied};
ghost use Rattle.messages.specs.Path.{IsPath};
ghost use Rattle.tree.specs.Tree.{nothing, a_directory};
ghost use Rattle.tree.specs.FlatTree.{standing_in, IsFlatTree, IsTaken, IsAdded, IsFirstMissing};
ghost use Rattle.tree.specs.FlatTree.{entry_value, found_value, flat_value, path_values};
ghost use Rattle.tree.specs.TreeError.{IsOverlapAt};

use crate::error::{AddError, TreeError};
use crate::unfolding::child_path;
use blob_digest::Digest;
use messages::{Name, Path, Target};
use std::alloc::{AllocError, Allocator};
use std::collections::BTreeMap;
use std::marker::Model;

/// What stands at a path of a flat tree.
#[derive(Drop)]
#[derive_where(Debug)]
pub enum FlatEntry<A: Allocator> {
    /// A file, by the digest of its content.
    File { digest: Digest, executable: bool },
    /// A symbolic link.
    Link { target: Target<A> },
    /// A directory. What stands in it has entries of its own.
    Dir,
}

impl<A: Allocator> FlatEntry<A> {
    /// Whether it is a directory.
    pub fn is_directory(&self) -> bool
        ensures { IsTrue result ↔ (entry_value self.now ≡ a_directory) }
    {
        match self {
            FlatEntry::Dir => true,
            FlatEntry::File { .. } | FlatEntry::Link { .. } => false,
        }
    }
}

/// The entries in the order of their paths' names.
pub(crate) type EntryMap<A> = BTreeMap<Vec<Name<A>, A>, FlatEntry<A>, A>;

/// A tree as a map from paths to what stands there. Above each path stand directories.
#[derive(Drop)]
pub struct FlatTree<A: Allocator> {
    pub(crate) entries: EntryMap<A>,
}

impl<A: Allocator> Model for FlatTree<A> {
    ghost use Rattle.tree.specs.FlatTree.{FlatValue, IsFlatTree, flat_value};

    ghost Value = { FlatValue };

    ghost view = { λ a. flat_value a.entries.entries };

    ghost invariant = { λ a. IsFlatTree (flat_value a.entries.entries) };
}

/// A copy of the names, over memory of their own.
pub(crate) fn copy_names<A: Allocator + Copy>(
    alloc: A,
    names: &[Name<A>],
) -> Result<Vec<Name<A>, A>, AllocError>
    ensures { IfOk result (λ copy. copy.items ≡ names.now) }
{
    let mut copy = Vec::new(alloc);
    for name in names {
        copy.push(Name::copy_of(alloc, name)?)?;
    }
    Ok(copy)
}

/// The path of these names.
fn path_of<A: Allocator + Copy>(alloc: A, names: &[Name<A>]) -> Result<Path<A>, AllocError>
    requires { IsPath names.now }
    ensures { IfOk result (λ path. path ≡ names.now) }
{
    let mut path: Option<Path<A>> = None;
    for name in names {
        match child_path(alloc, path.as_ref(), name) {
            Ok(below) => path = Some(below),
            Err(TreeError::Memory) => return Err(AllocError),
            Err(_) => unreachable!(),
        }
    }
    match path {
        Some(path) => Ok(path),
        None => unreachable!(),
    }
}

/// Adds the entry at a path, with the directories above it from the first `depth` names on, of
/// which none is there.
fn grow<A: Allocator + Copy>(
    alloc: A,
    entries: &mut EntryMap<A>,
    names: &[Name<A>],
    depth: usize,
    entry: FlatEntry<A>,
) -> Result<(), AllocError>
    requires flat { IsFlatTree (flat_value entries.old.entries) }
    requires some { 0 < depth }
    requires within { depth ≤ length names.now }
    requires valid { IsPath names.now }
    requires parent { (depth ≡ 1)
        ⊎ (standing_in (flat_value entries.old.entries) (take (depth - 1) names.now)
        ≡ a_directory) }
    requires free { (k : ℕ) → depth ≤ k → k ≤ length names.now
        → standing_in (flat_value entries.old.entries) (take k names.now) ≡ nothing }
    ensures flat { OnOk result (IsFlatTree (flat_value entries.new.entries)) }
    ensures added { OnOk result
        (IsAdded depth names.now (entry_value entry) (flat_value entries.old.entries)
        (flat_value entries.new.entries)) }
    ensures err { OnErr result (entries.new.entries ≡ entries.old.entries) }
{
    let key = copy_names(alloc, &names[..depth])?;
    if depth == names.len() {
        entries.insert(key, entry)?;
        return Ok(());
    }
    entries.insert(key, FlatEntry::Dir)?;
    match grow(alloc, entries, names, depth + 1, entry) {
        Ok(()) => Ok(()),
        Err(e) => {
            entries.remove(&names[..depth]);
            Err(e)
        }
    }
}

impl<A: Allocator + Copy> FlatTree<A> {
    /// The tree without entries.
    pub fn new(alloc: A) -> FlatTree<A>
        ensures { result ≡ [] }
    {
        FlatTree {
            entries: BTreeMap::new(alloc),
        }
    }

    /// What stands at a path, if anything does.
    pub fn get<B: Allocator>(
        &self,
        alloc: A,
        path: &Path<B>,
    ) -> Result<Option<&FlatEntry<A>>, AllocError>
        ensures value { IfOk result
            (λ found. found_value (option_copied found) ≡ standing_in self.now path.now) }
        ensures flat { IsFlatTree self.now }
    {
        let entries = &self.entries;
        let names = path.to_names(alloc)?;
        Ok(entries.get(names.as_slice()))
    }

    /// How many entries there are, directories among them.
    pub fn len(&self) -> usize
        ensures { result ≡ length self.now }
    {
        self.entries.len()
    }

    /// Whether there are no entries.
    pub fn is_empty(&self) -> bool
        ensures { result ≡ (length self.now == 0) }
    {
        self.entries.is_empty()
    }

    /// The entries with their paths, in the order of the paths' names: a directory before what is
    /// below it.
    pub fn into_entries(self, alloc: A) -> Result<Vec<(Path<A>, FlatEntry<A>), A>, AllocError>
        ensures value { IfOk result (λ entries. path_values entries.items ≡ self) }
        ensures flat { IsFlatTree self }
    {
        let mut entries = Vec::new(alloc);
        for (names, entry) in self.entries {
            entries.push((path_of(alloc, &names)?, entry))?;
        }
        Ok(entries)
    }

    /// How many names the shortest beginning of a path has at which nothing stands. `None` where
    /// something stands at the path, or a file or a link above it.
    fn first_missing(&self, names: &[Name<A>]) -> Option<usize>
        requires { 0 < length names.now }
        ensures free { IfSome result (λ depth. IsFirstMissing self.now names.now depth) }
        ensures taken { IfNone result (IsTaken self.now names.now) }
    {
        for depth in 1..names.len() {
            match self.entries.get(&names[..depth]) {
                None => return Some(depth),
                Some(entry) => {
                    if !entry.is_directory() {
                        return None;
                    }
                }
            }
        }
        match self.entries.get(names) {
            None => Some(names.len()),
            Some(_) => None,
        }
    }

    /// Adds an entry, and the directories above it that are missing. `Overlap` where something
    /// stands at the path, or a file or a link above it. After a refusal nothing has changed.
    pub fn add(&mut self, alloc: A, path: Path<A>, entry: FlatEntry<A>) -> Result<(), AddError<A>>
        ensures added { OnOk result (IsAdded 1 path (entry_value entry) self.old self.new) }
        ensures room { OnOk result (¬ IsTaken self.old path) }
        ensures refused { IfErr result (λ e. IsOverlapAt e path (IsTaken self.old path)) }
        ensures unchanged { OnErr result (self.new ≡ self.old) }
    {
        let names = path.to_names(alloc)?;
        match self.first_missing(&names) {
            Some(depth) => Ok(grow(alloc, &mut self.entries, &names, depth, entry)?),
            None => Err(AddError::Overlap(path)),
        }
    }
}
