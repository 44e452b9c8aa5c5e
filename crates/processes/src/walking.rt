ghost use Rattle.std.specs.Prelude.{◌≡◌, ◌⊎◌, ◌+◌, ℕ, List, [], ◌∷◌, ◌++◌, length, map};
ghost use Rattle.std.specs.Prelude.{Some, None, IfErr, IfOk, IsErrOf, OnOk, string_bytes};
ghost use Rattle.blob_digest.specs.Digest.{digest_of};
ghost use Rattle.std.specs.IoError.{error_kind};
ghost use Rattle.std.specs.declared.io.Error.{Error};
ghost use Rattle.std.specs.declared.io.ErrorKind.TheVariants.{InvalidData};
ghost use Rattle.std.specs.List.{AllByRecursion};
ghost use Rattle.messages.specs.Directory.{directory_bytes};
ghost use Rattle.messages.specs.DirectoryRules.{IsDirectory};
ghost use Rattle.messages.specs.Name.{IsName};
ghost use Rattle.tree.specs.Lookup.{names_in};
ghost use Rattle.worker.specs.Outcomes.{directories_of};
ghost use Rattle.tree.specs.Folded.{items_of};
ghost use Rattle.processes.specs.Collected.{IsBadFolder, IsTreeAt, IsUnreadAt, IsUnwalked};
ghost use Rattle.processes.specs.Walking.{AreOfNone, AreOfNoTree, IsBare, IsWalked, TellsTrouble};

use crate::laying::place_in;
use crate::trouble::Trouble;
use crate::workshop::{Left, Standing, Workshop};
use blob_digest::{Digest, Sealed};
use messages::{Directory, Name, Path, Tree};
use std::alloc::Allocator;
use std::io;
use std::io::ErrorKind;
use tree::{FlatEntry, FlatTree, fold};

/// The most names of a path in a folder.
const MOST_NAMES: usize = 64;

/// Reads the file at a place, and keeps its content.
pub(crate) fn keep_file<A: Allocator + Copy, W: Workshop>(
    alloc: A,
    left: &Left<'_, W>,
    place: &str,
    blobs: &mut Vec<Vec<u8, A>, A>,
) -> Result<Digest, Trouble>
    ensures kept { IfOk result (λ d. (b : List ℕ)
        × W.works.holds left.now.ended.now place.now (Some b) × (d ≡ digest_of b)
        × (items_of blobs.new.items ≡ items_of blobs.old.items ++ b ∷ [])) }
    ensures bad { IsErrOf result Trouble.NoOutput
        → W.works.holds left.now.ended.now place.now None }
    ensures failed { IfErr result (TellsTrouble (W.works.unread left.now.ended.now place.now)) }
{
    let Some(bytes) = left.workshop.read(alloc, left.ended, place)? else {
        return Err(Trouble::NoOutput);
    };
    let sealed = Sealed::of(bytes);
    let digest = sealed.digest();
    blobs.push(sealed.into_bytes())?;
    Ok(digest)
}

/// The path of one more name.
fn path_below<A: Allocator + Copy>(
    alloc: A,
    above: &Option<Path<A>>,
    name: &str,
) -> Result<Path<A>, Trouble>
    ensures path { IfOk result (λ p. p ≡ names_in above.now ++ name.now ∷ []) }
    ensures bad { IsErrOf result Trouble.NoOutput
        → IsName name.now → length (names_in above.now) ≡ 64 }
    ensures failed { IfErr result (TellsTrouble (λ error. ⊥)) }
{
    let name = Name::new(alloc, name.as_bytes())?;
    match above {
        Some(above) => Ok(Path::below(alloc, above, &name)?),
        None => Ok(Path::of_name(alloc, &name)?),
    }
}

/// The names in the folder at a place. `NoOutput` where one is no text.
fn list_names<A: Allocator + Copy, W: Workshop>(
    alloc: A,
    left: &Left<'_, W>,
    place: &str,
) -> Result<Vec<String<A>, A>, Trouble>
    ensures listed { IfOk result (λ names.
        W.works.lists left.now.ended.now place.now (Some (map string_bytes names.items))) }
    ensures bad { IsErrOf result Trouble.NoOutput
        → W.works.lists left.now.ended.now place.now None }
    ensures failed { IfErr result (TellsTrouble (W.works.unread left.now.ended.now place.now)) }
{
    match left.workshop.list(alloc, left.ended, place)? {
        Some(names) => Ok(names),
        None => Err(Trouble::NoOutput),
    }
}

/// Adds what stands in the folder at a place, at the path above in a tree, and keeps the contents
/// of the files. A path below it has at most `most` more names.
fn walk<A: Allocator + Copy, W: Workshop>(
    alloc: A,
    left: &Left<'_, W>,
    place: &str,
    above: &Option<Path<A>>,
    most: usize,
    tree: &mut FlatTree<A>,
    blobs: &mut Vec<Vec<u8, A>, A>,
) -> Result<(), Trouble>
    requires bare { IsBare tree.old (names_in above.now) }
    requires most { length (names_in above.now) + most ≡ 64 }
    ensures walked { OnOk result (IsWalked W.works left.now.ended.now place.now
        (names_in above.now) tree.old tree.new (items_of blobs.old.items)
        (items_of blobs.new.items)) }
    ensures bad { IsErrOf result Trouble.NoOutput
        → IsBadFolder W.works left.now.ended.now most place.now }
    ensures failed { IfErr result
        (TellsTrouble (λ error. IsUnwalked W.works left.now.ended.now error place.now)) }
{
    let names = list_names(alloc, left, place)?;
    for name in &names {
        let Some(fewer) = most.checked_sub(1) else {
            return Err(Trouble::NoOutput);
        };
        let path = path_below(alloc, above, name.as_str())?;
        let place = place_in(alloc, place, name.as_str())?;
        match left.workshop.look(left.ended, place.as_str())? {
            Standing::File => {
                let digest = keep_file(alloc, left, place.as_str(), blobs)?;
                let executable = false;
                tree.add(alloc, path, FlatEntry::File { digest, executable })?;
            }
            Standing::Folder => {
                tree.add(alloc, Path::copy_of(alloc, &path)?, FlatEntry::Dir)?;
                let above = Some(path);
                walk(alloc, left, place.as_str(), &above, fewer, tree, blobs)?;
            }
            // A link that leads nowhere stands where nothing does.
            Standing::Nothing | Standing::Other => return Err(Trouble::NoOutput),
        }
    }
    Ok(())
}

/// The Directories of encodings.
fn read_directories<A: Allocator + Copy>(
    alloc: A,
    encodings: &[Vec<u8, A>],
) -> Result<Vec<Directory<A>, A>, Trouble>
    ensures bytes { IfOk result (λ ds. map directory_bytes ds.items ≡ items_of encodings.now) }
    ensures valid { IfOk result (λ ds. AllByRecursion IsDirectory ds.items) }
    ensures none { IfErr result
        (λ t. (t ≡ Trouble.Memory) ⊎ AreOfNone (items_of encodings.now)) }
{
    let mut directories = Vec::new(alloc);
    for encoding in encodings {
        directories.push(Directory::decode(alloc, encoding)?)?;
    }
    Ok(directories)
}

/// The Tree of Directories, of which the first is its root.
fn tree_of<A: Allocator + Copy>(alloc: A, encodings: &[Vec<u8, A>]) -> Result<Tree<A>, Trouble>
    ensures directories { IfOk result (λ t. directories_of t ≡ items_of encodings.now) }
    ensures none { IfErr result
        (λ t. (t ≡ Trouble.Memory) ⊎ AreOfNoTree (items_of encodings.now)) }
{
    let mut directories = read_directories(alloc, encodings)?;
    if directories.is_empty() {
        return Err(Trouble::NoOutput);
    }
    let root = directories.remove(0);
    Ok(Tree::new(alloc, root, directories)?)
}

/// Why there is no Tree of the Directories of a folder: where it isn't lack of memory, the system
/// failed.
fn no_tree(trouble: Trouble) -> Trouble
    ensures { (result ≡ Trouble.Memory) ⊎ ((trouble ≡ Trouble.Memory → ⊥)
        × ((error : Error) × (error_kind error ≡ InvalidData) × (result ≡ Trouble.Unread error))) }
{
    match trouble {
        Trouble::Memory => Trouble::Memory,
        Trouble::NoOutput | Trouble::Unread(_) => {
            Trouble::Unread(io::Error::from(ErrorKind::InvalidData))
        }
    }
}

/// Reads the folder at a place as a Tree, and keeps the contents of the files in it.
pub(crate) fn keep_folder<A: Allocator + Copy, W: Workshop>(
    alloc: A,
    left: &Left<'_, W>,
    place: &str,
    blobs: &mut Vec<Vec<u8, A>, A>,
) -> Result<Tree<A>, Trouble>
    ensures tree { IfOk result (λ t. (own : List (List ℕ))
        × IsTreeAt W.works left.now.ended.now place.now t own
        × (items_of blobs.new.items ≡ items_of blobs.old.items ++ own)) }
    ensures bad { IsErrOf result Trouble.NoOutput
        → IsBadFolder W.works left.now.ended.now 64 place.now }
    ensures failed { IfErr result
        (TellsTrouble (λ error. IsUnreadAt W.works left.now.ended.now error place.now)) }
{
    let mut tree = FlatTree::new(alloc);
    let top = None;
    walk(alloc, left, place, &top, MOST_NAMES, &mut tree, blobs)?;
    let folded = fold(alloc, &tree)?;
    match tree_of(alloc, &folded.directories) {
        Ok(tree) => Ok(tree),
        Err(trouble) => Err(no_tree(trouble)),
    }
}
