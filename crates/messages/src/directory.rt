ghost use Rattle.std.specs.Prelude.{◌≡◌, ◌↔◌, IsOk, IsErr, IfOk, OnOk, Ok, Option};
ghost use Rattle.std.specs.List.{AllByRecursion, Contains};
ghost use Rattle.wire.specs.Steps.{Gives};
ghost use Rattle.messages.specs.FileNode.{IsFileNode};
ghost use Rattle.messages.specs.DirectoryNode.{IsDirectoryNode};
ghost use Rattle.messages.specs.SymlinkNode.{IsSymlinkNode};
ghost use Rattle.messages.specs.Gives.{GivesUnlessMemory};
ghost use Rattle.messages.specs.DirectoryRules.{DirectoryValue, IsDirectory, AreNames, file_names};
ghost use Rattle.messages.specs.DirectoryRules.{directory_names, symlink_names, names_ordered};
ghost use Rattle.messages.specs.DirectoryRules.{directory_with, directory_checked};
ghost use Rattle.messages.specs.declared.node.Node.{Node};
ghost use Rattle.messages.specs.Node.{IsChild, child};
ghost use Rattle.messages.specs.Directory.{directory_bytes, decoded_directory};

use crate::error::MessageError;
use crate::message::{Encode, Message, decode, read_each, read_fields, write_each};
use crate::node::{DirectoryNode, FileNode, Node, SymlinkNode};
use crate::order::{check_order, find_named, share_a_name};
use crate::shapes::directory_shape;
use crate::target::Target;
use std::alloc::{AllocError, Allocator};
use std::marker::Model;

/// What stands in a directory: files, directories and symbolic links, each list strictly
/// ascending by name, and no two children of any kind with one name.
#[derive(Drop)]
#[derive_where(Debug)]
pub struct Directory<A: Allocator> {
    files: Vec<FileNode<A>, A>,
    directories: Vec<DirectoryNode<A>, A>,
    symlinks: Vec<SymlinkNode<A>, A>,
}

impl<A: Allocator> Model for Directory<A> {
    ghost use Rattle.messages.specs.DirectoryRules.{DirectoryValue, IsDirectory};

    ghost Value = { DirectoryValue };

    ghost view = { λ a. record {
      files = a.files.items;
      directories = a.directories.items;
      symlinks = a.symlinks.items;
    } };

    ghost invariant = { λ a. IsDirectory
        (record {
          files = a.files.items;
          directories = a.directories.items;
          symlinks = a.symlinks.items;
        }) };
}

/// Whether the names of the three lists keep the rules; else the first refusal.
fn check_names<A: Allocator>(
    files: &[FileNode<A>],
    directories: &[DirectoryNode<A>],
    symlinks: &[SymlinkNode<A>],
) -> Result<(), MessageError>
    ensures exact { Gives (λ x. x) result
        (names_ordered (file_names files.now) (directory_names directories.now)
        (symlink_names symlinks.now)) }
    ensures files { OnOk result (AllByRecursion IsFileNode files.now) }
    ensures directories { OnOk result (AllByRecursion IsDirectoryNode directories.now) }
    ensures symlinks { OnOk result (AllByRecursion IsSymlinkNode symlinks.now) }
{
    check_order(files)?;
    check_order(directories)?;
    check_order(symlinks)?;
    if share_a_name(files, directories)
        || share_a_name(files, symlinks)
        || share_a_name(directories, symlinks)
    {
        return Err(MessageError::SameName);
    }
    Ok(())
}

impl<A: Allocator> Directory<A> {
    /// The directory of these three lists. Refusals: `Unsorted` and `SameName` by the order of each
    /// list in turn, then `SameName` where two children of two kinds have one name.
    #[tactic(auto, unfolding(crate::specs::DirectoryRules::directory_checked))]
    pub fn new(
        files: Vec<FileNode<A>, A>,
        directories: Vec<DirectoryNode<A>, A>,
        symlinks: Vec<SymlinkNode<A>, A>,
    ) -> Result<Directory<A>, MessageError>
        ensures some { IsOk result
            ↔ AreNames (file_names files.items) (directory_names directories.items)
            (symlink_names symlinks.items) }
        ensures exact { Gives (λ d. d) result
            (directory_checked (directory_with files.items directories.items symlinks.items)) }
    {
        check_names(&files, &directories, &symlinks)?;
        Ok(Directory {
            files,
            directories,
            symlinks,
        })
    }

    /// The files, by name.
    pub fn files(&self) -> &[FileNode<A>]
        ensures value { result.now ≡ self.now.files }
        ensures valid { IsDirectory self.now }
    {
        self.files.as_slice()
    }

    /// The directories, by name.
    pub fn directories(&self) -> &[DirectoryNode<A>]
        ensures value { result.now ≡ self.now.directories }
        ensures valid { IsDirectory self.now }
    {
        self.directories.as_slice()
    }

    /// The symbolic links, by name.
    pub fn symlinks(&self) -> &[SymlinkNode<A>]
        ensures value { result.now ≡ self.now.symlinks }
        ensures valid { IsDirectory self.now }
    {
        self.symlinks.as_slice()
    }
}

#[tactic(auto, using(crate::proofs::Spellings::spelled_parts), unfolding(crate::specs::Directory::directory_bytes))]
impl<A: Allocator + Copy> Encode<A> for Directory<A> {
    ghost use Rattle.messages.specs.Directory.{directory_bytes};

    ghost spells = { directory_bytes };

    fn write(&self, alloc: A) -> Result<Vec<u8, A>, AllocError> {
        let mut out = Vec::new(alloc);
        write_each(alloc, &mut out, 1, &self.files)?;
        write_each(alloc, &mut out, 2, &self.directories)?;
        write_each(alloc, &mut out, 3, &self.symlinks)?;
        Ok(out)
    }
}

#[tactic(auto, using(crate::proofs::Spellings::spelled_parts), unfolding(crate::specs::Directory::decoded_directory))]
impl<A: Allocator + Copy> Message<A> for Directory<A> {
    ghost use Rattle.messages.specs.DirectoryRules.{IsDirectory};
    ghost use Rattle.messages.specs.Directory.{decoded_directory};

    ghost reads = { decoded_directory };

    ghost keeps = { IsDirectory };

    fn is_exact() {}

    fn read(alloc: A, bytes: &[u8]) -> Result<Directory<A>, MessageError> {
        let fields = read_fields(alloc, &directory_shape(), bytes)?;
        let files = read_each(alloc, &fields, 1)?;
        let directories = read_each(alloc, &fields, 2)?;
        let symlinks = read_each(alloc, &fields, 3)?;
        Directory::new(files, directories, symlinks)
    }
}

impl<A: Allocator + Copy> Directory<A> {
    /// The directory whose canonical encoding the bytes are. The first refusal is that of the first
    /// of: the fields (`Wire`, `Unsupported`), the nodes in the order of the bytes (`Wire`,
    /// `Unsupported`, `BadDigest`, `MissingField`, `BadName`, `BadPath`), the order of each list
    /// (`Unsorted`, `SameName`), and children of two kinds with one name (`SameName`).
    pub fn decode(alloc: A, bytes: &[u8]) -> Result<Directory<A>, MessageError>
        ensures found { IfOk result (λ d. IsDirectory d × (bytes.now ≡ directory_bytes d)) }
        ensures only { (d : DirectoryValue) → IsDirectory d → bytes.now ≡ directory_bytes d
            → GivesUnlessMemory (λ x. x) result (Ok d) }
        // Which refusal comes first.
        ensures exact { GivesUnlessMemory (λ d. d) result (decoded_directory bytes.now) }
    {
        decode(alloc, bytes)
    }

    /// The child of this name. Each list is searched by binary search.
    pub fn child(&self, alloc: A, name: &[u8]) -> Result<Option<Node<A>>, AllocError>
        // What is answered stands under the name, and nothing else does.
        ensures found { IfOk result (λ node. IsChild name.now self.now node) }
        ensures only { (node : Option (Node A)) → IsChild name.now self.now node
            → IfOk result (λ answer. answer ≡ node) }
        ensures exact { IfOk result (λ node. node ≡ child name.now self.now) }
        // Only the target of a symbolic link takes memory.
        ensures memory { IsErr result → Contains (symlink_names self.now.symlinks) name.now }
    {
        self.find_child(alloc, name)
    }

    fn find_child(&self, alloc: A, name: &[u8]) -> Result<Option<Node<A>>, AllocError>
        ensures exact { IfOk result (λ node. node ≡ child name.now self.now) }
        ensures valid { IsDirectory self.now }
        ensures memory { IsErr result → Contains (symlink_names self.now.symlinks) name.now }
    {
        if let Some(file) = find_named(&self.files, name) {
            return Ok(Some(Node::File {
                digest: file.digest,
                executable: file.executable,
            }));
        }
        if let Some(directory) = find_named(&self.directories, name) {
            return Ok(Some(Node::Dir(directory.digest)));
        }
        match find_named(&self.symlinks, name) {
            Some(symlink) => Ok(Some(Node::Link {
                target: Target::copy_of(alloc, &symlink.target)?,
            })),
            None => Ok(None),
        }
    }

    /// The canonical encoding.
    pub fn encode(&self, alloc: A) -> Result<Vec<u8, A>, AllocError>
        ensures bytes { IfOk result (λ bytes. bytes.items ≡ directory_bytes self.now) }
        ensures valid { IsDirectory self.now }
    {
        let _ = self.files();
        self.write(alloc)
    }
}
