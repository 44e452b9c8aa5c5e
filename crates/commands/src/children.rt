ghost use Rattle.std.specs.Prelude.{◌≡◌, IfErr, IfOk, OnOk, codes};
ghost use Rattle.commands.specs.Children.{AddsName, AreNamed, folder_read};
ghost use Rattle.commands.specs.Children.{with_last_child};
ghost use Rattle.commands.specs.Faults.{TellsOfEntry, OrMemory};
ghost use Rattle.messages.specs.DirectoryRules.{IsDirectory};
ghost use Rattle.tree.specs.Form.{no_children, node_value};

use crate::error::{CommandError, entry_error};
use messages::{Directory, DirectoryNode, FileNode, Name, Node, SymlinkNode};
use std::alloc::{AllocError, Global};

/// What stands in a folder, so far as it was read.
#[derive(Drop)]
pub(crate) struct Children {
    files: Vec<FileNode<Global>>,
    directories: Vec<DirectoryNode<Global>>,
    symlinks: Vec<SymlinkNode<Global>>,
}

impl Children {
    /// Nothing.
    pub(crate) fn new(alloc: Global) -> Children
        ensures { folder_read result ≡ no_children }
    {
        Children {
            files: Vec::new(alloc),
            directories: Vec::new(alloc),
            symlinks: Vec::new(alloc),
        }
    }

    /// One more child, after the others of its kind.
    pub(crate) fn push(&mut self, name: Name<Global>, node: Node<Global>) -> Result<(), AllocError>
        ensures child { OnOk result (folder_read self.new
            ≡ with_last_child name (node_value node) (folder_read self.old)) }
        ensures named { OnOk result (AddsName name (folder_read self.old) (folder_read self.new)) }
    {
        match node {
            Node::File { digest, executable } => self.files.push(FileNode {
                name,
                digest,
                executable,
            })?,
            Node::Link { target } => self.symlinks.push(SymlinkNode { name, target })?,
            Node::Dir(digest) => self.directories.push(DirectoryNode { name, digest })?,
        }
        Ok(())
    }

    /// The Directory of the folder at this place.
    pub(crate) fn into_directory(
        self,
        alloc: Global,
        place: &str,
    ) -> Result<Directory<Global>, CommandError>
        ensures value { IfOk result (λ d. d ≡ folder_read self) }
        ensures valid { IfOk result IsDirectory }
        ensures refused { IfErr result (OrMemory
            (λ e. ¬ AreNamed (folder_read self)
            × TellsOfEntry place.now (codes "two entries of one name") e)) }
    {
        match Directory::new(self.files, self.directories, self.symlinks) {
            Ok(directory) => Ok(directory),
            Err(_e) => Err(entry_error(alloc, place, "two entries of one name")),
        }
    }
}
