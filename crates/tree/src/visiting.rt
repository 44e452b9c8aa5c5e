ghost use Rattle.std.specs.Prelude.{◌≡◌, [], ◌∷◌, ◌++◌, IfOk, OnOk};
ghost use Rattle.blob_digest.specs.Digest.{digest_of};
ghost use Rattle.messages.specs.declared.node.Node.TheVariants.{File, Link, Dir};
ghost use Rattle.messages.specs.Directory.{directory_bytes};
ghost use Rattle.tree.specs.Form.{node_value, no_children, with_child};
ghost use Rattle.tree.specs.Folded.{items_of};
ghost use Rattle.tree.specs.Visiting.{led, lines_seen, with_children, children_directory};
ghost use Rattle.tree.specs.Visiting.{tops_in};

use blob_digest::Digest;
use messages::{DirectoryNode, FileNode, Name, Node, SymlinkNode, Target, write_each};
use std::alloc::{AllocError, Allocator};

/// A line: the names of a path below a directory, and what stands there.
#[derive(Drop)]
pub(crate) struct Line<'a, A: Allocator, T> {
    pub(crate) names: &'a [Name<A>],
    pub(crate) item: &'a T,
}

/// The Directories of a tree, in the order of a visit, and the digest of the first.
#[derive(Drop)]
pub(crate) struct Visited<A: Allocator> {
    pub(crate) root: Digest,
    pub(crate) encodings: Vec<Vec<u8, A>, A>,
}

/// What stands in a directory that is being made, and the Directories below it in the order of a
/// visit.
#[derive(Drop)]
pub(crate) struct Children<A: Allocator> {
    files: Vec<FileNode<A>, A>,
    directories: Vec<DirectoryNode<A>, A>,
    symlinks: Vec<SymlinkNode<A>, A>,
    below: Vec<Vec<u8, A>, A>,
}

impl<A: Allocator + Copy> Children<A> {
    /// No children.
    pub(crate) fn new(alloc: A) -> Children<A>
        ensures directory { children_directory result ≡ no_children }
        ensures tops { tops_in result ≡ [] }
    {
        Children {
            files: Vec::new(alloc),
            directories: Vec::new(alloc),
            symlinks: Vec::new(alloc),
            below: Vec::new(alloc),
        }
    }

    /// One more file, after the others.
    pub(crate) fn push_file(
        &mut self,
        name: Name<A>,
        digest: Digest,
        executable: bool,
    ) -> Result<(), AllocError>
        ensures directory { OnOk result
            (children_directory self.new
            ≡ with_children (children_directory self.old)
            (with_child name (File digest executable) no_children)) }
        ensures tops { OnOk result (tops_in self.new ≡ tops_in self.old) }
    {
        self.files.push(FileNode {
            name,
            digest,
            executable,
        })?;
        Ok(())
    }

    /// One more symbolic link, after the others.
    pub(crate) fn push_symlink(
        &mut self,
        alloc: A,
        name: Name<A>,
        target: &Target<A>,
    ) -> Result<(), AllocError>
        ensures directory { OnOk result
            (children_directory self.new
            ≡ with_children (children_directory self.old)
            (with_child name (Link target.now) no_children)) }
        ensures tops { OnOk result (tops_in self.new ≡ tops_in self.old) }
    {
        self.symlinks.push(SymlinkNode {
            name,
            target: Target::copy_of(alloc, target)?,
        })?;
        Ok(())
    }

    /// One more child, after the others of its kind. Nothing below a directory is known.
    pub(crate) fn push(&mut self, alloc: A, name: Name<A>, node: &Node<A>) -> Result<(), AllocError>
        ensures directory { OnOk result
            (children_directory self.new
            ≡ with_children (children_directory self.old)
            (with_child name (node_value node.now) no_children)) }
        ensures tops { OnOk result (tops_in self.new ≡ tops_in self.old) }
    {
        match node {
            Node::File { digest, executable } => self.push_file(name, *digest, *executable),
            Node::Link { target } => self.push_symlink(alloc, name, target),
            Node::Dir(digest) => {
                self.directories.push(DirectoryNode {
                    name,
                    digest: *digest,
                })?;
                Ok(())
            }
        }
    }

    /// One more directory, and the Directories of its own.
    pub(crate) fn push_folder(
        &mut self,
        name: Name<A>,
        mut below: Visited<A>,
    ) -> Result<(), AllocError>
        ensures directory { OnOk result
            (children_directory self.new
            ≡ with_children (children_directory self.old)
            (with_child name (Dir below.root) no_children)) }
        ensures tops { OnOk result
            (tops_in self.new ≡ tops_in self.old ++ items_of below.encodings.items) }
    {
        self.directories.push(DirectoryNode {
            name,
            digest: below.root,
        })?;
        self.below.append(&mut below.encodings)
    }

    /// The Directory of these children, and those below it.
    pub(crate) fn close(mut self, alloc: A) -> Result<Visited<A>, AllocError>
        ensures root { IfOk result
            (λ v. v.root ≡ digest_of (directory_bytes (children_directory self))) }
        ensures tops { IfOk result
            (λ v. items_of v.encodings.items
            ≡ directory_bytes (children_directory self) ∷ tops_in self) }
    {
        let mut top = Vec::new(alloc);
        write_each(alloc, &mut top, 1, &self.files)?;
        write_each(alloc, &mut top, 2, &self.directories)?;
        write_each(alloc, &mut top, 3, &self.symlinks)?;
        let root = Digest::of(&top);
        let mut encodings = Vec::new(alloc);
        encodings.push(top)?;
        encodings.append(&mut self.below)?;
        Ok(Visited { root, encodings })
    }
}

/// The first lines, as far as their first name is this one, seen from the directory of that name.
pub(crate) fn lines_under<'a, A: Allocator + Copy, T>(
    alloc: A,
    name: &Name<A>,
    lines: &[Line<'a, A, T>],
) -> Result<Vec<Line<'a, A, T>, A>, AllocError>
    ensures { IfOk result (λ v. lines_seen v.items ≡ led name.now (lines_seen lines.now)) }
{
    let mut under = Vec::new(alloc);
    for line in lines {
        match line.names.split_first() {
            Some((first, names)) if first == name => under.push(Line {
                names,
                item: line.item,
            })?,
            _ => return Ok(under),
        }
    }
    Ok(under)
}
