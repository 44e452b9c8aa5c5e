ghost use Rattle.std.specs.Prelude.{◌≡◌, List, ℕ, None, Err, option_map};
ghost use Rattle.messages.specs.Gives.{GivesUnlessMemory};
ghost use Rattle.messages.specs.FileNode.{required_digest};

use crate::error::MessageError;
use crate::message::{Encode, Message, read_fields};
use crate::name::Name;
use crate::order::Named;
use crate::shapes::{directory_node_shape, file_node_shape, symlink_node_shape};
use crate::target::Target;
use blob_digest::Digest;
use canonical::{read_bool, read_bytes, read_message, write_bool, write_bytes, write_message};
use std::alloc::{AllocError, Allocator};
use std::marker::Model;

/// A file in a directory.
#[derive(Drop)]
#[derive_where(Debug)]
#[derive_where(Clone; A)]
pub struct FileNode<A: Allocator> {
    pub name: Name<A>,
    pub digest: Digest,
    pub executable: bool,
}

impl<A: Allocator> Model for FileNode<A> {
    ghost use Rattle.messages.specs.FileNode.{FileNodeValue};

    ghost Value = { FileNodeValue };

    ghost view = { λ a. record { name = a.name; digest = a.digest; executable = a.executable } };
}

/// A directory in a directory, by the digest of its encoding.
#[derive(Drop)]
#[derive_where(Debug)]
#[derive_where(Clone; A)]
pub struct DirectoryNode<A: Allocator> {
    pub name: Name<A>,
    pub digest: Digest,
}

impl<A: Allocator> Model for DirectoryNode<A> {
    ghost use Rattle.messages.specs.DirectoryNode.{DirectoryNodeValue};

    ghost Value = { DirectoryNodeValue };

    ghost view = { λ a. record { name = a.name; digest = a.digest } };
}

/// A symbolic link in a directory.
#[derive(Drop)]
#[derive_where(Debug)]
#[derive_where(Clone; A)]
pub struct SymlinkNode<A: Allocator> {
    pub name: Name<A>,
    pub target: Target<A>,
}

impl<A: Allocator> Model for SymlinkNode<A> {
    ghost use Rattle.messages.specs.SymlinkNode.{SymlinkNodeValue};

    ghost Value = { SymlinkNodeValue };

    ghost view = { λ a. record { name = a.name; target = a.target } };
}

/// A child of a directory, without its name.
#[derive(Drop)]
#[derive_where(Debug)]
pub enum Node<A: Allocator> {
    /// A file, by the digest of its content.
    File { digest: Digest, executable: bool },
    /// A symbolic link.
    Link { target: Target<A> },
    /// A directory, by the digest of its encoding.
    Dir(Digest),
}

/// The digest of field 2, which has to be there.
#[tactic(auto, unfolding(crate::specs::FileNode::required_digest))]
fn required_digest<A: Allocator + Copy>(
    alloc: A,
    bytes: Option<&[u8]>,
) -> Result<Digest, MessageError>
    ensures exact { GivesUnlessMemory (λ d. d) result
        (required_digest (option_map (λ x. x.now) bytes.entry)) }
    ensures absent { bytes.entry ≡ None → result ≡ Err (MessageError.MissingField 2) }
{
    match bytes {
        Some(bytes) => Digest::read(alloc, bytes),
        None => Err(MessageError::MissingField(2)),
    }
}

#[tactic(auto, using(crate::proofs::Spellings::spelled_parts))]
impl<A: Allocator + Copy> Encode<A> for FileNode<A> {
    ghost use Rattle.messages.specs.FileNode.{file_node_bytes};

    ghost spells = { file_node_bytes };

    fn write(&self, alloc: A) -> Result<Vec<u8, A>, AllocError> {
        let mut out = Vec::new(alloc);
        write_bytes(&mut out, 1, self.name.as_bytes())?;
        write_message(&mut out, 2, Some(&self.digest.write(alloc)?))?;
        write_bool(&mut out, 4, self.executable)?;
        Ok(out)
    }
}

#[tactic(auto, unfolding(crate::specs::FileNode::decoded_file_node))]
impl<A: Allocator + Copy> Message<A> for FileNode<A> {
    ghost use Rattle.messages.specs.FileNode.{IsFileNode, decoded_file_node};

    ghost reads = { decoded_file_node };

    ghost keeps = { IsFileNode };

    fn is_exact() {}

    fn read(alloc: A, bytes: &[u8]) -> Result<FileNode<A>, MessageError> {
        let fields = read_fields(alloc, &file_node_shape(), bytes)?;
        let digest = required_digest(alloc, read_message(&fields, 2))?;
        let name = Name::new(alloc, read_bytes(&fields, 1))?;
        Ok(FileNode {
            name,
            digest,
            executable: read_bool(&fields, 4),
        })
    }
}

#[tactic(auto, using(crate::proofs::Spellings::spelled_parts))]
impl<A: Allocator + Copy> Encode<A> for DirectoryNode<A> {
    ghost use Rattle.messages.specs.DirectoryNode.{directory_node_bytes};

    ghost spells = { directory_node_bytes };

    fn write(&self, alloc: A) -> Result<Vec<u8, A>, AllocError> {
        let mut out = Vec::new(alloc);
        write_bytes(&mut out, 1, self.name.as_bytes())?;
        write_message(&mut out, 2, Some(&self.digest.write(alloc)?))?;
        Ok(out)
    }
}

#[tactic(auto, unfolding(crate::specs::DirectoryNode::decoded_directory_node))]
impl<A: Allocator + Copy> Message<A> for DirectoryNode<A> {
    ghost use Rattle.messages.specs.DirectoryNode.{IsDirectoryNode, decoded_directory_node};

    ghost reads = { decoded_directory_node };

    ghost keeps = { IsDirectoryNode };

    fn is_exact() {}

    fn read(alloc: A, bytes: &[u8]) -> Result<DirectoryNode<A>, MessageError> {
        let fields = read_fields(alloc, &directory_node_shape(), bytes)?;
        let digest = required_digest(alloc, read_message(&fields, 2))?;
        let name = Name::new(alloc, read_bytes(&fields, 1))?;
        Ok(DirectoryNode { name, digest })
    }
}

#[tactic(auto, using(crate::proofs::Spellings::spelled_parts))]
impl<A: Allocator + Copy> Encode<A> for SymlinkNode<A> {
    ghost use Rattle.messages.specs.SymlinkNode.{symlink_node_bytes};

    ghost spells = { symlink_node_bytes };

    fn write(&self, alloc: A) -> Result<Vec<u8, A>, AllocError> {
        let mut out = Vec::new(alloc);
        write_bytes(&mut out, 1, self.name.as_bytes())?;
        write_bytes(&mut out, 2, self.target.as_bytes())?;
        Ok(out)
    }
}

#[tactic(auto, unfolding(crate::specs::SymlinkNode::decoded_symlink_node))]
impl<A: Allocator + Copy> Message<A> for SymlinkNode<A> {
    ghost use Rattle.messages.specs.SymlinkNode.{IsSymlinkNode, decoded_symlink_node};

    ghost reads = { decoded_symlink_node };

    ghost keeps = { IsSymlinkNode };

    fn is_exact() {}

    fn read(alloc: A, bytes: &[u8]) -> Result<SymlinkNode<A>, MessageError> {
        let fields = read_fields(alloc, &symlink_node_shape(), bytes)?;
        let name = Name::new(alloc, read_bytes(&fields, 1))?;
        let target = Target::new(alloc, read_bytes(&fields, 2))?;
        Ok(SymlinkNode { name, target })
    }
}

impl<A: Allocator> Named for FileNode<A> {
    ghost use Rattle.messages.specs.FileNode.{IsFileNode};

    ghost name_in = { λ n. n.name };

    ghost keeps = { IsFileNode };

    fn name(&self) -> &[u8] {
        let _ = self.digest.size();
        self.name.as_bytes()
    }
}

impl<A: Allocator> Named for DirectoryNode<A> {
    ghost use Rattle.messages.specs.DirectoryNode.{IsDirectoryNode};

    ghost name_in = { λ n. n.name };

    ghost keeps = { IsDirectoryNode };

    fn name(&self) -> &[u8] {
        let _ = self.digest.size();
        self.name.as_bytes()
    }
}

impl<A: Allocator> Named for SymlinkNode<A> {
    ghost use Rattle.messages.specs.SymlinkNode.{IsSymlinkNode};

    ghost name_in = { λ n. n.name };

    ghost keeps = { IsSymlinkNode };

    fn name(&self) -> &[u8] {
        let _ = self.target.as_bytes();
        self.name.as_bytes()
    }
}
