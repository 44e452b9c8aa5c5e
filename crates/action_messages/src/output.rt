use crate::listed::Listed;
use blob_digest::Digest;
use canonical::{write_bool, write_bytes, write_message};
use messages::{Encode, Path, Target};
use std::alloc::{AllocError, Allocator};
use std::marker::Model;

/// A file that an action made, by the digest of its content.
#[derive(Drop)]
#[derive_where(Debug)]
#[derive_where(Clone; A)]
pub struct OutputFile<A: Allocator> {
    pub path: Path<A>,
    pub digest: Digest,
    pub executable: bool,
}

impl<A: Allocator> Model for OutputFile<A> {
    ghost use Rattle.action_messages.specs.OutputFile.{OutputFileValue};

    ghost Value = { OutputFileValue };

    ghost view = { λ a. record { path = a.path; digest = a.digest; executable = a.executable } };
}

/// A directory that an action made, by the digest of the encoding of its tree.
#[derive(Drop)]
#[derive_where(Debug)]
#[derive_where(Clone; A)]
pub struct OutputDirectory<A: Allocator> {
    pub path: Path<A>,
    pub tree_digest: Digest,
}

impl<A: Allocator> Model for OutputDirectory<A> {
    ghost use Rattle.action_messages.specs.OutputDirectory.{OutputDirectoryValue};

    ghost Value = { OutputDirectoryValue };

    ghost view = { λ a. record { path = a.path; tree = a.tree_digest } };
}

/// A symbolic link that an action made.
#[derive(Drop)]
#[derive_where(Debug)]
#[derive_where(Clone; A)]
pub struct OutputSymlink<A: Allocator> {
    pub path: Path<A>,
    pub target: Target<A>,
}

impl<A: Allocator> Model for OutputSymlink<A> {
    ghost use Rattle.action_messages.specs.OutputSymlink.{OutputSymlinkValue};

    ghost Value = { OutputSymlinkValue };

    ghost view = { λ a. record { path = a.path; target = a.target } };
}

#[tactic(auto, using(messages::proofs::Spellings::spelled_parts), unfolding(crate::specs::OutputFile::output_file_bytes))]
impl<A: Allocator + Copy> Encode<A> for OutputFile<A> {
    ghost use Rattle.action_messages.specs.OutputFile.{output_file_bytes};

    ghost spells = { output_file_bytes };

    fn write(&self, alloc: A) -> Result<Vec<u8, A>, AllocError> {
        let mut out = Vec::new(alloc);
        write_bytes(&mut out, 1, self.path.as_bytes())?;
        write_message(&mut out, 2, Some(&self.digest.write(alloc)?))?;
        write_bool(&mut out, 4, self.executable)?;
        Ok(out)
    }
}

#[tactic(auto, using(messages::proofs::Spellings::spelled_parts), unfolding(crate::specs::OutputDirectory::output_directory_bytes))]
impl<A: Allocator + Copy> Encode<A> for OutputDirectory<A> {
    ghost use Rattle.action_messages.specs.OutputDirectory.{output_directory_bytes};

    ghost spells = { output_directory_bytes };

    fn write(&self, alloc: A) -> Result<Vec<u8, A>, AllocError> {
        let mut out = Vec::new(alloc);
        write_bytes(&mut out, 1, self.path.as_bytes())?;
        write_message(&mut out, 3, Some(&self.tree_digest.write(alloc)?))?;
        Ok(out)
    }
}

#[tactic(auto, using(messages::proofs::Spellings::spelled_parts), unfolding(crate::specs::OutputSymlink::output_symlink_bytes))]
impl<A: Allocator + Copy> Encode<A> for OutputSymlink<A> {
    ghost use Rattle.action_messages.specs.OutputSymlink.{output_symlink_bytes};

    ghost spells = { output_symlink_bytes };

    fn write(&self, alloc: A) -> Result<Vec<u8, A>, AllocError> {
        let mut out = Vec::new(alloc);
        write_bytes(&mut out, 1, self.path.as_bytes())?;
        write_bytes(&mut out, 2, self.target.as_bytes())?;
        Ok(out)
    }
}

impl<A: Allocator> Listed for OutputFile<A> {
    ghost use Rattle.action_messages.specs.OutputFile.{IsOutputFile};

    ghost path_in = { λ f. f.path };

    ghost keeps = { IsOutputFile };

    fn path_text(&self) -> &[u8] {
        let _ = self.digest.size();
        self.path.as_bytes()
    }
}

impl<A: Allocator> Listed for OutputDirectory<A> {
    ghost use Rattle.action_messages.specs.OutputDirectory.{IsOutputDirectory};

    ghost path_in = { λ d. d.path };

    ghost keeps = { IsOutputDirectory };

    fn path_text(&self) -> &[u8] {
        let _ = self.tree_digest.size();
        self.path.as_bytes()
    }
}

impl<A: Allocator> Listed for OutputSymlink<A> {
    ghost use Rattle.action_messages.specs.OutputSymlink.{IsOutputSymlink};

    ghost path_in = { λ l. l.path };

    ghost keeps = { IsOutputSymlink };

    fn path_text(&self) -> &[u8] {
        let _ = self.target.as_bytes();
        self.path.as_bytes()
    }
}
