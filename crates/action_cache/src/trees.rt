ghost use Rattle.std.specs.Prelude.{◌≡◌, ◌++◌, ◌∷◌, IfOk, OnOk, true, option_copied, option_map};
ghost use Rattle.blob_digest.specs.DigestValue.{DigestValue};
ghost use Rattle.blob_store.specs.Blobs.{found_in};
ghost use Rattle.action_cache.specs.References.{blob_of, is_held, files_of};
ghost use Rattle.action_cache.specs.Reading.{by_messages, digests_of_files, files_below};
ghost use Rattle.action_cache.specs.Reading.{files_in_tree};
ghost use Rattle.action_cache.specs.Survey.{files_listed, is_read, known, AreRight, AreKnown};

use crate::reference::Reference;
use blob_digest::Digest;
use blob_store::BlobStore;
use messages::{Directory, FileNode, MessageError, Tree};
use std::alloc::{AllocError, Allocator};
use std::collections::BTreeMap;

/// The digests of the files of each Tree that was read; nothing where it isn't held or doesn't
/// decode.
pub(crate) type Trees<A> = BTreeMap<Digest, Option<Vec<Digest, A>>, A>;

/// The blob that a digest names, if it is held.
fn blob_of<'a, A: Allocator + Copy>(blobs: &'a BlobStore<A>, digest: &Digest) -> Option<&'a [u8]>
    ensures { option_copied result ≡ blob_of (found_in blobs.now.entries) digest.now }
{
    let bytes = blobs.peek(&digest.hash())?;
    (bytes.len() as u64 == digest.size()).then_some(bytes)
}

/// Appends the digests of the files.
fn push_files<A: Allocator>(
    out: &mut Vec<Digest, A>,
    files: &[FileNode<A>],
) -> Result<(), AllocError>
    ensures { OnOk result (out.new.items ≡ out.old.items ++ digests_of_files files.now) }
{
    for file in files {
        out.push(file.digest)?;
    }
    Ok(())
}

/// Appends the digests of the files in the directories.
fn push_files_below<A: Allocator>(
    out: &mut Vec<Digest, A>,
    directories: &[Directory<A>],
) -> Result<(), AllocError>
    ensures { OnOk result (out.new.items ≡ out.old.items ++ files_below directories.now) }
{
    for directory in directories {
        push_files(out, directory.files())?;
    }
    Ok(())
}

/// The digests of the files of a Tree: those of the root, and then of the children.
fn files_in_tree<A: Allocator + Copy>(
    alloc: A,
    tree: &Tree<A>,
) -> Result<Vec<Digest, A>, AllocError>
    ensures { IfOk result (λ files. files.items ≡ files_in_tree tree.now) }
{
    let mut out = Vec::new(alloc);
    push_files(&mut out, tree.root().files())?;
    push_files_below(&mut out, tree.children())?;
    Ok(out)
}

/// The digests of the files of the Tree that a digest names; nothing where it isn't held or doesn't
/// decode.
fn read_files<A: Allocator + Copy>(
    alloc: A,
    blobs: &BlobStore<A>,
    digest: &Digest,
) -> Result<Option<Vec<Digest, A>>, AllocError>
    ensures { IfOk result (λ files. files_listed files
        ≡ files_of (found_in blobs.now.entries) by_messages digest.now) }
{
    let Some(bytes) = blob_of(blobs, digest) else {
        return Ok(None);
    };
    match Tree::decode(alloc, bytes) {
        Ok(tree) => Ok(Some(files_in_tree(alloc, &tree)?)),
        Err(MessageError::Memory) => Err(AllocError),
        Err(_) => Ok(None),
    }
}

/// Reads the Tree that a digest names, unless it was read before.
fn learn<A: Allocator + Copy>(
    alloc: A,
    blobs: &BlobStore<A>,
    trees: &mut Trees<A>,
    digest: &Digest,
) -> Result<(), AllocError>
    requires { AreRight trees.old (found_in blobs.now.entries) }
    ensures right { OnOk result (AreRight trees.new (found_in blobs.now.entries)) }
    ensures there { OnOk result (is_read trees.new digest.now ≡ true) }
    ensures kept { OnOk result
        ((d : DigestValue) → is_read trees.old d ≡ true → is_read trees.new d ≡ true) }
{
    if trees.contains_key(digest) {
        return Ok(());
    }
    let files = read_files(alloc, blobs, digest)?;
    trees.insert(*digest, files)?;
    Ok(())
}

/// Reads each Tree to which the outputs refer, once.
pub(crate) fn read_trees<A: Allocator + Copy>(
    alloc: A,
    blobs: &BlobStore<A>,
    outputs: &[Reference],
) -> Result<Trees<A>, AllocError>
    ensures { IfOk result (λ trees. AreKnown trees (found_in blobs.now.entries) outputs.now) }
{
    let mut trees = BTreeMap::new(alloc);
    for output in outputs {
        if output.is_tree {
            learn(alloc, blobs, &mut trees, &output.digest)?;
        }
    }
    Ok(trees)
}

/// The digests of the files of a Tree that was read.
pub(crate) fn files_of<'a, A: Allocator + Copy>(
    trees: &'a Trees<A>,
    digest: &Digest,
) -> Option<&'a [Digest]>
    ensures { option_copied result ≡ known trees.now digest.now }
{
    match trees.get(digest) {
        Some(Some(files)) => Some(files.as_slice()),
        Some(None) | None => None,
    }
}
