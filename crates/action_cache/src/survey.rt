ghost use Rattle.std.specs.Prelude.{◌≡◌, ◌++◌, not, IfOk, OnOk, option_copied, option_map};
ghost use Rattle.std.specs.List.{find};
ghost use Rattle.blob_store.specs.Blobs.{found_in};
ghost use Rattle.action_cache.specs.References.{is_held, digests_by, references_by, fault_by};
ghost use Rattle.action_cache.specs.References.{first_fault_by};
ghost use Rattle.action_cache.specs.Reading.{by_messages};
ghost use Rattle.action_cache.specs.Survey.{known, AreOnce, IsSurvey};

use crate::reference::{Reference, read_outputs};
use crate::trees::{Trees, files_of, read_trees};
use blob_digest::Digest;
use blob_store::BlobStore;
use std::alloc::{AllocError, Allocator};
use std::collections::BTreeSet;

/// What a walk over a result's references tells.
#[derive(Drop)]
pub(crate) struct Survey<A: Allocator> {
    /// All digests to which the result refers, in order.
    pub(crate) references: Vec<Digest, A>,
    /// The references, each once, without that of no bytes.
    pub(crate) once: Vec<Digest, A>,
    /// The first that isn't held, or the first Tree that doesn't decode.
    pub(crate) fault: Option<Digest>,
}

/// Appends a digest, and after a Tree's those of its files.
fn push_output<A: Allocator + Copy>(
    out: &mut Vec<Digest, A>,
    trees: &Trees<A>,
    output: &Reference,
) -> Result<(), AllocError>
    ensures { OnOk result
        (out.new.items ≡ out.old.items ++ digests_by (known trees.now) output.now) }
{
    out.push(output.digest)?;
    if output.is_tree {
        if let Some(files) = files_of(trees, &output.digest) {
            out.extend_from_slice(files)?;
        }
    }
    Ok(())
}

/// All digests to which the outputs refer, in order.
fn list_references<A: Allocator + Copy>(
    alloc: A,
    trees: &Trees<A>,
    outputs: &[Reference],
) -> Result<Vec<Digest, A>, AllocError>
    ensures { IfOk result (λ digests. digests.items
        ≡ references_by (known trees.now) outputs.now) }
{
    let mut digests = Vec::new(alloc);
    for output in outputs {
        push_output(&mut digests, trees, output)?;
    }
    Ok(digests)
}

/// The first of the digests that isn't held.
fn first_missing<A: Allocator + Copy>(blobs: &BlobStore<A>, digests: &[Digest]) -> Option<Digest>
    ensures { result ≡ find (λ d. not (is_held (found_in blobs.now.entries) d)) digests.now }
{
    for digest in digests {
        if !blobs.contains(digest) {
            return Some(*digest);
        }
    }
    None
}

/// The fault of an output: its digest where it isn't held or is a Tree's that doesn't decode, else
/// the first of the Tree's files that isn't held.
fn fault_of<A: Allocator + Copy>(
    blobs: &BlobStore<A>,
    trees: &Trees<A>,
    output: &Reference,
) -> Option<Digest>
    ensures { result ≡ fault_by (found_in blobs.now.entries) (known trees.now) output.now }
{
    if !blobs.contains(&output.digest) {
        return Some(output.digest);
    }
    if !output.is_tree {
        return None;
    }
    match files_of(trees, &output.digest) {
        Some(files) => first_missing(blobs, files),
        None => Some(output.digest),
    }
}

/// The first fault of the outputs.
fn first_fault<A: Allocator + Copy>(
    blobs: &BlobStore<A>,
    trees: &Trees<A>,
    outputs: &[Reference],
) -> Option<Digest>
    ensures { result ≡ first_fault_by (found_in blobs.now.entries) (known trees.now) outputs.now }
{
    for output in outputs {
        if let Some(digest) = fault_of(blobs, trees, output) {
            return Some(digest);
        }
    }
    None
}

/// The digests but that of no bytes, each hash once.
fn each_once<A: Allocator + Copy>(
    alloc: A,
    digests: &[Digest],
) -> Result<Vec<Digest, A>, AllocError>
    ensures { IfOk result (λ once. AreOnce digests.now once.items) }
{
    let empty = Digest::empty();
    let mut seen = BTreeSet::new(alloc);
    let mut once = Vec::new(alloc);
    for digest in digests {
        if *digest == empty {
            continue;
        }
        if !seen.insert(digest.hash())? {
            continue;
        }
        once.push(*digest)?;
    }
    Ok(once)
}

/// Walks over what a result refers to. `None` where the bytes are no result. Each Tree is decoded
/// once, however often it comes.
pub(crate) fn walk<A: Allocator + Copy>(
    alloc: A,
    blobs: &BlobStore<A>,
    bytes: &[u8],
) -> Result<Option<Survey<A>>, AllocError>
    ensures { IfOk result (IsSurvey by_messages (found_in blobs.now.entries) bytes.now) }
{
    let Some(outputs) = read_outputs(alloc, bytes)? else {
        return Ok(None);
    };
    let trees = read_trees(alloc, blobs, &outputs)?;
    let references = list_references(alloc, &trees, &outputs)?;
    let once = each_once(alloc, &references)?;
    let fault = first_fault(blobs, &trees, &outputs);
    Ok(Some(Survey {
        references,
        once,
        fault,
    }))
}
