ghost use Rattle.std.specs.Prelude.{◌≡◌, ◌++◌, map, IfOk, IfErr, OnOk, OnErr, Some, option_map};
ghost use Rattle.action_cache.specs.Reading.{to_file, to_tree, to_stream, referred_to};
ghost use Rattle.action_cache.specs.Reading.{references_in};
ghost use Rattle.action_cache.specs.CacheError.{IsNoResult};

use crate::error::CacheError;
use action_messages::{ActionResult, OutputDirectory, OutputFile};
use blob_digest::Digest;
use std::alloc::{AllocError, Allocator};
use std::marker::Model;

/// What stands in a result: the digest of a blob, or of a Tree.
#[derive(Drop)]
pub(crate) struct Reference {
    pub(crate) digest: Digest,
    pub(crate) is_tree: bool,
}

impl Model for Reference {
    ghost use Rattle.action_cache.specs.References.{Reference};

    ghost Value = { Reference };

    ghost view = { λ r. record { digest = r.digest; is_tree = r.is_tree } };
}

/// Appends the output files.
fn push_files<A: Allocator>(
    out: &mut Vec<Reference, A>,
    files: &[OutputFile<A>],
) -> Result<(), AllocError>
    ensures { OnOk result (out.new.items ≡ out.old.items ++ map to_file files.now) }
{
    for file in files {
        out.push(Reference {
            digest: file.digest,
            is_tree: false,
        })?;
    }
    Ok(())
}

/// Appends the Trees of the output directories.
fn push_directories<A: Allocator>(
    out: &mut Vec<Reference, A>,
    directories: &[OutputDirectory<A>],
) -> Result<(), AllocError>
    ensures { OnOk result (out.new.items ≡ out.old.items ++ map to_tree directories.now) }
{
    for directory in directories {
        out.push(Reference {
            digest: directory.tree_digest,
            is_tree: true,
        })?;
    }
    Ok(())
}

/// Appends what a stream holds.
fn push_stream<A: Allocator>(
    out: &mut Vec<Reference, A>,
    digest: Option<Digest>,
) -> Result<(), AllocError>
    ensures { OnOk result (out.new.items ≡ out.old.items ++ to_stream digest) }
{
    if let Some(digest) = digest {
        out.push(Reference {
            digest,
            is_tree: false,
        })?;
    }
    Ok(())
}

/// What a result refers to, in order.
fn referred_to<A: Allocator + Copy>(
    alloc: A,
    action_result: &ActionResult<A>,
) -> Result<Vec<Reference, A>, AllocError>
    ensures { IfOk result (λ outputs. outputs.items ≡ referred_to action_result.now) }
{
    let mut out = Vec::new(alloc);
    push_files(&mut out, action_result.files())?;
    push_directories(&mut out, action_result.directories())?;
    push_stream(&mut out, action_result.stdout().digest())?;
    push_stream(&mut out, action_result.stderr().digest())?;
    Ok(out)
}

/// The result that the bytes are read as. `BadResult` where they are none.
pub(crate) fn read_result<A: Allocator + Copy>(
    alloc: A,
    bytes: &[u8],
) -> Result<ActionResult<A>, CacheError>
    ensures read { IfOk result (λ r. references_in bytes.now ≡ Some (referred_to r)) }
    ensures refused { IfErr result (λ e. IsNoResult e bytes.now) }
{
    let action_result = ActionResult::decode(alloc, bytes)?;
    Ok(action_result)
}

/// What the result refers to that the bytes are read as; nothing where they are no result.
pub(crate) fn read_outputs<A: Allocator + Copy>(
    alloc: A,
    bytes: &[u8],
) -> Result<Option<Vec<Reference, A>>, AllocError>
    ensures { IfOk result (λ found. option_map (λ v. v.items) found ≡ references_in bytes.now) }
{
    match read_result(alloc, bytes) {
        Ok(action_result) => Ok(Some(referred_to(alloc, &action_result)?)),
        Err(CacheError::BadResult(_)) => Ok(None),
        Err(_) => Err(AllocError),
    }
}
