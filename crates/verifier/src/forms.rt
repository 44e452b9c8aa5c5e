ghost use Rattle.std.specs.Prelude.{◌≡◌, ◌↔◌, IfOk, IsTrue};
ghost use Rattle.messages.specs.Directory.{directory_bytes};
ghost use Rattle.blob_digest.specs.Digest.{digest_of};
ghost use Rattle.actions.specs.Outcome.{output_value, output_node, outputs_form};
ghost use Rattle.verifier.specs.Compared.{IsFirstDifference, IsLesserPath};

use actions::{Outcome, Output};
use blob_digest::Digest;
use messages::{Path, Tree};
use std::alloc::{AllocError, Allocator};
use std::cmp::Ordering;

/// The digest of the root of a tree.
fn root_of<A: Allocator + Copy>(alloc: A, tree: &Tree<A>) -> Result<Digest, AllocError>
    ensures { IfOk result (λ d. d ≡ digest_of (directory_bytes tree.now.root)) }
{
    Ok(Digest::of(&tree.root().encode(alloc)?))
}

/// Whether two outputs are one node.
fn same_output<A: Allocator + Copy>(
    alloc: A,
    one: &Output<A>,
    other: &Output<A>,
) -> Result<bool, AllocError>
    ensures { IfOk result (λ same. IsTrue same
        ↔ (output_node (output_value one.now) ≡ output_node (output_value other.now))) }
{
    match (one, other) {
        (
            Output::File { digest, executable },
            Output::File {
                digest: other_digest,
                executable: other_executable,
            },
        ) => Ok(*digest == *other_digest && *executable == *other_executable),
        (Output::Link { target }, Output::Link { target: other }) => Ok(*target == *other),
        (Output::Tree(tree), Output::Tree(other)) => {
            Ok(root_of(alloc, tree)? == root_of(alloc, other)?)
        }
        _ => Ok(false),
    }
}

/// Whether two outputs have one path and are one node.
pub fn same_entry<A: Allocator + Copy>(
    alloc: A,
    one: &(Path<A>, Output<A>),
    other: &(Path<A>, Output<A>),
) -> Result<bool, AllocError>
    ensures { IfOk result (λ same. IsTrue same
        ↔ ((one.now.0 ≡ other.now.0)
        × (output_node (output_value one.now.1) ≡ output_node (output_value other.now.1)))) }
{
    if one.0.as_bytes() != other.0.as_bytes() {
        return Ok(false);
    }
    same_output(alloc, &one.1, &other.1)
}

/// The lesser of two paths, by their texts.
fn lesser<'p, A: Allocator>(one: &'p Path<A>, other: &'p Path<A>) -> &'p Path<A>
    ensures { IsLesserPath one.now other.now result.now }
{
    match other.compare_text(one) {
        Ordering::Less => other,
        _ => one,
    }
}

/// The first path, by its text, at which outcomes differ, if there is one.
pub(crate) fn first_difference<A: Allocator + Copy>(
    alloc: A,
    one: &Outcome<A>,
    other: &Outcome<A>,
) -> Result<Option<Path<A>>, AllocError>
    ensures { IfOk result (IsFirstDifference (outputs_form one.now.outputs)
        (outputs_form other.now.outputs)) }
{
    let ones = one.outputs();
    let others = other.outputs();
    for (index, entry) in ones.iter().enumerate() {
        let Some(twin) = others.get(index) else {
            return Ok(Some(Path::copy_of(alloc, &entry.0)?));
        };
        if !same_entry(alloc, entry, twin)? {
            return Ok(Some(Path::copy_of(alloc, lesser(&entry.0, &twin.0))?));
        }
    }
    match others.get(ones.len()) {
        Some(more) => Ok(Some(Path::copy_of(alloc, &more.0)?)),
        None => Ok(None),
    }
}
