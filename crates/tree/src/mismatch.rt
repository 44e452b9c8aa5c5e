ghost use Rattle.std.specs.Prelude.{◌≡◌, ◌≢◌, ◌++◌, ◌∷◌, ◌<◌, ◌+◌, [], IfOk, Ok, Some};
ghost use Rattle.std.specs.Prelude.{MatchOption, length, map, option_map};
ghost use Rattle.blob_digest.specs.Digest.{digest_of};
ghost use Rattle.messages.specs.DirectoryRules.{DirectoryValue};
ghost use Rattle.tree.specs.Comparing.{encodings_in};
ghost use Rattle.tree.specs.Folded.{items_of};
ghost use Rattle.tree.specs.Lookup.{names_in};
ghost use Rattle.tree.specs.Form.{node_value};
ghost use Rattle.tree.specs.Mismatch.{AreNoDirectories, FirstMismatch, IsKnownAs, mismatch_value};

use crate::comparing::{OwnDirectories, digests_of, place_of};
use crate::difference::first_name;
use crate::error::TreeError;
use crate::unfolding::child_path;
use blob_digest::Digest;
use messages::{Directory, MessageError, Name, Node, Path};
use std::alloc::{AllocError, Allocator};

/// A path at which two directories differ, and what each has there.
#[derive(Drop)]
#[derive_where(Debug)]
pub struct Mismatch<A: Allocator> {
    pub path: Path<A>,
    pub here: Option<Node<A>>,
    pub there: Option<Node<A>>,
}

/// The Directory with a digest, where it is a known one.
fn known_directory<A: Allocator + Copy>(
    alloc: A,
    known: &OwnDirectories<'_, A>,
    digest: &Digest,
) -> Result<Option<Directory<A>>, AllocError>
    requires { known.now.digests.now ≡ map digest_of (encodings_in known.now) }
    ensures { IfOk result (λ o. MatchOption o
        ((m : DirectoryValue) → IsKnownAs (encodings_in known.now) digest.now m → ⊥)
        (λ m. IsKnownAs (encodings_in known.now) digest.now m)) }
{
    let Some(place) = place_of(known.digests, digest) else {
        return Ok(None);
    };
    match Directory::decode(alloc, &known.encodings[place]) {
        Ok(directory) => Ok(Some(directory)),
        Err(error) => match error {
            MessageError::Memory => Err(AllocError),
            _ => Ok(None),
        },
    }
}

/// The path of a child, where that of its directory has less than 64 names.
fn path_below<A: Allocator + Copy>(
    alloc: A,
    above: &Option<Path<A>>,
    name: &Name<A>,
) -> Result<Path<A>, AllocError>
    requires { length (names_in above.now) < 64 }
    ensures { IfOk result (λ p. p ≡ names_in above.now ++ name.now ∷ []) }
{
    match child_path(alloc, above.as_ref(), name) {
        Ok(path) => Ok(path),
        Err(TreeError::Memory) => Err(AllocError),
        Err(_e) => unreachable!(),
    }
}

/// The digests of two directories, where both nodes are some.
fn two_directories<A: Allocator>(
    here: &Option<Node<A>>,
    there: &Option<Node<A>>,
) -> Option<(Digest, Digest)>
    ensures { MatchOption result
        (AreNoDirectories (option_map node_value here.now) (option_map node_value there.now))
        (λ x. (option_map node_value here.now ≡ Some (Node.Dir x.0))
        × (option_map node_value there.now ≡ Some (Node.Dir x.1))) }
{
    match (here, there) {
        (Some(Node::Dir(one)), Some(Node::Dir(other))) => Some((*one, *other)),
        _ => None,
    }
}

/// The first mismatch of two directories at a path, below which paths may have `deeper` more names.
fn mismatch_below<A: Allocator + Copy>(
    alloc: A,
    known: &OwnDirectories<'_, A>,
    above: &Option<Path<A>>,
    deeper: usize,
    here: &Digest,
    there: &Digest,
) -> Result<Option<Mismatch<A>>, AllocError>
    requires digests { known.now.digests.now ≡ map digest_of (encodings_in known.now) }
    requires depth { deeper + length (names_in above.now) ≡ 64 }
    requires other { here.now ≢ there.now }
    ensures { IfOk result (λ o. FirstMismatch (encodings_in known.now) deeper (names_in above.now)
        here.now there.now (option_map mismatch_value o)) }
{
    if deeper == 0 {
        return Ok(None);
    }
    let Some(one) = known_directory(alloc, known, here)? else {
        return Ok(None);
    };
    let Some(other) = known_directory(alloc, known, there)? else {
        return Ok(None);
    };
    let name = first_name(alloc, &one, &other)?.name;
    let path = path_below(alloc, above, &name)?;
    let here = one.child(alloc, name.as_bytes())?;
    let there = other.child(alloc, name.as_bytes())?;
    let Some(both) = two_directories(&here, &there) else {
        return Ok(Some(Mismatch { path, here, there }));
    };
    let above = Some(Path::copy_of(alloc, &path)?);
    match mismatch_below(alloc, known, &above, deeper - 1, &both.0, &both.1)? {
        Some(below) => Ok(Some(below)),
        None => Ok(Some(Mismatch { path, here, there })),
    }
}

/// The first path, in the order of names, at which two directories differ, and what each has there,
/// by the Directories that are known: directories there of which one isn't known differ as such.
/// `None` where a Directory of the two themselves isn't known, or they are one.
pub fn first_mismatch<A: Allocator + Copy>(
    alloc: A,
    known: &[Vec<u8, A>],
    here: &Digest,
    there: &Digest,
) -> Result<Option<Mismatch<A>>, AllocError>
    ensures same { here.now ≡ there.now → result ≡ Ok None }
    ensures first { IfOk result (λ o. here.now ≢ there.now
        → FirstMismatch (items_of known.now) 64 [] here.now there.now
        (option_map mismatch_value o)) }
{
    if here == there {
        return Ok(None);
    }
    let digests = digests_of(alloc, known)?;
    let known = OwnDirectories {
        encodings: known,
        digests: &digests,
    };
    mismatch_below(alloc, &known, &None, 64, here, there)
}
