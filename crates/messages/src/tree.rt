ghost use Rattle.std.specs.Prelude.{◌≡◌, ◌∷◌, ◌++◌, map, IfOk, OnOk, Ok};
ghost use Rattle.std.specs.List.{AllByRecursion};
ghost use Rattle.std.specs.BTreeSet.{contains};
ghost use Rattle.canonical.specs.Told.{each};
ghost use Rattle.canonical.specs.View.{slices};
ghost use Rattle.blob_digest.specs.DigestValue.{DigestValue};
ghost use Rattle.messages.specs.Gives.{GivesUnlessMemory};
ghost use Rattle.messages.specs.DirectoryRules.{IsDirectory};
ghost use Rattle.messages.specs.Directory.{directory_bytes, decoded_directory};
ghost use Rattle.messages.specs.Tree.{TreeValue, IsTree, tree_with, node_digests, named_by};
ghost use Rattle.messages.specs.Tree.{digests_of, child_digests, is_among, all_among};
ghost use Rattle.messages.specs.Tree.{children_checked, tree_of, tree_bytes, decoded_tree};
ghost use Rattle.blob_digest.specs.Digest.{digest_cmp, digest_of};

use crate::directory::Directory;
use crate::error::MessageError;
use crate::message::{Encode, Message, decode, read_fields, read_optional, write_each};
use crate::node::DirectoryNode;
use crate::shapes::tree_shape;
use blob_digest::Digest;
use canonical::{read_elements, read_message, write_message};
use std::alloc::{AllocError, Allocator};
use std::collections::BTreeSet;
use std::marker::Model;

/// A directory with all directories below it. Each child is named, by the digest of its
/// encoding, in the root or in a child, and each directory that they name is a child. Children
/// stand in any order, and equal ones may come again.
#[derive(Drop)]
#[derive_where(Debug)]
pub struct Tree<A: Allocator> {
    root: Directory<A>,
    children: Vec<Directory<A>, A>,
    // The digest of each child's encoding.
    digests: Vec<Digest, A>,
}

impl<A: Allocator> Model for Tree<A> {
    ghost use Rattle.std.specs.Prelude.{◌≡◌};
    ghost use Rattle.messages.specs.Tree.{TreeValue, IsTree, tree_with, child_digests};

    ghost Value = { TreeValue };

    ghost view = { λ a. record { root = a.root; children = a.children.items } };

    ghost invariant = { λ a. IsTree (tree_with a.root a.children.items)
        × (a.digests.items ≡ child_digests (tree_with a.root a.children.items)) };
}

/// Appends the digests of the nodes.
fn push_digests<A: Allocator>(
    out: &mut Vec<Digest, A>,
    nodes: &[DirectoryNode<A>],
) -> Result<(), AllocError>
    ensures { OnOk result (out.new.items ≡ out.old.items ++ node_digests nodes.now) }
{
    for node in nodes {
        out.push(node.digest)?;
    }
    Ok(())
}

/// Appends the digests that the directories name.
fn push_named<A: Allocator>(
    out: &mut Vec<Digest, A>,
    directories: &[Directory<A>],
) -> Result<(), AllocError>
    ensures named { OnOk result (out.new.items ≡ out.old.items ++ named_by directories.now) }
    ensures kept { OnOk result (AllByRecursion IsDirectory directories.now) }
{
    for directory in directories {
        push_digests(out, directory.directories())?;
    }
    Ok(())
}

/// The digests that the root and the children name.
fn named_digests<A: Allocator>(
    alloc: A,
    root: &Directory<A>,
    children: &[Directory<A>],
) -> Result<Vec<Digest, A>, AllocError>
    ensures named { IfOk result (λ v. v.items ≡ named_by (root.now ∷ children.now)) }
    ensures root { OnOk result (IsDirectory root.now) }
    ensures children { OnOk result (AllByRecursion IsDirectory children.now) }
{
    let mut named = Vec::new(alloc);
    push_digests(&mut named, root.directories())?;
    push_named(&mut named, children)?;
    Ok(named)
}

/// The digests of the directories' encodings.
fn hash_directories<A: Allocator + Copy>(
    alloc: A,
    directories: &[Directory<A>],
) -> Result<Vec<Digest, A>, AllocError>
    ensures { IfOk result (λ v. v.items ≡ digests_of (map directory_bytes directories.now)) }
{
    let mut digests = Vec::new(alloc);
    for directory in directories {
        digests.push(Digest::of(&directory.encode(alloc)?))?;
    }
    Ok(digests)
}

/// Directories, and the digest of the encoding of each.
#[derive(Drop)]
struct Hashed<A: Allocator> {
    directories: Vec<Directory<A>, A>,
    digests: Vec<Digest, A>,
}

/// The directory whose encoding the bytes are, and the digest of the bytes.
fn read_hashed<A: Allocator + Copy>(
    alloc: A,
    bytes: &[u8],
) -> Result<(Directory<A>, Digest), MessageError>
    ensures directory { GivesUnlessMemory (λ x. x.0) result (decoded_directory bytes.now) }
    ensures digest { IfOk result (λ x. x.1 ≡ digest_of (directory_bytes x.0)) }
{
    let directory = Directory::decode(alloc, bytes)?;
    Ok((directory, Digest::of(bytes)))
}

/// The directories whose encodings the elements are, and the digests of the elements.
fn read_each_hashed<A: Allocator + Copy>(
    alloc: A,
    elements: &[&[u8]],
) -> Result<Hashed<A>, MessageError>
    ensures directories { GivesUnlessMemory (λ x. x.directories.items) result
        (each decoded_directory (slices elements.now)) }
    ensures digests { IfOk result (λ x. x.digests.items
        ≡ digests_of (map directory_bytes x.directories.items)) }
{
    let mut directories = Vec::new(alloc);
    let mut digests = Vec::new(alloc);
    for bytes in elements {
        let (directory, digest) = read_hashed(alloc, bytes)?;
        directories.push(directory)?;
        digests.push(digest)?;
    }
    Ok(Hashed {
        directories,
        digests,
    })
}

/// The digests, as a set.
fn digest_set<A: Allocator + Copy>(
    alloc: A,
    digests: &[Digest],
) -> Result<BTreeSet<Digest, A>, AllocError>
    ensures { IfOk result (λ set. (d : DigestValue) → contains digest_cmp set d
        ≡ is_among digests.now d) }
{
    let mut set = BTreeSet::new(alloc);
    for digest in digests {
        set.insert(*digest)?;
    }
    Ok(set)
}

/// Whether each digest of the first list is one of the second.
fn all_among<A: Allocator + Copy>(
    alloc: A,
    digests: &[Digest],
    others: &[Digest],
) -> Result<bool, AllocError>
    ensures { IfOk result (λ b. b ≡ all_among digests.now others.now) }
{
    let others = digest_set(alloc, others)?;
    for digest in digests {
        if !others.contains(digest) {
            return Ok(false);
        }
    }
    Ok(true)
}

/// Whether the children are those that are named: all that is named is held, and all that is held
/// is named.
#[tactic(auto, unfolding(crate::specs::Tree::children_checked))]
fn check_children<A: Allocator + Copy>(
    alloc: A,
    named: &[Digest],
    held: &[Digest],
) -> Result<(), MessageError>
    ensures { GivesUnlessMemory (λ x. x) result (children_checked named.now held.now) }
{
    if all_among(alloc, named, held)? && all_among(alloc, held, named)? {
        Ok(())
    } else {
        Err(MessageError::BadTree)
    }
}

/// The tree of this root and these children, whose digests are passed too.
#[tactic(auto, unfolding(crate::specs::Tree::tree_of))]
fn checked_tree<A: Allocator + Copy>(
    alloc: A,
    root: Directory<A>,
    children: Vec<Directory<A>, A>,
    digests: Vec<Digest, A>,
) -> Result<Tree<A>, MessageError>
    requires { digests.items ≡ digests_of (map directory_bytes children.items) }
    ensures exact { GivesUnlessMemory (λ t. t) result (tree_of (tree_with root children.items)) }
    ensures valid { IfOk result IsTree }
{
    let named = named_digests(alloc, &root, &children)?;
    check_children(alloc, &named, &digests)?;
    Ok(Tree {
        root,
        children,
        digests,
    })
}

impl<A: Allocator + Copy> Tree<A> {
    /// The tree of this root and these children. `BadTree` where the children are not those that
    /// are named. Each child is hashed once.
    pub fn new(
        alloc: A,
        root: Directory<A>,
        children: Vec<Directory<A>, A>,
    ) -> Result<Tree<A>, MessageError>
        // The tree is that of the parts, and keeps the rule of children; where they keep it, no
        // refusal comes.
        ensures found { IfOk result (λ tree. IsTree tree × (tree ≡ tree_with root children.items)) }
        ensures only { IsTree (tree_with root children.items)
            → GivesUnlessMemory (λ t. t) result (Ok (tree_with root children.items)) }
        ensures exact { GivesUnlessMemory (λ t. t) result
            (tree_of (tree_with root children.items)) }
    {
        let digests = hash_directories(alloc, &children)?;
        checked_tree(alloc, root, children, digests)
    }
}

impl<A: Allocator> Tree<A> {
    /// The directory at the top.
    pub fn root(&self) -> &Directory<A>
        ensures value { result.now ≡ self.now.root }
        ensures valid { IsTree self.now }
    {
        &self.root
    }

    /// The directories below it, in the order in which they stand.
    pub fn children(&self) -> &[Directory<A>]
        ensures value { result.now ≡ self.now.children }
        ensures valid { IsTree self.now }
    {
        self.children.as_slice()
    }

    /// The digest of each child's encoding, in that order. Nothing is hashed again.
    pub fn child_digests(&self) -> &[Digest]
        ensures value { result.now ≡ child_digests self.now }
        ensures valid { IsTree self.now }
    {
        self.digests.as_slice()
    }
}

#[tactic(auto, using(crate::proofs::Spellings::spelled_parts), unfolding(crate::specs::Tree::tree_bytes))]
impl<A: Allocator + Copy> Encode<A> for Tree<A> {
    ghost use Rattle.messages.specs.Tree.{tree_bytes};

    ghost spells = { tree_bytes };

    fn write(&self, alloc: A) -> Result<Vec<u8, A>, AllocError> {
        let mut out = Vec::new(alloc);
        let root = self.root.write(alloc)?;
        write_message(&mut out, 1, Some(&root))?;
        write_each(alloc, &mut out, 2, &self.children)?;
        Ok(out)
    }
}

#[tactic(auto, unfolding(crate::specs::Tree::decoded_tree))]
impl<A: Allocator + Copy> Message<A> for Tree<A> {
    ghost use Rattle.messages.specs.Tree.{IsTree, decoded_tree};

    ghost reads = { decoded_tree };

    ghost keeps = { IsTree };

    fn is_exact() {}

    fn read(alloc: A, bytes: &[u8]) -> Result<Tree<A>, MessageError> {
        let fields = read_fields(alloc, &tree_shape(), bytes)?;
        let root: Option<Directory<A>> = read_optional(alloc, read_message(&fields, 1))?;
        let Hashed {
            directories,
            digests,
        } = read_each_hashed(alloc, &read_elements(alloc, &fields, 2)?)?;
        let root = root.ok_or(MessageError::MissingField(1))?;
        checked_tree(alloc, root, directories, digests)
    }
}

impl<A: Allocator + Copy> Tree<A> {
    /// The tree whose canonical encoding the bytes are. The first refusal is that of the first of:
    /// the fields (`Wire`, `Unsupported`), the directories in the order of the bytes, the missing
    /// root (`MissingField`), and the rule of children (`BadTree`).
    pub fn decode(alloc: A, bytes: &[u8]) -> Result<Tree<A>, MessageError>
        ensures found { IfOk result (λ t. IsTree t × (bytes.now ≡ tree_bytes t)) }
        ensures only { (t : TreeValue) → IsTree t → bytes.now ≡ tree_bytes t
            → GivesUnlessMemory (λ x. x) result (Ok t) }
        // Which refusal comes first.
        ensures exact { GivesUnlessMemory (λ t. t) result (decoded_tree bytes.now) }
    {
        decode(alloc, bytes)
    }

    /// The canonical encoding.
    pub fn encode(&self, alloc: A) -> Result<Vec<u8, A>, AllocError>
        ensures bytes { IfOk result (λ bytes. bytes.items ≡ tree_bytes self.now) }
        ensures valid { IsTree self.now }
    {
        let _ = self.root();
        self.write(alloc)
    }
}
