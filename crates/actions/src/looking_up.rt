ghost use Rattle.std.specs.Prelude.{◌≡◌, ◌∷◌, ◌++◌, Some, Contains, IfOk, IfSome, IsErr, map};
ghost use Rattle.std.specs.Prelude.{MatchOption, option_map};
ghost use Rattle.std.specs.List.{AllByRecursion};
ghost use Rattle.messages.specs.Order.{bytes_cmp};
ghost use Rattle.messages.specs.Path.{IsPath, parts_of};
ghost use Rattle.messages.specs.Tree.{IsTree, child_digests};
ghost use Rattle.tree.specs.Form.{node_value};
ghost use Rattle.tree.specs.Lookup.{looked};
ghost use Rattle.tree.specs.Merging.{IsHeldIn, in_tree, within_value};
ghost use Rattle.action_messages.specs.Ascending.{IsAscendingBy};
ghost use Rattle.action_messages.specs.Overlaps.{texts_of};
ghost use Rattle.actions.specs.Outcome.{output_value};
ghost use Rattle.actions.specs.declared.outcome.Output.TheVariants as outputs;
ghost use Rattle.actions.specs.OutcomeLookup.{IsFirstChild, LooksInTree, LooksBelow};
ghost use Rattle.actions.specs.OutcomeLookup.{LooksIn, LiesWithin, within_output};
ghost use Rattle.actions.specs.OutcomeLookup.{LooksWithMemory, NamesLink, TakesMemory};
ghost use Rattle.actions.specs.Parts.{IsChildOf, IsOver, LooksUnder, names_left};

use crate::outcome::{Outcome, Output};
use action_messages::{Listed, place_of};
use blob_digest::Digest;
use messages::{Directory, Node, Path, Target, Tree};
use std::alloc::{AllocError, Allocator};
use tree::Within;

/// Where in a list the path stands that is at or above another, and the text of the names that are
/// left of that.
#[derive(Clone, Copy)]
struct Over<'p> {
    place: usize,
    below: Option<&'p [u8]>,
}

/// The one of ascending paths that is at or above a path: each beginning of the path's text is
/// searched for.
fn find_over<'p, A: Allocator, L: Listed>(items: &[L], path: &'p Path<A>) -> Option<Over<'p>>
    requires ascend { IsAscendingBy bytes_cmp (texts_of (map L.path_in items.now)) }
    requires valid { AllByRecursion IsPath (map L.path_in items.now) }
    ensures { IsOver (map L.path_in items.now) path.now result }
{
    let text = path.as_bytes();
    for (index, byte) in text.iter().enumerate() {
        if *byte == b'/' {
            if let Ok(place) = place_of(items, &text[..index]) {
                let below = Some(&text[index + 1..]);
                return Some(Over { place, below });
            }
        }
    }
    match place_of(items, text) {
        Ok(place) => Some(Over { place, below: None }),
        Err(_) => None,
    }
}

/// The first of a tree's children with a digest.
fn first_child<'a, A: Allocator>(tree: &'a Tree<A>, digest: &Digest) -> Option<&'a Directory<A>>
    ensures found { MatchOption result (Contains (child_digests tree.now) digest.now → ⊥)
        (λ m. IsFirstChild tree.now digest.now m.now) }
    ensures valid { IsTree tree.now }
{
    for (index, other) in tree.child_digests().iter().enumerate() {
        if *other == *digest {
            return tree.children().get(index);
        }
    }
    None
}

/// What stands before the first slash of a text, and what after it.
fn split_name(text: &[u8]) -> Option<(&[u8], &[u8])>
    ensures { MatchOption result (¬ Contains text.now 47)
        (λ parts. (text.now ≡ parts.0.now ++ 47 ∷ parts.1.now) × ¬ Contains parts.0.now 47) }
{
    let place = text.iter().position(|byte| *byte == b'/')?;
    let (name, rest) = text.split_at(place);
    Some((name, &rest[1..]))
}

/// The node at the end of a text's names, of which the first is one in a directory of a tree.
fn descend<A: Allocator + Copy>(
    alloc: A,
    tree: &Tree<A>,
    directory: &Directory<A>,
    text: &[u8],
) -> Result<Option<Node<A>>, AllocError>
    requires valid { IsTree tree.now }
    requires there { Contains (tree.now.root ∷ tree.now.children) directory.now }
    ensures looked { IfOk result
        (λ o. LooksUnder tree.now directory.now (parts_of text.now) (looked o)) }
    ensures held { IfOk result (λ o. IfSome o (IsChildOf tree.now)) }
    ensures memory { IsErr result → NamesLink tree.now (parts_of text.now) }
{
    let Some((name, rest)) = split_name(text) else {
        return directory.child(alloc, text);
    };
    let Some(node) = directory.child(alloc, name)? else {
        return Ok(None);
    };
    let Node::Dir(digest) = node else {
        return Ok(None);
    };
    match first_child(tree, &digest) {
        Some(next) => descend(alloc, tree, next, rest),
        None => unreachable!(),
    }
}

/// The node at the end of a text's names in a tree; without a text the node of its root.
fn look_in_tree<A: Allocator + Copy>(
    alloc: A,
    tree: &Tree<A>,
    below: Option<&[u8]>,
) -> Result<Option<Node<A>>, AllocError>
    ensures looked { IfOk result (λ o. LooksInTree tree.now (names_left below.entry) (looked o)) }
    ensures held { IfOk result
        (λ o. IfSome o (λ x. IsHeldIn (in_tree tree.now) (node_value x))) }
    ensures memory { IsErr result → TakesMemory (outputs.Tree tree.now) (names_left below.entry) }
{
    match below {
        None => Ok(Some(Node::Dir(Digest::of(&tree.root().encode(alloc)?)))),
        Some(text) => descend(alloc, tree, tree.root(), text),
    }
}

/// The node at the end of a text's names below an output; without a text that of the output.
fn look_below<A: Allocator + Copy>(
    alloc: A,
    output: &Output<A>,
    below: Option<&[u8]>,
) -> Result<Option<Node<A>>, AllocError>
    ensures looked { IfOk result
        (λ o. LooksBelow (output_value output.now) (names_left below.entry) (looked o)) }
    ensures held { IfOk result (λ o. IfSome o
        (λ x. IsHeldIn (within_output (output_value output.now)) (node_value x))) }
    ensures memory { IsErr result
        → TakesMemory (output_value output.now) (names_left below.entry) }
{
    match output {
        Output::Tree(tree) => look_in_tree(alloc, tree, below),
        _ if below.is_some() => Ok(None),
        Output::File { digest, executable } => Ok(Some(Node::File {
            digest: *digest,
            executable: *executable,
        })),
        Output::Link { target } => Ok(Some(Node::Link {
            target: Target::copy_of(alloc, target)?,
        })),
    }
}

/// Where the Directories below an output are read.
fn within<A: Allocator>(output: &Output<A>) -> Within<'_, A>
    ensures { within_value result ≡ within_output (output_value output.now) }
{
    match output {
        Output::Tree(tree) => Within::Tree(tree),
        Output::File { .. } | Output::Link { .. } => Within::Source,
    }
}

impl<A: Allocator + Copy> Outcome<A> {
    /// What stands at a path: an output, or a node inside an output Tree, which is read from the
    /// Tree alone. A binary search for each beginning of the path finds the output; below it each
    /// name but the first is one walk over the digests that the Tree keeps, and nothing is hashed
    /// but the root of a Tree that is itself at the path.
    pub fn lookup(&self, alloc: A, path: &Path<A>) -> Result<Option<Node<A>>, AllocError>
        ensures looked { IfOk result (λ o. LooksIn self.now path.now (looked o)) }
        // Only a link's target, and the root of a Tree that is itself at the path, take memory.
        ensures memory { IsErr result → LooksWithMemory self.now path.now }
    {
        match self.lookup_within(alloc, path)? {
            Some((node, _)) => Ok(Some(node)),
            None => Ok(None),
        }
    }

    /// What stands at a path, as `lookup` answers it, and where the Directories below it are read:
    /// in the Tree of the output, if it is one.
    pub fn lookup_within(
        &self,
        alloc: A,
        path: &Path<A>,
    ) -> Result<Option<(Node<A>, Within<'_, A>)>, AllocError>
        ensures looked { IfOk result
            (λ o. LooksIn self.now path.now (looked (option_map (λ x. x.0) o))) }
        ensures within { IfOk result
            (λ o. IfSome o (λ x. LiesWithin self.now path.now (within_value x.1))) }
        ensures held { IfOk result
            (λ o. IfSome o (λ x. IsHeldIn (within_value x.1) (node_value x.0))) }
        ensures memory { IsErr result → LooksWithMemory self.now path.now }
    {
        let outputs = self.outputs();
        let Some(over) = find_over(outputs, path) else {
            return Ok(None);
        };
        let output = &outputs[over.place].1;
        match look_below(alloc, output, over.below)? {
            Some(node) => Ok(Some((node, within(output)))),
            None => Ok(None),
        }
    }
}
