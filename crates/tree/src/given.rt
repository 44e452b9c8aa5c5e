ghost use Rattle.std.specs.Prelude.{◌≡◌, ◌||◌, not, List, [], IfOk};
ghost use Rattle.std.specs.Bool.{OnFalse, OnTrue};
ghost use Rattle.std.specs.List.{list_any};
ghost use Rattle.tree.specs.Form.{NodeValue, node_value};
ghost use Rattle.tree.specs.Given.{key_value};
ghost use Rattle.tree.specs.Merging.{same_node};

use blob_digest::Digest;
use messages::Node;
use std::alloc::{AllocError, Allocator};
use std::collections::BTreeSet;
use std::marker::Model;

/// A node, as a set is ordered by it.
#[derive(Drop)]
#[derive_where(PartialEq, Eq, PartialOrd, Ord)]
enum NodeKey<A: Allocator> {
    File(Digest, bool),
    Link(Vec<u8, A>),
    Dir(Digest),
}

impl<A: Allocator + Copy> NodeKey<A> {
    /// The node, over memory of its own.
    fn of(alloc: A, node: &Node<A>) -> Result<NodeKey<A>, AllocError>
        ensures { IfOk result (λ key. key_value key ≡ node_value node.now) }
    {
        Ok(match node {
            Node::File { digest, executable } => NodeKey::File(*digest, *executable),
            Node::Link { target } => NodeKey::Link(Vec::from_slice(alloc, target.as_bytes())?),
            Node::Dir(digest) => NodeKey::Dir(*digest),
        })
    }
}

/// The nodes that are given at a path, each once.
#[derive(Drop)]
pub(crate) struct Given<A: Allocator> {
    nodes: BTreeSet<NodeKey<A>, A>,
}

impl<A: Allocator> Model for Given<A> {
    ghost use Rattle.std.specs.Prelude.{List, map};
    ghost use Rattle.tree.specs.Form.{NodeValue};
    ghost use Rattle.tree.specs.Given.{key_value};

    ghost Value = { List NodeValue };

    ghost view = { λ a. map key_value a.nodes.keys };
}

impl<A: Allocator + Copy> Given<A> {
    /// No nodes.
    pub(crate) fn new(alloc: A) -> Given<A>
        ensures { result ≡ [] }
    {
        Given {
            nodes: BTreeSet::new(alloc),
        }
    }

    /// Takes the node unless it is there, and answers whether it took it.
    pub(crate) fn insert(&mut self, alloc: A, node: &Node<A>) -> Result<bool, AllocError>
        ensures taken { IfOk result
            (λ taken. taken ≡ not (list_any (same_node (node_value node.now)) self.old)) }
        ensures there { IfOk result (λ taken. OnTrue taken ((x : NodeValue)
            → list_any (same_node x) self.new
            ≡ (list_any (same_node x) self.old || same_node x (node_value node.now)))) }
        ensures unchanged { IfOk result (λ taken. OnFalse taken (self.new ≡ self.old)) }
    {
        Ok(self.nodes.insert(NodeKey::of(alloc, node)?)?)
    }
}
