ghost use Rattle.std.specs.Prelude.{◌≡◌, List, ℕ};
ghost use Rattle.messages.specs.FileNode.{FileNodeValue};
ghost use Rattle.messages.specs.DirectoryNode.{DirectoryNodeValue};
ghost use Rattle.messages.specs.SymlinkNode.{SymlinkNodeValue};

use crate::name::Name;
use crate::node::{DirectoryNode, FileNode, SymlinkNode};
use crate::path::Path;
use crate::target::Target;
use std::alloc::Allocator;

/// What `clone` answers is the value again. A law: it does nothing.
pub fn clones_are_equal<A: Allocator + Clone>()
    ensures names { (a b : List ℕ) → ⟦<Name<A> as Clone>⟧.is_clone a b → a ≡ b }
    ensures targets { (a b : List ℕ) → ⟦<Target<A> as Clone>⟧.is_clone a b → a ≡ b }
    ensures paths { (a b : List (List ℕ)) → ⟦<Path<A> as Clone>⟧.is_clone a b → a ≡ b }
    ensures files { (a b : FileNodeValue) → ⟦<FileNode<A> as Clone>⟧.is_clone a b
        → a ≡ b }
    ensures directories { (a b : DirectoryNodeValue) → ⟦<DirectoryNode<A> as Clone>⟧.is_clone a b
        → a ≡ b }
    ensures symlinks { (a b : SymlinkNodeValue) → ⟦<SymlinkNode<A> as Clone>⟧.is_clone a b
        → a ≡ b }
{}
