//! Rows of flat trees, which are filled entry by entry.
use crate::answers::{Answer, Broken, number, said, word};
use crate::nodes::{file_told, node_of, phrase};
use crate::trees::directories_told;
use messages::{Node, Path};
use std::alloc::{Allocator, Global};
use tree::{AddError, FlatEntry, FlatTree, fold};

pub fn answer<A: Allocator + Copy>(
    global: Global,
    alloc: A,
    tree: &mut FlatTree<A>,
    fields: &[Vec<u8>],
) -> Answer {
    match fields {
        [kind, _] => of_all(global, alloc, tree, word(kind)),
        [kind, path, _] => of_path(global, alloc, tree, word(kind), path),
        [kind, path, rest, _] => {
            let entry = entry_of(alloc, kind, rest)?;
            added(global, alloc, tree, path, entry)
        }
        _ => Err(Broken::NoRow),
    }
}

fn of_all<A: Allocator + Copy>(global: Global, alloc: A, tree: &FlatTree<A>, kind: &str) -> Answer {
    match kind {
        "entries" => number(global, tree.len() as u64),
        "fold" => directories_told(global, &fold(alloc, tree)?),
        _ => Err(Broken::NoRow),
    }
}

fn of_path<A: Allocator + Copy>(
    global: Global,
    alloc: A,
    tree: &mut FlatTree<A>,
    kind: &str,
    path: &[u8],
) -> Answer {
    match kind {
        "at" => standing(global, alloc, tree, path),
        "directory" => added(global, alloc, tree, path, FlatEntry::Dir),
        _ => Err(Broken::NoRow),
    }
}

/// The entry of a file or a link.
fn entry_of<A: Allocator + Copy>(
    alloc: A,
    word: &[u8],
    rest: &[u8],
) -> Result<FlatEntry<A>, Broken> {
    match node_of(alloc, word, rest)? {
        Node::File { digest, executable } => Ok(FlatEntry::File { digest, executable }),
        Node::Link { target } => Ok(FlatEntry::Link { target }),
        Node::Dir(_) => Err(Broken::NoRow),
    }
}

/// Adds the entry. An addition that finds no memory leaves the tree as it was.
fn added<A: Allocator + Copy>(
    global: Global,
    alloc: A,
    tree: &mut FlatTree<A>,
    path: &[u8],
    entry: FlatEntry<A>,
) -> Answer {
    let before = tree.len();
    let path = Path::new(alloc, path)?;
    match tree.add(alloc, path, entry) {
        Ok(()) => said(global, "added"),
        Err(AddError::Overlap(_)) => said(global, "no room"),
        Err(AddError::Memory) if tree.len() != before => said(global, "added without memory"),
        Err(AddError::Memory) => Err(Broken::Memory),
    }
}

/// What stands at the path.
fn standing<A: Allocator + Copy>(
    global: Global,
    alloc: A,
    tree: &FlatTree<A>,
    path: &[u8],
) -> Answer {
    let path = Path::new(alloc, path)?;
    match tree.get(alloc, &path)? {
        None => said(global, "nothing"),
        Some(entry) => entry_told(global, entry),
    }
}

fn entry_told<A: Allocator>(global: Global, entry: &FlatEntry<A>) -> Answer {
    match entry {
        FlatEntry::File { digest, executable } => file_told(global, digest, *executable),
        FlatEntry::Link { target } => phrase(global, "link", target.as_bytes()),
        FlatEntry::Dir => said(global, "directory"),
    }
}
