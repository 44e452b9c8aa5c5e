ghost use Rattle.std.specs.Prelude.{◌≡◌, IfOk, option_map, string_bytes};
ghost use Rattle.commands.specs.MismatchText.{IsFolderText, IsMadeText, IsMismatchText, IsNodeText};
ghost use Rattle.tree.specs.Form.{node_value};
ghost use Rattle.tree.specs.Mismatch.{mismatch_value};

use messages::Node;
use plan::write_path;
use std::alloc::{AllocError, Global};
use tree::Mismatch;

/// What stands somewhere.
fn node_text(alloc: Global, node: &Node<Global>) -> Result<String, AllocError>
    ensures { IfOk result (λ text. IsNodeText (node_value node.now) (string_bytes text)) }
{
    match node {
        Node::File {
            digest,
            executable: false,
        } => digest.write_text(alloc),
        Node::File {
            digest,
            executable: true,
        } => {
            let text = digest.write_text(alloc)?;
            format!(in alloc; "{text} (executable)")
        }
        Node::Link { target } => {
            let target = target.as_str();
            let quoted = format!(in alloc; "{target:?}")?;
            format!(in alloc; "a link to {quoted}")
        }
        Node::Dir(digest) => {
            let text = digest.write_text(alloc)?;
            format!(in alloc; "the directory {text}")
        }
    }
}

/// What builds make at a path.
fn made_text(alloc: Global, made: &Option<Node<Global>>) -> Result<String, AllocError>
    ensures { IfOk result
        (λ text. IsMadeText (option_map node_value made.now) (string_bytes text)) }
{
    match made {
        Some(node) => {
            let text = node_text(alloc, node)?;
            format!(in alloc; "every build makes {text}")
        }
        None => String::from_str(alloc, "no build makes anything there"),
    }
}

/// What a folder has at a path.
fn folder_text(alloc: Global, there: &Option<Node<Global>>) -> Result<String, AllocError>
    ensures { IfOk result
        (λ text. IsFolderText (option_map node_value there.now) (string_bytes text)) }
{
    match there {
        Some(node) => {
            let text = node_text(alloc, node)?;
            format!(in alloc; "the folder has {text}")
        }
        None => String::from_str(alloc, "the folder has nothing there"),
    }
}

/// The path at which a folder differs from what builds make, and what each has there.
pub(crate) fn mismatch_text(
    alloc: Global,
    mismatch: &Mismatch<Global>,
) -> Result<String, AllocError>
    ensures { IfOk result
        (λ text. IsMismatchText (mismatch_value mismatch.now) (string_bytes text)) }
{
    let path = write_path(alloc, &mismatch.path)?;
    let made = made_text(alloc, &mismatch.here)?;
    let there = folder_text(alloc, &mismatch.there)?;
    format!(in alloc; "{path}: {made}, {there}")
}
