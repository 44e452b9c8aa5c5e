ghost use Rattle.std.specs.Prelude.{◌≡◌, ◌++◌, ◌∷◌, [], IfOk, IsNone, MatchOption, OnOk, map};
ghost use Rattle.actions.specs.Outcome.{output_value, outputs_in};
ghost use Rattle.messages.specs.Directory.{directory_bytes};
ghost use Rattle.tree.specs.Folded.{items_of};
ghost use Rattle.verifier.specs.Made.{encodings_of, outcomes_directories, output_directories};
ghost use Rattle.verifier.specs.Made.{outputs_directories};

use actions::{Outcome, Output};
use blob_digest::Digest;
use messages::{Directory, Path};
use std::alloc::{AllocError, Allocator};
use tree::Folded;

/// What builds of a plan make.
#[derive(Drop)]
#[derive_where(Debug)]
pub struct Made<A: Allocator> {
    /// The root in which they end.
    pub root: Digest,
    /// The encodings of the Directories that are known: those that were put together, and those of
    /// the directories that the steps have as outputs.
    pub directories: Vec<Vec<u8, A>, A>,
}

/// Appends the encodings of Directories.
fn push_encodings<A: Allocator + Copy>(
    alloc: A,
    encodings: &mut Vec<Vec<u8, A>, A>,
    directories: &[Directory<A>],
) -> Result<(), AllocError>
    ensures { OnOk result (items_of encodings.new.items
        ≡ items_of encodings.old.items ++ encodings_of directories.now) }
{
    for directory in directories {
        encodings.push(directory.encode(alloc)?)?;
    }
    Ok(())
}

/// Appends the encodings of an output's Directories.
fn push_output<A: Allocator + Copy>(
    alloc: A,
    encodings: &mut Vec<Vec<u8, A>, A>,
    output: &Output<A>,
) -> Result<(), AllocError>
    ensures { OnOk result (items_of encodings.new.items
        ≡ items_of encodings.old.items ++ output_directories (output_value output.now)) }
{
    match output {
        Output::Tree(tree) => {
            encodings.push(tree.root().encode(alloc)?)?;
            push_encodings(alloc, encodings, tree.children())
        }
        Output::File { .. } | Output::Link { .. } => Ok(()),
    }
}

/// Appends the encodings of the Directories of what an action came to.
fn push_outputs<A: Allocator + Copy>(
    alloc: A,
    encodings: &mut Vec<Vec<u8, A>, A>,
    outputs: &[(Path<A>, Output<A>)],
) -> Result<(), AllocError>
    ensures { OnOk result (items_of encodings.new.items
        ≡ items_of encodings.old.items ++ outputs_directories (outputs_in outputs.now)) }
{
    for entry in outputs {
        push_output(alloc, encodings, &entry.1)?;
    }
    Ok(())
}

/// What builds make, whose steps come to these outcomes and whose root is this tree.
pub(crate) fn made_of<A: Allocator + Copy>(
    alloc: A,
    root: Folded<A>,
    outcomes: &[Outcome<A>],
) -> Result<Made<A>, AllocError>
    ensures root { IfOk result (λ made. made.root ≡ root.root) }
    ensures directories { IfOk result (λ made. items_of made.directories.items
        ≡ items_of root.directories.items ++ outcomes_directories outcomes.now) }
{
    let mut directories = root.directories;
    for outcome in outcomes {
        push_outputs(alloc, &mut directories, outcome.outputs())?;
    }
    Ok(Made {
        root: root.root,
        directories,
    })
}
