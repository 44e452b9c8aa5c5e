ghost use Rattle.std.specs.Prelude.{◌≡◌, Some, IfOk, IsSome};
ghost use Rattle.action_messages.specs.ActionResult.{IsActionResult};
ghost use Rattle.actions.specs.Outcome.{outputs_in};
ghost use Rattle.action_messages.specs.Outputs.{files_among, directories_among, links_among};
ghost use Rattle.runs.specs.Engine.{FinishedValue, finished_in};
ghost use Rattle.runs.specs.Results.{recorded_outputs, result_of};
ghost use Rattle.runs.specs.Served.{IsKeptOf};

use crate::engine::Engine;
use crate::looking::finished_at;
use actions::{ActionResult, Outcome, Output, OutputDirectory, OutputFile, OutputSymlink, Stream};
use blob_digest::Digest;
use messages::{Path, Target};
use std::alloc::{AllocError, Allocator};

/// The files of a result with these outputs.
fn files_of<A: Allocator + Copy>(
    alloc: A,
    outputs: &[(Path<A>, Output<A>)],
) -> Result<Vec<OutputFile<A>, A>, AllocError>
    ensures { IfOk result
        (λ files. files.items ≡ files_among (recorded_outputs (outputs_in outputs.now))) }
{
    let mut files = Vec::new(alloc);
    for output in outputs {
        if let Output::File { digest, executable } = &output.1 {
            files.push(OutputFile {
                path: Path::copy_of(alloc, &output.0)?,
                digest: *digest,
                executable: *executable,
            })?;
        }
    }
    Ok(files)
}

/// The directories of a result with these outputs, each by the digest of its Tree.
fn directories_of<A: Allocator + Copy>(
    alloc: A,
    outputs: &[(Path<A>, Output<A>)],
) -> Result<Vec<OutputDirectory<A>, A>, AllocError>
    ensures { IfOk result
        (λ directories. directories.items
        ≡ directories_among (recorded_outputs (outputs_in outputs.now))) }
{
    let mut directories = Vec::new(alloc);
    for output in outputs {
        if let Output::Tree(tree) = &output.1 {
            directories.push(OutputDirectory {
                path: Path::copy_of(alloc, &output.0)?,
                tree_digest: Digest::of(&tree.encode(alloc)?),
            })?;
        }
    }
    Ok(directories)
}

/// The symbolic links of a result with these outputs.
fn symlinks_of<A: Allocator + Copy>(
    alloc: A,
    outputs: &[(Path<A>, Output<A>)],
) -> Result<Vec<OutputSymlink<A>, A>, AllocError>
    ensures { IfOk result
        (λ symlinks. symlinks.items ≡ links_among (recorded_outputs (outputs_in outputs.now))) }
{
    let mut symlinks = Vec::new(alloc);
    for output in outputs {
        if let Output::Link { target } = &output.1 {
            symlinks.push(OutputSymlink {
                path: Path::copy_of(alloc, &output.0)?,
                target: Target::copy_of(alloc, target)?,
            })?;
        }
    }
    Ok(symlinks)
}

/// The result of an outcome.
fn result_of<A: Allocator + Copy>(
    alloc: A,
    outcome: &Outcome<A>,
) -> Result<ActionResult<A>, AllocError>
    ensures value { IfOk result (λ made. made ≡ result_of outcome.now) }
    ensures valid { IfOk result IsActionResult }
{
    let outputs = outcome.outputs();
    let made = ActionResult::new(
        files_of(alloc, outputs)?,
        directories_of(alloc, outputs)?,
        symlinks_of(alloc, outputs)?,
        outcome.exit_code(),
        Stream::new(Vec::new(alloc), None),
        Stream::new(Vec::new(alloc), None),
    );
    match made {
        Ok(made) => {
            let _ = made.exit_code();
            Ok(made)
        }
        Err(_) => unreachable!(),
    }
}

impl<'p, A: Allocator + Copy> Engine<'p, A> {
    /// The result of a step that has finished, as it is kept for other builds: the exit code and
    /// the outputs of its outcome, each directory by the digest of its Tree, and nothing of what
    /// the process wrote.
    pub fn result(&self, alloc: A, step: usize) -> Result<ActionResult<A>, AllocError>
        requires { IsSome (finished_in step self.now) }
        ensures value { (f : FinishedValue) → finished_in step self.now ≡ Some f
            → IfOk result (λ made. made ≡ result_of f.outcome) }
        // Held under the digest of the step's action, its Trees too, it records that outcome.
        ensures kept { IfOk result (IsKeptOf self.now step) }
    {
        let Some(finished) = finished_at(&self.finished, step) else {
            unreachable!()
        };
        result_of(alloc, &finished.outcome)
    }
}
