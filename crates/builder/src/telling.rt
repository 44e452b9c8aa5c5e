ghost use Rattle.std.specs.Prelude.{◌≡◌, ◌<◌, IfOk, Ok};
ghost use Rattle.builder.specs.Built.{ComesInOrder, seen};
ghost use Rattle.builder.specs.Telling.{IsBuildTold, Tells};
ghost use Rattle.worker.specs.Values.{SaysNoMore};

use crate::building::{Built, build_plan};
use crate::error::BuildPlanError;
use crate::fault::{Fault, fault_of};
use crate::line::{built_line, failed_line};
use crate::why::why_text;
use blob_digest::Digest;
use plan::Plan;
use std::alloc::{AllocError, Allocator};
use tree::BlobSink;
use worker::{Runner, Watcher};

/// What a build tells, with its line.
#[derive(Drop)]
pub enum Told<A: Allocator> {
    /// The build came to its root.
    Built {
        line: String<A>,
        record_text: Vec<u8, A>,
        /// The Directories of its tree that putting it together made, that of its root first. The
        /// store has those that the steps' outputs and the sources brought.
        directories: Vec<Vec<u8, A>, A>,
    },
    /// A step or the root was refused.
    Failed {
        line: String<A>,
        /// What was refused there, in words.
        why: String<A>,
    },
}

/// The line, the text of the record and the Directories of a build that came to its root.
fn tell_root<A: Allocator + Copy>(
    alloc: A,
    plan: &Plan<A>,
    built: Built<A>,
) -> Result<Told<A>, AllocError>
    ensures { IfOk result (λ told. Tells plan.now (Ok told) (Ok built)) }
{
    let Built {
        root,
        directories,
        noted,
    } = built;
    Ok(Told::Built {
        line: built_line(alloc, &root, plan)?,
        record_text: noted.write(alloc)?,
        directories,
    })
}

/// Builds a plan, as `build_plan` does, and tells what it came to in a line; and in the text of the
/// record, where it came to its root, or in words, why it was refused. An error without a number
/// has no line.
pub fn tell_build<A: Allocator + Copy, S: BlobSink<A>, N: Runner<A>, W: Watcher>(
    alloc: A,
    sources: &Digest,
    plan: &Plan<A>,
    sink: &mut S,
    runner: &mut N,
    watcher: &mut W,
    jobs: usize,
) -> Result<Told<A>, BuildPlanError<A>>
    requires some { 0 < jobs }
    // What is told is what came of the plan: the line, the record and the Directories are those of
    // a build that came to its root; or line and words tell the refusal; or the error, which has no
    // number, is the build's own.
    ensures told { ComesInOrder (IsBuildTold (N.yields runner.old) jobs plan.now sources.now) jobs
        (seen (S.tells sink.old) (N.starts runner.old) (N.alive runner.old)
        (N.failures runner.old) (W.told watcher.old))
        (seen (S.tells sink.new) (N.starts runner.new) (N.alive runner.new)
        (N.failures runner.new) (W.told watcher.new)) result }
    ensures no_more { SaysNoMore (N.ran runner.new) (N.ran runner.old) }
{
    let error = match build_plan(alloc, *sources, plan, sink, runner, watcher, jobs) {
        Ok(built) => return Ok(tell_root(alloc, plan, built)?),
        Err(error) => error,
    };
    let Fault::Refused(place, number) = fault_of(&error) else {
        return Err(error);
    };
    let line = failed_line(alloc, plan, place, number)?;
    let why = why_text(alloc, plan, place, &error)?;
    Ok(Told::Failed { line, why })
}
