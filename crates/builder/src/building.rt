ghost use Rattle.std.specs.Prelude.{◌≡◌, ◌<◌, IfErr, IfOk, IsErrOf};
ghost use Rattle.blob_source.specs.Called.{Called};
ghost use Rattle.builder.specs.Built.{AsksRootOnce, Builds, ComesInOrder, IsEnd, seen};
ghost use Rattle.runs.specs.Calls.{HaveAllFinished, IsRootFault};
ghost use Rattle.worker.specs.Values.{SaysNoMore};

use crate::error::BuildPlanError;
use blob_digest::Digest;
use plan::{Plan, Record};
use runs::{Engine, RunsError};
use std::alloc::Allocator;
use std::marker::Model;
use tree::{BlobSink, Folded, Memo, TreeError};
use worker::{Runner, Watcher, build};

/// What a build came to.
#[derive(Drop)]
pub struct Built<A: Allocator> {
    /// The digest of the tree in which it ended.
    pub root: Digest,
    /// The Directories of that tree that putting it together made, that of its root first.
    pub directories: Vec<Vec<u8, A>, A>,
    /// The digests of the actions that finished.
    pub noted: Record<A>,
}

impl<A: Allocator> Model for Built<A> {
    ghost use Rattle.builder.specs.Built.{BuiltValue};
    ghost use Rattle.tree.specs.Folded.{items_of};

    ghost Value = { BuiltValue };

    ghost view = { λ b. record {
      root = b.root;
      directories = items_of b.directories.items;
      noted = b.noted;
    } };
}

/// The root and the record of an engine in which each step has finished.
fn end<A: Allocator + Copy, S: BlobSink<A>>(
    alloc: A,
    engine: &Engine<'_, A>,
    sink: &mut S,
) -> Result<Built<A>, RunsError<A>>
    requires done { HaveAllFinished engine.now }
    ensures ended { IfOk result (IsEnd A engine.now (S.tells sink.new)) }
    ensures refused { IfErr result (IsRootFault (S.tells sink.new).blobs engine.now) }
    ensures called { Called (S.tells sink.old) (S.tells sink.new)
        (IsErrOf result (RunsError.Source TreeError.Fetch)) }
    ensures once { AsksRootOnce engine.now (S.tells sink.old) (S.tells sink.new) }
{
    let mut memo = Memo::new(alloc);
    let Folded { root, directories } = engine.root_tree(alloc, &mut memo, sink)?;
    match engine.record(alloc)? {
        Some(noted) => Ok(Built {
            root,
            directories,
            noted,
        }),
        None => unreachable!(),
    }
}

/// Builds a plan over the sources with this digest, with as many children at once as `jobs` says.
/// The watcher is told how far the build is.
pub fn build_plan<A: Allocator + Copy, S: BlobSink<A>, N: Runner<A>, W: Watcher>(
    alloc: A,
    sources: Digest,
    plan: &Plan<A>,
    sink: &mut S,
    runner: &mut N,
    watcher: &mut W,
    jobs: usize,
) -> Result<Built<A>, BuildPlanError<A>>
    requires some { 0 < jobs }
    // One build of the plan ran, from what the store told before, or none was opened: the children,
    // the results and the numbers that the watcher was told are those of its calls. It came to its
    // root, which is answered yes; or the plan, a step or the root is refused, as the error says.
    ensures build { ComesInOrder (Builds A (N.yields runner.old) jobs plan.now sources) jobs
        (seen (S.tells sink.old) (N.starts runner.old) (N.alive runner.old)
        (N.failures runner.old) (W.told watcher.old))
        (seen (S.tells sink.new) (N.starts runner.new) (N.alive runner.new)
        (N.failures runner.new) (W.told watcher.new)) result }
    ensures no_more { SaysNoMore (N.ran runner.new) (N.ran runner.old) }
{
    let mut engine = Engine::new(alloc, plan, sources, sink)?;
    build(alloc, &mut engine, sink, runner, watcher, jobs)?;
    // A read for the prover: an engine is valid.
    let _ = engine.plan();
    let built = end(alloc, &engine, sink)?;
    Ok(built)
}
