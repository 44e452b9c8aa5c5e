ghost use Rattle.std.specs.Prelude.{◌≡◌, ◌+◌, ◌-◌, ◌<◌, ◌≤◌, Some, IfErr, IfOk, OnOk, OnErr};
ghost use Rattle.std.specs.Prelude.{length};
ghost use Rattle.worker.specs.Layout.{IsLayoutOf};
ghost use Rattle.std.specs.Result.{IsErrAnd};
ghost use Rattle.worker.specs.Counted.{Counts, IsDevice, IsFetch};
ghost use Rattle.blob_source.specs.Source.{Grows};
ghost use Rattle.worker.specs.Steps.{IsForJob, IsOfBuild, IsSameBuild};
ghost use Rattle.worker.specs.Stored.{IsKept, KeepsAllBut};
ghost use Rattle.worker.specs.Storing.{HasPutAll, Remembers, StaysPut, StaysRemembered, WerePut};
ghost use Rattle.worker.specs.Calls.{IsStartable};
ghost use Rattle.worker.specs.Outcomes.{YieldsFor, YieldsNoMore};
ghost use Rattle.worker.specs.Values.{LayoutValue, EndValue, SaysNoMore, StartsNone, StartsOne};
ghost use Rattle.tree.specs.Folded.{items_of};
ghost use Rattle.worker.specs.Going.{CallsForJob, CallsForStart, IsJobIn, kept_job, IsBegun};
ghost use Rattle.worker.specs.Going.{HasNoneToTake, IsForGone, IsLaunched, IsOfTurns};
ghost use Rattle.worker.specs.Stopping.{StopsChild, StopsBeginning};
ghost use Rattle.worker.specs.Stopped.{IsOfChild, StopsStep};

use crate::child::Child;
use crate::ending::lose;
use crate::error::{BuildError, StepRefusal};
use crate::laying_out::layout;
use crate::putting::{put_input, put_trees};
use crate::recorded::recorded_outcome;
use crate::remembering::Remembered;
use crate::runner::Runner;
use blob_digest::Digest;
use runs::{Engine, Job};
use std::alloc::Allocator;
use std::collections::{BTreeSet, VecDeque};
use tree::BlobSink;

/// Lays out the input of a job and starts its child.
fn start_child<A: Allocator + Copy, S: BlobSink<A>, N: Runner<A>>(
    alloc: A,
    sink: &mut S,
    runner: &mut N,
    job: &Job<A>,
) -> Result<N::Job, StepRefusal<A>>
    ensures kept { IsKept (S.tells sink.old) (S.tells sink.new) }
    // The store is only asked.
    ensures only { Grows (S.tells sink.old).blobs (S.tells sink.new).blobs }
    ensures owed { IfOk result (λ child. (l : LayoutValue)
        × IsLayoutOf (S.tells sink.new).blobs job.now.action.input l
        × ((e : EndValue) → N.may_give child e
        → YieldsFor (N.yields runner.old) l job.now.command e)
        × StartsOne (N.starts runner.old) (N.starts runner.new)
        (record { layout = l; command = job.now.command })
        × (S.tells sink.new).calls
        ≤ (S.tells sink.old).calls + 1 + length l.folders + length l.files) }
    ensures unlisted { OnErr result (StartsNone (N.starts runner.old) (N.starts runner.new)) }
    ensures refused { IfErr result (StopsChild (N.yields runner.old) (S.tells sink.new).blobs
        job.now.action.input job.now.command) }
    ensures same { YieldsNoMore (N.yields runner.new) (N.yields runner.old) }
    ensures opened { OnOk result (N.alive runner.new ≡ N.alive runner.old + 1) }
    ensures unopened { OnErr result (N.alive runner.new ≡ N.alive runner.old) }
    ensures no_more { SaysNoMore (N.ran runner.new) (N.ran runner.old) }
    ensures fetched { Counts (S.tells sink.old).failures (S.tells sink.new).failures
        (IsErrAnd result IsFetch) }
    ensures device { Counts (N.failures runner.old) (N.failures runner.new)
        (IsErrAnd result IsDevice) }
{
    let root = job.action.input_root_digest();
    let laid = layout(alloc, &root, sink)?;
    Ok(runner.start(alloc, &laid, &job.command)?)
}

/// Goes on with a job: takes what the store has for it, or else starts its child.
fn launch<A: Allocator + Copy, S: BlobSink<A>, N: Runner<A>>(
    alloc: A,
    engine: &mut Engine<'_, A>,
    sink: &mut S,
    runner: &mut N,
    put: &mut BTreeSet<Digest, A>,
    children: &mut VecDeque<Child<N::Job>, A>,
    job: &Job<A>,
) -> Result<(), StepRefusal<A>>
    requires job { IsJobIn engine.old job.now }
    requires put { WerePut put.old (S.tells sink.old).blobs }
    ensures put { WerePut put.new (S.tells sink.new).blobs }
    ensures stays { StaysPut put.old put.new }
    ensures listed { OnOk result (HasPutAll put.new (items_of job.now.input.directories.items)) }
    ensures once { OnOk result (CallsForJob job.now put.old (S.tells sink.new) engine.old
        engine.new (S.tells sink.old).calls (S.tells sink.new).calls) }
    ensures kept { IsKept (S.tells sink.old) (S.tells sink.new) }
    ensures only { KeepsAllBut (IsForJob job.now (S.tells sink.new))
        (S.tells sink.old).blobs (S.tells sink.new).blobs }
    ensures gone { OnOk result (KeepsAllBut (IsForGone job.now engine.old engine.new)
        (S.tells sink.old).blobs (S.tells sink.new).blobs) }
    ensures launched { OnOk result (IsLaunched (N.yields runner.old) N.may_give
        (N.starts runner.old) (N.starts runner.new) (S.tells sink.old) (S.tells sink.new)
        job.now.id (kept_job job.now) engine.old engine.new children.old.items
        children.new.items) }
    ensures unlisted { OnErr result (StartsNone (N.starts runner.old) (N.starts runner.new)) }
    ensures refused { IfErr result
        (StopsStep (N.yields runner.old) (S.tells sink.new) engine.old job.now.step) }
    ensures untaken { IfErr result (λ refusal. IsOfChild refusal
        → HasNoneToTake (S.tells sink.old) job.now.digest job.now.command) }
    ensures unchanged { OnErr result (engine.new ≡ engine.old) }
    ensures same { OnErr result (children.new.items ≡ children.old.items) }
    ensures within { YieldsNoMore (N.yields runner.new) (N.yields runner.old) }
    ensures alive { N.alive runner.new + length children.old.items
        ≡ N.alive runner.old + length children.new.items }
    ensures no_more { SaysNoMore (N.ran runner.new) (N.ran runner.old) }
    ensures fetched { Counts (S.tells sink.old).failures (S.tells sink.new).failures
        (IsErrAnd result IsFetch) }
    ensures device { Counts (N.failures runner.old) (N.failures runner.new)
        (IsErrAnd result IsDevice) }
{
    put_input(alloc, sink, put, job)?;
    if let Some(outcome) = recorded_outcome(alloc, sink, job)? {
        put_trees(alloc, sink, &outcome)?;
        engine.finish(alloc, job.id, outcome)?;
        return Ok(());
    }
    children.reserve(1)?;
    let child = start_child(alloc, sink, runner, job)?;
    children.push_back_reserved(Child {
        id: job.id,
        step: job.step,
        action: job.digest,
        job: child,
    });
    Ok(())
}

/// Starts a step.
pub(crate) fn begin<A: Allocator + Copy, S: BlobSink<A>, N: Runner<A>>(
    alloc: A,
    engine: &mut Engine<'_, A>,
    sink: &mut S,
    runner: &mut N,
    remembered: &mut Remembered<A>,
    children: &mut VecDeque<Child<N::Job>, A>,
    step: usize,
) -> Result<(), BuildError<A>>
    requires within { step < length engine.old.plan.steps }
    requires startable { IsStartable engine.old step }
    requires knows { Remembers remembered.old (S.tells sink.old).blobs }
    ensures knows { Remembers remembered.new (S.tells sink.new).blobs }
    ensures stays { StaysRemembered remembered.old remembered.new }
    ensures kept { IsKept (S.tells sink.old) (S.tells sink.new) }
    ensures only { KeepsAllBut (IsOfBuild A (N.yields runner.old) (S.tells sink.new) engine.new)
        (S.tells sink.old).blobs (S.tells sink.new).blobs }
    ensures whole { OnOk result (KeepsAllBut (IsOfTurns A (N.yields runner.old)
        (S.tells sink.new).blobs engine.new) (S.tells sink.old).blobs (S.tells sink.new).blobs) }
    ensures build { IsSameBuild engine.old engine.new }
    ensures begun { OnOk result (IsBegun A (N.yields runner.old) N.may_give
        (N.starts runner.old) (N.starts runner.new) (S.tells sink.old) (S.tells sink.new) step
        engine.old engine.new children.old.items children.new.items) }
    // Its input's Directories are among those that were put.
    ensures listed { OnOk result ((b : IsBegun A (N.yields runner.old) N.may_give
        (N.starts runner.old) (N.starts runner.new) (S.tells sink.old) (S.tells sink.new) step
        engine.old engine.new children.old.items children.new.items)
        × HasPutAll remembered.new.put (items_of b.started.job.input.directories.items)) }
    // A Directory of the sources that is known isn't asked for again.
    ensures once { OnOk result ((b : IsBegun A (N.yields runner.old) N.may_give
        (N.starts runner.old) (N.starts runner.new) (S.tells sink.old) (S.tells sink.new) step
        engine.old engine.new children.old.items children.new.items)
        × CallsForStart remembered.old remembered.new b) }
    ensures unlisted { OnErr result (StartsNone (N.starts runner.old) (N.starts runner.new)) }
    ensures stopped { IfErr result (λ e. (e.step ≡ step) × StopsBeginning A (N.yields runner.old)
        (S.tells sink.old) (S.tells sink.new) step engine.old engine.new e.refusal) }
    ensures same { OnErr result (children.new.items ≡ children.old.items) }
    ensures within { YieldsNoMore (N.yields runner.new) (N.yields runner.old) }
    ensures alive { N.alive runner.new + length children.old.items
        ≡ N.alive runner.old + length children.new.items }
    ensures no_more { SaysNoMore (N.ran runner.new) (N.ran runner.old) }
    ensures fetched { Counts (S.tells sink.old).failures (S.tells sink.new).failures
        (IsErrAnd result (λ e. IsFetch e.refusal)) }
    ensures device { Counts (N.failures runner.old) (N.failures runner.new)
        (IsErrAnd result (λ e. IsDevice e.refusal)) }
{
    let _ = engine.plan();
    let job = match engine.start(alloc, step, &mut remembered.memo, sink) {
        Ok(job) => job,
        Err(error) => {
            return Err(BuildError {
                step,
                refusal: StepRefusal::Engine(error),
            });
        }
    };
    let put = &mut remembered.put;
    match launch(alloc, engine, sink, runner, put, children, &job) {
        Ok(()) => Ok(()),
        Err(refusal) => {
            lose(engine, job.id);
            Err(BuildError { step, refusal })
        }
    }
}
