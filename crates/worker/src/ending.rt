ghost use Rattle.std.specs.Prelude.{◌≡◌, ◌+◌, ◌-◌, ◌<◌, [], ◌∷◌, ◌++◌, Some, IfErr, IfOk, OnOk};
ghost use Rattle.std.specs.Prelude.{OnErr, length};
ghost use Rattle.runs.specs.Calls.{without_job};
ghost use Rattle.runs.specs.Engine.{JobValue, job_in};
ghost use Rattle.std.specs.Result.{IsErrAnd};
ghost use Rattle.worker.specs.Counted.{Counts, IsDevice, IsFetch};
ghost use Rattle.worker.specs.Outcomes.{YieldsNoMore, HasAllRight, HasTrees};
ghost use Rattle.worker.specs.Values.{ProducedValue, SaysNoMore, StartsNone, made};
ghost use Rattle.worker.specs.Going.{AreJobsOf, IsJobOf, HasEndedFirst, EndedWell};
ghost use Rattle.worker.specs.Going.{HasResultOfFirst, PutsFirst};
ghost use Rattle.worker.specs.Stopping.{StopsCollecting, StopsEnd, StopsSettling};
ghost use Rattle.worker.specs.Stored.{IsKept};
ghost use Rattle.worker.specs.Storing.{HasResultOf, PutsMade};

use crate::child::Child;
use crate::error::{BuildError, StepRefusal};
use crate::putting::{put_all, put_outcome, put_trees};
use crate::runner::{Produced, Runner};
use actions::Outcome;
use runs::{Engine, Job};
use std::alloc::Allocator;
use std::collections::VecDeque;
use tree::BlobSink;

/// Loses a job that runs.
pub(crate) fn lose<A: Allocator + Copy>(engine: &mut Engine<'_, A>, id: u64)
    requires { (j : JobValue) × (job_in id engine.old ≡ Some j) }
    ensures { engine.new ≡ without_job id engine.old }
{
    match engine.lose(id) {
        Ok(()) => {}
        Err(_) => unreachable!(),
    }
}

/// Waits for a child, and puts the blobs that it made and the Trees of its outcome.
fn collect<A: Allocator + Copy, S: BlobSink<A>, N: Runner<A>>(
    alloc: A,
    sink: &mut S,
    runner: &mut N,
    job: N::Job,
) -> Result<Outcome<A>, StepRefusal<A>>
    ensures kept { IsKept (S.tells sink.old) (S.tells sink.new) }
    ensures gave { IfOk result (λ v. (p : ProducedValue) × N.may_give job (made p)
        × (v ≡ p.outcome) × HasAllRight (S.tells sink.new).blobs p.blobs) }
    ensures trees { IfOk result (HasTrees (S.tells sink.new).blobs) }
    ensures only { PutsMade (N.may_give job) (S.tells sink.old).blobs (S.tells sink.new).blobs }
    ensures refused { IfErr result (StopsCollecting (N.may_give job)) }
    ensures within { YieldsNoMore (N.yields runner.new) (N.yields runner.old) }
    ensures unlisted { StartsNone (N.starts runner.old) (N.starts runner.new) }
    ensures closed { N.alive runner.new ≡ N.alive runner.old - 1 }
    ensures no_more { SaysNoMore (N.ran runner.new) (N.ran runner.old) }
    ensures fetched { Counts (S.tells sink.old).failures (S.tells sink.new).failures
        (IsErrAnd result IsFetch) }
    ensures device { Counts (N.failures runner.old) (N.failures runner.new)
        (IsErrAnd result IsDevice) }
{
    let Produced { outcome, blobs } = runner.finish(alloc, job)?;
    put_all(alloc, sink, &blobs)?;
    put_trees(alloc, sink, &outcome)?;
    Ok(outcome)
}

/// Finishes the job of a child with what it came to.
fn take<A: Allocator + Copy, S: BlobSink<A>, N: Runner<A>>(
    alloc: A,
    engine: &mut Engine<'_, A>,
    sink: &mut S,
    runner: &mut N,
    child: Child<N::Job>,
) -> Result<(), StepRefusal<A>>
    ensures kept { IsKept (S.tells sink.old) (S.tells sink.new) }
    ensures ended { OnOk result
        (EndedWell N.may_give (S.tells sink.old) (S.tells sink.new) child engine.old engine.new) }
    ensures refused { IfErr result
        (StopsEnd N.may_give (S.tells sink.new).blobs child engine.old) }
    ensures unchanged { OnErr result (engine.new ≡ engine.old) }
    ensures only { PutsMade (N.may_give child.job) (S.tells sink.old).blobs
        (S.tells sink.new).blobs }
    ensures within { YieldsNoMore (N.yields runner.new) (N.yields runner.old) }
    ensures unlisted { StartsNone (N.starts runner.old) (N.starts runner.new) }
    ensures closed { N.alive runner.new ≡ N.alive runner.old - 1 }
    ensures no_more { SaysNoMore (N.ran runner.new) (N.ran runner.old) }
    ensures fetched { Counts (S.tells sink.old).failures (S.tells sink.new).failures
        (IsErrAnd result IsFetch) }
    ensures device { Counts (N.failures runner.old) (N.failures runner.new)
        (IsErrAnd result IsDevice) }
{
    let Child { id, job, .. } = child;
    let outcome = collect(alloc, sink, runner, job)?;
    engine.finish(alloc, id, outcome)?;
    Ok(())
}

/// Ends the job of a child, whatever comes.
fn settle<A: Allocator + Copy, S: BlobSink<A>, N: Runner<A>>(
    alloc: A,
    engine: &mut Engine<'_, A>,
    sink: &mut S,
    runner: &mut N,
    child: Child<N::Job>,
) -> Result<(), StepRefusal<A>>
    requires there { (j : JobValue) × (job_in child.id engine.old ≡ Some j) × IsJobOf child j }
    ensures ended { OnOk result
        (EndedWell N.may_give (S.tells sink.old) (S.tells sink.new) child engine.old engine.new) }
    ensures put { OnOk result
        (HasResultOf (S.tells sink.new) engine.new child.step child.action) }
    ensures listed { OnOk result
        ((S.tells sink.new).puts ≡ (S.tells sink.old).puts ++ child.action ∷ []) }
    ensures stopped { IfErr result (StopsSettling N.may_give
        (S.tells sink.old) (S.tells sink.new) child engine.old engine.new) }
    ensures only { PutsMade (N.may_give child.job) (S.tells sink.old).blobs
        (S.tells sink.new).blobs }
    ensures within { YieldsNoMore (N.yields runner.new) (N.yields runner.old) }
    ensures unlisted { StartsNone (N.starts runner.old) (N.starts runner.new) }
    ensures closed { N.alive runner.new ≡ N.alive runner.old - 1 }
    ensures no_more { SaysNoMore (N.ran runner.new) (N.ran runner.old) }
    ensures fetched { Counts (S.tells sink.old).failures (S.tells sink.new).failures
        (IsErrAnd result IsFetch) }
    ensures device { Counts (N.failures runner.old) (N.failures runner.new)
        (IsErrAnd result IsDevice) }
{
    let _ = engine.plan();
    let id = child.id;
    let step = child.step;
    let action = child.action;
    match take(alloc, engine, sink, runner, child) {
        Ok(()) => put_outcome(alloc, engine, sink, step, &action),
        Err(refusal) => {
            lose(engine, id);
            Err(refusal)
        }
    }
}

/// Waits for the child that was started first.
pub(crate) fn finish_first<A: Allocator + Copy, S: BlobSink<A>, N: Runner<A>>(
    alloc: A,
    engine: &mut Engine<'_, A>,
    sink: &mut S,
    runner: &mut N,
    children: &mut VecDeque<Child<N::Job>, A>,
) -> Result<(), BuildError<A>>
    requires there { AreJobsOf IsJobOf engine.old.jobs children.old.items }
    requires some { 0 < length children.old.items }
    ensures ended { OnOk result (HasEndedFirst
        (EndedWell N.may_give (S.tells sink.old) (S.tells sink.new))
        engine.old engine.new children.old.items children.new.items) }
    ensures put { OnOk result
        (HasResultOfFirst (S.tells sink.new) engine.new children.old.items) }
    ensures listed { OnOk result
        (PutsFirst (S.tells sink.old) (S.tells sink.new) children.old.items) }
    ensures stopped { IfErr result (λ e. HasEndedFirst
        (λ c old new. (e.step ≡ c.step) × StopsSettling N.may_give
        (S.tells sink.old) (S.tells sink.new) c old new e.refusal)
        engine.old engine.new children.old.items children.new.items) }
    // What is put is the first child's.
    ensures only { HasEndedFirst (λ c old new. PutsMade (N.may_give c.job)
        (S.tells sink.old).blobs (S.tells sink.new).blobs)
        engine.old engine.new children.old.items children.new.items }
    ensures within { YieldsNoMore (N.yields runner.new) (N.yields runner.old) }
    ensures unlisted { StartsNone (N.starts runner.old) (N.starts runner.new) }
    ensures closed { N.alive runner.new ≡ N.alive runner.old - 1 }
    ensures no_more { SaysNoMore (N.ran runner.new) (N.ran runner.old) }
    ensures fetched { Counts (S.tells sink.old).failures (S.tells sink.new).failures
        (IsErrAnd result (λ e. IsFetch e.refusal)) }
    ensures device { Counts (N.failures runner.old) (N.failures runner.new)
        (IsErrAnd result (λ e. IsDevice e.refusal)) }
{
    let Some(child) = children.pop_front() else {
        unreachable!()
    };
    let step = child.step;
    match settle(alloc, engine, sink, runner, child) {
        Ok(()) => Ok(()),
        Err(refusal) => Err(BuildError { step, refusal }),
    }
}
