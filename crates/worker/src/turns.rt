ghost use Rattle.std.specs.Prelude.{◌≡◌, ◌↔◌, ◌+◌, ◌-◌, ◌<◌, ◌≤◌, ℕ, [], ◌++◌, Some, None};
ghost use Rattle.std.specs.Prelude.{IsTrue};
ghost use Rattle.std.specs.Prelude.{IfSome, IfErr, OnOk, OnErr, length};
ghost use Rattle.blob_source.specs.Sink.{KeepsRight};
ghost use Rattle.blob_source.specs.Source.{Telling};
ghost use Rattle.plan.specs.Plan.{IsPlan};
ghost use Rattle.runs.specs.Engine.{EngineValue, IsEngine};
ghost use Rattle.std.specs.Result.{IsErrAnd};
ghost use Rattle.worker.specs.Counted.{Counts, IsDevice, IsFetch};
ghost use Rattle.worker.specs.Storing.{Remembers, StaysRemembered, StoresSteps};
ghost use Rattle.worker.specs.Outcomes.{YieldsNoMore};
ghost use Rattle.worker.specs.Calls.{HasNoneStartable, IsLeastStartable, IsStartable, PutsOf};
ghost use Rattle.worker.specs.Calls.{came_of};
ghost use Rattle.worker.specs.Going.{AreJobsOf, IsJobOf, IsTurn, IsGoing, turns_left};
ghost use Rattle.worker.specs.Going.{AreOneTurn, FinishesOnly, GoesOnBy, is_start, step_of};
ghost use Rattle.worker.specs.Going.{IsOfTurns, taken_in};
ghost use Rattle.worker.specs.Steps.{IsOfBuild, IsSameBuild};
ghost use Rattle.worker.specs.Stopped.{IsRefusedBuild};
ghost use Rattle.worker.specs.Stored.{KeepsAllBut};
ghost use Rattle.worker.specs.Values.{SaysNoMore};

use crate::beginning::begin;
use crate::child::Child;
use crate::ending::finish_first;
use crate::error::BuildError;
use crate::remembering::Remembered;
use crate::runner::Runner;
use runs::{Engine, Job};
use std::alloc::Allocator;
use std::collections::VecDeque;
use tree::BlobSink;

/// What a build does next.
#[derive(Drop)]
pub(crate) enum Turn {
    Start(usize),
    Finish,
}

/// Whether the step may be started: it hasn't finished, doesn't run, and is ready.
fn can_start<A: Allocator + Copy>(engine: &Engine<'_, A>, step: usize) -> bool
    requires { step < length engine.now.plan.steps }
    ensures { IsTrue result ↔ IsStartable engine.now step }
{
    !engine.finished(step) && engine.running(step) == 0 && engine.ready(step)
}

/// The least step that may be started.
pub(crate) fn next_step<A: Allocator + Copy>(engine: &Engine<'_, A>) -> Option<usize>
    ensures within { IfSome result (λ step. step < length engine.now.plan.steps) }
    ensures least { IfSome result (IsLeastStartable engine.now) }
    ensures none { result ≡ None → HasNoneStartable engine.now }
{
    let steps = engine.plan().steps().len();
    for step in 0..steps {
        if can_start(engine, step) {
            return Some(step);
        }
    }
    None
}

/// What comes next while at most `jobs` children run: the least step that may be started, or else
/// the child that was started first.
pub(crate) fn next_turn<A: Allocator + Copy, J>(
    engine: &Engine<'_, A>,
    children: &VecDeque<Child<J>, A>,
    jobs: usize,
) -> Option<Turn>
    requires some { 0 < jobs }
    ensures turn { IfSome result (IsTurn jobs engine.now children.now.items) }
    ensures none_runs { result ≡ None → children.now.items ≡ [] }
    ensures none_starts { result ≡ None → HasNoneStartable engine.now }
    ensures planned { IsPlan engine.now.plan }
    ensures valid { IsEngine engine.now }
{
    let _ = engine.plan().steps();
    if children.len() < jobs {
        if let Some(step) = next_step(engine) {
            return Some(Turn::Start(step));
        }
    }
    if children.is_empty() {
        return None;
    }
    Some(Turn::Finish)
}

/// Takes a turn.
pub(crate) fn take_turn<A: Allocator + Copy, S: BlobSink<A>, N: Runner<A>>(
    alloc: A,
    engine: &mut Engine<'_, A>,
    sink: &mut S,
    runner: &mut N,
    remembered: &mut Remembered<A>,
    children: &mut VecDeque<Child<N::Job>, A>,
    turn: Turn,
) -> Result<(), BuildError<A>>
    requires knows { Remembers remembered.old (S.tells sink.old).blobs }
    requires can { (most : ℕ) × IsTurn most engine.old children.old.items turn }
    requires there { AreJobsOf IsJobOf engine.old.jobs children.old.items }
    requires alive { length children.old.items ≤ N.alive runner.old }
    // Where the turn is refused, the refusal stands.
    ensures going { (entry : N) (before : Telling) (most : ℕ) (first : EngineValue)
        → YieldsNoMore (N.yields runner.old) (N.yields entry)
        → IsTurn most engine.old children.old.items turn
        → (g : IsGoing A (N.yields entry) N.may_give (N.starts entry) (N.starts runner.old)
        before (S.tells sink.old) most first
        engine.old children.old.items)
        → (on : GoesOnBy A (N.yields entry) N.may_give (N.starts entry) (N.starts runner.new)
        before (S.tells sink.new) most first
        engine.new children.new.items g.led.built.led.calls
        (taken_in (is_start turn) (step_of turn children.old.items) engine.old engine.new))
        × IfErr result (λ e. IsRefusedBuild A (N.yields entry) before (S.tells sink.new) most
        g.led.built.led.calls on.going.led.built.led.calls first engine.new e.step e.refusal)
        × PutsOf on.more (S.tells sink.old) (S.tells sink.new)
        × OnOk result (AreOneTurn on.more
        × ((S.tells sink.new).puts ≡ (S.tells sink.old).puts ++ came_of on.more)) }
    // What the store has of what has finished, it has of what finishes in this turn too.
    ensures stored { OnOk result ((entry : N) (before : Telling) (most : ℕ) (first : EngineValue)
        → IsGoing A (N.yields entry) N.may_give (N.starts entry) (N.starts runner.old)
        before (S.tells sink.old) most first
        engine.old children.old.items
        → StoresSteps (S.tells sink.old) engine.old
        → StoresSteps (S.tells sink.new) engine.new) }
    ensures build { IsSameBuild engine.old engine.new }
    ensures blobs { (entry : N) (before : Telling) (most : ℕ) (first : EngineValue)
        → YieldsNoMore (N.yields runner.old) (N.yields entry)
        → IsGoing A (N.yields entry) N.may_give (N.starts entry) (N.starts runner.old)
        before (S.tells sink.old) most first engine.old children.old.items
        → KeepsAllBut (IsOfBuild A (N.yields entry) (S.tells sink.new) engine.new)
        (S.tells sink.old).blobs (S.tells sink.new).blobs }
    ensures whole { OnOk result ((entry : N) (before : Telling) (most : ℕ) (first : EngineValue)
        → YieldsNoMore (N.yields runner.old) (N.yields entry)
        → IsGoing A (N.yields entry) N.may_give (N.starts entry) (N.starts runner.old)
        before (S.tells sink.old) most first engine.old children.old.items
        → KeepsAllBut (IsOfTurns A (N.yields entry) (S.tells sink.new).blobs engine.new)
        (S.tells sink.old).blobs (S.tells sink.new).blobs) }
    ensures only { OnOk result
        (FinishesOnly (step_of turn children.old.items) engine.old engine.new) }
    // Where it is refused, fewer children than may run at once are left.
    ensures room { OnErr result ((most : ℕ) → IsTurn most engine.old children.old.items turn
        → length children.old.items ≤ most → length children.new.items < most) }
    ensures knows { Remembers remembered.new (S.tells sink.new).blobs }
    ensures stays { StaysRemembered remembered.old remembered.new }
    ensures fewer { OnOk result
        (turns_left engine.new children.new.items < turns_left engine.old children.old.items) }
    ensures right { KeepsRight (S.tells sink.old).blobs (S.tells sink.new).blobs }
    ensures within { YieldsNoMore (N.yields runner.new) (N.yields runner.old) }
    ensures alive { N.alive runner.new + length children.old.items
        ≡ N.alive runner.old + length children.new.items }
    ensures no_more { SaysNoMore (N.ran runner.new) (N.ran runner.old) }
    ensures fetched { Counts (S.tells sink.old).failures (S.tells sink.new).failures
        (IsErrAnd result (λ e. IsFetch e.refusal)) }
    ensures device { Counts (N.failures runner.old) (N.failures runner.new)
        (IsErrAnd result (λ e. IsDevice e.refusal)) }
{
    let _ = engine.plan();
    match turn {
        Turn::Start(step) => begin(alloc, engine, sink, runner, remembered, children, step),
        Turn::Finish => finish_first(alloc, engine, sink, runner, children),
    }
}
