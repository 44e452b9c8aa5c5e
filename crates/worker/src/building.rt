ghost use Rattle.std.specs.Prelude.{◌≡◌, ◌+◌, ◌<◌, ◌≤◌, ℕ, [], OnOk, OnErr, length};
ghost use Rattle.blob_source.specs.Source.{Telling};
ghost use Rattle.blob_source.specs.Sink.{KeepsRight};
ghost use Rattle.runs.specs.Engine.{EngineValue};
ghost use Rattle.runs.specs.Calls.{HaveAllFinished};
ghost use Rattle.std.specs.Result.{IsErrAnd};
ghost use Rattle.worker.specs.Counted.{Counts, IsDevice, IsFetch};
ghost use Rattle.worker.specs.Storing.{Remembers, StaysRemembered, StoresSteps};
ghost use Rattle.worker.specs.Calls.{running, IsBuiltWith};
ghost use Rattle.worker.specs.Going.{AreJobsOf, IsJobOf, IsGoing};
ghost use Rattle.worker.specs.Stopped.{EndsBuild, LosesRest};
ghost use Rattle.worker.specs.Steps.{IsOfBuild};
ghost use Rattle.worker.specs.Stored.{HasNoneFinished, IsStored, KeepsAllBut};
ghost use Rattle.worker.specs.Values.{SaysNoMore};

use crate::child::Child;
use crate::counting::{before_turn, first_progress, progress_after};
use crate::ending::lose;
use crate::error::BuildError;
use crate::remembering::Remembered;
use crate::runner::Runner;
use crate::turns::{next_turn, take_turn};
use crate::watching::Watcher;
use runs::Engine;
use std::alloc::Allocator;
use std::collections::{BTreeSet, VecDeque};
use tree::{BlobSink, Memo};

/// Waits for all children, and loses their jobs.
fn end_all<A: Allocator + Copy, N: Runner<A>>(
    alloc: A,
    engine: &mut Engine<'_, A>,
    runner: &mut N,
    children: VecDeque<Child<N::Job>, A>,
)
    requires there { AreJobsOf IsJobOf engine.old.jobs children.items }
    ensures led { (entry : N) (before t : Telling) (most : ℕ) (first : EngineValue)
        → (g : IsGoing A (N.yields entry) N.may_give (N.starts entry) (N.starts runner.old) before
        t most first engine.old children.items)
        → (b : IsBuiltWith A (N.yields entry) (N.starts entry) (N.starts runner.new) before t most
        first engine.new)
        × LosesRest A (N.yields entry) t most g.led.built.led.calls b.built.led.calls engine.old
        engine.new }
    ensures idle { running engine.new.jobs ≡ 0 }
    ensures alive { (count : ℕ) → N.alive runner.old ≡ count + length children.items
        → N.alive runner.new ≡ count }
    ensures no_more { SaysNoMore (N.ran runner.new) (N.ran runner.old) }
    ensures device { N.failures runner.old ≤ N.failures runner.new }
    ensures none { children.items ≡ [] → N.failures runner.new ≡ N.failures runner.old }
{
    let mut rest = children;
    while let Some(child) = rest.pop_front() {
        let Child { id, job, .. } = child;
        let _ = runner.finish(alloc, job);
        lose(engine, id);
    }
}

/// What a build has under way: what it remembers of its store, and its children in the order of
/// their starts.
#[derive(Drop)]
struct Underway<A: Allocator, J> {
    remembered: Remembered<A>,
    children: VecDeque<Child<J>, A>,
}

/// Takes turns until there is none, and tells after each how far the build is.
fn take_turns<A: Allocator + Copy, S: BlobSink<A>, N: Runner<A>, W: Watcher>(
    alloc: A,
    engine: &mut Engine<'_, A>,
    sink: &mut S,
    runner: &mut N,
    watcher: &mut W,
    underway: &mut Underway<A, N::Job>,
    jobs: usize,
) -> Result<(), BuildError<A>>
    requires some { 0 < jobs }
    requires knows { Remembers underway.old.remembered (S.tells sink.old).blobs }
    requires idle { running engine.old.jobs ≡ 0 }
    requires none { underway.old.children.items ≡ [] }
    ensures going { (g : IsGoing A (N.yields runner.old) N.may_give (N.starts runner.old)
        (N.starts runner.new) (S.tells sink.old) (S.tells sink.new) jobs engine.old engine.new
        underway.new.children.items)
        × EndsBuild A (N.yields runner.old) (S.tells sink.old) (S.tells sink.new) jobs engine.old
        engine.new g.led.built.led.calls (W.told watcher.old) (W.told watcher.new) result }
    ensures done { OnOk result (HaveAllFinished engine.new) }
    ensures ended { OnOk result (underway.new.children.items ≡ []) }
    ensures few { OnErr result (length underway.new.children.items < jobs) }
    ensures stored { OnOk result (StoresSteps (S.tells sink.old) engine.old
        → StoresSteps (S.tells sink.new) engine.new) }
    ensures right { KeepsRight (S.tells sink.old).blobs (S.tells sink.new).blobs }
    ensures blobs { KeepsAllBut (IsOfBuild A (N.yields runner.old) (S.tells sink.new) engine.new)
        (S.tells sink.old).blobs (S.tells sink.new).blobs }
    ensures stays { StaysRemembered underway.old.remembered underway.new.remembered }
    ensures alive { N.alive runner.new ≡ N.alive runner.old + length underway.new.children.items }
    ensures no_more { SaysNoMore (N.ran runner.new) (N.ran runner.old) }
    ensures fetched { Counts (S.tells sink.old).failures (S.tells sink.new).failures
        (IsErrAnd result (λ e. IsFetch e.refusal)) }
    ensures device { Counts (N.failures runner.old) (N.failures runner.new)
        (IsErrAnd result (λ e. IsDevice e.refusal)) }
{
    let mut progress = first_progress(engine);
    while let Some(turn) = next_turn(engine, &underway.children, jobs) {
        let before = before_turn(engine, &underway.children, &turn);
        let remembered = &mut underway.remembered;
        let children = &mut underway.children;
        take_turn(alloc, engine, sink, runner, remembered, children, turn)?;
        progress = progress_after(progress, before, engine, &underway.children);
        watcher.watch(progress);
    }
    Ok(())
}

/// Builds a plan by an engine of which no job runs, with as many children at once as `jobs` says.
/// While fewer run, the least step that may be started is: its job finishes at once where the store
/// has a result for its action, and a child runs for it otherwise. Else the child that was started
/// first is waited for, its blobs are put and its job finishes, and then the result is put. On a
/// refusal every child is waited for and its job lost. A Directory of the sources that the starts
/// look at is fetched once, and one of their inputs is put once. The watcher is told how far the
/// build is whenever a step was started or has finished.
pub fn build<A: Allocator + Copy, S: BlobSink<A>, N: Runner<A>, W: Watcher>(
    alloc: A,
    engine: &mut Engine<'_, A>,
    sink: &mut S,
    runner: &mut N,
    watcher: &mut W,
    jobs: usize,
) -> Result<(), BuildError<A>>
    requires some { 0 < jobs }
    requires idle { running engine.old.jobs ≡ 0 }
    // Calls lead to the engine, and at most `jobs` jobs run after each. What a job finishes with is
    // from the runner or from the store. The children that were started are of these jobs, and the
    // results that were put are of what they came to; those under other digests stay.
    // The calls are whole turns, and children's jobs finish in the order of their starts. Where it
    // is refused, the turn that comes next is begun, the refusal of its step stands, and then jobs
    // alone are lost. The watcher is told the numbers after each whole turn.
    ensures led { (b : IsBuiltWith A (N.yields runner.old) (N.starts runner.old)
        (N.starts runner.new) (S.tells sink.old) (S.tells sink.new) jobs engine.old engine.new)
        × EndsBuild A (N.yields runner.old) (S.tells sink.old) (S.tells sink.new) jobs engine.old
        engine.new b.built.led.calls (W.told watcher.old) (W.told watcher.new) result }
    ensures done { OnOk result (HaveAllFinished engine.new) }
    // The store has what each step came to, from the first to the last.
    ensures stored { OnOk result
        (HasNoneFinished engine.old → IsStored (S.tells sink.new) engine.new) }
    ensures idle { running engine.new.jobs ≡ 0 }
    // Each child that was started was waited for.
    ensures alive { N.alive runner.new ≡ N.alive runner.old }
    ensures no_more { SaysNoMore (N.ran runner.new) (N.ran runner.old) }
    ensures right { KeepsRight (S.tells sink.old).blobs (S.tells sink.new).blobs }
    // What stands under the digest of no blob that the build has to put stays.
    ensures blobs { KeepsAllBut (IsOfBuild A (N.yields runner.old) (S.tells sink.new) engine.new)
        (S.tells sink.old).blobs (S.tells sink.new).blobs }
    // The store failed exactly where that is told, and the runner at least there. Other children
    // that are waited for after a refusal may fail too: there is none where `jobs` is 1.
    ensures fetched { Counts (S.tells sink.old).failures (S.tells sink.new).failures
        (IsErrAnd result (λ e. IsFetch e.refusal)) }
    ensures device { IsErrAnd result (λ e. IsDevice e.refusal)
        → N.failures runner.old < N.failures runner.new }
    ensures unfailed { OnOk result (N.failures runner.new ≡ N.failures runner.old) }
    ensures alone { jobs ≡ 1 → Counts (N.failures runner.old) (N.failures runner.new)
        (IsErrAnd result (λ e. IsDevice e.refusal)) }
{
    let memo = Memo::new(alloc);
    let put = BTreeSet::new(alloc);
    let remembered = Remembered { memo, put };
    let children = VecDeque::new(alloc);
    let mut underway = Underway {
        remembered,
        children,
    };
    match take_turns(alloc, engine, sink, runner, watcher, &mut underway, jobs) {
        Ok(()) => Ok(()),
        Err(error) => {
            let Underway { children, .. } = underway;
            end_all(alloc, engine, runner, children);
            Err(error)
        }
    }
}
