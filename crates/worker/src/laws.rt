ghost use Rattle.std.specs.Prelude.{◌≡◌, ◌⊎◌, ℕ, Some};
ghost use Rattle.blob_source.specs.Source.{Telling};
ghost use Rattle.runs.specs.Calls.{HaveAllFinished};
ghost use Rattle.runs.specs.Engine.{FinishedValue, EngineValue, finished_in};
ghost use Rattle.verifier.specs.TwoSteps as two;
ghost use Rattle.worker.specs.Calls.{AreTurns, IsBuiltBy, IsLed, running};
ghost use Rattle.worker.specs.Steps.{CameOfChild, IsActionOf, WasTaken};
ghost use Rattle.worker.specs.Stored.{HasNoneFinished};
ghost use Rattle.worker.specs.TwoSteps as example;

use crate::runner::Runner;
use std::alloc::Allocator;

/// Of each step that finished in a build: a child of its action came to what it has, which the
/// runner yields for the layout that is told under the input; or the store's result for its action
/// was taken. Then nothing was put under the action's digest, and the result stands there still, or
/// what it has is of one form with what a child of the same action came to. A law: it does nothing.
pub fn steps_are_yielded_or_taken<A: Allocator, N: Runner<A>>(runner: &N)
    ensures { (before t : Telling) (most : ℕ) (first last : EngineValue)
        → (built : IsBuiltBy A (N.yields runner.now) before t most first last)
        → HasNoneFinished first
        → (i : ℕ) (f : FinishedValue) → finished_in i last ≡ Some f
        → CameOfChild (N.yields runner.now) built.led.calls t.blobs last f.action f.outcome
        ⊎ WasTaken (N.yields runner.now) built.led.calls built.puts.put t last f }
{}

/// Of each step that finished in a build: its digest is that of its own action, the step's frame
/// with the root of what the step's lines put together. A law: it does nothing.
pub fn actions_are_of_steps<A: Allocator, N: Runner<A>>(runner: &N)
    ensures { (t : Telling) (most : ℕ) (first last : EngineValue)
        → IsLed A (N.yields runner.now) t most first last
        → HasNoneFinished first → running first.jobs ≡ 0
        → (i : ℕ) (f : FinishedValue) → finished_in i last ≡ Some f
        → IsActionOf A t.blobs last i f.action }
{}

/// The premises of what is said of the steps of a build can be met together: by the build of two
/// steps, each of which takes what the store has for its action. A law: it does nothing.
pub fn a_build_takes_two_steps<A: Allocator, N: Runner<A>>(alloc: &A, runner: &N)
    ensures built { (built : IsBuiltBy A (N.yields runner.now) two.telling two.telling 1
        example.first example.last) × (built.led.calls ≡ example.calls) }
    ensures turns { AreTurns example.calls }
    ensures fresh { HasNoneFinished example.first }
    ensures idle { running example.first.jobs ≡ 0 }
    ensures complete { HaveAllFinished example.last }
{}
