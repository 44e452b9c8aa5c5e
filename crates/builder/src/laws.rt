ghost use Rattle.std.specs.Prelude.{◌≡◌, ℕ, List};
ghost use Rattle.blob_digest.specs.Digest.{DigestValue, NoClash};
ghost use Rattle.blob_source.specs.Sink.{KeepsRight};
ghost use Rattle.blob_source.specs.Source.{Telling};
ghost use Rattle.builder.specs.AsRun.{IsAbout, IsARun};
ghost use Rattle.builder.specs.TwoSteps as store;
ghost use Rattle.plan.specs.Plan.{IsPlan};
ghost use Rattle.plan.specs.Values.{PlanValue};
ghost use Rattle.runs.specs.Calls.{IsOpened};
ghost use Rattle.runs.specs.Engine.{EngineValue, IsEngine};
ghost use Rattle.tree.specs.Tree.{Tree, Leaf};
ghost use Rattle.verifier.specs.Build.{Meaning, ActionMeaning, Outcome};
ghost use Rattle.verifier.specs.TwoSteps as two;
ghost use Rattle.worker.specs.Calls.{IsLed};
ghost use Rattle.worker.specs.Stored.{IsToldOrTree};
ghost use Rattle.worker.specs.TwoSteps as example;

use std::alloc::Allocator;
use worker::Runner;

/// The calls of a build are the events of a run, whose state the engine mirrors at the end: for
/// whatever the sources are, the steps mean and actions come to, as the build found them. So what
/// is said of a build whose engine mirrors a run is said of each. A law: it does nothing.
pub fn a_build_is_a_run<A: Allocator, N: Runner<A>>(runner: &N)
    ensures { (plan : PlanValue) (sources : DigestValue) (opening told : Telling) (most : ℕ)
        (first last : EngineValue)
        → IsPlan plan → IsEngine first → IsOpened opening.blobs plan sources first
        → KeepsRight opening.blobs told.blobs
        → (led : IsLed A (N.yields runner.now) told most first last)
        → (t : Tree Leaf) (meaning : Meaning) (X : List (ActionMeaning × Outcome))
        → IsAbout plan sources told.blobs led.calls last t meaning X
        → IsARun told.blobs last t meaning X }
{}

/// The premises of what is said of a build can be met together: by the build of two steps, each of
/// which takes what the store has for its action. In each of its runs, whatever overlaps, is lost
/// or repeated, its jobs come to what the table says, and no two different blobs share a digest. A
/// law: it does nothing.
pub fn two_steps_meet_the_premises<A: Allocator, N: Runner<A>>(alloc: &A, runner: &N)
    ensures plan { IsPlan two.plan }
    ensures valid { IsEngine example.first }
    ensures opened { IsOpened store.telling.blobs two.plan two.sources example.first }
    ensures still { KeepsRight store.telling.blobs store.telling.blobs }
    ensures led { (led : IsLed A (N.yields runner.now) store.telling 1 example.first example.last)
        × (led.calls ≡ example.calls) }
    ensures about { IsAbout two.plan two.sources store.telling.blobs example.calls example.last
        two.tree two.meaning two.table }
    // for what its store has
    ensures apart { NoClash (IsToldOrTree store.telling.blobs example.last) }
{}
