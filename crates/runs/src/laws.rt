ghost use Rattle.std.specs.Prelude.{◌≡◌, ◌↔◌, ℕ, List, Some, slice_get};
ghost use Rattle.std.specs.List.{AllByRecursion};
ghost use Rattle.runs.specs.Engine.{EngineValue, IsEngine};
ghost use Rattle.runs.specs.Calls.{IsReady, kept_digests};
ghost use Rattle.plan.specs.Values.{StepValue, PlanValue};
ghost use Rattle.tree.specs.Tree.{Tree, Leaf};
ghost use Rattle.verifier.specs.Build.{Meaning, ActionMeaning, Outcome, State, IsTable};
ghost use Rattle.verifier.specs.Headline.{HasFinished};
ghost use Rattle.runs.specs.Mirrors.{Mirrors, IsMirrored};
ghost use Rattle.runs.specs.OneAction.{StepsHaveOneAction};
ghost use Rattle.runs.specs.Served.{Serves};
ghost use Rattle.runs.specs.TwoSteps as example;
ghost use Rattle.verifier.specs.TwoSteps as two;

/// Each step has one action throughout a run: so what an engine keeps of a step that has finished
/// is the action that finished. A law: it does nothing.
pub fn steps_have_one_action()
    ensures { (X : List (ActionMeaning × Outcome)) (plan : PlanValue) (meaning : Meaning)
        (t : Tree Leaf) → IsTable X → StepsHaveOneAction X plan meaning t }
{}

/// A step is ready in an engine exactly where a start of it is permitted: where each step that its
/// lines read has finished in the state that the engine mirrors. A law: it does nothing.
pub fn ready_steps_may_start()
    ensures { (e : EngineValue) (t : Tree Leaf) (meaning : Meaning) (s : State) (i : ℕ)
        → Mirrors e t meaning s
        → IsReady e i ↔ ((step : StepValue) → slice_get e.plan.steps i ≡ Some step
        → AllByRecursion (λ l. HasFinished s l.origin) step.lines) }
{}

/// The premises of what is said of a served build can be met together: by the build of two steps,
/// which an engine mirrors, and its blobs and results. A law: it does nothing.
pub fn a_build_is_served()
    ensures engine { IsEngine example.engine }
    ensures mirrored { IsMirrored two.blobs example.engine example.run }
    ensures complete { kept_digests example.engine.finished ≡ Some two.recorded }
    ensures served { Serves two.blobs two.results example.engine two.tree two.meaning two.end }
{}
