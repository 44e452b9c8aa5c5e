ghost use Rattle.std.specs.Prelude.{◌≡◌, ◌↔◌, ◌⊎◌, ℕ, List, [], length, ◌++◌, ◌∷◌, Some, Contains};
ghost use Rattle.std.specs.Prelude.{ℤ, codes, option_map, pos, slice_get, take, ◌≢◌};
ghost use Rattle.blob_digest.specs.Digest.{DigestValue, NoClash};
ghost use Rattle.blob_digest.specs.DigestValue.{IsDigest};
ghost use Rattle.plan.specs.Plan.{NoTargetsOverlap, IsPlan};
ghost use Rattle.plan.specs.Values.{LineValue, StepValue, PlanValue};
ghost use Rattle.plan.specs.declared.version.Version.TheVariants.{One};
ghost use Rattle.tree.specs.Form.{NodeValue, form, root};
ghost use Rattle.blob_source.specs.Source.{Blobs, Telling, Grows};
ghost use Rattle.tree.specs.Tree.{Name, Tree, Leaf, Entry, below_entry, IsOrdered};
ghost use Rattle.tree.specs.Graft.{graft, expand};
ghost use Rattle.tree.specs.Memo.{Asked};
ghost use Rattle.tree.specs.Merging.{MergeLines, merged, nodes_in};
ghost use Rattle.tree.specs.MergeLooks.{MergeLooksAt};
ghost use Rattle.verifier.specs.declared.verdict.Cause.TheVariants.{BlobMissing, RootDiffers};
ghost use Rattle.verifier.specs.declared.verdict.Cause.TheVariants.{OriginMissing, InputConflict};
ghost use Rattle.verifier.specs.declared.verdict.Cause.TheVariants.{FrameDiffers, ExitCode};
ghost use Rattle.verifier.specs.declared.verdict.Cause.TheVariants.{OutputUnlisted};
ghost use Rattle.verifier.specs.declared.verdict.Place.{Place};
ghost use Rattle.verifier.specs.declared.verdict.Place.TheVariants.{Root, Step};
ghost use Rattle.verifier.specs.declared.verdict.Verdict.{Verdict};
ghost use Rattle.verifier.specs.declared.verdict.Verdict.TheVariants.{Yes, No};
ghost use Rattle.action_messages.specs.ActionResult.{ActionResultValue};
ghost use Rattle.actions.specs.Outcome.{OutcomeValue, IsOutcome, outputs_form};
ghost use Rattle.std.specs.List.{AllByRecursion};
ghost use Rattle.actions.specs.Recorded.{IsRecorded};
ghost use Rattle.verifier.specs.AsRecorded.{IsAsRecorded, AreAsRecorded, IsFirstUnlikeRecorded};
ghost use Rattle.verifier.specs.AsRecorded.{IsAccepted, IsPlanAsRecorded};
ghost use Rattle.verifier.specs.Together.{Earlier, Resolves};
ghost use Rattle.verifier.specs.StepChecks.{step_check};
ghost use Rattle.verifier.specs.LooksAt.{PlanLooksAt};
ghost use Rattle.verifier.specs.Named.{AsksForMessage, Lists};
ghost use Rattle.verifier.specs.declared.verdict.Cause.{Cause};
ghost use Rattle.verifier.specs.Build.{Outcome, IsTreeOutcome, output_at, State, HasFinishedAll};
ghost use Rattle.verifier.specs.Build.{AreLinesOf, merge_of, opening, origins};
ghost use Rattle.verifier.specs.Headline.{PlanRun, RunsFrom, EveryRunEndsIn, EveryRunIsAsChosen};
ghost use Rattle.verifier.specs.Headline.{NoRunIsStuck, IsNotStuck, IsConcerned, IsBlobAhead};
ghost use Rattle.verifier.specs.BuildStages.{BuildStage, AreYes, last_claim, RunsStage};
ghost use Rattle.verifier.specs.BuildStages.{EndsIn, RunInTurn};
ghost use Rattle.verifier.specs.Recorded.{RecordsAt};
ghost use Rattle.verifier.specs.TwoBuilds.{IsAlike, IsUnlike, AreAlikeBelow, IsInBoth};
ghost use Rattle.verifier.specs.TwoBuilds.{AreReadAlike, DependOn, IsFirstUnlike, AreTwoBuilds};
ghost use Rattle.verifier.specs.Compared.{FindsStep, HasOutcomes, HoldsSteps, IsComparison};
ghost use Rattle.verifier.specs.Compared.{IsFirstUnlikeAt, RecordedStepValue, actions_of};
ghost use Rattle.verifier.specs.declared.comparing.Comparison.{Comparison};
ghost use Rattle.verifier.specs.declared.comparing.Comparison.TheVariants.{Alike, Unlike};
ghost use Rattle.verifier.specs.TwoSteps as two;
ghost use Rattle.verifier.specs.Unbuilt.{IsOfLines, NoRunStarts, NoRunHasRoot};
ghost use Rattle.verifier.specs.Unbuilt.{IsOfAction, NoRunHasAction, EveryRunEndsStep};
ghost use Rattle.verifier.specs.Unbuilt.{EndsWithCode, MakesUnlisted};
ghost use Rattle.verifier.specs.Verdict.{IsVerdict, IsYes};
ghost use Rattle.verifier.specs.TwoTellings.{TellsMore, TellAlike, IsForMissing};

use std::alloc::Allocator;

/// Every complete run of a valid plan that is as recorded ends in exactly the claimed root, no run
/// of it is stuck and every one can be finished, and each runs the recorded actions and comes to
/// the recorded outcomes. A law: it does nothing.
pub fn recorded_plans_end_in_the_claim()
    ensures ends { (blobs results : Blobs) (sources : DigestValue) (plan : PlanValue)
        (recorded : List DigestValue) (claim : DigestValue) → IsPlan plan
        → IsPlanAsRecorded blobs results sources plan recorded claim
        → EveryRunEndsIn blobs results sources plan recorded claim }
    ensures unstuck { (blobs results : Blobs) (sources : DigestValue) (plan : PlanValue)
        (recorded : List DigestValue) (claim : DigestValue) → IsPlan plan
        → IsPlanAsRecorded blobs results sources plan recorded claim
        → NoRunIsStuck blobs results sources plan recorded }
    ensures chosen { (blobs results : Blobs) (sources : DigestValue) (plan : PlanValue)
        (recorded : List DigestValue) (claim : DigestValue) → IsPlan plan
        → IsPlanAsRecorded blobs results sources plan recorded claim
        → EveryRunIsAsChosen blobs results sources plan recorded }
{}

/// Where each of some stages has a yes, from the claim of the stage before it, complete runs of all
/// of them, one after another, end in a tree with the last claim. No run of a stage is ever stuck,
/// and what a complete one made is there, for the next to begin from. A law: it does nothing.
pub fn stages_end_in_the_last_claim<A: Allocator>()
    ensures ends { (sources : DigestValue) (stages : List BuildStage) (runs : List PlanRun)
        (t end : Tree Leaf) → AreYes A sources stages
        → IsOrdered t → root (form t) ≡ sources → RunInTurn t stages runs end
        → root (form end) ≡ last_claim sources stages }
    ensures unstuck { (sources : DigestValue) (stages : List BuildStage) (runs : List PlanRun)
        (t between : Tree Leaf) (stage : BuildStage) (run : PlanRun)
        → AreYes A sources (stages ++ stage ∷ [])
        → IsOrdered t → root (form t) ≡ sources → RunInTurn t stages runs between
        → RunsStage between stage run
        → IsNotStuck run.table stage.plan run.meaning run.tree run.now }
    ensures made { (sources : DigestValue) (stages : List BuildStage) (runs : List PlanRun)
        (t between : Tree Leaf) (stage : BuildStage) (run : PlanRun)
        → AreYes A sources (stages ++ stage ∷ [])
        → IsOrdered t → root (form t) ≡ sources → RunInTurn t stages runs between
        → RunsStage between stage run → HasFinishedAll stage.plan run.now
        → (end : Tree Leaf) × EndsIn between stage run end }
{}

/// What lines of a plan of version 1 put together is their graft. A law: it does nothing.
pub fn version_one_is_grafted()
    // By digests it is that of the nodes at the origins, and nothing is looked at for it.
    ensures nodes { (blobs : Blobs) (sources : DigestValue) (earlier : Earlier)
        (plan : PlanValue) (lines : List LineValue) (nodes : MergeLines)
        → IsPlan plan → plan.version ≡ One → AreLinesOf plan lines
        → Resolves blobs sources earlier lines nodes
        → (merged blobs nodes).passes (graft (nodes_in nodes)) }
    ensures nothing { (blobs : Blobs) (sources : DigestValue) (earlier : Earlier)
        (plan : PlanValue) (lines : List LineValue) (nodes : MergeLines)
        → IsPlan plan → plan.version ≡ One → AreLinesOf plan lines
        → Resolves blobs sources earlier lines nodes
        → (a : Asked) → MergeLooksAt blobs nodes a → ⊥ }
    // In a run it is that of what stands at the origins.
    ensures trees { (plan : PlanValue) (lines : List LineValue) (t : Tree Leaf) (s : State)
        → IsPlan plan → plan.version ≡ One → AreLinesOf plan lines
        → IsOrdered t → AllByRecursion (λ done. IsTreeOutcome done.1) s.done
        → merge_of t s lines ≡ option_map (λ es. expand (graft es)) (origins t s lines) }
{}

/// A verdict is yes exactly where each step is as recorded and the root is accepted, and there the
/// verdict is that; where it is that the root differs, the plan is as recorded with that root. A
/// law: it does nothing.
pub fn yes_is_as_recorded<A: Allocator>()
    ensures yes { (tells : Telling) (sources : DigestValue) (plan : PlanValue)
        (recorded : List DigestValue) (claim : DigestValue) (v : Verdict A)
        → IsVerdict tells sources plan recorded claim v
        → (IsYes v ↔ IsPlanAsRecorded tells.blobs tells.results sources plan recorded claim) }
    ensures accepted { (tells : Telling) (sources : DigestValue) (plan : PlanValue)
        (recorded : List DigestValue) (claim : DigestValue)
        → IsPlanAsRecorded tells.blobs tells.results sources plan recorded claim
        → IsVerdict {A = A} tells sources plan recorded claim (Yes claim (length plan.steps)) }
    ensures differs { (tells : Telling) (sources : DigestValue) (plan : PlanValue)
        (recorded : List DigestValue) (claim other : DigestValue)
        → IsVerdict {A = A} tells sources plan recorded claim (No Root (RootDiffers other))
        → IsPlanAsRecorded tells.blobs tells.results sources plan recorded other }
    // What is as recorded stays so, whatever more is told.
    ensures stays { (old new : Telling) (sources : DigestValue) (plan : PlanValue)
        (recorded : List DigestValue) (claim : DigestValue)
        → Grows old.blobs new.blobs → Grows old.results new.results
        → IsPlanAsRecorded old.blobs old.results sources plan recorded claim
        → IsPlanAsRecorded new.blobs new.results sources plan recorded claim }
{}

/// The check of a step passes with an outcome exactly where the step is as recorded with that
/// outcome, and where it fails, the step isn't as recorded with any. A law: it does nothing.
pub fn steps_are_as_recorded<A: Allocator>()
    ensures passes { (tells : Telling) (sources : DigestValue) (before : List OutcomeValue)
        (step : StepValue) (d : DigestValue) (o : OutcomeValue)
        → ((step_check {A = A} tells sources before step d).passes o
        ↔ IsAsRecorded tells.blobs tells.results sources before step d o) }
    ensures fails { (tells : Telling) (sources : DigestValue) (before : List OutcomeValue)
        (step : StepValue) (d : DigestValue) (cause : Cause A)
        → AllByRecursion IsOutcome before → (step_check tells sources before step d).fails cause
        → (o : OutcomeValue) → IsAsRecorded tells.blobs tells.results sources before step d o → ⊥ }
{}

/// Where the verdict is no at a step, every step before it is as recorded, and this one isn't;
/// where it is no at the root, every step is as recorded, and the root isn't accepted. A law: it
/// does nothing.
pub fn no_is_unlike_recorded<A: Allocator>()
    ensures step { (tells : Telling) (sources : DigestValue) (plan : PlanValue)
        (recorded : List DigestValue) (claim : DigestValue) (name : List ℕ) (cause : Cause A)
        → IsVerdict tells sources plan recorded claim (No (Step name) cause)
        → IsFirstUnlikeRecorded tells.blobs tells.results sources [] plan.steps recorded name }
    ensures root { (tells : Telling) (sources : DigestValue) (plan : PlanValue)
        (recorded : List DigestValue) (claim : DigestValue) (cause : Cause A)
        → IsVerdict tells sources plan recorded claim (No Root cause)
        → (outcomes : List OutcomeValue)
        × AreAsRecorded tells.blobs tells.results sources [] plan.steps recorded outcomes
        × (IsAccepted tells.blobs sources outcomes plan.root_lines claim → ⊥) }
{}

/// Where the verdict is no since the lines of a step put nothing together, no run ever starts that
/// step, and so none is complete; where it is no since those of the root don't, no run has a root.
/// A law: it does nothing.
pub fn lines_that_fail_stop_every_run<A: Allocator>()
    ensures step { (tells : Telling) (sources : DigestValue) (plan : PlanValue)
        (recorded : List DigestValue) (claim : DigestValue) (name : List ℕ) (cause : Cause A)
        → IsPlan plan → IsVerdict tells sources plan recorded claim (No (Step name) cause)
        → IsOfLines cause
        → NoRunStarts tells.blobs tells.results sources plan recorded name }
    ensures root { (tells : Telling) (sources : DigestValue) (plan : PlanValue)
        (recorded : List DigestValue) (claim : DigestValue) (cause : Cause A)
        → IsPlan plan → IsVerdict tells sources plan recorded claim (No Root cause)
        → IsOfLines cause
        → NoRunHasRoot tells.blobs tells.results sources plan recorded }
{}

/// Where the verdict is no since the recorded action of a step has another frame or another input
/// than the plan's, no run ever runs that action as this step. A law: it does nothing.
pub fn other_actions_are_never_run<A: Allocator>()
    ensures { (tells : Telling) (sources : DigestValue) (plan : PlanValue)
        (recorded : List DigestValue) (claim : DigestValue) (name : List ℕ) (cause : Cause A)
        → IsPlan plan → IsVerdict tells sources plan recorded claim (No (Step name) cause)
        → IsOfAction cause
        → NoRunHasAction tells.blobs tells.results sources plan recorded name }
{}

/// Where the verdict is no since the recorded process of a step failed, or made what its command
/// doesn't list, every run runs that action as this step, and it ends so whenever it finishes: with
/// this exit code, or with an output at this path. A law: it does nothing.
pub fn bad_ends_are_those_of_every_run<A: Allocator>()
    ensures code { (tells : Telling) (sources : DigestValue) (plan : PlanValue)
        (recorded : List DigestValue) (claim : DigestValue) (name : List ℕ) (code : ℤ)
        → IsPlan plan
        → IsVerdict {A = A} tells sources plan recorded claim (No (Step name) (ExitCode code))
        → EveryRunEndsStep tells.blobs tells.results sources plan recorded name
        (EndsWithCode code) }
    ensures unlisted { (tells : Telling) (sources : DigestValue) (plan : PlanValue)
        (recorded : List DigestValue) (claim : DigestValue) (name : List ℕ) (path : List Name)
        → IsPlan plan
        → IsVerdict {A = A} tells sources plan recorded claim (No (Step name) (OutputUnlisted path))
        → EveryRunEndsStep tells.blobs tells.results sources plan recorded name
        (MakesUnlisted path) }
{}

/// Every valid plan with as many recorded digests has a verdict, whatever the source tells: it
/// can't be that none is one. A law: it does nothing.
pub fn plans_have_verdicts<A: Allocator>()
    ensures { (tells : Telling) (sources : DigestValue) (plan : PlanValue)
        (recorded : List DigestValue) (claim : DigestValue)
        → IsDigest sources → IsPlan plan → length recorded ≡ length plan.steps
        → ((v : Verdict A) → IsVerdict tells sources plan recorded claim v → ⊥) → ⊥ }
{}

/// What the checks of a plan look at is a message, by a digest that the record or another message
/// names as a message's, or the result of a recorded action: no file's contents. A law: it does
/// nothing.
pub fn only_messages_are_looked_at<A: Allocator>()
    ensures { (tells : Telling) (sources : DigestValue) (plan : PlanValue)
        (recorded : List DigestValue) (a : Asked) → IsDigest sources → IsPlan plan
        → PlanLooksAt A tells sources plan recorded a → AsksForMessage tells sources recorded a }
{}

/// What the checks of a plan look at is finitely much: it can't be that no list has exactly that,
/// each once. A law: it does nothing.
pub fn what_is_looked_at_is_finite<A: Allocator>()
    ensures { (tells : Telling) (sources : DigestValue) (plan : PlanValue)
        (recorded : List DigestValue)
        → ((list : List Asked) → Lists (PlanLooksAt A tells sources plan recorded) list → ⊥) → ⊥ }
{}

/// Where two builds of one plan from sources with one digest are as recorded, either each step was
/// recorded with one digest and outcomes of one form, and they have one root; or the first step
/// that wasn't ran one action in both, but two outcomes were recorded of it, which differ at a
/// path. That actions are deterministic isn't a premise. A law: it does nothing.
pub fn two_yeses_differ_at_an_action()
    ensures found { (one other : Telling) (sources : DigestValue) (plan : PlanValue)
        (recorded others : List DigestValue) (claim another : DigestValue)
        → AreTwoBuilds one other sources plan recorded others claim another
        → ((AreAlikeBelow one other recorded others (length plan.steps) × (claim ≡ another))
        ⊎ IsFirstUnlike one other plan.steps recorded others) }
    ensures differ { (one other : Telling) (sources : DigestValue) (plan : PlanValue)
        (recorded others : List DigestValue) (claim another : DigestValue)
        → AreTwoBuilds one other sources plan recorded others claim another → claim ≢ another
        → IsFirstUnlike one other plan.steps recorded others }
    // Behind steps that are alike, the next has one digest in both: the outcomes alone may differ.
    ensures next { (one other : Telling) (sources : DigestValue) (plan : PlanValue)
        (recorded others : List DigestValue) (claim another : DigestValue)
        → AreTwoBuilds one other sources plan recorded others claim another
        → (i : ℕ) (step : StepValue) → slice_get plan.steps i ≡ Some step
        → AreAlikeBelow one other recorded others i
        → IsInBoth one other recorded others i }
    // A step whose lines read steps that are alike has one digest in both, and where the root's
    // lines do, the roots are one.
    ensures reads { (one other : Telling) (sources : DigestValue) (plan : PlanValue)
        (recorded others : List DigestValue) (claim another : DigestValue)
        → AreTwoBuilds one other sources plan recorded others claim another
        → (i : ℕ) (step : StepValue) → slice_get plan.steps i ≡ Some step
        → AreReadAlike one other recorded others step.lines
        → IsInBoth one other recorded others i }
    ensures root { (one other : Telling) (sources : DigestValue) (plan : PlanValue)
        (recorded others : List DigestValue) (claim another : DigestValue)
        → AreTwoBuilds one other sources plan recorded others claim another
        → AreReadAlike one other recorded others plan.root_lines → claim ≡ another }
    // Where the roots differ, the root's lines depend on a step that is unlike.
    ensures depends { (one other : Telling) (sources : DigestValue) (plan : PlanValue)
        (recorded others : List DigestValue) (claim another : DigestValue)
        → AreTwoBuilds one other sources plan recorded others claim another → claim ≢ another
        → (i : ℕ) × IsUnlike one other recorded others i
        × DependOn plan.steps plan.root_lines i }
    // Which of them a step is doesn't depend on how its outcomes are read.
    ensures single { (one other : Telling) (recorded others : List DigestValue) (i : ℕ)
        → IsAlike one other recorded others i → IsUnlike one other recorded others i → ⊥ }
{}

/// What is recorded of a plan with a yes is held, and so is what a comparison of two such builds
/// says of their steps. Where no two different Directories or frames, one of each build, share a
/// digest, it finds the step at which `two_yeses_differ_at_an_action`, or else their roots are one.
/// A law: it does nothing.
pub fn comparisons_find_the_step<A: Allocator>()
    ensures held { (tells : Telling) (sources : DigestValue) (plan : PlanValue)
        (recorded : List DigestValue) (claim : DigestValue)
        → IsPlanAsRecorded tells.blobs tells.results sources plan recorded claim
        → length recorded ≡ length plan.steps → HasOutcomes tells recorded }
    ensures alike { (one other : Telling) (ones others : List RecordedStepValue)
        → HoldsSteps one ones → HoldsSteps other others → length others ≡ length ones
        → IsComparison {A = A} ones others Alike
        → AreAlikeBelow one other (actions_of ones) (actions_of others) (length ones) }
    ensures unlike { (one other : Telling) (ones others : List RecordedStepValue) (step : ℕ)
        (path : List Name) → HoldsSteps one ones → HoldsSteps other others
        → IsComparison {A = A} ones others (Unlike step path)
        → IsFirstUnlikeAt one other (actions_of ones) (actions_of others) step path }
    ensures found { (one other : Telling) (sources : DigestValue) (plan : PlanValue)
        (ones others : List RecordedStepValue) (claim another : DigestValue) (c : Comparison A)
        → AreTwoBuilds one other sources plan (actions_of ones) (actions_of others) claim another
        → length ones ≡ length plan.steps → length others ≡ length plan.steps
        → HoldsSteps one ones → HoldsSteps other others → IsComparison ones others c
        → FindsStep one other plan.steps (actions_of ones) (actions_of others) claim another c }
{}

/// What a source tells determines the verdict. A law: it does nothing.
pub fn verdicts_are_single_valued<A: Allocator>()
    ensures { (tells : Telling) (sources : DigestValue) (plan : PlanValue)
        (recorded : List DigestValue) (claim : DigestValue) (v w : Verdict A)
        → IsVerdict tells sources plan recorded claim v
        → IsVerdict tells sources plan recorded claim w → v ≡ w }
{}

/// A verdict depends on nothing but what its checks look at: where two sources tell the same there,
/// or nothing both, they have one verdict, and the checks look at the same. A law: it does nothing.
pub fn verdicts_depend_on_what_is_looked_at<A: Allocator>()
    ensures verdict { (one other : Telling) (sources : DigestValue) (plan : PlanValue)
        (recorded : List DigestValue) (claim : DigestValue) (v : Verdict A)
        → TellAlike (PlanLooksAt A one sources plan recorded) one other
        → (IsVerdict one sources plan recorded claim v
        ↔ IsVerdict other sources plan recorded claim v) }
    ensures looks { (one other : Telling) (sources : DigestValue) (plan : PlanValue)
        (recorded : List DigestValue) (a : Asked)
        → TellAlike (PlanLooksAt A one sources plan recorded) one other
        → (PlanLooksAt A one sources plan recorded a
        ↔ PlanLooksAt A other sources plan recorded a) }
{}

/// A yes stays a yes when a source tells more. So does each no that isn't for something missing. A
/// law: it does nothing.
pub fn verdicts_stay_when_more_is_told<A: Allocator>()
    ensures yes { (fewer more : Telling) (sources : DigestValue) (plan : PlanValue)
        (recorded : List DigestValue) (claim root : DigestValue) (steps : ℕ)
        → TellsMore fewer more
        → IsVerdict {A = A} fewer sources plan recorded claim (Yes root steps)
        → IsVerdict {A = A} more sources plan recorded claim (Yes root steps) }
    ensures no { (fewer more : Telling) (sources : DigestValue) (plan : PlanValue)
        (recorded : List DigestValue) (claim : DigestValue) (place : Place A) (cause : Cause A)
        → TellsMore fewer more → (IsForMissing (No place cause) → ⊥)
        → IsVerdict fewer sources plan recorded claim (No place cause)
        → IsVerdict more sources plan recorded claim (No place cause) }
{}

/// Where a source only forgets, a yes becomes a yes or a no for something missing, and a no stays
/// that no or becomes one for something missing. A law: it does nothing.
pub fn what_is_forgotten_is_missing<A: Allocator>()
    ensures same { (more fewer : Telling) (sources : DigestValue) (plan : PlanValue)
        (recorded : List DigestValue) (claim : DigestValue) (v w : Verdict A)
        → TellsMore fewer more
        → IsVerdict more sources plan recorded claim v
        → IsVerdict fewer sources plan recorded claim w
        → ((w ≡ v) ⊎ IsForMissing w) }
    // A blob that is missing then and wasn't before was told before.
    ensures told { (more fewer : Telling) (sources : DigestValue) (plan : PlanValue)
        (recorded : List DigestValue) (claim d : DigestValue) (v : Verdict A) (place : Place A)
        → TellsMore fewer more
        → IsVerdict more sources plan recorded claim v → v ≢ No place (BlobMissing d)
        → IsVerdict fewer sources plan recorded claim (No place (BlobMissing d))
        → (bytes : List ℕ) × (more.blobs d ≡ Some bytes) }
{}

/// The premises of what a yes says can be met together, where the verdict is yes: by a build of two
/// steps, one of which is started three times and lost once. A law: it does nothing.
pub fn a_build_meets_the_premises()
    ensures plan { IsPlan two.plan }
    ensures accepted { IsPlanAsRecorded two.blobs two.results two.sources two.plan
        two.recorded two.claim }
    ensures run { RunsFrom two.blobs two.results two.sources two.plan two.recorded two.run }
    ensures complete { HasFinishedAll two.plan two.end }
    // So are they where nothing has happened yet, and whatever may happen then, no two different
    // blobs share a digest.
    ensures fresh { RunsFrom two.blobs two.results two.sources two.plan two.recorded
        (record two.run { events = []; now = opening }) }
    ensures open { NoClash (λ b. IsConcerned two.blobs two.plan two.run.meaning two.tree
        two.run.chosen [] b
        ⊎ IsBlobAhead two.run.table two.plan two.run.meaning two.tree opening b) }
    // Nor do they after the run.
    ensures ahead { NoClash (λ b. IsConcerned two.blobs two.plan two.run.meaning two.tree
        two.run.chosen two.run.events b
        ⊎ IsBlobAhead two.run.table two.plan two.run.meaning two.tree two.run.now b) }
    // So are those of `plans_have_verdicts`.
    ensures counted { IsDigest two.sources × (length two.recorded ≡ length two.plan.steps) }
{}

/// The premises of what a yes says can be met together by a plan of version 2 whose lines meet: by
/// the same two steps, where the root has a file put into a directory. A law: it does nothing.
pub fn a_merge_meets_the_premises()
    ensures plan { IsPlan two.meeting_plan }
    ensures meets { NoTargetsOverlap two.meeting_plan.root_lines → ⊥ }
    ensures accepted { IsPlanAsRecorded two.blobs two.results two.sources two.meeting_plan
        two.recorded two.meeting_claim }
    ensures run { RunsFrom two.blobs two.results two.sources two.meeting_plan two.recorded
        two.run }
    ensures complete { HasFinishedAll two.meeting_plan two.end }
{}

/// The premises of what a yes says can be met together by a plan whose step reads the sources: by
/// the second of the two steps alone, where they have what it reads. A law: it does nothing.
pub fn a_source_meets_the_premises()
    ensures plan { IsPlan two.reading_plan }
    ensures accepted { IsPlanAsRecorded two.reading_blobs two.results two.input_digest
        two.reading_plan (two.use_action_digest ∷ []) two.claim }
    ensures run { RunsFrom two.reading_blobs two.results two.input_digest
        two.reading_plan (two.use_action_digest ∷ []) two.reading_run }
    ensures complete { HasFinishedAll two.reading_plan two.reading_run.now }
{}

/// The premises of what is said of stages can be met together: by the build of two steps, and the
/// same once more from what it made. A law: it does nothing.
pub fn stages_meet_the_premises<A: Allocator>()
    ensures yes { AreYes A two.sources (two.stage ∷ two.stage ∷ []) }
    ensures runs { RunInTurn two.tree (two.stage ∷ two.stage ∷ [])
        (two.run ∷ record two.run { tree = two.built } ∷ []) two.built }
{}

/// The premises of what a no says can be met: by the build of two steps, where the source has told
/// nothing, and where another root is claimed. A law: it does nothing.
pub fn a_no_meets_the_premises<A: Allocator>()
    ensures step { IsVerdict {A = A} two.silent two.sources two.plan two.recorded two.claim
        (No (Step (codes "gen")) (BlobMissing two.gen_action_digest)) }
    ensures root { IsVerdict {A = A} two.telling two.sources two.plan two.recorded two.sources
        (No Root (RootDiffers two.claim)) }
    // Where the lines of a step are in conflict, after a run of the step before it.
    ensures conflict { IsPlan two.clashing_plan × IsVerdict {A = A} two.telling two.sources
        two.clashing_plan two.recorded two.claim
        (No (Step (codes "use")) (InputConflict (codes "data" ∷ []))) }
    ensures before { RunsFrom two.blobs two.results two.sources two.clashing_plan
        (take 1 two.recorded) two.clashing_run }
    // Where the root reads what no step makes, after a complete run.
    ensures missing { IsPlan two.rootless_plan × IsVerdict {A = A} two.telling two.sources
        two.rootless_plan two.recorded two.claim (No Root (OriginMissing (codes "out" ∷ []))) }
    ensures complete { RunsFrom two.blobs two.results two.sources two.rootless_plan
        two.recorded two.run × HasFinishedAll two.rootless_plan two.end }
    // Where a step has another frame, while both steps run.
    ensures other { IsPlan two.other_plan × IsVerdict {A = A} two.telling two.sources
        two.other_plan two.recorded two.claim (No (Step (codes "use")) FrameDiffers) }
    ensures running { RunsFrom two.blobs two.results two.sources two.other_plan
        (take 1 two.recorded) two.other_run }
    // Where the first step failed, or made what its command doesn't list, after a run of it.
    ensures failed { IsVerdict {A = A} (two.recording two.failed_result) two.sources two.plan
        two.recorded two.claim (No (Step (codes "gen")) (ExitCode (pos 1))) }
    ensures fails { RunsFrom two.blobs (two.recording two.failed_result).results two.sources
        two.plan (take 1 two.recorded) (two.ended_run two.failed) }
    ensures unlisted { IsVerdict {A = A} (two.recording two.use_result) two.sources two.plan
        two.recorded two.claim (No (Step (codes "gen")) (OutputUnlisted (codes "res" ∷ []))) }
    ensures makes { RunsFrom two.blobs (two.recording two.use_result).results two.sources
        two.plan (take 1 two.recorded) (two.ended_run two.uses.1) }
{}

/// The premises of what is said of two builds can be met together, where the roots differ: by the
/// build of two steps, and once more where the second step made an executable file. A law: it does
/// nothing.
pub fn two_builds_meet_the_premises()
    ensures builds { AreTwoBuilds two.telling two.rerun two.sources two.plan two.recorded
        two.recorded two.claim two.rerun_claim }
    ensures differ { two.claim ≢ two.rerun_claim }
    // The first step is alike, and the second isn't.
    ensures alike { IsAlike two.telling two.rerun two.recorded two.recorded 0 }
    ensures unlike { IsUnlike two.telling two.rerun two.recorded two.recorded 1 }
{}

/// The premises of what is said of two sources can be met together: where all is forgotten that was
/// told of the build of two steps, where more is told, and where they are alike at what is looked
/// at. A law: it does nothing.
pub fn two_sources_meet_the_premises<A: Allocator>()
    ensures less { TellsMore two.silent two.telling }
    ensures yes { IsVerdict {A = A} two.telling two.sources two.plan two.recorded two.claim
        (Yes two.claim 2) }
    ensures no { IsVerdict {A = A} two.silent two.sources two.plan two.recorded two.claim
        (No (Step (codes "gen")) (BlobMissing two.gen_action_digest)) }
    // More is told after a yes, and after a no for another root.
    ensures more { TellsMore two.telling two.lavish }
    ensures other { IsVerdict {A = A} two.telling two.sources two.plan two.recorded two.sources
        (No Root (RootDiffers two.claim)) }
    // Where nothing is told, no result is looked at.
    ensures alike { TellAlike (PlanLooksAt A two.silent two.sources two.plan two.recorded)
        two.silent (record two.silent { results = two.results }) }
{}

/// What the words of a record and of outcomes come to. A law: it does nothing.
pub fn outcomes_are_maps()
    // An outcome has at a path what stands there below the one output that is at or above it.
    ensures outputs { (o : Outcome) (p : List Name) (e : Entry Leaf) → IsTreeOutcome o
        → (output_at o.outputs p ≡ Some e
        ↔ ((x : List Name × Entry Leaf) × Contains o.outputs x × (q : List Name)
        × (p ≡ x.0 ++ q) × (below_entry q (Some x.1) ≡ Some e))) }
    // The outcome that a result stands for has at each output path what the result records there.
    ensures recorded { (blobs : Blobs) (r : ActionResultValue) (o : OutcomeValue) (p : List Name)
        (x : NodeValue) → IsRecorded blobs r o
        → (Contains (outputs_form o.outputs) (p, x) ↔ RecordsAt blobs r p x) }
{}
