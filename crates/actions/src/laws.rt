ghost use Rattle.std.specs.Prelude.{◌≡◌, List, ℕ};
ghost use Rattle.blob_source.specs.Source.{Blobs};
ghost use Rattle.blob_source.specs.Told.{Fault};
ghost use Rattle.tree.specs.Lookup.{Looked};
ghost use Rattle.tree.specs.Merging.{WithinValue};
ghost use Rattle.action_messages.specs.ActionResult.{ActionResultValue};
ghost use Rattle.action_messages.specs.OutputDirectory.{OutputDirectoryValue};
ghost use Rattle.action_messages.specs.Outputs.{RecordedValue, AreOutputs};
ghost use Rattle.actions.specs.Outcome.{OutcomeValue, IsOutcome};
ghost use Rattle.actions.specs.OutcomeLookup.{LooksIn, LiesWithin};
ghost use Rattle.actions.specs.Recorded.{IsRecorded, IsFirstTreeFault};

/// What a result and a source determine. A law: it does nothing.
pub fn outcomes_are_single_valued()
    // The outputs of a result stand in one order.
    ensures outputs { (r : ActionResultValue) (xs ys : List RecordedValue) → AreOutputs r xs
        → AreOutputs r ys → xs ≡ ys }
    // A result stands for one outcome, or one fault is the first, and not both.
    ensures recorded { (blobs : Blobs) (r : ActionResultValue) (o p : OutcomeValue)
        → IsRecorded blobs r o → IsRecorded blobs r p → o ≡ p }
    ensures faults { (blobs : Blobs) (ds : List OutputDirectoryValue) (f g : Fault)
        → IsFirstTreeFault blobs ds f → IsFirstTreeFault blobs ds g → f ≡ g }
    ensures excluded { (blobs : Blobs) (r : ActionResultValue) (o : OutcomeValue) (f : Fault)
        → IsRecorded blobs r o → IsFirstTreeFault blobs r.directories f → ⊥ }
    // A look-up in an outcome comes to one thing.
    ensures looked { (o : OutcomeValue) (path : List (List ℕ)) (r s : Looked) → IsOutcome o
        → LooksIn o path r → LooksIn o path s → r ≡ s }
    ensures within { (o : OutcomeValue) (path : List (List ℕ)) (v w : WithinValue) → IsOutcome o
        → LiesWithin o path v → LiesWithin o path w → v ≡ w }
{}
