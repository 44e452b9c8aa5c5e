ghost use Rattle.std.specs.Prelude.{◌≡◌, ◌↔◌, ◌<◌, ℕ, List, Option, Some, codes, true};
ghost use Rattle.std.specs.List.{All};
ghost use Rattle.plan.specs.Escape.{escaped};
ghost use Rattle.plan.specs.declared.error.PlanError.{PlanError};
ghost use Rattle.clap.specs.Words.{Row, first_of};
ghost use Rattle.commands.specs.Artifact.{IsNoOfFolder, IsYesOfFolder};
ghost use Rattle.commands.specs.Verified.{OnAsked, VerifiesAsked};
ghost use Rattle.commands.specs.declared.ended.Ended.TheVariants.{Done, No};
ghost use Rattle.commands.specs.declared.ended.Note.TheVariants.{Differs};
ghost use Rattle.std.specs.declared.alloc.Global.{Global};
ghost use Rattle.tree.specs.Mismatch.{mismatch_value};
ghost use Rattle.tree.specs.declared.mismatch.Mismatch.{Mismatch};
ghost use Rattle.commands.specs.Hints.{IsEscapedText, TellsOfFault, is_escaped};
ghost use Rattle.commands.specs.declared.hint.Hint.{Hint};
ghost use Rattle.commands.specs.Composed.{EndInClaim};

use crate::world::World;

/// What hints say of a fault. A law: it does nothing.
pub fn a_fault_has_one_hint()
    // No two hints tell of a fault.
    ensures one { (text : List ℕ) (error : PlanError) (h i : Hint)
        → TellsOfFault text error h → TellsOfFault text error i → h ≡ i }
    // The words that need no more escapes are plain bytes and escapes, one after another.
    ensures words { (word : List ℕ) → (is_escaped 0 word ≡ true) ↔ IsEscapedText word }
    // So is each text of bytes as a plan spells it.
    ensures spelled { (text : List ℕ) → All (λ b. b < 256) text
        → is_escaped 0 (escaped text) ≡ true }
{}

/// What a yes says of a folder that stands for the claim. A law: it does nothing.
pub fn a_yes_is_of_the_folder<W: World>(_world: &W)
    // A tree was read there, the claim is its digest, and each complete run of the plan, or of the
    // stages one after another, ends in that tree.
    ensures { (options : List Row) (place : List ℕ) (old new : Option (List ℕ))
        → first_of (codes "artifact") options ≡ Some place
        → VerifiesAsked (W.sees _world.now) options old new Done
        → IsYesOfFolder (W.sees _world.now) options place }
{}

/// What the note of a folder says after a no: where the tree that was read there, and the one in
/// which builds end, first differ. A law: it does nothing.
pub fn a_no_says_where<W: World>(_world: &W)
    ensures { (options : List Row) (place : List ℕ) (old new : Option (List ℕ))
        (x : Mismatch Global) → first_of (codes "artifact") options ≡ Some place
        → VerifiesAsked (W.sees _world.now) options old new (No (Some (Differs x)))
        → IsNoOfFolder (W.sees _world.now) options place (mismatch_value x) }
{}

/// What a yes says of a build in stages, be its evidence a folder or an archive: each stage has a
/// yes, and whoever builds all, one after another, ends in the claim. A law: it does nothing.
pub fn answered_stages_end_in_the_claim<W: World>(_world: &W)
    ensures { (options : List Row) (old new : Option (List ℕ))
        → VerifiesAsked (W.sees _world.now) options old new Done
        → OnAsked (W.sees _world.now) options (λ _ _. Unit {0}) EndInClaim }
{}
