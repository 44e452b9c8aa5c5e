ghost use Rattle.std.specs.Prelude.{◌≡◌, ◌==◌, ℕ, List, [], ◌∷◌, Some, true};
ghost use Rattle.std.specs.List.{filter};
ghost use Rattle.eviction.specs.Kept.{Held, Kept, is_pinned, others};
ghost use Rattle.eviction.specs.Entering.{entered, can_enter, evicted, new_entry, FitsWithout};
ghost use Rattle.eviction.specs.Entering.{IsLeast};

use std::hash::Hash;

/// Where an entry enters, it evicts the least number of the last unpinned others without which
/// the costs fit. A law: it does nothing.
pub fn entering_gives_up_the_fewest<K: Copy + Eq + Hash>()
    ensures { (s : Kept K) (k : K) (bytes : List ℕ)
        → can_enter K.eq s k bytes ≡ true
        → IsLeast (FitsWithout K.eq s k bytes) (evicted K.eq s k bytes) }
{}

/// Where an entry enters, all pinned others stay, in their order. A law: it does nothing.
pub fn entering_keeps_what_is_pinned<K: Copy + Eq + Hash>()
    ensures { (s t : Kept K) (k : K) (bytes : List ℕ)
        → entered K.eq s k bytes ≡ Some t
        → filter is_pinned t.entries
        ≡ filter is_pinned (new_entry K.eq s k bytes ∷ others K.eq k s.entries) }
{}

/// A store and an entry that meet the premises of both laws: it enters in place of another. An
/// example: it does nothing.
pub fn an_entry_meets_the_premises()
    ensures { let old : Held = record { bytes = 7 ∷ []; pins = 0 } in
        let new : Held = record { bytes = 8 ∷ []; pins = 0 } in
        let s : Kept ℕ = record { entries = (1, old) ∷ []; limit = 1; overhead = 0 } in
        let t : Kept ℕ = record { entries = (2, new) ∷ []; limit = 1; overhead = 0 } in
        (can_enter (λ a b. a == b) s 2 (8 ∷ []) ≡ true)
        × (entered (λ a b. a == b) s 2 (8 ∷ []) ≡ Some t) }
{}
