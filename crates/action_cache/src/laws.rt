ghost use Rattle.std.specs.Prelude.{◌≡◌, ℕ, true, false, List, [], ◌∷◌, ◌++◌, Some, None, codes};
ghost use Rattle.std.specs.List.{AllByRecursion};
ghost use Rattle.sha2.specs.Sha256.{sha256};
ghost use Rattle.wire.specs.Bytes.{IsBytes, AreBytes};
ghost use Rattle.blob_digest.specs.DigestValue.{DigestValue};
ghost use Rattle.messages.specs.Tree.{TreeValue, IsTree, tree_bytes};
ghost use Rattle.messages.specs.declared.error.MessageError.{MessageError};
ghost use Rattle.action_messages.specs.ActionResult.{ActionResultValue};
ghost use Rattle.action_messages.specs.Reads.{Reads};
ghost use Rattle.action_messages.specs.Refused.{IsRefusedResult};
ghost use Rattle.action_cache.specs.References.{Reader, Reference, refers};
ghost use Rattle.action_cache.specs.Reading.{referred_to, references_in, files_in, files_in_tree};
ghost use Rattle.action_cache.specs.Machine.{Marked, empty_cache, found, given, under, get_blob};
ghost use Rattle.action_cache.specs.Machine.{get_result};
ghost use Rattle.action_cache.specs.Asking.{CacheAsk, PutBlob, PutResult, GetResult, Pin, Unpin};
ghost use Rattle.action_cache.specs.Asking.{after, AreWhole, StaysPinned, IsWithin};

/// What the bytes of a result refer to. A law: it does nothing.
pub fn results_refer_to_what_is_read()
    // Bytes that are read as a result refer to what it refers to.
    ensures read { (r : ActionResultValue) (bytes : List ℕ)
        → IsBytes bytes → Reads r bytes → references_in bytes ≡ Some (referred_to r) }
    // No other bytes refer to anything.
    ensures only { (bytes : List ℕ) (references : List Reference)
        → IsBytes bytes → references_in bytes ≡ Some references
        → (r : ActionResultValue) × Reads r bytes × (references ≡ referred_to r) }
    // Bytes that are refused refer to nothing.
    ensures refused { (e : MessageError) (bytes : List ℕ)
        → IsBytes bytes → IsRefusedResult e bytes → references_in bytes ≡ None }
{}

/// The files of a Tree. A law: it does nothing.
pub fn trees_have_the_files_that_are_read()
    // Bytes are read as a Tree where they are its encoding, and give its files.
    ensures read { (t : TreeValue) (bytes : List ℕ)
        → AreBytes bytes → IsTree t → bytes ≡ tree_bytes t
        → files_in bytes ≡ Some (files_in_tree t) }
    // No other bytes give files.
    ensures only { (bytes : List ℕ) (files : List DigestValue)
        → IsBytes bytes → files_in bytes ≡ Some files
        → (t : TreeValue) × IsTree t × (bytes ≡ tree_bytes t) × (files ≡ files_in_tree t) }
{}

/// What holds of a cache, whatever was asked of it since it held nothing, in whatever order, and
/// however results and Trees are read. A law: it does nothing.
pub fn caches_keep_what_is_pinned()
    // A pinned result stays, and all to which it refers, until it is unpinned itself.
    ensures pinned { (reader : Reader) (limit result_limit : ℕ) (before later : List CacheAsk)
        (h : List ℕ) (r : Marked)
        → under h (after reader (empty_cache limit result_limit) before).results ≡ Some r
        → r.pinned ≡ true
        → AllByRecursion (λ ask. ask ≡ Unpin h → ⊥) later
        → StaysPinned reader (after reader (empty_cache limit result_limit) before)
        (after reader (empty_cache limit result_limit) (before ++ later)) h r }
    // All to which an answered result refers is held when it is answered.
    ensures whole { (reader : Reader) (limit result_limit : ℕ) (asks : List CacheAsk)
        (h bytes : List ℕ)
        → (get_result reader (after reader (empty_cache limit result_limit) asks) h).0 ≡ given bytes
        → AreWhole reader
        (get_result reader (after reader (empty_cache limit result_limit) asks) h).1
        bytes }
    // A blob that is answered has the hash that was asked for.
    ensures hash { (reader : Reader) (limit result_limit : ℕ) (asks : List CacheAsk)
        (h bytes : List ℕ)
        → (get_blob reader (after reader (empty_cache limit result_limit) asks) h).0 ≡ given bytes
        → sha256 bytes ≡ h }
    // Costs stay within the limits.
    ensures within { (reader : Reader) (limit result_limit : ℕ) (asks : List CacheAsk)
        → IsWithin (after reader (empty_cache limit result_limit) asks) }
{}

/// Asks that meet the premises of `caches_keep_what_is_pinned`: a blob is put, and a result that
/// refers to it is put and pinned, and then looked up. An example: it does nothing.
pub fn a_pinned_result_meets_the_premises()
    ensures { let hash = sha256 (codes "abc") in
        let blob : Reference =
        record { digest = record { hash = hash; size = 3 }; is_tree = false } in
        let reader : Reader = record { outputs = λ _. Some (blob ∷ []); files = λ _. None } in
        let s = after reader (empty_cache 3 64)
        (PutBlob hash (codes "abc") ∷ PutResult [] [] ∷ Pin [] ∷ []) in
        (under [] s.results ≡ Some (record { bytes = []; pinned = true }))
        × (refers (found reader s) reader [] hash ≡ true)
        × AllByRecursion (λ ask. ask ≡ Unpin [] → ⊥) (GetResult [] ∷ [])
        × ((get_result reader s []).0 ≡ given [])
        × ((get_blob reader s hash).0 ≡ given (codes "abc")) }
{}
