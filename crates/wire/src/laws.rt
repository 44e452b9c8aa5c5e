ghost use Rattle.std.specs.Prelude.{◌≡◌, ◌↔◌, List, ℕ, Err};
ghost use Rattle.wire.specs.declared.error.WireError.{WireError};
ghost use Rattle.wire.specs.AnySpelling.{SpellsAny, HasAnyVarintFault};
ghost use Rattle.wire.specs.Record.{Record};
ghost use Rattle.wire.specs.Spelling.{Spells};
ghost use Rattle.wire.specs.Bytes.{IsBytes};
ghost use Rattle.wire.specs.Reading.{record_at, any_record_at, HasRecordFault, HasAnyRecordFault};
ghost use Rattle.wire.specs.Varint.{varint_at, any_varint_at, HasVarintFault};

/// A reader tells exactly the fault that the bytes have, with numbers in their shortest form and in
/// any. A law: it does nothing.
pub fn faults_are_those_of_the_bytes()
    ensures varints { (bytes : List ℕ) (e : WireError)
        → varint_at bytes ≡ Err e ↔ HasVarintFault e bytes }
    ensures any_varints { (bytes : List ℕ) (e : WireError)
        → any_varint_at bytes ≡ Err e ↔ HasAnyVarintFault e bytes }
    ensures records { (bytes : List ℕ) (e : WireError) → IsBytes bytes
        → (record_at bytes ≡ Err e ↔ HasRecordFault e bytes) }
    ensures any_records { (bytes : List ℕ) (e : WireError) → IsBytes bytes
        → (any_record_at bytes ≡ Err e ↔ HasAnyRecordFault e bytes) }
{}

/// What bytes spell where numbers may have more groups than they need. A law: it does nothing.
pub fn any_spelling()
    // No bytes spell two lists of records.
    ensures one_list { (bytes : List ℕ) (rs ss : List Record)
        → SpellsAny bytes rs → SpellsAny bytes ss → rs ≡ ss }
    // The spelling that is written is one of them.
    ensures written { (bytes : List ℕ) (rs : List Record)
        → Spells bytes rs → SpellsAny bytes rs }
{}
