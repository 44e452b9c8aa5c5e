ghost use Rattle.std.specs.Prelude.{◌≡◌, List, ℕ};
ghost use Rattle.wire.specs.Bytes.{IsBytes, AreBytes};
ghost use Rattle.wire.specs.AnySpelling.{SpellsAny};
ghost use Rattle.wire.specs.Record.{Record};
ghost use Rattle.messages.specs.declared.error.MessageError.{MessageError};
ghost use Rattle.action_messages.specs.ActionResult.{ActionResultValue, IsActionResult};
ghost use Rattle.action_messages.specs.ActionResult.{action_result_bytes};
ghost use Rattle.action_messages.specs.OutputDirectory.{OutputDirectoryValue};
ghost use Rattle.action_messages.specs.OutputFile.{OutputFileValue};
ghost use Rattle.action_messages.specs.OutputSymlink.{OutputSymlinkValue};
ghost use Rattle.action_messages.specs.Reads.{HaveSameFields, Reads};
ghost use Rattle.action_messages.specs.Refused.{IsRefusedResult};

use crate::output::{OutputDirectory, OutputFile, OutputSymlink};
use std::alloc::Allocator;

/// What bytes are read as by the tolerant rules. A law: it does nothing.
pub fn results_are_read_as_one_value()
    // No bytes are read as two results.
    ensures once { (m n : ActionResultValue) (bytes : List ℕ)
        → Reads m bytes → Reads n bytes → m ≡ n }
    // The encoding of a result is read as it.
    ensures canonical { (m : ActionResultValue) (bytes : List ℕ) → AreBytes bytes
        → IsActionResult m → bytes ≡ action_result_bytes m → Reads m bytes }
    // How the records of different fields stand to each other doesn't matter.
    ensures reordered { (m : ActionResultValue) (bytes other : List ℕ) (rs ss : List Record)
        → SpellsAny bytes rs → SpellsAny other ss → HaveSameFields rs ss
        → Reads m bytes → Reads m other }
    // No bytes are refused in two ways, and none that are read.
    ensures refused_once { (d e : MessageError) (bytes : List ℕ)
        → IsRefusedResult d bytes → IsRefusedResult e bytes → d ≡ e }
    ensures excluded { (m : ActionResultValue) (e : MessageError) (bytes : List ℕ)
        → IsBytes bytes → Reads m bytes → IsRefusedResult e bytes → ⊥ }
{}

/// What `clone` answers of an output is the output again. A law: it does nothing.
pub fn cloned_outputs_are_equal<A: Allocator + Clone>()
    ensures files { (a b : OutputFileValue) → ⟦<OutputFile<A> as Clone>⟧.is_clone a b → a ≡ b }
    ensures directories { (a b : OutputDirectoryValue)
        → ⟦<OutputDirectory<A> as Clone>⟧.is_clone a b → a ≡ b }
    ensures symlinks { (a b : OutputSymlinkValue)
        → ⟦<OutputSymlink<A> as Clone>⟧.is_clone a b → a ≡ b }
{}
