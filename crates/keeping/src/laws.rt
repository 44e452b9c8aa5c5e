ghost use Rattle.std.specs.Prelude.{◌++◌, List, ℕ};
ghost use Rattle.archive.specs.Writing.{EntryValue, IsArchiveOf};
ghost use Rattle.keeping.specs.Told.{ReadsTold, told_files};
ghost use Rattle.keeping.specs.declared.answers.Answers.{Answers};

use std::alloc::Allocator;

/// An archive in which the files of what was told stand, between others, reads each back under its
/// hash. A law: it does nothing.
pub fn what_was_told_is_read_back<A: Allocator>()
    ensures { (archive part : List ℕ) (texts others : List EntryValue) (kept : Answers A)
        → IsArchiveOf archive (texts ++ told_files part kept ++ others)
        → ReadsTold archive part kept }
{}
