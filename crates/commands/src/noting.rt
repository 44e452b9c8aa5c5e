ghost use Rattle.std.specs.Prelude.{◌≡◌, ◌++◌, IfOk, OnOk, option_map};
ghost use Rattle.commands.specs.FolderRead.{value_of_read};
ghost use Rattle.commands.specs.Noted.{IsNoteOn, NamesFirst, known_of, with_note};
ghost use Rattle.tree.specs.Folded.{items_of};

use crate::artifact::FolderRead;
use crate::ended::{Ended, Note};
use std::alloc::{AllocError, Global};
use tree::first_mismatch;
use verifier::Made;

/// Appends copies of encodings.
fn push_copies(
    alloc: Global,
    known: &mut Vec<Vec<u8>>,
    encodings: &[Vec<u8>],
) -> Result<(), AllocError>
    ensures { OnOk result
        (items_of known.new.items ≡ items_of known.old.items ++ items_of encodings.now) }
{
    for encoding in encodings {
        known.push(Vec::from_slice(alloc, encoding)?)?;
    }
    Ok(())
}

/// The Directories that are known of what builds make, and of a folder.
fn known_directories(
    alloc: Global,
    made: &Made<Global>,
    folder: &FolderRead,
) -> Result<Vec<Vec<u8>>, AllocError>
    ensures { IfOk result (λ known. items_of known.items
        ≡ known_of made.now (value_of_read folder.now)) }
{
    let mut known = Vec::new(alloc);
    push_copies(alloc, &mut known, &made.directories)?;
    push_copies(alloc, &mut known, &folder.directories)?;
    Ok(known)
}

/// Where a folder isn't what builds make.
fn mismatch_note(
    alloc: Global,
    made: &Made<Global>,
    folder: &FolderRead,
) -> Result<Option<Note>, AllocError>
    ensures { IfOk result (NamesFirst made.now (value_of_read folder.now)) }
{
    let known = known_directories(alloc, made, folder)?;
    match first_mismatch(alloc, &known, &made.root, &folder.digest)? {
        Some(mismatch) => Ok(Some(Note::Differs(mismatch))),
        None => Ok(None),
    }
}

/// The note on a verdict: where the folder that stands for the claim isn't what builds make, if
/// they make something else.
pub(crate) fn note_of(
    alloc: Global,
    made: &Option<Made<Global>>,
    folder: &Option<FolderRead>,
) -> Result<Option<Note>, AllocError>
    ensures { IfOk result (IsNoteOn made.now (option_map value_of_read folder.now)) }
{
    match (made, folder) {
        (Some(made), Some(folder)) => mismatch_note(alloc, made, folder),
        _ => Ok(None),
    }
}

/// With a note, where a no has none.
pub(crate) fn with_note(ended: Ended, note: Option<Note>) -> Ended
    ensures { result ≡ with_note ended note }
{
    match ended {
        Ended::No(None) => Ended::No(note),
        ended => ended,
    }
}
