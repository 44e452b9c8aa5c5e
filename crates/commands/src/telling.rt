ghost use Rattle.std.specs.Prelude.{◌≡◌, ℕ, List, IfOk, IfErr, OnOk, OnErr, codes};
ghost use Rattle.std.specs.Prelude.{string_bytes};
ghost use Rattle.std.specs.Io.KnownBytes.{Appends};
ghost use Rattle.commands.specs.ErrorText.{IsErrorText};
ghost use Rattle.commands.specs.Refusal.{IsPrintFault};
ghost use Rattle.commands.specs.Status.{exit_status};
ghost use Rattle.commands.specs.Told.{AppendsPart, IsNoStoreText, IsNoteText, TellsNote, TellsOf};
ghost use Rattle.commands.specs.Told.{in_one_line, line_after, no_blob_text};

use crate::again::write_again;
use crate::ended::Note;
use crate::error::CommandError;
use crate::error_text::{error_text, of_path};
use crate::mismatch_text::mismatch_text;
use blob_digest::Digest;
use std::alloc::{AllocError, Global};
use std::io::{ErrorKind, Write};

/// Writes the bytes. Where writing fails, a beginning of them was written, and not all of them.
pub(crate) fn write_bytes<O: Write>(out: &mut O, bytes: &[u8]) -> Result<(), CommandError>
    ensures written { OnOk result (Appends (O.contents out.old) (O.contents out.new) bytes.now) }
    ensures part { OnErr result (AppendsPart (O.contents out.old) (O.contents out.new) bytes.now) }
    ensures fault { IfErr result (λ e. exit_status e ≡ 3) }
    ensures output { IfErr result IsPrintFault }
{
    let mut rest = bytes;
    while !rest.is_empty() {
        match write_again(out, rest) {
            Ok(0) => return Err(CommandError::Output(ErrorKind::WriteZero.into())),
            Ok(count) => rest = &rest[count..],
            Err(fault) => return Err(CommandError::Output(fault)),
        }
    }
    Ok(())
}

/// The text in one line: a space stands for each newline.
fn in_one_line(alloc: Global, text: &[u8]) -> Result<Vec<u8>, AllocError>
    ensures { IfOk result (λ line. line.items ≡ in_one_line text.now) }
{
    let mut line = Vec::new(alloc);
    for byte in text {
        let shown = if *byte == b'\n' { b' ' } else { *byte };
        line.push(shown)?;
    }
    Ok(line)
}

/// The line of a text after its head: a space stands for each newline of the text.
fn line_after(alloc: Global, head: &str, text: &str) -> Result<Vec<u8>, AllocError>
    ensures { IfOk result (λ line. line.items ≡ line_after head.now text.now) }
{
    let told = in_one_line(alloc, text.as_bytes())?;
    let mut line = Vec::new(alloc);
    line.extend_from_slice(head.as_bytes())?;
    line.extend_from_slice(&told)?;
    line.push(b'\n')?;
    Ok(line)
}

/// The error's line.
fn error_line(alloc: Global, error: &CommandError) -> Result<Vec<u8>, AllocError>
    ensures { IfOk result (λ line. (text : List ℕ) × IsErrorText error.now text
        × (line.items ≡ line_after (codes "error: ") text)) }
{
    let text = error_text(alloc, error)?;
    line_after(alloc, "error: ", text.as_str())
}

/// Tells the error in one line. Where no memory is left for that, the line tells `out of memory`.
pub fn tell<E: Write>(alloc: Global, error: &CommandError, err: &mut E)
    ensures { TellsOf error.now (E.contents err.old) (E.contents err.new) }
{
    let _ = match error_line(alloc, error) {
        Ok(line) => write_bytes(err, &line),
        Err(_e) => write_bytes(err, b"error: out of memory\n"),
    };
    let _ = err.flush();
}

/// What is said of a store folder that isn't there: a no about it is none about the build.
const NO_STORE: &str =
    "there is no such folder, so what is missing from it says nothing about the build";

fn no_blob_text(alloc: Global, server: &str, digest: &Digest) -> Result<String, AllocError>
    ensures { IfOk result (λ text. string_bytes text ≡ no_blob_text server.now digest.now) }
{
    let text = digest.write_text(alloc)?;
    format!(in alloc; "{server} has no blob {text}")
}

fn no_store_text(alloc: Global, path: &str) -> Result<String, AllocError>
    ensures { IfOk result (λ text. IsNoStoreText path.now (string_bytes text)) }
{
    of_path(alloc, path, NO_STORE)
}

/// The note's words.
fn note_text(alloc: Global, note: &Note) -> Result<String, AllocError>
    ensures { IfOk result (λ text. IsNoteText note.now (string_bytes text)) }
{
    match note {
        Note::NoBlob { server, digest } => no_blob_text(alloc, server.as_str(), digest),
        Note::NoStore { path } => no_store_text(alloc, path.as_str()),
        Note::Differs(mismatch) => mismatch_text(alloc, mismatch),
        Note::Refused(why) => String::from_str(alloc, why.as_str()),
    }
}

/// The note's line.
fn note_line(alloc: Global, note: &Note) -> Result<Vec<u8>, AllocError>
    ensures { IfOk result (λ line. (text : List ℕ) × IsNoteText note.now text
        × (line.items ≡ line_after (codes "note: ") text)) }
{
    let text = note_text(alloc, note)?;
    line_after(alloc, "note: ", text.as_str())
}

/// Tells the note in one line. Where no memory is left for that, nothing is told.
pub fn tell_note<E: Write>(alloc: Global, note: &Note, err: &mut E)
    ensures { TellsNote note.now (E.contents err.old) (E.contents err.new) }
{
    let Ok(line) = note_line(alloc, note) else {
        return;
    };
    let _ = write_bytes(err, &line);
    let _ = err.flush();
}
