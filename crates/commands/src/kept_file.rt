ghost use Rattle.std.specs.Prelude.{◌≡◌, ◌⊎◌, ◌∷◌, [], IfErr, IfOk, OnOk, codes, string_bytes};
ghost use Rattle.clap.specs.Words.{found_of, rows_of};
ghost use Rattle.commands.specs.Ended.{HasOneLine};
ghost use Rattle.commands.specs.Evidence.{given};
ghost use Rattle.commands.specs.Faults.{IsFaultAtPath, OrMemory, TellsOfEntry};
ghost use Rattle.commands.specs.Kept.{not_kept};
ghost use Rattle.commands.specs.Memory.{sees_in};
ghost use Rattle.commands.specs.Verified.{AnswersAsked, AnswersSaid, FailsToKeep, KeepsEvidence};
ghost use Rattle.commands.specs.declared.ended.Ended.{Ended};

use crate::error::{CommandError, entry_error};
use crate::evidence::verify_said;
use crate::judgement::Judgement;
use crate::kept_evidence::KeptEvidence;
use crate::memory_world::MemoryWorld;
use crate::options::Options;
use crate::verify_words::check_asked;
use crate::world::{Archives, Inputs, Outputs};
use archive::WriteError;
use clap::ArgMatches;
use std::alloc::Global;

/// What is said of a file that isn't written, since what was looked at isn't evidence by itself.
const NOT_KEPT: &str = "not written, since evidence in one archive wouldn't have this verdict";

/// The options that name evidence, and nothing else.
#[derive(Drop)]
struct EvidenceAlone<'p> {
    path: &'p str,
}

impl Options for EvidenceAlone<'_> {
    ghost use Rattle.std.specs.Prelude.{◌∷◌, [], codes};
    ghost use Rattle.commands.specs.Evidence.{given};

    ghost rows = { λ o. given (codes "evidence") o.path.now ∷ [] };

    fn text(&self, option: &'static str) -> Option<&str> {
        match option {
            "evidence" => Some(self.path),
            _ => None,
        }
    }
}

/// The one archive of what was looked at.
fn archive_of(alloc: Global, path: &str, kept: &KeptEvidence) -> Result<Vec<u8>, CommandError>
    ensures unfit { IfErr result (OrMemory (TellsOfEntry path.now not_kept)) }
{
    match kept.archive(alloc) {
        Ok(bytes) => Ok(bytes),
        Err(WriteError::Unfit { .. }) => Err(entry_error(alloc, path, NOT_KEPT)),
        Err(WriteError::Memory) => Err(CommandError::Memory),
    }
}

/// The line of the verdict on evidence at a path, where the world is in memory.
fn verify_alone(alloc: Global, world: &MemoryWorld, path: &str) -> Result<Judgement, CommandError>
    ensures { IfOk result (λ j. AnswersAsked (sees_in world.now)
        (given (codes "evidence") path.now ∷ []) (string_bytes j.line) j.ended) }
{
    let said = EvidenceAlone { path };
    check_asked(alloc, &said)?;
    verify_said(alloc, world, &said, &mut KeptEvidence::nothing(alloc))
}

/// The line that was found is this one, or nothing is kept at the path.
fn check_line(alloc: Global, path: &str, found: &str, line: &str) -> Result<(), CommandError>
    ensures same { OnOk result (found.now ≡ line.now) }
    ensures fault { IfErr result (OrMemory (TellsOfEntry path.now not_kept)) }
{
    if found == line {
        return Ok(());
    }
    Err(entry_error(alloc, path, NOT_KEPT))
}

/// The verdict on the evidence at a path, where it stands alone in memory, has this line.
fn check_alone(
    alloc: Global,
    world: &MemoryWorld,
    path: &str,
    line: &str,
) -> Result<(), CommandError>
    ensures alone { OnOk result ((ended : Ended) × AnswersAsked (sees_in world.now)
        (given (codes "evidence") path.now ∷ []) line.now ended) }
    ensures fault { IfErr result (OrMemory (TellsOfEntry path.now not_kept)) }
{
    match verify_alone(alloc, world, path) {
        Ok(judgement) => check_line(alloc, path, judgement.line.as_str(), line),
        Err(CommandError::Memory) => Err(CommandError::Memory),
        Err(_) => Err(entry_error(alloc, path, NOT_KEPT)),
    }
}

/// Writes the file that is to keep what was looked at.
fn write_kept<W: Outputs>(
    alloc: Global,
    world: &W,
    path: &str,
    bytes: &[u8],
) -> Result<(), CommandError>
    ensures wrote { OnOk result ((W.sees world.now).wrote path.now bytes.now) }
    ensures fault { IfErr result
        (OrMemory (IsFaultAtPath path.now ((W.sees world.now).unwritten path.now))) }
{
    match world.write(alloc, path, bytes) {
        Ok(()) => Ok(()),
        Err(fault) => Err(CommandError::File {
            path: String::from_str(alloc, path)?,
            fault,
        }),
    }
}

/// Writes evidence by itself to the file at the path, once the verdict on it has this line.
fn keep<W: Outputs>(
    alloc: Global,
    world: &W,
    path: &str,
    kept: KeptEvidence,
    line: &str,
) -> Result<(), CommandError>
    ensures kept { OnOk result (KeepsEvidence (W.sees world.now) line.now path.now) }
    ensures fault { IfErr result (OrMemory (λ e. TellsOfEntry path.now not_kept e
        ⊎ IsFaultAtPath path.now ((W.sees world.now).unwritten path.now) e)) }
{
    let bytes = archive_of(alloc, path, &kept)?;
    drop(kept);
    let alone = MemoryWorld::of_file(alloc, path, bytes)?;
    check_alone(alloc, &alone, path, line)?;
    write_kept(alloc, world, path, alone.file(path))
}

/// The line of the verdict on what the words ask, which are valid, once what it looked at was kept
/// in the file at the path.
pub(crate) fn verify_and_keep<W: Inputs + Archives + Outputs>(
    alloc: Global,
    world: &W,
    matches: &ArgMatches<'_>,
    path: &str,
) -> Result<Judgement, CommandError>
    ensures answered { IfOk result (λ j. AnswersSaid (W.sees world.now)
        (rows_of (found_of matches.now)) (string_bytes j.line) j.ended) }
    ensures kept { IfOk result (λ j. KeepsEvidence (W.sees world.now) (string_bytes j.line)
        path.now) }
    ensures one_line { IfOk result HasOneLine }
    ensures refused { IfErr result
        (FailsToKeep (W.sees world.now) (rows_of (found_of matches.now)) path.now) }
{
    world.check_writable(alloc, path)?;
    let mut kept = KeptEvidence::new(alloc);
    let judgement = verify_said(alloc, world, matches, &mut kept)?;
    keep(alloc, world, path, kept, judgement.line.as_str())?;
    Ok(judgement)
}
