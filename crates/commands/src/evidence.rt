ghost use Rattle.std.specs.Prelude.{◌≡◌, [], IfErr, IfOk, IfSome, None, OnErr, Some, codes};
ghost use Rattle.std.specs.Prelude.{false, string_bytes};
ghost use Rattle.archive.specs.Archive.{IsArchive, blocks_of, files_of};
ghost use Rattle.clap.specs.Words.{first_of, found_of, rows_of};
ghost use Rattle.commands.specs.Evidence.{IsNoArchive, StatesDigests, TellsArchiveError};
ghost use Rattle.commands.specs.Evidence.{asked_words, in_evidence};
ghost use Rattle.commands.specs.Ended.{HasOneLine};
ghost use Rattle.commands.specs.Faults.{OrMemory};
ghost use Rattle.commands.specs.Refusal.{IsPrintFault};
ghost use Rattle.commands.specs.Stages.{AnswersStages, IsListed};
ghost use Rattle.commands.specs.Told.{PrintsNoLine};
ghost use Rattle.commands.specs.Verified.{AnswersAndKeeps, AnswersClaim, AnswersNamed, AnswersSaid};
ghost use Rattle.commands.specs.Verified.{BeginsAnswer};
ghost use Rattle.commands.specs.Verified.{FailsAsked, FailsFolder, FailsFor, FailsInside};
ghost use Rattle.commands.specs.Verified.{FailsNamed, FailsToAnswer, OnClaim, OnPlans};
ghost use Rattle.commands.specs.Verified.{VerifiesAsked};
ghost use Rattle.commands.specs.Words.{AllValid};

use crate::archived::Archived;
use crate::artifact::{ClaimedOptions, read_artifact};
use crate::ended::Ended;
use crate::error::CommandError;
use crate::evidence_options::read_options;
use crate::judgement::Judgement;
use crate::kept_evidence::KeptEvidence;
use crate::kept_file::verify_and_keep;
use crate::options::{Options, read_digest};
use crate::stages::listed_stages;
use crate::staging::verify_stages;
use crate::verify_words::check_asked;
use crate::verifying::{print_line, read_place, verify_asked};
use crate::world::{Archives, Inputs, Outputs};
use archive::{Archive, ArchiveError, Blocks};
use clap::ArgMatches;
use command_lines::option_of;
use std::alloc::{AllocError, Global};
use std::io::Write;

/// The error of what is no archive, or can't be read.
fn archive_error(alloc: Global, path: &str, error: ArchiveError) -> Result<CommandError, AllocError>
    ensures { IfOk result (TellsArchiveError path.now error) }
{
    let path = String::from_str(alloc, path)?;
    match error {
        ArchiveError::Refused { at, refusal } => Ok(CommandError::Archive { path, at, refusal }),
        ArchiveError::Unread(fault) => Ok(CommandError::File { path, fault }),
        ArchiveError::Memory => Ok(CommandError::Memory),
    }
}

/// The line of the verdict on the one plan of evidence. A folder that stands for the claim is
/// outside of it.
fn verify_plan<V: Inputs, W: Inputs, M: Options>(
    alloc: Global,
    outside: &V,
    world: &W,
    said: &M,
    evidence: &str,
    kept: &mut KeptEvidence,
) -> Result<Judgement, CommandError>
    requires { IsListed (W.sees world.now) evidence.now None }
    ensures answered { IfOk result (λ j. StatesDigests (V.sees outside.now) (W.sees world.now)
        (M.rows said.now) evidence.now
        (λ o. AnswersClaim (V.sees outside.now) (M.rows said.now) (W.sees world.now) o
        (string_bytes j.line) j.ended)) }
    ensures one_line { IfOk result HasOneLine }
    ensures refused { IfErr result
        (FailsInside (V.sees outside.now) (W.sees world.now) (M.rows said.now) evidence.now) }
{
    let stated = read_options(alloc, outside, world, said, evidence)?;
    verify_asked(alloc, world, &stated.options, &stated.folder, kept)
}

/// The line of the verdict on what a folder of evidence, or one that an archive stands for, asks. A
/// folder that stands for the claim is outside of it.
fn verify_stated<V: Inputs, W: Inputs, M: Options>(
    alloc: Global,
    outside: &V,
    world: &W,
    said: &M,
    evidence: &str,
    kept: &mut KeptEvidence,
) -> Result<Judgement, CommandError>
    ensures answered { IfOk result (λ j. OnPlans (V.sees outside.now) (W.sees world.now)
        (M.rows said.now) evidence.now
        (λ o. AnswersClaim (V.sees outside.now) (M.rows said.now) (W.sees world.now) o
        (string_bytes j.line) j.ended)
        (λ asked. AnswersStages (W.sees world.now) asked (string_bytes j.line) j.ended)) }
    ensures one_line { IfOk result HasOneLine }
    ensures refused { IfErr result
        (FailsInside (V.sees outside.now) (W.sees world.now) (M.rows said.now) evidence.now) }
{
    match listed_stages(alloc, world, evidence, kept)? {
        Some(stages) => verify_stages(alloc, outside, world, said, evidence, &stages, kept),
        None => verify_plan(alloc, outside, world, said, evidence, kept),
    }
}

/// The archive in an open file of this path.
pub(crate) fn read_archive<'b, B: Blocks>(
    alloc: Global,
    path: &str,
    file: &'b B,
) -> Result<Archive<'b, B, Global>, CommandError>
    ensures file { IfOk result (λ a. blocks_of a ≡ file.now) }
    ensures found { IfOk result (λ a.
        IfSome (B.contents file.now) (λ bytes. IsArchive bytes (files_of a))) }
    ensures refused { IfErr result (OrMemory (IsNoArchive path.now (B.contents file.now))) }
{
    match Archive::of(alloc, file) {
        Ok(archive) => Ok(archive),
        Err(error) => Err(archive_error(alloc, path, error)?),
    }
}

/// The line of the verdict on what the archive in an open file asks, which stands for the folder at
/// its path.
fn verify_archive<'e, W: Inputs, B: Blocks, M: Options>(
    alloc: Global,
    world: &'e W,
    said: &M,
    evidence: &str,
    folder: &'e str,
    file: &'e B,
    kept: &mut KeptEvidence,
) -> Result<Judgement, CommandError>
    requires folder { folder.now ≡ in_evidence evidence.now [] }
    requires opened { (W.sees world.now).opens evidence.now (B.contents file.now) }
    requires lead { (W.sees world.now).leads evidence.now false }
    ensures answered { IfOk result (λ j. AnswersNamed (Some evidence.now) (W.sees world.now)
        (M.rows said.now) (string_bytes j.line) j.ended) }
    ensures one_line { IfOk result HasOneLine }
    ensures refused { IfErr result (OrMemory
        (FailsNamed (Some evidence.now) (W.sees world.now) (M.rows said.now))) }
{
    let archived = Archived {
        outside: world,
        folder,
        archive: read_archive(alloc, evidence, file)?,
    };
    verify_stated(alloc, world, &archived, said, evidence, kept)
}

/// The line of the verdict on the evidence at a path.
fn verify_evidence<W: Inputs + Archives, M: Options>(
    alloc: Global,
    world: &W,
    said: &M,
    evidence: &str,
    kept: &mut KeptEvidence,
) -> Result<Judgement, CommandError>
    ensures answered { IfOk result (λ j. AnswersNamed (Some evidence.now) (W.sees world.now)
        (M.rows said.now) (string_bytes j.line) j.ended) }
    ensures one_line { IfOk result HasOneLine }
    ensures refused { IfErr result (OrMemory
        (FailsNamed (Some evidence.now) (W.sees world.now) (M.rows said.now))) }
{
    if world.is_folder(alloc, evidence)? {
        return verify_stated(alloc, world, world, said, evidence, kept);
    }
    let file = world.open(alloc, evidence)?;
    let folder = format!(in alloc; "{evidence}/")?;
    verify_archive(alloc, world, said, evidence, folder.as_str(), &file, kept)
}

/// The line of the verdict on what the options ask, with a folder that stands for the claim.
fn verify_folder<W: Inputs, M: Options>(
    alloc: Global,
    world: &W,
    said: &M,
    folder: &str,
    kept: &mut KeptEvidence,
) -> Result<Judgement, CommandError>
    requires { first_of (codes "artifact") (M.rows said.now) ≡ Some folder.now }
    ensures answered { IfOk result (λ j. OnClaim (Some folder.now) (W.sees world.now)
        (M.rows said.now)
        (λ o. AnswersClaim (W.sees world.now) (M.rows said.now) (W.sees world.now) o
        (string_bytes j.line) j.ended)) }
    ensures one_line { IfOk result HasOneLine }
    ensures refused { IfErr result
        (FailsFolder (W.sees world.now) (M.rows said.now) folder.now) }
{
    read_place(alloc, said)?;
    read_digest(alloc, said, "sources")?;
    let read = read_artifact(alloc, world, said, folder)?;
    let claim = read.digest.write_text(alloc)?;
    let options = ClaimedOptions { claim, said };
    verify_asked(alloc, world, &options, &Some(read), kept)
}

/// The line of the verdict on what the options ask, where they name no evidence.
fn verify_options<W: Inputs, M: Options>(
    alloc: Global,
    world: &W,
    said: &M,
    kept: &mut KeptEvidence,
) -> Result<Judgement, CommandError>
    ensures answered { IfOk result (λ j. AnswersNamed None (W.sees world.now) (M.rows said.now)
        (string_bytes j.line) j.ended) }
    ensures one_line { IfOk result HasOneLine }
    ensures refused { IfErr result (FailsNamed None (W.sees world.now) (M.rows said.now)) }
{
    match said.text("artifact") {
        Some(folder) => verify_folder(alloc, world, said, folder, kept),
        None => verify_asked(alloc, world, said, &None, kept),
    }
}

/// The line of the verdict on what the options ask, whose words are valid. What is looked at is
/// kept.
pub(crate) fn verify_said<W: Inputs + Archives, M: Options>(
    alloc: Global,
    world: &W,
    said: &M,
    kept: &mut KeptEvidence,
) -> Result<Judgement, CommandError>
    ensures answered { IfOk result (λ j. AnswersSaid (W.sees world.now) (M.rows said.now)
        (string_bytes j.line) j.ended) }
    ensures one_line { IfOk result HasOneLine }
    ensures refused { IfErr result (OrMemory (FailsToAnswer (W.sees world.now) (M.rows said.now))) }
{
    match said.text("evidence") {
        Some(evidence) => verify_evidence(alloc, world, said, evidence, kept),
        None => verify_options(alloc, world, said, kept),
    }
}

/// The line of the verdict on what the words ask, which are valid. Where they say so, what it
/// looked at is kept first.
fn verify_words<W: Inputs + Archives + Outputs>(
    alloc: Global,
    world: &W,
    matches: &ArgMatches<'_>,
) -> Result<Judgement, CommandError>
    requires valid { AllValid (asked_words (rows_of (found_of matches.now))) }
    ensures answered { IfOk result (λ j. AnswersAndKeeps (W.sees world.now)
        (rows_of (found_of matches.now)) (string_bytes j.line) j.ended) }
    ensures one_line { IfOk result HasOneLine }
    ensures refused { IfErr result (OrMemory (FailsFor
        (first_of (codes "keep") (rows_of (found_of matches.now))) (W.sees world.now)
        (rows_of (found_of matches.now)))) }
{
    match option_of(matches, "keep") {
        Some(path) => verify_and_keep(alloc, world, matches, path),
        None => verify_said(alloc, world, matches, &mut KeptEvidence::nothing(alloc)),
    }
}

/// Prints the verdict's line, and answers done where it is yes. It writes no file but the one that
/// is to keep what is looked at, and doesn't listen.
pub fn run_verify<W: Inputs + Archives + Outputs, O: Write>(
    alloc: Global,
    world: &W,
    matches: &ArgMatches<'_>,
    out: &mut O,
) -> Result<Ended, CommandError>
    ensures answered { IfOk result (VerifiesAsked (W.sees world.now)
        (rows_of (found_of matches.now)) (O.contents out.old) (O.contents out.new)) }
    // Where it is for anything but the output, nothing was printed.
    ensures unprinted { IfErr result
        (λ fault. ¬ IsPrintFault fault → O.contents out.new ≡ O.contents out.old) }
    // A refusal leaves no byte that isn't of that line, and no newline.
    ensures begun { OnErr result (BeginsAnswer (W.sees world.now) (rows_of (found_of matches.now))
        (O.contents out.old) (O.contents out.new)) }
    ensures unended { OnErr result (PrintsNoLine (O.contents out.old) (O.contents out.new)) }
    // It is for the first fault: what comes before it has none.
    ensures refused { IfErr result
        (FailsAsked (W.sees world.now) (rows_of (found_of matches.now))) }
{
    check_asked(alloc, matches)?;
    let judgement = verify_words(alloc, world, matches)?;
    print_line(judgement.line.as_str(), out)?;
    Ok(judgement.ended)
}
