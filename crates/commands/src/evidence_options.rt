ghost use Rattle.std.specs.Prelude.{◌≡◌, ◌↔◌, IfErr, IfOk, None, Some, codes};
ghost use Rattle.std.specs.Prelude.{option_map, string_bytes};
ghost use Rattle.clap.specs.Words.{first_of};
ghost use Rattle.commands.specs.Evidence.{FailsDigestLine, FailsStated, HasDigestLine};
ghost use Rattle.commands.specs.Evidence.{FailsClaim, IsClaim, TellsNoDigest};
ghost use Rattle.commands.specs.Evidence.{HasLine, IsFolderClaim, IsStated, StatesDigests};
ghost use Rattle.commands.specs.Evidence.{entries_option};
ghost use Rattle.commands.specs.Evidence.{evidence_options, in_evidence, options_in};
ghost use Rattle.blob_digest.specs.Text.{BeginsWithHash};
ghost use Rattle.commands.specs.Faults.{OrMemory, SpellsNone};
ghost use Rattle.commands.specs.Digested.{reads_bits};
ghost use Rattle.commands.specs.FolderRead.{IsArtifact, value_of_read};
ghost use Rattle.commands.specs.ReadRefused.{FailsReading};

use crate::artifact::{FolderRead, read_artifact};
use crate::error::CommandError;
use crate::options::Options;
use crate::world::Inputs;
use blob_digest::{Digest, DigestError};
use std::alloc::{AllocError, Global};

/// The options by which evidence is judged: what it states stands before what was said.
#[derive(Drop)]
pub(crate) struct EvidenceOptions<'m, M> {
    sources: String,
    claim: String,
    plan: String,
    noted: String,
    /// The option for the entries: `store`, or `results` beside a server.
    place: &'static str,
    entries: String,
    said: &'m M,
}

impl<M: Options> Options for EvidenceOptions<'_, M> {
    ghost use Rattle.commands.specs.Evidence.{options_in};

    ghost rows = { λ o. options_in (M.rows o.said.now) o };

    fn text(&self, option: &'static str) -> Option<&str> {
        match option {
            "sources" => Some(self.sources.as_str()),
            "claim" => Some(self.claim.as_str()),
            "plan" => Some(self.plan.as_str()),
            "record" => Some(self.noted.as_str()),
            _ if option == self.place => Some(self.entries.as_str()),
            _ => self.said.text(option),
        }
    }
}

/// A text without the newline at its end.
fn line_of(text: &[u8]) -> &[u8]
    ensures { HasLine text.now result.now }
{
    match text.split_last() {
        Some((b'\n', line)) => line,
        _ => text,
    }
}

/// The error of a file whose line is no digest.
fn line_error(
    alloc: Global,
    path: &str,
    line: &[u8],
    fault: DigestError,
) -> Result<CommandError, AllocError>
    requires none { SpellsNone line.now }
    requires hash { (fault ≡ DigestError.BadHex) ↔ ¬ BeginsWithHash line.now }
    ensures { IfOk result (TellsNoDigest path.now line.now) }
{
    let _ = line;
    let path = String::from_str(alloc, path)?;
    Ok(CommandError::DigestFile { path, fault })
}

/// The digest that a file has as its line.
pub(crate) fn digest_in_file<W: Inputs>(
    alloc: Global,
    world: &W,
    path: &str,
) -> Result<Digest, CommandError>
    ensures found { IfOk result (HasDigestLine (W.sees world.now) path.now) }
    ensures fault { IfErr result (OrMemory (FailsDigestLine (W.sees world.now) path.now)) }
{
    let text = world.read(alloc, path)?;
    let line = line_of(&text);
    match Digest::read_text(line) {
        Ok(digest) => Ok(digest),
        Err(fault) => Err(line_error(alloc, path, line, fault)?),
    }
}

/// The path of what evidence has under a name.
pub(crate) fn path_in(alloc: Global, evidence: &str, name: &str) -> Result<String, AllocError>
    ensures { IfOk result (λ path. string_bytes path ≡ in_evidence evidence.now name.now) }
{
    format!(in alloc; "{evidence}/{name}")
}

/// The text of a digest's option: as it was said, or that of the evidence's file of its name.
fn stated_digest<W: Inputs, M: Options>(
    alloc: Global,
    world: &W,
    options: &M,
    evidence: &str,
    name: &'static str,
) -> Result<String, CommandError>
    ensures stated { IfOk result (λ text.
        IsStated (W.sees world.now) (M.rows options.now) evidence.now name.now
        (string_bytes text)) }
    ensures fault { IfErr result (OrMemory (λ e.
        (first_of name.now (M.rows options.now) ≡ None)
        × FailsDigestLine (W.sees world.now) (in_evidence evidence.now name.now) e)) }
{
    if let Some(said) = options.text(name) {
        return Ok(String::from_str(alloc, said)?);
    }
    let path = path_in(alloc, evidence, name)?;
    let digest = digest_in_file(alloc, world, path.as_str())?;
    Ok(digest.write_text(alloc)?)
}

/// The option for the entries of evidence.
fn entries_option<M: Options>(said: &M) -> &'static str
    ensures { result.now ≡ entries_option (M.rows said.now) }
{
    match said.text("server") {
        Some(_) => "results",
        None => "store",
    }
}

/// The options that say what evidence does, by the plan and the record in a folder, with these
/// texts of digests.
pub(crate) fn options_of<'m, M: Options>(
    alloc: Global,
    said: &'m M,
    evidence: &str,
    folder: &str,
    sources: String,
    claim: String,
) -> Result<EvidenceOptions<'m, M>, AllocError>
    ensures { IfOk result (λ o. options_in (M.rows o.said.now) o ≡ evidence_options
        (M.rows said.now) evidence.now folder.now (string_bytes sources) (string_bytes claim)) }
{
    Ok(EvidenceOptions {
        sources,
        claim,
        plan: path_in(alloc, folder, "plan")?,
        noted: path_in(alloc, folder, "record")?,
        place: entries_option(said),
        entries: path_in(alloc, evidence, "store")?,
        said,
    })
}

/// What is claimed: the text of a digest, and the folder that stands for it, where one is said.
#[derive(Drop)]
struct StatedClaim {
    text: String,
    folder: Option<FolderRead>,
}

/// What evidence states: the options that say what it does, and the folder that stands for the
/// claim, where one is said.
#[derive(Drop)]
pub(crate) struct Stated<'m, M> {
    pub options: EvidenceOptions<'m, M>,
    pub folder: Option<FolderRead>,
}

/// The claim of a folder.
fn folder_claim<W: Inputs, M: Options>(
    alloc: Global,
    world: &W,
    options: &M,
    folder: &str,
) -> Result<StatedClaim, CommandError>
    ensures claim { IfOk result (λ claim. IsFolderClaim (W.sees world.now) (M.rows options.now)
        folder.now (string_bytes claim.text)) }
    ensures folder { IfOk result (λ claim. IsArtifact (Some folder.now) (W.sees world.now)
        (M.rows options.now) (string_bytes claim.text) (option_map value_of_read claim.folder)) }
    ensures fault { IfErr result (OrMemory (FailsReading (W.sees world.now)
        (reads_bits (M.rows options.now)) 64 folder.now)) }
{
    let read = read_artifact(alloc, world, options, folder)?;
    let text = read.digest.write_text(alloc)?;
    Ok(StatedClaim {
        text,
        folder: Some(read),
    })
}

/// The claim as it was said, or that of the evidence's file.
fn said_claim<W: Inputs, M: Options>(
    alloc: Global,
    world: &W,
    options: &M,
    evidence: &str,
) -> Result<StatedClaim, CommandError>
    ensures stated { IfOk result (λ claim. IsStated (W.sees world.now) (M.rows options.now)
        evidence.now (codes "claim") (string_bytes claim.text)) }
    ensures none { IfOk result (λ claim. claim.folder ≡ None) }
    ensures fault { IfErr result (OrMemory (λ e.
        (first_of (codes "claim") (M.rows options.now) ≡ None)
        × FailsDigestLine (W.sees world.now) (in_evidence evidence.now (codes "claim")) e)) }
{
    let text = stated_digest(alloc, world, options, evidence, "claim")?;
    Ok(StatedClaim { text, folder: None })
}

/// The claim: that of a folder outside of the evidence, where one is said, and else as it was said,
/// or that of the evidence's file.
fn stated_claim<V: Inputs, W: Inputs, M: Options>(
    alloc: Global,
    outside: &V,
    world: &W,
    options: &M,
    evidence: &str,
) -> Result<StatedClaim, CommandError>
    ensures claim { IfOk result (λ claim. IsClaim (first_of (codes "artifact") (M.rows options.now))
        (V.sees outside.now) (W.sees world.now) (M.rows options.now) evidence.now
        (string_bytes claim.text)) }
    ensures folder { IfOk result (λ claim. IsArtifact
        (first_of (codes "artifact") (M.rows options.now)) (V.sees outside.now)
        (M.rows options.now) (string_bytes claim.text) (option_map value_of_read claim.folder)) }
    ensures fault { IfErr result
        (OrMemory (FailsClaim (first_of (codes "artifact") (M.rows options.now))
        (V.sees outside.now) (W.sees world.now) (M.rows options.now) evidence.now)) }
{
    match options.text("artifact") {
        Some(folder) => folder_claim(alloc, outside, options, folder),
        None => said_claim(alloc, world, options, evidence),
    }
}

/// The options that say what the one plan of evidence does, or with which digests its stages do.
pub(crate) fn read_options<'m, V: Inputs, W: Inputs, M: Options>(
    alloc: Global,
    outside: &V,
    world: &W,
    said: &'m M,
    evidence: &str,
) -> Result<Stated<'m, M>, CommandError>
    ensures stated { IfOk result (λ s. StatesDigests (V.sees outside.now) (W.sees world.now)
        (M.rows said.now) evidence.now
        (λ rows. rows ≡ options_in (M.rows s.options.said.now) s.options)) }
    ensures folder { IfOk result (λ s. IsArtifact
        (first_of (codes "artifact") (M.rows said.now)) (V.sees outside.now) (M.rows said.now)
        (string_bytes s.options.claim) (option_map value_of_read s.folder)) }
    ensures fault { IfErr result
        (OrMemory (FailsStated (V.sees outside.now) (W.sees world.now) (M.rows said.now)
        evidence.now)) }
{
    let sources = stated_digest(alloc, world, said, evidence, "sources")?;
    let claim = stated_claim(alloc, outside, world, said, evidence)?;
    Ok(Stated {
        options: options_of(alloc, said, evidence, evidence, sources, claim.text)?,
        folder: claim.folder,
    })
}
