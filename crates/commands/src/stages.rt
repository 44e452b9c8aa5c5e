ghost use Rattle.std.specs.Prelude.{◌≡◌, ◌≢◌, ◌++◌, ◌∷◌, ◌↔◌, ℕ, List, IfErr, IfOk, IfSome};
ghost use Rattle.std.specs.Prelude.{Contains, IsFalse, IsTrue, MatchOption, None, Some, decimal};
ghost use Rattle.std.specs.Prelude.{option_map, string_bytes};
ghost use Rattle.blob_digest.specs.Text.{IsDecimal};
ghost use Rattle.commands.specs.Faults.{OrMemory};
ghost use Rattle.commands.specs.Stages.{FailsListed, IsListed, IsNoStage, IsStage, IsStagesText};
ghost use Rattle.commands.specs.Stages.{FailsThere, TellsOfStages, plan_path};
ghost use Rattle.commands.specs.World.{FoundValue};
ghost use Rattle.remote.specs.Folder.{IsNotThere, IsNothingAt};

use crate::error::CommandError;
use crate::evidence_options::path_in;
use crate::kept_evidence::KeptEvidence;
use crate::world::Inputs;
use remote::FileError;
use std::alloc::Global;
use std::io::ErrorKind;

/// What is wrong with a list of stages.
#[derive(Clone, Copy, Debug)]
pub enum StagesFault {
    /// This line isn't a stage's number and a newline.
    Line(u64),
    /// A plan stands beside it.
    PlanBeside,
}

fn is_decimal(text: &[u8]) -> bool
    ensures { IsTrue result ↔ IsDecimal text.now }
{
    match text {
        [] => false,
        [b'0'] => true,
        [first, ..] => *first != b'0' && text.iter().all(u8::is_ascii_digit),
    }
}

fn is_stage(number: u64) -> bool
    ensures { IsTrue result ↔ IsStage number }
{
    0 < number && number < 1_000_000_000
}

/// The number of a stage that a text spells.
fn read_stage(text: &[u8]) -> Option<u32>
    ensures found { IfSome result (λ stage. IsStage stage × (text.now ≡ decimal stage)) }
    ensures only { (stage : ℕ) → IsStage stage → text.now ≡ decimal stage → result ≡ Some stage }
{
    if !is_decimal(text) {
        return None;
    }
    let Ok(digits) = str::from_utf8(text) else {
        return None;
    };
    let Ok(number) = digits.parse::<u64>() else {
        return None;
    };
    if is_stage(number) {
        Some(number as u32)
    } else {
        None
    }
}

/// What stands before the first newline, and what after it.
fn split_line(text: &[u8]) -> Option<(&[u8], &[u8])>
    ensures { MatchOption result (¬ Contains text.now 10)
        (λ parts. (text.now ≡ parts.0.now ++ 10 ∷ parts.1.now) × ¬ Contains parts.0.now 10) }
{
    let place = text.iter().position(|byte| *byte == b'\n')?;
    let (line, rest) = text.split_at(place);
    Some((line, &rest[1..]))
}

/// The number of a stage in a text's first line, and what stands behind that.
fn split_stage(text: &[u8]) -> Option<(u32, &[u8])>
    ensures found { IfSome result
        (λ cut. IsStage cut.0 × (text.now ≡ decimal cut.0 ++ 10 ∷ cut.1.now)) }
    ensures only { result ≡ None → (stage : ℕ) (behind : List ℕ) → IsStage stage
        → text.now ≢ decimal stage ++ 10 ∷ behind }
{
    let (line, behind) = split_line(text)?;
    Some((read_stage(line)?, behind))
}

/// The error of a list of stages at a path.
fn stages_error(alloc: Global, path: &str, fault: StagesFault) -> CommandError
    ensures { OrMemory (TellsOfStages path.now fault) result }
{
    match String::from_str(alloc, path) {
        Ok(path) => CommandError::Stages { path, fault },
        Err(_) => CommandError::Memory,
    }
}

/// The stages whose list this text is, which was read at a path.
fn read_stages(alloc: Global, path: &str, text: &[u8]) -> Result<Vec<u32>, CommandError>
    ensures found { IfOk result (λ stages. IsStagesText text.now stages.items) }
    ensures fault { IfErr result (OrMemory (λ e. (line : ℕ) × IsNoStage text.now line
        × TellsOfStages path.now (StagesFault.Line line) e)) }
{
    let mut stages = Vec::new(alloc);
    let mut rest = text;
    while let Some((stage, behind)) = split_stage(rest) {
        stages.push(stage)?;
        rest = behind;
    }
    if rest.is_empty() && !stages.is_empty() {
        return Ok(stages);
    }
    let line = stages.len() as u64 + 1;
    Err(stages_error(alloc, path, StagesFault::Line(line)))
}

/// Whether the error is that nothing is there.
fn is_not_there(error: &FileError<Global>) -> bool
    ensures { IsTrue result ↔ IsNotThere error.now }
{
    match error {
        FileError::Io { fault, .. } => fault.kind() == ErrorKind::NotFound,
        _ => false,
    }
}

/// Whether a plan stands beside the list of stages. A link isn't followed.
fn has_plan<W: Inputs>(alloc: Global, world: &W, evidence: &str) -> Result<bool, CommandError>
    ensures stands { IfOk result (λ has. IsTrue has → (found : FoundValue)
        × (W.sees world.now).stands (plan_path evidence.now) found) }
    ensures lacks { IfOk result (λ has. IsFalse has
        → IsNothingAt (W.sees world.now).fails (plan_path evidence.now)) }
    ensures fault { IfErr result
        (OrMemory (FailsThere (W.sees world.now) (plan_path evidence.now))) }
{
    let plan = path_in(alloc, evidence, "plan")?;
    match world.look(alloc, plan.as_str()) {
        Ok(_) => Ok(true),
        Err(error) => {
            if is_not_there(&error) {
                return Ok(false);
            }
            Err(error.into())
        }
    }
}

/// The stages that evidence lists; none where it has one plan.
pub(crate) fn listed_stages<W: Inputs>(
    alloc: Global,
    world: &W,
    evidence: &str,
    kept: &mut KeptEvidence,
) -> Result<Option<Vec<u32>>, CommandError>
    ensures listed { IfOk result (λ stages. IsListed (W.sees world.now) evidence.now
        (option_map (λ s. s.items) stages)) }
    ensures refused { IfErr result (OrMemory (FailsListed (W.sees world.now) evidence.now)) }
{
    let list = path_in(alloc, evidence, "stages")?;
    let text = match world.read(alloc, list.as_str()) {
        Ok(text) => text,
        Err(error) => {
            if is_not_there(&error) {
                return Ok(None);
            }
            return Err(error.into());
        }
    };
    if has_plan(alloc, world, evidence)? {
        return Err(stages_error(alloc, list.as_str(), StagesFault::PlanBeside));
    }
    kept.keep_text(alloc, "stages", &text)?;
    Ok(Some(read_stages(alloc, list.as_str(), &text)?))
}
