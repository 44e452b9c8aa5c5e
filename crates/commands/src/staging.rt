ghost use Rattle.std.specs.Prelude.{◌≡◌, ◌<◌, IfErr, IfOk, decimal, length, string_bytes};
ghost use Rattle.commands.specs.Ended.{HasOneLine};
ghost use Rattle.commands.specs.Evidence.{StatesDigests, in_evidence};
ghost use Rattle.commands.specs.Faults.{OrMemory};
ghost use Rattle.commands.specs.Printed.{JudgesAsked};
ghost use Rattle.commands.specs.Refusal.{FailsToJudge};
ghost use Rattle.commands.specs.Stages.{AnswersStages, FailsClaimOf, FailsStages, IsClaimOf};
ghost use Rattle.commands.specs.Stages.{JudgesStages, ListsStages, SpellsDigests};
ghost use Rattle.commands.specs.Stages.{stage_options, stages_asked};
ghost use Rattle.commands.specs.Verified.{AnswersClaim, FailsInside, FailsSpelled, OnPlans};

use crate::error::CommandError;
use crate::evidence_options::{digest_in_file, options_of, path_in, read_options};
use crate::judgement::Judgement;
use crate::kept_evidence::KeptEvidence;
use crate::options::Options;
use crate::verifying::{ended_of, judge_asked, typed_digests};
use crate::world::Inputs;
use blob_digest::Digest;
use report::{StagesVerdict, is_yes_of_stages, report_stages};
use std::alloc::{AllocError, Global};
use text_verifier::Digests;
use verifier::Verdict;

/// The path of a stage's folder.
fn stage_folder(alloc: Global, evidence: &str, stage: u32) -> Result<String, AllocError>
    ensures { IfOk result
        (λ folder. string_bytes folder ≡ in_evidence evidence.now (decimal stage)) }
{
    format!(in alloc; "{evidence}/{stage}")
}

/// A stage's claim: the line of its own file, and of the last stage that of the evidence.
fn claim_of<W: Inputs>(
    alloc: Global,
    world: &W,
    evidence: &str,
    stage: u32,
    left: &[u32],
    last: &Digest,
) -> Result<Digest, CommandError>
    ensures found { IfOk result
        (IsClaimOf (W.sees world.now) evidence.now last.now stage left.now) }
    ensures fault { IfErr result
        (OrMemory (FailsClaimOf (W.sees world.now) evidence.now stage left.now)) }
{
    if left.is_empty() {
        return Ok(*last);
    }
    let folder = stage_folder(alloc, evidence, stage)?;
    let path = path_in(alloc, folder.as_str(), "claim")?;
    digest_in_file(alloc, world, path.as_str())
}

/// The verdict on a stage, from its sources to its claim.
fn judge_stage<W: Inputs, M: Options>(
    alloc: Global,
    world: &W,
    said: &M,
    evidence: &str,
    stage: u32,
    digests: &Digests,
    kept: &mut KeptEvidence,
) -> Result<Verdict<Global>, CommandError>
    ensures judged { IfOk result (JudgesAsked (W.sees world.now)
        (stage_options (M.rows said.now) evidence.now stage
        digests.now.sources digests.now.claim)) }
    ensures fault { IfErr result (FailsToJudge (W.sees world.now)
        (stage_options (M.rows said.now) evidence.now stage
        digests.now.sources digests.now.claim)) }
{
    let folder = stage_folder(alloc, evidence, stage)?;
    let sources = digests.sources.write_text(alloc)?;
    let claim = digests.claim.write_text(alloc)?;
    let options = options_of(alloc, said, evidence, folder.as_str(), sources, claim)?;
    kept.begin_stage(alloc, stage)?;
    let answer = judge_asked(alloc, world, &options, kept)?;
    Ok(answer.verdict)
}

/// The verdict on stages, one after another up to the first that has a no.
fn judge_stages<W: Inputs, M: Options>(
    alloc: Global,
    world: &W,
    said: &M,
    evidence: &str,
    stages: &[u32],
    digests: &Digests,
    kept: &mut KeptEvidence,
) -> Result<StagesVerdict<Global>, CommandError>
    requires { 0 < length stages.now }
    ensures judged { IfOk result (JudgesStages (W.sees world.now) (stages_asked (M.rows said.now)
        evidence.now stages.now digests.now.sources digests.now.claim)) }
    ensures fault { IfErr result (OrMemory (FailsStages (W.sees world.now)
        (stages_asked (M.rows said.now) evidence.now stages.now digests.now.sources
        digests.now.claim))) }
{
    let mut sources = digests.sources;
    let mut steps = 0u128;
    let mut rest = stages;
    while let Some((stage, left)) = rest.split_first() {
        let claim = claim_of(alloc, world, evidence, *stage, left, &digests.claim)?;
        let asked = Digests { sources, claim };
        match judge_stage(alloc, world, said, evidence, *stage, &asked, kept)? {
            Verdict::Yes { steps: more, .. } => steps += more as u128,
            Verdict::No(place, cause) => {
                let stage = *stage;
                return Ok(StagesVerdict::No {
                    stage,
                    place,
                    cause,
                });
            }
        }
        sources = claim;
        rest = left;
    }
    Ok(StagesVerdict::Yes {
        root: digests.claim,
        stages: stages.len() as u64,
        steps,
    })
}

/// The digests of evidence of stages, as they are stated.
fn stated_digests<V: Inputs, W: Inputs, M: Options>(
    alloc: Global,
    outside: &V,
    world: &W,
    said: &M,
    evidence: &str,
) -> Result<Digests, CommandError>
    ensures stated { IfOk result (λ digests. StatesDigests (V.sees outside.now) (W.sees world.now)
        (M.rows said.now) evidence.now (λ o. SpellsDigests o digests.sources digests.claim)) }
    ensures fault { IfErr result (OrMemory
        (FailsSpelled (V.sees outside.now) (W.sees world.now) (M.rows said.now) evidence.now)) }
{
    let stated = read_options(alloc, outside, world, said, evidence)?;
    typed_digests(alloc, &stated.options)
}

/// The line of the verdict on stages. A folder that stands for the claim is outside of the
/// evidence.
pub(crate) fn verify_stages<V: Inputs, W: Inputs, M: Options>(
    alloc: Global,
    outside: &V,
    world: &W,
    said: &M,
    evidence: &str,
    stages: &[u32],
    kept: &mut KeptEvidence,
) -> Result<Judgement, CommandError>
    requires { ListsStages (W.sees world.now) evidence.now stages.now }
    ensures answered { IfOk result (λ j. OnPlans (V.sees outside.now) (W.sees world.now)
        (M.rows said.now) evidence.now
        (λ o. AnswersClaim (V.sees outside.now) (M.rows said.now) (W.sees world.now) o
        (string_bytes j.line) j.ended)
        (λ asked. AnswersStages (W.sees world.now) asked (string_bytes j.line) j.ended)) }
    ensures one_line { IfOk result HasOneLine }
    ensures refused { IfErr result
        (FailsInside (V.sees outside.now) (W.sees world.now) (M.rows said.now) evidence.now) }
{
    let digests = stated_digests(alloc, outside, world, said, evidence)?;
    kept.keep_digest(alloc, "sources", &digests.sources)?;
    kept.keep_digest(alloc, "claim", &digests.claim)?;
    let entries = path_in(alloc, evidence, "store")?;
    let verdict = judge_stages(alloc, world, said, evidence, stages, &digests, kept)?;
    let line = report_stages(alloc, &verdict)?;
    let ended = ended_of(alloc, world, Some(entries), is_yes_of_stages(&verdict));
    Ok(Judgement { line, ended })
}
