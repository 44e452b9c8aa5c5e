ghost use Rattle.std.specs.Prelude.{IfErr, IfOk};
ghost use Rattle.text_verifier.specs.Recalled.{IsRecalled};
ghost use Rattle.text_verifier.specs.Refused.{IsNoFault};

use crate::answering::{Answer, answer_question};
use crate::case::Case;
use crate::error::TextError;
use std::alloc::Allocator;
use tree::BlobSource;
use verifier::{RecordedStep, Verdict, recorded_steps};

/// What the verifier answered, and what was recorded of the steps where that is a yes.
#[derive(Drop)]
pub struct Recalled<A: Allocator> {
    pub answer: Answer<A>,
    /// None after a no.
    pub steps: Vec<RecordedStep<A>, A>,
}

/// The answer on the case, by what the source tells, and after a yes what that tells of the steps.
pub fn recall<A: Allocator + Copy, S: BlobSource<A>>(
    alloc: A,
    case: &Case<A>,
    source: &mut S,
) -> Result<Recalled<A>, TextError>
    ensures recalled { IfOk result (IsRecalled (S.tells source.new) case.now) }
    // It is refused where the source fails or memory runs out.
    ensures refused { IfErr result IsNoFault }
{
    // A read for the prover: the plan keeps its rules.
    let _ = case.plan.steps();
    let answer = answer_question(alloc, case, source)?;
    let steps = match answer.verdict {
        Verdict::Yes { .. } => recorded_steps(alloc, case.noted.digests(), source)?,
        Verdict::No(..) => Vec::new(alloc),
    };
    Ok(Recalled { answer, steps })
}
