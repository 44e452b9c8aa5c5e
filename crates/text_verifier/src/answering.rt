ghost use Rattle.std.specs.Prelude.{◌≤◌, ◌+◌, List, IfOk, IfErr, IsErrOf, length};
ghost use Rattle.blob_source.specs.Called.{Called};
ghost use Rattle.text_verifier.specs.Answered.{IsAnswer, AnswerLooksAt};
ghost use Rattle.text_verifier.specs.Refused.{IsNoFault};
ghost use Rattle.tree.specs.Memo.{Asked, AsksNoOther, Covers};

use crate::case::Case;
use crate::error::TextError;
use crate::lack::{Lack, lack_of};
use crate::reading::Digests;
use std::alloc::Allocator;
use tree::BlobSource;
use verifier::{Made, Verdict, judge};

/// What the verifier answered.
#[derive(Drop)]
#[derive_where(Debug)]
pub struct Answer<A: Allocator> {
    pub verdict: Verdict<A>,
    /// What the verdict says that the source lacks.
    pub lack: Option<Lack>,
    /// What builds of the plan make, where that isn't the claim.
    pub made: Option<Made<A>>,
}

/// The answer on the case, by what the source tells.
pub fn answer_question<A: Allocator + Copy, S: BlobSource<A>>(
    alloc: A,
    case: &Case<A>,
    source: &mut S,
) -> Result<Answer<A>, TextError>
    // The verdict is the one on the question, what a yes says holds, and what builds make stands
    // beside it where that isn't the claim.
    ensures answered { IfOk result (IsAnswer (S.tells source.new) case.now) }
    // It is refused where the source fails or memory runs out.
    ensures refused { IfErr result IsNoFault }
    // The source is asked as the verifier asks.
    ensures called { Called (S.tells source.old) (S.tells source.new)
        (IsErrOf result TextError.Fetch) }
    ensures few { (list : List Asked)
        → Covers (AnswerLooksAt A (S.tells source.new) case.now) list
        → (S.tells source.new).calls ≤ (S.tells source.old).calls + length list }
    ensures only { AsksNoOther (AnswerLooksAt A (S.tells source.new) case.now)
        (S.tells source.old) (S.tells source.new) }
{
    let Digests { sources, claim } = case.digests;
    let judged = judge(alloc, &sources, &case.plan, &case.noted, &claim, source)?;
    let lack = lack_of(case, &judged.verdict);
    Ok(Answer {
        verdict: judged.verdict,
        lack,
        made: judged.made,
    })
}
