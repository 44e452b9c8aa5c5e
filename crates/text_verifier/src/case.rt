ghost use Rattle.std.specs.Prelude.{◌≡◌, ◌≤◌, Err, IfErr, IfOk};
ghost use Rattle.plan.specs.declared.error.PlanError.{PlanError};
ghost use Rattle.plan.specs.Record.{Fits, RecordValue, names_of, IsRecordFault};
ghost use Rattle.text_verifier.specs.Refused.{AnswersUnlessMemory, IsRecordRefusal};
ghost use Rattle.text_verifier.specs.Texts.{HasRecord, question_of};

use crate::error::TextError;
use crate::reading::{Digests, read_record};
use blob_digest::Digest;
use plan::{Plan, Record};
use std::alloc::Allocator;
use std::marker::Model;

/// A question to the verifier, as it was read: whether each build of a plan, from sources with a
/// digest, ends in a claimed root, by what one build of it noted.
#[derive(Drop)]
pub struct Case<A: Allocator> {
    pub(crate) digests: Digests,
    pub(crate) plan: Plan<A>,
    pub(crate) noted: Record<A>,
}

impl<A: Allocator> Model for Case<A> {
    ghost use Rattle.plan.specs.Record.{Fits};
    ghost use Rattle.text_verifier.specs.Texts.{Question, question_of};

    ghost Value = { Question };

    ghost view = { λ c. question_of c.digests.sources c.digests.claim c.plan c.noted };

    ghost invariant = { λ c. Fits c.noted c.plan };
}

impl<A: Allocator> Case<A> {
    /// The digest of the sources.
    pub fn sources(&self) -> Digest
        ensures { result ≡ self.now.sources }
    {
        self.digests.sources
    }

    /// The claimed root.
    pub fn claim(&self) -> Digest
        ensures { result ≡ self.now.claim }
    {
        self.digests.claim
    }

    /// The plan.
    pub fn plan(&self) -> &Plan<A>
        ensures value { result.now ≡ self.now.plan }
        ensures fits { Fits self.now.noted self.now.plan }
    {
        &self.plan
    }
}

impl<A: Allocator + Copy> Case<A> {
    /// The case of these digests, this plan, and the record of it whose text this is.
    pub fn read(
        alloc: A,
        digests: Digests,
        plan: Plan<A>,
        noted: &[u8],
    ) -> Result<Case<A>, TextError>
        ensures sources { IfOk result (λ case. case.sources ≡ digests.sources) }
        ensures claim { IfOk result (λ case. case.claim ≡ digests.claim) }
        ensures plan { IfOk result (λ case. case.plan ≡ plan) }
        ensures noted { IfOk result (λ case. HasRecord plan noted.now case.noted) }
        // The case of the record whose text it is is answered.
        ensures only { (record_of : RecordValue) → HasRecord plan noted.now record_of
            → AnswersUnlessMemory result
            (question_of digests.sources digests.claim plan record_of) }
        // Lines 1 and 2 take no memory.
        ensures early { (e : PlanError) → IsRecordFault (names_of plan) noted.now e → e.line ≤ 2
            → result ≡ Err (TextError.Record e) }
        ensures fault { IfErr result (IsRecordRefusal (names_of plan) noted.now) }
    {
        let noted = read_record(alloc, noted, &plan)?;
        Ok(Case {
            digests,
            plan,
            noted,
        })
    }
}
