ghost use Rattle.std.specs.Prelude.{◌≡◌, ◌≤◌, IfOk, IfErr, Err};
ghost use Rattle.plan.specs.Faults.{IsPlanFault};
ghost use Rattle.plan.specs.Record.{IsRecordFault, RecordValue, names_of};
ghost use Rattle.plan.specs.Values.{PlanValue};
ghost use Rattle.plan.specs.declared.error.PlanError.{PlanError};
ghost use Rattle.text_verifier.specs.Refused.{AnswersUnlessMemory, IsPlanRefusal, IsRecordRefusal};
ghost use Rattle.text_verifier.specs.Texts.{HasPlan, HasRecord};

use crate::error::TextError;
use blob_digest::Digest;
use plan::{Plan, ReadError, Record};
use std::alloc::Allocator;

/// The digests that are asked about.
#[derive(Clone, Copy, Debug)]
pub struct Digests {
    /// The digest of the source tree.
    pub sources: Digest,
    /// The digest of the root that is claimed.
    pub claim: Digest,
}

/// The plan of this text.
pub fn read_plan<A: Allocator + Copy>(alloc: A, text: &[u8]) -> Result<Plan<A>, TextError>
    ensures found { IfOk result (HasPlan text.now) }
    // The plan whose text it is is answered.
    ensures only { (plan : PlanValue) → HasPlan text.now plan → AnswersUnlessMemory result plan }
    // Lines 1 and 2 take no memory.
    ensures early { (e : PlanError) → IsPlanFault text.now e → e.line ≤ 2
        → result ≡ Err (TextError.Plan e) }
    ensures fault { IfErr result (IsPlanRefusal text.now) }
{
    match Plan::read(alloc, text) {
        Ok(plan) => Ok(plan),
        Err(ReadError::Faulty(fault)) => Err(TextError::Plan(fault)),
        Err(ReadError::Memory) => Err(TextError::Memory),
    }
}

/// The record of this text, for the plan.
pub(crate) fn read_record<A: Allocator + Copy>(
    alloc: A,
    text: &[u8],
    plan: &Plan<A>,
) -> Result<Record<A>, TextError>
    ensures found { IfOk result (HasRecord plan.now text.now) }
    // The record whose text it is is answered.
    ensures only { (noted : RecordValue) → HasRecord plan.now text.now noted
        → AnswersUnlessMemory result noted }
    // Lines 1 and 2 take no memory.
    ensures early { (e : PlanError) → IsRecordFault (names_of plan.now) text.now e → e.line ≤ 2
        → result ≡ Err (TextError.Record e) }
    ensures fault { IfErr result (IsRecordRefusal (names_of plan.now) text.now) }
{
    match Record::read(alloc, text, plan) {
        Ok(noted) => Ok(noted),
        Err(ReadError::Faulty(fault)) => Err(TextError::Record(fault)),
        Err(ReadError::Memory) => Err(TextError::Memory),
    }
}
