ghost use Rattle.std.specs.Prelude.{◌≡◌, ◌↔◌, ◌⊎◌, IfOk, IsErrOf};
ghost use Rattle.blob_source.specs.Called.{Called};
ghost use Rattle.verifier.specs.Holding.{HoldsResult};
ghost use Rattle.verifier.specs.Compared.{HasOutcome, HasOutcomes, HoldsOutcome, HoldsSteps};
ghost use Rattle.verifier.specs.Compared.{actions_of};

use crate::error::VerifyError;
use actions::{ActionResult, Outcome, recorded};
use blob_digest::Digest;
use messages::MessageError;
use std::alloc::Allocator;
use std::marker::Model;
use tree::{BlobSource, TreeError};

/// What was recorded of a step: its action, by the digest, and what that came to.
#[derive(Drop)]
pub struct RecordedStep<A: Allocator> {
    pub action: Digest,
    pub outcome: Outcome<A>,
}

impl<A: Allocator> Model for RecordedStep<A> {
    ghost use Rattle.verifier.specs.Compared.{RecordedStepValue};

    ghost Value = { RecordedStepValue };

    ghost view = { λ a. record { action = a.action; outcome = a.outcome } };
}

/// The result that a source has recorded of an action. It has one that stands for an outcome.
fn recorded_result<A: Allocator + Copy, S: BlobSource<A>>(
    alloc: A,
    action: &Digest,
    source: &mut S,
) -> Result<ActionResult<A>, VerifyError>
    requires { HasOutcome (S.tells source.old) action.now }
    ensures held { IfOk result (HoldsResult (S.tells source.new).results action.now) }
    ensures called { Called (S.tells source.old) (S.tells source.new)
        (IsErrOf result VerifyError.Fetch) }
{
    let Some(bytes) = source.result(alloc, action)? else {
        unreachable!();
    };
    match ActionResult::decode(alloc, &bytes) {
        Ok(made) => Ok(made),
        Err(MessageError::Memory) => Err(VerifyError::Memory),
        Err(_) => unreachable!(),
    }
}

/// The error of a read of what is there: the source failed, or memory ran out.
fn read_error<A: Allocator>(error: TreeError<A>) -> VerifyError
    requires { (error ≡ TreeError.Fetch) ⊎ (error ≡ TreeError.Memory) }
    ensures { (error ≡ TreeError.Fetch) ↔ (result ≡ VerifyError.Fetch) }
{
    match error {
        TreeError::Fetch => VerifyError::Fetch,
        TreeError::Memory => VerifyError::Memory,
        _ => unreachable!(),
    }
}

/// The outcome that a source has recorded of an action. It has one, with exit code 0.
fn recorded_outcome<A: Allocator + Copy, S: BlobSource<A>>(
    alloc: A,
    action: &Digest,
    source: &mut S,
) -> Result<Outcome<A>, VerifyError>
    requires { HasOutcome (S.tells source.old) action.now }
    ensures held { IfOk result (HoldsOutcome (S.tells source.new) action.now) }
    ensures called { Called (S.tells source.old) (S.tells source.new)
        (IsErrOf result VerifyError.Fetch) }
{
    let made = recorded_result(alloc, action, source)?;
    match recorded(alloc, &made, source) {
        Ok(outcome) => Ok(outcome),
        Err(error) => Err(read_error(error)),
    }
}

/// What a source has recorded of the steps with these actions, each of which has an outcome there
/// with exit code 0: where the verdict is yes.
pub fn recorded_steps<A: Allocator + Copy, S: BlobSource<A>>(
    alloc: A,
    actions: &[Digest],
    source: &mut S,
) -> Result<Vec<RecordedStep<A>, A>, VerifyError>
    requires { HasOutcomes (S.tells source.old) actions.now }
    ensures actions { IfOk result (λ steps. actions_of steps.items ≡ actions.now) }
    ensures held { IfOk result (λ steps. HoldsSteps (S.tells source.new) steps.items) }
    ensures called { Called (S.tells source.old) (S.tells source.new)
        (IsErrOf result VerifyError.Fetch) }
{
    let mut steps = Vec::new(alloc);
    for action in actions {
        let outcome = recorded_outcome(alloc, action, source)?;
        let action = *action;
        steps.push(RecordedStep { action, outcome })?;
    }
    Ok(steps)
}
