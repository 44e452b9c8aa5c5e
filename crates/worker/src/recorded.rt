ghost use Rattle.std.specs.Prelude.{◌≡◌, ◌↔◌, ◌+◌, ◌-◌, ◌<◌, Some, None, IsTrue, IfSome, IfErr};
ghost use Rattle.std.specs.Prelude.{IfOk, Contains};
ghost use Rattle.std.specs.Result.{IsErrAnd};
ghost use Rattle.blob_source.specs.Source.{Grows};
ghost use Rattle.worker.specs.Counted.{Counts, IsFetch};
ghost use Rattle.worker.specs.Stored.{IsKept};
ghost use Rattle.worker.specs.Outcomes.{CanBeTaken};
ghost use Rattle.worker.specs.Going.{HasNoneToTake};
ghost use Rattle.worker.specs.Stopped.{IsStoreFault};
ghost use Rattle.worker.specs.Storing.{AsksResultOnce};
ghost use Rattle.std.specs.List.{AllByRecursion};
ghost use Rattle.actions.specs.Outcome.{outputs_in, paths_of_outputs};
ghost use Rattle.verifier.specs.Recorded.{IsHeld};

use crate::error::StepRefusal;
use actions::{ActionResult, Command, Outcome, Output, recorded};
use messages::{MessageError, Path};
use runs::Job;
use std::alloc::Allocator;
use tree::{BlobSink, TreeError};

/// Whether an outcome is one that a build takes: exit code 0, and only listed outputs.
fn fits<A: Allocator + Copy>(command: &Command<A>, outcome: &Outcome<A>) -> bool
    ensures { IsTrue result ↔ CanBeTaken command.now outcome.now }
{
    if outcome.exit_code() != 0 {
        return false;
    }
    lists_all(command, outcome.outputs())
}

/// Whether the command lists each of the outputs.
fn lists_all<A: Allocator>(command: &Command<A>, outputs: &[(Path<A>, Output<A>)]) -> bool
    ensures { IsTrue result ↔ AllByRecursion (Contains command.now.output_paths)
        (paths_of_outputs (outputs_in outputs.now)) }
{
    for output in outputs {
        if !command.lists(&output.0) {
            return false;
        }
    }
    true
}

/// The outcome that the store has for a job's action, if it is one that a build takes.
#[tactic(auto, using(crate::proofs::Untaken::asked_once, crate::proofs::Keeping::result_grows))]
pub(crate) fn recorded_outcome<A: Allocator + Copy, S: BlobSink<A>>(
    alloc: A,
    sink: &mut S,
    job: &Job<A>,
) -> Result<Option<Outcome<A>>, StepRefusal<A>>
    ensures kept { IsKept (S.tells sink.old) (S.tells sink.new) }
    // The store is only asked.
    ensures only { Grows (S.tells sink.old).blobs (S.tells sink.new).blobs }
    ensures held { IfOk result (λ found.
        IfSome found (IsHeld (S.tells sink.new) job.now.digest)) }
    ensures fits { IfOk result (λ found. IfSome found (CanBeTaken job.now.command)) }
    // There is none only where the store has none that can be taken.
    ensures none { IfOk result (λ found. found ≡ None
        → HasNoneToTake (S.tells sink.new) job.now.digest job.now.command) }
    ensures once { AsksResultOnce job.now.digest (S.tells sink.old) (S.tells sink.new) }
    ensures failed { IfErr result IsStoreFault }
    ensures fetched { Counts (S.tells sink.old).failures (S.tells sink.new).failures
        (IsErrAnd result IsFetch) }
{
    let Some(bytes) = sink.result(alloc, &job.digest)? else {
        return Ok(None);
    };
    let made = match ActionResult::decode(alloc, &bytes) {
        Ok(made) => made,
        Err(error) => {
            return match error {
                MessageError::Memory => Err(StepRefusal::Memory),
                _ => Ok(None),
            };
        }
    };
    match recorded(alloc, &made, sink) {
        Ok(outcome) => {
            if fits(&job.command, &outcome) {
                return Ok(Some(outcome));
            }
            Ok(None)
        }
        Err(error) => match error {
            TreeError::Fetch => Err(StepRefusal::Fetch),
            TreeError::Memory => Err(StepRefusal::Memory),
            _ => Ok(None),
        },
    }
}
