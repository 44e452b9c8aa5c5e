ghost use Rattle.std.specs.Prelude.{◌≡◌, ◌↔◌, ◌⊎◌, ◌<◌, ℕ, Some, IsTrue, IsErr, IsErrOf, IfOk};
ghost use Rattle.std.specs.Prelude.{IfErr, OnOk, OnErr, length};
ghost use Rattle.std.specs.List.{AllByRecursion, Contains};
ghost use Rattle.actions.specs.Outcome.{output_value, outputs_in, outputs_form};
ghost use Rattle.actions.specs.Outcome.{paths_of_outputs};
ghost use Rattle.runs.specs.Engine.{FinishedValue, TakesOutcome, IsValidOutput, HoldValidTrees};
ghost use Rattle.runs.specs.Engine.{at_number};
ghost use Rattle.runs.specs.Calls.{IsOther, Disagrees, IsCompared, first_kept};
ghost use Rattle.runs.specs.Calls.{IsUnlisted, IsOutcomeFault, IsFinished, IsFinishFault};
ghost use Rattle.runs.specs.Ties.{IsFinish, IsForeign};
ghost use Rattle.verifier.specs.Recorded.{HaveOneForm};

use crate::engine::{Engine, Finished, job_at};
use crate::error::RunsError;
use actions::{Command, Outcome, Output};
use blob_digest::Digest;
use messages::Path;
use std::alloc::{AllocError, Allocator};
use verifier::same_entry;

/// Whether the outputs have the same paths, with one node at each.
fn same_outputs<A: Allocator + Copy>(
    alloc: A,
    ones: &[(Path<A>, Output<A>)],
    others: &[(Path<A>, Output<A>)],
) -> Result<bool, AllocError>
    ensures { IfOk result (λ same. IsTrue same
        ↔ (outputs_form (outputs_in ones.now) ≡ outputs_form (outputs_in others.now))) }
{
    if ones.len() != others.len() {
        return Ok(false);
    }
    for (index, one) in ones.iter().enumerate() {
        if !same_entry(alloc, one, &others[index])? {
            return Ok(false);
        }
    }
    Ok(true)
}

/// Whether two outcomes have one form.
fn same_form<A: Allocator + Copy>(
    alloc: A,
    one: &Outcome<A>,
    other: &Outcome<A>,
) -> Result<bool, AllocError>
    ensures { IfOk result (λ same. IsTrue same ↔ HaveOneForm one.now other.now) }
{
    if one.exit_code() != other.exit_code() {
        return Ok(false);
    }
    same_outputs(alloc, one.outputs(), other.outputs())
}

/// Whether what a step came to is another outcome than that of a step with this number and action.
fn is_other<A: Allocator + Copy>(
    alloc: A,
    finished: &Option<Finished<A>>,
    is_step: bool,
    action: &Digest,
    outcome: &Outcome<A>,
) -> Result<bool, AllocError>
    ensures told { (k i : ℕ) → IsTrue is_step ↔ (k ≡ i)
        → IfOk result (λ other. IsTrue other ↔ IsOther finished.now k i action.now outcome.now) }
    ensures memory { IsErr result → (f : FinishedValue) × (finished.now ≡ Some f)
        × (IsTrue is_step ⊎ (f.action ≡ action.now)) }
{
    let Some(finished) = finished else {
        return Ok(false);
    };
    if !is_concerned(is_step, &finished.action, action) {
        return Ok(false);
    }
    Ok(!same_form(alloc, &finished.outcome, outcome)?)
}

/// Whether it is the step, or one with the same action.
fn is_concerned(is_step: bool, one: &Digest, other: &Digest) -> bool
    ensures { IsTrue result ↔ (IsTrue is_step ⊎ (one.now ≡ other.now)) }
{
    if is_step {
        return true;
    }
    *one == *other
}

/// Whether the step, or one that finished with the same action, has another outcome.
fn disagrees<A: Allocator + Copy>(
    alloc: A,
    finished: &[Option<Finished<A>>],
    step: usize,
    action: &Digest,
    outcome: &Outcome<A>,
) -> Result<bool, AllocError>
    ensures told { IfOk result (λ other. IsTrue other
        ↔ Disagrees finished.now step action.now outcome.now) }
    ensures memory { IsErr result → IsCompared finished.now step action.now }
{
    for (number, item) in finished.iter().enumerate() {
        if is_other(alloc, item, number == step, action, outcome)? {
            return Ok(true);
        }
    }
    Ok(false)
}

/// Keeps what a step came to, unless it has finished before.
fn keep_first<A: Allocator>(
    finished: &mut Vec<Option<Finished<A>>, A>,
    step: usize,
    value: Finished<A>,
)
    requires { step < length finished.old.items }
    ensures { finished.new.items
        ≡ first_kept (at_number finished.old.items step) finished.old.items step value }
{
    if finished[step].is_none() {
        finished[step] = Some(value);
    }
}

/// Whether the outcome is taken: its exit code is 0, and the command lists each output. Refusals:
/// `ExitCode` and `Unlisted`.
fn check_outcome<A: Allocator + Copy>(
    alloc: A,
    command: &Command<A>,
    outcome: &Outcome<A>,
) -> Result<(), RunsError<A>>
    ensures taken { OnOk result (TakesOutcome command.now outcome.now) }
    ensures refused { IfErr result (IsOutcomeFault command.now outcome.now) }
{
    let exit_code = outcome.exit_code();
    if exit_code != 0 {
        return Err(RunsError::ExitCode(exit_code));
    }
    check_listed(alloc, command, outcome.outputs())
}

/// What is known of an output by its type. It does nothing.
fn check_output<A: Allocator>(output: &Output<A>)
    ensures { IsValidOutput (output_value output.now) }
{
    if let Output::Tree(tree) = output {
        let _ = tree.root();
    }
}

fn check_listed<A: Allocator + Copy>(
    alloc: A,
    command: &Command<A>,
    outputs: &[(Path<A>, Output<A>)],
) -> Result<(), RunsError<A>>
    ensures listed { OnOk result (AllByRecursion (Contains command.now.output_paths)
        (paths_of_outputs (outputs_in outputs.now))) }
    ensures valid { OnOk result (HoldValidTrees (outputs_in outputs.now)) }
    ensures refused { IfErr result
        (IsUnlisted command.now (paths_of_outputs (outputs_in outputs.now))) }
{
    for output in outputs {
        check_output(&output.1);
        if !command.lists(&output.0) {
            return Err(RunsError::Unlisted(Path::copy_of(alloc, &output.0)?));
        }
    }
    Ok(())
}

impl<'p, A: Allocator + Copy> Engine<'p, A> {
    /// Ends a job that came to an outcome. The first refusal is that of the first of: no job with
    /// the number (`NoSuchJob`), an exit code that isn't 0 (`ExitCode`), an output that the command
    /// doesn't list (`Unlisted`), and that the step, or one that finished with the same action, has
    /// another outcome (`Disagrees`). What a step came to stays what it was at its first finish.
    /// Only to tell an unlisted output, and to compare outcomes, does it take memory.
    pub fn finish(&mut self, alloc: A, id: u64, outcome: Outcome<A>) -> Result<(), RunsError<A>>
        ensures finished { OnOk result (IsFinished id outcome self.old self.new) }
        ensures refused { IfErr result (IsFinishFault self.old id outcome) }
        ensures unchanged { OnErr result (self.new ≡ self.old) }
        // It is the event that the job finishes, if the outcome is the form of one that the job's
        // action comes to.
        ensures event { OnOk result (IsFinish self.old id outcome self.new) }
        ensures foreign { IsErrOf result RunsError.Disagrees → IsForeign self.old id outcome }
    {
        let Some(job) = job_at(&self.jobs, id) else {
            return Err(RunsError::NoSuchJob);
        };
        let step = job.step;
        let action = job.action;
        check_outcome(alloc, &self.commands[step], &outcome)?;
        if disagrees(alloc, &self.finished, step, &action, &outcome)? {
            return Err(RunsError::Disagrees);
        }
        keep_first(&mut self.finished, step, Finished { action, outcome });
        self.jobs[id as usize] = None;
        Ok(())
    }
}
