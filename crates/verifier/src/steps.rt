ghost use Rattle.std.specs.Prelude.{◌≡◌, ◌≢◌, IfOk, IfErr, IsErrOf, IsOk, length};
ghost use Rattle.action_messages.specs.ActionResult.{ActionResultValue};
ghost use Rattle.action_messages.specs.Reads.{Reads};
ghost use Rattle.std.specs.List.{AllByRecursion, Contains};
ghost use Rattle.actions.specs.Outcome.{output_value, outputs_in, paths_of_outputs};
ghost use Rattle.action_messages.specs.Outputs.{recorded_value, recorded_values, recorded_path};
ghost use Rattle.actions.specs.Recorded.{StandsFor, StandForAll};
ghost use Rattle.plan.specs.Values.{IsLine};
ghost use Rattle.tree.specs.Difference.{made_by};
ghost use Rattle.tree.specs.Folded.{IsFoldOf, IsFoldOfValid};
ghost use Rattle.tree.specs.Form.{NodeValue};
ghost use Rattle.tree.specs.Tree as trees;
ghost use Rattle.verifier.specs.Answers.{IsDifference, IsDifferenceCause};
ghost use Rattle.blob_source.specs.Called.{Called};
ghost use Rattle.tree.specs.Memo.{IsKnownOf, WasRefused, Learns, known_by};
ghost use Rattle.tree.specs.Memo.{IsWithout, LooksAtResult};
ghost use Rattle.tree.specs.LooksAt.{Compares};
ghost use Rattle.verifier.specs.Checks.{Checks};
ghost use Rattle.verifier.specs.LooksAt.{DifferenceLooksAt, InputLooksAt, OutcomeLooksAt};
ghost use Rattle.verifier.specs.LooksAt.{OutputsLookAt, ResultLooksAt, StepLooksAt};
ghost use Rattle.actions.specs.LooksAt.{OutputLooksAt};
ghost use Rattle.verifier.specs.Stage.{ExplainsFault, Answers};
ghost use Rattle.verifier.specs.declared.verdict.Cause.TheVariants as causes;
ghost use Rattle.verifier.specs.StepChecks.{IsRefusedOutput, OutputFault, cached, framed};
ghost use Rattle.verifier.specs.StepChecks.{same_input, input_check, result_held, succeeded, read};
ghost use Rattle.verifier.specs.StepChecks.{result_check, step_check};

use crate::fault::{Fault, fault_of};
use crate::origins::together;
use crate::told::told;
use crate::verdict::Cause;
use actions::{Action, ActionResult, Command, Outcome, Output, RecordedOutput};
use blob_digest::Digest;
use messages::{MessageError, Path};
use plan::{Line, Step};
use std::alloc::Allocator;
use tree::{BlobSource, Difference, Folded, Memo, first_difference};

/// The outcome that was recorded of a step, or its first fault. The steps before it came to these
/// outcomes.
pub(crate) fn check_step<A: Allocator + Copy, S: BlobSource<A>>(
    alloc: A,
    sources: &Digest,
    outcomes: &[Outcome<A>],
    step: &Step<A>,
    recorded: &Digest,
    memo: &mut Memo<A>,
    source: &mut S,
) -> Result<Outcome<A>, Fault<A>>
    requires lines { AllByRecursion (IsLine (length outcomes.now)) step.now.lines }
    requires known { IsKnownOf (known_by memo.old) (S.tells source.old) }
    ensures { Checks (λ tells. step_check tells sources.now outcomes.now step.now recorded.now)
        (λ tells. StepLooksAt A tells sources.now outcomes.now step.now recorded.now)
        (known_by memo.old) (known_by memo.new) (S.tells source.old) (S.tells source.new) result }
{
    let action: Action<A> = told(alloc, recorded, memo, source)?;
    check_cached(&action)?;
    let command: Command<A> = told(alloc, &action.command_digest(), memo, source)?;
    check_frame(alloc, &action, step)?;
    check_input(alloc, sources, outcomes, &step.lines, &action, memo, source)?;
    check_result(alloc, recorded, &command, memo, source)
}

/// The action may be cached.
fn check_cached<A: Allocator>(action: &Action<A>) -> Result<(), Fault<A>>
    ensures checked { Answers (cached action.now) result }
    ensures fetch { IsErrOf result Fault.Fetch → ⊥ }
    ensures memory { IsErrOf result Fault.Memory → ⊥ }
{
    if action.do_not_cache() {
        return Err(Fault::Cause(Cause::DoNotCache));
    }
    Ok(())
}

/// The action's frame is the plan's.
fn check_frame<A: Allocator + Copy>(
    alloc: A,
    action: &Action<A>,
    step: &Step<A>,
) -> Result<(), Fault<A>>
    ensures checked { Answers (framed action.now step.now.frame) result }
    ensures fetch { IsErrOf result Fault.Fetch → ⊥ }
{
    let frame = Digest::of(&action.frame().encode(alloc)?);
    if frame != step.frame {
        return Err(Fault::Cause(Cause::FrameDiffers));
    }
    Ok(())
}

/// The action's input is what the lines put together. The steps before came to these outcomes.
fn check_input<A: Allocator + Copy, S: BlobSource<A>>(
    alloc: A,
    sources: &Digest,
    outcomes: &[Outcome<A>],
    lines: &[Line<A>],
    action: &Action<A>,
    memo: &mut Memo<A>,
    source: &mut S,
) -> Result<(), Fault<A>>
    requires lines { AllByRecursion (IsLine (length outcomes.now)) lines.now }
    requires known { IsKnownOf (known_by memo.old) (S.tells source.old) }
    ensures { Checks
        (λ tells. input_check tells.blobs sources.now outcomes.now lines.now action.now)
        (λ tells. InputLooksAt A tells.blobs sources.now outcomes.now lines.now action.now)
        (known_by memo.old) (known_by memo.new) (S.tells source.old) (S.tells source.new) result }
{
    let input = together(alloc, sources, outcomes, lines, memo, source)?;
    compare_input(alloc, action, &input, memo, source)
}

/// The action's input is the tree of which this is the fold.
fn compare_input<A: Allocator + Copy, S: BlobSource<A>>(
    alloc: A,
    action: &Action<A>,
    input: &Folded<A>,
    memo: &mut Memo<A>,
    source: &mut S,
) -> Result<(), Fault<A>>
    requires valid { IsFoldOfValid input.now }
    requires known { IsKnownOf (known_by memo.old) (S.tells source.old) }
    ensures { (t : trees.Tree NodeValue) → IsFoldOf t input.now
        → Checks (λ tells. same_input tells.blobs action.now t)
        (λ tells. DifferenceLooksAt tells.blobs action.now t)
        (known_by memo.old) (known_by memo.new) (S.tells source.old) (S.tells source.new) result }
{
    let recorded = action.input_root_digest();
    if input.root != recorded {
        return Err(explain_difference(alloc, input, &recorded, memo, source));
    }
    Ok(())
}

/// Why the tree of which this is the fold isn't the recorded input.
fn explain_difference<A: Allocator + Copy, S: BlobSource<A>>(
    alloc: A,
    made: &Folded<A>,
    input: &Digest,
    memo: &mut Memo<A>,
    source: &mut S,
) -> Fault<A>
    requires valid { IsFoldOfValid made.now }
    requires known { IsKnownOf (known_by memo.old) (S.tells source.old) }
    requires other { input.now ≢ made.now.root }
    ensures explained { ExplainsFault (IsDifference (made_by made.now)
        (S.tells source.new).blobs made.now.root input.now) result }
    ensures called { Called (S.tells source.old) (S.tells source.new) (result ≡ Fault.Fetch) }
    ensures learned { Learns (Compares (made_by made.now) (S.tells source.new).blobs 64
        made.now.root input.now) (Unit {0})
        (known_by memo.old) (known_by memo.new) (S.tells source.old) (S.tells source.new) }
{
    match first_difference(alloc, made, input, memo, source) {
        Ok(Some(difference)) => Fault::Cause(cause_of_difference(difference)),
        Ok(None) => unreachable!(),
        Err(error) => fault_of(error),
    }
}

fn cause_of_difference<A: Allocator>(difference: Difference<A>) -> Cause<A>
    ensures { IsDifferenceCause difference result }
{
    match difference {
        Difference::Unexplained(path) => Cause::InputUnexplained(path),
        Difference::Absent(path) => Cause::InputAbsent(path),
        Difference::Differs(path) => Cause::InputDiffers(path),
    }
}

/// The outcome of the result that the source has for the action with this digest: the process ended
/// well, and the outputs are the command's.
fn check_result<A: Allocator + Copy, S: BlobSource<A>>(
    alloc: A,
    recorded: &Digest,
    command: &Command<A>,
    memo: &mut Memo<A>,
    source: &mut S,
) -> Result<Outcome<A>, Fault<A>>
    requires { IsKnownOf (known_by memo.old) (S.tells source.old) }
    ensures { Checks (λ tells. result_check tells command.now recorded.now)
        (λ tells. ResultLooksAt A tells command.now recorded.now)
        (known_by memo.old) (known_by memo.new) (S.tells source.old) (S.tells source.new) result }
{
    let made = held_result(alloc, recorded, memo, source)?;
    check_exit_code(&made)?;
    read_outcome(alloc, command, &made, memo, source)
}

/// The result that the source has for the action with this digest.
fn held_result<A: Allocator + Copy, S: BlobSource<A>>(
    alloc: A,
    recorded: &Digest,
    memo: &mut Memo<A>,
    source: &mut S,
) -> Result<ActionResult<A>, Fault<A>>
    requires { IsKnownOf (known_by memo.old) (S.tells source.old) }
    ensures checked { Answers (result_held (S.tells source.new).results recorded.now) result }
    ensures called { Called (S.tells source.old) (S.tells source.new) (IsErrOf result Fault.Fetch) }
    ensures learned { Learns (LooksAtResult recorded.now) (WasRefused result)
        (known_by memo.old) (known_by memo.new) (S.tells source.old) (S.tells source.new) }
{
    match memo.result(alloc, source, recorded)? {
        None => Err(Fault::Cause(Cause::ResultMissing)),
        Some(bytes) => decode_result(alloc, &bytes),
    }
}

/// The result that the bytes are.
fn decode_result<A: Allocator + Copy>(alloc: A, bytes: &[u8]) -> Result<ActionResult<A>, Fault<A>>
    ensures found { IfOk result (λ r. Reads r bytes.now) }
    ensures none { IfErr result (ExplainsFault (λ c.
        ((r : ActionResultValue) → Reads r bytes.now → ⊥) × (c ≡ causes.ResultMalformed))) }
    ensures fetch { IsErrOf result Fault.Fetch → ⊥ }
{
    match ActionResult::decode(alloc, bytes) {
        Ok(result) => Ok(result),
        Err(MessageError::Memory) => Err(Fault::Memory),
        Err(_) => Err(Fault::Cause(Cause::ResultMalformed)),
    }
}

/// The recorded process ended well.
fn check_exit_code<A: Allocator>(made: &ActionResult<A>) -> Result<(), Fault<A>>
    ensures checked { Answers (succeeded made.now) result }
    ensures fetch { IsErrOf result Fault.Fetch → ⊥ }
    ensures memory { IsErrOf result Fault.Memory → ⊥ }
{
    let exit_code = made.exit_code();
    if exit_code != 0 {
        return Err(Fault::Cause(Cause::ExitCode(exit_code)));
    }
    Ok(())
}

/// The outcome that the result stands for; its outputs must be the command's.
fn read_outcome<A: Allocator + Copy, S: BlobSource<A>>(
    alloc: A,
    command: &Command<A>,
    made: &ActionResult<A>,
    memo: &mut Memo<A>,
    source: &mut S,
) -> Result<Outcome<A>, Fault<A>>
    requires { IsKnownOf (known_by memo.old) (S.tells source.old) }
    ensures checked { Answers (read (S.tells source.new).blobs command.now made.now) result }
    ensures called { Called (S.tells source.old) (S.tells source.new) (IsErrOf result Fault.Fetch) }
    ensures learned { Learns (OutcomeLooksAt (S.tells source.new).blobs command.now made.now)
        (WasRefused result)
        (known_by memo.old) (known_by memo.new) (S.tells source.old) (S.tells source.new) }
{
    let recorded = made.outputs(alloc)?;
    let outputs = read_outputs(alloc, command, &recorded, memo, source)?;
    Ok(Outcome::from_outputs(made.exit_code(), outputs))
}

/// What all outputs stand for, each at its path, or why the first of them is refused.
fn read_outputs<A: Allocator + Copy, S: BlobSource<A>>(
    alloc: A,
    command: &Command<A>,
    recorded: &[RecordedOutput<'_, A>],
    memo: &mut Memo<A>,
    source: &mut S,
) -> Result<Vec<(Path<A>, Output<A>), A>, Fault<A>>
    requires { IsKnownOf (known_by memo.old) (S.tells source.old) }
    ensures read { IfOk result (λ v. StandForAll (S.tells source.new).blobs
        (recorded_values recorded.now) (outputs_in v.items)) }
    ensures listed { IfOk result (λ v.
        AllByRecursion (Contains command.now.output_paths)
        (paths_of_outputs (outputs_in v.items))) }
    ensures refused { IfErr result (ExplainsFault (OutputFault (S.tells source.new).blobs
        command.now (recorded_values recorded.now))) }
    ensures called { Called (S.tells source.old) (S.tells source.new) (IsErrOf result Fault.Fetch) }
    ensures learned { Learns (OutputsLookAt (S.tells source.new).blobs command.now
        (recorded_values recorded.now)) (WasRefused result)
        (known_by memo.old) (known_by memo.new) (S.tells source.old) (S.tells source.new) }
{
    let mut outputs = Vec::new(alloc);
    for output in recorded {
        let read = read_output(alloc, command, output, memo, source)?;
        outputs.push((Path::copy_of(alloc, output.path())?, read))?;
    }
    Ok(outputs)
}

/// What an output stands for; its path must be one of the command's.
fn read_output<A: Allocator + Copy, S: BlobSource<A>>(
    alloc: A,
    command: &Command<A>,
    output: &RecordedOutput<'_, A>,
    memo: &mut Memo<A>,
    source: &mut S,
) -> Result<Output<A>, Fault<A>>
    requires { IsKnownOf (known_by memo.old) (S.tells source.old) }
    ensures read { IfOk result (λ x. StandsFor (S.tells source.new).blobs
        (recorded_value output.now) (output_value x)) }
    ensures listed { IsOk result
        → Contains command.now.output_paths (recorded_path (recorded_value output.now)) }
    ensures refused { IfErr result (ExplainsFault (IsRefusedOutput (S.tells source.new).blobs
        command.now (recorded_value output.now))) }
    ensures called { Called (S.tells source.old) (S.tells source.new) (IsErrOf result Fault.Fetch) }
    ensures learned { Learns (λ a. Contains command.now.output_paths
        (recorded_path (recorded_value output.now)) × OutputLooksAt (recorded_value output.now) a)
        (WasRefused result)
        (known_by memo.old) (known_by memo.new) (S.tells source.old) (S.tells source.new) }
{
    if !command.lists(output.path()) {
        let path = Path::copy_of(alloc, output.path())?;
        return Err(Fault::Cause(Cause::OutputUnlisted(path)));
    }
    match Output::read_with(alloc, output, memo, source) {
        Ok(read) => Ok(read),
        Err(error) => Err(fault_of(error)),
    }
}
