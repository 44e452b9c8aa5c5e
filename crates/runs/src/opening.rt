ghost use Rattle.std.specs.Prelude.{◌≡◌, ◌≤◌, ◌+◌, ◌*◌, ℕ, false, None, IfOk, IfErr, IsErrOf};
ghost use Rattle.std.specs.Prelude.{length};
ghost use Rattle.std.specs.List.{AllByRecursion};
ghost use Rattle.runs.specs.Ties.{IsOpening};
ghost use Rattle.action_messages.specs.Command.{IsCommand, command_bytes};
ghost use Rattle.action_messages.specs.Frame.{IsFrame, frame_bytes};
ghost use Rattle.blob_source.specs.Called.{Called};
ghost use Rattle.blob_source.specs.Told.{IsTold, Fault, IsFault};
ghost use Rattle.runs.specs.Calls.{TellsStep, AreTold, IsUntold, IsOpeningFault, IsOpened};
ghost use Rattle.runs.specs.Calls.{IsOpenFault, StopsAtFrame, opening_calls};
ghost use Rattle.runs.specs.LooksAt.{MeaningLooksAt, OpeningLooksAt};
ghost use Rattle.tree.specs.Memo.{AsksNoOther, LooksAtBlob};

use crate::engine::{Engine, Finished};
use crate::error::OpenError;
use actions::{Command, Frame};
use blob_digest::Digest;
use messages::Message;
use plan::{Plan, Step};
use std::alloc::{AllocError, Allocator};
use tree::{BlobSource, TreeError, fetch_message};

/// The message of a step with a digest.
fn read_message<A: Allocator + Copy, S: BlobSource<A>, M: Message<A>>(
    alloc: A,
    number: usize,
    digest: &Digest,
    source: &mut S,
) -> Result<M, OpenError<A>>
    ensures told { IfOk result
        (λ m. IsTold M.keeps M.spells (S.tells source.new).blobs digest.now m) }
    ensures faulty { IfErr result
        (IsUntold number (IsFault M.keeps M.spells (S.tells source.new).blobs digest.now)) }
    ensures called { Called (S.tells source.old) (S.tells source.new)
        ((i : ℕ) × IsErrOf result (OpenError.Source i TreeError.Fetch)) }
    ensures few { (S.tells source.new).calls ≤ (S.tells source.old).calls + 1 }
    ensures only { AsksNoOther (LooksAtBlob digest.now)
        (S.tells source.old) (S.tells source.new) }
{
    match fetch_message(alloc, source, digest) {
        Ok(message) => Ok(message),
        Err(TreeError::Memory) => Err(OpenError::Memory),
        Err(error) => Err(OpenError::Source(number, error)),
    }
}

/// The frame of a step and its command.
#[derive(Drop)]
pub(crate) struct Meaning<A: Allocator> {
    pub(crate) frame: Frame<A>,
    pub(crate) command: Command<A>,
}

/// What a step means; its result may be kept for other builds.
fn read_step<A: Allocator + Copy, S: BlobSource<A>>(
    alloc: A,
    number: usize,
    step: &Step<A>,
    source: &mut S,
) -> Result<Meaning<A>, OpenError<A>>
    ensures told { IfOk result
        (λ m. TellsStep (S.tells source.new).blobs step.now m.frame m.command) }
    ensures cached { IfOk result (λ m. m.frame.do_not_cache ≡ false) }
    ensures faulty { IfErr result
        (λ e. IsOpeningFault (S.tells source.new).blobs number step.now e) }
    ensures called { Called (S.tells source.old) (S.tells source.new)
        ((i : ℕ) × IsErrOf result (OpenError.Source i TreeError.Fetch)) }
    ensures few { (S.tells source.new).calls ≤ (S.tells source.old).calls + 2 }
    ensures frame { (i : ℕ) → IsErrOf result (OpenError.DoNotCache i)
        → (S.tells source.new).calls ≤ (S.tells source.old).calls + 1 }
    ensures untold { (f : Fault)
        → IsFault IsFrame frame_bytes (S.tells source.new).blobs step.now.frame f
        → (S.tells source.new).calls ≤ (S.tells source.old).calls + 1 }
    ensures only { AsksNoOther (MeaningLooksAt (S.tells source.new).blobs step.now)
        (S.tells source.old) (S.tells source.new) }
{
    let frame: Frame<A> = read_message(alloc, number, &step.frame, source)?;
    if frame.do_not_cache() {
        return Err(OpenError::DoNotCache(number));
    }
    let command = read_message(alloc, number, &frame.command_digest(), source)?;
    Ok(Meaning { frame, command })
}

/// What the steps of a plan mean, in their order.
#[derive(Drop)]
struct Meanings<A: Allocator> {
    frames: Vec<Frame<A>, A>,
    commands: Vec<Command<A>, A>,
}

/// What the steps mean; their results may be kept for other builds.
fn read_steps<A: Allocator + Copy, S: BlobSource<A>>(
    alloc: A,
    steps: &[Step<A>],
    source: &mut S,
) -> Result<Meanings<A>, OpenError<A>>
    ensures told { IfOk result
        (λ m. AreTold (S.tells source.new).blobs steps.now m.frames.items m.commands.items) }
    ensures faulty { IfErr result (IsOpenFault (S.tells source.new).blobs steps.now) }
    ensures called { Called (S.tells source.old) (S.tells source.new)
        ((i : ℕ) × IsErrOf result (OpenError.Source i TreeError.Fetch)) }
    ensures few { (S.tells source.new).calls
        ≤ (S.tells source.old).calls + 2 * length steps.now }
    ensures last { IfErr result (λ e. (S.tells source.new).calls
        ≤ (S.tells source.old).calls + opening_calls (length steps.now) e) }
    ensures frame { StopsAtFrame steps.now (S.tells source.old) (S.tells source.new) }
    ensures only { AsksNoOther (OpeningLooksAt (S.tells source.new).blobs steps.now)
        (S.tells source.old) (S.tells source.new) }
{
    let mut frames = Vec::new(alloc);
    let mut commands = Vec::new(alloc);
    for (number, step) in steps.iter().enumerate() {
        let meaning = read_step(alloc, number, step, source)?;
        frames.push(meaning.frame)?;
        commands.push(meaning.command)?;
    }
    Ok(Meanings { frames, commands })
}

/// A place for each of so many steps, none of which has finished.
fn none_finished<A: Allocator + Copy>(
    alloc: A,
    count: usize,
) -> Result<Vec<Option<Finished<A>>, A>, AllocError>
    ensures none { IfOk result (λ v. AllByRecursion (λ f. f ≡ None) v.items) }
    ensures count { IfOk result (λ v. length v.items ≡ count) }
{
    let mut finished = Vec::new(alloc);
    for _ in 0..count {
        finished.push(None)?;
    }
    Ok(finished)
}

impl<'p, A: Allocator + Copy> Engine<'p, A> {
    /// An engine of the plan, over sources with this digest. The frame and the command of each step
    /// are fetched, in the order of the plan; the first fault ends it. Refusals: `Source` and
    /// `DoNotCache`.
    pub fn new<S: BlobSource<A>>(
        alloc: A,
        plan: &'p Plan<A>,
        sources: Digest,
        source: &mut S,
    ) -> Result<Engine<'p, A>, OpenError<A>>
        ensures opened { IfOk result (IsOpened (S.tells source.new).blobs plan.now sources) }
        // It mirrors the opening state of every run.
        ensures mirrors { IfOk result (IsOpening (S.tells source.new).blobs) }
        ensures refused { IfErr result (IsOpenFault (S.tells source.new).blobs plan.now.steps) }
        ensures called { Called (S.tells source.old) (S.tells source.new)
            ((i : ℕ) × IsErrOf result (OpenError.Source i TreeError.Fetch)) }
        // The source is asked for a frame and a command of each step, and for nothing after the
        // first fault.
        ensures few { (S.tells source.new).calls
            ≤ (S.tells source.old).calls + 2 * length plan.now.steps }
        ensures last { IfErr result (λ e. (S.tells source.new).calls
            ≤ (S.tells source.old).calls + opening_calls (length plan.now.steps) e) }
        ensures frame { StopsAtFrame plan.now.steps (S.tells source.old) (S.tells source.new) }
        // And for no other blob.
        ensures only { AsksNoOther (OpeningLooksAt (S.tells source.new).blobs plan.now.steps)
            (S.tells source.old) (S.tells source.new) }
    {
        let meanings = read_steps(alloc, plan.steps(), source)?;
        let finished = none_finished(alloc, plan.steps().len())?;
        let _ = sources.size();
        Ok(Engine {
            plan,
            sources,
            frames: meanings.frames,
            commands: meanings.commands,
            finished,
            jobs: Vec::new(alloc),
        })
    }
}
