ghost use Rattle.std.specs.Prelude.{◌≡◌, ◌<◌, ◌≤◌, Some, IfOk, IfErr, IsErrOf, OnOk, OnErr, length};
ghost use Rattle.std.specs.Prelude.{slice_get};
ghost use Rattle.plan.specs.Values.{StepValue};
ghost use Rattle.tree.specs.Memo.{IsKnownOf, WasRefused, Learns, known_by};
ghost use Rattle.blob_source.specs.Called.{Called};
ghost use Rattle.runs.specs.Calls.{IsLeastIn, placed, IsPrepared, IsStarted, IsReady, IsStartFault};
ghost use Rattle.runs.specs.Ties.{IsStart, TellsConflict, TellsMissing};
ghost use Rattle.runs.specs.LooksAt.{LinesNeed, StartNeeds};
ghost use Rattle.runs.specs.Looking.{ExplainsRefusal, StandsIn, together_in};

use crate::engine::{Engine, Running};
use crate::error::RunsError;
use actions::{Action, Command, Frame};
use blob_digest::Digest;
use std::alloc::{AllocError, Allocator};
use tree::{BlobSource, Folded, Memo, TreeError};

/// A job that was started.
#[derive(Drop)]
pub struct Job<A: Allocator> {
    /// The number of the job: the least that wasn't in use.
    pub id: u64,
    pub step: usize,
    pub action: Action<A>,
    /// The digest of the action.
    pub digest: Digest,
    pub command: Command<A>,
    /// The Directories of its input.
    pub input: Folded<A>,
}

/// The least number that no job has.
pub(crate) fn free_number(jobs: &[Option<Running>]) -> usize
    ensures { IsLeastIn jobs.now result }
{
    for (number, job) in jobs.iter().enumerate() {
        if job.is_none() {
            return number;
        }
    }
    jobs.len()
}

/// One more job, at a number that none has.
pub(crate) fn place<A: Allocator>(
    jobs: &mut Vec<Option<Running>, A>,
    number: usize,
    job: Running,
) -> Result<(), AllocError>
    requires { number ≤ length jobs.old.items }
    ensures placed { OnOk result (jobs.new.items ≡ placed jobs.old.items number job) }
    ensures kept { OnErr result (jobs.new.items ≡ jobs.old.items) }
{
    if number == jobs.len() {
        jobs.push(Some(job))?;
    } else {
        jobs[number] = Some(job);
    }
    Ok(())
}

impl<'p, A: Allocator + Copy> Engine<'p, A> {
    /// The job of a step that may start: its frame with the root of what its lines put together is
    /// the action. Refusals: `Origin`, `Source` and `Conflict`.
    fn prepare<S: BlobSource<A>>(
        &self,
        alloc: A,
        step: usize,
        id: u64,
        memo: &mut Memo<A>,
        source: &mut S,
    ) -> Result<Job<A>, RunsError<A>>
        requires within { step < length self.now.plan.steps }
        requires there { IsReady self.now step }
        requires known { IsKnownOf (known_by memo.old) (S.tells source.old) }
        ensures prepared { IfOk result (IsPrepared (S.tells source.new).blobs self.now step id) }
        ensures faulty { (s : StepValue) → slice_get self.now.plan.steps step ≡ Some s
            → IfErr result (ExplainsRefusal
            (together_in (S.tells source.new).blobs self.now s.lines).fails) }
        ensures called { Called (S.tells source.old) (S.tells source.new)
            (IsErrOf result (RunsError.Source TreeError.Fetch)) }
        ensures learned { (s : StepValue) → slice_get self.now.plan.steps step ≡ Some s
            → Learns (LinesNeed (S.tells source.new).blobs self.now s.lines) (WasRefused result)
            (known_by memo.old) (known_by memo.new) (S.tells source.old) (S.tells source.new) }
    {
        let steps = self.plan.steps();
        let planned = &steps[step];
        let input = self.put_together(alloc, &planned.lines, memo, source)?;
        let frames = self.frames.as_slice();
        let frame = Frame::copy_of(alloc, &frames[step])?;
        let action = frame.with_input(input.root);
        let digest = Digest::of(&action.encode(alloc)?);
        let commands = self.commands.as_slice();
        let command = Command::copy_of(alloc, &commands[step])?;
        Ok(Job {
            id,
            step,
            action,
            digest,
            command,
            input,
        })
    }
}

/// The most jobs that run at once.
const MOST_JOBS: usize = 4096;

impl<'p, A: Allocator + Copy> Engine<'p, A> {
    /// Starts a step as a job, also one that runs or has finished. The first refusal is that of the
    /// first of: a step that its lines read hasn't finished (`NotReady`), 4,096 jobs run (`Full`),
    /// the first line without an origin (`Origin`, `Source`), and the first fault where lines meet
    /// (`Conflict`, `Source`). A Directory that the memo knows isn't fetched, and one that is
    /// fetched is kept.
    pub fn start<S: BlobSource<A>>(
        &mut self,
        alloc: A,
        step: usize,
        memo: &mut Memo<A>,
        source: &mut S,
    ) -> Result<Job<A>, RunsError<A>>
        requires within { step < length self.old.plan.steps }
        requires known { IsKnownOf (known_by memo.old) (S.tells source.old) }
        ensures started { IfOk result
            (IsStarted (S.tells source.new).blobs step self.old self.new) }
        // It is the event that the step starts.
        ensures event { IfOk result
            (λ job. IsStart (S.tells source.new).blobs self.old step job.id job.digest self.new) }
        ensures ready { IfOk result (λ _. IsReady self.old step) }
        ensures refused { IfErr result (IsStartFault (S.tells source.new).blobs self.old step) }
        ensures stands { IfErr result (StandsIn (S.tells source.new).blobs) }
        // `Origin` says that nothing stands at the origin in any run that the engine mirrors.
        ensures missing { (s : StepValue) → slice_get self.old.plan.steps step ≡ Some s
            → IfErr result (TellsMissing (S.tells source.new).blobs self.old s.lines) }
        // `Conflict` says that the lines don't merge in any run that the engine mirrors.
        ensures conflict { (s : StepValue) → slice_get self.old.plan.steps step ≡ Some s
            → IfErr result (TellsConflict (S.tells source.new).blobs self.old s.lines) }
        ensures unchanged { OnErr result (self.new ≡ self.old) }
        ensures called { Called (S.tells source.old) (S.tells source.new)
            (IsErrOf result (RunsError.Source TreeError.Fetch)) }
        // Of what the step's lines need, the source is asked at most once for each that isn't
        // known; and nothing else is learned.
        ensures learned { Learns (StartNeeds (S.tells source.new).blobs self.old step)
            (WasRefused result)
            (known_by memo.old) (known_by memo.new) (S.tells source.old) (S.tells source.new) }
    {
        let _ = self.plan.steps();
        if !self.ready(step) {
            return Err(RunsError::NotReady);
        }
        let number = free_number(&self.jobs);
        if number >= MOST_JOBS {
            return Err(RunsError::Full);
        }
        let job = self.prepare(alloc, step, number as u64, memo, source)?;
        let running = Running {
            step,
            action: job.digest,
            input: job.action.input_root_digest(),
        };
        place(&mut self.jobs, number, running)?;
        Ok(job)
    }
}
