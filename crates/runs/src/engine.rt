ghost use Rattle.std.specs.Prelude.{◌≡◌, ◌↔◌, ◌<◌, ◌≤◌, None, Some, IsTrue, IsSome, IsErr, IfOk};
ghost use Rattle.std.specs.Prelude.{IfErr, option_map, OnOk, OnErr, length, slice_get};
ghost use Rattle.std.specs.List.{AllByRecursion};
ghost use Rattle.plan.specs.Lines.{origin_value};
ghost use Rattle.plan.specs.Values.{StepValue, IsOrigin, IsLine};
ghost use Rattle.verifier.specs.Build.{lose};
ghost use Rattle.std.specs.Option.{option_copied};
ghost use Rattle.runs.specs.Engine.{IsEngine, at_number, finished_in, job_in};
ghost use Rattle.plan.specs.Record.{RecordValue, names_of};
ghost use Rattle.runs.specs.Calls.{without_job, jobs_of, kept_digests, recorded_build, IsReady};
ghost use Rattle.runs.specs.Looking.{outcomes_in};
ghost use Rattle.verifier.specs.Together.{AreThere, IsThere};
ghost use Rattle.runs.specs.Mirrors.{nothing_told};
ghost use Rattle.runs.specs.Ties.{IsEvent, TellsFinished, TellsReady, TellsRunning, IsRecordOf};

use crate::error::RunsError;
use actions::{Command, Frame, Outcome};
use blob_digest::Digest;
use plan::{Line, Origin, Plan, Record};
use std::alloc::{AllocError, Allocator};
use std::marker::Model;

/// What a step that has finished came to.
#[derive(Drop)]
pub(crate) struct Finished<A: Allocator> {
    /// The digest of the action that finished first.
    pub(crate) action: Digest,
    pub(crate) outcome: Outcome<A>,
}

impl<A: Allocator> Model for Finished<A> {
    ghost use Rattle.runs.specs.Engine.{FinishedValue};

    ghost Value = { FinishedValue };

    ghost view = { λ a. record { action = a.action; outcome = a.outcome } };
}

/// A job that runs.
#[derive(Drop)]
pub(crate) struct Running {
    pub(crate) step: usize,
    /// The digest of its action.
    pub(crate) action: Digest,
    /// The digest of the root of its input.
    pub(crate) input: Digest,
}

impl Model for Running {
    ghost use Rattle.runs.specs.Engine.{JobValue};

    ghost Value = { JobValue };

    ghost view = { λ a. record { step = a.step; action = a.action; input = a.input } };
}

/// The core of a build: the plan, what its steps mean, what has finished, and the jobs that run.
#[derive(Drop)]
pub struct Engine<'p, A: Allocator> {
    pub(crate) plan: &'p Plan<A>,
    pub(crate) sources: Digest,
    pub(crate) frames: Vec<Frame<A>, A>,
    pub(crate) commands: Vec<Command<A>, A>,
    /// By a step's number.
    pub(crate) finished: Vec<Option<Finished<A>>, A>,
    /// By a job's number.
    pub(crate) jobs: Vec<Option<Running>, A>,
}

impl<'p, A: Allocator> Model for Engine<'p, A> {
    ghost use Rattle.runs.specs.Engine.{EngineValue, IsEngine};

    ghost Value = { EngineValue };

    ghost view = { λ a. record {
      plan = a.plan.now;
      sources = a.sources;
      frames = a.frames.items;
      commands = a.commands.items;
      finished = a.finished.items;
      jobs = a.jobs.items;
    } };

    ghost invariant = { λ a. IsEngine (record {
      plan = a.plan.now;
      sources = a.sources;
      frames = a.frames.items;
      commands = a.commands.items;
      finished = a.finished.items;
      jobs = a.jobs.items;
    }) };
}

impl<'p, A: Allocator + Copy> Engine<'p, A> {
    /// The plan.
    pub fn plan(&self) -> &'p Plan<A>
        ensures value { result.now ≡ self.now.plan }
        ensures valid { IsEngine self.now }
    {
        let _ = &self.sources;
        self.plan
    }

    /// Whether the step has finished. It takes no memory.
    pub fn finished(&self, step: usize) -> bool
        requires { step < length self.now.plan.steps }
        ensures value { IsTrue result ↔ IsSome (finished_in step self.now) }
        ensures state { TellsFinished self.now step result }
    {
        self.finished[step].is_some()
    }

    /// How many jobs of the step run. It takes no memory.
    pub fn running(&self, step: usize) -> usize
        requires { step < length self.now.plan.steps }
        ensures value { result ≡ jobs_of step self.now.jobs }
        ensures state { TellsRunning self.now step result }
    {
        count_of(&self.jobs, step)
    }

    /// Whether each step that the step's lines read has finished. It takes no memory.
    pub fn ready(&self, step: usize) -> bool
        requires { step < length self.now.plan.steps }
        ensures value { IsTrue result ↔ IsReady self.now step }
        ensures state { TellsReady self.now step result }
    {
        let steps = self.plan.steps();
        let step = &steps[step];
        are_there(&self.finished, &step.lines)
    }

    /// The digests of the actions that finished, if each step has.
    pub fn record(&self, alloc: A) -> Result<Option<Record<A>>, AllocError>
        ensures value { IfOk result (λ noted. noted ≡ recorded_build self.now) }
        ensures state { IfOk result (IsRecordOf self.now) }
    {
        match kept_digests(alloc, &self.finished)? {
            None => Ok(None),
            Some(digests) => Ok(Some(Record::new(alloc, self.plan, digests)?)),
        }
    }

    /// Ends a job that was lost. `NoSuchJob` where none with the number runs. It takes no memory.
    pub fn lose(&mut self, id: u64) -> Result<(), RunsError<A>>
        ensures lost { OnOk result (self.new ≡ without_job id self.old) }
        ensures refused { IfErr result (λ e. e ≡ RunsError.NoSuchJob) }
        ensures no_job { IsErr result ↔ (job_in id self.old ≡ None) }
        ensures unchanged { OnErr result (self.new ≡ self.old) }
        // It is the event that the job is lost.
        ensures event { OnOk result (IsEvent nothing_told self.old (lose id) self.new) }
    {
        if job_at(&self.jobs, id).is_none() {
            return Err(RunsError::NoSuchJob);
        }
        self.jobs[id as usize] = None;
        Ok(())
    }
}

/// The digests of the actions, if each step has finished.
fn kept_digests<A: Allocator + Copy>(
    alloc: A,
    finished: &[Option<Finished<A>>],
) -> Result<Option<Vec<Digest, A>>, AllocError>
    ensures { IfOk result (λ kept. option_map (λ v. v.items) kept ≡ kept_digests finished.now) }
{
    let mut digests = Vec::new(alloc);
    for step in finished {
        match step {
            None => return Ok(None),
            Some(step) => digests.push(step.action)?,
        }
    }
    Ok(Some(digests))
}

/// The job with this number, if it runs.
pub(crate) fn job_at(jobs: &[Option<Running>], id: u64) -> Option<&Running>
    ensures { option_copied result ≡ at_number jobs.now id }
{
    match jobs.get(id as usize) {
        Some(Some(job)) => Some(job),
        _ => None,
    }
}

/// How many of the jobs are of a step.
fn count_of(jobs: &[Option<Running>], step: usize) -> usize
    ensures value { result ≡ jobs_of step jobs.now }
    ensures few { result ≤ length jobs.now }
{
    let mut count = 0;
    for job in jobs {
        if let Some(job) = job {
            if job.step == step {
                count += 1;
            }
        }
    }
    count
}

/// Whether the steps that the lines read have finished.
pub(crate) fn are_there<A: Allocator>(finished: &[Option<Finished<A>>], lines: &[Line<A>]) -> bool
    requires { AllByRecursion (IsLine (length finished.now)) lines.now }
    ensures { IsTrue result ↔ AreThere (outcomes_in finished.now) lines.now }
{
    for line in lines {
        if !is_there(finished, &line.origin) {
            return false;
        }
    }
    true
}

/// Whether the step that the origin reads has finished.
fn is_there<A: Allocator>(finished: &[Option<Finished<A>>], origin: &Origin<A>) -> bool
    requires { IsOrigin (length finished.now) (origin_value origin.now) }
    ensures { IsTrue result ↔ IsThere (outcomes_in finished.now) (origin_value origin.now) }
{
    match origin {
        Origin::Source(_) => true,
        Origin::Output(step, _) => finished[*step].is_some(),
    }
}
