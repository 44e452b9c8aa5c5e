ghost use Rattle.std.specs.Prelude.{◌≡◌, ◌⊎◌, ◌↔◌, ◌+◌, ◌-◌, ◌<◌, ◌≤◌, ℕ, List, IfErr, IfOk};
ghost use Rattle.std.specs.Prelude.{IsErrOf, IsTrue, OnErr, OnOk, string_bytes};
ghost use Rattle.std.specs.IoError.{error_kind};
ghost use Rattle.std.specs.Result.{IsErrAnd};
ghost use Rattle.blob_source.specs.Source.{greatest_count};
ghost use Rattle.worker.specs.Counted.{Counts, IsFailure, TellsRunFailure};
ghost use Rattle.worker.specs.Outcomes.{YieldsFor, YieldsNoMore};
ghost use Rattle.worker.specs.Values.{EndValue, IsAbsolute, SaysNoMore, StartsNone, StartsOne};
ghost use Rattle.worker.specs.Values.{bad_at, made};
ghost use Rattle.worker.specs.declared.failure.FailureCause.TheVariants.{Signal};
ghost use Rattle.messages.specs.Path.{begins_with_slash};
ghost use Rattle.processes.specs.Laying.{IsRunOut, IsUnstarted, folder_of};
ghost use Rattle.processes.specs.Running.{CameOf, HasRunOut, HaveRun, HaveStarted, IsEnded};
ghost use Rattle.processes.specs.Running.{IsJobLaunched, TellsCame, TellsRunOut, TellsUnstarted};
ghost use Rattle.processes.specs.Running.{alive_of, process_in, failures_of, may_come, may_yield};
ghost use Rattle.processes.specs.Running.{next_of, start_in, work_of, workshop_of};

use crate::collecting::collect;
use crate::laying::{lay_out, make_parents, make_start};
use crate::tally::{Tally, run_out};
use crate::trouble::failed_by;
use crate::workshop::{Exit, Left, Workshop};
use actions::Command;
use messages::Path;
use std::alloc::{AllocError, Allocator};
use std::io;
use std::io::ErrorKind;
use worker::{FailureCause, Layout, Produced, RunError, Runner, program_of};

/// Runs jobs as processes, each in a new folder of its own, which is named by a number.
#[derive(Drop)]
pub struct ProcessRunner<W, A: Allocator> {
    workshop: W,
    work: String<A>,
    next: u64,
    tally: Tally,
}

/// A process that was started.
#[derive(Drop)]
pub(crate) struct Started<C, A: Allocator> {
    child: C,
    /// The folder that it started in, and the output paths below it.
    start: String<A>,
    outputs: Vec<Path<A>, A>,
}

/// A process that was started for a command of this program.
#[derive(Drop)]
pub struct ProcessJob<C, A: Allocator> {
    started: Started<C, A>,
    program: String<A>,
}

impl<W, A: Allocator> ProcessRunner<W, A> {
    /// No job yet. The folder of the jobs has to be there when one is started.
    pub fn new(workshop: W, work: String<A>) -> ProcessRunner<W, A>
        ensures workshop { workshop_of result ≡ workshop }
        ensures work { work_of result ≡ string_bytes work }
        ensures next { next_of result ≡ 0 }
        ensures alive { alive_of result ≡ 0 }
        ensures failures { failures_of result ≡ 0 }
    {
        ProcessRunner {
            workshop,
            work,
            next: 0,
            tally: Tally::new(),
        }
    }
}

/// Whether the bytes begin with a slash.
fn begins_with_slash(bytes: &[u8]) -> bool
    ensures { result ≡ begins_with_slash bytes.now }
{
    matches!(bytes, [b'/', ..])
}

/// Whether the command names its program by a path from the root of the file system.
fn is_absolute<A: Allocator>(command: &Command<A>) -> bool
    ensures { IsTrue result ↔ IsAbsolute command.now }
{
    match command.arguments() {
        [program, ..] => begins_with_slash(program.as_bytes()),
        [] => false,
    }
}

/// The same paths.
fn copy_paths<A: Allocator + Copy>(
    alloc: A,
    paths: &[Path<A>],
) -> Result<Vec<Path<A>, A>, AllocError>
    ensures { IfOk result (λ copies. copies.items ≡ paths.now) }
{
    let mut copies = Vec::new(alloc);
    for path in paths {
        copies.push(Path::copy_of(alloc, path)?)?;
    }
    Ok(copies)
}

impl<W: Workshop, A: Allocator + Copy> ProcessRunner<W, A> {
    /// The folder of the next job. Each number is used once, whether or not a child is started, and
    /// the greatest isn't used.
    fn next_folder(&mut self, alloc: A) -> io::Result<String<A>>
        ensures folder { IfOk result
            (λ folder. string_bytes folder ≡ folder_of (work_of self.old) (next_of self.old)) }
        ensures used { next_of self.old < greatest_count
            → next_of self.new ≡ next_of self.old + 1 }
        ensures left { OnOk result (next_of self.old < greatest_count) }
        ensures risen { next_of self.old ≤ next_of self.new }
        ensures most { next_of self.new ≤ next_of self.old + 1 }
        ensures failed { IfErr result (λ error. (error_kind error ≡ ErrorKind.OutOfMemory)
            ⊎ (IsRunOut error × (next_of self.old ≡ greatest_count))) }
        ensures last { next_of self.old ≡ greatest_count → IsErrAnd result IsRunOut }
        ensures work { work_of self.new ≡ work_of self.old }
        ensures workshop { workshop_of self.new ≡ workshop_of self.old }
        ensures alive { alive_of self.new ≡ alive_of self.old }
        ensures failures { failures_of self.new ≡ failures_of self.old }
    {
        let number = self.next;
        let Some(next) = number.checked_add(1) else {
            return Err(run_out("no number is left for its folder"));
        };
        self.next = next;
        let work = self.work.as_str();
        Ok(format!(in alloc; "{work}/{number}")?)
    }

    /// Starts a child for a command in a new folder, where the layout was made.
    fn launch(
        &mut self,
        alloc: A,
        layout: &Layout<A>,
        command: &Command<A>,
    ) -> io::Result<Started<W::Child, A>>
        ensures launched { IfOk result (λ s.
            IsJobLaunched W.works (folder_of (work_of self.old) (next_of self.old))
            layout.now command.now s.child (string_bytes s.start)) }
        ensures used { next_of self.old < greatest_count
            → next_of self.new ≡ next_of self.old + 1 }
        ensures left { OnOk result (next_of self.old < greatest_count) }
        ensures risen { next_of self.old ≤ next_of self.new }
        ensures most { next_of self.new ≤ next_of self.old + 1 }
        ensures outputs { IfOk result (λ s. s.outputs.items ≡ command.now.output_paths) }
        ensures failed { IfErr result
            (λ error. IsUnstarted (W.unstarted (workshop_of self.old)) error
            ⊎ (IsRunOut error × HasRunOut self.old)) }
        ensures last { next_of self.old ≡ greatest_count → IsErrAnd result IsRunOut }
        ensures work { work_of self.new ≡ work_of self.old }
        ensures workshop { workshop_of self.new ≡ workshop_of self.old }
        ensures opened { OnOk result (alive_of self.new ≡ alive_of self.old + 1) }
        ensures unopened { OnErr result (alive_of self.new ≡ alive_of self.old) }
        ensures failures { failures_of self.new ≡ failures_of self.old }
    {
        let folder = self.next_folder(alloc)?;
        let workshop = &self.workshop;
        let mut room = lay_out(alloc, workshop, folder.as_str(), layout)?;
        let start = make_start(alloc, workshop, &mut room, folder.as_str(), command)?;
        let outputs = copy_paths(alloc, command.output_paths())?;
        make_parents(alloc, workshop, &mut room, start.as_str(), &outputs)?;
        let child = self
            .tally
            .start(alloc, workshop, room, command, start.as_str())?;
        Ok(Started {
            child,
            start,
            outputs,
        })
    }
}

/// The failure of a program that a signal ended.
fn ended_by<A: Allocator>(program: String<A>, number: i32) -> RunError<A>
    ensures { result ≡ RunError.Device program (Signal number) }
{
    RunError::Device {
        program,
        cause: FailureCause::Signal(number),
    }
}

/// What a child of a program that ended so came to: the outcome of its exit code and of what stands
/// at the output paths; or a failure, as of one that a signal ended.
fn come_to<A: Allocator + Copy, W: Workshop>(
    alloc: A,
    workshop: &W,
    ended: io::Result<(W::Ended, Exit)>,
    program: String<A>,
    start: &str,
    outputs: &[Path<A>],
) -> Result<Produced<A>, RunError<A>>
    ensures { (child : W.Child) → IsEnded W.works child ended
        → TellsCame (CameOf W.works child (string_bytes program) start.now outputs.now) result }
{
    let (end, exit) = match ended {
        Ok(told) => told,
        Err(error) => return Err(failed_by(program, error, FailureCause::Unwaited(error))),
    };
    match exit {
        Exit::Code(code) => {
            let left = Left {
                workshop,
                ended: &end,
            };
            collect(alloc, &left, program, start, outputs, code)
        }
        Exit::Signal(number) => Err(ended_by(program, number)),
    }
}

impl<W: Workshop + Drop, A: Allocator + Copy> Runner<A> for ProcessRunner<W, A> {
    type Job = ProcessJob<W::Child, A>;

    ghost use Rattle.processes.specs.Running.{HaveRun, HaveStarted, alive_of, failures_of};
    ghost use Rattle.processes.specs.Running.{may_come, may_yield, next_of, work_of, workshop_of};

    ghost yields = { λ r. may_yield W.works (W.unstarted (workshop_of r)) (work_of r) };

    ghost may_give = { λ job e. may_come W.works job e };

    ghost starts = { λ r. HaveStarted W.works (work_of r) (next_of r) };

    ghost alive = { alive_of };

    ghost failures = { failures_of };

    ghost ran = { λ r. HaveRun W.works (work_of r) };

    fn start(
        &mut self,
        alloc: A,
        layout: &Layout<A>,
        command: &Command<A>,
    ) -> Result<ProcessJob<W::Child, A>, RunError<A>>
        ensures gives { IfOk result (λ job. (e : EndValue) → may_come W.works job e → YieldsFor
            (may_yield W.works (W.unstarted (workshop_of self.new)) (work_of self.new))
            layout.now command.now e) }
        ensures same { YieldsNoMore
            (may_yield W.works (W.unstarted (workshop_of self.new)) (work_of self.new))
            (may_yield W.works (W.unstarted (workshop_of self.old)) (work_of self.old)) }
        ensures listed { OnOk result (StartsOne
            (HaveStarted W.works (work_of self.old) (next_of self.old))
            (HaveStarted W.works (work_of self.new) (next_of self.new))
            (record { layout = layout.now; command = command.now })) }
        ensures unlisted { OnErr result (StartsNone
            (HaveStarted W.works (work_of self.old) (next_of self.old))
            (HaveStarted W.works (work_of self.new) (next_of self.new))) }
        ensures opened { OnOk result (alive_of self.new ≡ alive_of self.old + 1) }
        ensures unopened { OnErr result (alive_of self.new ≡ alive_of self.old) }
        ensures no_more { SaysNoMore (HaveRun W.works (work_of self.new))
            (HaveRun W.works (work_of self.old)) }
        ensures below { work_of self.new ≡ work_of self.old }
        ensures workshop { workshop_of self.new ≡ workshop_of self.old }
        ensures refused { IsErrOf result RunError.NotAbsolute → IsAbsolute command.now → ⊥ }
        ensures bad { (path : List (List ℕ)) → IsErrOf result (RunError.BadOutput path) → ⊥ }
        ensures device { IfErr result (TellsRunFailure (YieldsFor
            (may_yield W.works (W.unstarted (workshop_of self.new)) (work_of self.new))
            layout.now command.now)) }
        ensures counted { Counts (failures_of self.old) (failures_of self.new)
            (IsErrAnd result IsFailure) }
        // A program that isn't named from the root is refused first, and uses no number.
        ensures relative { (IsAbsolute command.now → ⊥)
            → IsErrOf result RunError.NotAbsolute × (next_of self.new ≡ next_of self.old) }
        // The job's folder has the next number, which is used also where the process fails.
        ensures numbered { IfOk result (λ job. IsJobLaunched W.works
            (folder_of (work_of self.old) (next_of self.old))
            layout.now command.now (process_in job) (start_in job)) }
        ensures used { OnOk result (next_of self.new ≡ next_of self.old + 1) }
        ensures passed { IsErrAnd result IsFailure → next_of self.old < greatest_count
            → next_of self.new ≡ next_of self.old + 1 }
        // A failure is by an error that the workshop told, or the runner has run out: that it tells
        // at the last number, unless memory lacks for it.
        ensures why { IfErr result (TellsUnstarted W.unstarted self.old) }
        ensures last { next_of self.old ≡ greatest_count → IsAbsolute command.now
            → IsErrAnd result TellsRunOut }
        // No more than one number is used, whatever is answered.
        ensures risen { next_of self.old ≤ next_of self.new }
        ensures most { next_of self.new ≤ next_of self.old + 1 }
    {
        if !is_absolute(command) {
            return Err(RunError::NotAbsolute);
        }
        let program = program_of(alloc, command)?;
        match self.launch(alloc, layout, command) {
            Ok(started) => Ok(ProcessJob { started, program }),
            Err(error) => {
                let refusal = failed_by(program, error, FailureCause::Unstarted(error));
                Err(self.tally.refuse(refusal))
            }
        }
    }

    fn finish(&mut self, alloc: A, job: ProcessJob<W::Child, A>) -> Result<Produced<A>, RunError<A>>
        ensures gave { IfOk result (λ p. may_come W.works job (made p)) }
        ensures bad { (path : List (List ℕ)) → IsErrOf result (RunError.BadOutput path)
            → may_come W.works job (bad_at path) }
        ensures same { YieldsNoMore
            (may_yield W.works (W.unstarted (workshop_of self.new)) (work_of self.new))
            (may_yield W.works (W.unstarted (workshop_of self.old)) (work_of self.old)) }
        ensures unlisted { StartsNone
            (HaveStarted W.works (work_of self.old) (next_of self.old))
            (HaveStarted W.works (work_of self.new) (next_of self.new)) }
        ensures closed { alive_of self.new ≡ alive_of self.old - 1 }
        ensures no_more { SaysNoMore (HaveRun W.works (work_of self.new))
            (HaveRun W.works (work_of self.old)) }
        ensures below { work_of self.new ≡ work_of self.old }
        ensures workshop { workshop_of self.new ≡ workshop_of self.old }
        ensures absolute { IsErrOf result RunError.NotAbsolute → ⊥ }
        ensures device { IfErr result (TellsRunFailure (may_come W.works job)) }
        ensures counted { Counts (failures_of self.old) (failures_of self.new)
            (IsErrAnd result IsFailure) }
        // The process is waited for, whatever is answered. A wait uses no number.
        ensures waited { W.works.waited (process_in job) }
        ensures unused { next_of self.new ≡ next_of self.old }
    {
        let ProcessJob { started, program } = job;
        let Started {
            child,
            start,
            outputs,
        } = started;
        let ended = self.tally.wait(&self.workshop, child);
        let workshop = &self.workshop;
        match come_to(alloc, workshop, ended, program, start.as_str(), &outputs) {
            Ok(produced) => Ok(produced),
            Err(error) => Err(self.tally.refuse(error)),
        }
    }
}
