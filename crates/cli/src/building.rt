ghost use Rattle.std.specs.Prelude.{◌≡◌, ◌<◌, ◌∷◌, [], IfErr, IfOk, IfSome, None, OnErr, OnOk};
ghost use Rattle.std.specs.Prelude.{codes, string_bytes};
ghost use Rattle.std.specs.Io.KnownBytes.{Appends};
ghost use Rattle.builder.specs.Faults.{IsRunnerFailure, fault_of};
ghost use Rattle.clap.specs.Words.{found_of, rows_of};
ghost use Rattle.cli.specs.Built.{BeginsBuild, HoldsRoot, IsNoted, IsReadOf, IsToldOf, PrintsBuild};
ghost use Rattle.cli.specs.Built.{TellsAsked, ended_of, errors_asked, jobs_asked, keeps_plan};
ghost use Rattle.cli.specs.Built.{may_have_jobs};
ghost use Rattle.cli.specs.Built.{told_line};
ghost use Rattle.cli.specs.Refused.{FailsBuild, FailsFolder, FailsTelling, FailsToWrite};
ghost use Rattle.cli.specs.Refused.{TellsProcess, process_cause};
ghost use Rattle.cli.specs.Running.{EndsFor};
ghost use Rattle.commands.specs.Faults.{OrMemory};
ghost use Rattle.commands.specs.Client.{remote_of};
ghost use Rattle.commands.specs.Places.{FailsOver, IsFresh, puts_too};
ghost use Rattle.commands.specs.Refusal.{IsPrintFault};
ghost use Rattle.commands.specs.Told.{AppendsBeginning};
ghost use Rattle.commands.specs.Words.{IsCheckedBy};
ghost use Rattle.command_lines.specs.CommandLine.{option_text};
ghost use Rattle.remote.specs.Remote.{connection_of, telling_of};
ghost use Rattle.processes.specs.declared.disk.ChildErrors.{ChildErrors};

use crate::build_progress::BuildProgress;
use crate::workplace::Workplace;
use blob_digest::Digest;
use builder::{BuildPlanError, Fault, Place, Told, fault_of, place_text, tell_build};
use clap::ArgMatches;
use command_lines::{is_set, option_of, text_of};
use commands::{
    Client, CommandError, Ended, Inputs, Note, Opened, Outputs, ProcessCause, ProcessFault,
    PutsToo, ServerOptions, invalid_value, number_in, open, plan_in_file, print_all, read_digest,
    read_server,
};
use plan::Plan;
use processes::ChildErrors;
use remote::{Remote, Stream};
use std::alloc::{AllocError, Global};
use std::io;
use std::io::{ErrorKind, Write};
use std::marker::Brand;
use tree::FetchError;
use worker::{BuildError, FailureCause, RunError, StepRefusal, put_all};

/// How many steps may run at once.
const GREATEST_JOBS: u64 = 64;

/// What the words of `build` ask for, as it was read.
#[derive(Drop)]
struct BuildRequest {
    jobs: usize,
    server: ServerOptions,
    sources: Digest,
    plan: Plan<Global>,
    /// The folder of the jobs.
    work: String,
}

/// The number of jobs that the words give, or one.
fn read_jobs(alloc: Global, matches: &ArgMatches<'_>) -> Result<usize, CommandError>
    ensures found { IfOk result (λ jobs. jobs ≡ jobs_asked (rows_of (found_of matches.now))) }
    ensures checked { IsCheckedBy (may_have_jobs (rows_of (found_of matches.now)) ∷ []) result }
{
    let Some(text) = option_of(matches, "jobs") else {
        return Ok(1);
    };
    match number_in(text) {
        Some(jobs) if 0 < jobs && jobs <= GREATEST_JOBS => Ok(jobs as usize),
        _ => Err(invalid_value(alloc, "jobs", "a number from 1 to 64", text)?),
    }
}

/// The record isn't to be written over the plan.
fn check_record(alloc: Global, matches: &ArgMatches<'_>) -> Result<(), CommandError>
    ensures { IsCheckedBy (keeps_plan (rows_of (found_of matches.now)) ∷ []) result }
{
    if text_of(matches, "record") != text_of(matches, "plan") {
        return Ok(());
    }
    let words = "--record cannot name the file of --plan";
    Err(CommandError::Usage(String::from_str(alloc, words)?))
}

/// Reads what the words ask for: the number of jobs, the server, the digest, and then the plan; and
/// copies the path of the folder of the jobs.
fn read_asked<W: Inputs, P: Workplace>(
    alloc: Global,
    world: &W,
    matches: &ArgMatches<'_>,
) -> Result<BuildRequest, CommandError>
    ensures read { IfOk result (IsReadOf (W.sees world.now) (rows_of (found_of matches.now))) }
    ensures refused { IfErr result (λ e. (workplace : P) (errors : ChildErrors)
        → FailsBuild (W.sees world.now) (P.below workplace errors) (rows_of (found_of matches.now))
        e) }
{
    let jobs = read_jobs(alloc, matches)?;
    check_record(alloc, matches)?;
    let server = read_server(alloc, matches)?;
    let sources = read_digest(alloc, matches, "sources")?;
    let plan = plan_in_file(alloc, world, matches)?;
    let work = String::from_str(alloc, text_of(matches, "work"))?;
    Ok(BuildRequest {
        jobs,
        server,
        sources,
        plan,
        work,
    })
}

/// The errors of a build's processes are shown where the words want that.
fn errors_of(matches: &ArgMatches<'_>) -> ChildErrors
    ensures { result ≡ errors_asked (rows_of (found_of matches.now)) }
{
    if is_set(matches, "verbose") {
        return ChildErrors::Shown;
    }
    ChildErrors::Discarded
}

/// Puts the Directories of the root of a build that came to it, so that the root can be fetched.
fn put_root<S: Stream + Drop, K: Opened>(
    alloc: Global,
    server: &ServerOptions,
    client: &mut Client<S, K, PutsToo>,
    told: &Told<Global>,
) -> Result<(), CommandError>
    ensures held { OnOk result
        (HoldsRoot K.start (telling_of (remote_of client.old)) told.now) }
    ensures whole { OnErr result (ended_of told.now ≡ Ended.Done) }
    ensures fault { IfErr result (OrMemory
        (λ e. ∥ FailsOver puts_too K.start (string_bytes server.now.address) e ∥₁)) }
{
    match told {
        Told::Built { directories, .. } => match put_all(alloc, client, directories) {
            Ok(()) => Ok(()),
            Err(StepRefusal::Fetch) => Err(client.error(alloc, server, FetchError::Failed)?),
            Err(_e) => Err(CommandError::Memory),
        },
        Told::Failed { .. } => Ok(()),
    }
}

/// The cause, as the error of a command tells it.
fn process_cause(cause: FailureCause) -> ProcessCause
    ensures { result ≡ process_cause cause }
{
    match cause {
        FailureCause::Unstarted(fault) => ProcessCause::Unstarted(fault),
        FailureCause::Unwaited(fault) => ProcessCause::Unwaited(fault),
        FailureCause::Unread(fault) => ProcessCause::Unread(fault),
        FailureCause::Signal(number) => ProcessCause::Signal(number),
    }
}

/// A process of a step that came to nothing.
#[derive(Drop)]
struct Stopped {
    step: usize,
    program: String,
    cause: FailureCause,
}

/// The process for which a build ended with this error.
fn process_of(error: BuildPlanError<Global>) -> Option<Stopped>
    ensures some { IfSome result (EndsFor error) }
    ensures none { result ≡ None → ¬ IsRunnerFailure (fault_of error) }
{
    let BuildPlanError::Step(failed) = error else {
        return None;
    };
    let BuildError { step, refusal } = failed;
    let StepRefusal::Run(fault) = refusal else {
        return None;
    };
    match fault {
        RunError::Device { program, cause } => Some(Stopped {
            step,
            program,
            cause,
        }),
        _ => None,
    }
}

/// The error of a process of a step that came to nothing.
fn process_error(
    alloc: Global,
    plan: &Plan<Global>,
    stopped: Stopped,
) -> Result<CommandError, AllocError>
    ensures { IfOk result
        (TellsProcess plan.now stopped.step (string_bytes stopped.program) stopped.cause) }
{
    Ok(CommandError::Process(ProcessFault {
        place: place_text(alloc, plan, Place::Step(stopped.step))?,
        program: stopped.program,
        cause: process_cause(stopped.cause),
    }))
}

/// What a build tells over the marked connection, whose processes run in the folder of the jobs.
fn build_in_folder<S: Stream + Drop, K: Opened, P: Workplace + Drop, T: Write + Drop>(
    alloc: Global,
    workplace: P,
    asked: &BuildRequest,
    remote: Remote<S, Global>,
    errors: ChildErrors,
    progress: &mut BuildProgress<'_, T>,
) -> Result<Told<Global>, CommandError>
    requires some { 0 < asked.now.jobs }
    requires start { K.start ≡ connection_of S.flow remote }
    requires fresh { IsFresh remote }
    ensures told { IfOk result (IsToldOf K.start
        (P.below workplace errors (string_bytes asked.now.work)) asked.now.jobs asked.now.plan
        asked.now.sources) }
    ensures fault { IfErr result (FailsTelling K.start (string_bytes asked.now.server.address)
        (P.below workplace errors (string_bytes asked.now.work)) asked.now.jobs asked.now.plan
        asked.now.sources) }
{
    let work = String::from_str(alloc, asked.work.as_str())?;
    let mut runner = workplace.steps(work, errors);
    let mut client: Client<S, K, PutsToo> = Client::new(remote);
    let told = tell_build(
        alloc,
        &asked.sources,
        &asked.plan,
        &mut client,
        &mut runner,
        progress,
        asked.jobs,
    );
    P::end_steps(runner);
    match told {
        Ok(told) => {
            put_root(alloc, &asked.server, &mut client, &told)?;
            Ok(told)
        }
        Err(error) => match fault_of(&error) {
            Fault::Device(_) => match process_of(error) {
                Some(stopped) => Err(process_error(alloc, &asked.plan, stopped)?),
                None => unreachable!(),
            },
            Fault::Fetch(_) => Err(client.error(alloc, &asked.server, FetchError::Failed)?),
            Fault::Memory => Err(CommandError::Memory),
            // What is refused was told in a line.
            Fault::Refused(..) => unreachable!(),
        },
    }
}

/// The folder of the jobs is there, and nothing is in it.
fn check_work<W: Inputs>(alloc: Global, world: &W, path: &str) -> Result<(), CommandError>
    ensures empty { OnOk result ((W.sees world.now).lists path.now []) }
    ensures fault { IfErr result (FailsFolder (W.sees world.now) path.now) }
{
    let names = world.list(alloc, path)?;
    if names.is_empty() {
        return Ok(());
    }
    Err(CommandError::File {
        path: String::from_str(alloc, path)?,
        fault: io::Error::from(ErrorKind::DirectoryNotEmpty),
    })
}

/// Writes the record of a build that came to its root to the file that the words name.
fn write_record<W: Outputs>(
    alloc: Global,
    world: &W,
    matches: &ArgMatches<'_>,
    told: &Told<Global>,
) -> Result<(), CommandError>
    ensures noted { OnOk result (IsNoted (W.sees world.now) (rows_of (found_of matches.now))
        told.now) }
    ensures whole { OnErr result (ended_of told.now ≡ Ended.Done) }
    ensures fault { IfErr result
        (FailsToWrite (W.sees world.now) (option_text (rows_of (found_of matches.now))
        (codes "record"))) }
{
    match told {
        Told::Built { record_text, .. } => {
            let path = text_of(matches, "record");
            match world.write(alloc, path, record_text) {
                Ok(()) => Ok(()),
                Err(fault) => Err(CommandError::File {
                    path: String::from_str(alloc, path)?,
                    fault,
                }),
            }
        }
        Told::Failed { .. } => Ok(()),
    }
}

/// Builds what the words ask for. On a terminal it tells how far the build is, until that ends.
fn build_asked<W: Inputs + Outputs, P: Workplace + Drop, T: Write + Drop>(
    alloc: Global,
    world: &W,
    workplace: P,
    matches: &ArgMatches<'_>,
    asked: &BuildRequest,
    terminal: Option<T>,
) -> Result<Told<Global>, CommandError>
    requires read { IsReadOf (W.sees world.now) (rows_of (found_of matches.now)) asked.now }
    ensures tells { IfOk result (TellsAsked (W.sees world.now)
        (P.below workplace (errors_asked (rows_of (found_of matches.now))))
        (rows_of (found_of matches.now))) }
    ensures refused { IfErr result (FailsBuild (W.sees world.now)
        (P.below workplace (errors_asked (rows_of (found_of matches.now))))
        (rows_of (found_of matches.now))) }
{
    let remote = open(alloc, world, &asked.server)?;
    check_work(alloc, world, asked.work.as_str())?;
    world.check_writable(alloc, text_of(matches, "record"))?;
    let errors = errors_of(matches);
    let mut progress = BuildProgress::new(alloc, &asked.plan, terminal);
    let told = build_in_folder::<W::Link, Brand, P, T>(
        alloc,
        workplace,
        asked,
        remote,
        errors,
        &mut progress,
    );
    progress.clear();
    let _terminal = progress.end();
    told
}

/// Prints the line of a build.
fn print_told<O: Write>(told: &Told<Global>, out: &mut O) -> Result<(), CommandError>
    ensures printed { OnOk result
        (Appends (O.contents out.old) (O.contents out.new) (told_line told.now)) }
    ensures begun { OnErr result
        (AppendsBeginning (O.contents out.old) (O.contents out.new) (told_line told.now)) }
    ensures fault { IfErr result IsPrintFault }
{
    let line = match told {
        Told::Built { line, .. } | Told::Failed { line, .. } => line,
    };
    print_all(out, line.as_bytes())
}

/// What a build came to, with a note why it was refused.
fn ended_of(told: Told<Global>) -> Ended
    ensures { result ≡ ended_of told }
{
    match told {
        Told::Built { .. } => Ended::Done,
        Told::Failed { line: _line, why } => Ended::No(Some(Note::Refused(why))),
    }
}

/// Builds the plan that the words name, and prints the line of what it came to. Where it came to
/// its root, the record is written first. By its bound it doesn't listen.
pub(crate) fn run_build<W: Inputs + Outputs, P: Workplace + Drop, O: Write, T: Write + Drop>(
    alloc: Global,
    world: &W,
    workplace: P,
    matches: &ArgMatches<'_>,
    out: &mut O,
    terminal: Option<T>,
) -> Result<Ended, CommandError>
    ensures printed { IfOk result (PrintsBuild (W.sees world.now)
        (P.below workplace (errors_asked (rows_of (found_of matches.now))))
        (rows_of (found_of matches.now)) (O.contents out.old) (O.contents out.new)) }
    // A refusal leaves no byte that isn't of the line of such a build.
    ensures begun { OnErr result (BeginsBuild (W.sees world.now)
        (P.below workplace (errors_asked (rows_of (found_of matches.now))))
        (rows_of (found_of matches.now)) (O.contents out.old) (O.contents out.new)) }
    // It is for the first fault: what comes before it has none.
    ensures refused { IfErr result (FailsBuild (W.sees world.now)
        (P.below workplace (errors_asked (rows_of (found_of matches.now))))
        (rows_of (found_of matches.now))) }
    ensures unprinted { IfErr result
        (λ fault. ¬ IsPrintFault fault → O.contents out.new ≡ O.contents out.old) }
{
    let asked = read_asked::<W, P>(alloc, world, matches)?;
    let told = build_asked(alloc, world, workplace, matches, &asked, terminal)?;
    write_record(alloc, world, matches, &told)?;
    print_told(&told, out)?;
    Ok(ended_of(told))
}
