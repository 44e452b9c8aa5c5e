//! Rows of builds of plans, over a store with the stock and a runner that counts its children. Each
//! is built twice over one store.
ghost use Rattle.std.specs.Prelude.{◌<◌};

use crate::answers::{Answer, Broken, count_in, is, said, word};
use crate::counting::{Came, Counting, Noting};
use crate::stock::source_of;
use blob_digest::Digest;
use builder::{BuildPlanError, Fault, Told, fault_of, place_text, tell_build};
use plan::Plan;
use std::alloc::{AllocError, Allocator, Global};
use std::io;
use test_support::Row;
use tree::MemorySource;
use worker::{FailureCause, RunError, StepRefusal};

/// What came of a build.
#[derive(Drop)]
struct Tried {
    /// The build's line and what is told after it; nothing for lack of memory.
    told: Option<String>,
    children: Counting,
    steps: Noting,
}

/// What the two builds of a row come to, where the second tells the same; and where the first tells
/// of lack of memory, the second what the row says.
pub fn answer<A: Allocator + Copy>(
    global: Global,
    alloc: A,
    stock: &[Row],
    fields: &[Vec<u8>],
) -> Answer {
    let [plan, came, jobs, expected] = fields else {
        return Err(Broken::NoRow);
    };
    let (came, jobs) = (came_of(came), count_in(jobs)?.max(1));
    let mut store = source_of(alloc, stock, &[])?;
    let plan = Plan::read(alloc, plan)?;
    let first = build_once(global, alloc, &plan, &mut store, came, jobs)?;
    let second = build_once(global, alloc, &plan, &mut store, came, jobs)?;
    both_told(global, &first, &second, expected)
}

/// What a row's text says of each child.
pub fn came_of(text: &[u8]) -> Came {
    match word(text) {
        "out" | "out unheard" => Came::File("out", "123456789"),
        "unstarted" => Came::Fails(FailureCause::Unstarted(io::Error::from_raw_os_error(2))),
        "unwaited" => Came::Fails(FailureCause::Unwaited(io::Error::from_raw_os_error(10))),
        "unread" => Came::Fails(FailureCause::Unread(io::Error::from_raw_os_error(5))),
        "signal" => Came::Fails(FailureCause::Signal(9)),
        "0" => Came::Code(0),
        _ => Came::Code(3),
    }
}

/// Builds the plan.
fn build_once<A: Allocator + Copy>(
    global: Global,
    alloc: A,
    plan: &Plan<A>,
    store: &mut MemorySource<A>,
    came: Came,
    jobs: usize,
) -> Result<Tried, AllocError>
    requires { 0 < jobs }
{
    let mut children = Counting::new(came);
    let mut steps = Noting::new();
    let sources = Digest::empty();
    let told = match tell_build(
        alloc,
        &sources,
        plan,
        store,
        &mut children,
        &mut steps,
        jobs,
    ) {
        Ok(told) => Some(told_of(global, &told)?),
        Err(error) => error_told(global, plan, &error)?,
    };
    Ok(Tried {
        told,
        children,
        steps,
    })
}

/// The line of a build, and after it the text of the record, or why it was refused.
pub fn told_of<A: Allocator>(global: Global, told: &Told<A>) -> Result<String, AllocError> {
    match told {
        Told::Built {
            line,
            record_text,
            ..
        } => {
            let line = line.as_str();
            let record_text = String::from_utf8_lossy(global, record_text)?;
            format!(in global; "{line}{record_text}")
        }
        Told::Failed { line, why } => {
            let (line, why) = (line.as_str(), why.as_str());
            format!(in global; "{line}{why}\n")
        }
    }
}

/// The program and the cause of a step's process that failed; nothing of another error.
pub fn failure_told<A: Allocator>(
    global: Global,
    error: &BuildPlanError<A>,
) -> Result<Option<String>, AllocError> {
    let BuildPlanError::Step(refused) = error else {
        return Ok(None);
    };
    let StepRefusal::Run(RunError::Device { program, cause }) = &refused.refusal else {
        return Ok(None);
    };
    let program = program.as_str();
    Ok(Some(match cause {
        FailureCause::Unstarted(error) => format!(in global; "can't run {program}: {error}")?,
        FailureCause::Unwaited(error) => format!(in global; "can't wait for {program}: {error}")?,
        FailureCause::Unread(error) => format!(in global;
            "can't read what {program} left: {error}"
        )?,
        FailureCause::Signal(number) => format!(in global;
            "{program} was ended by signal {number}"
        )?,
    }))
}

/// The place of an error without a line, and the failure; nothing for lack of memory.
fn error_told<A: Allocator + Copy>(
    global: Global,
    plan: &Plan<A>,
    error: &BuildPlanError<A>,
) -> Result<Option<String>, AllocError> {
    let place = match fault_of(error) {
        Fault::Fetch(place) | Fault::Device(place) | Fault::Refused(place, _) => place,
        Fault::Memory => return Ok(None),
    };
    let place = place_text(global, plan, place)?;
    match failure_told(global, error)? {
        Some(failure) => Ok(Some(format!(in global; "{place}: {failure}\n")?)),
        None => Ok(Some(place)),
    }
}

fn both_told(global: Global, first: &Tried, second: &Tried, expected: &[u8]) -> Answer {
    if first.children.alive() > 0 || second.children.alive() > 0 {
        return said(global, "a child is alive");
    }
    match (&first.told, &second.told) {
        (Some(told), Some(again)) if told.as_str() == again.as_str() => {
            counted(global, told.as_str(), first, second)
        }
        (None, Some(again)) if expected.starts_with(again.as_bytes()) => Err(Broken::Memory),
        (Some(_), None) => Err(Broken::Memory),
        _ => said(global, "told otherwise"),
    }
}

/// What was told, and what was counted of the children and the steps.
fn counted(global: Global, told: &str, first: &Tried, second: &Tried) -> Answer {
    let (at_first, alive, started) = first.children.counts();
    let (finished, taken, most) = first.steps.counts();
    let (_, _, again) = second.children.counts();
    let (all, stored, _) = second.steps.counts();
    let mut text = String::from_str(global, told)?;
    write!(text, "children {at_first} {alive} {started}, ")?;
    write!(
        text,
        "steps {finished} {taken} {most}, again {again} {all} {stored}"
    )?;
    Ok(text)
}
