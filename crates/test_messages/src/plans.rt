//! Rows of plans and records, as texts.
use crate::answers::{Answer, Broken, push_digest, said, word, yes_or_no};
use blob_digest::Digest;
use messages::Path;
use plan::{Line, Origin, Plan, ReadError, Record, Step};
use std::alloc::{AllocError, Allocator, Global};

pub fn answer<A: Allocator + Copy>(global: Global, alloc: A, fields: &[Vec<u8>]) -> Answer {
    match fields {
        [kind, text, _] => of_plan(global, alloc, word(kind), text),
        [kind, text, record, _] => of_record(global, alloc, word(kind), text, record),
        [kind, text, first, second, _] => of_two(global, alloc, word(kind), text, first, second),
        _ => Err(Broken::NoRow),
    }
}

fn of_plan<A: Allocator + Copy>(global: Global, alloc: A, kind: &str, text: &[u8]) -> Answer {
    match kind {
        "plan" => plan(global, alloc, text),
        "lines" => lines(global, alloc, text),
        "fault" => fault(global, alloc, text),
        _ => Err(Broken::NoRow),
    }
}

fn of_record<A: Allocator + Copy>(
    global: Global,
    alloc: A,
    kind: &str,
    text: &[u8],
    record: &[u8],
) -> Answer {
    match kind {
        "record" => self::record(global, alloc, text, record),
        "digests" => digests(global, alloc, text, record),
        _ => Err(Broken::NoRow),
    }
}

fn of_two<A: Allocator + Copy>(
    global: Global,
    alloc: A,
    kind: &str,
    text: &[u8],
    first: &[u8],
    second: &[u8],
) -> Answer {
    match kind {
        "fits" => fits(global, alloc, text, first, second),
        "noted" => noted(global, alloc, text, first, second),
        _ => Err(Broken::NoRow),
    }
}

/// Whether the plan that is read is written so.
pub fn plan<A: Allocator + Copy>(global: Global, alloc: A, text: &[u8]) -> Answer {
    let written = Plan::read(alloc, text)?.write(alloc)?;
    same_or_other(global, &written, text)
}

/// Whether what was written is the text.
fn same_or_other(global: Global, written: &[u8], text: &[u8]) -> Answer {
    said(global, if written == text { "same" } else { "other" })
}

/// How the fault of the text is told.
fn fault<A: Allocator + Copy>(global: Global, alloc: A, text: &[u8]) -> Answer {
    match Plan::read(alloc, text) {
        Ok(_) => said(global, "none"),
        Err(error) => fault_told(global, error),
    }
}

fn fault_told(global: Global, error: ReadError) -> Answer {
    match error {
        ReadError::Faulty(error) => Ok(error.to_string(global)?.into_bytes()),
        ReadError::Memory => Err(Broken::Memory),
    }
}

/// Adds a line: its target, and the number of the origin's step or `src`, and the origin's path.
fn push_line<A: Allocator>(told: &mut String, line: &Line<A>) -> Result<(), AllocError> {
    let target = line.target.as_str();
    match &line.origin {
        Origin::Source(path) => push_source(told, target, path.as_ref()),
        Origin::Output(step, path) => {
            let path = path.as_str();
            write!(told, " {target} from {step} {path};")
        }
    }
}

fn push_source<A: Allocator>(
    told: &mut String,
    target: &str,
    path: Option<&Path<A>>,
) -> Result<(), AllocError> {
    match path {
        Some(path) => {
            let path = path.as_str();
            write!(told, " {target} from src {path};")
        }
        None => write!(told, " {target} from src;"),
    }
}

fn push_lines<A: Allocator>(told: &mut String, lines: &[Line<A>]) -> Result<(), AllocError> {
    for line in lines {
        push_line(told, line)?;
    }
    Ok(())
}

fn steps_told<A: Allocator>(global: Global, steps: &[Step<A>]) -> Result<String, AllocError> {
    let mut told = String::new(global);
    for step in steps {
        push_step(global, &mut told, step)?;
    }
    Ok(told)
}

fn push_step<A: Allocator>(
    global: Global,
    told: &mut String,
    step: &Step<A>,
) -> Result<(), AllocError> {
    let name = step.name.as_str();
    let frame = step.frame.write_text(global)?;
    write!(told, "{name} {frame}:")?;
    push_lines(told, &step.lines)?;
    told.push('\n')
}

/// The steps and the root of the plan, each with its lines.
fn lines<A: Allocator + Copy>(global: Global, alloc: A, text: &[u8]) -> Answer {
    let plan = Plan::read(alloc, text)?;
    let mut told = steps_told(global, plan.steps())?;
    told.push_str("root:")?;
    push_lines(&mut told, plan.root())?;
    Ok(told.into_bytes())
}

/// Whether the record of the plan that is read is written so.
fn record<A: Allocator + Copy>(global: Global, alloc: A, plan: &[u8], text: &[u8]) -> Answer {
    let plan = Plan::read(alloc, plan)?;
    let written = Record::read(alloc, text, &plan)?.write(alloc)?;
    same_or_other(global, &written, text)
}

/// The digests of the record, each with a comma after it.
fn digests<A: Allocator + Copy>(global: Global, alloc: A, plan: &[u8], text: &[u8]) -> Answer {
    let plan = Plan::read(alloc, plan)?;
    let record = Record::read(alloc, text, &plan)?;
    digests_told(global, record.digests())
}

fn digests_told(global: Global, digests: &[Digest]) -> Answer {
    let mut told = Vec::new(global);
    for digest in digests {
        push_digest(global, &mut told, digest)?;
    }
    Ok(told)
}

/// Whether the record of a plan fits another.
fn fits<A: Allocator + Copy>(
    global: Global,
    alloc: A,
    plan: &[u8],
    text: &[u8],
    other: &[u8],
) -> Answer {
    let plan = Plan::read(alloc, plan)?;
    let record = Record::read(alloc, text, &plan)?;
    yes_or_no(global, record.fits(&Plan::read(alloc, other)?))
}

fn both<A: Allocator>(
    alloc: A,
    first: Digest,
    second: Digest,
) -> Result<Vec<Digest, A>, AllocError> {
    let mut digests = Vec::new(alloc);
    digests.push(first)?;
    digests.push(second)?;
    Ok(digests)
}

/// The record with these digests of the two steps of a plan.
fn noted<A: Allocator + Copy>(
    global: Global,
    alloc: A,
    plan: &[u8],
    first: &[u8],
    second: &[u8],
) -> Answer {
    let plan = Plan::read(alloc, plan)?;
    let digests = both(alloc, Digest::read_text(first)?, Digest::read_text(second)?)?;
    if plan.steps().len() != digests.len() {
        return Err(Broken::NoRow);
    }
    let written = Record::new(alloc, &plan, digests)?.write(alloc)?;
    Ok(Vec::from_slice(global, &written)?)
}
