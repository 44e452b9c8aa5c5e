//! What an engine answers to calls.
ghost use Rattle.tree.specs.Memo.{IsKnownOf, known_by};

use crate::answers::{Answer, Broken, count_in, number_in, said, word};
use crate::engines::fault_told;
use actions::Outcome;
use blob_digest::Digest;
use messages::Path;
use runs::{Engine, RunsError};
use std::alloc::{Allocator, Global};
use tree::{BlobSource, Memo, MemorySource};

/// What the engine answers to a call, in which `outcome` is what a job came to.
pub fn answered<A: Allocator + Copy>(
    global: Global,
    alloc: A,
    engine: &mut Engine<'_, A>,
    source: &mut MemorySource<A>,
    fields: &[Vec<u8>],
    outcome: Outcome<A>,
) -> Answer {
    match fields {
        [kind, _] => of_all(global, alloc, engine, source, word(kind)),
        [kind, number, _] => of_number(global, alloc, engine, source, word(kind), number),
        [kind, number, ..] if word(kind) == "finish" => {
            ended(global, engine.finish(alloc, number_in(number)?, outcome))
        }
        _ => Err(Broken::NoRow),
    }
}

fn of_all<A: Allocator + Copy>(
    global: Global,
    alloc: A,
    engine: &Engine<'_, A>,
    source: &mut MemorySource<A>,
    kind: &str,
) -> Answer {
    match kind {
        "record" => record(global, alloc, engine),
        "root" => root(global, alloc, engine, source),
        _ => Err(Broken::NoRow),
    }
}

/// The answer to a call about a job or a step of this number.
fn of_number<A: Allocator + Copy>(
    global: Global,
    alloc: A,
    engine: &mut Engine<'_, A>,
    source: &mut MemorySource<A>,
    kind: &str,
    number: &[u8],
) -> Answer {
    match kind {
        "lose" => ended(global, engine.lose(number_in(number)?)),
        "start" => start(global, alloc, engine, source, count_in(number)?),
        kind => asked(global, alloc, engine, kind, count_in(number)?),
    }
}

/// A refusal as the rows spell it.
fn refusal_told<A: Allocator>(global: Global, error: RunsError<A>) -> Answer {
    match &error {
        RunsError::NotReady => said(global, "101"),
        RunsError::NoSuchJob => said(global, "102"),
        RunsError::ExitCode(code) => Ok(format!(in global; "103 {code}")?),
        RunsError::Disagrees => said(global, "104"),
        RunsError::Unlisted(path) => with_path(global, 105, path),
        RunsError::Origin(path) => with_path(global, 106, path),
        RunsError::Source(error) => {
            let fault = fault_told(global, error)?;
            Ok(format!(in global; "107 {fault}")?)
        }
        RunsError::Full => said(global, "109"),
        RunsError::Conflict(path) => with_path(global, 110, path),
        RunsError::Memory => Err(Broken::Memory),
    }
}

/// A number and a path.
pub fn with_path<A: Allocator>(global: Global, number: u8, path: &Path<A>) -> Answer {
    let path = path.as_str();
    Ok(format!(in global; "{number} {path}")?)
}

/// A number and a digest.
pub fn with_digest(global: Global, number: u8, digest: &Digest) -> Answer {
    let text = digest.write_text(global)?;
    Ok(format!(in global; "{number} {text}")?)
}

fn ended<A: Allocator>(global: Global, ended: Result<(), RunsError<A>>) -> Answer {
    match ended {
        Err(error) => refusal_told(global, error),
        Ok(()) => said(global, "done"),
    }
}

fn start<A: Allocator + Copy>(
    global: Global,
    alloc: A,
    engine: &mut Engine<'_, A>,
    source: &mut MemorySource<A>,
    step: usize,
) -> Answer {
    let mut memo = Memo::new(alloc);
    start_over(global, alloc, engine, &mut memo, source, step)
}

/// The answer to a start over what the memo knows.
pub fn start_over<A: Allocator + Copy, S: BlobSource<A>>(
    global: Global,
    alloc: A,
    engine: &mut Engine<'_, A>,
    memo: &mut Memo<A>,
    source: &mut S,
    step: usize,
) -> Answer
    requires { IsKnownOf (known_by memo.old) (S.tells source.old) }
    ensures { IsKnownOf (known_by memo.new) (S.tells source.new) }
{
    if step >= engine.plan().steps().len() {
        return Err(Broken::NoRow);
    }
    match engine.start(alloc, step, memo, source) {
        Err(error) => refusal_told(global, error),
        Ok(job) => {
            let id = job.id;
            let digest = job.digest.write_text(global)?;
            Ok(format!(in global; "job {id} {digest}")?)
        }
    }
}

fn root<A: Allocator + Copy>(
    global: Global,
    alloc: A,
    engine: &Engine<'_, A>,
    source: &mut MemorySource<A>,
) -> Answer {
    let mut memo = Memo::new(alloc);
    root_over(global, alloc, engine, &mut memo, source)
}

/// The root over what the memo knows.
pub fn root_over<A: Allocator + Copy, S: BlobSource<A>>(
    global: Global,
    alloc: A,
    engine: &Engine<'_, A>,
    memo: &mut Memo<A>,
    source: &mut S,
) -> Answer
    requires { IsKnownOf (known_by memo.old) (S.tells source.old) }
    ensures { IsKnownOf (known_by memo.new) (S.tells source.new) }
{
    match engine.root_tree(alloc, memo, source) {
        Err(error) => refusal_told(global, error),
        Ok(tree) => {
            let digest = tree.root.write_text(global)?;
            Ok(format!(in global; "root {digest}")?)
        }
    }
}

/// The text of the record, if there is one.
fn record<A: Allocator + Copy>(global: Global, alloc: A, engine: &Engine<'_, A>) -> Answer {
    match engine.record(alloc)? {
        None => said(global, "none"),
        Some(noted) => said(global, str::from_utf8(&noted.write(alloc)?)?),
    }
}

/// What the engine answers to a question about a step.
pub fn asked<A: Allocator + Copy>(
    global: Global,
    alloc: A,
    engine: &Engine<'_, A>,
    kind: &str,
    step: usize,
) -> Answer {
    if step >= engine.plan().steps().len() {
        return Err(Broken::NoRow);
    }
    match kind {
        "ready" => said(global, if engine.ready(step) { "yes" } else { "no" }),
        "finished" => said(global, if engine.finished(step) { "yes" } else { "no" }),
        "running" => {
            let count = engine.running(step);
            Ok(format!(in global; "{count}")?)
        }
        "result" if engine.finished(step) => {
            let bytes = engine.result(alloc, step)?.encode(alloc)?;
            let digest = Digest::of(&bytes).write_text(global)?;
            Ok(format!(in global; "result {digest}")?)
        }
        _ => Err(Broken::NoRow),
    }
}
