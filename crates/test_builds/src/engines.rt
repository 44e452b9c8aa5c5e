//! Rows of calls of an engine, of which each group has one, over a source with the stock. Each
//! request for memory of a call is refused in turn before the engine is asked once more.
use crate::answers::{Answer, Broken, compared, count_in, said, word};
use crate::calls::answered;
use crate::memos::{self, Question};
use crate::stock::source_of;
use actions::{Outcome, Output};
use blob_digest::Digest;
use messages::{Path, Target, Tree};
use plan::Plan;
use runs::{Engine, OpenError};
use std::alloc::{Allocator, Global};
use test_support::{Refusing, Row};
use tree::{MemorySource, TreeError};

/// How many requests were refused by the calls of the group, whose first row has the plan and the
/// digest of the sources, and what is held besides.
pub fn run(
    global: Global,
    stock: &[Row],
    group: &[Row],
    noted: &mut String,
) -> Result<u64, Broken> {
    let Some((first, rows)) = group.split_first() else {
        return Ok(0);
    };
    let [_, plan, sources, changes @ ..] = first.fields.as_slice() else {
        return Err(Broken::NoRow);
    };
    let heap = Refusing::new(global, 0);
    let mut source = source_of(&heap, stock, changes)?;
    let plan = Plan::read(&heap, plan)?;
    match Engine::new(&heap, &plan, Digest::read_text(sources)?, &mut source) {
        Ok(mut engine) => run_rows(global, &heap, &mut engine, &mut source, rows, noted),
        Err(_) => Err(Broken::NoRow),
    }
}

/// How many requests were refused by these calls of the engine.
fn run_rows<'h>(
    global: Global,
    heap: &'h Refusing<Global>,
    engine: &mut Engine<'_, &'h Refusing<Global>>,
    source: &mut MemorySource<&'h Refusing<Global>>,
    rows: &[Row],
    noted: &mut String,
) -> Result<u64, Broken> {
    let mut refused = 0u64;
    for row in rows {
        let (told, requests) = match asked_over_memo(&row.fields)? {
            Some((question, expected)) => {
                memos::insisted(global, heap, engine, source, question, expected)?
            }
            None => insisted(global, heap, engine, source, &row.fields)?,
        };
        compared(row, told.as_str(), noted)?;
        refused = refused.saturating_add(requests);
    }
    Ok(refused)
}

/// What a row asks over one memo, and what must come; none for another row.
fn asked_over_memo(fields: &[Vec<u8>]) -> Result<Option<(Question, &[u8])>, Broken> {
    Ok(match fields {
        [kind, expected] if word(kind) == "memo root" => Some((Question::Root, expected)),
        [kind, step, expected] if word(kind) == "memo start" => {
            Some((Question::Start(count_in(step)?), expected))
        }
        _ => None,
    })
}

/// Whether the call takes no memory.
fn is_spare(fields: &[Vec<u8>]) -> bool {
    match fields.first() {
        Some(kind) => matches!(word(kind), "ready" | "finished" | "running" | "lose"),
        None => false,
    }
}

/// The answer to a call, each of its requests for memory refused before; and how many were.
pub fn insisted<'h>(
    global: Global,
    heap: &'h Refusing<Global>,
    engine: &mut Engine<'_, &'h Refusing<Global>>,
    source: &mut MemorySource<&'h Refusing<Global>>,
    fields: &[Vec<u8>],
) -> Result<(String, u64), Broken> {
    for number in 1..1_000u64 {
        let outcome = outcome_in(heap, fields)?;
        heap.refuse(number);
        let answer = answered(global, heap, engine, source, fields, outcome);
        let is_refused = heap.has_refused();
        heap.refuse(0);
        match answer {
            Ok(told) if !is_refused && (number == 1 || !is_spare(fields)) => {
                return Ok((told, number - 1));
            }
            Err(Broken::Memory) if is_refused => {}
            Err(broken) => return Err(broken),
            Ok(_) => return Err(Broken::Untold),
        }
    }
    Err(Broken::Untold)
}

/// What a job came to, by a row that finishes it: a code, or a file, a link or a folder at a path.
fn outcome_in<A: Allocator + Copy>(alloc: A, fields: &[Vec<u8>]) -> Result<Outcome<A>, Broken> {
    let mut outcome = Outcome::new(alloc, 0);
    match fields {
        [kind, _, code, _] if word(kind) == "finish" => {
            match str::from_utf8(code)?.parse::<i32>() {
                Ok(code) => return Ok(Outcome::new(alloc, code)),
                Err(_) => return Err(Broken::NoRow),
            }
        }
        [_, _, kind, path, rest, _] => {
            let output = output_of(alloc, word(kind), rest)?;
            if outcome.add(alloc, Path::new(alloc, path)?, output).is_err() {
                return Err(Broken::NoRow);
            }
        }
        _ => {}
    }
    Ok(outcome)
}

fn output_of<A: Allocator + Copy>(alloc: A, kind: &str, rest: &[u8]) -> Result<Output<A>, Broken> {
    Ok(match kind {
        "file" => Output::File {
            digest: Digest::read_text(rest)?,
            executable: false,
        },
        "link" => Output::Link {
            target: Target::new(alloc, rest)?,
        },
        "folder" => Output::Tree(Tree::decode(alloc, rest)?),
        _ => return Err(Broken::NoRow),
    })
}

/// Why there is no engine of a plan, over the stock but for what is lacking; or `none`.
pub fn opened<A: Allocator + Copy>(
    global: Global,
    alloc: A,
    stock: &[Row],
    fields: &[Vec<u8>],
) -> Answer {
    let [plan, changes @ .., _] = fields else {
        return Err(Broken::NoRow);
    };
    let mut source = source_of(alloc, stock, changes)?;
    let plan = Plan::read(alloc, plan)?;
    match Engine::new(alloc, &plan, Digest::empty(), &mut source) {
        Ok(_) => said(global, "none"),
        Err(OpenError::Source(step, error)) => {
            let fault = fault_told(global, &error)?;
            Ok(format!(in global; "107 {step} {fault}")?)
        }
        Err(OpenError::DoNotCache(step)) => Ok(format!(in global; "108 {step}")?),
        Err(OpenError::Memory) => Err(Broken::Memory),
    }
}

/// A fault of a blob, and its digest.
pub fn fault_told<A: Allocator>(global: Global, error: &TreeError<A>) -> Answer {
    let (fault, digest) = match error {
        TreeError::BlobMissing(digest) => ("missing", digest),
        TreeError::BlobWrong(digest) => ("wrong", digest),
        TreeError::BlobMalformed(digest) => ("malformed", digest),
        TreeError::Memory => return Err(Broken::Memory),
        _ => return said(global, "another fault"),
    };
    let digest = digest.write_text(global)?;
    Ok(format!(in global; "{fault} {digest}")?)
}
