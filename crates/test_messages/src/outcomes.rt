//! Rows of outcomes, of which the last that was made is asked, and of a source.
use crate::answers::{Answer, Broken, number, push_text, said, word};
use crate::nodes::{node_of, node_told, refusal_told};
use crate::trees::{hold, hold_as};
use actions::{ActionResult, Outcome, Output, recorded};
use messages::{MessageError, Node, Path, Target, Tree};
use std::alloc::{Allocator, Global};
use tree::{AddError, MemorySource};

pub fn answer<A: Allocator + Copy>(
    global: Global,
    alloc: A,
    source: &mut MemorySource<A>,
    outcome: &mut Outcome<A>,
    fields: &[Vec<u8>],
) -> Answer {
    match fields {
        [kind, _] => of_all(global, alloc, outcome, word(kind)),
        [kind, given, _] => of_one(global, alloc, source, outcome, word(kind), given),
        [kind, digest, bytes, _] if word(kind) == "hold as" => {
            hold_as(global, alloc, source, digest, bytes)
        }
        [kind, path, rest, _] => added(global, alloc, outcome, path, output_of(alloc, kind, rest)?),
        _ => Err(Broken::NoRow),
    }
}

fn of_all<A: Allocator + Copy>(
    global: Global,
    alloc: A,
    outcome: &mut Outcome<A>,
    kind: &str,
) -> Answer {
    match kind {
        "outputs" => outputs(global, outcome),
        "link alone" => {
            *outcome = with_link(alloc)?;
            number(global, outcome.exit_code().unsigned_abs() as u64)
        }
        _ => Err(Broken::NoRow),
    }
}

fn of_one<A: Allocator + Copy>(
    global: Global,
    alloc: A,
    source: &mut MemorySource<A>,
    outcome: &mut Outcome<A>,
    kind: &str,
    given: &[u8],
) -> Answer {
    match kind {
        "hold" => hold(global, alloc, source, given),
        "recorded" => read(global, alloc, outcome, source, given),
        "at" => standing(global, alloc, outcome, given),
        _ => Err(Broken::NoRow),
    }
}

/// Reads what the result stands for, and tells how often the source was called by then.
fn read<A: Allocator + Copy>(
    global: Global,
    alloc: A,
    outcome: &mut Outcome<A>,
    source: &mut MemorySource<A>,
    bytes: &[u8],
) -> Answer {
    let result = ActionResult::decode(alloc, bytes)?;
    match recorded(alloc, &result, source) {
        Ok(read) => {
            *outcome = read;
            code_told(global, outcome.exit_code(), source.calls())
        }
        Err(error) => refusal_told(global, error),
    }
}

fn code_told(global: Global, code: i32, calls: u64) -> Answer {
    Ok(format!(in global; "exit code {code} by {calls}")?.into_bytes())
}

/// What stands at the path.
fn standing<A: Allocator + Copy>(
    global: Global,
    alloc: A,
    outcome: &Outcome<A>,
    path: &[u8],
) -> Answer {
    let path = Path::new(alloc, path)?;
    match outcome.lookup(alloc, &path)? {
        Some(node) => node_told(global, &node),
        None => said(global, "nothing"),
    }
}

/// The output of a file or a link, or of the Tree with this encoding.
fn output_of<A: Allocator + Copy>(alloc: A, kind: &[u8], rest: &[u8]) -> Result<Output<A>, Broken> {
    if kind == b"tree".as_slice() {
        return Ok(Output::Tree(Tree::decode(alloc, rest)?));
    }
    match node_of(alloc, kind, rest)? {
        Node::File { digest, executable } => Ok(Output::File { digest, executable }),
        Node::Link { target } => Ok(Output::Link { target }),
        Node::Dir(_) => Err(Broken::NoRow),
    }
}

fn added<A: Allocator + Copy>(
    global: Global,
    alloc: A,
    outcome: &mut Outcome<A>,
    path: &[u8],
    output: Output<A>,
) -> Answer {
    let path = Path::new(alloc, path)?;
    match outcome.add(alloc, path, output) {
        Ok(()) => said(global, "added"),
        Err(AddError::Overlap(_)) => said(global, "no room"),
        Err(AddError::Memory) => Err(Broken::Memory),
    }
}

/// The paths of the outputs, each with a comma after it.
fn outputs<A: Allocator>(global: Global, outcome: &Outcome<A>) -> Answer {
    let mut paths = Vec::new(global);
    for output in outcome.outputs() {
        push_text(&mut paths, output.0.as_bytes())?;
    }
    Ok(paths)
}

/// The outcome with the exit code 7 and a link at `l`.
fn with_link<A: Allocator + Copy>(alloc: A) -> Result<Outcome<A>, MessageError> {
    let path = Path::new(alloc, b"l")?;
    let target = Target::new(alloc, b"t")?;
    let mut outputs = Vec::new(alloc);
    outputs.push((path, Output::Link { target }))?;
    Ok(Outcome::from_outputs(7, outputs))
}
