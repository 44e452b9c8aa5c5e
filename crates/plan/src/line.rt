ghost use Rattle.std.specs.Prelude.{◌≡◌, ◌++◌, IfOk, OnOk, MatchResult, length, codes};
ghost use Rattle.std.specs.List.{AllByRecursion};
ghost use Rattle.plan.specs.Parts.{IsOriginFault, IsWordsFault, IsFirstFault};
ghost use Rattle.plan.specs.Line.{line_text};
ghost use Rattle.plan.specs.Lines.{from_source, from_step, written_origin_words, origin_words};
ghost use Rattle.plan.specs.Lines.{in_words, origin_value};
ghost use Rattle.plan.specs.Plan.{lines_text};
ghost use Rattle.plan.specs.Values.{IsOrigin, IsLine};

use crate::error::Fault;
use crate::escaped::{read_path, write_path};
use crate::step::{Step, StepName, is_step_name};
use crate::steps::Steps;
use crate::words::{split_once, strip};
use messages::Path;
use std::alloc::{AllocError, Allocator};
use std::marker::Model;

/// Where the content of a line comes from.
#[derive(Drop)]
#[derive_where(Debug)]
pub enum Origin<A: Allocator> {
    /// A path of the source tree, or the whole tree.
    Source(Option<Path<A>>),
    /// A path of what an earlier step made; steps are numbered from 0.
    Output(usize, Path<A>),
}

/// A line of a plan: at the target stands what stands at the origin.
#[derive(Drop)]
#[derive_where(Debug)]
pub struct Line<A: Allocator> {
    pub target: Path<A>,
    pub origin: Origin<A>,
}

impl<A: Allocator> Model for Line<A> {
    ghost use Rattle.plan.specs.Lines.{origin_value};
    ghost use Rattle.plan.specs.Values.{LineValue};

    ghost Value = { LineValue };

    ghost view = { λ a. record { target = a.target; origin = origin_value a.origin } };
}

/// The origin after `src `.
fn read_source<A: Allocator + Copy>(
    alloc: A,
    steps: &Steps<A>,
    path: &[u8],
) -> Result<Result<Origin<A>, Fault>, AllocError>
    ensures { IfOk result (λ read. MatchResult read
        (λ origin. IsOrigin (length steps.now) (origin_value origin)
        × (codes "src " ++ path.now ≡ origin_words steps.now (origin_value origin)))
        (IsOriginFault steps.now (codes "src " ++ path.now))) }
{
    if path == b".".as_slice() {
        return Ok(Ok(Origin::Source(None)));
    }
    match read_path(alloc, path)? {
        Some(path) => Ok(Ok(Origin::Source(Some(path)))),
        None => Ok(Err(Fault::BadLine)),
    }
}

/// The origin after `out `.
fn read_output<A: Allocator + Copy>(
    alloc: A,
    steps: &Steps<A>,
    words: &[u8],
) -> Result<Result<Origin<A>, Fault>, AllocError>
    ensures { IfOk result (λ read. MatchResult read
        (λ origin. IsOrigin (length steps.now) (origin_value origin)
        × (codes "out " ++ words.now ≡ origin_words steps.now (origin_value origin)))
        (IsOriginFault steps.now (codes "out " ++ words.now))) }
{
    let Some((name, path)) = split_once(words, b' ') else {
        return Ok(Err(Fault::BadLine));
    };
    if !is_step_name(name) {
        return Ok(Err(Fault::BadLine));
    }
    let Some(path) = read_path(alloc, path)? else {
        return Ok(Err(Fault::BadLine));
    };
    match steps.number_of(name) {
        Some(number) => Ok(Ok(Origin::Output(number, path))),
        None => Ok(Err(Fault::LaterStep)),
    }
}

fn read_origin<A: Allocator + Copy>(
    alloc: A,
    steps: &Steps<A>,
    words: &[u8],
) -> Result<Result<Origin<A>, Fault>, AllocError>
    ensures { IfOk result (λ read. MatchResult read
        (λ origin. IsOrigin (length steps.now) (origin_value origin)
        × (words.now ≡ origin_words steps.now (origin_value origin)))
        (IsOriginFault steps.now words.now)) }
{
    if let Some(path) = strip(words, b"src ") {
        return read_source(alloc, steps, path);
    }
    match strip(words, b"out ") {
        Some(rest) => read_output(alloc, steps, rest),
        None => Ok(Err(Fault::BadLine)),
    }
}

/// The line of these words, after these steps.
fn read_line<A: Allocator + Copy>(
    alloc: A,
    steps: &Steps<A>,
    words: &[u8],
) -> Result<Result<Line<A>, Fault>, AllocError>
    ensures { IfOk result (λ read. MatchResult read
        (λ line. IsLine (length steps.now) line × (words.now ≡ in_words steps.now line))
        (IsWordsFault steps.now words.now)) }
{
    let Some(rest) = strip(words, b"in ") else {
        return Ok(Err(Fault::BadLine));
    };
    let Some((target, origin)) = split_once(rest, b' ') else {
        return Ok(Err(Fault::BadLine));
    };
    let Some(target) = read_path(alloc, target)? else {
        return Ok(Err(Fault::BadLine));
    };
    match read_origin(alloc, steps, origin)? {
        Ok(origin) => Ok(Ok(Line { target, origin })),
        Err(fault) => Ok(Err(fault)),
    }
}

/// The line that a text begins with, after these steps, and the text after it.
pub(crate) fn first_line<'a, A: Allocator + Copy>(
    alloc: A,
    steps: &Steps<A>,
    text: &'a [u8],
) -> Result<Result<(Line<A>, &'a [u8]), Fault>, AllocError>
    ensures { IfOk result (λ read. MatchResult read
        (λ r. IsLine (length steps.now) r.0
        × (text.now ≡ line_text (in_words steps.now r.0) ++ r.1.now))
        (IsFirstFault steps.now text.now)) }
{
    let Some((words, behind)) = split_once(text, b'\n') else {
        return Ok(Err(Fault::BadLine));
    };
    match read_line(alloc, steps, words)? {
        Ok(line) => Ok(Ok((line, behind))),
        Err(fault) => Ok(Err(fault)),
    }
}

fn write_source<A: Allocator + Copy>(
    alloc: A,
    text: &mut Vec<u8, A>,
    path: &Path<A>,
) -> Result<(), AllocError>
    ensures { OnOk result
        (text.new.items ≡ text.old.items ++ written_origin_words (from_source path.now)) }
{
    text.extend_from_slice(b"src ")?;
    text.extend_from_slice(write_path(alloc, path)?.as_bytes())?;
    Ok(())
}

fn write_output<A: Allocator + Copy>(
    alloc: A,
    text: &mut Vec<u8, A>,
    step: &StepName<A>,
    path: &Path<A>,
) -> Result<(), AllocError>
    ensures { OnOk result
        (text.new.items ≡ text.old.items ++ written_origin_words (from_step step.now path.now)) }
{
    text.extend_from_slice(b"out ")?;
    text.extend_from_slice(step.as_bytes())?;
    text.push(b' ')?;
    text.extend_from_slice(write_path(alloc, path)?.as_bytes())?;
    Ok(())
}

fn write_origin<A: Allocator + Copy>(
    alloc: A,
    text: &mut Vec<u8, A>,
    steps: &[Step<A>],
    origin: &Origin<A>,
) -> Result<(), AllocError>
    requires { IsOrigin (length steps.now) (origin_value origin.now) }
    ensures { OnOk result
        (text.new.items ≡ text.old.items ++ origin_words steps.now (origin_value origin.now)) }
{
    match origin {
        Origin::Source(path) => match path {
            Some(path) => write_source(alloc, text, path),
            None => text.extend_from_slice(b"src ."),
        },
        Origin::Output(number, path) => {
            let step = &steps[*number];
            write_output(alloc, text, &step.name, path)
        }
    }
}

fn write_line<A: Allocator + Copy>(
    alloc: A,
    text: &mut Vec<u8, A>,
    steps: &[Step<A>],
    line: &Line<A>,
) -> Result<(), AllocError>
    requires { IsLine (length steps.now) line.now }
    ensures { OnOk result
        (text.new.items ≡ text.old.items ++ line_text (in_words steps.now line.now)) }
{
    text.extend_from_slice(b"in ")?;
    text.extend_from_slice(write_path(alloc, &line.target)?.as_bytes())?;
    text.push(b' ')?;
    write_origin(alloc, text, steps, &line.origin)?;
    text.push(b'\n')?;
    Ok(())
}

/// Writes the lines, which stand after these steps, at the end of the text.
pub(crate) fn write_lines<A: Allocator + Copy>(
    alloc: A,
    text: &mut Vec<u8, A>,
    steps: &[Step<A>],
    lines: &[Line<A>],
) -> Result<(), AllocError>
    requires { AllByRecursion (IsLine (length steps.now)) lines.now }
    ensures { OnOk result (text.new.items ≡ text.old.items ++ lines_text steps.now lines.now) }
{
    for line in lines {
        write_line(alloc, text, steps, line)?;
    }
    Ok(())
}
