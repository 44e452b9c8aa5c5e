ghost use Rattle.std.specs.Prelude.{◌≡◌, ◌+◌, ◌<◌, ◌≤◌, ◌^◌, ◌++◌, [], Err, IfOk, IfErr, IsOk};
ghost use Rattle.std.specs.Prelude.{OnOk, OnErr, MatchOption, length, codes};
ghost use Rattle.std.specs.List.{AllByRecursion, flat_map};
ghost use Rattle.plan.specs.Faults.{HasNoHeader, IsFaultBehind, IsPlanFault};
ghost use Rattle.plan.specs.Parts.{HasLineTwo, IsLinesFault, IsFront};
ghost use Rattle.plan.specs.Line.{Begins};
ghost use Rattle.plan.specs.Plan.{KeepApart, AreLines, AreSteps, IsPlan, plan_header, lines_text};
ghost use Rattle.plan.specs.Plan.{step_text, plan_text};
ghost use Rattle.plan.specs.Reading.{FaultyUnlessMemory, ReadsUnlessMemory};
ghost use Rattle.plan.specs.Targets.{TakesIn};
ghost use Rattle.plan.specs.Values.{PlanValue, IsLine};
ghost use Rattle.plan.specs.declared.error.PlanError.{PlanError};
ghost use Rattle.plan.specs.declared.version.Version.TheVariants.{Two};

use crate::error::{Fault, ReadError};
use crate::line::{Line, first_line, write_lines};
use crate::step::{Step, StepName, write_step_line};
use crate::steps::Steps;
use crate::targets::Targets;
use crate::version::Version;
use crate::words::{first_step, strip};
use messages::Path;
use std::alloc::{AllocError, Allocator};
use std::marker::Model;

const ROOT: &[u8] = b"root\n";

/// The most steps of a plan.
const MOST_STEPS: usize = 4096;

/// The most lines of a directory.
const MOST_LINES: usize = 65_536;

/// How an artifact is put together: its version, its steps, and the lines of its root.
#[derive(Drop)]
#[derive_where(Debug)]
pub struct Plan<A: Allocator> {
    version: Version,
    steps: Vec<Step<A>, A>,
    root: Vec<Line<A>, A>,
}

impl<A: Allocator> Model for Plan<A> {
    ghost use Rattle.plan.specs.Values.{PlanValue};
    ghost use Rattle.plan.specs.Plan.{IsPlan};

    ghost Value = { PlanValue };

    ghost view = { λ a.
        record { version = a.version; steps = a.steps.items; root_lines = a.root.items } };

    ghost invariant = { λ a.
        IsPlan (record { version = a.version; steps = a.steps.items; root_lines = a.root.items }) };
}

/// The version whose header the text begins with, and the text after the header.
fn read_version(text: &[u8]) -> Option<(Version, &[u8])>
    ensures { MatchOption result (HasNoHeader text.now)
        (λ r. text.now ≡ plan_header r.0 ++ r.1.now) }
{
    if let Some(rest) = strip(text, Version::One.header()) {
        return Some((Version::One, rest));
    }
    let rest = strip(text, Version::Two.header())?;
    Some((Version::Two, rest))
}

/// Takes the target of one more line: in version 1, unless it overlaps another.
fn take_target<A: Allocator + Copy>(
    alloc: A,
    version: Version,
    targets: &mut Targets<A>,
    target: &Path<A>,
) -> Result<bool, AllocError>
    ensures takes { IfOk result
        (λ taken. TakesIn version taken target.now targets.old targets.new) }
    ensures free { version ≡ Two → IsOk result }
{
    match version {
        Version::One => targets.insert(alloc, target),
        Version::Two => Ok(true),
    }
}

/// The steps that a text begins with.
#[derive(Drop)]
struct Front<'a, A: Allocator> {
    /// The steps before the root.
    steps: Steps<A>,
    /// The text after them.
    rest: &'a [u8],
    /// The number of its first line.
    number: u64,
}

/// The lines of a directory after these steps, and the text after them. The first line has this
/// number.
fn read_lines<'a, A: Allocator + Copy>(
    alloc: A,
    version: Version,
    steps: &Steps<A>,
    text: &'a [u8],
    first: u64,
) -> Result<(Vec<Line<A>, A>, &'a [u8]), ReadError>
    requires valid { AreSteps [] steps.now }
    requires first_fits { first < 2 ^ 62 }
    ensures found { IfOk result
        (λ r. AreLines (length steps.now) r.0.items
        × (text.now ≡ lines_text steps.now r.0.items ++ r.1.now)) }
    ensures apart { IfOk result (λ r. KeepApart version r.0.items) }
    ensures none { IfOk result (λ r. ¬ Begins (codes "in ") r.1.now) }
    ensures fault { IfErr result
        (FaultyUnlessMemory (IsLinesFault version steps.now first text.now)) }
{
    let mut lines = Vec::new(alloc);
    let mut targets = Targets::new(alloc);
    let mut rest = text;
    while rest.starts_with(b"in ") {
        let number = first + lines.len() as u64;
        let (line, behind) = match first_line(alloc, steps, rest)? {
            Ok(read) => read,
            Err(fault) => return Err(ReadError::at(number, fault)),
        };
        if lines.len() == MOST_LINES {
            return Err(ReadError::at(number, Fault::TooMany));
        }
        if !take_target(alloc, version, &mut targets, &line.target)? {
            return Err(ReadError::at(number, Fault::Overlap));
        }
        lines.push(line)?;
        rest = behind;
    }
    Ok((lines, rest))
}

/// The steps before the root, the first line of which is line 2.
fn read_steps<A: Allocator + Copy>(
    alloc: A,
    version: Version,
    text: &[u8],
) -> Result<Front<'_, A>, ReadError>
    ensures found { IfOk result
        (λ front. IsFront version text.now front.steps front.rest.now front.number) }
    ensures fault { IfErr result
        (FaultyUnlessMemory (IsFaultBehind (plan_header version ++ text.now))) }
    // Line 2 takes no memory.
    ensures late { OnErr result (HasLineTwo text.now) }
{
    let mut steps = Steps::new(alloc);
    let mut rest = text;
    let mut number = 2;
    while let Some(line) = first_step(rest) {
        if steps.number_of(line.name).is_some() {
            return Err(ReadError::at(number, Fault::SameStep));
        }
        if steps.len() == MOST_STEPS {
            return Err(ReadError::at(number, Fault::TooMany));
        }
        let (lines, behind) = read_lines(alloc, version, &steps, line.behind, number + 1)?;
        number += 1 + lines.len() as u64;
        let step = Step {
            name: StepName::of_valid(alloc, line.name)?,
            frame: line.digest,
            lines,
        };
        steps = steps.with(alloc, step)?;
        rest = behind;
    }
    Ok(Front {
        steps,
        rest,
        number,
    })
}

impl<A: Allocator + Copy> Plan<A> {
    /// The plan of this text. The first line at fault decides: its form (`BadHeader`, `BadLine`),
    /// then a step's name (`SameStep`), the step that it reads (`LaterStep`), the number of steps
    /// or lines (`TooMany`), then in version 1 targets that overlap (`Overlap`).
    pub fn read(alloc: A, text: &[u8]) -> Result<Plan<A>, ReadError>
        // The text is that of the plan.
        ensures found { IfOk result (λ plan. IsPlan plan × (text.now ≡ plan_text plan)) }
        // The plan whose text it is is answered.
        ensures only { (plan : PlanValue) → IsPlan plan → text.now ≡ plan_text plan
            → ReadsUnlessMemory result plan }
        // Which line is at fault, and how.
        ensures fault { IfErr result (FaultyUnlessMemory (IsPlanFault text.now)) }
        // Lines 1 and 2 take no memory.
        ensures early { (e : PlanError) → IsPlanFault text.now e → e.line ≤ 2
            → result ≡ Err (ReadError.Faulty e) }
    {
        let Some((version, rest)) = read_version(text) else {
            return Err(ReadError::at(1, Fault::BadHeader));
        };
        let front = read_steps(alloc, version, rest)?;
        let Some(rest) = strip(front.rest, ROOT) else {
            return Err(ReadError::at(front.number, Fault::BadLine));
        };
        let first = front.number + 1;
        let (root, rest) = read_lines(alloc, version, &front.steps, rest, first)?;
        if !rest.is_empty() {
            return Err(ReadError::at(first + root.len() as u64, Fault::BadLine));
        }
        Ok(Plan {
            version,
            steps: front.steps.into_vec(),
            root,
        })
    }

    /// The version.
    pub fn version(&self) -> Version
        ensures value { result ≡ self.now.version }
        ensures valid { IsPlan self.now }
    {
        self.version
    }

    /// The steps, in order.
    pub fn steps(&self) -> &[Step<A>]
        ensures value { result.now ≡ self.now.steps }
        ensures valid { IsPlan self.now }
    {
        self.steps.as_slice()
    }

    /// The lines of the root, in order.
    pub fn root(&self) -> &[Line<A>]
        ensures value { result.now ≡ self.now.root_lines }
        ensures valid { IsPlan self.now }
    {
        self.root.as_slice()
    }

    /// The text of the plan.
    pub fn write(&self, alloc: A) -> Result<Vec<u8, A>, AllocError>
        ensures { IfOk result (λ text. text.items ≡ plan_text self.now) }
    {
        let mut text = Vec::new(alloc);
        text.extend_from_slice(self.version.header())?;
        for step in &self.steps {
            write_step(alloc, &mut text, &self.steps, step)?;
        }
        text.extend_from_slice(ROOT)?;
        write_lines(alloc, &mut text, &self.steps, &self.root)?;
        Ok(text)
    }
}

/// Writes the step's line and its lines at the end of the text.
fn write_step<A: Allocator + Copy>(
    alloc: A,
    text: &mut Vec<u8, A>,
    steps: &[Step<A>],
    step: &Step<A>,
) -> Result<(), AllocError>
    requires { AllByRecursion (IsLine (length steps.now)) step.now.lines }
    ensures { OnOk result (text.new.items ≡ text.old.items ++ step_text steps.now step.now) }
{
    write_step_line(alloc, text, &step.name, &step.frame)?;
    write_lines(alloc, text, steps, &step.lines)
}
