ghost use Rattle.std.specs.Prelude.{◌≡◌, ◌↔◌, ◌<◌, ◌∷◌, [], IfErr, IfOk, IsTrue, MatchOption};
ghost use Rattle.std.specs.Prelude.{OnErr, OnOk, length, string_bytes};
ghost use Rattle.clap.specs.Words.{found_of, rows_of};
ghost use Rattle.commands.specs.Compared.{AreOfOneQuestion, BeginsComparison, ComparesAsked};
ghost use Rattle.commands.specs.Compared.{FailsCompare, HasSteps, IsCompared, IsFirstOtherLine};
ghost use Rattle.commands.specs.Compared.{IsStepOf, IsToldOf, IsYesOf, is_evidence, verdict_line};
ghost use Rattle.commands.specs.Refusal.{IsPrintFault};
ghost use Rattle.commands.specs.Told.{PrintsNoLine};
ghost use Rattle.commands.specs.Words.{IsCheckedBy};
ghost use Rattle.report.specs.Line.{HasNoNewline, IsOneLine};
ghost use Rattle.verifier.specs.Compared.{IsComparison};
ghost use Rattle.verifier.specs.declared.comparing.Comparison.TheVariants.{Alike};

use crate::ended::Ended;
use crate::error::CommandError;
use crate::options::{Options, invalid_value, text_for};
use crate::recalling::{Recollection, recall_evidence};
use crate::verifying::print_line;
use crate::world::{Archives, Inputs};
use blob_digest::Digest;
use clap::ArgMatches;
use plan::{StepName, spells_one_plan};
use report::{Compared, is_same, is_yes, report, report_compared};
use std::alloc::{AllocError, Global};
use std::io::Write;
use verifier::{Comparison, compare};

/// The number of the first line in which texts differ.
fn first_other_line(one: &[u8], other: &[u8]) -> Option<u64>
    ensures { MatchOption result (one.now ≡ other.now) (IsFirstOtherLine one.now other.now) }
{
    let mut line = 1;
    for (index, byte) in one.iter().enumerate() {
        let Some(twin) = other.get(index) else {
            return Some(line);
        };
        if *twin != *byte {
            return Some(line);
        }
        if *byte == b'\n' {
            line += 1;
        }
    }
    if one.len() < other.len() {
        return Some(line);
    }
    None
}

/// How the roots of two builds compare whose steps are alike.
fn compare_roots(one: &Recollection, other: &Recollection) -> Compared<Global>
    requires question { AreOfOneQuestion one.now other.now }
    requires alike { IsComparison {A = Global} one.now.recalled.steps.items
        other.now.recalled.steps.items Alike }
    ensures { IsCompared one.now other.now result }
{
    let root = one.case.claim();
    let another = other.case.claim();
    if root != another {
        return Compared::Roots {
            one: root,
            other: another,
        };
    }
    let steps = one.recalled.steps.len() as u64;
    Compared::Same { root, steps }
}

/// The name of a step of a build, and the action that was recorded of it.
fn step_of(
    alloc: Global,
    build: &Recollection,
    index: usize,
) -> Result<(StepName<Global>, Digest), AllocError>
    requires planned { index < length build.now.case.plan.steps }
    requires recorded { index < length build.now.recalled.steps.items }
    ensures { IfOk result (λ step. IsStepOf build.now index step.0 step.1) }
{
    let step = &build.case.plan().steps()[index];
    let recorded = &build.recalled.steps[index];
    Ok((StepName::copy_of(alloc, &step.name)?, recorded.action))
}

/// How two builds of one plan and one source tree compare, each of which has a yes.
fn compare_steps(
    alloc: Global,
    one: &Recollection,
    other: &Recollection,
) -> Result<Compared<Global>, AllocError>
    requires question { AreOfOneQuestion one.now other.now }
    requires one { HasSteps one.now }
    requires other { HasSteps other.now }
    ensures { IfOk result (IsCompared one.now other.now) }
{
    match compare(alloc, &one.recalled.steps, &other.recalled.steps)? {
        Comparison::Alike => Ok(compare_roots(one, other)),
        Comparison::Unlike { step, path } => {
            let (name, action) = step_of(alloc, one, step)?;
            Ok(Compared::Step { name, action, path })
        }
        Comparison::OtherAction { step } => {
            let (name, one) = step_of(alloc, one, step)?;
            let (_, other) = step_of(alloc, other, step)?;
            Ok(Compared::Actions { name, one, other })
        }
    }
}

/// Whether two digests are one.
fn same_digest(one: &Digest, other: &Digest) -> bool
    ensures { IsTrue result ↔ (one.now ≡ other.now) }
{
    *one == *other
}

/// How two builds compare, each of which has a yes: by their plans, by their sources, and then by
/// their steps and roots.
fn compare_builds(
    alloc: Global,
    one: &Recollection,
    other: &Recollection,
) -> Result<Compared<Global>, AllocError>
    requires one { HasSteps one.now }
    requires other { HasSteps other.now }
    ensures { IfOk result (IsCompared one.now other.now) }
{
    let plan = one.case.plan();
    let other_plan = other.case.plan();
    // For the prover: a text is that of one plan, and plans keep their rules.
    spells_one_plan();
    let _ = plan.steps();
    let _ = other_plan.steps();
    let text = plan.write(alloc)?;
    let other_text = other_plan.write(alloc)?;
    if let Some(line) = first_other_line(&text, &other_text) {
        return Ok(Compared::Plans { line });
    }
    let sources = one.case.sources();
    let other_sources = other.case.sources();
    if !same_digest(&sources, &other_sources) {
        return Ok(Compared::Sources {
            one: sources,
            other: other_sources,
        });
    }
    compare_steps(alloc, one, other)
}

/// The line of a verdict, behind a word that says whose it is.
fn verdict_line(alloc: Global, whose: &str, build: &Recollection) -> Result<String, AllocError>
    requires { HasNoNewline whose.now }
    ensures value { IfOk result (λ text. string_bytes text ≡ verdict_line whose.now build.now) }
    ensures one { OnOk result (IsOneLine (verdict_line whose.now build.now)) }
{
    let verdict = report(alloc, &build.recalled.answer.verdict)?;
    format!(in alloc; "{whose} {verdict}")
}

/// The line of what is said of two builds, and what it comes to. A verdict that isn't yes comes
/// first.
fn line_of_both(
    alloc: Global,
    one: &Recollection,
    other: &Recollection,
) -> Result<(String, Ended), AllocError>
    requires one { IsYesOf one.now → HasSteps one.now }
    requires other { IsYesOf other.now → HasSteps other.now }
    ensures told { IfOk result (λ r. IsToldOf one.now other.now (string_bytes r.0) r.1) }
    ensures one { IfOk result (λ r. IsOneLine (string_bytes r.0)) }
{
    if !is_yes(&one.recalled.answer.verdict) {
        return Ok((verdict_line(alloc, "first", one)?, Ended::No(None)));
    }
    if !is_yes(&other.recalled.answer.verdict) {
        return Ok((verdict_line(alloc, "second", other)?, Ended::No(None)));
    }
    let compared = compare_builds(alloc, one, other)?;
    let line = report_compared(alloc, &compared)?;
    if is_same(&compared) {
        return Ok((line, Ended::Done));
    }
    Ok((line, Ended::No(None)))
}

/// The path of evidence isn't empty.
fn check_evidence<M: Options>(
    alloc: Global,
    options: &M,
    option: &'static str,
) -> Result<(), CommandError>
    ensures { IsCheckedBy (is_evidence (M.rows options.now) option.now ∷ []) result }
{
    if text_for(options, option).is_empty() {
        return Err(invalid_value(alloc, option, "a folder or an archive", "")?);
    }
    Ok(())
}

/// Prints the line of how the builds compare that two pieces of evidence recorded, and answers done
/// where they are the same. By its bound it writes no file, and doesn't listen.
pub fn run_compare<W: Inputs + Archives, O: Write>(
    alloc: Global,
    world: &W,
    matches: &ArgMatches<'_>,
    out: &mut O,
) -> Result<Ended, CommandError>
    ensures answered { IfOk result (ComparesAsked (W.sees world.now)
        (rows_of (found_of matches.now)) (O.contents out.old) (O.contents out.new)) }
    // Where it is for anything but the output, nothing was printed.
    ensures unprinted { IfErr result
        (λ fault. ¬ IsPrintFault fault → O.contents out.new ≡ O.contents out.old) }
    // A refusal leaves no byte that isn't of that line, and no newline.
    ensures begun { OnErr result (BeginsComparison (W.sees world.now)
        (rows_of (found_of matches.now)) (O.contents out.old) (O.contents out.new)) }
    ensures unended { OnErr result (PrintsNoLine (O.contents out.old) (O.contents out.new)) }
    // It is for the first fault: what comes before it has none.
    ensures refused { IfErr result
        (FailsCompare (W.sees world.now) (rows_of (found_of matches.now))) }
{
    check_evidence(alloc, matches, "evidence")?;
    check_evidence(alloc, matches, "other")?;
    let one = recall_evidence(alloc, world, text_for(matches, "evidence"))?;
    let other = recall_evidence(alloc, world, text_for(matches, "other"))?;
    let (line, ended) = line_of_both(alloc, &one, &other)?;
    print_line(line.as_str(), out)?;
    Ok(ended)
}
