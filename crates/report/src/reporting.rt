ghost use Rattle.std.specs.Prelude.{◌≡◌, ◌↔◌, IfOk, IsTrue, OnOk, string_bytes};
ghost use Rattle.report.specs.Line.{HasNoNewline, IsOneLine, IsYesOfStages, no_text, place_text};
ghost use Rattle.report.specs.Line.{report_line, stage_no_text, stages_line, stages_yes_text};
ghost use Rattle.report.specs.Line.{yes_text};
ghost use Rattle.verifier.specs.Verdict.{IsYes};

use crate::cause::cause_text;
use crate::stages::StagesVerdict;
use blob_digest::Digest;
use std::alloc::{AllocError, Allocator};
use verifier::{Cause, Place, Verdict};

/// Where a fault stands: `step`, a space and the step's name, or `root`.
#[tactic(auto, using(crate::proofs::Unbroken::none_seen, crate::proofs::Unbroken::none_named, crate::proofs::Unbroken::none_in_name))]
fn place_text<A: Allocator + Copy, B: Allocator>(
    alloc: A,
    place: &Place<B>,
) -> Result<String<A>, AllocError>
    ensures value { IfOk result (λ text. string_bytes text ≡ place_text place.now) }
    ensures unbroken { OnOk result (HasNoNewline (place_text place.now)) }
{
    match place {
        Place::Step(name) => {
            let name = name.as_str();
            format!(in alloc; "step {name}")
        }
        Place::Root => String::from_str(alloc, "root"),
    }
}

/// `yes`, the root and the number of steps.
fn yes_line<A: Allocator + Copy>(
    alloc: A,
    root: &Digest,
    steps: u64,
) -> Result<String<A>, AllocError>
    ensures value { IfOk result (λ text. string_bytes text ≡ yes_text root.now steps) }
    ensures one { OnOk result (IsOneLine (yes_text root.now steps)) }
{
    // A read for the prover: a digest's hash has 32 bytes.
    let _ = root.hash();
    let root = root.write_text(alloc)?;
    format!(in alloc; "yes {root} steps {steps}\n")
}

/// `no`, the place and the cause.
fn no_line<A: Allocator + Copy, B: Allocator>(
    alloc: A,
    place: &Place<B>,
    cause: &Cause<B>,
) -> Result<String<A>, AllocError>
    ensures value { IfOk result (λ text. string_bytes text ≡ no_text place.now cause.now) }
    ensures one { OnOk result (IsOneLine (no_text place.now cause.now)) }
{
    let place = place_text(alloc, place)?;
    let cause = cause_text(alloc, cause)?;
    format!(in alloc; "no {place} cause {cause}\n")
}

/// The verdict's one line, with its newline: `yes`, the root and the number of steps, or `no`, the
/// place and the cause.
pub fn report<A: Allocator + Copy, B: Allocator>(
    alloc: A,
    verdict: &Verdict<B>,
) -> Result<String<A>, AllocError>
    ensures value { IfOk result (λ text. string_bytes text ≡ report_line verdict.now) }
    // No newline stands before the one at its end.
    ensures one { OnOk result (IsOneLine (report_line verdict.now)) }
{
    match verdict {
        Verdict::Yes { root, steps } => yes_line(alloc, root, *steps),
        Verdict::No(place, cause) => no_line(alloc, place, cause),
    }
}

/// Whether the verdict is yes.
pub fn is_yes<B: Allocator>(verdict: &Verdict<B>) -> bool
    ensures { IsTrue result ↔ IsYes verdict.now }
{
    matches!(verdict, Verdict::Yes { .. })
}

/// `yes`, the root, and the numbers of stages and of steps.
fn stages_yes_line<A: Allocator + Copy>(
    alloc: A,
    root: &Digest,
    stages: u64,
    steps: u128,
) -> Result<String<A>, AllocError>
    ensures value { IfOk result
        (λ text. string_bytes text ≡ stages_yes_text root.now stages steps) }
    ensures one { OnOk result (IsOneLine (stages_yes_text root.now stages steps)) }
{
    // A read for the prover: a digest's hash has 32 bytes.
    let _ = root.hash();
    let root = root.write_text(alloc)?;
    format!(in alloc; "yes {root} stages {stages} steps {steps}\n")
}

/// `no`, the stage, the place and the cause.
fn stage_no_line<A: Allocator + Copy, B: Allocator>(
    alloc: A,
    stage: u32,
    place: &Place<B>,
    cause: &Cause<B>,
) -> Result<String<A>, AllocError>
    ensures value { IfOk result
        (λ text. string_bytes text ≡ stage_no_text stage place.now cause.now) }
    ensures one { OnOk result (IsOneLine (stage_no_text stage place.now cause.now)) }
{
    let place = place_text(alloc, place)?;
    let cause = cause_text(alloc, cause)?;
    format!(in alloc; "no stage {stage} {place} cause {cause}\n")
}

/// The one line of what is said of a build in stages, with its newline: `yes`, the root and how
/// many stages and steps there are, or `no`, the stage, the place in it and the cause.
pub fn report_stages<A: Allocator + Copy, B: Allocator>(
    alloc: A,
    verdict: &StagesVerdict<B>,
) -> Result<String<A>, AllocError>
    ensures value { IfOk result (λ text. string_bytes text ≡ stages_line verdict.now) }
    // No newline stands before the one at its end.
    ensures one { OnOk result (IsOneLine (stages_line verdict.now)) }
{
    match verdict {
        StagesVerdict::Yes {
            root,
            stages,
            steps,
        } => stages_yes_line(alloc, root, *stages, *steps),
        StagesVerdict::No {
            stage,
            place,
            cause,
        } => stage_no_line(alloc, *stage, place, cause),
    }
}

/// Whether each stage has a yes.
pub fn is_yes_of_stages<B: Allocator>(verdict: &StagesVerdict<B>) -> bool
    ensures { IsTrue result ↔ IsYesOfStages verdict.now }
{
    matches!(verdict, StagesVerdict::Yes { .. })
}
