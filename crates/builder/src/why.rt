//! Why a build was refused, in words.
ghost use Rattle.std.specs.Prelude.{◌≡◌, IfOk, string_bytes};
ghost use Rattle.builder.specs.Why.{about_blob, about_path, child_words, error_words};
ghost use Rattle.builder.specs.Why.{layout_words, opening_words, refusal_words, runs_words};
ghost use Rattle.builder.specs.Why.{tree_words, why_text};

use crate::error::BuildPlanError;
use crate::fault::Place;
use crate::line::place_text;
use blob_digest::Digest;
use messages::Path;
use plan::{Plan, write_path};
use runs::{OpenError, RunsError};
use std::alloc::{AllocError, Allocator};
use tree::TreeError;
use worker::{LayoutError, RunError, StepRefusal};

/// What is wrong with the blob.
fn about_blob<A: Allocator + Copy>(
    alloc: A,
    digest: &Digest,
    fault: &str,
) -> Result<String<A>, AllocError>
    ensures { IfOk result (λ text. string_bytes text ≡ about_blob digest.now fault.now) }
{
    // A read for the prover: a digest's hash has 32 bytes.
    let _ = digest.hash();
    let digest = digest.write_text(alloc)?;
    format!(in alloc; "blob {digest} {fault}")
}

/// What is wrong with the thing of this kind at the path.
fn about_path<A: Allocator + Copy, B: Allocator>(
    alloc: A,
    kind: &str,
    path: &Path<B>,
    fault: &str,
) -> Result<String<A>, AllocError>
    ensures { IfOk result (λ text. string_bytes text ≡ about_path kind.now path.now fault.now) }
{
    let path = write_path(alloc, path)?;
    format!(in alloc; "{kind} {path} {fault}")
}

fn tree_words<A: Allocator + Copy, B: Allocator>(
    alloc: A,
    error: &TreeError<B>,
) -> Result<String<A>, AllocError>
    ensures { IfOk result (λ text. string_bytes text ≡ tree_words error.now) }
{
    match error {
        TreeError::Absent(path) => about_path(alloc, "path", path, "is missing"),
        TreeError::BlobMissing(digest) => about_blob(alloc, digest, "is missing"),
        TreeError::BlobWrong(digest) => about_blob(alloc, digest, "has other bytes"),
        TreeError::BlobMalformed(digest) => about_blob(alloc, digest, "is malformed"),
        TreeError::TooDeep(path) => about_path(alloc, "directory", path, "is too deep"),
        TreeError::Conflict(path) => about_path(alloc, "path", path, "has conflicting lines"),
        TreeError::Fetch => String::from_str(alloc, "the store failed"),
        TreeError::Memory => String::from_str(alloc, "out of memory"),
    }
}

fn opening_words<A: Allocator + Copy, B: Allocator>(
    alloc: A,
    error: &OpenError<B>,
) -> Result<String<A>, AllocError>
    ensures { IfOk result (λ text. string_bytes text ≡ opening_words error.now) }
{
    match error {
        OpenError::Source(_, error) => tree_words(alloc, error),
        OpenError::DoNotCache(_) => String::from_str(alloc, "the result isn't to be kept"),
        OpenError::Memory => String::from_str(alloc, "out of memory"),
    }
}

fn runs_words<A: Allocator + Copy, B: Allocator>(
    alloc: A,
    error: &RunsError<B>,
) -> Result<String<A>, AllocError>
    ensures { IfOk result (λ text. string_bytes text ≡ runs_words error.now) }
{
    match error {
        RunsError::NotReady => String::from_str(alloc, "a step that is read hasn't finished"),
        RunsError::NoSuchJob => String::from_str(alloc, "no such job runs"),
        RunsError::ExitCode(code) => format!(in alloc; "exit code {code}"),
        RunsError::Disagrees => {
            String::from_str(
                alloc,
                "the step, or one with the same action, has another outcome",
            )
        }
        RunsError::Unlisted(path) => about_path(alloc, "output", path, "is unlisted"),
        RunsError::Origin(path) => about_path(alloc, "origin", path, "is missing"),
        RunsError::Source(error) => tree_words(alloc, error),
        RunsError::Conflict(path) => about_path(alloc, "path", path, "has conflicting lines"),
        RunsError::Full => String::from_str(alloc, "4096 jobs run"),
        RunsError::Memory => String::from_str(alloc, "out of memory"),
    }
}

fn layout_words<A: Allocator + Copy, B: Allocator>(
    alloc: A,
    error: &LayoutError<B>,
) -> Result<String<A>, AllocError>
    ensures { IfOk result (λ text. string_bytes text ≡ layout_words error.now) }
{
    match error {
        LayoutError::Source(error) => tree_words(alloc, error),
        LayoutError::LinkInput(path) => about_path(alloc, "input", path, "is a symbolic link"),
        LayoutError::Memory => String::from_str(alloc, "out of memory"),
    }
}

fn child_words<A: Allocator + Copy, B: Allocator>(
    alloc: A,
    error: &RunError<B>,
) -> Result<String<A>, AllocError>
    ensures { IfOk result (λ text. string_bytes text ≡ child_words error.now) }
{
    match error {
        RunError::NotAbsolute => String::from_str(alloc, "the program has no absolute path"),
        RunError::Device { .. } => String::from_str(alloc, "the process failed"),
        RunError::BadOutput(path) => about_path(alloc, "path", path, "is no output"),
        RunError::Memory => String::from_str(alloc, "out of memory"),
    }
}

fn refusal_words<A: Allocator + Copy, B: Allocator>(
    alloc: A,
    refusal: &StepRefusal<B>,
) -> Result<String<A>, AllocError>
    ensures { IfOk result (λ text. string_bytes text ≡ refusal_words refusal.now) }
{
    match refusal {
        StepRefusal::Engine(error) => runs_words(alloc, error),
        StepRefusal::Layout(error) => layout_words(alloc, error),
        StepRefusal::Run(error) => child_words(alloc, error),
        StepRefusal::Fetch => String::from_str(alloc, "the store failed"),
        StepRefusal::Memory => String::from_str(alloc, "out of memory"),
    }
}

fn error_words<A: Allocator + Copy, B: Allocator>(
    alloc: A,
    error: &BuildPlanError<B>,
) -> Result<String<A>, AllocError>
    ensures { IfOk result (λ text. string_bytes text ≡ error_words error.now) }
{
    match error {
        BuildPlanError::Opening(error) => opening_words(alloc, error),
        BuildPlanError::Step(error) => refusal_words(alloc, &error.refusal),
        BuildPlanError::Root(error) => runs_words(alloc, error),
    }
}

/// Why a build was refused: the place, and what was refused there.
pub(crate) fn why_text<A: Allocator + Copy, B: Allocator + Copy, C: Allocator>(
    alloc: A,
    plan: &Plan<B>,
    place: Place,
    error: &BuildPlanError<C>,
) -> Result<String<A>, AllocError>
    ensures { IfOk result
        (λ text. string_bytes text ≡ why_text plan.now.steps place error.now) }
{
    let place = place_text(alloc, plan, place)?;
    let words = error_words(alloc, error)?;
    format!(in alloc; "{place}: {words}")
}
