ghost use Rattle.std.specs.Prelude.{◌≡◌, IfOk, length, string_bytes};
ghost use Rattle.builder.specs.Lines.{built_text, failed_text, place_text};

use crate::fault::Place;
use blob_digest::Digest;
use plan::Plan;
use std::alloc::{AllocError, Allocator};

/// The line of a build that came to its root: `built`, the root and the number of steps.
pub(crate) fn built_line<A: Allocator + Copy, B: Allocator + Copy>(
    alloc: A,
    root: &Digest,
    plan: &Plan<B>,
) -> Result<String<A>, AllocError>
    ensures { IfOk result
        (λ line. string_bytes line ≡ built_text root.now (length plan.now.steps)) }
{
    // A read for the prover: a digest's hash has 32 bytes.
    let _ = root.hash();
    let root = root.write_text(alloc)?;
    let steps = plan.steps().len();
    format!(in alloc; "built {root} steps {steps}\n")
}

/// Where a build was refused: `step` and the step's name, or `root`.
pub fn place_text<A: Allocator + Copy, B: Allocator + Copy>(
    alloc: A,
    plan: &Plan<B>,
    place: Place,
) -> Result<String<A>, AllocError>
    ensures { IfOk result (λ text. string_bytes text ≡ place_text plan.now.steps place) }
{
    match place {
        Place::Step(number) => {
            let name = match plan.steps().get(number) {
                Some(step) => step.name.as_str(),
                None => "",
            };
            format!(in alloc; "step {name}")
        }
        Place::Root => String::from_str(alloc, "root"),
    }
}

/// The line of a build that was refused: `failed`, the place and the refusal's number.
pub(crate) fn failed_line<A: Allocator + Copy, B: Allocator + Copy>(
    alloc: A,
    plan: &Plan<B>,
    place: Place,
    number: u8,
) -> Result<String<A>, AllocError>
    ensures { IfOk result
        (λ line. string_bytes line ≡ failed_text plan.now.steps place number) }
{
    let place = place_text(alloc, plan, place)?;
    format!(in alloc; "failed {place} {number}\n")
}
