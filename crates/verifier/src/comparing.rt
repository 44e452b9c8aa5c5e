ghost use Rattle.std.specs.Prelude.{◌≡◌, ◌↔◌, IfOk, IsTrue, length};
ghost use Rattle.verifier.specs.Compared.{HaveSucceeded, IsComparison};

use crate::forms::first_difference;
use crate::recorded_step::RecordedStep;
use blob_digest::Digest;
use messages::Path;
use std::alloc::{AllocError, Allocator};

/// How two builds of a plan compare, by what was recorded of their steps.
#[derive(Drop)]
#[derive_where(Debug)]
pub enum Comparison<A: Allocator> {
    /// Of each step one action was recorded in both, and outcomes of one form.
    Alike,
    /// The first step that isn't so has one action in both. Its outcomes differ first at the path.
    Unlike { step: usize, path: Path<A> },
    /// The first step that isn't so has two actions.
    OtherAction { step: usize },
}

/// Whether two actions have one digest.
fn same_action(one: &Digest, other: &Digest) -> bool
    ensures { IsTrue result ↔ (one.now ≡ other.now) }
{
    *one == *other
}

/// How the steps of two builds of a plan compare. All of them ended with exit code 0. Where both
/// builds have a yes, an answer other than `Alike` is the step that
/// `two_yeses_differ_at_an_action` names (`comparisons_find_the_step`).
pub fn compare<A: Allocator + Copy>(
    alloc: A,
    ones: &[RecordedStep<A>],
    others: &[RecordedStep<A>],
) -> Result<Comparison<A>, AllocError>
    requires each { length others.now ≡ length ones.now }
    requires one { HaveSucceeded ones.now }
    requires other { HaveSucceeded others.now }
    ensures { IfOk result (IsComparison ones.now others.now) }
{
    for (index, one) in ones.iter().enumerate() {
        let step = index;
        let other = &others[step];
        if !same_action(&one.action, &other.action) {
            return Ok(Comparison::OtherAction { step });
        }
        if let Some(path) = first_difference(alloc, &one.outcome, &other.outcome)? {
            return Ok(Comparison::Unlike { step, path });
        }
    }
    Ok(Comparison::Alike)
}
