ghost use Rattle.std.specs.Prelude.{◌≡◌, length, map};
ghost use Rattle.text_verifier.specs.Lacking.{lack_of, noted_at, noted_for};

use crate::case::Case;
use blob_digest::Digest;
use plan::Step;
use std::alloc::Allocator;
use verifier::{Cause, Place, Verdict};

/// What a verdict says that the source lacks.
#[derive(Clone, Copy, Debug)]
pub enum Lack {
    /// The blob with the digest.
    Blob(Digest),
    /// The result of the action with the digest.
    ActionResult(Digest),
}

/// The digest that was noted for the first step of a name.
fn noted_for<A: Allocator>(name: &[u8], steps: &[Step<A>], digests: &[Digest]) -> Option<Digest>
    requires { length digests.now ≡ length steps.now }
    ensures { result ≡ noted_for name.now (map (λ s. s.name) steps.now) digests.now }
{
    for (number, step) in steps.iter().enumerate() {
        if step.name.as_bytes() == name {
            return Some(digests[number]);
        }
    }
    None
}

/// The digest that was noted for the step of a place.
fn noted_at<A: Allocator + Copy>(case: &Case<A>, place: &Place<A>) -> Option<Digest>
    ensures { result ≡ noted_at case.now place.now }
{
    match place {
        Place::Step(name) => noted_for(name.as_bytes(), case.plan.steps(), case.noted.digests()),
        Place::Root => None,
    }
}

/// What the verdict on the case says that the source lacks.
pub(crate) fn lack_of<A: Allocator + Copy>(case: &Case<A>, verdict: &Verdict<A>) -> Option<Lack>
    ensures { result ≡ lack_of case.now verdict.now }
{
    let Verdict::No(place, cause) = verdict else {
        return None;
    };
    match cause {
        Cause::BlobMissing(digest) => Some(Lack::Blob(*digest)),
        Cause::ResultMissing => noted_at(case, place).map(Lack::ActionResult),
        _ => None,
    }
}
