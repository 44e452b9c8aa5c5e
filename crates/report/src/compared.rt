use blob_digest::Digest;
use messages::Path;
use plan::StepName;
use std::alloc::Allocator;

/// What is said of two recorded builds, each with a yes.
#[derive(Drop)]
#[derive_where(Debug)]
pub enum Compared<A: Allocator> {
    /// The steps are alike, and so is this root after so many.
    Same {
        root: Digest,
        steps: u64,
    },
    /// The texts of the plans differ first in this line.
    Plans {
        line: u64,
    },
    /// The sources have these digests.
    Sources {
        one: Digest,
        other: Digest,
    },
    /// The step is the first that isn't alike: its action came to outcomes that differ first at the
    /// path.
    Step {
        name: StepName<A>,
        action: Digest,
        path: Path<A>,
    },
    /// The step is the first that isn't alike: it has these two actions.
    Actions {
        name: StepName<A>,
        one: Digest,
        other: Digest,
    },
    /// The steps are alike, and these are the roots.
    Roots {
        one: Digest,
        other: Digest,
    },
}
