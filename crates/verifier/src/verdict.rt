use blob_digest::Digest;
use messages::Path;
use plan::StepName;
use std::alloc::Allocator;

/// What the verifier answers.
#[derive(Drop)]
#[derive_where(Debug)]
pub enum Verdict<A: Allocator> {
    /// Every build of the plan ends in this root, the claimed one, after this many steps; under the
    /// premises of `EveryRunEndsIn`.
    Yes { root: Digest, steps: u64 },
    /// The first fault, and where it stands.
    No(Place<A>, Cause<A>),
}

/// Where a fault stands.
#[derive(Drop)]
#[derive_where(Debug)]
pub enum Place<A: Allocator> {
    /// In what was recorded of the step.
    Step(StepName<A>),
    /// In the lines of the root.
    Root,
}

/// What a fault is.
#[derive(Drop)]
#[derive_where(Debug)]
pub enum Cause<A: Allocator> {
    /// The source has no blob with the digest.
    BlobMissing(Digest),
    /// What the source has under the digest has another hash or length.
    BlobWrong(Digest),
    /// The blob with the digest is no message of the kind that is wanted.
    BlobMalformed(Digest),
    /// The recorded action isn't to be cached.
    DoNotCache,
    /// Nothing stands at a line's origin.
    OriginMissing(Path<A>),
    /// The recorded action without its input isn't the plan's.
    FrameDiffers,
    /// What the lines put at the path doesn't merge.
    InputConflict(Path<A>),
    /// The recorded input has the path, and the lines don't put anything there.
    InputUnexplained(Path<A>),
    /// The lines put something at the path, and the recorded input doesn't have it.
    InputAbsent(Path<A>),
    /// The recorded input has something else at the path than the lines put there.
    InputDiffers(Path<A>),
    /// The source has no result of the recorded action.
    ResultMissing,
    /// What the source has as the result is no result.
    ResultMalformed,
    /// The recorded process ended with this exit code.
    ExitCode(i32),
    /// The recorded output isn't one of the command's.
    OutputUnlisted(Path<A>),
    /// A build of what was recorded ends in this root, and not in the claimed one.
    RootDiffers(Digest),
}
