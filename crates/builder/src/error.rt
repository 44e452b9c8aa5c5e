ghost use Rattle.std.specs.Prelude.{◌≡◌};
ghost use Rattle.builder.specs.declared.error.BuildPlanError.TheVariants as errors;
ghost use Rattle.runs.specs.declared.error.RunsError.TheVariants as runs;

use runs::{OpenError, RunsError};
use std::alloc::{AllocError, Allocator};
use thiserror::Error;
use worker::BuildError;

/// Why a build has no root, as it was told.
#[derive(Drop, Error)]
#[derive_where(Debug)]
pub enum BuildPlanError<A: Allocator> {
    /// No engine is made of the plan.
    #[error("no engine is made of the plan")]
    Opening(OpenError<A>),
    /// A step was refused.
    #[error("a step was refused")]
    Step(BuildError<A>),
    /// The root was refused, or there was no memory for the record or for what is told.
    #[error("the root was refused")]
    Root(RunsError<A>),
}

impl<A: Allocator> From<AllocError> for BuildPlanError<A> {
    ghost from_gives = { λ _ e. e ≡ errors.Root runs.Memory };

    fn from(_e: AllocError) -> BuildPlanError<A> {
        BuildPlanError::Root(RunsError::Memory)
    }
}

impl<A: Allocator> From<OpenError<A>> for BuildPlanError<A> {
    ghost from_gives = { λ error e. e ≡ errors.Opening error };

    fn from(error: OpenError<A>) -> BuildPlanError<A> {
        BuildPlanError::Opening(error)
    }
}

impl<A: Allocator> From<BuildError<A>> for BuildPlanError<A> {
    ghost from_gives = { λ error e. e ≡ errors.Step error };

    fn from(error: BuildError<A>) -> BuildPlanError<A> {
        BuildPlanError::Step(error)
    }
}

impl<A: Allocator> From<RunsError<A>> for BuildPlanError<A> {
    ghost from_gives = { λ error e. e ≡ errors.Root error };

    fn from(error: RunsError<A>) -> BuildPlanError<A> {
        BuildPlanError::Root(error)
    }
}
