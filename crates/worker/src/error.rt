ghost use Rattle.std.specs.Prelude.{◌≡◌};
ghost use Rattle.blob_source.specs.declared.source.FetchError.TheVariants as fetching;
ghost use Rattle.worker.specs.declared.error.StepRefusal.TheVariants as refusals;
ghost use Rattle.worker.specs.Refusals.{of_fetch};

use crate::laid::LayoutError;
use crate::runner::RunError;
use runs::RunsError;
use std::alloc::{AllocError, AllocFailed, Allocator};
use thiserror::Error;
use tree::FetchError;

/// Why a step of a build is refused.
#[derive(Drop, Error)]
#[derive_where(Debug)]
pub enum StepRefusal<A: Allocator> {
    /// The engine refuses to start the step, or to finish its job.
    #[error("the step can't be started, or its job not finished")]
    Engine(RunsError<A>),
    /// The input of the step can't be laid out.
    #[error("the input can't be laid out")]
    Layout(LayoutError<A>),
    /// The child wasn't started, or came to nothing.
    #[error("the process wasn't started, or came to nothing")]
    Run(RunError<A>),
    /// The store failed, and counted that.
    #[error("the store failed")]
    Fetch,
    /// No memory was left.
    #[error("out of memory")]
    Memory,
}

/// Why a build ends, and at which step.
#[derive(Drop, Error)]
#[derive_where(Debug)]
#[error("a step was refused")]
pub struct BuildError<A: Allocator> {
    pub step: usize,
    pub refusal: StepRefusal<A>,
}

impl<A: Allocator> From<AllocError> for StepRefusal<A> {
    ghost from_gives = { λ _ e. e ≡ refusals.Memory };

    fn from(_e: AllocError) -> StepRefusal<A> {
        StepRefusal::Memory
    }
}

impl<A: Allocator, T: Drop> From<AllocFailed<T>> for StepRefusal<A> {
    ghost from_gives = { λ _ e. e ≡ refusals.Memory };

    fn from(_e: AllocFailed<T>) -> StepRefusal<A> {
        StepRefusal::Memory
    }
}

impl<A: Allocator> From<FetchError> for StepRefusal<A> {
    ghost from_gives = { λ error e. e ≡ of_fetch error };

    fn from(error: FetchError) -> StepRefusal<A> {
        match error {
            FetchError::Failed => StepRefusal::Fetch,
            FetchError::Memory => StepRefusal::Memory,
        }
    }
}

impl<A: Allocator> From<RunsError<A>> for StepRefusal<A> {
    ghost from_gives = { λ error e. e ≡ refusals.Engine error };

    fn from(error: RunsError<A>) -> StepRefusal<A> {
        StepRefusal::Engine(error)
    }
}

impl<A: Allocator> From<LayoutError<A>> for StepRefusal<A> {
    ghost from_gives = { λ error e. e ≡ refusals.Layout error };

    fn from(error: LayoutError<A>) -> StepRefusal<A> {
        StepRefusal::Layout(error)
    }
}

impl<A: Allocator> From<RunError<A>> for StepRefusal<A> {
    ghost from_gives = { λ error e. e ≡ refusals.Run error };

    fn from(error: RunError<A>) -> StepRefusal<A> {
        StepRefusal::Run(error)
    }
}
