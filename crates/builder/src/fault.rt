ghost use Rattle.std.specs.Prelude.{◌≡◌};
ghost use Rattle.builder.specs.Faults.{fault_of, of_layout, of_opening, of_refusal, of_run};
ghost use Rattle.builder.specs.Faults.{of_runs, of_source, of_told};

use crate::error::BuildPlanError;
use runs::{OpenError, RunsError};
use std::alloc::Allocator;
use thiserror::Error;
use tree::TreeError;
use worker::{LayoutError, RunError, StepRefusal};

/// Where a build was refused.
#[derive(Clone, Copy, Debug, PartialEq, Eq)]
pub enum Place {
    /// At the step with this number.
    Step(usize),
    Root,
}

/// Why a build has no root: the number of a refusal, or what has none.
#[derive(Clone, Copy, Debug, PartialEq, Eq, Error)]
pub enum Fault {
    /// The refusal with this number (docs/FORMATS.md).
    #[error("refusal {1}")]
    Refused(Place, u8),
    /// The store failed.
    #[error("the store failed")]
    Fetch(Place),
    /// A process couldn't be run, or was ended by a signal.
    #[error("the process couldn't be run, or was ended by a signal")]
    Device(Place),
    /// No memory was left.
    #[error("out of memory")]
    Memory,
}

/// The fault of a Directory, a frame or a command that can't be read.
fn of_source<A: Allocator>(place: Place, error: &TreeError<A>) -> Fault
    ensures { result ≡ of_source place error.now }
{
    match error {
        TreeError::Fetch => Fault::Fetch(place),
        TreeError::Memory => Fault::Memory,
        _ => Fault::Refused(place, 107),
    }
}

/// The fault of an engine that isn't made.
fn of_opening<A: Allocator>(error: &OpenError<A>) -> Fault
    ensures { result ≡ of_opening error.now }
{
    match error {
        OpenError::Source(step, error) => of_source(Place::Step(*step), error),
        OpenError::DoNotCache(step) => Fault::Refused(Place::Step(*step), 108),
        OpenError::Memory => Fault::Memory,
    }
}

/// The fault of a call of the engine.
fn of_runs<A: Allocator>(place: Place, error: &RunsError<A>) -> Fault
    ensures { result ≡ of_runs place error.now }
{
    match error {
        RunsError::NotReady => Fault::Refused(place, 101),
        RunsError::NoSuchJob => Fault::Refused(place, 102),
        RunsError::ExitCode(_) => Fault::Refused(place, 103),
        RunsError::Disagrees => Fault::Refused(place, 104),
        RunsError::Unlisted(_) => Fault::Refused(place, 105),
        RunsError::Origin(_) => Fault::Refused(place, 106),
        RunsError::Source(error) => of_source(place, error),
        RunsError::Full => Fault::Refused(place, 109),
        RunsError::Conflict(_) => Fault::Refused(place, 110),
        RunsError::Memory => Fault::Memory,
    }
}

/// The fault of a tree, or of a file in it, that isn't told.
fn of_told<A: Allocator>(place: Place, error: &TreeError<A>) -> Fault
    ensures { result ≡ of_told place error.now }
{
    match error {
        TreeError::Absent(_) => Fault::Refused(place, 41),
        TreeError::BlobMissing(_) => Fault::Refused(place, 42),
        TreeError::BlobWrong(_) => Fault::Refused(place, 43),
        TreeError::BlobMalformed(_) => Fault::Refused(place, 44),
        TreeError::TooDeep(_) => Fault::Refused(place, 46),
        TreeError::Conflict(_) => Fault::Refused(place, 47),
        TreeError::Fetch => Fault::Fetch(place),
        TreeError::Memory => Fault::Memory,
    }
}

/// The fault of an input that can't be laid out.
fn of_layout<A: Allocator>(place: Place, error: &LayoutError<A>) -> Fault
    ensures { result ≡ of_layout place error.now }
{
    match error {
        LayoutError::Source(error) => of_told(place, error),
        LayoutError::LinkInput(_) => Fault::Refused(place, 111),
        LayoutError::Memory => Fault::Memory,
    }
}

/// The fault of a child.
fn of_run<A: Allocator>(place: Place, error: &RunError<A>) -> Fault
    ensures { result ≡ of_run place error.now }
{
    match error {
        RunError::NotAbsolute => Fault::Refused(place, 112),
        RunError::Device { .. } => Fault::Device(place),
        RunError::BadOutput(_) => Fault::Refused(place, 114),
        RunError::Memory => Fault::Memory,
    }
}

/// The fault of a step.
fn of_refusal<A: Allocator>(place: Place, refusal: &StepRefusal<A>) -> Fault
    ensures { result ≡ of_refusal place refusal.now }
{
    match refusal {
        StepRefusal::Engine(error) => of_runs(place, error),
        StepRefusal::Layout(error) => of_layout(place, error),
        StepRefusal::Run(error) => of_run(place, error),
        StepRefusal::Fetch => Fault::Fetch(place),
        StepRefusal::Memory => Fault::Memory,
    }
}

/// The fault of a build.
pub fn fault_of<A: Allocator>(error: &BuildPlanError<A>) -> Fault
    ensures { result ≡ fault_of error.now }
{
    match error {
        BuildPlanError::Opening(error) => of_opening(error),
        BuildPlanError::Step(error) => of_refusal(Place::Step(error.step), &error.refusal),
        BuildPlanError::Root(error) => of_runs(Place::Root, error),
    }
}
