ghost use Rattle.std.specs.Prelude.{◌≡◌};
ghost use Rattle.plan.specs.declared.error.ReadError.TheVariants as errors;

use std::alloc::{AllocError, AllocFailed};
use thiserror::Error;

/// What is wrong with a line of a plan or a record.
#[derive(Clone, Copy, Debug, PartialEq, Eq, Error)]
pub enum Fault {
    /// Line 1 isn't a header.
    #[error("a plan begins with the line `buildplan 1` or `buildplan 2`, and a record with `buildrecord 1`")]
    BadHeader,
    /// The line isn't one that may stand here.
    #[error("not a line that may stand here")]
    BadLine,
    /// An earlier step has the name.
    #[error("an earlier step has this name")]
    SameStep,
    /// No earlier step has the name that the line reads.
    #[error("no earlier step has this name")]
    LaterStep,
    /// In version 1: the target is that of an earlier line, or lies under or above it.
    #[error("the target is an earlier line's target, or lies under or above it")]
    Overlap,
    /// 4,096 steps, or 65,536 lines of the directory, stand before the line.
    #[error("more than 4096 steps or 65536 lines")]
    TooMany,
    /// The record's steps aren't those of the plan.
    #[error("the record names other steps than the plan")]
    RecordDiffers,
}

/// The first line at fault, counted from 1.
#[derive(Clone, Copy, Debug, PartialEq, Eq, Error)]
#[error("line {line}: {fault}")]
pub struct PlanError {
    pub line: u64,
    pub fault: Fault,
}

/// Why a plan or a record could not be read.
#[derive(Clone, Copy, Debug, PartialEq, Eq, Error)]
pub enum ReadError {
    /// A line is at fault.
    #[error("{0}")]
    Faulty(PlanError),
    /// No memory was left.
    #[error("out of memory")]
    Memory,
}

impl ReadError {
    pub(crate) fn at(line: u64, fault: Fault) -> ReadError
        ensures { result ≡ errors.Faulty (record { line = line; fault = fault }) }
    {
        ReadError::Faulty(PlanError { line, fault })
    }
}

impl From<AllocError> for ReadError {
    ghost from_gives = { λ _ e. e ≡ errors.Memory };

    fn from(_e: AllocError) -> ReadError {
        ReadError::Memory
    }
}

impl<T: Drop> From<AllocFailed<T>> for ReadError {
    ghost from_gives = { λ _ e. e ≡ errors.Memory };

    fn from(_e: AllocFailed<T>) -> ReadError {
        ReadError::Memory
    }
}
