//! The worker of a build: what is laid out for a step, what starts and finishes children, and the
//! build of a plan by an engine, a store and a runner.
#![tactic(auto)]

mod beginning;
mod building;
mod child;
mod counting;
mod ending;
mod error;
mod fail_runner;
mod failure;
mod laid;
mod laws;
mod laying_out;
mod putting;
mod recorded;
mod remembering;
mod runner;
mod turns;
mod watching;

pub use building::build;
pub use error::{BuildError, StepRefusal};
pub use fail_runner::{FailJob, FailRunner};
pub use failure::{FailureCause, program_of};
pub use laid::{Layout, LayoutError};
pub use laws::{a_build_takes_two_steps, actions_are_of_steps, steps_are_yielded_or_taken};
pub use laying_out::layout;
pub use putting::put_all;
pub use runner::{Produced, RunError, Runner};
pub use watching::{Progress, Unwatched, Watcher};
