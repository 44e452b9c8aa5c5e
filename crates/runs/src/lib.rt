//! The core of a build: which steps may start, with which actions, and what they came to. Each call
//! is one event of a run.
#![tactic(auto)]

mod engine;
mod error;
mod finishing;
mod laws;
mod looking;
mod opening;
mod results;
mod starting;

pub use engine::Engine;
pub use error::{OpenError, RunsError};
pub use laws::{a_build_is_served, ready_steps_may_start, steps_have_one_action};
pub use starting::Job;
