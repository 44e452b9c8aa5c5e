//! The build of a plan, from its opening to its root and its record, and the line that tells what
//! it came to.
#![tactic(auto)]

mod building;
mod error;
mod fault;
mod laws;
mod line;
mod telling;
mod why;

pub use building::{Built, build_plan};
pub use error::BuildPlanError;
pub use fault::{Fault, Place, fault_of};
pub use laws::{a_build_is_a_run, two_steps_meet_the_premises};
pub use line::place_text;
pub use telling::{Told, tell_build};
