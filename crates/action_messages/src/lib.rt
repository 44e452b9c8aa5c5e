//! Build steps and their results as messages of the Remote Execution API: commands, platforms,
//! actions, frames (actions without their inputs) and action results. Each is written as its one
//! canonical encoding and read from it; a result is read by protobuf's own tolerant rules. Reading
//! names the first rule that is broken.
#![tactic(auto)]

mod action;
mod action_result;
mod command;
mod copying;
mod fields;
mod frame;
mod laws;
mod listed;
mod output;
mod platform;
mod recorded_output;
mod setting;
mod shapes;
mod stream;
mod tolerant;

pub use action::Action;
pub use action_result::ActionResult;
pub use command::Command;
pub use frame::Frame;
pub use laws::{cloned_outputs_are_equal, results_are_read_as_one_value};
pub use listed::{Listed, lies_under_some, place_of};
pub use output::{OutputDirectory, OutputFile, OutputSymlink};
pub use platform::Platform;
pub use recorded_output::RecordedOutput;
pub use setting::{EnvironmentVariable, Property, Setting};
pub use stream::Stream;
