//! Outcomes: what an action made, the one that a result stands for by what a source tells, and
//! look-ups in them.
#![tactic(auto)]

mod laws;
mod looking_up;
mod outcome;
mod recording;

pub use action_messages::{
    Action, ActionResult, Command, EnvironmentVariable, Frame, OutputDirectory, OutputFile,
    OutputSymlink, Platform, Property, RecordedOutput, Setting, Stream, cloned_outputs_are_equal,
    results_are_read_as_one_value,
};
pub use laws::outcomes_are_single_valued;
pub use outcome::{Outcome, Output};
pub use recording::recorded;
