//! Plans of a build and their records, as texts: each is read from exactly one text.
#![tactic(auto)]

mod error;
mod escaped;
mod laws;
mod line;
mod plan;
mod record;
mod step;
mod steps;
mod targets;
mod version;
mod words;

pub use error::{Fault, PlanError, ReadError};
pub use escaped::{read_path, write_path};
pub use laws::{
    faults_are_single_valued, record_faults_are_single_valued, spells_one_plan, spells_one_record,
};
pub use line::{Line, Origin};
pub use plan::Plan;
pub use record::Record;
pub use step::{Step, StepName, is_step_name};
pub use version::Version;
