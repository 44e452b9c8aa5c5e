//! Children as processes: a job's layout made in a folder of its own, a process started there, and
//! what it made collected.
#![tactic(auto)]

mod collecting;
mod disk;
mod launching;
mod laying;
mod running;
mod tally;
mod trouble;
mod walking;
mod workshop;

pub use disk::{ChildErrors, Disk};
pub use running::{ProcessJob, ProcessRunner};
pub use workshop::{Exit, Standing, Workshop};
