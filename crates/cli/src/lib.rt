//! The program `buildcache` as a function of its words: what it prints, and its status.
//! Nothing here ends the process or prints behind its caller's back.
#![tactic(auto)]

mod build_progress;
mod building;
mod help;
mod running;
mod showing;
mod workplace;

pub use running::run_words;
pub use workplace::Workplace;
