//! The command line of the program `buildcache`: its commands and their options, and what words
//! mean to it. Nothing here reads a file or prints.
#![tactic(auto)]

mod laws;
mod options;
mod words;

pub use laws::words_are_understood;
pub use options::{is_set, option_of, text_of};
pub use words::parse;
