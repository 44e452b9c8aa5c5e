//! The commands `verify`, `compare`, `put`, `get` and `serve` as functions of their options, and
//! what every command stands on: its errors and statuses, files, digests in options, a client of a
//! server.
#![tactic(auto)]

mod again;
mod archived;
mod artifact;
mod blobs_and_results;
mod byte_counts;
mod children;
mod client;
mod comparing;
mod connecting;
mod digesting;
mod ended;
mod error;
mod error_text;
mod evidence;
mod evidence_options;
mod failure;
mod files;
mod folder_store;
mod getting;
mod hashing;
mod hint;
mod judgement;
mod kept_evidence;
mod kept_file;
mod laws;
mod memory_world;
mod mismatch_text;
mod noting;
mod options;
mod printing;
mod process_fault;
mod progress;
mod putting;
mod recalling;
mod replacing;
mod serving;
mod stages;
mod staging;
mod telling;
mod terminal_line;
mod trees;
mod verify_words;
mod verifying;
mod walking;
mod world;

pub use client::{AsksResults, Client, GetsAlone, Opened, Permit, PutsToo, open};
pub use comparing::run_compare;
pub use connecting::{Connection, ServerOptions, read_server};
pub use digesting::run_digest;
pub use ended::{Ended, Note};
pub use error::CommandError;
pub use evidence::run_verify;
pub use failure::{Failure, Method};
pub use getting::run_get;
pub use hint::Hint;
pub use laws::{
    a_fault_has_one_hint, a_no_says_where, a_yes_is_of_the_folder, answered_stages_end_in_the_claim,
};
pub use memory_world::{MemoryWorld, verify_in_memory};
pub use options::{Options, invalid_value, number_in, read_digest};
pub use printing::print_all;
pub use process_fault::{ProcessCause, ProcessFault};
pub use putting::run_put;
pub use serving::run_serve;
pub use stages::StagesFault;
pub use telling::{tell, tell_note};
pub use terminal_line::TerminalLine;
pub use verifying::plan_in_file;
pub use world::{Archives, Found, Hosting, Inputs, Listening, Outputs, Service, System, World};
