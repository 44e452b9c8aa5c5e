//! A cache over HTTP: what the requests of one connection, or of many, do to it, and what they are
//! answered, to the byte.
#![tactic(auto)]

mod answer;
mod answering;
mod cache;
mod counted;
mod counts;
mod error;
mod laws;
mod running;
mod server;
mod streams;
mod writing;

pub use answer::Answer;
pub use cache::Cache;
pub use counted::Counted;
pub use counts::Counts;
pub use error::ConnError;
pub use laws::{
    a_history_meets_the_premises, answers_begin_the_answers_to_the_whole,
    blobs_are_answered_under_their_hashes, histories_are_answered_in_one_way,
};
pub use running::run;
pub use server::Server;
pub use streams::{Incoming, Outgoing};
