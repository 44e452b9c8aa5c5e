//! Results of actions and their blobs, in bounded stores. A result is answered where all to which
//! it refers is held, through the Trees of its directories; what a pinned result refers to stays.
#![tactic(auto)]

mod cache;
mod error;
mod laws;
mod reference;
mod survey;
mod trees;

pub use cache::ActionCache;
pub use error::CacheError;
pub use laws::{
    a_pinned_result_meets_the_premises, caches_keep_what_is_pinned, results_refer_to_what_is_read,
    trees_have_the_files_that_are_read,
};
