//! Trees by digests: look-ups, merges, differences, folds and unfolding, over what a blob source
//! tells. Every blob that is fetched is hashed, and the empty blob is never asked for.
#![tactic(auto)]

mod comparing;
mod difference;
mod error;
mod fail_sink;
mod fetching;
mod flat_tree;
mod folding;
mod given;
mod laws;
mod looking_up;
mod memo;
mod merge_laws;
mod merging;
mod mismatch;
mod unfolding;
mod visiting;

pub use blob_source::{
    BlobSink, BlobSource, FetchError, Fetched, MemorySource, MessageFetchError, fetch_blob,
};
pub use comparing::first_difference;
pub use difference::Difference;
pub use error::{AddError, TreeError};
pub use fail_sink::FailSink;
pub use fetching::{fetch_content, fetch_message};
pub use flat_tree::{FlatEntry, FlatTree};
pub use folding::{Folded, fold};
pub use laws::{
    answers_are_always_there, differences_are_single_valued, differences_are_true,
    flat_trees_are_trees, folds_hold_each_directory_once, look_ups_are_single_valued,
    look_ups_tell_of_trees, mismatches_are_true, roots_name_trees, trees_are_maps,
};
pub use looking_up::lookup;
pub use memo::Memo;
pub use merge_laws::{
    merges_are_single_valued, merges_are_unions, merges_meet_the_premises, merges_tell_of_trees,
};
pub use merging::{Within, merge};
pub use messages::Node;
pub use mismatch::{Mismatch, first_mismatch};
pub use unfolding::unfold;
