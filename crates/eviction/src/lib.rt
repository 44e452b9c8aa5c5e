//! Bounded stores of bytes under keys. The least recently used entries that are not pinned are
//! evicted for new ones.
#![tactic(auto)]

mod bounded;
mod entry;
mod error;
mod evicting;
mod laws;
mod pinning;
mod shared;

pub use bounded::Bounded;
pub use error::BoundedError;
pub use laws::{
    an_entry_meets_the_premises, entering_gives_up_the_fewest, entering_keeps_what_is_pinned,
};
pub use shared::Shared;
