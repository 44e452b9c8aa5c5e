//! A source of blobs and results that keeps what it was asked for and told, also that nothing is
//! there.
#![tactic(auto)]

mod answers;
mod keeping;
mod kept;
mod laws;
mod told;

pub use keeping::Keeping;
pub use kept::Kept;
pub use laws::what_was_told_is_read_back;
