//! What the programs of rows share: an allocator that refuses a request, and rows as text.
#![tactic(auto)]

mod allocator;
mod rows;
mod text;

pub use allocator::Refusing;
pub use rows::{Row, read_groups};
pub use text::{named, spelled, unescaped};
