//! Trees on disk: the tree of a digest is written into a folder that was empty.
#![tactic(auto)]

mod error;
mod system;
mod writer;
mod writing;

pub use error::CheckoutError;
pub use system::{SystemFolder, SystemWriter};
pub use writer::FolderWriter;
pub use writing::check_out;
