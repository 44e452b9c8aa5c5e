//! Blobs and results of a server, over an open stream of both directions: a source and a sink that
//! keeps every answer, so that nothing is asked twice, and that never goes on after a refusal. And
//! those of a folder of files, a source that keeps every answer likewise.
#![tactic(auto)]

mod asking;
mod block;
mod fail_stream;
mod fault;
mod files;
mod folder;
mod laws;
mod line;
mod remote;
mod reply;
mod stream;
mod table;

pub use fault::Fault;
pub use files::{FileError, FileOpener, FileReader, SystemFiles, read_file};
pub use folder::FolderSource;
pub use laws::the_next_reply_is_one;
pub use remote::Remote;
pub use stream::Stream;
