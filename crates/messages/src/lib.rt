//! Names, paths, digests, directories and trees as messages of the Remote Execution API: each is
//! read from its one canonical encoding and written as it, and a value that keeps its rules has
//! exactly one. Reading names the first rule that is broken. A digest within a message that is read
//! tolerantly is read so too.
#![tactic(auto)]

mod digest;
mod directory;
mod error;
mod laws;
mod message;
mod name;
mod node;
mod order;
mod path;
mod shapes;
mod target;
mod tolerant;
mod tree;

pub use digest::{decode_digest, encode_digest};
pub use directory::Directory;
pub use error::MessageError;
pub use laws::clones_are_equal;
pub use message::{
    Encode, Message, decode, encodes_one_value, read_each, read_fields, read_optional, write_each,
};
pub use name::Name;
pub use node::{DirectoryNode, FileNode, Node, SymlinkNode};
pub use order::{Named, check_order};
pub use path::{Path, is_path};
pub use target::Target;
pub use tolerant::{Tolerant, read_any_each, read_any_fields, read_any_optional};
pub use tree::Tree;
