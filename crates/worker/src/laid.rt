ghost use Rattle.std.specs.Prelude.{◌≡◌};
ghost use Rattle.worker.specs.declared.laid.LayoutError.TheVariants as laying;
ghost use Rattle.worker.specs.Refusals.{of_tree};

use messages::Path;
use std::alloc::{AllocError, AllocFailed, Allocator};
use std::marker::Model;
use thiserror::Error;
use tree::TreeError;

/// Folders and files with their contents. `layout` gives each list in the order of the texts of the
/// paths: so a folder stands before what is in it.
#[derive(Drop)]
pub struct Layout<A: Allocator> {
    pub folders: Vec<Path<A>, A>,
    pub files: Vec<(Path<A>, Vec<u8, A>), A>,
}

impl<A: Allocator> Model for Layout<A> {
    ghost use Rattle.worker.specs.Values.{LayoutValue, contents_of};

    ghost Value = { LayoutValue };

    ghost view = { λ a. record { folders = a.folders.items; files = contents_of a.files.items } };
}

/// Why nothing is laid out.
#[derive(Drop, Error)]
#[derive_where(Debug)]
pub enum LayoutError<A: Allocator> {
    /// The tree or a file's content isn't told, or the source failed.
    #[error("the tree or the content of a file isn't told")]
    Source(TreeError<A>),
    /// A symbolic link stands at the path.
    #[error("a symbolic link is among the inputs")]
    LinkInput(Path<A>),
    /// No memory was left.
    #[error("out of memory")]
    Memory,
}

impl<A: Allocator> From<TreeError<A>> for LayoutError<A> {
    ghost from_gives = { λ error e. e ≡ of_tree error };

    fn from(error: TreeError<A>) -> LayoutError<A> {
        match error {
            TreeError::Memory => LayoutError::Memory,
            error => LayoutError::Source(error),
        }
    }
}

impl<A: Allocator> From<AllocError> for LayoutError<A> {
    ghost from_gives = { λ _ e. e ≡ laying.Memory };

    fn from(_e: AllocError) -> LayoutError<A> {
        LayoutError::Memory
    }
}

impl<A: Allocator, T: Drop> From<AllocFailed<T>> for LayoutError<A> {
    ghost from_gives = { λ _ e. e ≡ laying.Memory };

    fn from(_e: AllocFailed<T>) -> LayoutError<A> {
        LayoutError::Memory
    }
}
