ghost use Rattle.std.specs.Prelude.{◌≡◌, IfOk, option_map, slice_get, drop};
ghost use Rattle.action_messages.specs.Outputs.{AreOutputs, file, directory, link, recorded_path};
ghost use Rattle.action_messages.specs.Outputs.{recorded_value, recorded_values};
ghost use Rattle.action_messages.specs.Merging.{earlier, first_of};

use crate::action_result::ActionResult;
use crate::output::{OutputDirectory, OutputFile, OutputSymlink};
use messages::Path;
use std::alloc::{AllocError, Allocator};
use std::cmp::Ordering;

/// An output as a result has it.
#[derive_where(Clone, Copy)]
pub enum RecordedOutput<'a, A: Allocator> {
    /// A file.
    File(&'a OutputFile<A>),
    /// A directory, by the digest of its Tree.
    Directory(&'a OutputDirectory<A>),
    /// A symbolic link.
    Link(&'a OutputSymlink<A>),
}

impl<'a, A: Allocator> RecordedOutput<'a, A> {
    /// Where it stands.
    pub fn path(&self) -> &'a Path<A>
        ensures { result.now ≡ recorded_path (recorded_value self.now) }
    {
        match self {
            RecordedOutput::File(file) => &file.path,
            RecordedOutput::Directory(directory) => &directory.path,
            RecordedOutput::Link(link) => &link.path,
        }
    }
}

/// The one whose path's text comes first.
fn earlier<'a, A: Allocator>(
    one: Option<RecordedOutput<'a, A>>,
    other: Option<RecordedOutput<'a, A>>,
) -> Option<RecordedOutput<'a, A>>
    ensures { option_map recorded_value result
        ≡ earlier (option_map recorded_value one.entry) (option_map recorded_value other.entry) }
{
    match (one, other) {
        (Some(one), Some(other)) => {
            if one.path().compare_text(other.path()) == Ordering::Greater {
                Some(other)
            } else {
                Some(one)
            }
        }
        (None, other) => other,
        (one, None) => one,
    }
}

fn first_file<'a, A: Allocator>(files: &'a [OutputFile<A>]) -> Option<RecordedOutput<'a, A>>
    ensures { option_map recorded_value result ≡ option_map file (slice_get files.now 0) }
{
    files.first().map(|file| RecordedOutput::File(file))
}

fn first_directory<'a, A: Allocator>(
    directories: &'a [OutputDirectory<A>],
) -> Option<RecordedOutput<'a, A>>
    ensures { option_map recorded_value result
        ≡ option_map directory (slice_get directories.now 0) }
{
    directories
        .first()
        .map(|directory| RecordedOutput::Directory(directory))
}

fn first_link<'a, A: Allocator>(symlinks: &'a [OutputSymlink<A>]) -> Option<RecordedOutput<'a, A>>
    ensures { option_map recorded_value result ≡ option_map link (slice_get symlinks.now 0) }
{
    symlinks.first().map(|link| RecordedOutput::Link(link))
}

/// The first output of three lists, by the texts of the paths.
fn first_of<'a, A: Allocator>(
    files: &'a [OutputFile<A>],
    directories: &'a [OutputDirectory<A>],
    symlinks: &'a [OutputSymlink<A>],
) -> Option<RecordedOutput<'a, A>>
    ensures { option_map recorded_value result ≡ first_of files.now directories.now symlinks.now }
{
    let file = first_file(files);
    let directory = first_directory(directories);
    let link = first_link(symlinks);
    earlier(earlier(file, directory), link)
}

/// All but the first, if there is one.
fn behind_first<T>(items: &[T]) -> &[T]
    ensures { result.now ≡ drop 1 items.now }
{
    match items {
        [_, rest @ ..] => rest,
        [] => items,
    }
}

impl<A: Allocator + Copy> ActionResult<A> {
    /// The result's outputs of all kinds, by the texts of their paths, in one walk over the three
    /// lists.
    pub fn outputs(&self, alloc: A) -> Result<Vec<RecordedOutput<'_, A>, A>, AllocError>
        ensures { IfOk result (λ v. AreOutputs self.now (recorded_values v.items)) }
    {
        let mut files = self.files();
        let mut directories = self.directories();
        let mut symlinks = self.symlinks();
        let mut outputs = Vec::new(alloc);
        while let Some(output) = first_of(files, directories, symlinks) {
            outputs.push(output)?;
            match output {
                RecordedOutput::File(_) => files = behind_first(files),
                RecordedOutput::Directory(_) => directories = behind_first(directories),
                RecordedOutput::Link(_) => symlinks = behind_first(symlinks),
            }
        }
        Ok(outputs)
    }
}
