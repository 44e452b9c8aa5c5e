ghost use Rattle.std.specs.Prelude.{◌≡◌, ◌≢◌, ◌⊎◌, ◌↔◌, ◌+◌, ◌≤◌, IfOk, IsErrOf, IsTrue, Some};
ghost use Rattle.std.specs.Prelude.{codes, string_bytes};
ghost use Rattle.blob_source.specs.Called.{Calls};
ghost use Rattle.blob_source.specs.Source.{AsksBlob, AsksResult, GrowsAt, bytes_of, greatest_count};
ghost use Rattle.remote.specs.Folder.{IsFreshFolder, IsNotThere, IsReadAs, LooksInFolder};
ghost use Rattle.remote.specs.Folder.{blobs_of, entry_path, error_of, files_of, place_of};
ghost use Rattle.remote.specs.Folder.{results_of, telling_of};
ghost use Rattle.remote.specs.Table.{KeepsNone, told_by};
ghost use Rattle.remote.specs.declared.files.FileError.TheVariants as errors;

use crate::asking::keep_answer;
use crate::files::{FileError, FileReader};
use crate::table::Table;
use blob_digest::Digest;
use blob_source::{BlobSource, FetchError};
use std::alloc::{AllocError, Allocator};
use std::io::ErrorKind;

/// A folder of files, and how often reading them failed.
#[derive(Drop)]
struct Folder<'r, F, A: Allocator> {
    files: &'r F,
    place: String<A>,
    failures: u64,
    error: Option<FileError<A>>,
}

/// A folder of blobs, in files `cas/HASH`, and of results, in files `ac/HASH`. What was read is
/// kept, also that a file isn't there, which is no blob; any other fault of a file is a failure.
/// What the files hold isn't believed: who asks hashes it.
#[derive(Drop)]
pub struct FolderSource<'r, F, A: Allocator> {
    folder: Folder<'r, F, A>,
    blobs: Table<A>,
    results: Table<A>,
    calls: u64,
}

impl<'r, F: FileReader<A>, A: Allocator + Copy> FolderSource<'r, F, A> {
    /// The store in this folder.
    pub fn new(alloc: A, files: &'r F, place: String<A>) -> FolderSource<'r, F, A>
        ensures fresh { IsFreshFolder (string_bytes place) result }
        ensures files { files_of result ≡ files.now }
    {
        FolderSource {
            blobs: Table::new(alloc),
            results: Table::new(alloc),
            folder: Folder {
                files,
                place,
                failures: 0,
                error: None,
            },
            calls: 0,
        }
    }

    /// Whether the file of the blob was looked for and wasn't there. There is no look now.
    pub fn lacks_blob(&self, digest: &Digest) -> bool
        ensures { IsTrue result ↔ KeepsNone (blobs_of self.now) digest.now }
    {
        self.blobs.has_none(digest)
    }

    /// Whether the file of the result was looked for and wasn't there. There is no look now.
    pub fn lacks_result(&self, digest: &Digest) -> bool
        ensures { IsTrue result ↔ KeepsNone (results_of self.now) digest.now }
    {
        self.results.has_none(digest)
    }

    /// The error of the last failure.
    pub fn into_error(self) -> Option<FileError<A>>
        ensures { result ≡ error_of self.entry }
    {
        self.folder.error
    }
}

impl<'r, F: FileReader<A>, A: Allocator + Copy> Folder<'r, F, A> {
    /// Counts a failure, unless the error is lack of memory or the count is full.
    fn fail(&mut self, error: FileError<A>) -> FetchError
        ensures kept { result ≡ FetchError.Failed → self.new.error ≡ Some error }
        ensures real { result ≡ FetchError.Failed → error ≢ errors.Memory }
        ensures full { (result ≡ FetchError.Failed → ⊥)
            → (error ≡ errors.Memory) ⊎ (self.old.failures ≡ greatest_count) }
        ensures counted { result ≡ FetchError.Failed → self.new.failures ≡ self.old.failures + 1 }
        ensures risen { self.old.failures ≤ self.new.failures }
        ensures bounded { self.new.failures ≤ greatest_count }
        ensures unfailed { (result ≡ FetchError.Failed → ⊥) → self.new ≡ self.old }
        ensures placed { self.new.place ≡ self.old.place }
        ensures same_files { self.new.files.now ≡ self.old.files.now }
    {
        let _count = self.failures;
        if matches!(error, FileError::Memory) || self.failures == u64::MAX {
            return FetchError::Memory;
        }
        self.error = Some(error);
        self.failures += 1;
        FetchError::Failed
    }

    /// Answers from the table, or else reads the file and keeps what it holds.
    fn look_up(
        &mut self,
        alloc: A,
        table: &mut Table<A>,
        part: &str,
        digest: &Digest,
    ) -> Result<Option<Vec<u8, A>>, FetchError>
        ensures told { IfOk result (λ answer. bytes_of answer ≡ told_by table.new digest.now) }
        ensures grows { GrowsAt digest.now (told_by table.old) (told_by table.new) }
        ensures looked { LooksInFolder (F.reads self.old.files.now) (F.fails self.old.files.now)
            (entry_path (string_bytes self.old.place) part.now digest.now) digest.now
            self.old.error self.new.error table.old table.new result }
        ensures counted { IsErrOf result FetchError.Failed
            → self.new.failures ≡ self.old.failures + 1 }
        ensures unfailed { (IsErrOf result FetchError.Failed → ⊥) → self.new ≡ self.old }
        ensures placed { self.new.place ≡ self.old.place }
        ensures same_files { self.new.files.now ≡ self.old.files.now }
        ensures risen { self.old.failures ≤ self.new.failures }
        ensures bounded { self.new.failures ≤ greatest_count }
    {
        let _count = self.failures;
        if table.has(digest) {
            return Ok(table.copied(alloc, digest)?);
        }
        let path = entry_path(alloc, self.place.as_str(), part, digest)?;
        match answer_of(self.files.read_at(alloc, path.as_str())) {
            Ok(answer) => {
                keep_answer(alloc, table, digest, &answer)?;
                Ok(answer)
            }
            Err(error) => Err(self.fail(error)),
        }
    }
}

/// Whether the file isn't there.
fn is_not_there<A: Allocator>(error: &FileError<A>) -> bool
    ensures { IsTrue result ↔ IsNotThere error.now }
{
    match error {
        FileError::Io { fault, .. } => fault.kind() == ErrorKind::NotFound,
        _ => false,
    }
}

/// What a read of a file answers. That a file isn't there is no fault of it.
fn answer_of<A: Allocator>(
    read: Result<Vec<u8, A>, FileError<A>>,
) -> Result<Option<Vec<u8, A>>, FileError<A>>
    ensures { IsReadAs read result }
{
    match read {
        Ok(bytes) => Ok(Some(bytes)),
        Err(error) => {
            if is_not_there(&error) {
                return Ok(None);
            }
            Err(error)
        }
    }
}

/// The path of the file for a digest in a part of a folder.
fn entry_path<A: Allocator + Copy>(
    alloc: A,
    place: &str,
    part: &str,
    digest: &Digest,
) -> Result<String<A>, AllocError>
    ensures { IfOk result (λ path. string_bytes path ≡ entry_path place.now part.now digest.now) }
{
    let _size = digest.size();
    let mut hash = digest.write_text(alloc)?;
    hash.truncate(64);
    format!(in alloc; "{place}/{part}/{hash}")
}

impl<'r, F: FileReader<A>, A: Allocator + Copy> BlobSource<A> for FolderSource<'r, F, A> {
    ghost tells = { telling_of };

    fn fetch(&mut self, alloc: A, digest: &Digest) -> Result<Option<Vec<u8, A>>, FetchError>
        ensures told { IfOk result
            (λ answer. bytes_of answer ≡ (telling_of self.new).blobs digest.now) }
        ensures called { Calls (AsksBlob digest.now) (telling_of self.old) (telling_of self.new)
            (IsErrOf result FetchError.Failed) }
        ensures looked { LooksInFolder (F.reads (files_of self.old)) (F.fails (files_of self.old))
            (entry_path (place_of self.old) (codes "cas") digest.now) digest.now
            (error_of self.old) (error_of self.new) (blobs_of self.old) (blobs_of self.new) result }
        ensures untouched { results_of self.new ≡ results_of self.old }
        ensures placed { place_of self.new ≡ place_of self.old }
        ensures same_files { files_of self.new ≡ files_of self.old }
    {
        self.calls = self.calls.saturating_add(1);
        self.folder.look_up(alloc, &mut self.blobs, "cas", digest)
    }

    fn result(&mut self, alloc: A, digest: &Digest) -> Result<Option<Vec<u8, A>>, FetchError>
        ensures told { IfOk result
            (λ answer. bytes_of answer ≡ (telling_of self.new).results digest.now) }
        ensures called { Calls (AsksResult digest.now) (telling_of self.old) (telling_of self.new)
            (IsErrOf result FetchError.Failed) }
        ensures looked { LooksInFolder (F.reads (files_of self.old)) (F.fails (files_of self.old))
            (entry_path (place_of self.old) (codes "ac") digest.now) digest.now
            (error_of self.old) (error_of self.new)
            (results_of self.old) (results_of self.new) result }
        ensures untouched { blobs_of self.new ≡ blobs_of self.old }
        ensures placed { place_of self.new ≡ place_of self.old }
        ensures same_files { files_of self.new ≡ files_of self.old }
    {
        self.calls = self.calls.saturating_add(1);
        self.folder.look_up(alloc, &mut self.results, "ac", digest)
    }
}
