ghost use Rattle.std.specs.Prelude.{◌≡◌, ◌∷◌, ◌++◌, [], IfErr, IfOk, OnOk, map, string_bytes};
ghost use Rattle.archive.specs.Writing.{IsArchiveOf, IsUnfitBy, archive_bytes, entry_value};
ghost use Rattle.keeping.specs.Told.{store_path, told_files, told_value};

use crate::answers::Answers;
use archive::{Entry, WriteError, write_archive};
use blob_digest::Digest;
use std::alloc::{AllocError, Allocator};

/// A file of what was told: its path and its content.
#[derive(Drop)]
pub(crate) struct ToldFile<'k, A: Allocator> {
    pub(crate) path: String<A>,
    pub(crate) content: &'k [u8],
}

/// The path of the file for a digest in a part of a store.
fn store_path<A: Allocator + Copy>(
    alloc: A,
    part: &str,
    digest: &Digest,
) -> Result<String<A>, AllocError>
    ensures { IfOk result (λ path. string_bytes path ≡ store_path part.now digest.now) }
{
    let hash = hex::encode(alloc, &digest.hash())?;
    format!(in alloc; "store/{part}/{hash}")
}

/// Adds the file of what was told under a digest.
fn push_told<'k, A: Allocator + Copy>(
    alloc: A,
    files: &mut Vec<ToldFile<'k, A>, A>,
    part: &str,
    digest: &Digest,
    content: &'k [u8],
) -> Result<(), AllocError>
    ensures { OnOk result (map told_value files.new.items
        ≡ map told_value files.old.items ++ (store_path part.now digest.now, content.now) ∷ []) }
{
    let path = store_path(alloc, part, digest)?;
    files.push(ToldFile { path, content })?;
    Ok(())
}

impl<A: Allocator + Copy> Answers<A> {
    /// The files of what was told, in the order of their digests.
    pub(crate) fn files(&self, alloc: A, part: &str) -> Result<Vec<ToldFile<'_, A>, A>, AllocError>
        ensures { IfOk result (λ files. map told_value files.items ≡ told_files part.now self.now) }
    {
        let mut files = Vec::new(alloc);
        for (digest, answer) in &self.answers {
            if let Some(bytes) = answer {
                push_told(alloc, &mut files, part, digest, bytes)?;
            }
        }
        Ok(files)
    }
}

/// Adds files to those that are written.
fn push_entries<'e, A: Allocator + Copy>(
    entries: &mut Vec<Entry<'e>, A>,
    files: &'e [ToldFile<'e, A>],
) -> Result<(), AllocError>
    ensures { OnOk result (map entry_value entries.new.items
        ≡ map entry_value entries.old.items ++ map told_value files.now) }
{
    for file in files {
        entries.push(Entry {
            path: file.path.as_str(),
            content: file.content,
        })?;
    }
    Ok(())
}

/// One archive of files, and of those of results and of blobs behind them.
pub(crate) fn write_all<'e, A: Allocator + Copy>(
    alloc: A,
    texts: &'e [Entry<'e>],
    results: &'e [ToldFile<'e, A>],
    blobs: &'e [ToldFile<'e, A>],
) -> Result<Vec<u8, A>, WriteError>
    ensures written { IfOk result (λ bytes. bytes.items
        ≡ archive_bytes (map entry_value texts.now ++ map told_value results.now
        ++ map told_value blobs.now)) }
    ensures read_back { IfOk result (λ bytes. IsArchiveOf bytes.items
        (map entry_value texts.now ++ map told_value results.now ++ map told_value blobs.now)) }
    ensures refused { IfErr result (IsUnfitBy
        (map entry_value texts.now ++ map told_value results.now ++ map told_value blobs.now)) }
{
    let mut entries = Vec::from_slice(alloc, texts)?;
    push_entries(&mut entries, results)?;
    push_entries(&mut entries, blobs)?;
    write_archive(alloc, &entries)
}
