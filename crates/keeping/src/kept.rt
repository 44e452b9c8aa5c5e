ghost use Rattle.std.specs.Prelude.{◌≡◌, IfErr, IfOk, IsTrue, OnErr, OnOk, false, map, true};
ghost use Rattle.archive.specs.Writing.{IsArchiveOf, IsUnfitBy, archive_bytes, entry_value};
ghost use Rattle.blob_source.specs.Source.{bytes_of};
ghost use Rattle.keeping.specs.Answers.{IsEmpty};
ghost use Rattle.keeping.specs.Kept.{IsSameKept, KeepsBlob, KeepsResult, blobs_of, does_keep};
ghost use Rattle.keeping.specs.Kept.{kept_entries, results_of};

use crate::answers::Answers;
use crate::told::write_all;
use archive::{Entry, WriteError};
use blob_digest::Digest;
use std::alloc::{AllocError, Allocator};

/// What sources were asked for and told: blobs and results, by their digests. One that keeps
/// nothing stays empty.
#[derive(Drop)]
pub struct Kept<A: Allocator> {
    keeps: bool,
    blobs: Answers<A>,
    results: Answers<A>,
}

impl<A: Allocator + Copy> Kept<A> {
    /// Nothing yet.
    pub fn new(alloc: A) -> Kept<A>
        ensures keeps { does_keep result ≡ true }
        ensures blobs { IsEmpty (blobs_of result) }
        ensures results { IsEmpty (results_of result) }
    {
        Kept {
            keeps: true,
            blobs: Answers::new(alloc),
            results: Answers::new(alloc),
        }
    }

    /// Nothing, whatever is told.
    pub fn nothing(alloc: A) -> Kept<A>
        ensures keeps { does_keep result ≡ false }
        ensures blobs { IsEmpty (blobs_of result) }
        ensures results { IsEmpty (results_of result) }
    {
        Kept {
            keeps: false,
            ..Kept::new(alloc)
        }
    }

    /// Whether it keeps what is told.
    pub fn keeps(&self) -> bool
        ensures { result ≡ does_keep self.now }
    {
        self.keeps
    }

    /// Keeps the answer to a request for a blob.
    pub(crate) fn keep_blob(
        &mut self,
        alloc: A,
        digest: &Digest,
        answer: &Option<Vec<u8, A>>,
    ) -> Result<(), AllocError>
        ensures kept { OnOk result (KeepsBlob self.old self.new digest.now (bytes_of answer.now)) }
        ensures failed { OnErr result (IsSameKept self.old self.new) }
    {
        if self.keeps {
            self.blobs.keep(alloc, digest, answer)?;
        }
        Ok(())
    }

    /// Keeps the answer to a request for a result.
    pub(crate) fn keep_result(
        &mut self,
        alloc: A,
        digest: &Digest,
        answer: &Option<Vec<u8, A>>,
    ) -> Result<(), AllocError>
        ensures kept { OnOk result
            (KeepsResult self.old self.new digest.now (bytes_of answer.now)) }
        ensures failed { OnErr result (IsSameKept self.old self.new) }
    {
        if self.keeps {
            self.results.keep(alloc, digest, answer)?;
        }
        Ok(())
    }

    /// One archive of these files, and behind them of what was told: each result, then each blob,
    /// in the order of their digests. Two that were told under one hash have no place in one.
    pub fn archive(&self, alloc: A, texts: &[Entry<'_>]) -> Result<Vec<u8, A>, WriteError>
        ensures written { IfOk result (λ bytes.
            bytes.items ≡ archive_bytes (kept_entries (map entry_value texts.now) self.now)) }
        ensures read_back { IfOk result (λ bytes.
            IsArchiveOf bytes.items (kept_entries (map entry_value texts.now) self.now)) }
        ensures refused { IfErr result
            (IsUnfitBy (kept_entries (map entry_value texts.now) self.now)) }
    {
        let results = self.results.files(alloc, "ac")?;
        let blobs = self.blobs.files(alloc, "cas")?;
        write_all(alloc, texts, &results, &blobs)
    }
}
