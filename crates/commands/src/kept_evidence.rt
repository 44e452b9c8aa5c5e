ghost use Rattle.std.specs.Prelude.{◌≡◌, ◌++◌, [], IfErr, IfOk, None, OnOk, codes, decimal};
ghost use Rattle.std.specs.Prelude.{false, map, true, ℕ, List};
ghost use Rattle.archive.specs.Writing.{IsArchiveOf, IsUnfitBy, entry_value};
ghost use Rattle.blob_digest.specs.Text.{digest_text};
ghost use Rattle.commands.specs.Kept.{KeepsText, files_kept, folder_of, text_at, texts_of};
ghost use Rattle.commands.specs.Kept.{told_of};
ghost use Rattle.keeping.specs.Kept.{does_keep};

use archive::{Entry, WriteError};
use blob_digest::Digest;
use keeping::Kept;
use std::alloc::{AllocError, Global};
use std::collections::BTreeMap;

/// What a verdict looks at, as it is kept: its texts, and what sources told.
#[derive(Drop)]
pub(crate) struct KeptEvidence {
    pub told: Kept<Global>,
    /// Where texts stand in the archive: the folder of a stage with a slash behind it, or nothing.
    folder: String,
    /// The texts by their paths in the archive.
    texts: BTreeMap<String, Vec<u8>>,
}

impl KeptEvidence {
    /// Nothing yet.
    pub(crate) fn new(alloc: Global) -> KeptEvidence
        ensures keeps { does_keep (told_of result) ≡ true }
        ensures texts { (path : List ℕ) → text_at path result ≡ None }
        ensures folder { folder_of result ≡ [] }
    {
        KeptEvidence {
            told: Kept::new(alloc),
            folder: String::new(alloc),
            texts: BTreeMap::new(alloc),
        }
    }

    /// Nothing, whatever is looked at.
    pub(crate) fn nothing(alloc: Global) -> KeptEvidence
        ensures keeps { does_keep (told_of result) ≡ false }
        ensures texts { (path : List ℕ) → text_at path result ≡ None }
        ensures folder { folder_of result ≡ [] }
    {
        KeptEvidence {
            told: Kept::nothing(alloc),
            ..KeptEvidence::new(alloc)
        }
    }

    /// Has the texts that come stand in the folder of a stage.
    pub(crate) fn begin_stage(&mut self, alloc: Global, stage: u32) -> Result<(), AllocError>
        ensures folder { OnOk result (folder_of self.new ≡ decimal stage ++ codes "/") }
        ensures texts { texts_of self.new ≡ texts_of self.old }
        ensures told { told_of self.new ≡ told_of self.old }
    {
        self.folder = format!(in alloc; "{stage}/")?;
        Ok(())
    }

    /// Keeps a text, in place of another at its path.
    pub(crate) fn keep_text(
        &mut self,
        alloc: Global,
        name: &str,
        content: &[u8],
    ) -> Result<(), AllocError>
        ensures { OnOk result
            (KeepsText self.old self.new (folder_of self.old ++ name.now) content.now) }
    {
        if !self.told.keeps() {
            return Ok(());
        }
        let folder = self.folder.as_str();
        let path = format!(in alloc; "{folder}{name}")?;
        let content = Vec::from_slice(alloc, content)?;
        self.texts.insert(path, content)?;
        Ok(())
    }

    /// Keeps a digest, as the line of a text.
    pub(crate) fn keep_digest(
        &mut self,
        alloc: Global,
        name: &str,
        digest: &Digest,
    ) -> Result<(), AllocError>
        ensures { OnOk result (KeepsText self.old self.new (folder_of self.old ++ name.now)
            (digest_text digest.now ++ codes "\n")) }
    {
        let digest = digest.write_text(alloc)?;
        let line = format!(in alloc; "{digest}\n")?;
        self.keep_text(alloc, name, line.as_bytes())
    }

    /// The texts in the order of their paths, as they are written.
    fn entries(&self, alloc: Global) -> Result<Vec<Entry<'_>>, AllocError>
        ensures { IfOk result (λ entries. map entry_value entries.items ≡ texts_of self.now) }
    {
        let mut entries = Vec::new(alloc);
        for (path, content) in &self.texts {
            entries.push(Entry {
                path: path.as_str(),
                content: content.as_slice(),
            })?;
        }
        Ok(entries)
    }

    /// One archive of it: evidence by itself.
    pub(crate) fn archive(&self, alloc: Global) -> Result<Vec<u8>, WriteError>
        ensures archive { IfOk result (λ bytes. IsArchiveOf bytes.items (files_kept self.now)) }
        ensures unfit { IfErr result (IsUnfitBy (files_kept self.now)) }
    {
        let entries = self.entries(alloc)?;
        self.told.archive(alloc, &entries)
    }
}
