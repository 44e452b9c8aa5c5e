ghost use Rattle.std.specs.Prelude.{IfErr, IfOk};
ghost use Rattle.commands.specs.Digested.{reads_bits};
ghost use Rattle.commands.specs.FolderRead.{IsFolderRead, value_of_read};
ghost use Rattle.commands.specs.Faults.{OrMemory};
ghost use Rattle.commands.specs.ReadRefused.{FailsReading};

use crate::digesting::reads_bits;
use crate::error::CommandError;
use crate::options::Options;
use crate::walking::{GREATEST_DEPTH, Taker, Walker};
use crate::world::Inputs;
use blob_digest::Digest;
use std::alloc::Global;

/// The options with the claim of a folder before what was said.
#[derive(Drop)]
pub(crate) struct ClaimedOptions<'m, M> {
    pub claim: String,
    pub said: &'m M,
}

impl<M: Options> Options for ClaimedOptions<'_, M> {
    ghost use Rattle.std.specs.Prelude.{◌∷◌, codes, string_bytes};
    ghost use Rattle.commands.specs.Evidence.{given};

    ghost rows = { λ o. given (codes "claim") (string_bytes o.claim) ∷ M.rows o.said.now };

    fn text(&self, option: &'static str) -> Option<&str> {
        match option {
            "claim" => Some(self.claim.as_str()),
            _ => self.said.text(option),
        }
    }
}

/// What a folder that stands for a claim was read as.
#[derive(Drop)]
pub(crate) struct FolderRead {
    /// The digest of its tree.
    pub digest: Digest,
    /// Its Directories.
    pub directories: Vec<Vec<u8>>,
}

/// Takes every blob, and keeps the Directories. A file is hashed in pieces.
#[derive(Drop)]
struct KeepsDirectories {
    directories: Vec<Vec<u8>>,
}

impl Taker for KeepsDirectories {
    ghost use Rattle.std.specs.Prelude.{◌≡◌, ◌++◌};
    ghost use Rattle.commands.specs.Read.{directory_in};
    ghost use Rattle.tree.specs.Folded.{items_of};

    ghost takes = { λ old new blob. items_of new.directories.items
        ≡ items_of old.directories.items ++ directory_in blob };

    ghost refuses = { λ _ _ _. ⊥ };

    fn take(&mut self, alloc: Global, blob: &[u8]) -> Result<Digest, CommandError> {
        self.directories.push(Vec::from_slice(alloc, blob)?)?;
        Ok(Digest::of(blob))
    }

    fn take_file<W: Inputs>(
        &mut self,
        alloc: Global,
        world: &W,
        place: &str,
    ) -> Result<Digest, CommandError> {
        Ok(world.digest(alloc, place)?)
    }
}

/// The folder at a path, which stands for a claim, as it was read.
pub(crate) fn read_artifact<W: Inputs, M: Options>(
    alloc: Global,
    world: &W,
    options: &M,
    folder: &str,
) -> Result<FolderRead, CommandError>
    ensures read { IfOk result (λ read. IsFolderRead (W.sees world.now) (M.rows options.now)
        folder.now (value_of_read read)) }
    ensures refused { IfErr result (OrMemory (FailsReading (W.sees world.now)
        (reads_bits (M.rows options.now)) 64 folder.now)) }
{
    let walker = Walker {
        alloc,
        world,
        bits: reads_bits(options),
    };
    let mut taker = KeepsDirectories {
        directories: Vec::new(alloc),
    };
    let digest = walker.read_folder(&mut taker, folder, GREATEST_DEPTH)?;
    Ok(FolderRead {
        digest,
        directories: taker.directories,
    })
}
