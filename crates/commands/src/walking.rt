ghost use Rattle.std.specs.Prelude.{◌≡◌, ◌&&◌, IfErr, IfOk, OnOk};
ghost use Rattle.commands.specs.Faults.{OrMemory};
ghost use Rattle.commands.specs.ReadRefused.{FailsFile, FailsTaking, HasNoName, LinksToNoText};
ghost use Rattle.commands.specs.Walked.{TakesEntry, TakesFile, TakesPath, TakesTree};
ghost use Rattle.messages.specs.Name.{IsName};
ghost use Rattle.tree.specs.Form.{node_value};

use crate::children::Children;
use crate::error::{CommandError, entry_error};
use crate::world::{Found, Inputs};
use blob_digest::Digest;
use messages::{Encode, MessageError, Name, Node, Target};
use std::alloc::Global;

/// How many names a path has at most.
pub(crate) const GREATEST_DEPTH: u32 = 64;

/// What takes the blobs of what is read, one after another.
pub(crate) trait Taker {
    ghost use Rattle.blob_digest.specs.Digest.{digest_of};
    ghost use Rattle.commands.specs.Read.{ReadBlob, folder_blob};
    ghost use Rattle.commands.specs.declared.error.CommandError.{CommandError};

    /// How it stands after it took a blob.
    ghost takes: { Self → Self → ReadBlob → Type 0 };

    /// Why it doesn't take a blob.
    ghost refuses: { Self → ReadBlob → CommandError → Type 0 };

    /// Takes a Directory; gives its digest.
    fn take(&mut self, alloc: Global, blob: &[u8]) -> Result<Digest, CommandError>
        ensures named { IfOk result (λ digest. digest ≡ digest_of blob.now) }
        ensures taken { OnOk result (takes self.old self.new (folder_blob blob.now)) }
        ensures refused { IfErr result (OrMemory (refuses self.old (folder_blob blob.now))) };

    /// Takes the file at a place; gives its digest.
    fn take_file<W: Inputs>(
        &mut self,
        alloc: Global,
        world: &W,
        place: &str,
    ) -> Result<Digest, CommandError>
        ensures taken { IfOk result
            (TakesFile takes (W.sees world.now) place.now self.old self.new) }
        ensures refused { IfErr result
            (OrMemory (FailsFile refuses (W.sees world.now) place.now self.old)) };
}

/// The name of what stands at a place.
fn name_at(alloc: Global, place: &str, name: &str) -> Result<Name<Global>, CommandError>
    ensures name { IfOk result (λ n. n ≡ name.now) }
    ensures valid { OnOk result (IsName name.now) }
    ensures refused { IfErr result (OrMemory (HasNoName place.now name.now)) }
{
    match Name::new(alloc, name.as_bytes()) {
        Ok(name) => Ok(name),
        Err(MessageError::Memory) => Err(CommandError::Memory),
        Err(_e) => Err(entry_error(alloc, place, "not a name of at most 255 bytes")),
    }
}

/// The target of a link that stands at a place.
fn target_at(alloc: Global, place: &str, target: &str) -> Result<Target<Global>, CommandError>
    ensures target { IfOk result (λ t. t ≡ target.now) }
    ensures refused { IfErr result (OrMemory (LinksToNoText place.now target.now)) }
{
    match Target::new(alloc, target.as_bytes()) {
        Ok(target) => Ok(target),
        Err(MessageError::Memory) => Err(CommandError::Memory),
        Err(_e) => Err(entry_error(
            alloc,
            place,
            "a link whose target is not text of at most 4096 bytes",
        )),
    }
}

/// Reads what stands at the places of a world, blob by blob.
#[derive(Drop)]
pub(crate) struct Walker<'a, W: Inputs> {
    pub alloc: Global,
    pub world: &'a W,
    /// Whether executable bits are read; else they count as unset.
    pub bits: bool,
}

impl<W: Inputs> Walker<'_, W> {
    /// Whether a file with this bit counts as executable.
    fn counts(&self, executable: bool) -> bool
        ensures { result ≡ self.now.bits && executable }
    {
        self.bits && executable
    }

    /// Reads what stands at a place, and has its blobs taken; gives its node.
    #[cycle(read_folder)]
    fn read_entry<T: Taker>(
        &self,
        taker: &mut T,
        place: &str,
        levels_left: u32,
    ) -> Result<Node<Global>, CommandError>
        ensures taken { IfOk result (λ node. TakesEntry T.takes (W.sees self.now.world.now)
            self.now.bits levels_left place.now (node_value node) taker.old taker.new) }
        ensures refused { IfErr result (OrMemory (FailsTaking T.takes T.refuses
            (W.sees self.now.world.now) self.now.bits levels_left place.now taker.old)) }
    {
        let found = self.world.look(self.alloc, place)?;
        let node = match found {
            Found::Folder => Node::Dir(self.read_folder(taker, place, levels_left)?),
            Found::Link(target) => Node::Link {
                target: target_at(self.alloc, place, target.as_str())?,
            },
            Found::File { executable } => Node::File {
                digest: taker.take_file(self.alloc, self.world, place)?,
                executable: self.counts(executable),
            },
        };
        Ok(node)
    }

    /// Reads what stands in the folder at a place, so many levels of names deep at most, and has
    /// its blobs taken, its own Directory last; gives that one's digest.
    #[cycle(read_folder)]
    pub(crate) fn read_folder<T: Taker>(
        &self,
        taker: &mut T,
        place: &str,
        levels_left: u32,
    ) -> Result<Digest, CommandError>
        ensures taken { IfOk result (λ digest. TakesTree T.takes (W.sees self.now.world.now)
            self.now.bits levels_left place.now digest taker.old taker.new) }
        ensures refused { IfErr result (OrMemory (FailsTaking T.takes T.refuses
            (W.sees self.now.world.now) self.now.bits levels_left place.now taker.old)) }
    {
        let alloc = self.alloc;
        let names = self.world.list(alloc, place)?;
        let mut children = Children::new(alloc);
        for name in names.iter() {
            let below = format!(in alloc; "{place}/{name}")?;
            let path = below.as_str();
            let name = name_at(alloc, path, name.as_str())?;
            if levels_left == 0 {
                return Err(entry_error(alloc, path, "more than 64 names deep"));
            }
            let node = self.read_entry(taker, path, levels_left - 1)?;
            children.push(name, node)?;
        }
        let directory = children.into_directory(alloc, place)?;
        let bytes = directory.write(alloc)?;
        taker.take(alloc, &bytes)
    }

    /// Reads the file or the folder at a path, where links are followed, and has its blobs taken;
    /// gives its digest.
    pub(crate) fn read_path<T: Taker>(
        &self,
        taker: &mut T,
        path: &str,
    ) -> Result<Digest, CommandError>
        ensures taken { IfOk result (λ digest. TakesPath T.takes (W.sees self.now.world.now)
            self.now.bits path.now digest taker.old taker.new) }
        ensures refused { IfErr result (OrMemory (FailsTaking T.takes T.refuses
            (W.sees self.now.world.now) self.now.bits GREATEST_DEPTH path.now taker.old)) }
    {
        if self.world.is_folder(self.alloc, path)? {
            self.read_folder(taker, path, GREATEST_DEPTH)
        } else {
            taker.take_file(self.alloc, self.world, path)
        }
    }
}
