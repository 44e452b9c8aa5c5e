ghost use Rattle.std.specs.Prelude.{◌≡◌, ◌≢◌, ◌↔◌, ◌⊎◌, ℕ, List, IfErr, IfOk, IsTrue, None};
ghost use Rattle.std.specs.Prelude.{OnErr, OnOk, Some};
ghost use Rattle.std.specs.Prelude.{string_bytes};
ghost use Rattle.clap.specs.Words.{found_of, rows_of};
ghost use Rattle.commands.specs.Ended.{is_done};
ghost use Rattle.commands.specs.Memory.{AnswersRight, AsksFiles, PrintsFiles, files_of, replies_of};
ghost use Rattle.commands.specs.Memory.{PrintsVerdict, sees_in};
ghost use Rattle.commands.specs.Printed.{NamesStore};
ghost use Rattle.commands.specs.Refusal.{FailsToJudge, IsPrintFault};
ghost use Rattle.commands.specs.SmallExample.{HoldsAnotherAction, HoldsExample, PrintsNo};
ghost use Rattle.commands.specs.SmallExample.{PrintsYes, no_line, yes_line};
ghost use Rattle.commands.specs.Verified.{HoldsAlone};
ghost use Rattle.commands.specs.Words.{AllValid, place_words};
ghost use Rattle.text_verifier.specs.Texts.{Question};
ghost use Rattle.verifier.specs.Verdict.{IsYes};

use crate::connecting::ServerOptions;
use crate::ended::Ended;
use crate::error::CommandError;
use crate::files::unread;
use crate::kept_evidence::KeptEvidence;
use crate::verifying::{print_line, verify_asked};
use crate::world::{Archives, Found, Inputs, World};
use archive::Blocks;
use clap::ArgMatches;
use http_core::FailStream;
use plan::{
    faults_are_single_valued, record_faults_are_single_valued, spells_one_plan, spells_one_record,
};
use remote::FileError;
use std::alloc::{AllocError, Global};
use std::collections::BTreeMap;
use std::io;
use std::io::{ErrorKind, Write};

/// A world in memory: files at their paths, with no folders and no links, and servers at their
/// addresses, of which each sends the same bytes over each connection.
#[derive(Drop)]
pub struct MemoryWorld {
    files: BTreeMap<String, Vec<u8>>,
    servers: BTreeMap<String, Vec<u8>>,
}

impl MemoryWorld {
    /// A world of no files and no servers.
    pub fn new(alloc: Global) -> MemoryWorld
        ensures files { (path : List ℕ) → files_of result path ≡ None }
        ensures servers { (address : List ℕ) → replies_of result address ≡ None }
    {
        MemoryWorld {
            files: BTreeMap::new(alloc),
            servers: BTreeMap::new(alloc),
        }
    }

    /// A world of this file alone.
    pub(crate) fn of_file(
        alloc: Global,
        path: &str,
        bytes: Vec<u8>,
    ) -> Result<MemoryWorld, AllocError>
        ensures { IfOk result (λ world. HoldsAlone world path.now bytes.items) }
    {
        let mut world = MemoryWorld::new(alloc);
        world.hold(String::from_str(alloc, path)?, bytes)?;
        Ok(world)
    }

    /// The bytes of the file at a path, or none.
    pub(crate) fn file(&self, path: &str) -> &[u8]
        ensures { (bytes : List ℕ) → files_of self.now path.now ≡ Some bytes
            → result.now ≡ bytes }
    {
        match self.files.get(path) {
            Some(bytes) => bytes.as_slice(),
            None => &[],
        }
    }

    /// Holds these bytes as the file at the path, in place of others.
    pub fn hold(&mut self, path: String, bytes: Vec<u8>) -> Result<(), AllocError>
        ensures held { OnOk result (files_of self.new (string_bytes path) ≡ Some bytes.items) }
        ensures others { OnOk result ((other : List ℕ) → other ≢ string_bytes path
            → files_of self.new other ≡ files_of self.old other) }
        ensures unheld { OnErr result ((path : List ℕ)
            → files_of self.new path ≡ files_of self.old path) }
        ensures servers { (address : List ℕ)
            → replies_of self.new address ≡ replies_of self.old address }
    {
        self.files.insert(path, bytes)?;
        Ok(())
    }

    /// Has these bytes come over each connection to the address, in place of others.
    pub fn serve(&mut self, address: String, bytes: Vec<u8>) -> Result<(), AllocError>
        ensures held { OnOk result (replies_of self.new (string_bytes address)
            ≡ Some bytes.items) }
        ensures others { OnOk result ((other : List ℕ) → other ≢ string_bytes address
            → replies_of self.new other ≡ replies_of self.old other) }
        ensures unheld { OnErr result ((address : List ℕ)
            → replies_of self.new address ≡ replies_of self.old address) }
        ensures files { (path : List ℕ)
            → files_of self.new path ≡ files_of self.old path }
    {
        self.servers.insert(address, bytes)?;
        Ok(())
    }
}

impl World for MemoryWorld {
    ghost use Rattle.commands.specs.Memory.{sees_in};

    ghost sees = { sees_in };
}

impl Inputs for MemoryWorld {
    type Link = FailStream<Global>;

    fn read(&self, alloc: Global, path: &str) -> Result<Vec<u8>, FileError<Global>> {
        match self.files.get(path) {
            Some(bytes) => Ok(Vec::from_slice(alloc, bytes)?),
            None => Err(unread(alloc, path, io::Error::from(ErrorKind::NotFound))),
        }
    }

    fn list(&self, alloc: Global, path: &str) -> Result<Vec<String>, FileError<Global>> {
        match self.files.get(path) {
            Some(_) => Err(unread(alloc, path, io::Error::from(ErrorKind::NotADirectory))),
            None => Err(unread(alloc, path, io::Error::from(ErrorKind::NotFound))),
        }
    }

    fn look(&self, alloc: Global, path: &str) -> Result<Found, FileError<Global>> {
        match self.files.get(path) {
            Some(_) => Ok(Found::File { executable: false }),
            None => Err(unread(alloc, path, io::Error::from(ErrorKind::NotFound))),
        }
    }

    fn is_folder(&self, _alloc: Global, _path: &str) -> Result<bool, FileError<Global>> {
        Ok(false)
    }

    fn connect(&self, alloc: Global, server: &ServerOptions) -> io::Result<FailStream<Global>> {
        match self.servers.get(server.address.as_str()) {
            Some(bytes) => {
                let bytes = Vec::from_slice(alloc, bytes)?;
                Ok(FailStream::new(alloc, bytes, 65536, 0))
            }
            None => Err(io::Error::from(ErrorKind::ConnectionRefused)),
        }
    }
}

/// A file of a world in memory, open.
#[derive(Drop)]
pub struct MemoryFile(Vec<u8>);

impl Blocks for MemoryFile {
    ghost use Rattle.std.specs.Prelude.{Some};

    ghost contents = { λ file. Some file.0.items };

    fn size(&self) -> io::Result<u64> {
        self.0.as_slice().size()
    }

    fn read_at(&self, offset: u64, buffer: &mut [u8]) -> io::Result<()> {
        self.0.as_slice().read_at(offset, buffer)
    }
}

impl Archives for MemoryWorld {
    type File = MemoryFile;

    fn open(&self, alloc: Global, path: &str) -> Result<MemoryFile, FileError<Global>> {
        Ok(MemoryFile(self.read(alloc, path)?))
    }
}

/// Prints the line of the verdict that these options ask for.
fn print_asked<O: Write>(
    alloc: Global,
    world: &MemoryWorld,
    matches: &ArgMatches<'_>,
    out: &mut O,
) -> Result<Ended, CommandError>
    ensures printed { IfOk result (λ ended.
        (prints : PrintsVerdict (sees_in world.now) (rows_of (found_of matches.now))
        (O.contents out.old) (O.contents out.new))
        × (IsTrue (is_done ended) ↔ IsYes prints.verdict)) }
    ensures refused { IfErr result (λ e.
        FailsToJudge (sees_in world.now) (rows_of (found_of matches.now)) e ⊎ IsPrintFault e) }
{
    let judgement = verify_asked(
        alloc,
        world,
        matches,
        &None,
        &mut KeptEvidence::nothing(alloc),
    )?;
    print_line(judgement.line.as_str(), out)?;
    Ok(judgement.ended)
}

/// `verify` with its options, without evidence, over a world in memory: its verdict is on what that
/// holds.
pub fn verify_in_memory<O: Write>(
    alloc: Global,
    world: &MemoryWorld,
    matches: &ArgMatches<'_>,
    out: &mut O,
) -> Result<Ended, CommandError>
    ensures printed { IfOk result (λ ended.
        (prints : PrintsVerdict (sees_in world.now) (rows_of (found_of matches.now))
        (O.contents out.old) (O.contents out.new))
        × (IsTrue (is_done ended) ↔ IsYes prints.verdict)) }
    // Over a store it is by the files alone.
    ensures files { NamesStore (rows_of (found_of matches.now)) → IfOk result (λ ended.
        (prints : PrintsFiles (files_of world.now) (rows_of (found_of matches.now))
        (O.contents out.old) (O.contents out.new))
        × (IsTrue (is_done ended) ↔ IsYes prints.verdict)) }
    // Where valid words and the files ask a question, it is answered: by its yes exactly where the
    // store is right. But memory may run out, and the output may take no more.
    ensures right { (question : Question) → AllValid (place_words (rows_of (found_of matches.now)))
        → AsksFiles (files_of world.now) (rows_of (found_of matches.now)) question
        → AnswersRight (files_of world.now) (rows_of (found_of matches.now)) question
        (O.contents out.old) (O.contents out.new) result }
    // README's small example is answered with its line,
    ensures example { HoldsExample (files_of world.now) (rows_of (found_of matches.now))
        → PrintsYes yes_line (O.contents out.old) (O.contents out.new) result }
    // and with the line of its no where other bytes stand in place of an action's, be it by one.
    ensures flawed { HoldsAnotherAction (files_of world.now) (rows_of (found_of matches.now))
        → PrintsNo no_line (O.contents out.old) (O.contents out.new) result }
{
    // Laws: a text is that of one plan or record at most, and has no fault then.
    spells_one_plan();
    spells_one_record();
    faults_are_single_valued();
    record_faults_are_single_valued();
    print_asked(alloc, world, matches, out)
}
