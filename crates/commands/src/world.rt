ghost use Rattle.std.specs.Prelude.{◌≡◌, IfErr, IfOk, IsErrOf, IsSorted, None, OnOk, Some, map};
ghost use Rattle.std.specs.Prelude.{string_bytes};
ghost use Rattle.std.specs.Fs.{IsDir, IsSymlink, file_type};
ghost use Rattle.blob_source.specs.Called.{Called};
ghost use Rattle.checkout.specs.Refused.{FailsCheckout};
ghost use Rattle.commands.specs.World.{owner_bit};
ghost use Rattle.checkout.specs.Written.{AsksEachOnce, AsksUpTo, CheckoutLooksAt, HoldsTree};
ghost use Rattle.checkout.specs.Written.{TriesTree};
ghost use Rattle.messages.specs.Order.{bytes_cmp};
ghost use Rattle.remote.specs.Folder.{IsErrorOf};
ghost use Rattle.tree.specs.Memo.{AsksNoOther};

use crate::connecting::{Connection, ServerOptions};
use crate::files::{of_entry, unread};
use crate::hashing::digest_to_end;
use crate::options::limit_of;
use crate::replacing::{check_replaceable, replace_file};
use archive::Blocks;
use blob_digest::Digest;
use blob_source::BlobSource;
use cache_server::{Cache, Server};
use checkout::{CheckoutError, SystemWriter, check_out};
use http_core::Prefix;
use log::Log;
use remote::{FileError, FileReader, Stream, SystemFiles, read_file};
use service::{ErrorTerminal, NotAccepted, SystemListener, SystemSockets, serve, serve_together};
use std::alloc::Global;
use std::hash::RandomState;
use std::net::{Net, SocketAddr, TcpListener, TcpStream};
use std::os::unix::fs::MetadataExt;
use std::random::RandomSource;
use std::rt::Files;
use std::time::Clock;
use std::{fs, io};

/// What stands at a path.
#[derive(Drop)]
pub enum Found {
    Folder,
    /// A symbolic link, and where it leads to.
    Link(String),
    /// A file, or what is none of these, with its owner's executable bit.
    File { executable: bool },
}

/// The bit of a mode by which the owner may run a file.
const OWNER_RUNS: u32 = 0o100;

/// What stands at a path, by its metadata. Of a link that doesn't say where it leads to.
fn found_by(metadata: &fs::Metadata) -> Option<Found>
    ensures folder { IsDir (file_type metadata.now) → result ≡ Some Found.Folder }
    ensures link { IsSymlink (file_type metadata.now) → result ≡ None }
    ensures file { ¬ IsDir (file_type metadata.now) → ¬ IsSymlink (file_type metadata.now)
        → result ≡ Some (Found.File (owner_bit metadata.now)) }
{
    if metadata.is_dir() {
        return Some(Found::Folder);
    }
    if metadata.is_symlink() {
        return None;
    }
    Some(Found::File {
        executable: metadata.mode() & OWNER_RUNS != 0,
    })
}

/// A socket that listens, and its address.
#[derive(Drop)]
pub struct Listening {
    pub listener: TcpListener,
    pub address: SocketAddr,
}

/// What is served, and how.
#[derive(Drop)]
pub struct Service {
    pub cache: Cache<Global>,
    pub prefix: Prefix<Global>,
    pub connections: u64,
    /// The most connections that are served at a time.
    pub at_once: usize,
    /// For how many seconds one may be silent; 0: for ever.
    pub idle: u64,
}

/// What is outside of a command. What a command may do there is what its bound names: `Inputs`,
/// `Outputs` or `Hosting`.
pub trait World {
    ghost use Rattle.commands.specs.World.{Sight};

    /// What may be said of what it told.
    ghost sees: { Self → Sight };
}

/// What a command reads: files and folders, and servers. Nothing changes outside but by what is
/// sent over a connection.
pub trait Inputs: World {
    /// A connection to a server.
    type Link: Stream + Drop;

    ghost use Rattle.commands.specs.World.{ReadsDigest, what_stands};

    /// The bytes of a file.
    fn read(&self, alloc: Global, path: &str) -> Result<Vec<u8>, FileError<Global>>
        ensures read { IfOk result (λ bytes. (Self.sees self.now).reads path.now bytes.items) }
        ensures error { IfErr result (IsErrorOf path.now) }
        ensures fault { IfErr result ((Self.sees self.now).fails path.now) };

    /// The digest of a file, which may have more bytes than are read at once.
    fn digest(&self, alloc: Global, path: &str) -> Result<Digest, FileError<Global>>
        ensures read { IfOk result (ReadsDigest (Self.sees self.now) path.now) }
        ensures error { IfErr result (IsErrorOf path.now) }
        ensures fault { IfErr result ((Self.sees self.now).fails path.now) }
    {
        let bytes = self.read(alloc, path)?;
        Ok(Digest::of(&bytes))
    }

    /// The names in a folder, in the order of their bytes.
    fn list(&self, alloc: Global, path: &str) -> Result<Vec<String>, FileError<Global>>
        ensures listed { IfOk result
            (λ names. (Self.sees self.now).lists path.now (map string_bytes names.items)) }
        ensures ordered { IfOk result
            (λ names. IsSorted bytes_cmp (map string_bytes names.items)) }
        ensures error { IfErr result (IsErrorOf path.now) }
        ensures fault { IfErr result ((Self.sees self.now).unlisted path.now) };

    /// What stands at a path. A link isn't followed.
    fn look(&self, alloc: Global, path: &str) -> Result<Found, FileError<Global>>
        ensures stands { IfOk result (λ found. (Self.sees self.now).stands path.now
            (what_stands found)) }
        ensures error { IfErr result (IsErrorOf path.now) }
        ensures fault { IfErr result ((Self.sees self.now).fails path.now) };

    /// Whether a folder stands at a path. Links are followed.
    fn is_folder(&self, alloc: Global, path: &str) -> Result<bool, FileError<Global>>
        ensures leads { IfOk result ((Self.sees self.now).leads path.now) }
        ensures error { IfErr result (IsErrorOf path.now) }
        ensures fault { IfErr result ((Self.sees self.now).fails path.now) };

    /// A connection to a server.
    fn connect(&self, alloc: Global, server: &ServerOptions) -> io::Result<Self::Link>
        ensures connected { IfOk result (λ link.
            (Self.sees self.now).connects (string_bytes server.now.address) server.now.timeout
            (Self.Link.flow link)) }
        ensures fault { IfErr result ((Self.sees self.now).refuses
            (string_bytes server.now.address)) };
}

/// Files that are read at offsets, so that an archive of any size is.
pub trait Archives: World {
    type File: Blocks + Drop;

    /// The file at a path, open.
    fn open(&self, alloc: Global, path: &str) -> Result<Self::File, FileError<Global>>
        ensures opened { IfOk result (λ file.
            (Self.sees self.now).opens path.now (Self.File.contents file)) }
        ensures error { IfErr result (IsErrorOf path.now) }
        ensures fault { IfErr result ((Self.sees self.now).fails path.now) };
}

/// What a command writes: files, and trees into folders.
pub trait Outputs: World {
    /// A file or nothing stands at a path, where links are followed, and its folder takes a new
    /// file. Nothing is changed.
    fn check_writable(&self, alloc: Global, path: &str) -> Result<(), FileError<Global>>
        ensures takes { OnOk result ((Self.sees self.now).takes path.now) }
        ensures error { IfErr result (IsErrorOf path.now) }
        ensures fault { IfErr result ((Self.sees self.now).fails path.now) };

    /// Writes a file: a new one beside it, which then takes its place. A link is followed, and what
    /// is no file stays.
    fn write(&self, alloc: Global, path: &str, bytes: &[u8]) -> io::Result<()>
        ensures wrote { OnOk result ((Self.sees self.now).wrote path.now bytes.now) }
        ensures fault { IfErr result ((Self.sees self.now).unwritten path.now) };

    /// Writes the tree with a digest, as a source tells it, into a folder that isn't there or is
    /// empty.
    fn check_out<S: BlobSource<Global>>(
        &self,
        alloc: Global,
        path: &str,
        root: &Digest,
        source: &mut S,
    ) -> Result<(), CheckoutError<Global>>
        ensures written { OnOk result
            (HoldsTree (Self.sees self.now).holds (S.tells source.new).blobs root.now path.now) }
        ensures tried { OnOk result
            (TriesTree (Self.sees self.now).tries (S.tells source.new).blobs root.now path.now) }
        // Once something isn't told, taken or written, nothing more is tried, and nothing behind
        // it is asked for.
        ensures refused { IfErr result
            (FailsCheckout (Self.sees self.now).holds (Self.sees self.now).unwritten
            (Self.sees self.now).tries
            (AsksUpTo root.now (S.tells source.old) (S.tells source.new))
            (S.tells source.new).blobs root.now path.now) }
        ensures few { AsksEachOnce root.now (S.tells source.old) (S.tells source.new) }
        // No blob is asked for but the tree's Directories and its files' contents.
        ensures only { AsksNoOther (CheckoutLooksAt (S.tells source.new).blobs root.now)
            (S.tells source.old) (S.tells source.new) }
        ensures called { Called (S.tells source.old) (S.tells source.new)
            (IsErrOf result CheckoutError.Fetch) };
}

/// By what a command serves: it listens, and takes connections.
pub trait Hosting: World {
    ghost use Rattle.commands.specs.World.{serving};

    /// Random keys for the tables of a cache.
    fn random_keys(&self) -> io::Result<RandomState>
        ensures given { OnOk result (Self.sees self.now).random }
        ensures fault { IfErr result (Self.sees self.now).unrandom };

    /// Listens at an address.
    fn listen(&self, address: &str) -> io::Result<Listening>
        ensures listens { IfOk result (λ l. (Self.sees self.now).listens address.now l.address) }
        ensures fault { IfErr result ((Self.sees self.now).unbound address.now) };

    /// Serves connections.
    fn serve(&self, listening: Listening, service: Service) -> Result<(), NotAccepted>
        ensures served { OnOk result ((Self.sees self.now).serves (serving listening service)) }
        ensures fault { IfErr result ((Self.sees self.now).unserved (serving listening service)) };
}

/// The file at a path, open. What is no file isn't opened.
fn open_file<R: Files>(rt: &R, alloc: Global, path: &str) -> Result<R::File, FileError<Global>>
    ensures error { IfErr result (IsErrorOf path.now) }
{
    match fs::metadata(rt, path) {
        Ok(metadata) if metadata.is_file() => {}
        Ok(_) => {
            let path = String::from_str(alloc, path)?;
            return Err(FileError::NotAFile { path });
        }
        Err(fault) => return Err(unread(alloc, path, fault)),
    }
    match fs::open(rt, path) {
        Ok(file) => Ok(file),
        Err(fault) => Err(unread(alloc, path, fault)),
    }
}

/// The files and sockets of the system, as the program's handle reaches them.
#[derive(Drop)]
pub struct System<'r, R>(pub &'r R);

impl<R> World for System<'_, R> {
    ghost use Rattle.commands.specs.World.{sees_nothing};

    ghost sees = { λ _. sees_nothing };
}

impl<'r, R: AllocGlobal + Files + Net<Stream = TcpStream>> Inputs for System<'r, R> {
    type Link = Connection<'r, R>;

    fn read(&self, alloc: Global, path: &str) -> Result<Vec<u8>, FileError<Global>> {
        read_file(alloc, &SystemFiles(self.0), path)
    }

    fn digest(&self, alloc: Global, path: &str) -> Result<Digest, FileError<Global>> {
        let mut file = open_file(self.0, alloc, path)?;
        match digest_to_end(&mut file) {
            Ok(digest) => Ok(digest),
            Err(fault) => Err(unread(alloc, path, fault)),
        }
    }

    fn list(&self, alloc: Global, path: &str) -> Result<Vec<String>, FileError<Global>> {
        let mut names = Vec::new(alloc);
        let entries = match fs::read_dir(&self.0, path) {
            Ok(entries) => entries,
            Err(fault) => return Err(unread(alloc, path, fault)),
        };
        for entry in entries {
            let name = match entry {
                Ok(entry) => String::from_str(alloc, entry.file_name())?,
                Err(fault) => return Err(unread(alloc, path, of_entry(fault))),
            };
            if names.push(name).is_err() {
                return Err(FileError::Memory);
            }
        }
        names.sort()?;
        Ok(names)
    }

    fn look(&self, alloc: Global, path: &str) -> Result<Found, FileError<Global>> {
        let metadata = match fs::symlink_metadata(self.0, path) {
            Ok(metadata) => metadata,
            Err(fault) => return Err(unread(alloc, path, fault)),
        };
        if let Some(found) = found_by(&metadata) {
            return Ok(found);
        }
        match fs::read_link(self.0, path) {
            Ok(target) => Ok(Found::Link(String::from_str(alloc, target.as_str())?)),
            Err(fault) => Err(unread(alloc, path, fault)),
        }
    }

    fn is_folder(&self, alloc: Global, path: &str) -> Result<bool, FileError<Global>> {
        match fs::metadata(self.0, path) {
            Ok(metadata) => Ok(metadata.is_dir()),
            Err(fault) => Err(unread(alloc, path, fault)),
        }
    }

    fn connect(&self, alloc: Global, server: &ServerOptions) -> io::Result<Connection<'r, R>> {
        Connection::open(alloc, self.0, server)
    }
}

impl<R: AllocGlobal + Files<File = fs::File>> Archives for System<'_, R> {
    type File = fs::File;

    fn open(&self, alloc: Global, path: &str) -> Result<fs::File, FileError<Global>> {
        open_file(self.0, alloc, path)
    }
}

impl<R: AllocGlobal + Files> Outputs for System<'_, R> {
    fn check_writable(&self, alloc: Global, path: &str) -> Result<(), FileError<Global>> {
        match check_replaceable(self.0, alloc, path) {
            Ok(()) => Ok(()),
            Err(fault) => Err(unread(alloc, path, fault)),
        }
    }

    fn write(&self, alloc: Global, path: &str, bytes: &[u8]) -> io::Result<()> {
        replace_file(self.0, alloc, path, bytes)
    }

    fn check_out<S: BlobSource<Global>>(
        &self,
        alloc: Global,
        path: &str,
        root: &Digest,
        source: &mut S,
    ) -> Result<(), CheckoutError<Global>> {
        check_out(alloc, &mut SystemWriter(self.0), path, root, source)?;
        Ok(())
    }
}

impl<R> Hosting for System<'_, R>
where
    R: AllocGlobal + Clock + ErrorTerminal + Log + RandomSource,
    R: Net<Listener = TcpListener, Stream = TcpStream>,
{
    fn random_keys(&self) -> io::Result<RandomState> {
        RandomState::new(self.0)
    }

    fn listen(&self, address: &str) -> io::Result<Listening> {
        let listener = TcpListener::bind(self.0, address)?;
        let address = listener.local_addr()?;
        Ok(Listening { listener, address })
    }

    fn serve(&self, listening: Listening, service: Service) -> Result<(), NotAccepted> {
        let Service {
            mut cache,
            prefix,
            connections,
            at_once,
            idle,
        } = service;
        let idle = limit_of(idle);
        if at_once > 1 {
            let mut server = Server::new(self.0.alloc(), cache, prefix);
            let mut sockets = match SystemSockets::new(self.0, listening.listener) {
                Ok(sockets) => sockets,
                Err(fault) => return Err(NotAccepted { accepted: 0, fault }),
            };
            return serve_together(
                self.0,
                &mut sockets,
                connections,
                at_once,
                idle,
                &mut server,
            );
        }
        let mut listener = SystemListener::new(self.0, &listening.listener, idle);
        serve(self.0, &mut listener, connections, &mut cache, &prefix)
    }
}

/// The files of a world.
#[derive(Drop)]
pub(crate) struct FilesOf<'w, W>(pub &'w W);

impl<W: Inputs> FileReader<Global> for FilesOf<'_, W> {
    ghost reads = { λ files. (W.sees files.0.now).reads };

    ghost fails = { λ files. (W.sees files.0.now).fails };

    fn read_at(&self, alloc: Global, path: &str) -> Result<Vec<u8>, FileError<Global>> {
        self.0.read(alloc, path)
    }
}
