ghost use Rattle.std.specs.Prelude.{◌≡◌, ◌≢◌, ◌↔◌, None, Some, IfErr, IfNone, IfOk, IfSome, IsTrue};
ghost use Rattle.std.specs.Prelude.{OnErr, option_map, string_bytes};
ghost use Rattle.blob_digest.specs.Digest.{digest_of, empty_digest};
ghost use Rattle.clap.specs.Words.{found_of, rows_of};
ghost use Rattle.commands.specs.Client.{remote_of};
ghost use Rattle.commands.specs.Faults.{OrMemory};
ghost use Rattle.commands.specs.GetRefused.{FailsGet, FailsGetBlob, FailsGot};
ghost use Rattle.commands.specs.Got.{BeginsBlob, GetsFirst, IsBlobOver, NotesNoBlob, Writes};
ghost use Rattle.commands.specs.Places.{IsFresh};
ghost use Rattle.commands.specs.Printed.{BeginsGot, GetsAsked, GetsPart, IsGot};
ghost use Rattle.commands.specs.Refusal.{IsPrintFault};
ghost use Rattle.remote.specs.Remote.{connection_of};

use crate::client::{Client, GetsAlone, Opened, open};
use crate::connecting::{ServerOptions, read_server};
use crate::ended::{Ended, Note};
use crate::error::{CommandError, OTHER_BYTES, blob_error};
use crate::options::read_digest;
use crate::printing::print_all;
use crate::trees::get_tree;
use crate::world::{Inputs, Outputs};
use blob_digest::Digest;
use blob_source::BlobSource;
use clap::ArgMatches;
use command_lines::option_of;
use remote::{Remote, Stream};
use std::alloc::{AllocError, Global};
use std::io::Write;
use std::marker::Brand;

/// Whether the bytes have the digest.
fn has_digest(bytes: &[u8], digest: &Digest) -> bool
    ensures { IsTrue result ↔ (digest_of bytes.now ≡ digest.now) }
{
    Digest::of(bytes) == *digest
}

/// The bytes of the blob of the digest, where the server at the other end of the connection has it.
fn get_blob<S: Stream + Drop, K: Opened>(
    alloc: Global,
    server: &ServerOptions,
    client: &mut Client<S, K, GetsAlone>,
    digest: &Digest,
) -> Result<Option<Vec<u8>>, CommandError>
    requires start { K.start ≡ connection_of S.flow (remote_of client.old) }
    requires fresh { IsFresh (remote_of client.old) }
    ensures right { IfOk result (λ found. IfSome found (λ bytes.
        IsBlobOver K.start digest.now bytes.items)) }
    ensures none { IfOk result
        (λ found. IfNone found (GetsFirst K.start digest.now None)) }
    // Nothing is asked for the empty one, which is there.
    ensures some { IfOk result (λ found. IfNone found (digest.now ≢ empty_digest)) }
    ensures sure { OnErr result (digest.now ≢ empty_digest) }
    ensures fault { IfErr result (OrMemory (FailsGetBlob K.start
        (string_bytes server.now.address) digest.now)) }
{
    if *digest == Digest::empty() {
        return Ok(Some(Vec::new(alloc)));
    }
    match client.fetch(alloc, digest) {
        Ok(None) => Ok(None),
        Ok(Some(bytes)) => {
            if has_digest(&bytes, digest) {
                return Ok(Some(bytes));
            }
            Err(blob_error(alloc, server, digest, OTHER_BYTES)?)
        }
        Err(refusal) => Err(client.error(alloc, server, refusal)?),
    }
}

/// The note that the server has no such blob.
fn no_blob(alloc: Global, server: &ServerOptions, digest: &Digest) -> Result<Note, AllocError>
    ensures { IfOk result (λ note.
        NotesNoBlob (string_bytes server.now.address) digest.now (Some note)) }
{
    Ok(Note::NoBlob {
        server: String::from_str(alloc, server.address.as_str())?,
        digest: *digest,
    })
}

/// Prints the bytes of the blob of the digest, where the server at the other end of the connection
/// has it.
fn print_blob<S: Stream + Drop, K: Opened, O: Write>(
    alloc: Global,
    server: &ServerOptions,
    client: &mut Client<S, K, GetsAlone>,
    digest: &Digest,
    out: &mut O,
) -> Result<Ended, CommandError>
    requires start { K.start ≡ connection_of S.flow (remote_of client.old) }
    requires fresh { IsFresh (remote_of client.old) }
    ensures printed { IfOk result (Writes K.start (string_bytes server.now.address) digest.now
        (O.contents out.old) (O.contents out.new)) }
    ensures begun { OnErr result (BeginsBlob K.start digest.now
        (O.contents out.old) (O.contents out.new)) }
    ensures unprinted { IfErr result
        (λ fault. ¬ IsPrintFault fault → O.contents out.new ≡ O.contents out.old) }
    ensures fault { IfErr result (OrMemory (FailsGetBlob K.start
        (string_bytes server.now.address) digest.now)) }
{
    let Some(bytes) = get_blob(alloc, server, client, digest)? else {
        return Ok(Ended::No(Some(no_blob(alloc, server, digest)?)));
    };
    print_all(out, &bytes)?;
    Ok(Ended::Done)
}

/// Writes the blob, or its tree into the folder, that comes over the marked connection. Nothing but
/// GETs goes over it.
fn get_over<W: Inputs + Outputs, K: Opened, O: Write>(
    alloc: Global,
    world: &W,
    server: &ServerOptions,
    remote: Remote<W::Link, Global>,
    digest: &Digest,
    folder: Option<&str>,
    out: &mut O,
) -> Result<Ended, CommandError>
    requires start { K.start ≡ connection_of W.Link.flow remote }
    requires fresh { IsFresh remote }
    ensures got { IfOk result (IsGot (W.sees world.now) (option_map (λ s. s.now) folder.entry)
        K.start
        (string_bytes server.now.address) digest.now (O.contents out.old) (O.contents out.new)) }
    ensures begun { OnErr result (BeginsGot (W.sees world.now)
        (option_map (λ s. s.now) folder.entry) K.start
        digest.now (O.contents out.old) (O.contents out.new)) }
    ensures unprinted { IfErr result
        (λ fault. ¬ IsPrintFault fault → O.contents out.new ≡ O.contents out.old) }
    ensures fault { IfErr result (OrMemory (FailsGot (W.sees world.now)
        (option_map (λ s. s.now) folder.entry)
        K.start (string_bytes server.now.address) digest.now)) }
{
    let mut client: Client<W::Link, K, GetsAlone> = Client::new(remote);
    match folder {
        Some(folder) => get_tree(alloc, world, server, &mut client, digest, folder, out),
        None => print_blob(alloc, server, &mut client, digest, out),
    }
}

/// Writes the bytes of the blob whose digest the words spell, or its tree into the folder that they
/// name, where the server has all of it. By its bound it doesn't listen.
pub fn run_get<W: Inputs + Outputs, O: Write>(
    alloc: Global,
    world: &W,
    matches: &ArgMatches<'_>,
    out: &mut O,
) -> Result<Ended, CommandError>
    ensures answered { IfOk result (GetsAsked (W.sees world.now) (rows_of (found_of matches.now))
        (O.contents out.old) (O.contents out.new)) }
    // A refusal leaves no byte that isn't the blob's, or of the line of one that the server lacks.
    ensures begun { OnErr result (GetsPart (W.sees world.now) (rows_of (found_of matches.now))
        (O.contents out.old) (O.contents out.new)) }
    // Where it is for anything but the output, nothing was printed.
    ensures unprinted { IfErr result
        (λ fault. ¬ IsPrintFault fault → O.contents out.new ≡ O.contents out.old) }
    // It is for the first fault: what comes before it has none.
    ensures refused { IfErr result (FailsGet (W.sees world.now) (rows_of (found_of matches.now))) }
{
    let server = read_server(alloc, matches)?;
    let digest = read_digest(alloc, matches, "digest")?;
    let remote = open(alloc, world, &server)?;
    let folder = option_of(matches, "into");
    get_over::<W, Brand, O>(alloc, world, &server, remote, &digest, folder, out)
}
