ghost use Rattle.std.specs.Prelude.{◌≡◌, ◌⊎◌, ◌+◌, ◌∷◌, ◌++◌, [], IfErr, IfOk, OnErr, OnOk};
ghost use Rattle.std.specs.Prelude.{min, string_bytes};
ghost use Rattle.std.specs.Io.KnownBytes.{Appends};
ghost use Rattle.blob_digest.specs.Digest.{digest_of};
ghost use Rattle.blob_digest.specs.Text.{digest_text};
ghost use Rattle.clap.specs.Words.{found_of, rows_of};
ghost use Rattle.commands.specs.Client.{connection};
ghost use Rattle.commands.specs.Places.{IsFresh};
ghost use Rattle.commands.specs.Printed.{BeginsDigest, PrintsDigest};
ghost use Rattle.commands.specs.Put.{PutsNext, PutsPath};
ghost use Rattle.commands.specs.PutRefused.{FailsBelow, FailsPut, RefusesPut};
ghost use Rattle.commands.specs.ReadRefused.{FailsFile};
ghost use Rattle.commands.specs.Faults.{OrMemory};
ghost use Rattle.commands.specs.Refusal.{IsPrintFault};
ghost use Rattle.commands.specs.Told.{AppendsBeginning};
ghost use Rattle.commands.specs.Walked.{TakesFile};
ghost use Rattle.remote.specs.Remote.{connection_of};

use crate::client::{Client, Opened, PutsBlobs, open};
use crate::connecting::{ServerOptions, read_server};
use crate::error::CommandError;
use crate::printing::print_all;
use crate::progress::{Counter, PutProgress};
use crate::walking::{Taker, Walker};
use crate::world::Inputs;
use blob_digest::Digest;
use clap::ArgMatches;
use command_lines::text_of;
use remote::{Remote, Stream};
use std::alloc::Global;
use std::io::Write;
use std::marker::Brand;
use std::time::Clock;

/// Puts the bytes of a file over a client, and counts the file; gives their digest.
fn put_file<S: Stream + Drop, K: Opened, P: Counter>(
    alloc: Global,
    server: &ServerOptions,
    client: &mut Client<S, K, PutsBlobs>,
    progress: &mut P,
    bytes: &[u8],
) -> Result<Digest, CommandError>
    ensures named { IfOk result (λ digest. digest ≡ digest_of bytes.now) }
    ensures taken { OnOk result
        (PutsNext (connection client.old) (connection client.new) bytes.now) }
    ensures refused { IfErr result (OrMemory (λ e. RefusesPut (connection client.old)
        (string_bytes server.now.address) bytes.now e)) }
    ensures counted { OnOk result
        (P.files progress.new ≡ min (P.files progress.old + 1) 18446744073709551615) }
    ensures sized { IfOk result (λ digest. P.size progress.new
        ≡ min (P.size progress.old + digest.size) 18446744073709551615) }
    ensures uncounted { OnErr result (progress.new ≡ progress.old) }
{
    let digest = client.put(alloc, server, bytes)?;
    progress.count(digest.size());
    Ok(digest)
}

/// Puts each blob over a client, and counts the files. It is no `Drop`, as what counts isn't.
struct Putter<S: Stream + Drop, K: Opened, P: Counter> {
    server: ServerOptions,
    client: Client<S, K, PutsBlobs>,
    progress: P,
}

impl<S: Stream + Drop, K: Opened, P: Counter> Taker for Putter<S, K, P> {
    ghost use Rattle.commands.specs.Putting.{address_of_putter, connection_of_putter};
    ghost use Rattle.commands.specs.Put.{PutsRead};
    ghost use Rattle.commands.specs.Read.{bytes_in};

    ghost takes = { λ old new blob.
        PutsRead (connection_of_putter old) (connection_of_putter new) blob
        × (address_of_putter new ≡ address_of_putter old) };

    ghost refuses = { λ old blob e.
        RefusesPut (connection_of_putter old) (address_of_putter old) (bytes_in blob) e };

    fn take(&mut self, alloc: Global, blob: &[u8]) -> Result<Digest, CommandError> {
        self.client.put(alloc, &self.server, blob)
    }

    fn take_file<W: Inputs>(
        &mut self,
        alloc: Global,
        world: &W,
        place: &str,
    ) -> Result<Digest, CommandError> {
        let bytes = world.read(alloc, place)?;
        let progress = &mut self.progress;
        put_file(alloc, &self.server, &mut self.client, progress, &bytes)
    }
}

/// Puts what stands at the path, over the marked connection; gives its digest, and what counted.
fn put_over<W: Inputs, K: Opened, P: Counter>(
    alloc: Global,
    world: &W,
    server: ServerOptions,
    remote: Remote<W::Link, Global>,
    progress: P,
    place: String,
) -> (Result<Digest, CommandError>, P)
    requires start { K.start ≡ connection_of W.Link.flow remote }
    requires fresh { IsFresh remote }
    ensures put { IfOk result.0 (PutsPath (W.sees world.now) K.start (string_bytes place)) }
    ensures refused { IfErr result.0 (OrMemory (λ e. FailsBelow (W.sees world.now)
        (string_bytes server.address) e 64 (string_bytes place) K.start)) }
{
    let client: Client<W::Link, K, PutsBlobs> = Client::new(remote);
    let mut putter = Putter {
        server,
        client,
        progress,
    };
    let walker = Walker {
        alloc,
        world,
        bits: false,
    };
    let put = walker.read_path(&mut putter, place.as_str());
    let Putter {
        server: _server,
        client: _client,
        progress,
    } = putter;
    (put, progress)
}

/// Prints the line of a digest.
pub(crate) fn print_digest<O: Write>(
    alloc: Global,
    digest: &Digest,
    out: &mut O,
) -> Result<(), CommandError>
    ensures printed { OnOk result
        (Appends (O.contents out.old) (O.contents out.new) (digest_text digest.now ++ 10 ∷ [])) }
    ensures begun { OnErr result ((O.contents out.new ≡ O.contents out.old)
        ⊎ AppendsBeginning (O.contents out.old) (O.contents out.new)
        (digest_text digest.now ++ 10 ∷ [])) }
    ensures unprinted { IfErr result
        (λ fault. ¬ IsPrintFault fault → O.contents out.new ≡ O.contents out.old) }
    ensures fault { IfErr result (OrMemory IsPrintFault) }
{
    let mut line = digest.write_text(alloc)?;
    line.push('\n')?;
    print_all(out, line.as_bytes())
}

/// Puts the file or the folder that the words name, and prints its digest. On a terminal it tells
/// how far it is, until it ends. By its bound it writes no file, and doesn't listen.
pub fn run_put<R, W: Inputs, O: Write, T: Write + Drop>(
    rt: &R,
    world: &W,
    matches: &ArgMatches<'_>,
    out: &mut O,
    terminal: Option<T>,
) -> Result<(), CommandError>
where
    R: AllocGlobal + Clock + Clone + Drop,
    ensures printed { OnOk result
        (PrintsDigest (W.sees world.now) (rows_of (found_of matches.now))
        (O.contents out.old) (O.contents out.new)) }
    // A refusal leaves no byte that isn't of that line.
    ensures begun { OnErr result (BeginsDigest (W.sees world.now) (rows_of (found_of matches.now))
        (O.contents out.old) (O.contents out.new)) }
    // Where it is for anything but the output, nothing was printed.
    ensures unprinted { IfErr result
        (λ fault. ¬ IsPrintFault fault → O.contents out.new ≡ O.contents out.old) }
    // It is for the first fault: what comes before it has none.
    ensures refused { IfErr result (FailsPut (W.sees world.now) (rows_of (found_of matches.now))) }
{
    let alloc = rt.alloc();
    let server = read_server(alloc, matches)?;
    let place = String::from_str(alloc, text_of(matches, "path"))?;
    let remote = open(alloc, world, &server)?;
    let progress = PutProgress::new(rt, terminal)?;
    let (put, mut progress) = put_over::<W, Brand, PutProgress<R, T>>(
        alloc, world, server, remote, progress, place,
    );
    progress.clear();
    progress.end();
    let digest = put?;
    print_digest(alloc, &digest, out)?;
    Ok(())
}
