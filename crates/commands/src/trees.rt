ghost use Rattle.std.specs.Prelude.{◌≡◌, ◌⊎◌, IfErr, IfOk, OnErr, OnOk, string_bytes};
ghost use Rattle.std.specs.Io.KnownBytes.{Appends};
ghost use Rattle.commands.specs.Client.{remote_of};
ghost use Rattle.commands.specs.Faults.{OrMemory};
ghost use Rattle.commands.specs.GetRefused.{FailsGetTree, TellsCheckout};
ghost use Rattle.commands.specs.Places.{IsFresh};
ghost use Rattle.commands.specs.Refusal.{IsPrintFault};
ghost use Rattle.commands.specs.Told.{AppendsBeginning};
ghost use Rattle.commands.specs.Trees.{BeginsLack, IsTreeGot, PrintsLack, missing_line};

use crate::client::{Client, GetsAlone, Opened};
use crate::connecting::ServerOptions;
use crate::ended::Ended;
use crate::error::{CommandError, OTHER_BYTES, blob_error};
use crate::printing::print_all;
use crate::world::{Inputs, Outputs};
use blob_digest::Digest;
use checkout::CheckoutError;
use remote::Stream;
use std::alloc::{AllocError, Global};
use std::io::Write;
use text_verifier::Lack;
use tree::FetchError;

/// What is said of a blob that stands for a tree and is none.
const NO_DIRECTORY: &str = "not a Directory; leave out --into to get a file's bytes";

/// The line of a blob that a server lacks.
fn missing_line(alloc: Global, digest: &Digest) -> Result<String, AllocError>
    ensures { IfOk result (λ line. string_bytes line ≡ missing_line digest.now) }
{
    let text = digest.write_text(alloc)?;
    format!(in alloc; "missing {text}\n")
}

/// Prints the line of a blob that a server lacks.
fn print_missing<O: Write>(alloc: Global, digest: &Digest, out: &mut O) -> Result<(), CommandError>
    ensures printed { OnOk result
        (Appends (O.contents out.old) (O.contents out.new) (missing_line digest.now)) }
    ensures begun { OnErr result ((O.contents out.new ≡ O.contents out.old)
        ⊎ AppendsBeginning (O.contents out.old) (O.contents out.new) (missing_line digest.now)) }
    ensures fault { IfErr result (OrMemory IsPrintFault) }
    ensures unprinted { IfErr result
        (λ fault. ¬ IsPrintFault fault → O.contents out.new ≡ O.contents out.old) }
{
    let line = missing_line(alloc, digest)?;
    print_all(out, line.as_bytes())
}

/// Prints the line of a blob that the server lacks, where that is why a tree wasn't written; else
/// the error says why.
fn print_lack<S: Stream + Drop, K: Opened, O: Write>(
    alloc: Global,
    server: &ServerOptions,
    client: &mut Client<S, K, GetsAlone>,
    error: CheckoutError<Global>,
    out: &mut O,
) -> Result<(), CommandError>
    ensures printed { OnOk result
        (PrintsLack K.start error (Appends (O.contents out.old) (O.contents out.new))) }
    ensures begun { OnErr result ((O.contents out.new ≡ O.contents out.old)
        ⊎ PrintsLack K.start error (AppendsBeginning (O.contents out.old) (O.contents out.new))) }
    ensures fault { IfErr result
        (OrMemory (TellsCheckout K.start (string_bytes server.now.address) error)) }
    ensures unprinted { IfErr result
        (λ fault. ¬ IsPrintFault fault → O.contents out.new ≡ O.contents out.old) }
{
    match error {
        CheckoutError::Missing(lacked) => {
            client.confirm(alloc, server, &Lack::Blob(lacked))?;
            print_missing(alloc, &lacked, out)
        }
        CheckoutError::Place { path, fault } => Err(CommandError::File { path, fault }),
        CheckoutError::Fetch => Err(client.error(alloc, server, FetchError::Failed)?),
        CheckoutError::Wrong(digest) => Err(blob_error(alloc, server, &digest, OTHER_BYTES)?),
        CheckoutError::Malformed(digest) => Err(blob_error(alloc, server, &digest, NO_DIRECTORY)?),
        CheckoutError::TooDeep(path) => Err(CommandError::Entry {
            path: String::from_str(alloc, path.as_str())?,
            fault: "a path of more than 64 names",
        }),
        CheckoutError::Memory => Err(CommandError::Memory),
    }
}

/// Writes the tree with the digest into a folder that isn't there or is empty, where the server has
/// all of it. The line of a blob that it lacks is printed, and what was written before stays.
pub(crate) fn get_tree<W: Inputs + Outputs, K: Opened, O: Write>(
    alloc: Global,
    world: &W,
    server: &ServerOptions,
    client: &mut Client<W::Link, K, GetsAlone>,
    digest: &Digest,
    folder: &str,
    out: &mut O,
) -> Result<Ended, CommandError>
    requires fresh { IsFresh (remote_of client.old) }
    ensures got { IfOk result (IsTreeGot (W.sees world.now) K.start digest.now folder.now
        (O.contents out.old) (O.contents out.new)) }
    ensures begun { OnErr result (BeginsLack (W.sees world.now) K.start digest.now folder.now
        (O.contents out.old) (O.contents out.new)) }
    ensures fault { IfErr result (OrMemory (FailsGetTree (W.sees world.now) K.start
        (string_bytes server.now.address) digest.now folder.now)) }
    ensures unprinted { IfErr result
        (λ fault. ¬ IsPrintFault fault → O.contents out.new ≡ O.contents out.old) }
{
    match world.check_out(alloc, folder, digest, client) {
        Ok(()) => Ok(Ended::Done),
        Err(error) => {
            print_lack(alloc, server, client, error, out)?;
            Ok(Ended::No(None))
        }
    }
}
