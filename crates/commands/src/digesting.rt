ghost use Rattle.std.specs.Prelude.{◌≡◌, IfErr, IfOk, OnErr, OnOk};
ghost use Rattle.clap.specs.Words.{found_of, rows_of};
ghost use Rattle.commands.specs.Digested.{BeginsDigestRead, FailsDigest, PrintsDigestRead};
ghost use Rattle.commands.specs.Digested.{reads_bits};
ghost use Rattle.commands.specs.Refusal.{IsPrintFault};

use crate::error::CommandError;
use crate::options::{Options, text_for};
use crate::putting::print_digest;
use crate::walking::{Taker, Walker};
use crate::world::Inputs;
use blob_digest::Digest;
use clap::ArgMatches;
use std::alloc::Global;
use std::io::Write;

/// Takes every blob and keeps none. A file is hashed in pieces.
#[derive(Drop)]
pub(crate) struct KeepsNone;

impl Taker for KeepsNone {
    ghost takes = { λ _ _ _. Unit {0} };

    ghost refuses = { λ _ _ _. ⊥ };

    fn take(&mut self, _alloc: Global, blob: &[u8]) -> Result<Digest, CommandError> {
        Ok(Digest::of(blob))
    }

    fn take_file<W: Inputs>(
        &mut self,
        alloc: Global,
        world: &W,
        place: &str,
    ) -> Result<Digest, CommandError> {
        Ok(world.digest(alloc, place)?)
    }
}

/// Whether executable bits are read.
pub(crate) fn reads_bits<M: Options>(options: &M) -> bool
    ensures { result ≡ reads_bits (M.rows options.now) }
{
    text_for(options, "no-bits") != "true"
}

/// Prints the digest of the file or the tree at the path that the words name. By its bound it
/// writes no file, and doesn't listen.
pub fn run_digest<W: Inputs, O: Write>(
    alloc: Global,
    world: &W,
    matches: &ArgMatches<'_>,
    out: &mut O,
) -> Result<(), CommandError>
    ensures printed { OnOk result (PrintsDigestRead (W.sees world.now)
        (rows_of (found_of matches.now)) (O.contents out.old) (O.contents out.new)) }
    // A refusal leaves no byte that isn't of that line.
    ensures begun { OnErr result (BeginsDigestRead (W.sees world.now)
        (rows_of (found_of matches.now)) (O.contents out.old) (O.contents out.new)) }
    // Where it is for anything but the output, nothing was printed.
    ensures unprinted { IfErr result
        (λ fault. ¬ IsPrintFault fault → O.contents out.new ≡ O.contents out.old) }
    // It is for the first fault: what comes before it has none.
    ensures refused { IfErr result
        (FailsDigest (W.sees world.now) (rows_of (found_of matches.now))) }
{
    let walker = Walker {
        alloc,
        world,
        bits: reads_bits(matches),
    };
    let digest = walker.read_path(&mut KeepsNone, text_for(matches, "path"))?;
    print_digest(alloc, &digest, out)
}
