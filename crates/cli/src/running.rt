ghost use Rattle.std.specs.Prelude.{◌≡◌, ◌<◌, ◌≤◌, IfErr, IfOk, OnErr, map, string_bytes};
ghost use Rattle.cli.specs.Built.{errors_asked};
ghost use Rattle.cli.specs.Ended.{AreFaulty, BeginsAsked, EndsNo, EndsRefused, Fails, IsDone};
ghost use Rattle.cli.specs.Running.{Ends, TellsEnd};
ghost use Rattle.command_lines.specs.CommandLine.{options_of};
ghost use Rattle.commands.specs.Refusal.{IsPrintFault};
ghost use Rattle.commands.specs.ServeRefused.{IsAcceptFault};

use crate::building::run_build;
use crate::showing::show;
use crate::workplace::Workplace;
use command_lines::parse;
use commands::{
    Archives, CommandError, Ended, Hosting, Inputs, Outputs, run_compare, run_digest, run_get,
    run_put, run_serve, run_verify, tell, tell_note,
};
use std::alloc::Global;
use std::io::Write;
use std::time::Clock;

/// Runs the program on these words. Its answers go to `out`. To `err` goes one line: for statuses 2
/// and 3 it begins `error: `, and for 1, where there is one, `note: `. The status: 0 done or yes, 1
/// no, 2 where the words or the texts that they name are at fault, 3 where a file, the output or
/// memory is. On a terminal, where there is one, `put` and `build` tell how far they are.
pub fn run_words<R, W, P: Workplace + Drop, O: Write, E: Write, T: Write + Drop>(
    rt: &R,
    world: &W,
    workplace: P,
    words: &[String],
    out: &mut O,
    err: &mut E,
    terminal: Option<T>,
) -> u8
where
    R: AllocGlobal + Clock + Clone + Drop,
    W: Inputs + Archives + Outputs + Hosting,
    ensures status { result < 4 }
    // With status 0 what the words ask for is done, and nothing else went to standard output.
    ensures done { result ≡ 0 → IsDone (W.sees world.now)
        (P.below workplace
        (errors_asked (options_of (map string_bytes words.now))))
        (map string_bytes words.now) (O.contents out.old) (O.contents out.new) }
    // With status 1, the line of their no, or of a build's refusal; or the blob that they name
    // isn't there. Standard error grew at most by the line of the note that belongs to it.
    ensures no { result ≡ 1 → EndsNo (W.sees world.now)
        (P.below workplace
        (errors_asked (options_of (map string_bytes words.now))))
        (map string_bytes words.now)
        (O.contents out.old) (O.contents out.new) (E.contents err.old) (E.contents err.new) }
    // With another status the first fault was told: standard error grew by one line that begins
    // `error: `, or by a beginning of it. Nothing was printed, unless it is of printing or serving.
    ensures refused { 2 ≤ result → EndsRefused (W.sees world.now)
        (P.below workplace
        (errors_asked (options_of (map string_bytes words.now))))
        (map string_bytes words.now) result
        (O.contents out.old) (O.contents out.new) (E.contents err.old) (E.contents err.new) }
    // With status 0 standard error stays as it was.
    ensures quiet { result ≡ 0 → E.contents err.new ≡ E.contents err.old }
    // With status 2 standard output stays as it was; so it does where the words are at fault.
    ensures unprinted { result ≡ 2 → O.contents out.new ≡ O.contents out.old }
    ensures silent { AreFaulty (map string_bytes words.now)
        → O.contents out.new ≡ O.contents out.old }
    // With another status than 0 and 1 what was printed is a beginning of what the words ask for.
    ensures begun { 2 ≤ result → BeginsAsked (W.sees world.now)
        (P.below workplace
        (errors_asked (options_of (map string_bytes words.now))))
        (map string_bytes words.now) (O.contents out.old) (O.contents out.new) }
{
    match run(rt, world, workplace, words, out, terminal) {
        Ok(ended) => tell_ended(rt.alloc(), &ended, err),
        Err(error) => {
            tell(rt.alloc(), &error, err);
            error.status()
        }
    }
}

/// The status of an answer. What a no doesn't say is told in a note.
fn tell_ended<E: Write>(alloc: Global, ended: &Ended, err: &mut E) -> u8
    ensures { TellsEnd ended.now result (E.contents err.old) (E.contents err.new) }
{
    match ended {
        Ended::Done => 0,
        Ended::No(None) => 1,
        Ended::No(Some(note)) => {
            tell_note(alloc, note, err);
            1
        }
    }
}

fn run<R, W, P: Workplace + Drop, O: Write, T: Write + Drop>(
    rt: &R,
    world: &W,
    workplace: P,
    words: &[String],
    out: &mut O,
    terminal: Option<T>,
) -> Result<Ended, CommandError>
where
    R: AllocGlobal + Clock + Clone + Drop,
    W: Inputs + Archives + Outputs + Hosting,
    ensures ended { IfOk result (Ends (W.sees world.now)
        (P.below workplace
        (errors_asked (options_of (map string_bytes words.now))))
        (map string_bytes words.now) (O.contents out.old) (O.contents out.new)) }
    ensures refused { IfErr result (Fails (W.sees world.now)
        (P.below workplace
        (errors_asked (options_of (map string_bytes words.now))))
        (map string_bytes words.now)) }
    ensures unprinted { IfErr result (λ fault. ¬ IsPrintFault fault → ¬ IsAcceptFault fault
        → O.contents out.new ≡ O.contents out.old) }
    ensures silent { AreFaulty (map string_bytes words.now)
        → O.contents out.new ≡ O.contents out.old }
    ensures begun { OnErr result (BeginsAsked (W.sees world.now)
        (P.below workplace
        (errors_asked (options_of (map string_bytes words.now))))
        (map string_bytes words.now) (O.contents out.old) (O.contents out.new)) }
{
    let matches = match parse(rt.alloc(), words) {
        Ok(matches) => matches,
        Err(error) => {
            show(rt.alloc(), words, error, out)?;
            return Ok(Ended::Done);
        }
    };
    // Words that aren't at fault call one of these.
    let Some((command, inner)) = matches.subcommand() else {
        unreachable!()
    };
    match command {
        "verify" => Ok(run_verify(rt.alloc(), world, inner, out)?),
        "compare" => Ok(run_compare(rt.alloc(), world, inner, out)?),
        "put" => {
            run_put(rt, world, inner, out, terminal)?;
            Ok(Ended::Done)
        }
        "get" => Ok(run_get(rt.alloc(), world, inner, out)?),
        "digest" => {
            run_digest(rt.alloc(), world, inner, out)?;
            Ok(Ended::Done)
        }
        "serve" => {
            run_serve(rt.alloc(), world, inner, out)?;
            Ok(Ended::Done)
        }
        "build" => Ok(run_build(rt.alloc(), world, workplace, inner, out, terminal)?),
        _ => unreachable!(),
    }
}
