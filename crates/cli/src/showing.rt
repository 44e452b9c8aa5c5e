ghost use Rattle.std.specs.Prelude.{◌≡◌, ◌++◌, ℕ, List, IfErr, IfOk, OnErr, OnOk, map};
ghost use Rattle.std.specs.Prelude.{string_bytes};
ghost use Rattle.std.specs.Io.KnownBytes.{Appends};
ghost use Rattle.clap.specs.Words.{HasKind, fault_of};
ghost use Rattle.cli.specs.Ended.{BeginsShown, FailsInWords, ShowsAsked, WantsHelp, WantsVersion};
ghost use Rattle.cli.specs.Help.{IsTip};
ghost use Rattle.command_lines.specs.CommandLine.{program_line};
ghost use Rattle.commands.specs.Refusal.{IsPrintFault};
ghost use Rattle.commands.specs.Told.{AppendsBeginning};

use crate::help::help_asked;
use clap::error::{Error, ErrorKind};
use commands::{CommandError, print_all};
use std::alloc::{AllocError, Global};
use std::io::Write;

const VERSION_LINE: &str = "buildcache 0.2.0\n";

/// What clap answers in place of matches: help and the version are printed, and a mistake is told.
pub(crate) fn show<O: Write>(
    alloc: Global,
    words: &[String],
    error: Error,
    out: &mut O,
) -> Result<(), CommandError>
    requires { HasKind (fault_of program_line (map string_bytes words.now)) error }
    ensures shown { OnOk result
        (ShowsAsked (map string_bytes words.now) (O.contents out.old) (O.contents out.new)) }
    ensures begun { OnErr result
        (BeginsShown (map string_bytes words.now) (O.contents out.old) (O.contents out.new)) }
    ensures fault { IfErr result (FailsInWords (map string_bytes words.now)) }
    ensures silent { ¬ WantsHelp (map string_bytes words.now)
        → ¬ WantsVersion (map string_bytes words.now) → O.contents out.new ≡ O.contents out.old }
    ensures unprinted { IfErr result
        (λ fault. ¬ IsPrintFault fault → O.contents out.new ≡ O.contents out.old) }
{
    match error.kind() {
        ErrorKind::OutOfMemory => Err(CommandError::Memory),
        ErrorKind::DisplayHelp => print(help_asked(words), out),
        ErrorKind::DisplayVersion => print(VERSION_LINE, out),
        kind => {
            let text = error.to_string(alloc)?;
            let told = mistake_line(alloc, text.as_str(), tip_on(kind))?;
            Err(CommandError::Usage(told))
        }
    }
}

fn print<O: Write>(text: &str, out: &mut O) -> Result<(), CommandError>
    ensures printed { OnOk result
        (Appends (O.contents out.old) (O.contents out.new) text.now) }
    ensures begun { OnErr result
        (AppendsBeginning (O.contents out.old) (O.contents out.new) text.now) }
    ensures fault { IfErr result IsPrintFault }
{
    print_all(out, text.as_bytes())
}

/// What clap doesn't say.
fn tip_on(kind: ErrorKind) -> &'static str
    ensures { IsTip kind result.now }
{
    match kind {
        ErrorKind::InvalidSubcommand => "; tip: '--help' prints the commands",
        _ => "",
    }
}

/// The mistake in one line: clap's text without its usage, what it takes for meant, and the tip.
fn mistake_line(alloc: Global, text: &str, tip: &str) -> Result<String, AllocError>
    ensures { IfOk result (λ told. (said : List ℕ) × (string_bytes told ≡ said ++ tip.now)) }
{
    let mut told = String::new(alloc);
    let text = text.strip_prefix("error: ").unwrap_or(text);
    for line in text.lines().take_while(|line| !line.starts_with("Usage: ")
        && !line.starts_with("For more "))
    {
        let line = line.trim();
        if line.starts_with("tip: ") {
            told.push(';')?;
        }
        if !line.is_empty() && !told.is_empty() {
            told.push(' ')?;
        }
        told.push_str(line)?;
    }
    told.push_str(tip)?;
    Ok(told)
}
