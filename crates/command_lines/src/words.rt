ghost use Rattle.std.specs.Prelude.{◌≡◌, IfOk, map, string_bytes, false};
ghost use Rattle.clap.specs.Words.{FailsBy, app_of, fault_of, rule_of, subcommand_of};
ghost use Rattle.clap.specs.Words.{subcommand_rows_of};
ghost use Rattle.command_lines.specs.CommandLine.{flag, optional_option, optional_word};
ghost use Rattle.command_lines.specs.CommandLine.{required_option, required_word};
ghost use Rattle.command_lines.specs.CommandLine.{build_line, client_line, compare_line};
ghost use Rattle.command_lines.specs.CommandLine.{digest_line, get_line};
ghost use Rattle.command_lines.specs.CommandLine.{placed_line, program_line, put_line};
ghost use Rattle.command_lines.specs.CommandLine.{serve_line, verify_line};

use clap::{Arg, ArgAction, ArgMatches, Command, Error};
use std::alloc::{AllocError, Global};

/// An option.
fn optional<'a>(alloc: Global, name: &'static str, value: &'static str) -> Arg<'a>
    ensures rule { rule_of result ≡ optional_option name.now }
    ensures local { result.global ≡ false }
{
    Arg::new(alloc, name)
        .long(name)
        .value_name(value)
        .action(ArgAction::Set)
}

/// An option that a command cannot do without.
fn required<'a>(alloc: Global, name: &'static str, value: &'static str) -> Arg<'a>
    ensures rule { rule_of result ≡ required_option name.now }
    ensures local { result.global ≡ false }
{
    Arg::new(alloc, name)
        .long(name)
        .value_name(value)
        .required(true)
        .action(ArgAction::Set)
}

/// A word on its own.
fn optional_word<'a>(alloc: Global, name: &'static str, value: &'static str) -> Arg<'a>
    ensures rule { rule_of result ≡ optional_word name.now }
    ensures local { result.global ≡ false }
{
    Arg::new(alloc, name)
        .value_name(value)
        .action(ArgAction::Set)
}

/// A word on its own, that a command cannot do without.
fn word<'a>(alloc: Global, name: &'static str, value: &'static str) -> Arg<'a>
    ensures rule { rule_of result ≡ required_word name.now }
    ensures local { result.global ≡ false }
{
    Arg::new(alloc, name)
        .value_name(value)
        .required(true)
        .action(ArgAction::Set)
}

/// An option that is given or not, and has no text.
fn flag<'a>(alloc: Global, name: &'static str) -> Arg<'a>
    ensures rule { rule_of result ≡ flag name.now }
    ensures local { result.global ≡ false }
{
    Arg::new(alloc, name).long(name).action(ArgAction::SetTrue)
}

/// `verify` with the options that say where the recorded build is.
fn placed_command<'a>(alloc: Global) -> Result<Command<'a>, AllocError>
    ensures { IfOk result (λ c. app_of c ≡ placed_line) }
{
    Command::new(alloc, "verify")
        .arg(optional(alloc, "server", "ADDR"))?
        .arg(optional(alloc, "store", "FOLDER"))?
        .arg(optional(alloc, "results", "FOLDER"))?
        .arg(optional(alloc, "prefix", "P"))?
        .arg(optional(alloc, "timeout", "SECONDS"))
}

fn verify_command<'a>(alloc: Global) -> Result<Command<'a>, AllocError>
    ensures { IfOk result (λ c. app_of c ≡ verify_line) }
{
    placed_command(alloc)?
        .arg(optional(alloc, "sources", "DIGEST"))?
        .arg(optional(alloc, "plan", "FILE"))?
        .arg(optional(alloc, "record", "FILE"))?
        .arg(optional(alloc, "claim", "DIGEST"))?
        .arg(optional(alloc, "artifact", "FOLDER"))?
        .arg(optional(alloc, "keep", "FILE"))?
        .arg(flag(alloc, "no-bits"))?
        .arg(optional_word(alloc, "evidence", "EVIDENCE"))
}

fn serve_command<'a>(alloc: Global) -> Result<Command<'a>, AllocError>
    ensures { IfOk result (λ c. app_of c ≡ serve_line) }
{
    Command::new(alloc, "serve")
        .arg(required(alloc, "listen", "ADDR"))?
        .arg(required(alloc, "limit", "BYTES"))?
        .arg(required(alloc, "result-limit", "BYTES"))?
        .arg(optional(alloc, "prefix", "P"))?
        .arg(optional(alloc, "idle", "SECONDS"))?
        .arg(optional(alloc, "at-once", "N"))?
        .arg(optional(alloc, "connections", "N"))
}

/// A command that asks a server.
fn client<'a>(alloc: Global, name: &'static str) -> Result<Command<'a>, AllocError>
    ensures { IfOk result (λ c. app_of c ≡ client_line name.now) }
{
    Command::new(alloc, name)
        .arg(required(alloc, "server", "ADDR"))?
        .arg(optional(alloc, "prefix", "P"))?
        .arg(optional(alloc, "timeout", "SECONDS"))
}

fn put_command<'a>(alloc: Global) -> Result<Command<'a>, AllocError>
    ensures { IfOk result (λ c. app_of c ≡ put_line) }
{
    client(alloc, "put")?.arg(word(alloc, "path", "PATH"))
}

fn digest_command<'a>(alloc: Global) -> Result<Command<'a>, AllocError>
    ensures { IfOk result (λ c. app_of c ≡ digest_line) }
{
    Command::new(alloc, "digest")
        .arg(flag(alloc, "no-bits"))?
        .arg(word(alloc, "path", "PATH"))
}

fn compare_command<'a>(alloc: Global) -> Result<Command<'a>, AllocError>
    ensures { IfOk result (λ c. app_of c ≡ compare_line) }
{
    Command::new(alloc, "compare")
        .arg(word(alloc, "evidence", "EVIDENCE"))?
        .arg(word(alloc, "other", "EVIDENCE"))
}

fn get_command<'a>(alloc: Global) -> Result<Command<'a>, AllocError>
    ensures { IfOk result (λ c. app_of c ≡ get_line) }
{
    client(alloc, "get")?
        .arg(word(alloc, "digest", "DIGEST"))?
        .arg(optional(alloc, "into", "FOLDER"))
}

fn build_command<'a>(alloc: Global) -> Result<Command<'a>, AllocError>
    ensures { IfOk result (λ c. app_of c ≡ build_line) }
{
    client(alloc, "build")?
        .arg(required(alloc, "sources", "DIGEST"))?
        .arg(required(alloc, "plan", "FILE"))?
        .arg(required(alloc, "record", "FILE"))?
        .arg(required(alloc, "work", "FOLDER"))?
        .arg(optional(alloc, "jobs", "J"))?
        .arg(flag(alloc, "verbose"))
}

fn program<'a>(alloc: Global) -> Result<Command<'a>, AllocError>
    ensures { IfOk result (λ c. app_of c ≡ program_line) }
{
    Command::new(alloc, "buildcache")
        .bin_name("buildcache")?
        // Clap has it to know of `--version`; what is shown is another crate's.
        .version("")
        .no_binary_name(true)
        .subcommand_required(true)
        .disable_help_subcommand(true)
        .subcommand(serve_command(alloc)?)?
        .subcommand(verify_command(alloc)?)?
        .subcommand(put_command(alloc)?)?
        .subcommand(get_command(alloc)?)?
        .subcommand(digest_command(alloc)?)?
        .subcommand(build_command(alloc)?)?
        .subcommand(compare_command(alloc)?)
}

/// The program's words, read.
pub fn parse<'a>(alloc: Global, words: &'a [String]) -> Result<ArgMatches<'a>, Error>
    // The subcommand that they call, and what was found for its options.
    ensures called { IfOk result
        (λ m. subcommand_rows_of m ≡ subcommand_of program_line (map string_bytes words.now)) }
    // What they are at fault with, or ask for in place of a command.
    ensures fails { FailsBy (fault_of program_line (map string_bytes words.now)) result }
{
    program(alloc)?.try_get_matches_from(words)
}
