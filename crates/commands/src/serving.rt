ghost use Rattle.std.specs.Prelude.{◌≡◌, ◌⊎◌, ◌≤◌, ◌<◌, ◌^◌, ◌∷◌, [], IfErr, IfOk, OnErr, OnOk};
ghost use Rattle.std.specs.Prelude.{codes};
ghost use Rattle.std.specs.Io.KnownBytes.{Appends};
ghost use Rattle.clap.specs.Words.{found_of, rows_of};
ghost use Rattle.command_lines.specs.CommandLine.{option_text};
ghost use Rattle.commands.specs.ByteCounts.{SpellsBytes};
ghost use Rattle.commands.specs.Options.{IsNumber, decimal_number, number_or};
ghost use Rattle.commands.specs.Printed.{BeginsListening, IsServeRequest, PrintsListening};
ghost use Rattle.commands.specs.Printed.{ServesAsked, at_once_of, listening_line, usual_at_once};
ghost use Rattle.commands.specs.Faults.{OrMemory};
ghost use Rattle.commands.specs.Refusal.{IsPrintFault};
ghost use Rattle.commands.specs.ServeRefused.{FailsForRandom, FailsServe, FailsToListen};
ghost use Rattle.commands.specs.ServeRefused.{IsAcceptFault};
ghost use Rattle.commands.specs.Told.{AppendsBeginning};
ghost use Rattle.commands.specs.Words.{IsCheckedBy, has_number_up_to, is_at_once, is_limit};
ghost use Rattle.commands.specs.Words.{listens_at, may_have_number_up_to, serve_words};

use crate::byte_counts::bytes_up_to;
use crate::connecting::read_prefix;
use crate::error::CommandError;
use crate::options::{invalid_value, is_address, number_in};
use crate::printing::print_all;
use crate::world::{Hosting, Listening, Service};
use cache_server::Cache;
use clap::ArgMatches;
use command_lines::{option_of, text_of};
use http_core::Prefix;
use std::alloc::Global;
use std::hash::RandomState;
use std::io::Write;
use std::net::SocketAddr;

/// The most bytes to which a store is limited.
const GREATEST_LIMIT: u64 = 9_223_372_036_854_775_807;

/// What is expected of an option that limits a store.
const LIMIT_EXPECTED: &str =
    "a number of bytes up to 9223372036854775807, such as 1048576, 512M or 8G";

/// For how many seconds a connection may be silent, where nothing else is said.
const IDLE_SECONDS: u64 = 60;

/// The most connections that are served at a time.
const GREATEST_AT_ONCE: u64 = 1024;

/// How many a server that serves without end has at a time, where nothing else is said: more than
/// the hundred that one Bazel opens.
const USUAL_AT_ONCE: usize = 256;

/// What the words of `serve` ask for.
#[derive(Drop)]
struct ServeRequest<'a> {
    address: &'a str,
    connections: u64,
    limit: u64,
    result_limit: u64,
    idle: u64,
    at_once: usize,
    prefix: Prefix<Global>,
}

/// The number of an option, at most the greatest.
fn read_number(
    alloc: Global,
    matches: &ArgMatches<'_>,
    option: &'static str,
    greatest: u64,
) -> Result<u64, CommandError>
    ensures few { IfOk result (λ number. number ≤ greatest) }
    ensures number { IfOk result (λ number.
        IsNumber (option_text (rows_of (found_of matches.now)) option.now)
        × (number ≡ decimal_number (option_text (rows_of (found_of matches.now)) option.now))) }
    ensures checked { IsCheckedBy
        (has_number_up_to (rows_of (found_of matches.now)) option.now greatest ∷ []) result }
{
    let text = text_of(matches, option);
    match number_in(text) {
        Some(number) if number <= greatest => Ok(number),
        _ => Err(CommandError::Number {
            option,
            greatest,
            text: String::from_str(alloc, text)?,
        }),
    }
}

/// The bytes to which an option limits a store.
fn read_limit(
    alloc: Global,
    matches: &ArgMatches<'_>,
    option: &'static str,
) -> Result<u64, CommandError>
    ensures few { IfOk result (λ limit. limit < 2 ^ 63) }
    ensures limit { IfOk result
        (SpellsBytes (option_text (rows_of (found_of matches.now)) option.now)) }
    ensures checked { IsCheckedBy
        (is_limit (rows_of (found_of matches.now)) option.now ∷ []) result }
{
    let text = text_of(matches, option);
    match bytes_up_to(text, GREATEST_LIMIT) {
        Some(limit) => Ok(limit),
        None => Err(invalid_value(alloc, option, LIMIT_EXPECTED, text)?),
    }
}

/// Where the words say to listen.
fn read_address<'a>(alloc: Global, matches: &ArgMatches<'a>) -> Result<&'a str, CommandError>
    ensures address { IfOk result (λ address.
        address.now ≡ option_text (rows_of (found_of matches.now)) (codes "listen")) }
    ensures checked { IsCheckedBy (listens_at (rows_of (found_of matches.now)) ∷ []) result }
{
    let text = text_of(matches, "listen");
    if is_address(text) {
        Ok(text)
    } else {
        Err(invalid_value(alloc, "listen", "HOST:PORT", text)?)
    }
}

/// The number of an option, at most the greatest, or the usual one where nothing is said of it.
fn read_number_or(
    alloc: Global,
    matches: &ArgMatches<'_>,
    option: &'static str,
    greatest: u64,
    usual: u64,
) -> Result<u64, CommandError>
    ensures number { IfOk result (λ number.
        number ≡ number_or usual (rows_of (found_of matches.now)) option.now) }
    ensures checked { IsCheckedBy
        (may_have_number_up_to (rows_of (found_of matches.now)) option.now greatest ∷ []) result }
{
    match option_of(matches, option) {
        Some(_) => read_number(alloc, matches, option, greatest),
        None => Ok(usual),
    }
}

/// How many connections are served at a time, where nothing is said of it.
fn usual_at_once(matches: &ArgMatches<'_>) -> usize
    ensures { result ≡ usual_at_once (rows_of (found_of matches.now)) }
{
    match option_of(matches, "connections") {
        Some(_) => 1,
        None => USUAL_AT_ONCE,
    }
}

/// The number of `--at-once`, at least 1.
fn read_at_once(alloc: Global, matches: &ArgMatches<'_>) -> Result<usize, CommandError>
    ensures at_once { IfOk result (λ at_once.
        at_once ≡ at_once_of (rows_of (found_of matches.now))) }
    ensures checked { IsCheckedBy (is_at_once (rows_of (found_of matches.now))) result }
{
    if option_of(matches, "at-once").is_none() {
        return Ok(usual_at_once(matches));
    }
    match read_number(alloc, matches, "at-once", GREATEST_AT_ONCE)? {
        0 => Err(invalid_value(
            alloc,
            "at-once",
            "a number from 1 to 1024",
            text_of(matches, "at-once"),
        )?),
        number => Ok(number as usize),
    }
}

/// What the words ask for.
fn read_request<'a>(
    alloc: Global,
    matches: &ArgMatches<'a>,
) -> Result<ServeRequest<'a>, CommandError>
    ensures few { IfOk result
        (λ request. (request.limit < 2 ^ 63) × (request.result_limit < 2 ^ 63)) }
    ensures request { IfOk result (IsServeRequest (rows_of (found_of matches.now))) }
    ensures checked { IsCheckedBy (serve_words (rows_of (found_of matches.now))) result }
{
    let address = read_address(alloc, matches)?;
    let connections = read_number_or(alloc, matches, "connections", u64::MAX, u64::MAX)?;
    let limit = read_limit(alloc, matches, "limit")?;
    let result_limit = read_limit(alloc, matches, "result-limit")?;
    let idle = read_number_or(alloc, matches, "idle", GREATEST_LIMIT, IDLE_SECONDS)?;
    let at_once = read_at_once(alloc, matches)?;
    let prefix = read_prefix(alloc, matches)?;
    Ok(ServeRequest {
        address,
        connections,
        limit,
        result_limit,
        idle,
        at_once,
        prefix,
    })
}

/// Random keys for the tables of the cache.
fn draw_keys<W: Hosting>(world: &W) -> Result<RandomState, CommandError>
    ensures given { OnOk result (W.sees world.now).random }
    ensures fault { IfErr result (FailsForRandom (W.sees world.now)) }
{
    match world.random_keys() {
        Ok(keys) => Ok(keys),
        Err(fault) => Err(CommandError::Random(fault)),
    }
}

/// Listens at the address.
fn listen<W: Hosting>(alloc: Global, world: &W, address: &str) -> Result<Listening, CommandError>
    ensures listens { IfOk result (λ l. (W.sees world.now).listens address.now l.address) }
    ensures fault { IfErr result (OrMemory (FailsToListen (W.sees world.now) address.now)) }
{
    match world.listen(address) {
        Ok(listening) => Ok(listening),
        Err(fault) => Err(CommandError::Address {
            address: String::from_str(alloc, address)?,
            fault,
        }),
    }
}

/// Prints the address where it listens.
fn print_address<O: Write>(
    alloc: Global,
    address: &SocketAddr,
    out: &mut O,
) -> Result<(), CommandError>
    ensures printed { OnOk result
        (Appends (O.contents out.old) (O.contents out.new) (listening_line address.now)) }
    ensures begun { OnErr result ((O.contents out.new ≡ O.contents out.old)
        ⊎ AppendsBeginning (O.contents out.old) (O.contents out.new)
        (listening_line address.now)) }
    ensures unprinted { IfErr result
        (λ fault. ¬ IsPrintFault fault → O.contents out.new ≡ O.contents out.old) }
    ensures fault { IfErr result (OrMemory IsPrintFault) }
{
    let address = address.to_string(alloc)?;
    let mut line = String::from_str(alloc, "listening ")?;
    line.push_str(address.as_str())?;
    line.push_str("\n")?;
    print_all(out, line.as_bytes())
}

/// Prints the address where it listens, and serves as many connections as the words say, or without
/// end. By its bound it reads and writes no file, and connects to no server.
pub fn run_serve<W: Hosting, O: Write>(
    alloc: Global,
    world: &W,
    matches: &ArgMatches<'_>,
    out: &mut O,
) -> Result<(), CommandError>
    ensures served { OnOk result (ServesAsked (W.sees world.now) (rows_of (found_of matches.now))
        (O.contents out.old) (O.contents out.new)) }
    // A refusal leaves no byte that isn't of the address's line.
    ensures begun { OnErr result (BeginsListening (W.sees world.now)
        (rows_of (found_of matches.now))
        (O.contents out.old) (O.contents out.new)) }
    // Where it is for anything but the output or a connection, nothing was printed.
    ensures unprinted { IfErr result (λ fault. ¬ IsPrintFault fault → ¬ IsAcceptFault fault
        → O.contents out.new ≡ O.contents out.old) }
    // Where it listens was printed before connections were served.
    ensures told { IfErr result (λ fault. IsAcceptFault fault → PrintsListening (W.sees world.now)
        (rows_of (found_of matches.now)) (O.contents out.old) (O.contents out.new)) }
    // It is for the first fault: what comes before it has none.
    ensures refused { IfErr result
        (FailsServe (W.sees world.now) (rows_of (found_of matches.now))) }
{
    let request = read_request(alloc, matches)?;
    let keys = draw_keys(world)?;
    let cache: Cache<Global> = Cache::new(alloc, keys, request.limit, request.result_limit)?;
    let listening = listen(alloc, world, request.address)?;
    print_address(alloc, &listening.address, out)?;
    let service = Service {
        cache,
        prefix: request.prefix,
        connections: request.connections,
        at_once: request.at_once,
        idle: request.idle,
    };
    match world.serve(listening, service) {
        Ok(()) => Ok(()),
        Err(fault) => Err(CommandError::Accept(fault)),
    }
}
