ghost use Rattle.std.specs.Prelude.{◌≡◌, ◌↔◌, IfErr, IfOk, IsTrue, SomeIff};
ghost use Rattle.command_lines.specs.CommandLine.{option_text};
ghost use Rattle.commands.specs.Faults.{IsDigestFault, IsInvalidValue};
ghost use Rattle.commands.specs.Options.{IsAddress, IsNumber, IsTimeout, decimal_number};
ghost use Rattle.text_verifier.specs.Texts.{IsDigestText};

use crate::error::CommandError;
use blob_digest::Digest;
use clap::ArgMatches;
use command_lines::option_of;
use std::alloc::{AllocError, Global};
use std::time::Duration;

/// The texts of a command's options.
pub trait Options {
    ghost use Rattle.std.specs.Prelude.{◌≡◌, List, option_map};
    ghost use Rattle.clap.specs.Words.{Row, first_of};

    ghost rows: { Self → List Row };

    /// The text of an option, where it is there.
    fn text(&self, option: &'static str) -> Option<&str>
        ensures { option_map (λ s. s.now) result ≡ first_of option.now (Self.rows self.now) };
}

/// The options as they were said.
impl Options for ArgMatches<'_> {
    ghost use Rattle.clap.specs.Words.{found_of, rows_of};

    ghost rows = { λ matches. rows_of (found_of matches) };

    fn text(&self, option: &'static str) -> Option<&str> {
        option_of(self, option)
    }
}

/// The text of an option, or none of no bytes.
pub(crate) fn text_for<'m, M: Options>(options: &'m M, option: &'static str) -> &'m str
    ensures { result.now ≡ option_text (M.rows options.now) option.now }
{
    options.text(option).unwrap_or("")
}

/// The digest that an option spells.
pub fn read_digest<M: Options>(
    alloc: Global,
    options: &M,
    option: &'static str,
) -> Result<Digest, CommandError>
    ensures found { IfOk result (IsDigestText (option_text (M.rows options.now) option.now)) }
    ensures fault { IfErr result
        (IsDigestFault option.now (option_text (M.rows options.now) option.now)) }
{
    let text = text_for(options, option);
    match Digest::read_text(text.as_bytes()) {
        Ok(digest) => Ok(digest),
        Err(fault) => Err(CommandError::Digest {
            option,
            text: String::from_str(alloc, text)?,
            fault,
        }),
    }
}

/// The number that a text of decimal digits alone spells, where it is less than 2^64.
pub fn number_in(text: &str) -> Option<u64>
    ensures { SomeIff result (IsNumber text.now) (decimal_number text.now) }
{
    if text.as_bytes().starts_with(b"+") {
        return None;
    }
    text.parse().ok()
}

/// How long something may take, by a number of seconds; 0: without end.
pub(crate) fn limit_of(seconds: u64) -> Option<Duration>
    ensures { IsTimeout seconds result }
{
    match seconds {
        0 => None,
        seconds => Some(Duration::from_secs(seconds)),
    }
}

/// Whether it is HOST:PORT.
pub(crate) fn is_address(text: &str) -> bool
    ensures { IsTrue result ↔ IsAddress text.now }
{
    let Some((host, port)) = text.rsplit_once(':') else {
        return false;
    };
    match number_in(port) {
        Some(number) => !host.is_empty() && number < 65_536,
        None => false,
    }
}

/// The error of an option whose text isn't what is expected.
pub fn invalid_value(
    alloc: Global,
    option: &'static str,
    expected: &'static str,
    text: &str,
) -> Result<CommandError, AllocError>
    ensures { IfOk result (IsInvalidValue option.now expected.now text.now) }
{
    Ok(CommandError::InvalidValue {
        option,
        expected,
        text: String::from_str(alloc, text)?,
    })
}
