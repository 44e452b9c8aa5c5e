ghost use Rattle.std.specs.Prelude.{◌≡◌, ◌↔◌, IsTrue, option_map};
ghost use Rattle.clap.specs.Words.{found_of, first_of, rows_of};
ghost use Rattle.command_lines.specs.CommandLine.{IsSet, option_text};

use clap::ArgMatches;

/// The text of an option, where it is there.
pub fn option_of<'a>(matches: &ArgMatches<'a>, option: &'static str) -> Option<&'a str>
    ensures { option_map (λ s. s.now) result
        ≡ first_of option.now (rows_of (found_of matches.now)) }
{
    matches.get_str(option)
}

/// The text of an option that clap has found to be there.
pub fn text_of<'a>(matches: &ArgMatches<'a>, option: &'static str) -> &'a str
    ensures { result.now ≡ option_text (rows_of (found_of matches.now)) option.now }
{
    option_of(matches, option).unwrap_or("")
}

/// Whether a flag is given.
pub fn is_set(matches: &ArgMatches<'_>, flag: &'static str) -> bool
    ensures { IsTrue result ↔ IsSet (rows_of (found_of matches.now)) flag.now }
{
    option_of(matches, flag) == Some("true")
}
