ghost use Rattle.std.specs.Prelude.{◌≡◌, ◌∷◌, [], IfOk, codes, map, string_bytes};
ghost use Rattle.commands.specs.Evidence.{evidence_words, goes_alone, has_wanted, missing};
ghost use Rattle.commands.specs.Evidence.{artifact_words, has_bits_of_folder, has_one_claim};
ghost use Rattle.commands.specs.Evidence.{asked_words, keep_words, leaves, may_name_kept};
ghost use Rattle.commands.specs.Evidence.{missing_claim, missing_option};
ghost use Rattle.commands.specs.Evidence.{names_evidence, needs_server};
ghost use Rattle.commands.specs.Words.{IsCheckedBy, server_words, where_said};

use crate::connecting::read_server;
use crate::error::CommandError;
use crate::options::{Options, invalid_value, text_for};
use crate::verifying::check_folder;
use std::alloc::{AllocError, Global};

/// An option that is wanted where no evidence is named, as help writes it, if it isn't said.
fn missing_option<M: Options>(
    alloc: Global,
    options: &M,
    option: &'static str,
    value: &str,
) -> Result<String, AllocError>
    ensures { IfOk result (λ text. string_bytes text
        ≡ missing_option (M.rows options.now) option.now value.now) }
{
    if options.text(option).is_some() {
        return Ok(String::new(alloc));
    }
    format!(in alloc; " --{option} <{value}>")
}

/// The claim, if neither it nor a folder that stands for it is said.
fn missing_claim<M: Options>(alloc: Global, options: &M) -> Result<String, AllocError>
    ensures { IfOk result (λ text. string_bytes text ≡ missing_claim (M.rows options.now)) }
{
    if options.text("artifact").is_some() {
        return Ok(String::new(alloc));
    }
    missing_option(alloc, options, "claim", "DIGEST")
}

/// All that is wanted where no evidence is named, and isn't said.
fn missing_options<M: Options>(alloc: Global, options: &M) -> Result<String, AllocError>
    ensures { IfOk result (λ text. string_bytes text ≡ missing (M.rows options.now)) }
{
    let sources = missing_option(alloc, options, "sources", "DIGEST")?;
    let plan = missing_option(alloc, options, "plan", "FILE")?;
    let record = missing_option(alloc, options, "record", "FILE")?;
    let claim = missing_claim(alloc, options)?;
    format!(in alloc; "{sources}{plan}{record}{claim}")
}

/// Without evidence all that is wanted is said.
fn check_wanted<M: Options>(alloc: Global, options: &M) -> Result<(), CommandError>
    ensures { IsCheckedBy (has_wanted (M.rows options.now) ∷ []) result }
{
    let missing = missing_options(alloc, options)?;
    if missing.is_empty() {
        return Ok(());
    }
    let head = "the following required arguments were not provided:";
    Err(CommandError::Usage(format!(in alloc; "{head}{missing}, or <EVIDENCE>")?))
}

/// A folder that stands for a claim isn't said beside one.
fn check_one_claim<M: Options>(alloc: Global, options: &M) -> Result<(), CommandError>
    ensures { IsCheckedBy (has_one_claim (M.rows options.now) ∷ []) result }
{
    if options.text("artifact").is_none() || options.text("claim").is_none() {
        return Ok(());
    }
    let text = String::from_str(alloc, "--claim cannot be used with --artifact")?;
    Err(CommandError::Usage(text))
}

/// The flag for bits isn't given without such a folder.
fn check_bits<M: Options>(alloc: Global, options: &M) -> Result<(), CommandError>
    ensures { IsCheckedBy (has_bits_of_folder (M.rows options.now) ∷ []) result }
{
    if options.text("no-bits") != Some("true") || options.text("artifact").is_some() {
        return Ok(());
    }
    let text = String::from_str(alloc, "--no-bits cannot be used without --artifact")?;
    Err(CommandError::Usage(text))
}

/// What is said of a folder that stands for a claim goes together.
fn check_artifact<M: Options>(alloc: Global, options: &M) -> Result<(), CommandError>
    ensures { IsCheckedBy (artifact_words (M.rows options.now)) result }
{
    check_one_claim(alloc, options)?;
    check_bits(alloc, options)?;
    check_folder(alloc, options, "artifact")
}

/// An option that can't stand beside evidence isn't said.
fn check_alone<M: Options>(
    alloc: Global,
    options: &M,
    option: &'static str,
) -> Result<(), CommandError>
    ensures { IsCheckedBy (goes_alone (M.rows options.now) option.now ∷ []) result }
{
    if options.text(option).is_none() {
        return Ok(());
    }
    Err(CommandError::Usage(format!(in alloc; "--{option} cannot be used with <EVIDENCE>")?))
}

/// An option that is of a server isn't said without one.
fn check_with_server<M: Options>(
    alloc: Global,
    options: &M,
    option: &'static str,
) -> Result<(), CommandError>
    ensures { IsCheckedBy (needs_server (M.rows options.now) option.now ∷ []) result }
{
    if options.text(option).is_none() || options.text("server").is_some() {
        return Ok(());
    }
    Err(CommandError::Usage(format!(in alloc; "--{option} cannot be used without --server")?))
}

/// The path of evidence isn't empty.
fn check_named<M: Options>(alloc: Global, options: &M) -> Result<(), CommandError>
    ensures { IsCheckedBy (names_evidence (M.rows options.now) ∷ []) result }
{
    if text_for(options, "evidence").is_empty() {
        return Err(invalid_value(alloc, "evidence", "a folder or an archive", "")?);
    }
    Ok(())
}

/// What is said of a server is valid, where one is said.
fn check_server<M: Options>(alloc: Global, options: &M) -> Result<(), CommandError>
    ensures { IsCheckedBy (map (where_said (M.rows options.now) (codes "server"))
        (server_words (M.rows options.now))) result }
{
    if options.text("server").is_some() {
        read_server(alloc, options)?;
    }
    Ok(())
}

/// The file for what is looked at isn't one that the option names.
fn check_leaves<M: Options>(
    alloc: Global,
    options: &M,
    option: &'static str,
    written: &str,
) -> Result<(), CommandError>
    ensures { IsCheckedBy (leaves (M.rows options.now) option.now written.now ∷ []) result }
{
    match options.text("keep") {
        Some(path) if path == text_for(options, option) => Err(CommandError::Usage(format!(in alloc;
            "--keep cannot name the file of {written}"
        )?)),
        _ => Ok(()),
    }
}

/// The file for what is looked at has a name, where it is said.
fn check_kept_file<M: Options>(alloc: Global, options: &M) -> Result<(), CommandError>
    ensures { IsCheckedBy (may_name_kept (M.rows options.now) ∷ []) result }
{
    match options.text("keep") {
        Some("") => Err(invalid_value(alloc, "keep", "a file", "")?),
        _ => Ok(()),
    }
}

/// The file for what is looked at has a name, and is none that is asked.
fn check_keep<M: Options>(alloc: Global, options: &M) -> Result<(), CommandError>
    ensures { IsCheckedBy (keep_words (M.rows options.now)) result }
{
    check_kept_file(alloc, options)?;
    check_leaves(alloc, options, "plan", "--plan")?;
    check_leaves(alloc, options, "record", "--record")?;
    check_leaves(alloc, options, "evidence", "<EVIDENCE>")
}

/// What is said beside evidence goes with it.
fn check_words<M: Options>(alloc: Global, options: &M) -> Result<(), CommandError>
    ensures { IsCheckedBy (evidence_words (M.rows options.now)) result }
{
    check_alone(alloc, options, "plan")?;
    check_alone(alloc, options, "record")?;
    check_alone(alloc, options, "store")?;
    check_alone(alloc, options, "results")?;
    check_with_server(alloc, options, "prefix")?;
    check_with_server(alloc, options, "timeout")?;
    check_named(alloc, options)?;
    check_server(alloc, options)
}

/// The words are valid, with evidence or without it.
pub(crate) fn check_asked<M: Options>(alloc: Global, options: &M) -> Result<(), CommandError>
    ensures { IsCheckedBy (asked_words (M.rows options.now)) result }
{
    check_artifact(alloc, options)?;
    match options.text("evidence") {
        Some(_) => check_words(alloc, options)?,
        None => check_wanted(alloc, options)?,
    }
    check_keep(alloc, options)
}
