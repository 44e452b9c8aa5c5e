ghost use Rattle.std.specs.Prelude.{◌≡◌, ◌++◌, ℕ, List, IfOk, codes, decimal, string_bytes};
ghost use Rattle.commands.specs.ErrorText.{IsCauseText, IsErrorText, IsProcessText, IsWordsAt};
ghost use Rattle.commands.specs.ErrorText.{IsWordsInLine, IsWordsOf, IsOfOption};
ghost use Rattle.commands.specs.ErrorText.{IsOfPath, number_at_most, request_words, said_of};
ghost use Rattle.commands.specs.ErrorText.{said_of_request, stages_words, written_option};
ghost use Rattle.remote.specs.Fault.{fault_text};

use crate::error::CommandError;
use crate::failure::{Failure, Method};
use crate::hint::{Hint, hint_text};
use crate::process_fault::{ProcessCause, ProcessFault};
use crate::stages::StagesFault;
use archive::Refusal;
use blob_digest::{Digest, DigestError};
use plan::PlanError;
use service::NotAccepted;
use std::alloc::{AllocError, Global};
use std::io;

/// What is said of a file that isn't read.
const TOO_LARGE: &str = "a file of more than 16777216 bytes";

/// What is said of a line of a list of stages.
const NO_STAGE: &str =
    "expected a stage's number, of 1 to 9 digits without a leading zero, and a newline";

/// What is said, behind what it is said of.
fn said_of(alloc: Global, head: &str, said: &str) -> Result<String, AllocError>
    ensures { IfOk result (λ text. string_bytes text ≡ said_of head.now said.now) }
{
    format!(in alloc; "{head}: {said}")
}

/// The words of a fault of the system, behind what it is of.
fn fault_of(alloc: Global, head: &str, fault: &io::Error) -> Result<String, AllocError>
    ensures { IfOk result (λ text. IsWordsOf head.now (string_bytes text)) }
{
    let said = fault.to_string(alloc)?;
    said_of(alloc, head, said.as_str())
}

/// What is said of what stands at a path.
pub(crate) fn of_path(alloc: Global, path: &str, said: &str) -> Result<String, AllocError>
    ensures { IfOk result (λ text. IsOfPath path.now said.now (string_bytes text)) }
{
    let quoted = format!(in alloc; "{path:?}")?;
    said_of(alloc, quoted.as_str(), said)
}

/// The words of a fault of the system at a path.
fn fault_at(alloc: Global, path: &str, fault: &io::Error) -> Result<String, AllocError>
    ensures { IfOk result (λ text. IsWordsAt path.now (string_bytes text)) }
{
    let said = fault.to_string(alloc)?;
    of_path(alloc, path, said.as_str())
}

/// An option as it is written. The digest of `get` and the evidence of `verify` are words without
/// one.
fn written_option(alloc: Global, option: &str) -> Result<String, AllocError>
    ensures { IfOk result (λ text. string_bytes text ≡ written_option option.now) }
{
    match option {
        "digest" => String::from_str(alloc, "<DIGEST>"),
        "evidence" => String::from_str(alloc, "<EVIDENCE>"),
        _ => format!(in alloc; "--{option}"),
    }
}

/// What is said of an option, for which a text was given.
fn of_option(alloc: Global, option: &str, said: &str, given: &str) -> Result<String, AllocError>
    ensures { IfOk result
        (λ text. IsOfOption option.now said.now given.now (string_bytes text)) }
{
    let written = written_option(alloc, option)?;
    let quoted = format!(in alloc; "{given:?}")?;
    format!(in alloc; "{written}: {said}, got {quoted}")
}

/// That the text of an option is no digest.
fn no_digest(
    alloc: Global,
    option: &str,
    fault: &DigestError,
    given: &str,
) -> Result<String, AllocError>
    ensures { IfOk result (λ text.
        (said : List ℕ) × IsOfOption option.now said given.now (string_bytes text)) }
{
    let said = fault.to_string(alloc)?;
    of_option(alloc, option, said.as_str(), given)
}

/// That it is no number, or is greater than this one.
fn no_number(alloc: Global, option: &str, greatest: u64, given: &str) -> Result<String, AllocError>
    ensures { IfOk result (λ text. IsOfOption option.now
        (codes "expected " ++ number_at_most greatest) given.now (string_bytes text)) }
{
    let expected = format!(in alloc; "a number of at most {greatest}")?;
    not_expected(alloc, option, expected.as_str(), given)
}

/// That it isn't what is expected.
fn not_expected(
    alloc: Global,
    option: &str,
    expected: &str,
    given: &str,
) -> Result<String, AllocError>
    ensures { IfOk result (λ text. IsOfOption option.now (codes "expected " ++ expected.now)
        given.now (string_bytes text)) }
{
    let said = format!(in alloc; "expected {expected}")?;
    of_option(alloc, option, said.as_str(), given)
}

/// That a line of a file is at fault, and what may be wrong with it.
fn faulty_line(
    alloc: Global,
    path: &str,
    fault: &PlanError,
    hint: &Option<Hint>,
) -> Result<String, AllocError>
    ensures { IfOk result
        (λ text. IsWordsInLine path.now fault.now.line hint.now (string_bytes text)) }
{
    let line = fault.line;
    let head = format!(in alloc; "line {line}")?;
    let mut words = fault.fault.to_string(alloc)?;
    words.push_str(hint_text(hint))?;
    let said = said_of(alloc, head.as_str(), words.as_str())?;
    of_path(alloc, path, said.as_str())
}

/// That a file is no archive, from a byte on.
fn no_archive(alloc: Global, path: &str, at: u64, refusal: Refusal) -> Result<String, AllocError>
    ensures { IfOk result (λ text. (words : List ℕ)
        × IsOfPath path.now (said_of (codes "at byte " ++ decimal at) words) (string_bytes text)) }
{
    let head = format!(in alloc; "at byte {at}")?;
    let words = refusal.to_string(alloc)?;
    let said = said_of(alloc, head.as_str(), words.as_str())?;
    of_path(alloc, path, said.as_str())
}

/// What is wrong with a list of stages.
fn stages_words(alloc: Global, fault: &StagesFault) -> Result<String, AllocError>
    ensures { IfOk result (λ text. string_bytes text ≡ stages_words fault.now) }
{
    match fault {
        StagesFault::Line(line) => {
            let head = format!(in alloc; "line {line}")?;
            said_of(alloc, head.as_str(), NO_STAGE)
        }
        StagesFault::PlanBeside => String::from_str(alloc, "stages, and a plan beside them"),
    }
}

/// That a list of stages is at fault.
fn faulty_stages(alloc: Global, path: &str, fault: &StagesFault) -> Result<String, AllocError>
    ensures { IfOk result
        (λ text. IsOfPath path.now (stages_words fault.now) (string_bytes text)) }
{
    let said = stages_words(alloc, fault)?;
    of_path(alloc, path, said.as_str())
}

/// That the line of a file is no digest.
fn no_digest_line(alloc: Global, path: &str, fault: &DigestError) -> Result<String, AllocError>
    ensures { IfOk result (λ text. IsWordsAt path.now (string_bytes text)) }
{
    let said = fault.to_string(alloc)?;
    of_path(alloc, path, said.as_str())
}

/// What a request asks, and of which digest.
fn request_words(alloc: Global, method: Method, digest: &Digest) -> Result<String, AllocError>
    ensures { IfOk result (λ words. string_bytes words ≡ request_words method digest.now) }
{
    let asked = method.text();
    let text = digest.write_text(alloc)?;
    format!(in alloc; "{asked} {text}")
}

/// What is said of a request to a server.
fn of_request(
    alloc: Global,
    server: &str,
    method: Method,
    digest: &Digest,
    said: &str,
) -> Result<String, AllocError>
    ensures { IfOk result (λ text.
        string_bytes text ≡ said_of_request server.now method digest.now said.now) }
{
    let request = request_words(alloc, method, digest)?;
    let words = said_of(alloc, request.as_str(), said)?;
    said_of(alloc, server, words.as_str())
}

/// That a server refused a request.
fn refused_request(alloc: Global, server: &str, failure: &Failure) -> Result<String, AllocError>
    ensures { IfOk result (λ text. string_bytes text ≡ said_of_request server.now
        failure.now.method failure.now.digest (fault_text failure.now.fault)) }
{
    let said = failure.fault.to_string(alloc)?;
    of_request(
        alloc,
        server,
        failure.method,
        &failure.digest,
        said.as_str(),
    )
}

/// That no connection to a server could be opened.
fn not_connected(alloc: Global, server: &str, fault: &io::Error) -> Result<String, AllocError>
    ensures { IfOk result (λ text. (said : List ℕ) × IsWordsOf (codes "can't connect") said
        × (string_bytes text ≡ said_of server.now said)) }
{
    let said = fault_of(alloc, "can't connect", fault)?;
    said_of(alloc, server, said.as_str())
}

/// That no socket could be bound at an address.
fn not_listening(alloc: Global, address: &str, fault: &io::Error) -> Result<String, AllocError>
    ensures { IfOk result (λ text. (said : List ℕ) × IsWordsOf (codes "can't listen") said
        × IsOfPath address.now said (string_bytes text)) }
{
    let said = fault_of(alloc, "can't listen", fault)?;
    of_path(alloc, address, said.as_str())
}

/// That no more connections are served.
fn not_accepted(alloc: Global, fault: &NotAccepted) -> Result<String, AllocError>
    ensures { IfOk result (λ text. IsWordsOf
        (codes "no more connections are served after " ++ decimal fault.now.accepted)
        (string_bytes text)) }
{
    let accepted = fault.accepted;
    let head = format!(in alloc; "no more connections are served after {accepted}")?;
    fault_of(alloc, head.as_str(), &fault.fault)
}

/// Why a process came to nothing, by its program's name in quotes.
fn cause_text(alloc: Global, quoted: &str, cause: &ProcessCause) -> Result<String, AllocError>
    ensures { IfOk result (λ text. IsCauseText quoted.now cause.now (string_bytes text)) }
{
    match cause {
        ProcessCause::Unstarted(fault) => {
            let head = format!(in alloc; "can't run {quoted}")?;
            fault_of(alloc, head.as_str(), fault)
        }
        ProcessCause::Unwaited(fault) => {
            let head = format!(in alloc; "can't wait for {quoted}")?;
            fault_of(alloc, head.as_str(), fault)
        }
        ProcessCause::Unread(fault) => {
            let head = format!(in alloc; "can't read the outputs of {quoted}")?;
            fault_of(alloc, head.as_str(), fault)
        }
        ProcessCause::Signal(number) => {
            format!(in alloc; "{quoted} was ended by signal {number}")
        }
    }
}

/// That a process came to nothing: where, of which program, and why.
fn process_text(alloc: Global, fault: &ProcessFault) -> Result<String, AllocError>
    ensures { IfOk result (λ text. IsProcessText fault.now (string_bytes text)) }
{
    let program = fault.program.as_str();
    let quoted = format!(in alloc; "{program:?}")?;
    let said = cause_text(alloc, quoted.as_str(), &fault.cause)?;
    said_of(alloc, fault.place.as_str(), said.as_str())
}

/// The text of an error.
pub(crate) fn error_text(alloc: Global, error: &CommandError) -> Result<String, AllocError>
    ensures { IfOk result (λ text. IsErrorText error.now (string_bytes text)) }
{
    match error {
        CommandError::Usage(said) => String::from_str(alloc, said.as_str()),
        CommandError::Digest {
            option,
            text,
            fault,
        } => no_digest(alloc, option, fault, text.as_str()),
        CommandError::DigestFile { path, fault } => no_digest_line(alloc, path.as_str(), fault),
        CommandError::Archive { path, at, refusal } => {
            no_archive(alloc, path.as_str(), *at, *refusal)
        }
        CommandError::Number {
            option,
            greatest,
            text,
        } => no_number(alloc, option, *greatest, text.as_str()),
        CommandError::InvalidValue {
            option,
            expected,
            text,
        } => not_expected(alloc, option, expected, text.as_str()),
        CommandError::Stages { path, fault } => faulty_stages(alloc, path.as_str(), fault),
        CommandError::Text { path, fault, hint } => faulty_line(alloc, path.as_str(), fault, hint),
        CommandError::File { path, fault } => fault_at(alloc, path.as_str(), fault),
        CommandError::NotAFile { path } => of_path(alloc, path.as_str(), "not a file"),
        CommandError::TooLarge { path } => of_path(alloc, path.as_str(), TOO_LARGE),
        CommandError::Entry { path, fault } => of_path(alloc, path.as_str(), fault),
        CommandError::Connection { server, fault } => not_connected(alloc, server.as_str(), fault),
        CommandError::Server { server, failure } => {
            refused_request(alloc, server.as_str(), failure)
        }
        CommandError::Blob {
            server,
            digest,
            fault,
        } => of_request(alloc, server.as_str(), Method::GetBlob, digest, fault),
        CommandError::Address { address, fault } => not_listening(alloc, address.as_str(), fault),
        CommandError::Accept(fault) => not_accepted(alloc, fault),
        CommandError::Process(fault) => process_text(alloc, fault),
        CommandError::Random(fault) => fault_of(alloc, "random bytes", fault),
        CommandError::Output(fault) => fault_of(alloc, "standard output", fault),
        CommandError::Memory => String::from_str(alloc, "out of memory"),
    }
}
