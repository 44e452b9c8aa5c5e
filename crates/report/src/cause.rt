ghost use Rattle.std.specs.Prelude.{◌≡◌, IfOk, OnOk, string_bytes};
ghost use Rattle.std.specs.Fmt.{signed_decimal};
ghost use Rattle.blob_digest.specs.Text.{digest_text};
ghost use Rattle.plan.specs.Escape.{escaped_path};
ghost use Rattle.report.specs.Line.{HasNoNewline, cause_text, named};

use blob_digest::Digest;
use messages::Path;
use plan::write_path;
use std::alloc::{AllocError, Allocator};
use verifier::Cause;

/// The word and the digest, separated by a space.
fn digest_named<A: Allocator + Copy>(
    alloc: A,
    word: &str,
    digest: &Digest,
) -> Result<String<A>, AllocError>
    requires { HasNoNewline word.now }
    ensures value { IfOk result
        (λ text. string_bytes text ≡ named word.now (digest_text digest.now)) }
    ensures unbroken { OnOk result (HasNoNewline (named word.now (digest_text digest.now))) }
{
    // A read for the prover: a digest's hash has 32 bytes.
    let _ = digest.hash();
    let digest = digest.write_text(alloc)?;
    format!(in alloc; "{word} {digest}")
}

/// The word and the path, separated by a space.
fn path_named<A: Allocator + Copy, B: Allocator>(
    alloc: A,
    word: &str,
    path: &Path<B>,
) -> Result<String<A>, AllocError>
    requires { HasNoNewline word.now }
    ensures value { IfOk result
        (λ text. string_bytes text ≡ named word.now (escaped_path path.now)) }
    ensures unbroken { OnOk result (HasNoNewline (named word.now (escaped_path path.now))) }
{
    let path = write_path(alloc, path)?;
    format!(in alloc; "{word} {path}")
}

/// The word and the exit code, separated by a space.
fn code_named<A: Allocator + Copy>(alloc: A, word: &str, code: i32) -> Result<String<A>, AllocError>
    requires { HasNoNewline word.now }
    ensures value { IfOk result (λ text. string_bytes text ≡ named word.now (signed_decimal code)) }
    ensures unbroken { OnOk result (HasNoNewline (named word.now (signed_decimal code))) }
{
    format!(in alloc; "{word} {code}")
}

/// The cause's word, and what it names: a digest, a path as plans spell it, or an exit code.
#[tactic(auto, using(crate::proofs::Unbroken::none_seen))]
pub fn cause_text<A: Allocator + Copy, B: Allocator>(
    alloc: A,
    cause: &Cause<B>,
) -> Result<String<A>, AllocError>
    ensures value { IfOk result (λ text. string_bytes text ≡ cause_text cause.now) }
    ensures unbroken { OnOk result (HasNoNewline (cause_text cause.now)) }
{
    match cause {
        Cause::BlobMissing(digest) => digest_named(alloc, "blob-missing", digest),
        Cause::BlobWrong(digest) => digest_named(alloc, "blob-wrong", digest),
        Cause::BlobMalformed(digest) => digest_named(alloc, "blob-malformed", digest),
        Cause::DoNotCache => String::from_str(alloc, "do-not-cache"),
        Cause::OriginMissing(path) => path_named(alloc, "origin-missing", path),
        Cause::FrameDiffers => String::from_str(alloc, "frame-differs"),
        Cause::InputConflict(path) => path_named(alloc, "input-conflict", path),
        Cause::InputUnexplained(path) => path_named(alloc, "input-unexplained", path),
        Cause::InputAbsent(path) => path_named(alloc, "input-absent", path),
        Cause::InputDiffers(path) => path_named(alloc, "input-differs", path),
        Cause::ResultMissing => String::from_str(alloc, "result-missing"),
        Cause::ResultMalformed => String::from_str(alloc, "result-malformed"),
        Cause::ExitCode(code) => code_named(alloc, "exit-code", *code),
        Cause::OutputUnlisted(path) => path_named(alloc, "output-unlisted", path),
        Cause::RootDiffers(root) => digest_named(alloc, "root-differs", root),
    }
}
